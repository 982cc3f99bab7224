//! Room for texts.

ghost use Rattle.std.specs.Prelude.{◌≡◌, ◌<◌, ◌^◌, ◌-◌, ℕ, List, [], ◌∷◌, length, min, map, string_bytes};
ghost use Rattle.um_words.specs.Rooms.{left};

/// Room for texts, in bytes.
#[derive(Clone, Copy, Debug, PartialEq, Eq)]
pub struct Room {
    /// The most that all of them may take together.
    pub total: u32,
    /// The most that each of them may take.
    pub longest: u32,
    /// The bytes that each takes in addition to its own.
    pub beside: u32,
}

impl Room {
    /// The room that a text of this many bytes leaves, if it fits. The greatest `usize` may stand for more bytes.
    pub fn after(self, bytes: usize) -> Option<Room>
        ensures { (text : List ℕ) → bytes ≡ min (length text) (2 ^ 64 - 1) → result ≡ left self (text ∷ []) }
    {
        let size = u32::try_from(bytes).ok()?.checked_add(self.beside)?;
        if size > self.longest {
            return None;
        }
        let total = self.total.checked_sub(size)?;
        Some(Room { total, ..self })
    }

    /// The room that these texts leave, if they fit.
    pub fn after_texts(self, texts: &[String]) -> Option<Room>
        ensures { result ≡ left self (map string_bytes texts.now) }
    {
        let mut free = self;
        for text in texts {
            free = free.after(text.len())?;
        }
        Some(free)
    }
}
