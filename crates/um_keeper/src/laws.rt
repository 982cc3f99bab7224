//! Laws of the definitions of a store, as functions that do nothing.
ghost use Rattle.std.specs.Prelude.{◌≡◌, ◌↔◌, ◌+◌, ◌-◌, ◌^◌, ◌<◌, ◌≤◌, ℕ, List};
ghost use Rattle.um_keeper.specs.Finished.{RepeatsNone, WaitsForCommand};
ghost use Rattle.um_keeper.specs.Opening.{IsUnread, IsUntaken, IsTakenUp, IsNextOf};
ghost use Rattle.um_keeper.specs.Parts.{ArePartsOfLives};
ghost use Rattle.um_log.specs.Greatest.{IsGreatest};
ghost use Rattle.um_model.specs.Disk.{Image};
ghost use Rattle.um_model.specs.Finished.{IsAtRest};
ghost use Rattle.um_model.specs.Lives.{Life, Lived, AreKept, RunsThrough, HasInOrder, all_answered};
ghost use Rattle.um_model.specs.Machine.{State, Input, Run};
ghost use Rattle.um_model.specs.Stands.{StandsFor, IsStoreOf};
ghost use Rattle.um_model.specs.InputSpellings.{input_limit};
ghost use Rattle.um_model.specs.Store.{top, body_limit, record_limit, store_sectors};
ghost use Rattle.um_model.specs.Unread.{IsRead};
ghost use Rattle.um_model.specs.declared.layout.Layout.{Layout};
ghost use Rattle.um_model.specs.declared.layout.Slot.{Slot};
ghost use Rattle.um_wire.specs.declared.refusal.Refusal.{Refusal};
ghost use Rattle.um_wire.specs.declared.refusal.Refusal.TheVariants.{GenerationsSpent};

/// An image stands for one state at most, of one layout.
pub fn an_image_stands_for_one_state()
    ensures state { (layout : Layout) (image : Image) (s t : State) → StandsFor layout image s → StandsFor layout image t → s ≡ t }
    ensures layout { (l m : Layout) (image : Image) (s t : State) → StandsFor l image s → StandsFor m image t → l ≡ m }
{}

/// Images that agree in each sector that the reading of a store looks at stand for the same state, or for none.
pub fn unread()
    ensures { (layout : Layout) (a b : Image) → ((j : ℕ) → IsRead layout a j → b j ≡ a j) → (s : State) → StandsFor layout a s ↔ StandsFor layout b s }
{}

/// An input that isn't refused has room in a record of each generation.
pub fn an_input_has_room_in_a_record()
    ensures { (layout : Layout) (generation : ℕ) → input_limit ≤ record_limit layout generation }
{}

/// A store may have any number of lives, each opened on the image that the crash before it left. The first image is a
/// store of some state, as that of a new store is. Then the last image is a store of the state that one run reaches
/// from there over the inputs that were kept. Each input that was answered got its reply in that run. The inputs that
/// were kept include all that were answered, in their order.
pub fn lives()
    ensures state { (layout : Layout) (first last : Image) (lives : List Life) (s : State) → IsStoreOf layout first s → Lived layout first lives last
        → (kept : List Input) × AreKept lives kept × (t : State) × Run (body_limit layout) s kept t × RunsThrough (body_limit layout) s lives kept t
        × IsStoreOf layout last t }
    ensures answered { (lives : List Life) (kept : List Input) → AreKept lives kept → HasInOrder (all_answered lives) kept }
{}

/// The inputs offered to a store are a part of a life of it, answered or not. Inputs that were answered bring it to the
/// state after them. Of inputs that a crash interrupts it may leave a beginning, without those that were turned away.
/// So calls may follow each other, and `lives` holds of them.
pub fn offers_are_parts_of_lives()
    ensures { ArePartsOfLives }
{}

/// A finished job is never repeated. Wherever in a run a oneshot finishes and no start of it is pending then, none of
/// its starts begins later before a command's plan puts one, in that boot or in a later one. The same holds of each
/// unit at rest, whatever its kind and however it got there. It also holds over all crashes: from the state of the
/// first image on, in the one run over the inputs kept of all lives.
pub fn finished()
    ensures run { (size : ℕ) (s t : State) (inputs : List Input) (run : Run size s inputs t) → RepeatsNone run }
    ensures rest { (size : ℕ) (s t : State) (inputs : List Input) (run : Run size s inputs t) (unit : List ℕ) → IsAtRest s unit → WaitsForCommand unit run }
    ensures crashes { (layout : Layout) (first last : Image) (lives : List Life) (s : State) → IsStoreOf layout first s → Lived layout first lives last
        → (kept : List Input) × AreKept lives kept × (t : State) × (run : Run (body_limit layout) s kept t) × RepeatsNone run
        × ((unit : List ℕ) → IsAtRest s unit → WaitsForCommand unit run) × IsStoreOf layout last t }
{}

/// An image that stands for a state isn't refused for any cause of its reading if the disk has room. So E20 alone may
/// refuse it, past the last generation.
pub fn a_store_is_taken_up()
    ensures read { (count : ℕ) (layout : Layout) (image : Image) (s : State) (e : Refusal) → store_sectors layout ≤ count → StandsFor layout image s
        → ¬ IsUnread count image e }
    ensures spent { (count : ℕ) (layout : Layout) (image : Image) (s : State) (e : Refusal) → store_sectors layout ≤ count → StandsFor layout image s
        → IsUntaken count image e → e ≡ GenerationsSpent }
{}

/// A store that can be taken up isn't refused, unless the greatest generation that stands there is the last one.
pub fn what_is_taken_up_is_not_refused()
    ensures { (count : ℕ) (layout : Layout) (image : Image) (slot : Slot) (generation greatest : ℕ) (s : State) (e : Refusal)
        (taken : IsTakenUp count image layout slot generation s) → IsGreatest layout image (top taken.has.format generation) greatest → greatest < 2 ^ 64 - 1 → ¬ IsUntaken count image e }
{}

/// A store that was left by calls that answered is opened into the generation after those whose records count: no
/// sector of its log is of a later one than these.
pub fn a_store_goes_up_behind_the_generations_that_count()
    ensures { (count : ℕ) (layout : Layout) (image : Image) (slot : Slot) (generation : ℕ) (s : State) (next : IsNextOf count image layout slot generation s)
        → IsStoreOf layout image s → generation ≡ top next.taken.has.format next.earlier + 1 }
{}
