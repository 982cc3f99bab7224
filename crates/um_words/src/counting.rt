//! The room that the words of a command take with its variables, counted without building the words.

ghost use Rattle.std.specs.Prelude.{◌≡◌, ◌++◌, ◌∷◌, ◌^◌, ◌-◌, List, IfOk, length, min, map, string_bytes};
ghost use Rattle.std.specs.List.{flat_map};
ghost use Rattle.um_model.specs.Substitution as pure;
ghost use Rattle.um_words.specs.Environment.{variables_of};
ghost use Rattle.um_words.specs.Rooms.{left};
ghost use Rattle.um_words.specs.Substituted.{filled, becomes, substituted};
ghost use Rattle.um_words.specs.Values.{Holds};

use crate::room::Room;
use crate::substitution::piece;
use crate::values::Values;
use crate::variables::{Variable, whole_name};
use std::alloc::{AllocError, Global};

/// The length of the word with each `${NAME}` filled in, at most the greatest `usize`.
fn filled_len<'a>(values: &'a Values, word: &'a str) -> usize
    ensures { (environment : List pure.Variable) → Holds environment values.now → result ≡ min (length (filled environment word.now)) (2 ^ 64 - 1) }
{
    let mut length: usize = 0;
    let mut rest = word;
    while let Some((before, behind)) = rest.split_once('$') {
        let (value, after) = piece(values, behind);
        length = length
            .saturating_add(before.len())
            .saturating_add(value.len());
        rest = after;
    }
    length.saturating_add(rest.len())
}

/// The room after the result of a word.
fn after_word(room: Room, values: &Values, word: &str) -> Option<Room>
    ensures { (environment : List pure.Variable) → Holds environment values.now → result ≡ left room (becomes environment word.now) }
{
    match whole_name(word) {
        Some(name) => room.after_texts(values.words(name)),
        None => room.after(filled_len(values, word)),
    }
}

/// The room after the first word and the results of the others.
fn after_words(room: Room, values: &Values, first: &str, others: &[String]) -> Option<Room>
    ensures { (environment : List pure.Variable) → Holds environment values.now
        → result ≡ left room (substituted environment (first.now ∷ map string_bytes others.now)) }
{
    let mut free = room.after(first.len())?;
    for word in others {
        free = after_word(free, values, word)?;
    }
    Some(free)
}

/// The room that the words of a command leave with its variables, as `substitute` builds them; `None` if they don't
/// fit. It stops at the first word that doesn't fit, and takes memory only for the values, each split once.
pub fn room_after(
    alloc: Global,
    room: Room,
    words: &[String],
    environment: &[Variable],
) -> Result<Option<Room>, AllocError>
    ensures { IfOk result (λ free. free ≡ left room (substituted (variables_of environment.now) (map string_bytes words.now))) }
{
    let Some((first, others)) = words.split_first() else {
        return Ok(Some(room));
    };
    let values = Values::of(alloc, environment)?;
    Ok(after_words(room, &values, first, others))
}
