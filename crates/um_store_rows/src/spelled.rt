//! Values and the bytes that spell them.
use std::fmt::Debug;
use std::process::Abort;
use um_asserts::{same, same_at};
use um_wire::{Canon, spell};

/// Asserts that the value is spelled by these bytes.
fn has_spelling<T: Canon>(rt: &(impl AllocGlobal + Abort), value: &T, bytes: &[u8]) {
    let spelled = spell(rt.alloc(), value).expect(rt, "no memory");
    same!(rt, spelled.as_slice(), bytes);
}

/// The bytes with others after them.
pub fn followed(rt: &(impl AllocGlobal + Abort), bytes: &[u8]) -> Vec<u8> {
    let mut longer = Vec::from_slice(rt.alloc(), bytes).expect(rt, "no memory");
    longer
        .extend_from_slice(&[7, 0, 255])
        .expect(rt, "no memory");
    longer
}

/// Asserts that a value is read from the bytes with others after them, and is spelled by the bytes.
pub fn is_read<T: Canon + Drop>(rt: &(impl AllocGlobal + Abort), bytes: &[u8]) {
    let longer = followed(rt, bytes);
    let found = T::get(rt.alloc(), longer.as_slice()).expect(rt, "no memory");
    let (read, count) = found.expect(rt, "what is spelled isn't read");
    same!(rt, count, bytes.len());
    has_spelling(rt, &read, bytes);
}

/// The value that is read from the bytes.
pub fn read_from<T: Canon + Drop>(rt: &(impl AllocGlobal + Abort), bytes: &[u8]) -> T {
    let found = T::get(rt.alloc(), bytes).expect(rt, "no memory");
    let (read, _) = found.expect(rt, "what is spelled isn't read");
    read
}

/// Asserts that no front of the bytes spells a value, in this row.
pub fn is_not_read<T: Canon + Drop, R: Debug + Drop>(
    rt: &(impl AllocGlobal + Abort),
    bytes: &[u8],
    row: R,
) {
    let read = T::get(rt.alloc(), bytes).expect(rt, "no memory");
    same_at!(rt, read.is_none(), true, row);
}

/// Asserts that the value is spelled by these bytes, and is read from them with others after them.
pub fn is_spelled<T: Canon + Drop>(rt: &(impl AllocGlobal + Abort), value: &T, bytes: &[u8]) {
    has_spelling(rt, value, bytes);
    is_read::<T>(rt, bytes);
}

/// Asserts that no front of any of these spells a value.
pub fn are_not_read<T: Canon + Drop>(rt: &(impl AllocGlobal + Abort), all: &[&[u8]]) {
    for bytes in all {
        is_not_read::<T, _>(rt, bytes, bytes);
    }
}

/// Asserts that each value is spelled by the bytes beside it, and that none of the others has a front that spells a value.
pub fn are_spelled<T: Canon + Drop>(
    rt: &(impl AllocGlobal + Abort),
    spelled: &[(T, &[u8])],
    others: &[&[u8]],
) {
    for (value, bytes) in spelled {
        is_spelled(rt, value, bytes);
    }
    are_not_read::<T>(rt, others);
}

/// Asserts that these are read as values, each with others after it, and are spelled so, and that none of the others
/// has a front that spells a value.
pub fn are_read<T: Canon + Drop>(rt: &(impl AllocGlobal + Abort), all: &[&[u8]], others: &[&[u8]]) {
    for bytes in all {
        is_read::<T>(rt, bytes);
    }
    are_not_read::<T>(rt, others);
}

/// The number of a hexadecimal digit; None for any other byte.
fn digit(byte: u8) -> Option<u8> {
    match byte {
        b'0'..=b'9' => Some(byte - b'0'),
        b'a'..=b'f' => Some(byte - b'a' + 10),
        _ => None,
    }
}

/// The bytes of which the text has the hexadecimal digits, two a byte.
pub fn hex(rt: &(impl AllocGlobal + Abort), text: &str) -> Vec<u8> {
    let mut bytes = Vec::new(rt.alloc());
    let mut high = None;
    for byte in text.as_bytes() {
        match (digit(*byte), high) {
            (Some(low), Some(first)) => {
                bytes.push((first << 4) | low).expect(rt, "no memory");
                high = None;
            }
            (Some(first), None) => high = Some(first),
            (None, _) => {}
        }
    }
    bytes
}
