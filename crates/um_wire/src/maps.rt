//! Maps by texts: their entries, whose keys strictly ascend by bytes.
ghost use Rattle.std.specs.Prelude.{◌≡◌, ℕ, List, Bool, true, refl, Some, None, IfOk, IfSome, string_bytes, if◌then◌else◌};
ghost use Rattle.std.specs.Option.{option_map};
ghost use Rattle.std.specs.Cmp.Lexicographic.{slice_cmp};
ghost use Rattle.std.specs.FinMap as map;
ghost use Rattle.std.specs.Ordering.{nat_cmp};
ghost use Rattle.um_model.specs.Bytes.{ByText, FitMap, are_keys, ascends, map_at, map_spelling};
ghost use Rattle.um_model.proofs.BytesLaws.{canonical_map};
ghost use Rattle.um_wire.specs.Entries.{seen};

use crate::canon::Canon;
use crate::texts::put_text;
use std::alloc::{AllocError, Global};
use std::collections::BTreeMap;

/// A key of a map that has canonical bytes: it stands for a text, and compares as that text does, byte by byte.
pub trait Key: Ord + Sized {
    /// The bytes of its text.
    ghost bytes: { Self → List ℕ };

    /// Which texts are keys.
    ghost is_key: { List ℕ → Bool };

    /// The text for which the key stands.
    fn as_text(&self) -> &str
        ensures bytes { result.now ≡ bytes self.now }
        ensures key { is_key (bytes self.now) ≡ true };

    /// The key that stands for the text, or `None` if there is none. Returns `AllocError` if an allocation failed.
    fn from_text(alloc: Global, text: &str) -> Result<Option<Self>, AllocError>
        ensures { IfOk result (λ key. option_map bytes key ≡ (if is_key text.now then Some text.now else None)) };

    /// Keys compare as their texts.
    ghost order: { (a b : Self) → Self.cmp a b ≡ slice_cmp nat_cmp (bytes a) (bytes b) };
}

/// Each text is a key.
impl Key for String {
    ghost bytes = { string_bytes };

    ghost is_key = { λ _. true };

    fn as_text(&self) -> &str {
        self.as_str()
    }

    fn from_text(alloc: Global, text: &str) -> Result<Option<String>, AllocError> {
        Ok(Some(String::from_str(alloc, text)?))
    }

    ghost order = { λ a b. refl };
}

/// Whether each key is below the next.
fn ascend<V: Canon>(entries: &[(String, V)]) -> bool
    ensures { result ≡ ascends (seen string_bytes V.value entries.now) }
{
    let mut rest = entries;
    while let [first, behind @ ..] = rest {
        if let [second, ..] = behind {
            if first.0.as_str() >= second.0.as_str() {
                return false;
            }
        }
        rest = behind;
    }
    true
}

/// The map of these entries, whose keys ascend, if each is a key.
fn map_of<K: Key + Drop, V: Canon + Drop>(
    alloc: Global,
    entries: Vec<(String, V)>,
) -> Result<Option<BTreeMap<K, V>>, AllocError>
    requires { ascends (seen string_bytes V.value entries.items) ≡ true }
    ensures some { IfOk result (λ found. IfSome found (λ m. seen K.bytes V.value m.entries ≡ seen string_bytes V.value entries.items)) }
    ensures keys { IfOk result (λ found. option_map (λ m. true) found ≡ (if are_keys K.is_key (seen string_bytes V.value entries.items) then Some true else None)) }
{
    let mut map = BTreeMap::new(alloc);
    for (text, value) in entries {
        match K::from_text(alloc, text.as_str())? {
            Some(key) => {
                map.insert(key, value)?;
            }
            None => return Ok(None),
        }
    }
    Ok(Some(map))
}

impl<K: Key + Drop, V: Canon + Drop> Canon for BTreeMap<K, V> {
    ghost Value = { ByText V.Value };

    ghost value = { λ m. map.from_entries (seen K.bytes V.value m.entries) };

    ghost fits = { FitMap K.is_key V.fits };

    ghost spelling = { map_spelling V.spelling };

    ghost reading = { map_at K.is_key V.reading };

    fn put(&self, out: &mut Vec<u8>) -> Result<(), AllocError> {
        let Ok(len) = u32::try_from(self.len()) else {
            return Err(AllocError);
        };
        len.put(out)?;
        for (key, value) in self.iter() {
            put_text(key.as_text(), out)?;
            value.put(out)?;
        }
        Ok(())
    }

    fn get(alloc: Global, bytes: &[u8]) -> Result<Option<(BTreeMap<K, V>, usize)>, AllocError> {
        let Some((entries, n)) = <Vec<(String, V)>>::get(alloc, bytes)? else {
            return Ok(None);
        };
        if !ascend(entries.as_slice()) {
            return Ok(None);
        }
        match map_of(alloc, entries)? {
            Some(map) => Ok(Some((map, n))),
            None => Ok(None),
        }
    }

    ghost canonical = { canonical_map K.is_key V.canonical };
}
