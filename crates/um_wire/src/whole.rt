//! A value and its bytes, with no bytes after them.
ghost use Rattle.std.specs.Prelude.{◌≡◌, IfOk};
ghost use Rattle.std.specs.Option.{option_map};
ghost use Rattle.um_model.specs.Bytes.{nothing_left};

use crate::canon::Canon;
use std::alloc::{AllocError, Global};

/// The bytes of the value. Returns `AllocError` if an allocation failed, and for a value that has no spelling.
pub fn spell<T: Canon>(alloc: Global, value: &T) -> Result<Vec<u8>, AllocError>
    ensures bytes { IfOk result (λ bytes. bytes.items ≡ T.spelling (T.value value.now)) }
    ensures fits { IfOk result (λ bytes. T.fits (T.value value.now)) }
{
    let mut bytes = Vec::new(alloc);
    value.put(&mut bytes)?;
    Ok(bytes)
}

/// The value that all these bytes spell, or `None` if they spell none. Returns `AllocError` if an allocation failed.
pub fn read_whole<T: Canon + Drop>(alloc: Global, bytes: &[u8]) -> Result<Option<T>, AllocError>
    ensures { IfOk result (λ found. option_map T.value found ≡ nothing_left (T.reading bytes.now)) }
{
    match T::get(alloc, bytes)? {
        Some((value, n)) => {
            if n == bytes.len() {
                Ok(Some(value))
            } else {
                Ok(None)
            }
        }
        None => Ok(None),
    }
}
