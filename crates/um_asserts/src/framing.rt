//! Frames of texts.

ghost use Rattle.std.specs.Prelude.{◌≡◌, ◌++◌, IfOk};
ghost use Rattle.std.specs.List.{flat_map};
ghost use Rattle.um_model.specs.Frames.{frame_of};

use std::alloc::{AllocError, Global};

/// Adds the frame of a text: its length in four bytes, the highest first, and the text. A text of 2^32 bytes or more has none, which is
/// reported as want of memory.
#[tactic(auto, unfolding(um_model::specs::Frames::frame_of))]
pub fn push_frame(bytes: &mut Vec<u8>, text: &str) -> Result<(), AllocError>
    ensures { IfOk result (λ _. bytes.new.items ≡ bytes.old.items ++ frame_of text.now) }
{
    let Ok(length) = u32::try_from(text.len()) else {
        return Err(AllocError);
    };
    bytes.extend_from_slice(length.to_be_bytes().as_slice())?;
    bytes.extend_from_slice(text.as_bytes())
}

/// The frames of these texts.
pub fn frames(alloc: Global, texts: &[&str]) -> Result<Vec<u8>, AllocError>
    ensures { IfOk result (λ bytes. bytes.items ≡ flat_map (λ text. frame_of text.now) texts.now) }
{
    let mut bytes = Vec::new(alloc);
    for text in texts {
        push_frame(&mut bytes, text)?;
    }
    Ok(bytes)
}
