//! The files in the reply to `cat`.

ghost use Rattle.std.specs.Prelude.{◌≡◌, ◌++◌, IfOk, OnOk, flat_map, map};
ghost use Rattle.serde_json.specs.View.{view};
ghost use Rattle.um_status.specs.Status as model;

use crate::jobs::text_in;
use serde_json::Value;
use std::alloc::{AllocError, Global};

/// Adds the path and the text of a file, if the value is such a pair.
fn add_file<'v>(given: &mut Vec<(&'v str, &'v str)>, file: &'v Value) -> Result<(), AllocError>
    ensures { OnOk result (map (λ g. (g.0.now, g.1.now)) given.new.items ≡ map (λ g. (g.0.now, g.1.now)) given.old.items ++ model.file_given (view file.now)) }
{
    let Some(path) = text_in(file, 0) else {
        return Ok(());
    };
    let Some(text) = text_in(file, 1) else {
        return Ok(());
    };
    given.push((path, text))?;
    Ok(())
}

/// The path and the text of each file in the reply to `cat`; a value that is no such pair is left out.
pub fn files_given<'v>(
    alloc: Global,
    files: &'v [Value],
) -> Result<Vec<(&'v str, &'v str)>, AllocError>
    ensures { IfOk result (λ given. map (λ g. (g.0.now, g.1.now)) given.items ≡ flat_map model.file_given (map view files.now)) }
{
    let mut given = Vec::new(alloc);
    for file in files {
        add_file(&mut given, file)?;
    }
    Ok(given)
}
