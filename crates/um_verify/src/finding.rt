//! A finding: a report on a line of a file, or on a whole file.

ghost use Rattle.std.specs.Prelude.{◌≡◌, IfOk, None, string_bytes};

use std::alloc::{AllocError, Global};

/// A report on a line of a file, or on a whole file.
#[derive(Drop)]
pub struct Finding {
    /// The path of the file.
    pub path: String,
    /// The number of the line, from 1; `None` for the whole file.
    pub line: Option<usize>,
    /// The report itself.
    pub text: String,
    /// The unit can't be loaded because of it.
    pub stops: bool,
}

impl Finding {
    ghost use Rattle.um_verify.specs.View.{finding_line};

    /// A report on a whole file.
    pub(crate) fn of_file(
        alloc: Global,
        path: &str,
        text: &str,
        stops: bool,
    ) -> Result<Finding, AllocError>
        ensures path { IfOk result (λ f. string_bytes f.path ≡ path.now) }
        ensures line { IfOk result (λ f. f.line ≡ None) }
        ensures text { IfOk result (λ f. string_bytes f.text ≡ text.now) }
        ensures stops { IfOk result (λ f. f.stops ≡ stops) }
    {
        Ok(Finding {
            path: String::from_str(alloc, path)?,
            line: None,
            text: String::from_str(alloc, text)?,
            stops,
        })
    }

    /// Its line of text: `y.service:2: User= isn't served: every service runs as umd's user`; without a number if it
    /// is about the whole file.
    pub fn to_line(&self, alloc: Global) -> Result<String, AllocError>
        ensures { IfOk result (λ text. string_bytes text ≡ finding_line self.now) }
    {
        let (path, text) = (&self.path, &self.text);
        match self.line {
            Some(line) => format!(in alloc; "{path}:{line}: {text}"),
            None => format!(in alloc; "{path}: {text}"),
        }
    }
}
