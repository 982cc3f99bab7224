//! A loaded unit, and the outcomes of looking one up.

use crate::settings::Settings;
use crate::warnings::FileWarnings;
use std::rc::Rc;
use um_name::UnitName;

/// A unit that was found.
pub struct LoadedUnit {
    /// Its own name, to which the requested name leads.
    pub name: UnitName,
    /// The path of its file in the tree; None for a `shutdown.target` without a file.
    pub path: Option<String>,
    pub settings: Settings,
    /// By file in the order in which they are read, and by line. A file without a warning isn't among them.
    pub warnings: Rc<Vec<FileWarnings>>,
}

// One call for the prover, which takes a derived `Drop` apart at each exit.
impl Drop for LoadedUnit {
    fn drop(self) {
        let LoadedUnit {
            name: _name,
            path: _path,
            settings: _settings,
            warnings: _warnings,
        } = self;
    }
}

/// The outcome of looking up a unit.
#[derive(Drop)]
pub enum Loading {
    Found(LoadedUnit),
    /// An empty file or a link to `/dev/null` holds the unit of this name.
    Masked { unit: UnitName },
    NotFound,
    /// The unit of this name has a setting that is refused, for this reason.
    BadSetting { unit: UnitName, reason: String },
}
