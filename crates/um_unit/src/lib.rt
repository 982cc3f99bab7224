//! Units by their files: `load` gives exactly what the definition gives for a tree and a name - the unit with its settings
//! and warnings, or that it is masked, not found or refused.
#![tactic(auto)]

mod assignments;
mod contents;
mod keys;
mod laws;
mod lists;
mod loaded;
mod loader;
mod reading;
mod readings;
mod reasons;
mod service_settings;
mod settings;
mod singles;
mod warnings;

pub use laws::{a_value_counts_or_warns, the_unit_of_a_name_is_the_one_found};
pub use loaded::{LoadedUnit, Loading};
pub use loader::load;
pub use reading::Reading;
pub use service_settings::ServiceSettings;
pub use settings::{Dependencies, InstallSettings, Settings};
pub use warnings::{FileWarnings, Warning};
