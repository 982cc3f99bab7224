//! Enabling: `install` makes and removes in a tree exactly the links that the definitions give for enabling, disabling, masking and
//! unmasking a unit, or refuses for the first cause that applies; and `is_enabled` returns how a unit is enabled.
#![tactic(auto)]

mod disabling;
mod enabled;
mod enabling;
mod fitness;
mod installed;
mod laws;
mod links;
mod masking;
mod occupied;
mod verbs;
mod walk;

pub use enabled::is_enabled;
pub use installed::{Installed, check_units, install, relink};
pub use laws::{
    a_unit_is_enabled_in_one_way, disabling_undoes_enabling, each_verb_has_one_outcome,
    enabling_twice_makes_nothing,
};
pub use um_model::{Enabling, InstallVerb};
pub use verbs::{disable, enable, mask, unmask};
