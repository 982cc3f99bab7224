//! The events of a unit, with the units that fall with it: its changes and those of its jobs, the starts that a failed start takes along,
//! and the stops of units that are bound to one that came to rest.
#![tactic(auto)]

mod acting;
mod along;
mod carrying;
mod falling;
mod work;

pub use acting::kind_in;
pub use falling::happen;
pub use work::Work;
