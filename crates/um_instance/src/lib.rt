//! An instance of the premises of the theorem of managers that outlive crashes: two lives over a disk and children in
//! memory, with a crash between them.
#![tactic(auto)]

mod lives;

pub use lives::two_lives;
