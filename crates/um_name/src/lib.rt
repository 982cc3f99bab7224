//! Unit names: a text is accepted exactly if it is the name of a prefix, an optional instance and a suffix, and any
//! other text can be escaped in a name and read back.
#![tactic(auto)]

mod escapes;
mod keys;
mod laws;
mod names;
mod order;
mod ordered;
mod suffixes;
mod text;
mod unit_name;

pub use escapes::{escape, unescape};
pub use laws::{
    a_name_has_one_reading, a_unit_name_has_parts, an_escaped_text_fits_a_name,
    an_escaped_text_has_one_reading, an_instance_takes_its_place, escaped_bytes_are_read_back,
    parts_are_found_in_their_name,
};
pub use names::Names;
pub use suffixes::suffix_of;
pub use text::{is_template, with_instance};
pub use um_model::Suffix;
pub use unit_name::{UnitName, are_instance_bytes, is_unit_name};
