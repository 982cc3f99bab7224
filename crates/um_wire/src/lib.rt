//! Why a call was refused: the 22 refusals with their details, each with the number, name and texts of its reply. And
//! canonical bytes: each value has one spelling, no spelling begins another, and a spelled value is read again
//! whatever follows.
#![tactic(auto)]

mod canon;
mod choices;
mod laws;
mod lists;
mod made;
mod maps;
mod moments;
mod numbers;
mod refusal;
mod refusing;
mod texts;
mod units;
mod whole;

pub use canon::Canon;
pub use choices::{Tagged, get_tag, put_tag};
pub use laws::{
    a_whole_is_its_spelling, no_reading_only_where_none_is, no_spelling_begins_another,
    what_is_read_is_spelled_so, what_is_spelled_is_read_again,
};
pub use maps::Key;
pub use refusal::{Refusal, Texts};
pub use refusing::{
    bad_name, bad_path, bad_setting, clash, exists_at, job_conflict, masked, no_such_job,
    not_found, not_loaded, unknown_verb,
};
pub use texts::{put_text, text_in_front};
pub use um_model::Limit;
pub use whole::{read_whole, spell};
