//! The client of a manager: words become the frame of exactly the request that they mean, and a reply becomes the
//! printed text and the exit status.
#![tactic(auto)]

mod asking;
mod connection;
mod escapes;
mod fault;
mod help;
mod laws;
mod meanings;
mod reply;
mod terminal;
mod text;
mod waiting;
mod words;
mod writing;

pub use connection::{ask, exchange, prepare};
pub use escapes::shown;
pub use fault::CtlFault;
pub use help::verb_lines;
pub use laws::{a_reply_is_one_frame, what_is_shown_has_no_control_character};
pub use meanings::{meaning, meaning_line};
pub use reply::{Told, told_of};
pub use terminal::on_terminal;
pub use text::{FileText, read_text};
pub use waiting::Patience;
pub use words::Words;
pub use writing::request;
