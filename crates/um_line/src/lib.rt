//! The words of the program: a command line has exactly the meaning that the definitions give it.
#![tactic(auto)]

mod check;
mod create;
mod ctl;
mod help;
mod laws;
mod line;
mod logs;
mod mistake;
mod numbers;
mod reporting;
mod run;
mod serve;
mod status;
mod sync;
mod top;
mod values;
mod verify;

pub use check::CheckLine;
pub use create::CreateLine;
pub use ctl::CtlLine;
pub use help::TopicLine;
pub use laws::a_runner_s_words_are_run;
pub use line::{Line, Subcommand, read_line};
pub use logs::LogsLine;
pub use reporting::{DEVICE, REFUSED, USAGE, put_line, shown_line};
pub use serve::ServeLine;
pub use status::StatusLine;
pub use sync::SyncLine;
pub use top::common_lines;
pub use verify::VerifyLine;
