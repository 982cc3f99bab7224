//! The files by which a runner reports on a process to the manager, and the runner. Each text has one reading. A
//! runner's life is a claim, a start, a pid, a wait and a status, or a beginning of it if somebody has the number or
//! the folder fails.
#![tactic(auto)]

mod fault;
mod files;
mod folder;
mod handed;
mod handing;
mod host;
mod job;
mod laws;
mod life;
mod line;
mod notes;
mod paths;
mod runner;
mod runner_file;
mod texts;

pub use fault::FolderFault;
pub use folder::Folder;
pub use handed::{entries_text, read_entries};
pub use handing::{hand_over, take_back};
pub use host::Host;
pub use job::Job;
pub use laws::{a_text_has_one_reading, no_path_leads_out};
pub use life::run;
pub use line::RunnerLine;
pub use notes::{Claiming, Told, claim, pid_in, status_in};
pub use paths::{file_name, file_path, news_path};
pub use runner::run_line;
pub use runner_file::{Claimant, RunnerFile};
pub use texts::{number_in, pid_text, read_claim, read_pid, read_status, status_text};
pub use um_model::{End, ProcessNumber};
