//! The names of the files.

ghost use Rattle.std.specs.Prelude.{◌≡◌, IfOk, string_bytes};
ghost use Rattle.um_runner.specs.Runner as runner;
ghost use Rattle.um_runner.specs.RunnerSteps as steps;

use crate::runner_file::RunnerFile;
use std::alloc::{AllocError, Global};
use um_model::ProcessNumber;

/// The name of the file: the number in decimal digits, and its ending.
pub fn file_name(
    alloc: Global,
    number: ProcessNumber,
    file: RunnerFile,
) -> Result<String, AllocError>
    ensures { IfOk result (λ name. string_bytes name ≡ runner.file_name number file) }
{
    let (number, ending) = (number.get(), file.ending());
    format!(in alloc; "{number}{ending}")
}

/// The path of the file in the folder.
pub fn file_path(
    alloc: Global,
    folder: &str,
    number: ProcessNumber,
    file: RunnerFile,
) -> Result<String, AllocError>
    ensures { IfOk result (λ path. string_bytes path ≡ steps.file_path folder.now number file) }
{
    let (number, ending) = (number.get(), file.ending());
    format!(in alloc; "{folder}/{number}{ending}")
}

/// The path of the socket in the folder at which runners wake the manager.
pub fn news_path(alloc: Global, folder: &str) -> Result<String, AllocError>
    ensures { IfOk result (λ path. string_bytes path ≡ runner.news_path folder.now) }
{
    format!(in alloc; "{folder}/news")
}
