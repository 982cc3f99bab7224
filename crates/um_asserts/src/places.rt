//! Places among the temporary files.

use std::env::Env;
use std::path::PathBuf;
use std::process::Process;
use std::{env, io, process};

/// A place of this name among the temporary files, which no other process takes.
pub fn place(rt: &(impl Env + AllocGlobal), process: Process, name: &str) -> io::Result<PathBuf> {
    let number = process::id(process);
    let name = format!(in rt.alloc(); "umd.{number}.{name}")?;
    Ok(env::temp_dir(rt)?.join(rt.alloc(), name)?)
}
