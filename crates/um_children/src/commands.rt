//! The command lines that the manager runs: one that looks for the runner's program, one that starts a runner, and one that signals a process.

ghost use Rattle.std.specs.Prelude.{◌≡◌, ◌∷◌, ◌++◌, [], map, decimal, string_bytes, IfOk, OnOk};
ghost use Rattle.std.specs.Process.{command_program, command_args};
ghost use Rattle.um_children.specs.Commands.{IsShell, lent, detaching, finding, signalling, runner_words, signal_name};

use std::alloc::{AllocError, Global};
use std::process::Command;
use um_keeper::SpawnOrder;
use um_model::Signal;

/// The words after the first become a command of their own, with no stream of the manager; nobody waits for it. Its
/// output is appended to the file of the first word, if that is a regular file that can be written, and else goes
/// nowhere, so no pipe holds anybody up. The status shows a command that isn't there, or that nobody can execute. A
/// path is looked at as it stands, since each `$(..)` is one process more.
const DETACHING: &str =
    "o=$1; shift; case $1 in */*) p=$1;; *) p=$(command -v \"$1\");; esac && test -f \"$p\" && test -x \"$p\" || exit 126; test -f \"$o\" && true 2>/dev/null >>\"$o\" || o=/dev/null; exec </dev/null >>\"$o\" 2>&1; \"$@\" &";

/// Fails where its word names no file that can be executed.
const FINDING: &str =
    "case $1 in */*) p=$1;; *) p=$(command -v \"$1\");; esac && test -f \"$p\" && test -x \"$p\"";

const SIGNALLING: &str = "kill -s \"$1\" \"$2\"";

/// Adds words as arguments, in their order.
fn add(command: &mut Command, words: &[&str]) -> Result<(), AllocError>
    ensures program { OnOk result (command_program command.new ≡ command_program command.old) }
    ensures args { OnOk result (command_args command.new ≡ command_args command.old ++ lent words.now) }
{
    for word in words {
        command.arg(*word)?;
    }
    Ok(())
}

/// Adds texts as arguments, in their order.
fn add_texts(command: &mut Command, texts: &[String]) -> Result<(), AllocError>
    ensures program { OnOk result (command_program command.new ≡ command_program command.old) }
    ensures args { OnOk result (command_args command.new ≡ command_args command.old ++ map string_bytes texts.now) }
{
    for text in texts {
        command.arg(text.as_str())?;
    }
    Ok(())
}

/// A shell that runs the text, with these words.
fn shell(alloc: Global, text: &str, words: &[&str]) -> Result<Command, AllocError>
    ensures { IfOk result (IsShell text.now (lent words.now)) }
{
    let mut command = Command::new(alloc, "sh")?;
    add(&mut command, &["-c", text, "sh"])?;
    add(&mut command, words)?;
    Ok(command)
}

/// Adds the words of the runner, without the command's own.
fn add_place(
    command: &mut Command,
    alloc: Global,
    folder: &str,
    number: u64,
) -> Result<(), AllocError>
    ensures program { OnOk result (command_program command.new ≡ command_program command.old) }
    ensures args { OnOk result (command_args command.new ≡ command_args command.old ++ runner_words folder.now number []) }
{
    let number = format!(in alloc; "{number}")?;
    add(
        command,
        &["run", "--dir", folder, "--number", number.as_str()],
    )?;
    add(command, &["--env-file", "--"])
}

/// The command that starts the runner at `program` for an order, in the folder, and has its output appended to the file
/// `output`. The order's environment isn't among its words, which any user may read.
pub fn start_command(
    alloc: Global,
    output: &str,
    program: &str,
    folder: &str,
    order: &SpawnOrder,
) -> Result<Command, AllocError>
    ensures { IfOk result (IsShell detaching (output.now ∷ program.now ∷ runner_words folder.now order.now.number order.now.words)) }
{
    let words = order.words(alloc)?;
    let mut command = shell(alloc, DETACHING, &[output, program])?;
    add_place(&mut command, alloc, folder, order.number().get())?;
    add_texts(&mut command, words.as_slice())?;
    Ok(command)
}

/// The command that fails where nobody can execute the runner at `program`.
pub fn finding_command(alloc: Global, program: &str) -> Result<Command, AllocError>
    ensures { IfOk result (IsShell finding (program.now ∷ [])) }
{
    shell(alloc, FINDING, &[program])
}

/// The name of the signal as kill(1) has it.
fn signal_name(signal: Signal) -> &'static str
    ensures { result.now ≡ signal_name signal }
{
    match signal {
        Signal::Term => "TERM",
        Signal::Kill => "KILL",
    }
}

/// The command that sends the signal to the pid.
pub fn signal_command(alloc: Global, signal: Signal, pid: u32) -> Result<Command, AllocError>
    ensures { IfOk result (IsShell signalling (signal_name signal ∷ decimal pid ∷ [])) }
{
    let pid = format!(in alloc; "{pid}")?;
    shell(alloc, SIGNALLING, &[signal_name(signal), pid.as_str()])
}
