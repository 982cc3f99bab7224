//! The job of a runner: the command that it starts, with its entries.

ghost use Rattle.std.specs.Prelude.{◌≡◌, ◌++◌, ℕ, List, map, option_map, Some, None, false, IfOk, OnOk, MatchOption, string_bytes};
ghost use Rattle.std.specs.List.{list_all, list_any, before_first, after_first};
ghost use Rattle.std.specs.Process.{command_program, command_args, command_var, clears_env, SameEnv, SameProgramAndArgs};
ghost use Rattle.um_model.specs.Text.{first_passes};
ghost use Rattle.um_runner.specs.RunnerSteps.{is_entry_sign, entry_value};
ghost use Rattle.um_runner.specs.Jobs.{IsCommandOf, IsJobOf, SetsTo, can_be_job, is_entry, words_of, entries_of};

use std::alloc::{AllocError, Global};
use std::process::Command;

/// The words of a command, of which the first is the program, and entries NAME=value.
#[derive(Clone, Copy, Debug)]
pub struct Job<'a> {
    program: &'a String,
    arguments: &'a [String],
    entries: &'a [String],
}

fn is_sign_first(word: &[u8]) -> bool
    ensures { result ≡ first_passes is_entry_sign word.now }
{
    match word.split_first() {
        Some((first, _)) => *first == b'=',
        None => false,
    }
}

fn has_sign(word: &[u8]) -> bool
    ensures { result ≡ list_any is_entry_sign word.now }
{
    word.iter().any(|b| *b == b'=')
}

/// Whether the word is NAME=value.
fn is_entry(word: &str) -> bool
    ensures { result ≡ is_entry word.now }
{
    has_sign(word.as_bytes()) && !is_sign_first(word.as_bytes())
}

/// Whether each word is NAME=value.
pub fn are_entries(words: &[String]) -> bool
    ensures { result ≡ list_all (λ word. is_entry (string_bytes word)) words.now }
{
    words.iter().all(|word| is_entry(word.as_str()))
}

/// The name and the value of an entry: the parts before and after its first `=`.
fn parts_of(entry: &str) -> (&str, &str)
    ensures name { result.0.now ≡ before_first is_entry_sign entry.now }
    ensures value { result.1.now ≡ after_first is_entry_sign entry.now }
{
    match entry.split_once('=') {
        Some(parts) => parts,
        None => (entry, ""),
    }
}

/// Sets the variable of the entry.
fn set_entry(command: &mut Command, entry: &str) -> Result<(), AllocError>
    ensures sets { OnOk result (SetsTo (before_first is_entry_sign entry.now) (after_first is_entry_sign entry.now) command.old command.new) }
    ensures call { OnOk result (SameProgramAndArgs command.old command.new) }
    ensures inherits { OnOk result (clears_env command.new ≡ clears_env command.old) }
{
    let (name, value) = parts_of(entry);
    command.env(name, value)?;
    Ok(())
}

/// Sets the entries over the environment, of which nothing is set yet.
fn set_entries(command: &mut Command, entries: &[String]) -> Result<(), AllocError>
    requires { (name : List ℕ) → command_var command.old name ≡ None }
    ensures sets { OnOk result ((name : List ℕ) → command_var command.new name ≡ option_map Some (entry_value (map string_bytes entries.now) name)) }
    ensures call { OnOk result (SameProgramAndArgs command.old command.new) }
    ensures inherits { OnOk result (clears_env command.new ≡ clears_env command.old) }
{
    for entry in entries {
        set_entry(command, entry.as_str())?;
    }
    Ok(())
}

/// Adds the arguments after those that are there.
fn add_arguments(command: &mut Command, arguments: &[String]) -> Result<(), AllocError>
    ensures arguments { OnOk result (command_args command.new ≡ command_args command.old ++ map string_bytes arguments.now) }
    ensures program { OnOk result (command_program command.new ≡ command_program command.old) }
    ensures environment { OnOk result (SameEnv command.old command.new) }
{
    for argument in arguments {
        command.arg(argument.as_str())?;
    }
    Ok(())
}

impl<'a> Job<'a> {
    #[tactic(auto, using(crate::proofs::Entries::no_job, crate::proofs::Entries::can_be))]
    /// The job of which the first `count` words are entries NAME=value and the others the command. None if there are
    /// fewer words, if no word is left for the command, or if one of the first has no `=` or no name in front of it.
    pub fn of(count: usize, words: &'a [String]) -> Option<Job<'a>>
        ensures { MatchOption result (can_be_job count (map string_bytes words.now) ≡ false) (IsJobOf count (map string_bytes words.now)) }
    {
        let (entries, words) = words.split_at_checked(count)?;
        let (program, arguments) = words.split_first()?;
        if !are_entries(entries) {
            return None;
        }
        Some(Job {
            program,
            arguments,
            entries,
        })
    }

    /// The same command with these entries in place of its own.
    pub fn with(&self, entries: &'a [String]) -> Job<'a>
        ensures words { words_of result ≡ words_of self.now }
        ensures entries { entries_of result ≡ map string_bytes entries.now }
    {
        Job {
            program: self.program,
            arguments: self.arguments,
            entries,
        }
    }

    /// The command with its arguments, and the entries set over the environment that it is started in.
    pub fn command(&self, alloc: Global) -> Result<Command, AllocError>
        ensures { IfOk result (IsCommandOf (words_of self.now) (entries_of self.now)) }
    {
        let mut command = Command::new(alloc, self.program.as_str())?;
        set_entries(&mut command, self.entries)?;
        add_arguments(&mut command, self.arguments)?;
        Ok(command)
    }
}
