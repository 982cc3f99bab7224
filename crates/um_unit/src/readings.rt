//! The meaning of a setting's value under a unit's name: its words with their specifiers expanded, or why it can't be read.

ghost use Rattle.std.specs.Prelude.{◌≡◌, ◌∷◌, IfOk, map, option_copied, option_map, string_bytes};
ghost use Rattle.um_model.specs.Names.{suffix_of, suffix_text_of};
ghost use Rattle.um_model.specs.Commands.{is_executable_word};
ghost use Rattle.um_model.specs.FileForms.{unit_reading};
ghost use Rattle.um_model.specs.Readings as said;
ghost use Rattle.um_model.specs.Results.{◌and_then◌};
ghost use Rattle.um_model.specs.Units as model;
ghost use Rattle.um_unit.specs.Readings.{command_reading, first_warning, fits_use, read_as, value_reading, variable_reading};
ghost use Rattle.um_words.specs.Commands.{command_seen, commands_seen};
ghost use Rattle.um_words.specs.Environment.{variable_of, variables_of};

use std::alloc::{AllocError, Global};
use um_model::WarningKind;
use um_name::{UnitName, are_instance_bytes, is_unit_name, suffix_of};
use um_spec::expand;
use um_words::{Command, Variable, commands, is_executable_word, is_variable_name, names, words};

/// The meaning of a value, or the warning that it gives.
pub type Meaning<T> = Result<T, WarningKind>;

/// The result, or the warning of a value that can't be read.
pub fn value_reading<T: Drop>(read: Option<T>) -> Meaning<T>
    ensures { result ≡ value_reading read }
{
    read.ok_or(WarningKind::UnreadableValue)
}

/// All results of several readings, or the first warning.
pub fn all_read<T: Drop>(
    alloc: Global,
    readings: Vec<Meaning<T>>,
) -> Result<Meaning<Vec<T>>, AllocError>
    ensures { IfOk result (λ r. read_as (λ all. all.items) r ≡ said.all_read readings.items) }
{
    let mut all = Vec::new(alloc);
    for reading in readings {
        match reading {
            Ok(one) => all.push(one)?,
            Err(warning) => return Ok(Err(warning)),
        }
    }
    Ok(Ok(all))
}

/// A text with its specifiers expanded.
pub fn text_reading(
    alloc: Global,
    unit: &UnitName,
    text: &str,
) -> Result<Meaning<String>, AllocError>
    ensures { IfOk result (λ r. read_as string_bytes r ≡ said.text_reading unit.now text.now) }
{
    let expanded = expand(alloc, text, unit)?;
    Ok(expanded.ok_or(WarningKind::UnreadableSpecifier))
}

/// The first word of a command with its specifiers expanded, if that can be run.
fn executable_reading(
    alloc: Global,
    unit: &UnitName,
    word: &str,
) -> Result<Meaning<String>, AllocError>
    ensures { IfOk result (λ r. read_as string_bytes r ≡ (said.text_reading unit.now word.now and_then said.read_if is_executable_word)) }
{
    match text_reading(alloc, unit, word)? {
        Ok(text) if !is_executable_word(text.as_str()) => Ok(Err(WarningKind::UnreadableValue)),
        reading => Ok(reading),
    }
}

/// The words of a command: the first one, its signs cut off already, and the others.
fn command_words(
    alloc: Global,
    unit: &UnitName,
    first: &str,
    others: &[String],
) -> Result<Meaning<Vec<String>>, AllocError>
    ensures { IfOk result (λ r. read_as (λ texts. map string_bytes texts.items) r ≡ said.words_reading unit.now (first.now ∷ map string_bytes others.now)) }
{
    let mut readings = Vec::new(alloc);
    readings.push(executable_reading(alloc, unit, first)?)?;
    for word in others {
        readings.push(text_reading(alloc, unit, word.as_str())?)?;
    }
    let read = all_read(alloc, readings)?;
    Ok(read)
}

fn words_reading(
    alloc: Global,
    unit: &UnitName,
    words: &[String],
) -> Result<Meaning<Vec<String>>, AllocError>
    ensures { IfOk result (λ r. read_as (λ texts. map string_bytes texts.items) r ≡ said.words_reading unit.now (map string_bytes words.now)) }
{
    match words {
        [first, others @ ..] => command_words(alloc, unit, first.as_str(), others),
        [] => Ok(Ok(Vec::new(alloc))),
    }
}

fn command_reading(
    alloc: Global,
    unit: &UnitName,
    command: &Command,
) -> Result<Meaning<Command>, AllocError>
    ensures { IfOk result (λ r. read_as command_seen r ≡ command_reading unit.now (command_seen command.now)) }
{
    match words_reading(alloc, unit, command.words.as_slice())? {
        Ok(words) => Ok(Ok(Command {
            words,
            ignores_failure: command.ignores_failure,
            substitutes: command.substitutes,
        })),
        Err(warning) => Ok(Err(warning)),
    }
}

/// The commands of a value (systemd.service(5), "Command lines"). One word that can't be read spoils the value.
#[tactic(auto, unfolding(um_model::specs::Readings::commands_reading))]
pub fn commands_reading(
    alloc: Global,
    unit: &UnitName,
    value: &str,
) -> Result<Meaning<Vec<Command>>, AllocError>
    ensures { IfOk result (λ r. read_as (λ all. commands_seen all.items) r ≡ said.commands_reading unit.now value.now) }
{
    let Some(commands) = commands(alloc, value)? else {
        return Ok(Err(WarningKind::UnreadableValue));
    };
    let mut readings = Vec::new(alloc);
    for command in &commands {
        readings.push(command_reading(alloc, unit, command)?)?;
    }
    let read = all_read(alloc, readings)?;
    Ok(read)
}

/// The variable that a word `NAME=value` sets.
fn variable_in(alloc: Global, word: &str) -> Result<Option<Variable>, AllocError>
    ensures { IfOk result (λ r. option_map variable_of r ≡ said.variable_in word.now) }
{
    match word.split_once('=') {
        Some((name, value)) if is_variable_name(name) => Ok(Some(Variable {
            name: String::from_str(alloc, name)?,
            value: String::from_str(alloc, value)?,
        })),
        _ => Ok(None),
    }
}

fn variable_reading(
    alloc: Global,
    unit: &UnitName,
    word: &str,
) -> Result<Meaning<Variable>, AllocError>
    ensures { IfOk result (λ r. read_as variable_of r ≡ variable_reading unit.now word.now) }
{
    match text_reading(alloc, unit, word)? {
        Ok(text) => Ok(value_reading(variable_in(alloc, text.as_str())?)),
        Err(warning) => Ok(Err(warning)),
    }
}

/// The variables of a value (systemd.exec(5), `Environment=`). One word that can't be read spoils the value.
#[tactic(auto, unfolding(um_model::specs::Readings::environment_reading))]
pub fn environment_reading(
    alloc: Global,
    unit: &UnitName,
    value: &str,
) -> Result<Meaning<Vec<Variable>>, AllocError>
    ensures { IfOk result (λ r. read_as (λ all. variables_of all.items) r ≡ said.environment_reading unit.now value.now) }
{
    let Some(words) = words(alloc, value)? else {
        return Ok(Err(WarningKind::UnreadableValue));
    };
    let mut readings = Vec::new(alloc);
    for word in &words {
        readings.push(variable_reading(alloc, unit, word.as_str())?)?;
    }
    let read = all_read(alloc, readings)?;
    Ok(read)
}

/// Which names a list of names takes.
#[derive(Clone, Copy)]
pub enum NameUse {
    /// Names of units.
    Units,
    /// Other names of the unit, which have its suffix.
    Aliases,
}

fn suffix_text_of(text: &str) -> &'static str
    ensures { result.now ≡ suffix_text_of (suffix_of text.now) }
{
    match suffix_of(text) {
        Some(suffix) => suffix.text(),
        None => "",
    }
}

/// Whether the text is another name for the unit.
fn is_alias_for(unit: &UnitName, text: &str) -> bool
    ensures { result ≡ model.is_alias_for unit.now text.now }
{
    is_unit_name(text) && suffix_text_of(unit.as_str()) == suffix_text_of(text)
}

fn fits(uses: NameUse, unit: &UnitName, text: &str) -> bool
    ensures { result ≡ fits_use uses unit.now text.now }
{
    match uses {
        NameUse::Units => is_unit_name(text),
        NameUse::Aliases => is_alias_for(unit, text),
    }
}

fn name_reading(
    alloc: Global,
    uses: NameUse,
    unit: &UnitName,
    word: &str,
) -> Result<Meaning<String>, AllocError>
    ensures { IfOk result (λ r. read_as string_bytes r ≡ unit_reading (fits_use uses unit.now) unit.now word.now) }
{
    match text_reading(alloc, unit, word)? {
        Ok(text) if !fits(uses, unit, text.as_str()) => Ok(Err(WarningKind::UnreadableValue)),
        reading => Ok(reading),
    }
}

/// The meaning of each word of a value, as a name that fits (systemd.unit(5)). A word that can't be read is alone without effect; a value
/// that doesn't split into words counts as one such word.
#[tactic(auto, unfolding(um_model::specs::Readings::names_reading))]
pub fn names_reading(
    alloc: Global,
    uses: NameUse,
    unit: &UnitName,
    value: &str,
) -> Result<Vec<Meaning<String>>, AllocError>
    ensures { IfOk result (λ r. map (read_as string_bytes) r.items ≡ said.names_reading (fits_use uses unit.now) unit.now value.now) }
{
    let mut readings = Vec::new(alloc);
    let Some(words) = names(alloc, value)? else {
        readings.push(Err(WarningKind::UnreadableValue))?;
        return Ok(readings);
    };
    for word in &words {
        readings.push(name_reading(alloc, uses, unit, word.as_str())?)?;
    }
    Ok(readings)
}

/// The first warning of several readings.
pub fn first_warning(readings: &[Meaning<String>]) -> Option<WarningKind>
    ensures { result ≡ first_warning (map (read_as string_bytes) readings.now) }
{
    for reading in readings {
        if let Err(warning) = reading {
            return Some(*warning);
        }
    }
    None
}

/// The instance that the value is, which may be empty.
pub fn instance_in(value: &str) -> Option<&str>
    ensures { option_copied result ≡ said.instance_in value.now }
{
    are_instance_bytes(value.as_bytes()).then_some(value)
}
