//! A command that is to be started.

ghost use Rattle.std.specs.Prelude.{◌≡◌, IfOk, map, option_map, string_bytes};
ghost use Rattle.um_service.specs.Started.{Started, arguments, is_too_long, started_at, started_words};
ghost use Rattle.um_service.specs.Variables.{variable_text};
ghost use Rattle.um_unit.specs.ServiceView.{service_settings_of};
ghost use Rattle.um_words.specs.Commands.{command_seen};
ghost use Rattle.um_words.specs.Environment.{variable_of, variables_of};
ghost use Rattle.um_words.specs.Rooms.{left};

use crate::settings::command_at;
use std::alloc::{AllocError, Global};
use std::marker::Model;
use std::rc::Rc;
use um_model::CommandList;
use um_unit::ServiceSettings;
use um_words::{Command, Room, Variable, room_after, substitute};

/// The limits of execve(2) for words and environment: two MiB in all, and 128 KiB in one, each with its zero byte.
fn arguments() -> Room
    ensures { result ≡ arguments }
{
    Room {
        total: 2_097_152,
        longest: 131_072,
        beside: 1,
    }
}

/// A command of a unit that is to be started, as it is set. The settings are shared, and the words are put together only when they are
/// read.
#[derive(Debug, Drop)]
pub struct Start {
    settings: Rc<ServiceSettings>,
    which: CommandList,
    index: u32,
}

impl Model for Start {
    ghost Value = { Started };

    ghost view = { λ s. started_at (service_settings_of s.settings.value) s.which s.index };
}

/// A copy of the words.
fn copied(alloc: Global, words: &[String]) -> Result<Vec<String>, AllocError>
    ensures { IfOk result (λ copies. map string_bytes copies.items ≡ map string_bytes words.now) }
{
    let mut copies = Vec::new(alloc);
    for word in words {
        copies.push(word.clone()?)?;
    }
    Ok(copies)
}

/// The words that the command is started with: its variables stand for their values, unless it is written with `:`.
fn words_of(
    alloc: Global,
    command: Option<&Command>,
    environment: &[Variable],
) -> Result<Vec<String>, AllocError>
    ensures { IfOk result (λ words. map string_bytes words.items ≡ started_words (variables_of environment.now) (option_map (λ c. command_seen c.now) command.entry)) }
{
    let Some(command) = command else {
        return Ok(Vec::new(alloc));
    };
    if command.substitutes {
        substitute(alloc, command.words.as_slice(), environment)
    } else {
        copied(alloc, command.words.as_slice())
    }
}

/// The room left after the words that the command is started with.
fn room_after_words(
    alloc: Global,
    room: Room,
    command: Option<&Command>,
    environment: &[Variable],
) -> Result<Option<Room>, AllocError>
    ensures { IfOk result (λ free. free ≡ left room (started_words (variables_of environment.now) (option_map (λ c. command_seen c.now) command.entry))) }
{
    let Some(command) = command else {
        return Ok(Some(room));
    };
    if command.substitutes {
        room_after(alloc, room, command.words.as_slice(), environment)
    } else {
        Ok(room.after_texts(command.words.as_slice()))
    }
}

/// The variable as a process is given it: `NAME=value`.
fn variable_text(alloc: Global, variable: &Variable) -> Result<String, AllocError>
    ensures { IfOk result (λ text. string_bytes text ≡ variable_text (variable_of variable.now)) }
{
    let mut text = variable.name.clone()?;
    text.push_str("=")?;
    text.push_str(variable.value.as_str())?;
    Ok(text)
}

/// The environment as a process is given it.
fn environment_texts(alloc: Global, environment: &[Variable]) -> Result<Vec<String>, AllocError>
    ensures { IfOk result (λ texts. map string_bytes texts.items ≡ map variable_text (variables_of environment.now)) }
{
    let mut texts = Vec::new(alloc);
    for variable in environment {
        texts.push(variable_text(alloc, variable)?)?;
    }
    Ok(texts)
}

/// The room left after the environment.
fn room_after_environment(room: Room, environment: &[Variable]) -> Option<Room>
    ensures { result ≡ left room (map variable_text (variables_of environment.now)) }
{
    let mut free = room;
    for variable in environment {
        let length = variable.name.len().saturating_add(1);
        free = free.after(length.saturating_add(variable.value.len()))?;
    }
    Some(free)
}

impl Start {
    /// The command at this place of the list.
    pub(crate) fn new(
        settings: &Rc<ServiceSettings>,
        which: CommandList,
        index: u32,
    ) -> Result<Start, AllocError>
        ensures { IfOk result (λ start. start ≡ started_at (service_settings_of settings.now.value) which index) }
    {
        let settings = settings.clone()?;
        Ok(Start {
            settings,
            which,
            index,
        })
    }

    /// A copy, which shares the settings.
    pub fn share(&self) -> Result<Start, AllocError>
        ensures { IfOk result (λ start. start ≡ self.now) }
    {
        Start::new(&self.settings, self.which, self.index)
    }

    /// The program and its arguments, put together. It fails only for want of memory.
    pub fn words(&self, alloc: Global) -> Result<Vec<String>, AllocError>
        ensures { IfOk result (λ words. map string_bytes words.items ≡ self.now.words) }
    {
        let command = command_at(&self.settings, self.which, self.index);
        words_of(alloc, command, self.settings.environment.as_slice())
    }

    /// The environment, `NAME=value` each. It fails only for want of memory.
    pub fn environment(&self, alloc: Global) -> Result<Vec<String>, AllocError>
        ensures { IfOk result (λ texts. map string_bytes texts.items ≡ self.now.environment) }
    {
        environment_texts(alloc, self.settings.environment.as_slice())
    }

    /// The room left after the words, if they fit. They are not put together: memory is taken only for the words of the variables' values.
    /// It fails only for want of memory.
    pub fn room_after_words(&self, alloc: Global, room: Room) -> Result<Option<Room>, AllocError>
        ensures { IfOk result (λ free. free ≡ left room self.now.words) }
    {
        room_after_words(
            alloc,
            room,
            command_at(&self.settings, self.which, self.index),
            self.settings.environment.as_slice(),
        )
    }

    /// Whether the words and the environment are longer than execve(2) takes: over two MiB (2,097,152 bytes) in all, or 128 KiB (131,072
    /// bytes) in one, each with its zero byte. Nothing is put together. It fails only for want of memory.
    pub fn is_too_long(&self, alloc: Global) -> Result<bool, AllocError>
        ensures { IfOk result (λ told. told ≡ is_too_long self.now.words self.now.environment) }
    {
        let Some(room) = self.room_after_words(alloc, arguments())? else {
            return Ok(true);
        };
        let free = room_after_environment(room, self.settings.environment.as_slice());
        Ok(free.is_none())
    }
}
