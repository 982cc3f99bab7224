//! The canonical bytes of inputs: the profile, a tag, the moment, and the fields of the event.
ghost use Rattle.std.specs.Prelude.{◌≡◌, ◌≤◌, ◌++◌, ℕ, length, drop, IfOk, IfSome, OnOk, OnErr};
ghost use Rattle.std.specs.Option.{option_map};
ghost use Rattle.um_model.specs.Bytes.{IsInFront, arm_in, as_at, pair_at, table_at};
ghost use Rattle.um_model.specs.InputSpellings.{FitCommand, FitEvent, FitHappening, FitInput, command_fields, command_tag, event_fields, event_tag, happening_fields, happening_tag, modes};
ghost use Rattle.um_model.specs.InputSpellings.{input_at, input_spelling, input_with as model_with, install_tag, verb_tag};
ghost use Rattle.um_model.specs.Machine as model;
ghost use Rattle.um_model.specs.Spellings.{unit_name_at};
ghost use Rattle.um_model.proofs.InputSpellingsLaws.{canonical_input};
ghost use Rattle.um_state.specs.Arms.{command_arms, event_at, happening_arms, timed_at};
ghost use Rattle.um_state.specs.View.{command_of, event_of, happening_of, input_of, timed_of};

use crate::boot::BootId;
use crate::input::{Command, Event, Happening, Input};
use std::alloc::{AllocError, Global};
use um_model::{End, InstallVerb, JobMode, Moment, Profile, UnitVerb};
use um_name::UnitName;
use um_wire::{Canon, Tagged};

/// The tag of a command for a unit.
fn verb_tag(verb: UnitVerb) -> u8
    ensures { result ≡ verb_tag verb }
{
    match verb {
        UnitVerb::Start => 5,
        UnitVerb::Stop => 6,
        UnitVerb::Restart => 7,
        UnitVerb::TryRestart => 8,
    }
}

/// The tag of enabling, disabling or the like.
fn install_tag(verb: InstallVerb) -> u8
    ensures { result ≡ install_tag verb }
{
    match verb {
        InstallVerb::Enable => 11,
        InstallVerb::Disable => 12,
        InstallVerb::Mask => 13,
        InstallVerb::Unmask => 14,
    }
}

impl Command {
    fn tag(&self) -> u8
        ensures { result ≡ command_tag (command_of self.now) }
    {
        match self {
            Command::PutFile { .. } => 1,
            Command::PutLink { .. } => 2,
            Command::Remove { .. } => 3,
            Command::DaemonReload => 4,
            Command::ForUnit { verb, .. } => verb_tag(*verb),
            Command::Cancel { .. } => 9,
            Command::ResetFailed { .. } => 10,
            Command::Install { verb, .. } => install_tag(*verb),
        }
    }

    /// Appends the fields of the command, without its tag.
    fn put_fields(&self, out: &mut Vec<u8>) -> Result<(), AllocError>
        ensures put { OnOk result (out.new.items ≡ out.old.items ++ command_fields (command_of self.now)) }
        ensures fits { OnOk result (FitCommand (command_of self.now)) }
        ensures front { OnErr result (IsInFront out.old.items out.new.items) }
    {
        match self {
            Command::PutFile { path, text } => {
                path.put(out)?;
                text.put(out)
            }
            Command::PutLink { path, target } => {
                path.put(out)?;
                target.put(out)
            }
            Command::Remove { path } => path.put(out),
            Command::DaemonReload => Ok(()),
            Command::ForUnit { unit, mode, .. } => {
                unit.put(out)?;
                mode.put(out)
            }
            Command::Cancel { unit } => unit.put(out),
            Command::ResetFailed { unit } => unit.put(out),
            Command::Install { unit, .. } => unit.put(out),
        }
    }
}

impl Happening {
    fn tag(&self) -> u8
        ensures { result ≡ happening_tag (happening_of self.now) }
    {
        match self {
            Happening::ProcessEnded { .. } => 15,
            Happening::ProcessExecuted { .. } => 16,
            Happening::Tick => 17,
            Happening::Booted { .. } => 18,
        }
    }

    /// Appends the fields of the happening, without its tag.
    fn put_fields(&self, out: &mut Vec<u8>) -> Result<(), AllocError>
        ensures put { OnOk result (out.new.items ≡ out.old.items ++ happening_fields (happening_of self.now)) }
        ensures fits { OnOk result (FitHappening (happening_of self.now)) }
        ensures front { OnErr result (IsInFront out.old.items out.new.items) }
    {
        match self {
            Happening::ProcessEnded { number, end } => {
                number.put(out)?;
                end.put(out)
            }
            Happening::ProcessExecuted { number } => number.put(out),
            Happening::Tick => Ok(()),
            Happening::Booted { boot } => boot.put(out),
        }
    }
}

impl Event {
    fn tag(&self) -> u8
        ensures { result ≡ event_tag (event_of self.now) }
    {
        match self {
            Event::Commanded(command) => command.tag(),
            Event::Happened(happening) => happening.tag(),
        }
    }

    /// Appends the fields of the event, without its tag.
    fn put_fields(&self, out: &mut Vec<u8>) -> Result<(), AllocError>
        ensures put { OnOk result (out.new.items ≡ out.old.items ++ event_fields (event_of self.now)) }
        ensures fits { OnOk result (FitEvent (event_of self.now)) }
        ensures front { OnErr result (IsInFront out.old.items out.new.items) }
    {
        match self {
            Event::Commanded(command) => command.put_fields(out),
            Event::Happened(happening) => happening.put_fields(out),
        }
    }
}

/// The unit and the mode in front of the bytes, as a command with this verb.
fn for_unit_in(
    alloc: Global,
    verb: UnitVerb,
    bytes: &[u8],
) -> Result<Option<(Command, usize)>, AllocError>
    ensures read { IfOk result (λ found. as_at (λ f. model.ForUnit verb f.0 f.1) (pair_at unit_name_at (table_at modes)) bytes.now
        ≡ option_map (λ x. (command_of x.0, drop x.1 bytes.now)) found) }
    ensures within { IfOk result (λ found. IfSome found (λ x. x.1 ≤ length bytes.now)) }
{
    match <(UnitName, JobMode)>::get(alloc, bytes)? {
        Some(((unit, mode), n)) => Ok(Some((Command::ForUnit { verb, unit, mode }, n))),
        None => Ok(None),
    }
}

/// The unit in front of the bytes, as a command with this verb.
fn install_in(
    alloc: Global,
    verb: InstallVerb,
    bytes: &[u8],
) -> Result<Option<(Command, usize)>, AllocError>
    ensures read { IfOk result (λ found. as_at (λ unit. model.Install verb unit) unit_name_at bytes.now
        ≡ option_map (λ x. (command_of x.0, drop x.1 bytes.now)) found) }
    ensures within { IfOk result (λ found. IfSome found (λ x. x.1 ≤ length bytes.now)) }
{
    match UnitName::get(alloc, bytes)? {
        Some((unit, n)) => Ok(Some((Command::Install { verb, unit }, n))),
        None => Ok(None),
    }
}

/// The command with this tag whose fields stand in front of the bytes.
fn command_in(alloc: Global, tag: u8, bytes: &[u8]) -> Result<Option<(Command, usize)>, AllocError>
    ensures read { IfOk result (λ found. arm_in command_arms tag bytes.now ≡ option_map (λ x. (command_of x.0, drop x.1 bytes.now)) found) }
    ensures within { IfOk result (λ found. IfSome found (λ x. x.1 ≤ length bytes.now)) }
{
    match tag {
        1 => match <(String, String)>::get(alloc, bytes)? {
            Some(((path, text), n)) => Ok(Some((Command::PutFile { path, text }, n))),
            None => Ok(None),
        },
        2 => match <(String, String)>::get(alloc, bytes)? {
            Some(((path, target), n)) => Ok(Some((Command::PutLink { path, target }, n))),
            None => Ok(None),
        },
        3 => match String::get(alloc, bytes)? {
            Some((path, n)) => Ok(Some((Command::Remove { path }, n))),
            None => Ok(None),
        },
        4 => Ok(Some((Command::DaemonReload, 0))),
        5 => for_unit_in(alloc, UnitVerb::Start, bytes),
        6 => for_unit_in(alloc, UnitVerb::Stop, bytes),
        7 => for_unit_in(alloc, UnitVerb::Restart, bytes),
        8 => for_unit_in(alloc, UnitVerb::TryRestart, bytes),
        9 => match UnitName::get(alloc, bytes)? {
            Some((unit, n)) => Ok(Some((Command::Cancel { unit }, n))),
            None => Ok(None),
        },
        10 => match <Option<UnitName> as Canon>::get(alloc, bytes)? {
            Some((unit, n)) => Ok(Some((Command::ResetFailed { unit }, n))),
            None => Ok(None),
        },
        11 => install_in(alloc, InstallVerb::Enable, bytes),
        12 => install_in(alloc, InstallVerb::Disable, bytes),
        13 => install_in(alloc, InstallVerb::Mask, bytes),
        14 => install_in(alloc, InstallVerb::Unmask, bytes),
        _ => Ok(None),
    }
}

/// The happening with this tag, counted from 15, whose fields stand in front of the bytes.
fn happening_in(
    alloc: Global,
    tag: u8,
    bytes: &[u8],
) -> Result<Option<(Happening, usize)>, AllocError>
    ensures read { IfOk result (λ found. arm_in happening_arms tag bytes.now ≡ option_map (λ x. (happening_of x.0, drop x.1 bytes.now)) found) }
    ensures within { IfOk result (λ found. IfSome found (λ x. x.1 ≤ length bytes.now)) }
{
    match tag {
        0 => match <(u64, End)>::get(alloc, bytes)? {
            Some(((number, end), n)) => Ok(Some((Happening::ProcessEnded { number, end }, n))),
            None => Ok(None),
        },
        1 => match u64::get(alloc, bytes)? {
            Some((number, n)) => Ok(Some((Happening::ProcessExecuted { number }, n))),
            None => Ok(None),
        },
        2 => Ok(Some((Happening::Tick, 0))),
        3 => match BootId::get(alloc, bytes)? {
            Some((boot, n)) => Ok(Some((Happening::Booted { boot }, n))),
            None => Ok(None),
        },
        _ => Ok(None),
    }
}

/// The event with this tag that has its fields in front of the bytes.
fn event_in(alloc: Global, tag: u8, bytes: &[u8]) -> Result<Option<(Event, usize)>, AllocError>
    ensures read { IfOk result (λ found. event_at tag bytes.now ≡ option_map (λ x. (event_of x.0, drop x.1 bytes.now)) found) }
    ensures within { IfOk result (λ found. IfSome found (λ x. x.1 ≤ length bytes.now)) }
{
    if tag < 15 {
        match command_in(alloc, tag, bytes)? {
            Some((command, n)) => Ok(Some((Event::Commanded(command), n))),
            None => Ok(None),
        }
    } else {
        match happening_in(alloc, tag - 15, bytes)? {
            Some((happening, n)) => Ok(Some((Event::Happened(happening), n))),
            None => Ok(None),
        }
    }
}

/// The moment and the event with this tag, if the moment and the fields stand in front of the bytes.
fn timed_in(
    alloc: Global,
    tag: u8,
    bytes: &[u8],
) -> Result<Option<((Moment, Event), usize)>, AllocError>
    ensures read { IfOk result (λ found. timed_at tag bytes.now ≡ option_map (λ x. (timed_of x.0, drop x.1 bytes.now)) found) }
    ensures within { IfOk result (λ found. IfSome found (λ x. x.1 ≤ length bytes.now)) }
{
    let Some((moment, n)) = Moment::get(alloc, bytes)? else {
        return Ok(None);
    };
    match event_in(alloc, tag, &bytes[n..])? {
        Some((event, m)) => Ok(Some(((moment, event), n + m))),
        None => Ok(None),
    }
}

/// The input of this profile with this moment and event.
fn input_with(profile: Profile, timed: (Moment, Event)) -> Input
    ensures { input_of result ≡ model_with (profile, timed_of timed) }
{
    let (moment, event) = timed;
    Input {
        profile,
        moment,
        event,
    }
}

impl Canon for Input {
    ghost Value = { model.Input };

    ghost value = { input_of };

    ghost fits = { FitInput };

    ghost spelling = { input_spelling };

    ghost reading = { input_at };

    fn put(&self, out: &mut Vec<u8>) -> Result<(), AllocError> {
        out.push(self.profile.tag())?;
        out.push(self.event.tag())?;
        self.moment.put(out)?;
        self.event.put_fields(out)
    }

    fn get(alloc: Global, bytes: &[u8]) -> Result<Option<(Input, usize)>, AllocError> {
        let [first, tag, rest @ ..] = bytes else {
            return Ok(None);
        };
        let Some(profile) = Profile::from_tag(*first) else {
            return Ok(None);
        };
        match timed_in(alloc, *tag, rest)? {
            Some((timed, n)) => Ok(Some((input_with(profile, timed), n + 2))),
            None => Ok(None),
        }
    }

    ghost canonical = { canonical_input };
}
