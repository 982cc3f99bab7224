//! Each input that can be made has a spelling: the types of its parts keep the bounds that a spelling needs. These functions only look.
ghost use Rattle.std.specs.Prelude.{◌<◌, ◌^◌};
ghost use Rattle.um_model.specs.Bytes.{FitText};
ghost use Rattle.um_model.specs.InputSpellings.{FitCommand, FitEvent, FitHappening};
ghost use Rattle.um_model.specs.Spellings.{FitEnd, FitMoment, FitUnitName};
ghost use Rattle.um_model.specs.StateSpellings.{FitBoot};
ghost use Rattle.um_state.specs.Short.{AreShort, HasShortTexts, IsShort};
ghost use Rattle.um_state.specs.View.{command_of, event_of, happening_of};

use crate::boot::BootId;
use crate::input::{Command, Event, Happening};
use um_model::{End, Moment};
use um_name::UnitName;

/// A text is UTF-8.
fn text_fits(text: &str)
    ensures { IsShort text.now → FitText text.now }
{}

/// A unit name names a unit, and is short.
fn name_fits(unit: &UnitName)
    ensures { FitUnitName unit.now }
{
    let _ = unit.as_str();
}

/// A boot's id is a text of at most 64 bytes.
fn boot_fits(boot: &BootId)
    ensures { FitBoot boot.now }
{
    text_fits(boot.as_str());
}

/// A moment is up to 2^62.
pub(crate) fn moment_fits(moment: Moment)
    ensures { FitMoment moment }
{
    let _ = moment.micros();
}

/// The code or the signal is a byte.
fn end_fits(end: End)
    ensures { FitEnd end }
{
    match end {
        End::Code(_code) => {}
        End::Signal(_number) => {}
        End::Lost => {}
    }
}

/// A number has eight bytes.
fn number_fits(number: u64)
    ensures { number < 2 ^ 64 }
{}

fn command_fits(command: &Command)
    ensures { AreShort (command_of command.now) → FitCommand (command_of command.now) }
{
    match command {
        Command::PutFile { path, text } => {
            text_fits(path.as_str());
            text_fits(text.as_str());
        }
        Command::PutLink { path, target } => {
            text_fits(path.as_str());
            text_fits(target.as_str());
        }
        Command::Remove { path } => text_fits(path.as_str()),
        Command::DaemonReload => {}
        Command::ForUnit { unit, .. } => name_fits(unit),
        Command::Cancel { unit } => name_fits(unit),
        Command::ResetFailed { unit: Some(unit) } => name_fits(unit),
        Command::ResetFailed { unit: None } => {}
        Command::Install { unit, .. } => name_fits(unit),
    }
}

fn happening_fits(happening: &Happening)
    ensures { FitHappening (happening_of happening.now) }
{
    match happening {
        Happening::ProcessEnded { number, end } => {
            number_fits(*number);
            end_fits(*end);
        }
        Happening::ProcessExecuted { number } => number_fits(*number),
        Happening::Tick => {}
        Happening::Booted { boot } => boot_fits(boot),
    }
}

/// An event has a spelling if its texts have fewer than 2^32 bytes.
pub(crate) fn event_fits(event: &Event)
    ensures { HasShortTexts (event_of event.now) → FitEvent (event_of event.now) }
{
    match event {
        Event::Commanded(command) => command_fits(command),
        Event::Happened(happening) => happening_fits(happening),
    }
}
