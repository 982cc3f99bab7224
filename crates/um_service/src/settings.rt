//! The commands of a unit's settings.

ghost use Rattle.std.specs.Prelude.{◌≡◌, ◌+◌, if◌then◌else◌, Some, None, option_map, slice_get};
ghost use Rattle.um_model.specs.Settings.{commands_in, has_place, has_dash};
ghost use Rattle.um_unit.specs.ServiceView.{service_settings_of};
ghost use Rattle.um_words.specs.Commands.{command_seen, commands_seen};

use um_model::CommandList;
use um_unit::ServiceSettings;
use um_words::Command;

/// One of the unit's lists of commands.
pub fn commands_in(settings: &ServiceSettings, which: CommandList) -> &[Command]
    ensures { commands_seen result.now ≡ commands_in (service_settings_of settings.now) which }
{
    match which {
        CommandList::OfStartPre => settings.start_pre.as_slice(),
        CommandList::OfStart => settings.start.as_slice(),
        CommandList::OfStop => settings.stop.as_slice(),
    }
}

/// The command at this place of one of the unit's lists.
pub fn command_at(settings: &ServiceSettings, which: CommandList, index: u32) -> Option<&Command>
    ensures { option_map (λ c. command_seen c.now) result ≡ slice_get (commands_in (service_settings_of settings.now) which) index }
{
    commands_in(settings, which).get(index as usize)
}

/// Whether the list has a command at this place.
pub fn has_place(settings: &ServiceSettings, which: CommandList, index: u32) -> bool
    ensures { result ≡ has_place (commands_in (service_settings_of settings.now) which) index }
{
    (index as usize) < commands_in(settings, which).len()
}

/// The place after this one, if the list has a command there.
pub fn next_place(settings: &ServiceSettings, which: CommandList, index: u32) -> Option<u32>
    ensures { result ≡ (if has_place (commands_in (service_settings_of settings.now) which) (index + 1) then Some (index + 1) else None) }
{
    match index.checked_add(1) {
        Some(next) if has_place(settings, which, next) => Some(next),
        _ => None,
    }
}

/// Whether the command at this place of the list is written with `-`.
pub fn has_dash(settings: &ServiceSettings, which: CommandList, index: u32) -> bool
    ensures { result ≡ has_dash (service_settings_of settings.now) which index }
{
    match commands_in(settings, which).get(index as usize) {
        Some(command) => command.ignores_failure,
        None => false,
    }
}
