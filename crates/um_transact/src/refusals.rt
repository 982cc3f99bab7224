//! Why a unit can't be started.

ghost use Rattle.um_model.specs.Machine as machine;
ghost use Rattle.um_model.specs.Units as units;
ghost use Rattle.um_unit.specs.View.{loading_of, unit_of};
ghost use Rattle.um_wire.specs.Gives.{RefusesBy};

use std::alloc::Global;
use um_name::UnitName;
use um_unit::{LoadedUnit, Loading};
use um_wire::{Refusal, bad_setting, masked, not_found};

/// Refuses to start a unit that was found and is a template (E6).
fn check_found(alloc: Global, asked: &UnitName, found: &LoadedUnit) -> Result<(), Refusal>
    ensures { RefusesBy (machine.CannotStart asked.now (units.Found (unit_of found.now))) result }
{
    if found.name.is_template() {
        return Err(bad_setting(alloc, found.name.as_str(), "template")?);
    }
    Ok(())
}

/// Refuses to start a unit that isn't found (E4), is masked (E5), has a refused setting or is a template (E6). Want of memory for the
/// refusal's texts is E15. The unit is the one that the name leads to.
pub fn check_start(alloc: Global, asked: &UnitName, loading: &Loading) -> Result<(), Refusal>
    ensures { RefusesBy (machine.CannotStart asked.now (loading_of loading.now)) result }
{
    match loading {
        Loading::Found(found) => check_found(alloc, asked, found),
        Loading::NotFound => Err(not_found(alloc, asked.as_str())?),
        Loading::Masked { unit } => Err(masked(alloc, unit.as_str())?),
        Loading::BadSetting { unit, reason } => {
            Err(bad_setting(alloc, unit.as_str(), reason.as_str())?)
        }
    }
}
