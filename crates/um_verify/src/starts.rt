//! The commands of a service, by their lines.

ghost use Rattle.std.specs.Prelude.{◌≡◌, IfOk, OnOk, map, string_bytes};
ghost use Rattle.um_unit.specs.View.{loading_of};
ghost use Rattle.um_verify.specs.Findings as model;
ghost use Rattle.um_verify.specs.View.{spot_of};

use crate::given::{read_now, tree_of};
use crate::spots::Spot;
use std::alloc::{AllocError, Global};
use um_name::UnitName;
use um_unit::{Loading, load};

fn is_loaded(loading: &Loading) -> bool
    ensures { result ≡ model.is_loaded (loading_of loading.now) }
{
    match loading {
        Loading::Found(_) => true,
        Loading::Masked { .. } | Loading::BadSetting { .. } | Loading::NotFound => false,
    }
}

/// Whether the value of an `ExecStart=` of the unit holds a command: a oneshot service with it alone can be loaded.
#[tactic(auto, unfolding(crate::specs::Findings::holds_command))]
fn holds_command(alloc: Global, unit: &UnitName, value: &str) -> Result<bool, AllocError>
    ensures { IfOk result (λ holds. holds ≡ model.holds_command unit.now value.now) }
{
    let name = unit.as_str();
    let path = format!(in alloc; "lib/{name}")?;
    let text = format!(in alloc; "[Service]\nType=oneshot\nExecStart={value}\n")?;
    let tree = tree_of(alloc, &[(path.as_str(), text.as_str())])?;
    let loading = load(alloc, read_now(&tree), unit)?;
    Ok(is_loaded(&loading))
}

/// Takes one more assignment into account.
fn add_start<'a>(
    alloc: Global,
    unit: &UnitName,
    found: &mut Vec<Spot<'a>>,
    spot: &Spot<'a>,
) -> Result<(), AllocError>
    ensures { OnOk result (map spot_of found.new.items ≡ model.with_start unit.now (map spot_of found.old.items) (spot_of spot.now)) }
{
    if spot.section != "Service" || spot.key != "ExecStart" {
        return Ok(());
    }
    if spot.value.is_empty() {
        found.clear();
        return Ok(());
    }
    if holds_command(alloc, unit, spot.value)? {
        found.push(*spot)?;
    }
    Ok(())
}

/// The assignments of `ExecStart=` that count and hold a command.
pub fn starts_in<'a>(
    alloc: Global,
    unit: &UnitName,
    spots: &[Spot<'a>],
) -> Result<Vec<Spot<'a>>, AllocError>
    ensures { IfOk result (λ found. map spot_of found.items ≡ model.starts_in unit.now (map spot_of spots.now)) }
{
    let mut found = Vec::new(alloc);
    for spot in spots {
        add_start(alloc, unit, &mut found, spot)?;
    }
    Ok(found)
}
