//! Each verb as a call of its own.

ghost use Rattle.std.specs.Prelude.{◌≡◌, IfOk, map as each, string_bytes};
ghost use Rattle.um_model.specs.Install as model;
ghost use Rattle.um_unit.specs.View.{tree_read};
ghost use Rattle.um_wire.specs.Gives.{RefusesBy};

use crate::installed::{Installed, install};
use std::alloc::Global;
use um_model::InstallVerb;
use um_name::UnitName;
use um_unit::Reading;
use um_wire::Refusal;

/// Enables the unit (systemctl(1), "enable"): makes the links in `etc/` that [Install] sections request: that of the unit, those of the
/// units in its Also=, and so on. It is refused for the first cause that applies:
/// - the least path that isn't served or at which its link may not stand (E12);
/// - the least path that has another entry or for which another link is requested (E11);
/// - more new paths than there is room for (E13 `entries`);
/// - the least unit that isn't found (E4), is masked (E5), has a refused setting or is a template without a fit default instance (E6).
///
/// Want of memory is E15.
pub fn enable(alloc: Global, reading: Reading<'_>, unit: &UnitName) -> Result<Installed, Refusal>
    ensures installed { IfOk result (λ i. model.Installs (tree_read reading.entry) InstallVerb.Enable unit.now i.tree) }
    ensures made { IfOk result (λ i. each string_bytes i.made.items ≡ model.paths_beyond reading.entry.tree.now i.tree) }
    ensures removed { IfOk result (λ i. each string_bytes i.removed.items ≡ model.paths_beyond i.tree reading.entry.tree.now) }
    ensures refused { RefusesBy (model.RefusesInstall (tree_read reading.entry) InstallVerb.Enable unit.now) result }
{
    install(alloc, reading, InstallVerb::Enable, unit)
}

/// Disables the unit (systemctl(1), "disable"): removes the links in `etc/` by which the name, those written in its Also=, and so on
/// are wanted, required or have another name. Want of memory is E15; nothing else is refused.
pub fn disable(alloc: Global, reading: Reading<'_>, unit: &UnitName) -> Result<Installed, Refusal>
    ensures installed { IfOk result (λ i. model.Installs (tree_read reading.entry) InstallVerb.Disable unit.now i.tree) }
    ensures made { IfOk result (λ i. each string_bytes i.made.items ≡ model.paths_beyond reading.entry.tree.now i.tree) }
    ensures removed { IfOk result (λ i. each string_bytes i.removed.items ≡ model.paths_beyond i.tree reading.entry.tree.now) }
    ensures refused { RefusesBy (model.RefusesInstall (tree_read reading.entry) InstallVerb.Disable unit.now) result }
{
    install(alloc, reading, InstallVerb::Disable, unit)
}

/// Masks the unit (systemctl(1), "mask"): makes `etc/NAME` a link to `/dev/null`. Refused with another entry at that path (E11), and with
/// more than 4,096 entries (E13 `entries`). Want of memory is E15.
pub fn mask(alloc: Global, reading: Reading<'_>, unit: &UnitName) -> Result<Installed, Refusal>
    ensures installed { IfOk result (λ i. model.Installs (tree_read reading.entry) InstallVerb.Mask unit.now i.tree) }
    ensures made { IfOk result (λ i. each string_bytes i.made.items ≡ model.paths_beyond reading.entry.tree.now i.tree) }
    ensures removed { IfOk result (λ i. each string_bytes i.removed.items ≡ model.paths_beyond i.tree reading.entry.tree.now) }
    ensures refused { RefusesBy (model.RefusesInstall (tree_read reading.entry) InstallVerb.Mask unit.now) result }
{
    install(alloc, reading, InstallVerb::Mask, unit)
}

/// Unmasks the unit (systemctl(1), "unmask"): removes the link from `etc/NAME` to `/dev/null`, if it is there. Want of memory is E15;
/// nothing else is refused.
pub fn unmask(alloc: Global, reading: Reading<'_>, unit: &UnitName) -> Result<Installed, Refusal>
    ensures installed { IfOk result (λ i. model.Installs (tree_read reading.entry) InstallVerb.Unmask unit.now i.tree) }
    ensures made { IfOk result (λ i. each string_bytes i.made.items ≡ model.paths_beyond reading.entry.tree.now i.tree) }
    ensures removed { IfOk result (λ i. each string_bytes i.removed.items ≡ model.paths_beyond i.tree reading.entry.tree.now) }
    ensures refused { RefusesBy (model.RefusesInstall (tree_read reading.entry) InstallVerb.Unmask unit.now) result }
{
    install(alloc, reading, InstallVerb::Unmask, unit)
}
