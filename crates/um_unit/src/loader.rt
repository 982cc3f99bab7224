//! Units by their files.

ghost use Rattle.std.specs.Prelude.{◌≡◌, IfOk, Some, None, map};
ghost use Rattle.um_model.specs.FileForms.{without_install};
ghost use Rattle.um_model.specs.Units as model;
ghost use Rattle.um_resolve.specs.View.{resolution_of, unit_file_of};
ghost use Rattle.um_unit.specs.View.{loading_of, loading_with, tree_read, unit_of};

use crate::assignments::assignments;
use crate::contents::{Contents, contents_of};
use crate::loaded::{LoadedUnit, Loading};
use crate::reading::Reading;
use crate::reasons::reason_of;
use crate::settings::{InstallSettings, settings_of};
use std::alloc::{AllocError, Global};
use std::rc::Rc;
use um_model::Profile;
use um_name::UnitName;
use um_resolve::{Resolution, SourceFile, resolve, source_files};

/// A unit with a file: found, unless a setting is refused.
fn loading_by_file(
    alloc: Global,
    profile: Profile,
    unit: &UnitName,
    path: &str,
    files: &[SourceFile<'_>],
) -> Result<Loading, AllocError>
    ensures { IfOk result (λ l. loading_of l ≡ model.loading_by_file profile unit.now path.now (map model.source_of (map unit_file_of files.now))) }
{
    let Contents { sources, warnings } = contents_of(alloc, profile, unit, files)?;
    let assigned = assignments(alloc, unit.suffix(), sources.as_slice())?;
    let name = unit.copy()?;
    let path = String::from_str(alloc, path)?;
    let warnings = Rc::new(alloc, warnings)?;
    let settings = settings_of(alloc, profile, unit, assigned.as_slice())?;
    let suffix = unit.suffix();
    match reason_of(
        alloc,
        profile,
        suffix,
        assigned.as_slice(),
        &settings.service,
    )? {
        Some(reason) => Ok(Loading::BadSetting { unit: name, reason }),
        None => Ok(Loading::Found(LoadedUnit {
            name,
            path: Some(path),
            settings,
            warnings,
        })),
    }
}

/// A unit that needs no file: found, whatever its drop-ins set, and nothing in them enables it.
fn unit_without_file(
    alloc: Global,
    profile: Profile,
    unit: &UnitName,
    files: &[SourceFile<'_>],
) -> Result<LoadedUnit, AllocError>
    ensures { IfOk result (λ u. unit_of u ≡ without_install (model.unit_by profile unit.now None (map model.source_of (map unit_file_of files.now)))) }
{
    let Contents { sources, warnings } = contents_of(alloc, profile, unit, files)?;
    let assigned = assignments(alloc, unit.suffix(), sources.as_slice())?;
    let name = unit.copy()?;
    let warnings = Rc::new(alloc, warnings)?;
    let mut settings = settings_of(alloc, profile, unit, assigned.as_slice())?;
    settings.install = InstallSettings::nothing(alloc);
    Ok(LoadedUnit {
        name,
        path: None,
        settings,
        warnings,
    })
}

/// The outcome for a name that leads there.
fn loading_at(
    alloc: Global,
    profile: Profile,
    resolution: &Resolution<'_>,
    files: &[SourceFile<'_>],
) -> Result<Loading, AllocError>
    ensures { IfOk result (λ l. loading_of l ≡ loading_with profile (resolution_of resolution.now) (map model.source_of (map unit_file_of files.now))) }
{
    match resolution {
        Resolution::File { unit, path, .. } => {
            loading_by_file(alloc, profile, unit, path.as_str(), files)
        }
        Resolution::NoFile { unit } => Ok(Loading::Found(unit_without_file(
            alloc, profile, unit, files,
        )?)),
        Resolution::Mask { unit } => Ok(Loading::Masked { unit: unit.copy()? }),
        Resolution::Nowhere => Ok(Loading::NotFound),
    }
}

/// The unit of that name in the tree as it is read: found, masked, not found, or refused for a setting. Names lead on by links, templates
/// and masks (systemd.unit(5), "Unit File Load Path"); drop-ins are read after the unit's own file. Units of types other than service and
/// target are never found; `shutdown.target` is found even without a file.
#[tactic(auto, unfolding(um_model::specs::Units::load))]
pub fn load(alloc: Global, reading: Reading<'_>, unit: &UnitName) -> Result<Loading, AllocError>
    ensures { IfOk result (λ l. loading_of l ≡ model.load (tree_read reading.entry) unit.now) }
{
    let resolution = resolve(alloc, reading.tree, unit)?;
    let files = source_files(alloc, reading.tree, &resolution)?;
    loading_at(alloc, reading.profile, &resolution, files.as_slice())
}
