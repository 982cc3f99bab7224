//! Refusals with a text, each with a copy of its own; the copy can fail only for want of memory.
ghost use Rattle.std.specs.Prelude.{◌≡◌, IfOk};
ghost use Rattle.um_model.specs.Refusals as told;
ghost use Rattle.um_wire.specs.Refusal.{refused_of};

use crate::refusal::Refusal;
use std::alloc::{AllocError, Global};

/// The refusal `E2 UnknownVerb`, with a copy of the verb.
pub fn unknown_verb(alloc: Global, verb: &str) -> Result<Refusal, AllocError>
    ensures { IfOk result (λ r. refused_of r ≡ told.unknown_verb verb.now) }
{
    let verb = String::from_str(alloc, verb)?;
    Ok(Refusal::UnknownVerb { verb })
}

/// The refusal `E3 BadName`, with a copy of the text.
pub fn bad_name(alloc: Global, text: &str) -> Result<Refusal, AllocError>
    ensures { IfOk result (λ r. refused_of r ≡ told.bad_name text.now) }
{
    let text = String::from_str(alloc, text)?;
    Ok(Refusal::BadName { text })
}

/// The refusal `E4 NotFound`, with a copy of the unit's name.
pub fn not_found(alloc: Global, unit: &str) -> Result<Refusal, AllocError>
    ensures { IfOk result (λ r. refused_of r ≡ told.not_found unit.now) }
{
    let unit = String::from_str(alloc, unit)?;
    Ok(Refusal::NotFound { unit })
}

/// The refusal `E5 Masked`, with a copy of the unit's name.
pub fn masked(alloc: Global, unit: &str) -> Result<Refusal, AllocError>
    ensures { IfOk result (λ r. refused_of r ≡ told.masked unit.now) }
{
    let unit = String::from_str(alloc, unit)?;
    Ok(Refusal::Masked { unit })
}

/// The refusal `E6 BadSetting`, with copies of the unit's name and the reason.
pub fn bad_setting(alloc: Global, unit: &str, reason: &str) -> Result<Refusal, AllocError>
    ensures { IfOk result (λ r. refused_of r ≡ told.bad_setting unit.now reason.now) }
{
    let unit = String::from_str(alloc, unit)?;
    let reason = String::from_str(alloc, reason)?;
    Ok(Refusal::BadSetting { unit, reason })
}

/// The refusal `E7 NotLoaded`, with a copy of the unit's name.
pub fn not_loaded(alloc: Global, unit: &str) -> Result<Refusal, AllocError>
    ensures { IfOk result (λ r. refused_of r ≡ told.not_loaded unit.now) }
{
    let unit = String::from_str(alloc, unit)?;
    Ok(Refusal::NotLoaded { unit })
}

/// The refusal `E8 Clash`, with a copy of the unit's name.
pub fn clash(alloc: Global, unit: &str) -> Result<Refusal, AllocError>
    ensures { IfOk result (λ r. refused_of r ≡ told.clash unit.now) }
{
    let unit = String::from_str(alloc, unit)?;
    Ok(Refusal::Clash { unit })
}

/// The refusal `E10 JobConflict`, with a copy of the unit's name.
pub fn job_conflict(alloc: Global, unit: &str) -> Result<Refusal, AllocError>
    ensures { IfOk result (λ r. refused_of r ≡ told.job_conflict unit.now) }
{
    let unit = String::from_str(alloc, unit)?;
    Ok(Refusal::JobConflict { unit })
}

/// The refusal `E11 Exists`, with a copy of the path.
pub fn exists_at(alloc: Global, path: &str) -> Result<Refusal, AllocError>
    ensures { IfOk result (λ r. refused_of r ≡ told.exists_at path.now) }
{
    let path = String::from_str(alloc, path)?;
    Ok(Refusal::Exists { path })
}

/// The refusal `E12 BadPath`, with a copy of the path.
pub fn bad_path(alloc: Global, path: &str) -> Result<Refusal, AllocError>
    ensures { IfOk result (λ r. refused_of r ≡ told.bad_path path.now) }
{
    let path = String::from_str(alloc, path)?;
    Ok(Refusal::BadPath { path })
}

/// The refusal `E21 NoSuchJob`, with a copy of the unit's name.
pub fn no_such_job(alloc: Global, unit: &str) -> Result<Refusal, AllocError>
    ensures { IfOk result (λ r. refused_of r ≡ told.no_such_job unit.now) }
{
    let unit = String::from_str(alloc, unit)?;
    Ok(Refusal::NoSuchJob { unit })
}
