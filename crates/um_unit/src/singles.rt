//! Settings of one value: the last that can be read counts, or else the default.

ghost use Rattle.std.specs.Prelude.{◌≡◌, IfOk, List, [], ℕ, filter_map, map, option_copied, option_map, option_to_list, string_bytes};
ghost use Rattle.std.specs.Result.{result_ok};
ghost use Rattle.um_model.specs.Units as model;
ghost use Rattle.um_model.specs.declared.units.ValueKind as value_kinds;
ghost use Rattle.um_model.specs.declared.units.ValueKind.TheVariants as kinds;
ghost use Rattle.um_unit.specs.Sources.{assigned_of};
ghost use Rattle.um_value.specs.Spans.{micros_in};
ghost use Rattle.um_unit.specs.View.{said_of};

use crate::assignments::{Assigned, Key, values_of};
use crate::readings::{instance_in, text_reading};
use std::alloc::{AllocError, Global};
use um_model::{RestartPolicy, Span, TimeSpan, UnitKind};
use um_name::UnitName;
use um_value::{boolean, number, restart, span};

/// How the values of one kind of setting are read.
pub trait Reader {
    /// The result of reading a value.
    type Said: Drop;

    /// The kind of its values.
    ghost kind: { value_kinds.ValueKind };

    /// The unit under whose name a value is read.
    ghost unit: { Self → List ℕ };

    /// That result, independent of its place in memory.
    ghost seen: { Self.Said → model.Said kind };

    /// Reads a value; None if it can't be read.
    fn read(&self, value: &str) -> Result<Option<Self::Said>, AllocError>
        ensures { IfOk result (λ said. option_to_list (option_map seen said) ≡ filter_map result_ok (model.value_readings (unit self.now) kind value.now)) };
}

/// The result of reading the last value of the keys that can be read, or else the default.
pub fn last_read<R: Reader>(
    alloc: Global,
    reader: &R,
    assigned: &[Assigned<'_>],
    keys: &[Key<'_>],
    default: R::Said,
) -> Result<R::Said, AllocError>
    ensures { IfOk result (λ last. R.seen last
        ≡ model.last_said (R.unit reader.now) R.kind (R.seen default) (map (λ k. (k.0.now, k.1.now)) keys.now) (map assigned_of assigned.now)) }
{
    let mut last = default;
    for value in &values_of(alloc, assigned, keys)? {
        if let Some(said) = reader.read(value)? {
            last = said;
        }
    }
    Ok(last)
}

/// Reads texts, with their specifiers expanded under a unit's name.
#[derive(Clone, Copy)]
pub struct Text<'u> {
    pub alloc: Global,
    pub unit: &'u UnitName,
}

impl Reader for Text<'_> {
    type Said = String;

    ghost kind = { kinds.Text };

    ghost unit = { λ r. r.unit.now };

    ghost seen = { string_bytes };

    fn read(&self, value: &str) -> Result<Option<String>, AllocError> {
        Ok(text_reading(self.alloc, self.unit, value)?.ok())
    }
}

/// Reads truth values.
#[derive(Clone, Copy)]
pub struct Truth;

impl Reader for Truth {
    type Said = bool;

    ghost kind = { kinds.Truth };

    ghost unit = { λ _. [] };

    ghost seen = { λ truth. truth };

    fn read(&self, value: &str) -> Result<Option<bool>, AllocError> {
        Ok(boolean(value))
    }
}

/// Reads numbers.
#[derive(Clone, Copy)]
pub struct Count;

impl Reader for Count {
    type Said = u32;

    ghost kind = { kinds.Number };

    ghost unit = { λ _. [] };

    ghost seen = { λ count. count };

    fn read(&self, value: &str) -> Result<Option<u32>, AllocError> {
        Ok(number(value))
    }
}

/// Reads restart policies.
#[derive(Clone, Copy)]
pub struct Policy;

impl Reader for Policy {
    type Said = RestartPolicy;

    ghost kind = { kinds.Policy };

    ghost unit = { λ _. [] };

    ghost seen = { λ policy. policy };

    fn read(&self, value: &str) -> Result<Option<RestartPolicy>, AllocError> {
        Ok(restart(value))
    }
}

/// The span, or None if it never ends.
fn micros_in(span: TimeSpan) -> Option<Span>
    ensures { result ≡ micros_in span }
{
    match span {
        TimeSpan::Infinite => None,
        TimeSpan::Micros(micros) => Some(micros),
    }
}

/// Reads time spans; None never ends.
#[derive(Clone, Copy)]
pub struct Delay;

impl Reader for Delay {
    type Said = Option<Span>;

    ghost kind = { kinds.Span };

    ghost unit = { λ _. [] };

    ghost seen = { λ span. span };

    fn read(&self, value: &str) -> Result<Option<Option<Span>>, AllocError> {
        Ok(span(value).map(micros_in))
    }
}

/// The result of reading a value of `DefaultInstance=`: an empty one restores the default.
pub(crate) fn default_instance_in(value: &str) -> Option<Option<&str>>
    ensures { option_map option_copied result ≡ model.default_instance_in value.now }
{
    if value.is_empty() {
        Some(None)
    } else {
        instance_in(value).map(Some)
    }
}

/// Reads default instances, which templates are linked with.
#[derive(Clone, Copy)]
pub struct Instance {
    pub alloc: Global,
}

impl Reader for Instance {
    type Said = Option<String>;

    ghost kind = { kinds.Instance };

    ghost unit = { λ _. [] };

    ghost seen = { λ instance. option_map string_bytes instance };

    fn read(&self, value: &str) -> Result<Option<Option<String>>, AllocError> {
        match default_instance_in(value) {
            Some(Some(instance)) => Ok(Some(Some(String::from_str(self.alloc, instance)?))),
            Some(None) => Ok(Some(None)),
            None => Ok(None),
        }
    }
}

/// The type that `Type=` gives, if any.
#[derive(Clone, Copy, Debug, PartialEq, Eq)]
pub enum TypeSaid {
    Unsaid,
    Served(UnitKind),
    /// A type that isn't served.
    Unserved,
}

/// The result of reading a value of `Type=`, if it can be read (systemd.service(5)).
#[tactic(auto, unfolding(um_model::specs::Units::type_said))]
pub fn type_said(value: &str) -> Option<TypeSaid>
    ensures { option_map said_of result ≡ model.type_said value.now }
{
    match value {
        "simple" => Some(TypeSaid::Served(UnitKind::Simple)),
        "exec" => Some(TypeSaid::Served(UnitKind::Exec)),
        "oneshot" => Some(TypeSaid::Served(UnitKind::Oneshot)),
        "notify" => Some(TypeSaid::Unserved),
        "notify-reload" => Some(TypeSaid::Unserved),
        "dbus" => Some(TypeSaid::Unserved),
        "forking" => Some(TypeSaid::Unserved),
        "idle" => Some(TypeSaid::Unserved),
        _ => None,
    }
}

/// Reads the types of services.
#[derive(Clone, Copy)]
pub struct Type;

impl Reader for Type {
    type Said = TypeSaid;

    ghost kind = { kinds.ServiceType };

    ghost unit = { λ _. [] };

    ghost seen = { said_of };

    fn read(&self, value: &str) -> Result<Option<TypeSaid>, AllocError> {
        Ok(type_said(value))
    }
}

/// The last `Type=` of the unit that can be read.
pub fn type_of(alloc: Global, assigned: &[Assigned<'_>]) -> Result<TypeSaid, AllocError>
    ensures { IfOk result (λ said. said_of said ≡ model.type_of (map assigned_of assigned.now)) }
{
    last_read(
        alloc,
        &Type,
        assigned,
        &[("Service", "Type")],
        TypeSaid::Unsaid,
    )
}
