//! The name of a unit.
ghost use Rattle.std.specs.Prelude.{◌≡◌, ℕ, List, true, false, IfOk, IfErr, MatchOption, string_bytes, option_copied};
ghost use Rattle.std.specs.List.{list_all};
ghost use Rattle.std.specs.Rc.{rc_str_bytes};
ghost use Rattle.um_model.specs.Names as names;
ghost use Rattle.um_model.specs.Refusals.{bad_name};
ghost use Rattle.um_name.specs.UnitName.{IsSound};
ghost use Rattle.um_wire.specs.Refusal.{refused_of};
ghost use Rattle.um_wire.specs.declared.refusal.Refusal.TheVariants.{NoMemory};

use crate::suffixes::suffix_of;
use std::alloc::{AllocError, Global};
use std::marker::Model;
use std::rc::RcStr;
use um_model::Suffix;
use um_wire::{Refusal, bad_name};

/// The greatest length of a unit name, in bytes.
const LIMIT: usize = 255;

/// The name of a unit, as `app@blue.service`: a prefix, optionally `@` and an instance, and a suffix, at most 255 bytes in
/// all (systemd.unit(5), "Description"). Copies share their text.
#[derive(Drop)]
pub struct UnitName {
    alloc: Global,
    text: RcStr,
    suffix: Suffix,
}

impl Model for UnitName {
    ghost Value = { List ℕ };

    ghost view = { λ n. rc_str_bytes n.text };

    ghost invariant = { λ n. IsSound (rc_str_bytes n.text) n.suffix };
}

fn is_instance_byte(b: u8) -> bool
    ensures { result ≡ names.is_instance_byte b }
{
    b.is_ascii_alphanumeric() || matches!(b, b':' | b'-' | b'_' | b'.' | b'\\' | b'@')
}

/// Whether each byte of the text may stand in an instance: ASCII letters, digits and `: - _ . \ @`.
pub fn are_instance_bytes(text: &[u8]) -> bool
    ensures { result ≡ list_all names.is_instance_byte text.now }
{
    text.iter().all(|b| is_instance_byte(*b))
}

fn is_stem(text: &[u8]) -> bool
    ensures { result ≡ names.is_stem text.now }
{
    if text.is_empty() || text[0] == b'@' {
        return false;
    }
    are_instance_bytes(text)
}

/// The suffix of the text, if it is a unit name.
#[tactic(auto, unfolding(um_model::specs::Names::is_unit_name))]
fn named_suffix(text: &str) -> Option<Suffix>
    ensures { MatchOption result (names.is_unit_name text.now ≡ false) (IsSound text.now) }
{
    if text.len() > LIMIT {
        return None;
    }
    let suffix = suffix_of(text)?;
    let stem = &text.as_bytes()[..text.len() - suffix.text().len()];
    if is_stem(stem) { Some(suffix) } else { None }
}

/// Whether the text is a unit name.
pub fn is_unit_name(text: &str) -> bool
    ensures { result ≡ names.is_unit_name text.now }
{
    named_suffix(text).is_some()
}

impl UnitName {
    /// The unit name with this text. A text that is no unit name is refused by `BadName` (E3), with the text as it was sent.
    pub fn parse(alloc: Global, text: &str) -> Result<UnitName, Refusal>
        ensures ok { IfOk result (λ name. (name ≡ text.now) × (names.is_unit_name text.now ≡ true)) }
        ensures err { IfErr result (λ e. ¬ (e ≡ NoMemory)
            → (refused_of e ≡ bad_name text.now) × (names.is_unit_name text.now ≡ false)) }
    {
        match UnitName::named(alloc, text)? {
            Some(name) => Ok(name),
            None => Err(bad_name(alloc, text)?),
        }
    }

    /// The unit name with this text; `None` if it is no unit name.
    pub fn named(alloc: Global, text: &str) -> Result<Option<UnitName>, AllocError>
        ensures { IfOk result (λ name. name ≡ names.named text.now) }
    {
        match named_suffix(text) {
            Some(suffix) => Ok(Some(UnitName {
                alloc,
                text: RcStr::from_str(alloc, text)?,
                suffix,
            })),
            None => Ok(None),
        }
    }

    /// The whole name, with its suffix.
    pub fn as_str(&self) -> &str
        ensures value { result.now ≡ self.now }
        ensures name { names.is_unit_name self.now ≡ true }
    {
        self.text.as_str()
    }

    /// The text before the first `@`, or before the suffix if there is no `@`.
    pub fn prefix(&self) -> &str
        ensures { result.now ≡ names.prefix_of self.now }
    {
        let stem = self.stem();
        match stem.split_once('@') {
            Some((prefix, _)) => prefix,
            None => stem,
        }
    }

    /// The text between the first `@` and the suffix, which may be empty; `None` if there is no `@`.
    pub fn instance(&self) -> Option<&str>
        ensures { option_copied result ≡ names.instance_of self.now }
    {
        let (_, instance) = self.stem().split_once('@')?;
        Some(instance)
    }

    /// The type of the unit.
    pub fn suffix(&self) -> Suffix
        ensures { names.suffix_of self.now ≡ Some result }
    {
        self.suffix
    }

    /// Whether the name has an `@` and an empty instance.
    pub fn is_template(&self) -> bool
        ensures { result ≡ names.is_template self.now }
    {
        self.instance().is_some_and(|instance| instance.is_empty())
    }

    /// The template of a name with an `@`: the name with an empty instance. `None` for a name without one.
    pub fn template(&self) -> Result<Option<UnitName>, AllocError>
        ensures { IfOk result (λ template. template ≡ names.template_of self.now) }
    {
        // The proof reads here that this is a unit name.
        let _ = &self.text;
        if self.instance().is_none() {
            return Ok(None);
        }
        self.with_instance("")
    }

    /// The name with this instance, in place of its own if it has one. `None` if that is no unit name: it would have
    /// more than 255 bytes, or the instance has a byte that names don't have.
    pub fn with_instance(&self, instance: &str) -> Result<Option<UnitName>, AllocError>
        ensures { IfOk result (λ name. name ≡ names.named (names.with_instance self.now instance.now)) }
    {
        let mut text = String::from_str(self.alloc, self.prefix())?;
        text.push('@')?;
        text.push_str(instance)?;
        text.push_str(self.suffix.text())?;
        match named_suffix(text.as_str()) {
            Some(suffix) => Ok(Some(UnitName {
                alloc: self.alloc,
                text: RcStr::from_string(text)?,
                suffix,
            })),
            None => Ok(None),
        }
    }

    /// The same name; the copy shares its text.
    pub fn copy(&self) -> Result<UnitName, AllocError>
        ensures { IfOk result (λ name. name ≡ self.now) }
    {
        Ok(UnitName {
            alloc: self.alloc,
            text: self.text.clone()?,
            suffix: self.suffix,
        })
    }

    /// The whole name as a text of its own.
    pub fn text(&self) -> Result<String, AllocError>
        ensures { IfOk result (λ text. string_bytes text ≡ self.now) }
    {
        String::from_str(self.alloc, self.as_str())
    }

    /// The text before the suffix.
    pub fn stem(&self) -> &str
        ensures { result.now ≡ names.stem_of self.now }
    {
        let text = self.as_str();
        &text[..text.len() - self.suffix.text().len()]
    }
}
