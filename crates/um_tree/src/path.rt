//! The served paths of a tree, and their parts.
ghost use Rattle.std.specs.Prelude.{◌≡◌, true, option_map};
ghost use Rattle.std.specs.List.{list_all};
ghost use Rattle.um_model.specs.Names as names;
ghost use Rattle.um_model.specs.Tree as model;
ghost use Rattle.um_tree.specs.Place.{place_of};
ghost use Rattle.um_tree.specs.View.{layer_and_text, text_and_place};

use crate::text::{around_slash, before, behind, unit_in_target};
use std::marker::Model;
use um_model::Layer;
use um_name::{is_template, is_unit_name};

/// The kind of entry that a path names, for its unit.
#[derive(Clone, Copy, Debug, PartialEq, Eq)]
pub enum Place<'a> {
    /// The unit's own file or link.
    Unit,
    /// A drop-in `NAME.d/X.conf` of the unit, with X.
    DropIn(&'a str),
    /// An entry `NAME.wants/NAME2`, with NAME2: a link there makes the unit want that one.
    Wants(&'a str),
    /// An entry `NAME.requires/NAME2`, with NAME2: a link there makes the unit require that one.
    Requires(&'a str),
}

/// A served path by its parts (systemd.unit(5), "Unit File Load Path"): `LAYER/NAME`, `LAYER/NAME.d/X.conf`,
/// `LAYER/NAME.wants/NAME2` or `LAYER/NAME.requires/NAME2`.
#[derive(Drop)]
pub struct ServedPath<'a> {
    layer: Layer,
    unit: &'a str,
    place: Place<'a>,
}

impl<'a> Model for ServedPath<'a> {
    ghost use Rattle.std.specs.Prelude.{◌≡◌, true};
    ghost use Rattle.um_model.specs.Tree as model;
    ghost use Rattle.um_tree.specs.Place.{place_of};

    ghost Value = { model.PathParts };

    ghost view = { λ p. record { layer = p.layer; unit = p.unit.now; place = place_of p.place } };

    ghost invariant = { λ p. model.is_fit_place p.unit.now (place_of p.place) ≡ true };
}

fn is_plain_name(text: &str) -> bool
    ensures { result ≡ model.is_plain_name text.now }
{
    is_unit_name(text) && !is_template(text)
}

fn is_drop_in_byte(b: u8) -> bool
    ensures { result ≡ model.is_drop_in_byte b }
{
    b.is_ascii_alphanumeric() || b == b':' || b == b'-' || b == b'_' || b == b'.'
}

fn are_drop_in_bytes(text: &[u8]) -> bool
    ensures { result ≡ list_all model.is_drop_in_byte text.now }
{
    text.iter().all(|b| is_drop_in_byte(*b))
}

/// The greatest length of a link's target, in bytes; the least is 1.
const TARGET_LIMIT: usize = 512;

/// The greatest length of a drop-in's name before its `.conf`, in bytes; the least is 1.
const DROP_IN_LIMIT: usize = 200;

fn is_drop_in_name(text: &str) -> bool
    ensures { result ≡ model.is_drop_in_name text.now }
{
    !text.is_empty() && text.len() <= DROP_IN_LIMIT && are_drop_in_bytes(text.as_bytes())
}

fn is_fit_place(unit: &str, place: Place<'_>) -> bool
    ensures { result ≡ model.is_fit_place unit.now (place_of place.entry) }
{
    match place {
        Place::Unit => is_unit_name(unit),
        Place::DropIn(name) => is_unit_name(unit) && is_drop_in_name(name),
        Place::Wants(other) => is_plain_name(unit) && is_plain_name(other),
        Place::Requires(other) => is_plain_name(unit) && is_plain_name(other),
    }
}

fn layer_and_rest(path: &str) -> Option<(Layer, &str)>
    ensures { option_map layer_and_text result ≡ model.layer_and_rest path.now }
{
    if let Some(rest) = behind(Layer::Etc.text(), path) {
        return Some((Layer::Etc, rest));
    }
    if let Some(rest) = behind(Layer::Run.text(), path) {
        return Some((Layer::Run, rest));
    }
    match behind(Layer::Lib.text(), path) {
        Some(rest) => Some((Layer::Lib, rest)),
        None => None,
    }
}

fn place_in<'a>(directory: &'a str, file: &'a str) -> Option<(&'a str, Place<'a>)>
    ensures { option_map text_and_place result ≡ model.place_in directory.now file.now }
{
    if let Some(unit) = before(".d", directory) {
        return match before(".conf", file) {
            Some(name) => Some((unit, Place::DropIn(name))),
            None => None,
        };
    }
    if let Some(unit) = before(".wants", directory) {
        return Some((unit, Place::Wants(file)));
    }
    match before(".requires", directory) {
        Some(unit) => Some((unit, Place::Requires(file))),
        None => None,
    }
}

fn unit_and_place(rest: &str) -> Option<(&str, Place<'_>)>
    ensures { option_map text_and_place result ≡ model.unit_and_place rest.now }
{
    match around_slash(rest) {
        Some((directory, file)) => place_in(directory, file),
        None => Some((rest, Place::Unit)),
    }
}

impl<'a> ServedPath<'a> {
    /// The parts of the path, if it is served.
    #[tactic(auto, unfolding(um_model::specs::Tree::path_parts))]
    pub fn parse(path: &'a str) -> Option<ServedPath<'a>>
        ensures { result ≡ model.path_parts path.now }
    {
        let (layer, rest) = layer_and_rest(path)?;
        let (unit, place) = unit_and_place(rest)?;
        if is_fit_place(unit, place) {
            Some(ServedPath { layer, unit, place })
        } else {
            None
        }
    }

    /// The layer in which the path lies.
    pub fn layer(&self) -> Layer
        ensures { result ≡ self.now.layer }
    {
        self.layer
    }

    /// The name of the unit.
    pub fn unit(&self) -> &'a str
        ensures unit { result.now ≡ self.now.unit }
        ensures name { names.is_unit_name self.now.unit ≡ true }
    {
        self.unit
    }

    /// The kind of entry that the path names, for its unit.
    pub fn place(&self) -> Place<'a>
        ensures place { place_of result ≡ self.now.place }
        ensures fit { model.is_fit_place self.now.unit self.now.place ≡ true }
    {
        self.place
    }
}

fn is_other_name(unit: &str, text: &str) -> bool
    ensures { result ≡ model.is_other_name unit.now text.now }
{
    is_unit_name(text) && text != unit
}

/// A unit is masked by a link to `/dev/null`, or is another name of the unit that its link's last part names.
fn may_lead_to(path: &ServedPath<'_>, target: &str) -> bool
    ensures { result ≡ model.may_lead_to path.now.unit path.now.place target.now }
{
    match path.place {
        Place::Unit => target == "/dev/null" || is_other_name(path.unit, unit_in_target(target)),
        Place::DropIn(_) => false,
        Place::Wants(_) => true,
        Place::Requires(_) => true,
    }
}

/// Whether a link to the target is allowed at a path of these parts.
pub(crate) fn is_fit_target(path: Option<ServedPath<'_>>, target: &str) -> bool
    ensures { result ≡ model.is_fit_target path.entry target.now }
{
    match path {
        Some(path) => !target.is_empty()
            && target.len() <= TARGET_LIMIT
            && may_lead_to(&path, target),
        None => false,
    }
}
