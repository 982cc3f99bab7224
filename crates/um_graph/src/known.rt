//! The known units of a tree: those that its entries name, and all that these lead to.

ghost use Rattle.std.specs.Prelude.{◌≡◌, ◌++◌, ◌+◌, ◌∷◌, [], ℕ, List, None, Some, Contains, IfErr, IfNone, IfOk, IfSome, OnOk};
ghost use Rattle.std.specs.BTreeMap.{IsOrdered, Updates, btree_map_len};
ghost use Rattle.std.specs.Cmp.Lexicographic.{slice_cmp};
ghost use Rattle.std.specs.List.{flat_map};
ghost use Rattle.std.specs.Ordering.{nat_cmp};
ghost use Rattle.um_model.specs.Dependencies.{KnowsSoMany, KnowsTooMany, loadable_of};
ghost use Rattle.um_model.specs.declared.refusals.Limit.TheVariants as limits;
ghost use Rattle.um_wire.specs.declared.refusal.Refusal.TheVariants as refusals;
ghost use Rattle.um_model.specs.Profiles.{read_by};
ghost use Rattle.um_model.specs.Units.{load};
ghost use Rattle.um_unit.specs.View.{loading_of, tree_read};
ghost use Rattle.um_unit.specs.declared.loaded.Loading.{Loading};
ghost use Rattle.um_graph.specs.Tells.{told_in, told_where};
ghost use Rattle.um_graph.specs.Followed.{AreFollowed};
ghost use Rattle.um_graph.specs.Known.{IsUnderWay, LeavesOut, ends_left, loading_at, unless_followed};

use crate::entries::Found;
use crate::resolved::Resolved;
use crate::told::{Told, loadable, told_by};
use indexmap::IndexSet;
use std::alloc::{AllocError, Global};
use std::collections::BTreeMap;
use um_model::Profile;
use um_name::UnitName;
use um_unit::{Loading, Reading, load};
use um_wire::{Limit, Refusal};

/// The greatest number of known units.
const UNIT_LIMIT: u32 = 1_024;

/// The search for known units, and the relations found so far.
#[derive(Drop)]
pub(crate) struct Known {
    /// The outcome of the look-up for each name that was followed.
    pub(crate) loaded: BTreeMap<UnitName, Loading>,
    /// The same names, for a look-up by their hash.
    followed: IndexSet<UnitName>,
    /// Names that may still have to be followed.
    pub(crate) left: Vec<UnitName>,
    pub(crate) told: Vec<Told>,
}

/// The relations from the unit's settings, if it can be loaded.
fn told_where_loaded(
    alloc: Global,
    resolved: &mut Resolved<'_>,
    loading: &Loading,
) -> Result<Vec<Told>, AllocError>
    ensures told { IfOk result (λ told. told.items ≡ told_where resolved.old (loadable_of (loading_of loading.now))) }
    ensures tree { resolved.new ≡ resolved.old }
{
    match loadable(loading) {
        Some(unit) => told_by(alloc, resolved, unit),
        None => Ok(Vec::new(alloc)),
    }
}

/// Loads the unit of the name, keeps the outcome of the look-up, and returns the relations from its settings.
fn load_into(
    alloc: Global,
    resolved: &mut Resolved<'_>,
    profile: Profile,
    loaded: &mut BTreeMap<UnitName, Loading>,
    name: UnitName,
) -> Result<Vec<Told>, AllocError>
    ensures told { IfOk result (λ told. told.items ≡ told_in (read_by profile resolved.old) name) }
    ensures loaded { OnOk result ((loading : Loading) × (loading_of loading ≡ load (read_by profile resolved.old) name)
        × Updates (slice_cmp nat_cmp) loaded.old loaded.new name (Some loading)) }
    ensures count { OnOk result (loading_at loaded.old name ≡ None → btree_map_len loaded.new ≡ btree_map_len loaded.old + 1) }
    ensures ordered { OnOk result (IsOrdered (slice_cmp nat_cmp) loaded.new) }
    ensures tree { resolved.new ≡ resolved.old }
{
    let reading = Reading {
        tree: resolved.tree(),
        profile,
    };
    let loading = load(alloc, reading, &name)?;
    let told = told_where_loaded(alloc, resolved, &loading)?;
    loaded.insert(name, loading)?;
    Ok(told)
}

impl Known {
    /// The name is to be followed, unless it was already.
    fn meet(&mut self, name: &UnitName) -> Result<(), AllocError>
        requires { AreFollowed self.old.loaded self.old.followed }
        ensures left { OnOk result (self.new.left.items ≡ self.old.left.items ++ unless_followed self.old.loaded name.now) }
        ensures loaded { OnOk result (self.new.loaded ≡ self.old.loaded) }
        ensures told { OnOk result (self.new.told ≡ self.old.told) }
        ensures followed { OnOk result (self.new.followed ≡ self.old.followed) }
    {
        if !self.followed.contains(name) {
            self.left.push(name.copy()?)?;
        }
        Ok(())
    }

    /// Both names of each are to be followed.
    fn meet_all(&mut self, told: &[Told]) -> Result<(), AllocError>
        requires { AreFollowed self.old.loaded self.old.followed }
        ensures left { OnOk result (self.new.left.items ≡ self.old.left.items ++ flat_map (ends_left self.old.loaded) told.now) }
        ensures loaded { OnOk result (self.new.loaded ≡ self.old.loaded) }
        ensures told { OnOk result (self.new.told ≡ self.old.told) }
        ensures followed { OnOk result (self.new.followed ≡ self.old.followed) }
    {
        for each in told {
            self.meet(&each.from)?;
            self.meet(&each.to)?;
        }
        Ok(())
    }

    /// Keeps the relations, and both names of each are to be followed.
    fn take(&mut self, told: Vec<Told>) -> Result<(), AllocError>
        requires { AreFollowed self.old.loaded self.old.followed }
        ensures left { OnOk result (self.new.left.items ≡ self.old.left.items ++ flat_map (ends_left self.old.loaded) told.items) }
        ensures loaded { OnOk result (self.new.loaded ≡ self.old.loaded) }
        ensures told { OnOk result (self.new.told.items ≡ self.old.told.items ++ told.items) }
        ensures followed { OnOk result (self.new.followed ≡ self.old.followed) }
    {
        let mut told = told;
        self.meet_all(told.as_slice())?;
        self.told.append(&mut told)?;
        Ok(())
    }

    /// The search with nothing followed yet.
    fn begin(alloc: Global, reading: Reading<'_>, extra: &[UnitName]) -> Result<Known, AllocError>
        ensures whole { IfOk result (λ k. IsUnderWay (tree_read reading.entry) extra.now k.loaded k.left.items k.told.items) }
        ensures count { IfOk result (λ k. btree_map_len k.loaded ≡ 0) }
        ensures ordered { IfOk result (λ k. IsOrdered (slice_cmp nat_cmp) k.loaded) }
        ensures followed { IfOk result (λ k. AreFollowed k.loaded k.followed) }
    {
        let mut found = Found::of_names(alloc, extra)?;
        found.add_tree(alloc, reading.tree)?;
        let Found { names, told } = found;
        let mut known = Known {
            loaded: BTreeMap::new(alloc),
            followed: IndexSet::new(alloc),
            left: names,
            told: Vec::new(alloc),
        };
        known.take(told)?;
        Ok(known)
    }

    /// A name that is to be followed; None if none is left.
    fn next(&mut self) -> Option<UnitName>
        requires { AreFollowed self.old.loaded self.old.followed }
        ensures found { IfSome result (λ name. LeavesOut self.old.loaded self.old.left.items (self.new.left.items ++ name ∷ [])) }
        ensures new { IfSome result (λ name. loading_at self.old.loaded name ≡ None) }
        ensures none { IfNone result (LeavesOut self.old.loaded self.old.left.items []) }
        ensures loaded { self.new.loaded ≡ self.old.loaded }
        ensures told { self.new.told ≡ self.old.told }
        ensures followed { self.new.followed ≡ self.old.followed }
    {
        while let Some(name) = self.left.pop() {
            if !self.followed.contains(&name) {
                return Some(name);
            }
        }
        None
    }

    /// Follows a name: its unit is loaded, once. Returns the number of names followed by then.
    fn follow(
        &mut self,
        alloc: Global,
        resolved: &mut Resolved<'_>,
        profile: Profile,
        name: UnitName,
    ) -> Result<usize, AllocError>
        requires { AreFollowed self.old.loaded self.old.followed }
        ensures whole { OnOk result ((extra : List (List ℕ)) → IsUnderWay (read_by profile resolved.old) extra self.old.loaded (self.old.left.items ++ name ∷ []) self.old.told.items
            → IsUnderWay (read_by profile resolved.old) extra self.new.loaded self.new.left.items self.new.told.items) }
        ensures count { OnOk result (loading_at self.old.loaded name ≡ None
            → btree_map_len self.new.loaded ≡ btree_map_len self.old.loaded + 1) }
        ensures ordered { OnOk result (IsOrdered (slice_cmp nat_cmp) self.new.loaded) }
        ensures followed { OnOk result (AreFollowed self.new.loaded self.new.followed) }
        ensures told { IfOk result (λ followed. followed ≡ btree_map_len self.new.loaded) }
        ensures tree { resolved.new ≡ resolved.old }
    {
        self.followed.insert(name.copy()?)?;
        let told = load_into(alloc, resolved, profile, &mut self.loaded, name)?;
        self.take(told)?;
        Ok(self.loaded.len())
    }

    /// All known units and their relations. Refused with more than 1,024 units (E13 `units`).
    pub(crate) fn of(
        alloc: Global,
        reading: Reading<'_>,
        extra: &[UnitName],
    ) -> Result<Known, Refusal>
        ensures whole { IfOk result (λ k. IsUnderWay (tree_read reading.entry) extra.now k.loaded [] k.told.items) }
        ensures count { IfOk result (λ k. KnowsSoMany (tree_read reading.entry) (Contains extra.now) (btree_map_len k.loaded)) }
        ensures few { IfOk result (λ _. ¬ KnowsTooMany (tree_read reading.entry) (Contains extra.now)) }
        ensures refused { IfErr result (λ e. ¬ (e ≡ refusals.NoMemory)
            → (e ≡ refusals.TooLarge limits.Units) × KnowsTooMany (tree_read reading.entry) (Contains extra.now)) }
    {
        let mut known = Known::begin(alloc, reading, extra)?;
        let mut resolved = Resolved::new(alloc, reading.tree);
        for _ in 0..UNIT_LIMIT + 1 {
            let Some(name) = known.next() else {
                return Ok(known);
            };
            known.follow(alloc, &mut resolved, reading.profile, name)?;
        }
        Err(Refusal::TooLarge {
            limit: Limit::Units,
        })
    }

    /// All known units, however many, and their relations.
    pub(crate) fn all(
        alloc: Global,
        reading: Reading<'_>,
        extra: &[UnitName],
    ) -> Result<Known, AllocError>
        ensures whole { IfOk result (λ k. IsUnderWay (tree_read reading.entry) extra.now k.loaded [] k.told.items) }
        ensures count { IfOk result (λ k. KnowsSoMany (tree_read reading.entry) (Contains extra.now) (btree_map_len k.loaded)) }
    {
        let mut known = Known::begin(alloc, reading, extra)?;
        let mut resolved = Resolved::new(alloc, reading.tree);
        while let Some(name) = known.next() {
            known.follow(alloc, &mut resolved, reading.profile, name)?;
        }
        Ok(known)
    }
}
