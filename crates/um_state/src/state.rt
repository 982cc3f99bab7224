//! The manager's state: its trees, its units and pending jobs, the boot's id, the clock and the next process number.

ghost use Rattle.std.specs.Prelude.{◌≡◌, ◌↔◌, ℕ, List, true, is_some, Contains, string_bytes, IsTrue, IfOk, IfSome, OnOk, OnErr, IfErr, Ok, Err};
ghost use Rattle.std.specs.Coded.{codes};
ghost use Rattle.std.specs.FinMap as maps;
ghost use Rattle.um_model.specs.Machine.{IsHeld, as_loaded, booted, empty_state};
ghost use Rattle.um_model.specs.Profiles.{read_by};
ghost use Rattle.um_model.specs.Service.{with_unit};
ghost use Rattle.um_model.specs.Standing.{Standing};
ghost use Rattle.um_model.specs.Jobs.{with_jobs};
ghost use Rattle.um_model.specs.Tree.{put_file, put_link, remove_at};
ghost use Rattle.um_name.specs.Names.{IsApart};
ghost use Rattle.um_state.specs.Rows.{HasSameNumbers, common_names, put_row, timed};
ghost use Rattle.um_state.specs.Working.{AreRowsOf, next_set};
ghost use Rattle.um_tree.specs.Code.{tree_code};
ghost use Rattle.um_unit.specs.View.{tree_read};
ghost use Rattle.um_wire.specs.Refusal.{refused_of};
ghost use Rattle.um_wire.specs.declared.refusal.Refusal.TheVariants.{NoMemory};

use crate::boot::BootId;
use crate::row::{Numbered, Row};
use crate::shared_tree::SharedTree;
use crate::units::{Pending, Units};
use std::alloc::{AllocError, Global};
use std::marker::Model;
use um_model::{Moment, NextNumber, Profile, UnitJobs, UnitState};
use um_name::{Names, UnitName};
use um_tree::Tree;
use um_unit::Reading;
use um_wire::Refusal;

/// The state of the manager.
pub struct State {
    pub(crate) tree: SharedTree,
    pub(crate) loaded: SharedTree,
    /// The profile by which the loaded tree is read.
    pub(crate) profile: Profile,
    pub(crate) boot: BootId,
    pub(crate) clock: Moment,
    pub(crate) next: NextNumber,
    pub(crate) units: Units,
    pub(crate) pending: Pending,
    /// Whether units and pending jobs stand under the same names, and so share their numbers.
    pub(crate) is_common: bool,
}

impl Model for State {
    ghost Value = { Standing };

    ghost coded = { Prim.hlevel (codes, maps.code, tree_code) };

    ghost view = { λ s. record {
      state = record {
        tree = s.tree;
        loaded = read_by s.profile s.loaded;
        boot = s.boot;
        clock = s.clock;
        next = s.next;
        units = s.units.held;
        pending = s.pending.held;
      };
      common = s.is_common;
      names = common_names s.is_common s.units.names;
    } };

    ghost invariant = { λ s. s.is_common ≡ true → s.pending.names ≡ s.units.names };
}

// The prover would take a derived `Drop` apart wherever a state is dropped, down to its last list; this is one call.
impl Drop for State {
    fn drop(self) {
        let State {
            tree: _tree,
            loaded: _loaded,
            profile: _,
            boot: _boot,
            clock: _,
            next: _,
            units: _units,
            pending: _pending,
            is_common: _,
        } = self;
    }
}

impl State {
    ghost use Rattle.um_state.specs.View.{state_of};

    /// The state of a new store. It takes no memory.
    pub fn empty(alloc: Global) -> State
        ensures { state_of result ≡ empty_state }
    {
        State {
            tree: SharedTree::empty(alloc),
            loaded: SharedTree::empty(alloc),
            profile: Profile::current(),
            boot: BootId::none(alloc),
            clock: Moment::FIRST,
            next: NextNumber::FIRST,
            units: Units::new(alloc),
            pending: Pending::new(alloc),
            is_common: false,
        }
    }

    pub(crate) fn alloc(&self) -> Global {
        self.units.alloc
    }

    /// The tree in hand, which the next reload loads.
    pub fn tree(&self) -> &Tree
        ensures { result.now ≡ (state_of self.now).tree }
    {
        self.tree.tree()
    }

    /// The tree as it was last loaded, with the profile by which it is read.
    pub fn loaded(&self) -> Reading<'_>
        ensures { tree_read result ≡ (state_of self.now).loaded }
    {
        Reading {
            tree: self.loaded.tree(),
            profile: self.profile,
        }
    }

    /// The id of the boot that the state knows.
    pub fn boot(&self) -> &BootId
        ensures { result.now ≡ (state_of self.now).boot }
    {
        &self.boot
    }

    /// The moment of the last step.
    pub fn clock(&self) -> Moment
        ensures { result ≡ (state_of self.now).clock }
    {
        self.clock
    }

    /// The number of the next process that starts.
    pub fn next(&self) -> NextNumber
        ensures { result ≡ (state_of self.now).next }
    {
        self.next
    }

    /// How the units stand.
    pub fn units(&self) -> &Units
        ensures { result.now.held ≡ (state_of self.now).units }
    {
        &self.units
    }

    /// The pending jobs.
    pub fn pending(&self) -> &Pending
        ensures { result.now.held ≡ (state_of self.now).pending }
    {
        &self.pending
    }

    /// Whether the state holds anything of the unit: how it stands, or a pending job. It takes no memory.
    pub fn holds(&self, unit: &UnitName) -> bool
        ensures { IsTrue result ↔ IsHeld (state_of self.now) unit.now }
    {
        self.units.holds(unit) || self.pending.holds(unit)
    }

    /// The units of which the state holds anything; one may occur twice.
    pub fn held(&self, alloc: Global) -> Result<Vec<UnitName>, AllocError>
        ensures { IfOk result (λ names. (unit : List ℕ) → Contains names.items unit ↔ IsHeld (state_of self.now) unit) }
    {
        let mut names = Vec::new(alloc);
        self.units.push_names(&mut names)?;
        self.pending.push_names(&mut names)?;
        Ok(names)
    }

    /// Puts a file into the tree in hand, with the refusals of `Tree::put`; after one, all is as before.
    pub fn put_file(&mut self, path: &str, text: &str) -> Result<(), Refusal>
        ensures ok { OnOk result (put_file (state_of self.old).tree path.now text.now ≡ Ok (state_of self.new).tree) }
        ensures rest { OnOk result (state_of self.new ≡ record (state_of self.old) { tree = (state_of self.new).tree }) }
        ensures err { OnErr result (state_of self.new ≡ state_of self.old) }
        ensures refused { IfErr result (λ e. ¬ (e ≡ NoMemory) → put_file (state_of self.old).tree path.now text.now ≡ Err (refused_of e)) }
        ensures numbers { HasSameNumbers self.old self.new }
    {
        self.tree.put(path, text)
    }

    /// Puts a link into the tree in hand, with the refusals of `Tree::link`; after one, all is as before.
    pub fn put_link(&mut self, path: &str, target: &str) -> Result<(), Refusal>
        ensures ok { OnOk result (put_link (state_of self.old).tree path.now target.now ≡ Ok (state_of self.new).tree) }
        ensures rest { OnOk result (state_of self.new ≡ record (state_of self.old) { tree = (state_of self.new).tree }) }
        ensures err { OnErr result (state_of self.new ≡ state_of self.old) }
        ensures refused { IfErr result (λ e. ¬ (e ≡ NoMemory) → put_link (state_of self.old).tree path.now target.now ≡ Err (refused_of e)) }
        ensures numbers { HasSameNumbers self.old self.new }
    {
        self.tree.link(path, target)
    }

    /// Removes the entry at the path in the tree in hand, with the refusals of `Tree::remove`; after one, all is as before.
    pub fn remove(&mut self, path: &str) -> Result<(), Refusal>
        ensures ok { OnOk result (remove_at (state_of self.old).tree path.now ≡ Ok (state_of self.new).tree) }
        ensures rest { OnOk result (state_of self.new ≡ record (state_of self.old) { tree = (state_of self.new).tree }) }
        ensures err { OnErr result (state_of self.new ≡ state_of self.old) }
        ensures refused { IfErr result (λ e. ¬ (e ≡ NoMemory) → remove_at (state_of self.old).tree path.now ≡ Err (refused_of e)) }
        ensures numbers { HasSameNumbers self.old self.new }
    {
        self.tree.remove(path)
    }

    /// Loads the tree in hand for an input of this profile. It is read by this profile from now on, or by the loaded one if that is later.
    /// If memory is refused, all is as before.
    pub fn reload(&mut self, profile: Profile) -> Result<(), AllocError>
        ensures ok { OnOk result (state_of self.new ≡ record (state_of self.old) { loaded = as_loaded profile (state_of self.old) (state_of self.old).tree }) }
        ensures err { OnErr result (state_of self.new ≡ state_of self.old) }
        ensures numbers { HasSameNumbers self.old self.new }
    {
        self.loaded = self.tree.copy()?;
        self.profile = self.profile.later(profile);
        Ok(())
    }

    /// Takes this tree as the tree in hand and loads it for an input of this profile. If memory is refused, all is as before.
    pub fn load_tree(&mut self, tree: Tree, profile: Profile) -> Result<(), AllocError>
        ensures ok { OnOk result (state_of self.new ≡ record (state_of self.old) { tree = tree; loaded = as_loaded profile (state_of self.old) tree }) }
        ensures err { OnErr result (state_of self.new ≡ state_of self.old) }
        ensures numbers { HasSameNumbers self.old self.new }
    {
        let tree = SharedTree::of(self.alloc(), tree)?;
        self.loaded = tree.copy()?;
        self.tree = tree;
        self.profile = self.profile.later(profile);
        Ok(())
    }

    /// Sets how a unit stands. The numbers stay if the unit has one. If memory is refused, all is as before.
    pub fn set_unit(&mut self, unit: &UnitName, state: UnitState) -> Result<(), AllocError>
        ensures ok { OnOk result (state_of self.new ≡ record (state_of self.old) { units = with_unit (state_of self.old).units unit.now state }) }
        ensures numbers { OnOk result (Contains self.old.names unit.now → HasSameNumbers self.old self.new) }
        ensures err { OnErr result (self.new ≡ self.old) }
    {
        match self.units.numbers().number(unit) {
            Some(i) => {
                let mut state = state;
                self.units.swap(i, &mut state);
            }
            None => {
                self.units.set(unit, state)?;
                self.is_common = false;
            }
        }
        Ok(())
    }

    /// Sets the pending jobs of a unit. The numbers stay if the unit has one. If memory is refused, all is as before.
    pub fn set_jobs(&mut self, unit: &UnitName, jobs: UnitJobs) -> Result<(), AllocError>
        ensures ok { OnOk result (state_of self.new ≡ record (state_of self.old) { pending = with_jobs (state_of self.old).pending unit.now jobs }) }
        ensures numbers { OnOk result (Contains self.old.names unit.now → HasSameNumbers self.old self.new) }
        ensures err { OnErr result (self.new ≡ self.old) }
    {
        match self.pending.numbers().number(unit) {
            Some(i) => {
                let mut jobs = jobs;
                self.pending.swap(i, &mut jobs);
            }
            None => {
                self.pending.set(unit, jobs)?;
                self.is_common = false;
            }
        }
        Ok(())
    }

    /// Sets the next process number.
    pub fn set_next(&mut self, next: NextNumber)
        ensures { self.new ≡ next_set self.old next }
    {
        self.next = next;
    }

    /// Sets the moment of the last step.
    pub fn set_clock(&mut self, clock: Moment)
        ensures { self.new ≡ record self.old { state = record (state_of self.old) { clock = clock } } }
    {
        self.clock = clock;
    }

    /// Sets the moment of the last step and the next process number.
    pub fn set_times(&mut self, clock: Moment, next: NextNumber)
        ensures { self.new ≡ timed clock next self.old }
    {
        self.set_clock(clock);
        self.set_next(next);
    }

    /// Another boot begins: nothing is held of any unit, and the entries under `run/` are gone from both trees. The loaded profile stays.
    /// It takes no memory.
    pub fn begin_boot(&mut self, alloc: Global, boot: BootId)
        ensures { state_of self.new ≡ booted boot (state_of self.old) }
    {
        self.tree.clear_run();
        self.loaded.clear_run();
        self.boot = boot;
        self.units = Units::new(alloc);
        self.pending = Pending::new(alloc);
        self.is_common = false;
    }

    /// A copy of the state. The two share their trees, except a tree with an entry under `run/`.
    pub fn copy(&self) -> Result<State, AllocError>
        ensures { IfOk result (λ s. state_of s ≡ state_of self.now) }
    {
        Ok(State {
            boot: self.boot.copy()?,
            tree: self.tree.copy()?,
            loaded: self.loaded.copy()?,
            profile: self.profile,
            clock: self.clock,
            next: self.next,
            pending: self.pending.copy()?,
            units: self.units.copy()?,
            is_common: self.is_common,
        })
    }

    /// Numbers units and pending jobs by these names, which include each unit of which anything is held. If memory is refused, all is as
    /// before.
    pub fn number(&mut self, names: &Names) -> Result<(), AllocError>
        ensures common { OnOk result (self.new.common ≡ true) }
        ensures names { OnOk result (self.new.names ≡ names.now) }
        ensures state { OnOk result (((x : List ℕ) → IsApart names.now x → ¬ IsHeld (state_of self.old) x) → state_of self.new ≡ state_of self.old) }
        ensures err { OnErr result (self.new ≡ self.old) }
    {
        let pending = self.pending.renumbered(names)?;
        self.units = self.units.renumbered(names)?;
        self.pending = pending;
        self.is_common = true;
        Ok(())
    }

    /// The rows of units and pending jobs, with their names. None exactly if units and jobs don't share their numbers.
    pub fn numbered(&self) -> Option<Numbered<'_>>
        ensures common { is_some result ≡ self.now.common }
        ensures rows { IfSome result (AreRowsOf self.now) }
    {
        if !self.is_common {
            return None;
        }
        Some(Numbered {
            names: self.units.numbers(),
            units: self.units.rows(),
            jobs: self.pending.rows(),
        })
    }

    /// Exchanges the row for the one that the state has under its number. Past the last one, and if units and jobs don't share their
    /// numbers, nothing changes. It takes no memory.
    pub fn swap_row(&mut self, row: &mut Row)
        ensures state { self.new ≡ put_row row.old self.old }
        ensures back { put_row row.new self.new ≡ self.old }
    {
        if self.is_common {
            self.units.swap(row.number, &mut row.unit);
            self.pending.swap(row.number, &mut row.jobs);
        }
    }

    /// Puts the row under its number, as `swap_row` does. It takes no memory.
    pub fn put_row(&mut self, row: Row)
        ensures { self.new ≡ put_row row self.old }
    {
        let mut row = row;
        self.swap_row(&mut row);
    }
}
