//! What the engine knows of the units of a tree.

ghost use Rattle.std.specs.Prelude.{◌≡◌, ◌⊎◌, ◌↔◌, ◌<◌, ℕ, false, true, All, List, Contains, IfOk, IfErr, IsTrue, OnOk, Option, Some, length, option_copied, option_map, unwrap_or};
ghost use Rattle.um_engine.specs.Exact.{LetsNoneGo, holds_none};
ghost use Rattle.um_engine.specs.Known.{AreLasting, AreMarked, ArePassing, IsFull, IsGraphFor, IsHeldWith, KnowsFor, KnownView};
ghost use Rattle.um_model.specs.Dependencies.{IsKnown};
ghost use Rattle.um_model.specs.Profiles.{lasting_tree};
ghost use Rattle.um_unit.specs.View.{tree_read};
ghost use Rattle.um_graph.specs.Graph.{IsGraphOf, IsNumberOf};
ghost use Rattle.um_model.specs.Machine.{IsHeld};
ghost use Rattle.um_state.specs.View.{state_of};
ghost use Rattle.um_wire.specs.declared.refusal.Refusal.TheVariants as refusals;
ghost use Rattle.um_model.specs.declared.refusals.Limit.TheVariants as limits;

use std::alloc::{AllocError, Global};
use std::marker::Model;
use std::rc::Rc;
use um_falling::Work;
use um_graph::{Graph, known_units};
use um_name::{Names, UnitName};
use um_state::{Row, State};
use um_unit::Reading;
use um_wire::Refusal;

/// The graph of a tree, the units beside those of the tree for which it was made, and the units that are known without the tree's entries
/// under `run/`.
pub struct Known {
    graph: Graph,
    /// Those of its units, each with the number that it has there.
    names: Names,
    extra: Vec<UnitName>,
    /// By number: whether the unit is one of those.
    is_extra: Vec<bool>,
    /// In the order of their names; None if no entry stands under `run/`, since they are those of the graph then.
    lasting: Option<Vec<UnitName>>,
    /// The numbers of the graph's units that aren't among `lasting`: those that only entries under `run/` name, and few as a rule.
    passing: Vec<usize>,
}

impl Model for Known {
    ghost Value = { KnownView };

    ghost view = { λ k. record { graph = k.graph; extra = k.extra.items; lasting = unwrap_or (option_map (λ names. names.items) k.lasting) k.graph.names } };

    ghost invariant = { λ k. (k.names ≡ k.graph.names)
        × ArePassing k.graph.names (unwrap_or (option_map (λ names. names.items) k.lasting) k.graph.names) k.passing.items
        × AreMarked k.graph.names k.extra.items k.is_extra.items };
}

// One call for the prover, which takes a derived `Drop` apart at each exit.
impl Drop for Known {
    fn drop(self) {
        let Known {
            graph: _graph,
            names: _names,
            extra: _extra,
            is_extra: _is_extra,
            lasting: _lasting,
            passing: _passing,
        } = self;
    }
}

/// The units that the state holds, and the one that is named.
fn held_with(
    alloc: Global,
    state: &State,
    named: Option<&UnitName>,
) -> Result<Vec<UnitName>, AllocError>
    ensures { IfOk result (λ names. (unit : List ℕ) → Contains names.items unit ↔ IsHeldWith (state_of state.now) (option_copied named.entry) unit) }
{
    let mut names = state.held(alloc)?;
    match named {
        Some(named) => {
            names.push(named.copy()?)?;
            Ok(names)
        }
        None => Ok(names),
    }
}

/// Whether the state holds the unit, or it is the one that is named.
fn holds_with(state: &State, named: Option<&UnitName>, unit: &UnitName) -> bool
    ensures { IsTrue result ↔ IsHeldWith (state_of state.now) (option_copied named.entry) unit.now }
{
    match named {
        Some(named) => state.holds(unit) || unit == named,
        None => state.holds(unit),
    }
}

/// The names of the graph's units, each with the number that it has there.
fn names_of(alloc: Global, graph: &Graph) -> Result<Names, AllocError>
    ensures { IfOk result (λ names. names ≡ graph.now.names) }
{
    let mut listed = Vec::new(alloc);
    for unit in 0..graph.len() {
        match graph.name(unit) {
            Some(name) => listed.push(name.copy()?)?,
            None => unreachable!(),
        }
    }
    let names = Names::of(alloc, &listed)?;
    Ok(names)
}

/// The units that are known by the tree without its entries under `run/`, with those that are named beside it; None if it has no such
/// entries.
fn lasting(
    alloc: Global,
    reading: Reading<'_>,
    extra: &[UnitName],
) -> Result<Option<Vec<UnitName>>, AllocError>
    ensures { IfOk result (λ lasting. AreLasting (tree_read reading.entry) extra.now (option_map (λ names. names.items) lasting)) }
{
    if !reading.tree.has_run() {
        return Ok(None);
    }
    let mut rest = reading.tree.copy()?;
    rest.clear_run();
    let rest = Reading {
        tree: &rest,
        profile: reading.profile,
    };
    Ok(Some(known_units(alloc, rest, extra)?))
}

/// Whether the unit is found among these, which stand in the order of their names.
fn is_among(names: &[UnitName], unit: &UnitName) -> bool
    ensures { IsTrue result → Contains names.now unit.now }
{
    match names.binary_search(unit) {
        Ok(_) => true,
        Err(_) => false,
    }
}

/// Whether the graph's unit with this number is found among these, which stand in the order of their names.
fn is_number_among(graph: &Graph, names: &[UnitName], number: usize) -> bool
    ensures { IsTrue result → (unit : List ℕ) → IsNumberOf graph.now number unit → Contains names.now unit }
{
    match graph.name(number) {
        Some(unit) => is_among(names, unit),
        None => true,
    }
}

/// The numbers of the graph's units that aren't among these, which stand in the order of their names.
fn not_among(alloc: Global, graph: &Graph, names: &[UnitName]) -> Result<Vec<usize>, AllocError>
    ensures { IfOk result (λ passing. ArePassing graph.now.names names.now passing.items) }
{
    let mut passing = Vec::new(alloc);
    for number in 0..graph.len() {
        if !is_number_among(graph, names, number) {
            passing.push(number)?;
        }
    }
    Ok(passing)
}

/// The numbers of the graph's units that aren't known without the entries under `run/`, by those that are.
fn passing(
    alloc: Global,
    graph: &Graph,
    lasting: &Option<Vec<UnitName>>,
) -> Result<Vec<usize>, AllocError>
    ensures { IfOk result (λ passing. ArePassing graph.now.names (unwrap_or (option_map (λ names. names.items) lasting.now) graph.now.names) passing.items) }
{
    match lasting {
        Some(names) => not_among(alloc, graph, names),
        None => Ok(Vec::new(alloc)),
    }
}

/// By number: whether the graph's unit is one of these.
fn marked(alloc: Global, graph: &Graph, units: &[UnitName]) -> Result<Vec<bool>, AllocError>
    ensures { IfOk result (λ marks. AreMarked graph.now.names units.now marks.items) }
{
    let mut marks = vec![in alloc; false; graph.len()]?;
    for unit in units {
        if let Some(number) = graph.number(unit) {
            marks[number] = true;
        }
    }
    Ok(marks)
}

/// Appends the unit, unless it is among the known and the lasting ones; these stand in the order of their names.
fn push_other(
    others: &mut Vec<UnitName>,
    known: &[UnitName],
    lasting: &Option<Vec<UnitName>>,
    unit: &UnitName,
) -> Result<(), AllocError>
    ensures keeps { OnOk result ((name : List ℕ) → Contains others.old.items name → Contains others.new.items name) }
    ensures has { OnOk result (Contains others.new.items unit.now ⊎ Contains known.now unit.now) }
    ensures only { OnOk result ((name : List ℕ) → Contains others.new.items name → Contains others.old.items name ⊎ (unit.now ≡ name)) }
{
    if is_named(known, lasting, unit) {
        return Ok(());
    }
    others.push(unit.copy()?)?;
    Ok(())
}

/// Those of the units that aren't among the known ones, or not among the lasting ones; these stand in the order of their names.
fn others(
    alloc: Global,
    units: &[UnitName],
    known: &[UnitName],
    lasting: &Option<Vec<UnitName>>,
) -> Result<Vec<UnitName>, AllocError>
    ensures has { IfOk result (λ others. (unit : List ℕ) → Contains units.now unit → Contains others.items unit ⊎ Contains known.now unit) }
    ensures only { IfOk result (λ others. (unit : List ℕ) → Contains others.items unit → Contains units.now unit) }
{
    let mut others = Vec::new(alloc);
    for unit in units {
        push_other(&mut others, known, lasting, unit)?;
    }
    Ok(others)
}

/// Whether the unit is among the known ones, and among the lasting ones if there is a list of these.
fn is_named(known: &[UnitName], lasting: &Option<Vec<UnitName>>, unit: &UnitName) -> bool
    ensures { IsTrue result → Contains known.now unit.now }
{
    if !is_among(known, unit) {
        return false;
    }
    match lasting {
        Some(lasting) => is_among(lasting, unit),
        None => true,
    }
}

/// Those of the units that aren't known by the tree itself, both with its entries under `run/` and without them.
fn unnamed(
    alloc: Global,
    reading: Reading<'_>,
    units: Vec<UnitName>,
) -> Result<Vec<UnitName>, AllocError>
    ensures known { IfOk result (λ others. (unit : List ℕ) → Contains units.items unit → IsKnown (tree_read reading.entry) (Contains others.items) unit) }
    ensures only { IfOk result (λ others. (unit : List ℕ) → Contains others.items unit → Contains units.items unit) }
{
    if units.is_empty() {
        return Ok(units);
    }
    let known = known_units(alloc, reading, &[])?;
    let lasting = lasting(alloc, reading, &[])?;
    let others = others(alloc, &units, &known, &lasting)?;
    Ok(others)
}

impl Known {
    /// The `Known` of the tree as it is read, with the units that the state holds and the named one. Refused with too many units (E13
    /// `units`).
    pub fn of(
        alloc: Global,
        reading: Reading<'_>,
        state: &State,
        named: Option<&UnitName>,
    ) -> Result<Rc<Known>, Refusal>
        ensures made { IfOk result (λ k. IsGraphFor (tree_read reading.entry) (Contains k.value.extra) k.value.graph) }
        ensures extra { IfOk result (λ k. (unit : List ℕ) → Contains k.value.extra unit ↔ IsHeldWith (state_of state.now) (option_copied named.entry) unit) }
        ensures lasting { IfOk result (λ k. (unit : List ℕ)
            → Contains k.value.lasting unit ↔ IsKnown (lasting_tree (tree_read reading.entry)) (Contains k.value.extra) unit) }
        ensures few { IfOk result (λ k. ¬ IsFull (tree_read reading.entry) (IsHeldWith (state_of state.now) (option_copied named.entry))) }
        ensures refused { IfErr result (λ e. ¬ (e ≡ refusals.NoMemory) → (e ≡ refusals.TooLarge limits.Units)
            × IsFull (tree_read reading.entry) (IsHeldWith (state_of state.now) (option_copied named.entry))) }
    {
        let extra = held_with(alloc, state, named)?;
        let known = Known::with_units(alloc, reading, extra)?;
        Ok(Rc::new(alloc, known)?)
    }

    /// The `Known` of the tree, with these units beside it. Refused with too many units (E13 `units`).
    pub fn with_units(
        alloc: Global,
        reading: Reading<'_>,
        extra: Vec<UnitName>,
    ) -> Result<Known, Refusal>
        ensures made { IfOk result (λ k. IsGraphFor (tree_read reading.entry) (Contains k.extra) k.graph) }
        ensures extra { IfOk result (λ k. k.extra ≡ extra.items) }
        ensures lasting { IfOk result (λ k. (unit : List ℕ) → Contains k.lasting unit ↔ IsKnown (lasting_tree (tree_read reading.entry)) (Contains k.extra) unit) }
        ensures few { IfOk result (λ k. ¬ IsFull (tree_read reading.entry) (Contains extra.items)) }
        ensures refused { IfErr result (λ e. ¬ (e ≡ refusals.NoMemory) → (e ≡ refusals.TooLarge limits.Units) × IsFull (tree_read reading.entry) (Contains extra.items)) }
    {
        let graph = Graph::of(alloc, reading, extra.as_slice())?;
        let names = names_of(alloc, &graph)?;
        let lasting = lasting(alloc, reading, extra.as_slice())?;
        let passing = passing(alloc, &graph, &lasting)?;
        let is_extra = marked(alloc, &graph, &extra)?;
        Ok(Known {
            graph,
            names,
            extra,
            is_extra,
            lasting,
            passing,
        })
    }

    /// The `Known` of the state's loaded tree, with just the units that the state holds. It is made for those alone that the tree doesn't
    /// name by itself, so that it stays when all others are let go. Refused with too many units (E13 `units`).
    pub fn of_held(alloc: Global, state: &State) -> Result<Rc<Known>, Refusal>
        ensures knows { IfOk result (λ k. KnowsFor k.value (state_of state.now)) }
        ensures held { IfOk result (λ k. (unit : List ℕ) → Contains k.value.extra unit → IsHeld (state_of state.now) unit) }
        ensures refused { IfErr result (λ e. ¬ (e ≡ refusals.NoMemory) → (e ≡ refusals.TooLarge limits.Units)
            × IsFull (state_of state.now).loaded (IsHeld (state_of state.now))) }
    {
        let reading = state.loaded();
        let held = state.held(alloc)?;
        let extra = unnamed(alloc, reading, held)?;
        let known = Known::with_units(alloc, reading, extra)?;
        Ok(Rc::new(alloc, known)?)
    }

    /// The graph of the tree and of the units beside it.
    pub fn graph(&self) -> &Graph
        ensures { result.now ≡ self.now.graph }
    {
        &self.graph
    }

    /// The names of the graph's units, each with the number that it has there.
    pub fn names(&self) -> &Names
        ensures { result.now ≡ self.now.graph.names }
    {
        &self.names
    }

    /// Whether each unit for which the graph was made is held by the state, or is the named one.
    fn is_made_for(&self, state: &State, named: Option<&UnitName>) -> bool
        ensures { IsTrue result → (unit : List ℕ) → Contains self.now.extra unit → IsHeldWith (state_of state.now) (option_copied named.entry) unit }
    {
        for unit in &self.extra {
            if !holds_with(state, named, unit) {
                return false;
            }
        }
        true
    }

    /// Whether the named unit is known.
    fn knows(&self, named: Option<&UnitName>) -> bool
        ensures { IsTrue result → (unit : List ℕ) → option_copied named.entry ≡ Some unit → Contains self.now.graph.names unit }
    {
        match named {
            Some(named) => self.graph.number(named).is_some(),
            None => true,
        }
    }

    /// Whether the unit, one of the graph, is known without the entries under `run/` too.
    fn lasts(&self, unit: &UnitName) -> bool
        ensures { IsTrue result → Contains self.now.graph.names unit.now → Contains self.now.lasting unit.now }
    {
        match &self.lasting {
            Some(lasting) => is_among(lasting, unit),
            None => true,
        }
    }

    /// Whether each unit of the graph that the state holds, or that is named, is known without the entries under `run/` too. Only the units
    /// in `passing` are looked at: no other can fail.
    pub fn lasts_for(&self, state: &State, named: Option<&UnitName>) -> bool
        ensures { IsTrue result → (unit : List ℕ) → Contains self.now.graph.names unit → IsHeldWith (state_of state.now) (option_copied named.entry) unit
            → Contains self.now.lasting unit }
    {
        for number in &self.passing {
            if !self.lasts_at(state, named, *number) {
                return false;
            }
        }
        true
    }

    /// The same for the unit with this number.
    fn lasts_at(&self, state: &State, named: Option<&UnitName>, number: usize) -> bool
        ensures { IsTrue result → (unit : List ℕ) → IsNumberOf self.now.graph number unit → IsHeldWith (state_of state.now) (option_copied named.entry) unit
            → Contains self.now.lasting unit }
    {
        match self.graph.name(number) {
            Some(unit) => !holds_with(state, named, unit) || self.lasts(unit),
            None => true,
        }
    }

    /// Whether after these rows nothing is held any more of a unit for which the graph was made. No other row is looked at.
    pub fn is_let_go(&self, rows: &[Row]) -> bool
        ensures stays { result ≡ false → All (LetsNoneGo self.now) rows.now }
        ensures goes { result ≡ true → ¬ All (LetsNoneGo self.now) rows.now }
    {
        for row in rows {
            if self.lets_go(row) {
                return true;
            }
        }
        false
    }

    /// Whether the row is that of a unit for which the graph was made, and nothing is held of it by the row.
    fn lets_go(&self, row: &Row) -> bool
        ensures stays { result ≡ false → LetsNoneGo self.now row.now }
        ensures goes { result ≡ true → ¬ LetsNoneGo self.now row.now }
    {
        self.is_extra_at(row.number) && is_empty(row)
    }

    /// Whether the unit with this number is one for which the graph was made.
    fn is_extra_at(&self, number: usize) -> bool
        ensures told { (unit : List ℕ) → IsNumberOf self.now.graph number unit → IsTrue result ↔ Contains self.now.extra unit }
        ensures within { IsTrue result → number < length self.now.graph.names }
    {
        matches!(self.is_extra.get(number), Some(true))
    }

    /// Whether the units of the graph are exactly those that are known for the state: it holds each one for which the graph was made.
    pub fn is_exact(&self, state: &State) -> bool
        ensures { IsTrue result → KnowsFor self.now (state_of state.now)
            → IsGraphOf (state_of state.now).loaded (IsHeld (state_of state.now)) self.now.graph }
    {
        self.is_made_for(state, None)
    }

    /// Whether this is exactly the `Known` of the state's loaded tree, with the units that the state holds and the named one.
    pub fn fits(&self, state: &State, named: Option<&UnitName>) -> bool
        ensures graph { IsTrue result → KnowsFor self.now (state_of state.now)
            → IsGraphFor (state_of state.now).loaded (IsHeldWith (state_of state.now) (option_copied named.entry)) self.now.graph }
        ensures made { IsTrue result → (unit : List ℕ) → Contains self.now.extra unit → IsHeldWith (state_of state.now) (option_copied named.entry) unit }
    {
        if !self.knows(named) {
            return false;
        }
        if !self.is_made_for(state, named) {
            return false;
        }
        self.lasts_for(state, named)
    }

    /// Whether each unit of the graph of which the work holds anything is known without the entries under `run/` too.
    pub fn lasts_in(&self, work: &Work<'_>) -> bool
        requires { work.now.graph ≡ self.now.graph }
        ensures { IsTrue result → (unit : List ℕ) → Contains self.now.graph.names unit → IsHeld (state_of work.now.now) unit → Contains self.now.lasting unit }
    {
        for number in &self.passing {
            if !self.lasts_at_in(work, *number) {
                return false;
            }
        }
        true
    }

    /// The same for the unit with this number.
    fn lasts_at_in(&self, work: &Work<'_>, number: usize) -> bool
        requires { work.now.graph ≡ self.now.graph }
        ensures { IsTrue result → (unit : List ℕ) → IsNumberOf self.now.graph number unit → IsHeld (state_of work.now.now) unit → Contains self.now.lasting unit }
    {
        match self.graph.name(number) {
            Some(unit) => !work.holds(number) || self.lasts(unit),
            None => true,
        }
    }

    /// Whether the work holds something of each unit for which the graph was made.
    fn is_made_in(&self, work: &Work<'_>) -> bool
        ensures { IsTrue result → (unit : List ℕ) → Contains self.now.extra unit → IsHeld (state_of work.now.now) unit }
    {
        for unit in &self.extra {
            if !is_held_in(work, unit) {
                return false;
            }
        }
        true
    }

    /// Whether this is exactly the `Known` of the loaded tree, with the units of which the work holds anything.
    pub fn fits_in(&self, work: &Work<'_>) -> bool
        requires { work.now.graph ≡ self.now.graph }
        ensures { IsTrue result → KnowsFor self.now (state_of work.now.now) → IsGraphFor (state_of work.now.now).loaded (IsHeld (state_of work.now.now)) self.now.graph }
    {
        if !self.is_made_in(work) {
            return false;
        }
        self.lasts_in(work)
    }
}

/// Whether the work holds anything of the unit.
fn is_held_in(work: &Work<'_>, unit: &UnitName) -> bool
    ensures { IsTrue result → IsHeld (state_of work.now.now) unit.now }
{
    match work.number(unit) {
        Some(number) => work.holds(number),
        None => false,
    }
}

/// Whether nothing is held of the row's unit by the row.
fn is_empty(row: &Row) -> bool
    ensures { result ≡ holds_none row.now }
{
    row.unit.holds_nothing() && !row.jobs.has_job()
}
