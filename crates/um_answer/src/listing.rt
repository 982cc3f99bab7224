//! The known units, as `list-units` reports them.

ghost use Rattle.std.specs.Prelude.{◌≡◌, IfOk, map};
ghost use Rattle.um_graph.specs.Graph.{IsGraphOf};
ghost use Rattle.um_model.specs.Machine as model;
ghost use Rattle.um_state.specs.View.{listed_of, reply_of, state_of};

use std::alloc::{AllocError, Global};
use um_graph::{Graph, known_units};
use um_name::UnitName;
use um_state::{Reply, State, UnitListed};

/// The unit, with its state.
fn unit_listed(state: &State, name: &UnitName) -> Result<UnitListed, AllocError>
    ensures { IfOk result (λ unit. listed_of unit ≡ model.unit_listed (state_of state.now) name.now) }
{
    Ok(UnitListed {
        unit: name.copy()?,
        sub: state.units().get(name).sub,
    })
}

/// These units, each with its state.
fn listed(alloc: Global, state: &State, names: &[UnitName]) -> Result<Vec<UnitListed>, AllocError>
    ensures { IfOk result (λ listed. map listed_of listed.items ≡ map (model.unit_listed (state_of state.now)) names.now) }
{
    let mut listed = Vec::new(alloc);
    for name in names {
        listed.push(unit_listed(state, name)?)?;
    }
    Ok(listed)
}

/// The units of the graph, each with its state.
fn listed_in(alloc: Global, state: &State, graph: &Graph) -> Result<Vec<UnitListed>, AllocError>
    ensures { IfOk result (λ listed. map listed_of listed.items ≡ map (model.unit_listed (state_of state.now)) graph.now.names) }
{
    let mut listed = Vec::new(alloc);
    for unit in 0..graph.len() {
        if let Some(name) = graph.name(unit) {
            listed.push(unit_listed(state, name)?)?;
        }
    }
    Ok(listed)
}

/// The reply to `list-units`: the known units of the loaded tree, and those that the state holds. Their files are read again.
pub(crate) fn list_units(alloc: Global, state: &State) -> Result<Reply, AllocError>
    ensures { IfOk result (λ reply. model.IsReplyTo (state_of state.now) model.ListUnits (reply_of reply)) }
{
    let held = state.held(alloc)?;
    let names = known_units(alloc, state.loaded(), &held)?;
    let units = listed(alloc, state, &names)?;
    Ok(Reply::Listed(units))
}

/// The reply to `list-units`, by the graph of just the units that are listed: no file is read.
pub fn list_known(alloc: Global, state: &State, graph: &Graph) -> Result<Reply, AllocError>
    ensures { IsGraphOf (state_of state.now).loaded (model.IsHeld (state_of state.now)) graph.now
        → IfOk result (λ reply. model.IsReplyTo (state_of state.now) model.ListUnits (reply_of reply)) }
{
    Ok(Reply::Listed(listed_in(alloc, state, graph)?))
}
