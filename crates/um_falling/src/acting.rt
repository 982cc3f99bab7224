//! How a unit acts: the facts about it that the service table uses.

ghost use Rattle.std.specs.Prelude.{◌≡◌, ℕ, List, Some, option_copied, option_map};
ghost use Rattle.um_graph.specs.Graph.{IsNumberOf};
ghost use Rattle.um_model.specs.Dependencies.{loadable_in};
ghost use Rattle.um_falling.specs.Over.{Serves};
ghost use Rattle.um_model.specs.Machine as model;
ghost use Rattle.um_model.specs.Settings.{default_settings};
ghost use Rattle.um_model.specs.Units as units;
ghost use Rattle.um_model.specs.declared.transition.UnitKind.TheVariants.{Simple};
ghost use Rattle.um_unit.specs.ServiceView.{service_settings_of};
ghost use Rattle.um_unit.specs.View.{loading_of, unit_of};

use std::rc::Rc;
use um_graph::{Graph, loadable};
use um_model::UnitKind;
use um_unit::{LoadedUnit, Loading, ServiceSettings};

/// The facts about a unit that the service table uses.
#[derive(Clone, Copy)]
pub(crate) struct Acting<'g> {
    /// The settings by which the unit acts.
    pub(crate) settings: &'g Rc<ServiceSettings>,
    /// It can be started: it is found, has no refused setting and is no template.
    pub(crate) loadable: bool,
}

/// The outcome of the look-up for the unit with this number, if it is one of the graph.
fn loading(graph: &Graph, unit: usize) -> Option<&Loading>
    ensures { (s : model.State) (name : List ℕ) → Serves graph.now s → IsNumberOf graph.now unit name
        → option_map loading_of (option_copied result) ≡ Some (units.load s.loaded name) }
{
    graph.loading(unit)
}

/// The unit of the graph with this number, if it can be started.
fn loadable_in(graph: &Graph, unit: usize) -> Option<&LoadedUnit>
    ensures { (s : model.State) (name : List ℕ) → Serves graph.now s → IsNumberOf graph.now unit name
        → option_map (λ unit. unit_of unit.now) result ≡ loadable_in s.loaded name }
{
    loadable(loading(graph, unit)?)
}

/// The kind of service that the unit of the graph with this number acts as: its own, or simple if it can't be started.
pub fn kind_in(graph: &Graph, unit: usize) -> UnitKind
    ensures { (s : model.State) (name : List ℕ) → Serves graph.now s → IsNumberOf graph.now unit name
        → result ≡ (model.settings_in s.loaded name).kind }
{
    match loadable_in(graph, unit) {
        Some(unit) => unit.settings.service.kind,
        None => UnitKind::Simple,
    }
}

impl<'g> Acting<'g> {
    ghost use Rattle.um_falling.specs.Acting.{acting_of, acts_as};

    /// How the unit of the graph with this number acts. One that can't be started acts as a simple service with default settings, and
    /// so does one that the graph doesn't have.
    pub(crate) fn in_graph(
        graph: &'g Graph,
        unit: usize,
        defaults: &'g Rc<ServiceSettings>,
    ) -> Acting<'g>
        requires { service_settings_of defaults.now.value ≡ default_settings Simple }
        ensures { (s : model.State) (name : List ℕ) → Serves graph.now s → IsNumberOf graph.now unit name
            → acting_of result ≡ acts_as (loadable_in s.loaded name) }
    {
        match loadable_in(graph, unit) {
            Some(unit) => Acting {
                settings: &unit.settings.service,
                loadable: true,
            },
            None => Acting {
                settings: defaults,
                loadable: false,
            },
        }
    }
}
