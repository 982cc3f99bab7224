//! A unit, and its changes by events.

ghost use Rattle.std.specs.Prelude.{◌≡◌, ◌+◌, ◌^◌, ◌≤◌, ℕ, map, IfOk, OnOk, OnErr};
ghost use Rattle.um_model.specs.Transitions.{HasItsProcess, transition, spawned, AreActions};
ghost use Rattle.um_model.specs.declared.service.UnitState.{UnitState};
ghost use Rattle.um_service.specs.View.{HasRoom, action_of};
ghost use Rattle.um_unit.specs.ServiceView.{service_settings_of};

use crate::actions::{Action, actions_of, number_of};
use crate::table::transition;
use std::alloc::{AllocError, Global};
use std::marker::Model;
use std::rc::Rc;
use um_model::{Around, NextNumber, Order, StartJob, UnitEvent, UnitState};
use um_unit::ServiceSettings;

/// The actions on a unit's processes after an event, and the changes of its jobs.
#[derive(Debug, Drop)]
pub struct Actions {
    /// The actions, to be carried out in this order.
    pub actions: Vec<Action>,
    /// The change of the running start job, if there is one.
    pub start: StartJob,
    /// Whether the running stop job, if there is one, ends.
    pub stop_ends: bool,
    /// The next process number from now on.
    pub next: NextNumber,
}

/// A unit as its processes and jobs have left it.
#[derive(Debug, Drop)]
pub struct Service {
    unit: UnitState,
}

impl Model for Service {
    ghost Value = { UnitState };

    ghost view = { λ s. s.unit };
}

/// The next process number after the order.
fn next_after(around: &Around, order: Order) -> NextNumber
    requires { HasRoom around.now order }
    ensures { result ≡ around.now.next + spawned order }
{
    match order {
        Order::Spawn(_, _) => NextNumber::behind(number_of(around.next)),
        Order::Nothing | Order::Signal(_) => around.next,
    }
}

impl Service {
    /// A unit in this state.
    pub fn of(unit: UnitState) -> Service
        ensures { result ≡ unit }
    {
        Service { unit }
    }

    /// The unit's state after its events so far.
    pub fn unit(&self) -> UnitState
        ensures { result ≡ self.now }
    {
        self.unit
    }

    /// A copy of the unit.
    pub fn copy(&self) -> Service
        ensures { result ≡ self.now }
    {
        Service { unit: self.unit }
    }

    /// An event of the unit, which has these settings. The unit changes by the first row of the service table that fits
    /// (systemd.service(5)), and the row's actions are returned. A command is started under the next process number, with its words and the
    /// environment as they are then, for which the settings are shared. A signal goes to each live process, the main one first. It fails
    /// only for want of memory, and then the unit is as before.
    pub fn on(
        &mut self,
        alloc: Global,
        event: UnitEvent,
        settings: &Rc<ServiceSettings>,
        around: Around,
    ) -> Result<Actions, AllocError>
        ensures unit { OnOk result (self.new ≡ (transition (service_settings_of settings.now.value) around self.old event).unit) }
        ensures actions { IfOk result (λ r. let after = transition (service_settings_of settings.now.value) around self.old event in
            AreActions (service_settings_of settings.now.value) around after.unit after.order (map action_of r.actions.items)) }
        ensures start { IfOk result (λ r. r.start ≡ (transition (service_settings_of settings.now.value) around self.old event).start) }
        ensures stop { IfOk result (λ r. r.stop_ends ≡ (transition (service_settings_of settings.now.value) around self.old event).stop_ends) }
        ensures next { IfOk result (λ r. r.next ≡ around.next + spawned (transition (service_settings_of settings.now.value) around self.old event).order) }
        ensures small { IfOk result (λ r. around.next ≤ 2 ^ 63 → r.next ≤ 2 ^ 63) }
        ensures held { HasItsProcess self.old → HasItsProcess self.new }
        ensures err { OnErr result (self.new ≡ self.old) }
    {
        let change = transition(settings, around, self.unit, event);
        let actions = actions_of(alloc, settings, &around, &change.unit, change.order)?;
        self.unit = change.unit;
        Ok(Actions {
            actions,
            start: change.start,
            stop_ends: change.stop_ends,
            next: next_after(&around, change.order),
        })
    }
}
