//! The actions on a unit's processes.

ghost use Rattle.std.specs.Prelude.{◌≡◌, ◌<◌, ◌∷◌, [], IfOk, map};
ghost use Rattle.um_model.specs.Moments.{process_limit};
ghost use Rattle.um_model.specs.Service.{SendSignal};
ghost use Rattle.um_model.specs.Transitions.{AreActions, live_numbers};
ghost use Rattle.um_model.specs.declared.service.UnitState.{UnitState};
ghost use Rattle.um_model.specs.declared.transition.Order.TheVariants.{Spawn};
ghost use Rattle.um_service.specs.View.{HasRoom, action_of};
ghost use Rattle.um_unit.specs.ServiceView.{service_settings_of};

use crate::starting::Start;
use std::alloc::{AllocError, Global};
use std::rc::Rc;
use um_model::{Around, CommandList, NextNumber, Order, ProcessNumber, Signal, UnitState};
use um_unit::ServiceSettings;

/// An action for the children.
#[derive(Debug, Drop)]
pub enum Action {
    /// To start a process under this number.
    Spawn {
        number: ProcessNumber,
        start: Start,
    },
    /// To signal the process of this number.
    Signal {
        number: ProcessNumber,
        signal: Signal,
    },
}

/// A list of one action.
fn only(alloc: Global, action: Action) -> Result<Vec<Action>, AllocError>
    ensures { IfOk result (λ actions. actions.items ≡ action ∷ []) }
{
    let mut actions = Vec::new(alloc);
    actions.push(action)?;
    Ok(actions)
}

/// A signal to each live process, the main one first.
fn signals(alloc: Global, unit: &UnitState, signal: Signal) -> Result<Vec<Action>, AllocError>
    ensures { IfOk result (λ actions. map action_of actions.items ≡ map (λ number. SendSignal number signal) (live_numbers unit.now)) }
{
    match (unit.main, unit.control) {
        (None, None) => Ok(Vec::new(alloc)),
        (Some(number), None) | (None, Some(number)) => {
            only(alloc, Action::Signal { number, signal })
        }
        (Some(main), Some(control)) => {
            let mut actions = only(
                alloc,
                Action::Signal {
                    number: main,
                    signal,
                },
            )?;
            actions.push(Action::Signal {
                number: control,
                signal,
            })?;
            Ok(actions)
        }
    }
}

/// The number of the process that is started.
pub fn number_of(next: NextNumber) -> ProcessNumber
    requires { next < process_limit }
    ensures { result ≡ next }
{
    match next.process() {
        Some(number) => number,
        None => unreachable!(),
    }
}

/// The start of the command at this place of the list, under the next number.
fn spawn(
    alloc: Global,
    settings: &Rc<ServiceSettings>,
    around: &Around,
    which: CommandList,
    index: u32,
) -> Result<Vec<Action>, AllocError>
    requires { around.now.next < process_limit }
    ensures { (unit : UnitState) → IfOk result (λ actions. AreActions (service_settings_of settings.now.value) around.now unit (Spawn which index) (map action_of actions.items)) }
{
    let start = Start::new(settings, which, index)?;
    let number = number_of(around.next);
    only(alloc, Action::Spawn { number, start })
}

/// The actions that carry out the order, one after another.
pub fn actions_of(
    alloc: Global,
    settings: &Rc<ServiceSettings>,
    around: &Around,
    unit: &UnitState,
    order: Order,
) -> Result<Vec<Action>, AllocError>
    requires { HasRoom around.now order }
    ensures { IfOk result (λ actions. AreActions (service_settings_of settings.now.value) around.now unit.now order (map action_of actions.items)) }
{
    match order {
        Order::Nothing => Ok(Vec::new(alloc)),
        Order::Spawn(which, index) => spawn(alloc, settings, around, which, index),
        Order::Signal(signal) => signals(alloc, unit, signal),
    }
}
