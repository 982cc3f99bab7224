//! Theorems about the service table for all units, as functions that do nothing.

ghost use Rattle.std.specs.Prelude.{◌≡◌, ◌↔◌, ◌+◌, ◌^◌, ◌≤◌, ◌⊎◌, ℕ, List, Option};
ghost use Rattle.um_model.specs.Commands.{Command};
ghost use Rattle.um_model.specs.Service.{Action};
ghost use Rattle.um_model.specs.Settings.{ServiceSettings};
ghost use Rattle.um_model.specs.Substitution.{Variable};
ghost use Rattle.um_model.specs.Transitions.{HasItsProcess, transition, spawned, AreActions, AreStarted, HasNumber};
ghost use Rattle.um_model.specs.declared.service.UnitState.{UnitState};
ghost use Rattle.um_model.specs.declared.transition.Around.{Around};
ghost use Rattle.um_model.specs.declared.transition.Order.{Order};
ghost use Rattle.um_model.specs.declared.transition.UnitEvent.{UnitEvent};
ghost use Rattle.um_service.specs.Started.{started_words};

/// After any event, a unit that had its live process has one. A unit that starts or runs has its main process. One that its
/// `ExecStartPre=` commands prepare or its `ExecStop=` commands stop has a control process. One whose processes were sent a signal to end
/// has one of them.
pub fn a_process_is_kept()
    ensures { (s : ServiceSettings) (around : Around) (unit : UnitState) (event : UnitEvent) → HasItsProcess unit → HasItsProcess (transition s around unit event).unit }
{}

/// Each process number that is new to a unit is the next one, and a process was started under it.
pub fn new_numbers_are_the_next()
    ensures { (s : ServiceSettings) (around : Around) (unit : UnitState) (event : UnitEvent) (n : ℕ) → HasNumber (transition s around unit event).unit n
        → HasNumber unit n ⊎ ((n ≡ around.next) × (spawned (transition s around unit event).order ≡ 1)) }
{}

/// The next process number stays within 2^63: past it no process is started.
pub fn the_next_number_stays_small()
    ensures { (s : ServiceSettings) (around : Around) (unit : UnitState) (event : UnitEvent) → around.next ≤ 2 ^ 63
        → around.next + spawned (transition s around unit event).order ≤ 2 ^ 63 }
{}

/// An order gives at most one list of actions for a unit's processes.
pub fn an_order_has_one_list_of_actions()
    ensures { (s : ServiceSettings) (around : Around) (unit : UnitState) (order : Order) (a b : List Action) → AreActions s around unit order a → AreActions s around unit order b → a ≡ b }
{}

/// For a command and an environment the function of the definitions finds the words that the command is started with, and no others.
pub fn what_a_command_is_started_with_is_found()
    ensures { (environment : List Variable) (command : Option Command) (words : List (List ℕ)) → (started_words environment command ≡ words) ↔ AreStarted environment command words }
{}
