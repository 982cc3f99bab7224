//! Theorems about the machine: its steps, its runs and its weight.

ghost use Rattle.std.specs.Prelude.{◌≡◌, ◌≢◌, ◌↔◌, ◌<◌, ◌≤◌, ◌++◌, ℕ, List, All, length, None};
ghost use Rattle.um_model.specs.Begun.{WasNext, begun_in};
ghost use Rattle.um_model.specs.Finished.{Finishes, IsAtRest, PutsNoStart};
ghost use Rattle.um_model.specs.InputSpellings.{FitInput, input_limit, input_spelling};
ghost use Rattle.um_model.specs.Jobs.{jobs_of_unit};
ghost use Rattle.um_model.specs.Live.{IsNotStuck};
ghost use Rattle.um_model.specs.Machine.{State, Happening, Happened, Input, IsReplyTo, IsTooHeavy, Query, Reply, Done, Refusal, Step, Run, empty_of};
ghost use Rattle.um_model.specs.Numbers.{AreNew, started_numbers, actions_in};
ghost use Rattle.um_model.specs.Refusals.{Refused};
ghost use Rattle.um_model.specs.Outcomes.{IsSameOutcome};
ghost use Rattle.um_model.specs.Servable.{IsBlank, IsServable, IsFew, IsFree, Weighs, WeighsNoMore};
ghost use Rattle.um_model.specs.Service.{Action};
ghost use Rattle.um_model.specs.declared.profile.Profile.{Profile};
ghost use Rattle.um_model.specs.StateSpellings.{FitState, state_spelling};

/// Each state and input has a step.
pub fn each_input_has_a_step()
    ensures { (size : ℕ) (s : State) (input : Input)
        → (reply : Reply) × (actions : List Action) × (t : State) × Step size s input reply actions t }
{}

/// A step has one outcome, but for the cycle that a refusal names.
pub fn a_step_has_one_outcome()
    ensures { (size : ℕ) (s : State) (input : Input) (r q : Reply) (a b : List Action) (t u : State)
        → Step size s input r a t → Step size s input q b u → IsSameOutcome r q a b t u }
{}

/// A query has one reply, which the state determines.
pub fn a_query_has_one_reply()
    ensures { (s : State) (query : Query) (r q : Reply) → IsReplyTo s query r → IsReplyTo s query q → r ≡ q }
{}

/// A job that begins was ready in the state from which it began: it was the least of the jobs that were ready there.
pub fn a_job_that_begins_was_ready()
    ensures { (size : ℕ) (s : State) (input : Input) (reply : Reply) (actions : List Action) (t : State)
        (step : Step size s input reply actions t) → All WasNext (begun_in step) }
{}

/// A run has one end.
pub fn a_run_has_one_end()
    ensures { (size : ℕ) (s t u : State) (inputs : List Input) → Run size s inputs t → Run size s inputs u → t ≡ u }
{}

/// A run over two lists, one after the other, is a run over the first and then one over the second.
pub fn runs_join()
    ensures { (size : ℕ) (s u : State) (p q : List Input)
        → ((t : State) × Run size s p t × Run size t q u) ↔ Run size s (p ++ q) u }
{}

/// The empty state of each profile is one in which nothing is held.
pub fn nothing_is_held_in_the_empty_state()
    ensures { (profile : Profile) → IsBlank (empty_of profile) }
{}

/// After a run from a state in which nothing is held the pending jobs don't wait for one another in a circle.
pub fn the_pending_jobs_have_no_cycle()
    ensures { (size : ℕ) (s : State) (inputs : List Input) (t : State) → IsBlank s → Run size s inputs t → IsFree t }
{}

/// The machine is never stuck: if a job is pending after a run from a state in which nothing is held, some pending job's unit is in start
/// or in a stop state and has a live process.
pub fn the_machine_is_never_stuck()
    ensures { (size : ℕ) (s : State) (inputs : List Input) (t : State) → IsBlank s → Run size s inputs t → IsNotStuck t }
{}

/// After a run from a state in which nothing is held no more units are known than may be, by the loaded tree and by it without its
/// entries under `run/`.
pub fn no_more_units_are_known_than_may_be()
    ensures { (size : ℕ) (s : State) (inputs : List Input) (t : State) → IsBlank s → Run size s inputs t → IsFew t }
{}

/// Each state has one weight, in bytes, and it is too heavy for a store of fewer bytes.
pub fn each_state_has_one_weight()
    ensures some { (s : State) → (weight : ℕ) × Weighs s weight }
    ensures one { (s : State) (m n : ℕ) → Weighs s m → Weighs s n → m ≡ n }
    ensures heavy { (size : ℕ) (s : State) (weight : ℕ) → Weighs s weight → IsTooHeavy size s ↔ size < weight }
{}

/// A happening is never refused, and never raises the weight of the state.
pub fn what_happens_never_raises_the_weight()
    ensures { (size : ℕ) (s : State) (profile : Profile) (moment : ℕ) (happening : Happening) (reply : Reply) (actions : List Action) (t : State)
        → Step size s (record { profile = profile; moment = moment; event = Happened happening }) reply actions t → (reply ≡ Done) × WeighsNoMore t s }
{}

/// A store of 256 bytes or more may hold a state in which nothing is held, as the empty one.
pub fn a_store_may_hold_the_empty_state()
    ensures { (size : ℕ) (s : State) → 256 ≤ size → IsBlank s → IsServable size s }
{}

/// A step leaves a state that a store may hold such that it still may.
pub fn a_step_leaves_a_state_that_a_store_may_hold()
    ensures { (size : ℕ) (s : State) (input : Input) (reply : Reply) (actions : List Action) (t : State)
        → Step size s input reply actions t → IsServable size s → IsServable size t }
{}

/// A step by an input that has bytes, from a state that has bytes and that a store may hold, leads to a state that has bytes.
pub fn a_step_leads_to_a_state_that_has_bytes()
    ensures { (size : ℕ) (s : State) (input : Input) (reply : Reply) (actions : List Action) (t : State)
        → FitInput input → Step size s input reply actions t → FitState s → IsServable size s → FitState t }
{}

/// The bytes of a state that a store may hold have room in it.
pub fn the_bytes_of_a_state_have_room()
    ensures { (size : ℕ) (s : State) → FitState s → IsServable size s → length (state_spelling s) ≤ size }
{}

/// An input that isn't refused in a state that has bytes takes from 10 to 66,078 bytes itself.
pub fn an_input_that_is_not_refused_is_short()
    ensures { (size : ℕ) (s : State) (input : Input) (reply : Reply) (actions : List Action) (t : State)
        → FitState s → FitInput input → Step size s input reply actions t → ((r : Refused) → reply ≢ Refusal r)
        → (10 ≤ length (input_spelling input)) × (length (input_spelling input) ≤ input_limit) }
{}

/// A finished job isn't repeated: if a oneshot finished in a step and no start of it is pending after that, it is at rest after each
/// further run in which no command puts a start of it.
pub fn a_finished_job_is_not_repeated()
    ensures { (size : ℕ) (s t u : State) (unit : List ℕ) (input : Input) (inputs : List Input) (reply : Reply) (actions : List Action)
        → Step size s input reply actions t → Finishes s t unit → (jobs_of_unit t.pending unit).start ≡ None
        → (run : Run size t inputs u) → PutsNoStart unit run → IsAtRest u unit }
{}

/// The numbers of the processes that a step starts are new: the next number never falls, and each number started is at least the one
/// before the step, below the one after it, and started once.
pub fn numbers_rise()
    ensures { (size : ℕ) (s : State) (input : Input) (reply : Reply) (actions : List Action) (t : State)
        → Step size s input reply actions t → AreNew s.next t.next (started_numbers actions) }
{}

/// No process number is started twice in a run.
pub fn no_number_is_started_twice()
    ensures { (size : ℕ) (s t : State) (inputs : List Input) (run : Run size s inputs t)
        → AreNew s.next t.next (started_numbers (actions_in run)) }
{}
