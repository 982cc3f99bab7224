//! Steps of the machine, taken, taken back and refused.
use crate::answers::told;
use crate::steps::{SIZE, committed, empty, engine_of, happened, obeyed, planned, standing};
use std::process::Abort;
use um_asserts::{same, same_at, text, unit};
use um_engine::{Engine, Next};
use um_model::{End, JobMode, SubState, UnitState, UnitVerb};
use um_state::{BootId, Command, Happening, Input};
use um_wire::Refusal;

/// An input: at the moment 5, but a boot at 7, and an end at its own moment.
#[derive(Drop)]
enum Comes {
    /// A file is put.
    Put(&'static str, &'static str),
    /// The tree is loaded.
    Reload,
    /// A command for `a.service`.
    Asked(UnitVerb, JobMode),
    /// At this number of microseconds the process of this number ends.
    Ended(u64, u64, End),
    /// The machine is booted, with this id.
    Booted(&'static str),
}

/// An input, its answer, and the sub state of `a.service` then; None: it stands as before.
type Step = (Comes, &'static str, Option<SubState>);

/// Inputs in turn, into a state with this number of files. At the end the main process of `a.service` has this number.
struct Script {
    shows: &'static str,
    entries: usize,
    steps: &'static [Step],
    main: Option<u64>,
}

const SLEEPS: &str = "[Service]\nExecStart=/bin/sleep 9\n";

const PUT: Comes = Comes::Put("lib/a.service", SLEEPS);

const START: Comes = Comes::Asked(UnitVerb::Start, JobMode::Replace);

const STOP: Comes = Comes::Asked(UnitVerb::Stop, JobMode::Replace);

const RESTART: Comes = Comes::Asked(UnitVerb::Restart, JobMode::Replace);

const TRY_RESTART: Comes = Comes::Asked(UnitVerb::TryRestart, JobMode::Replace);

const START_OR_FAIL: Comes = Comes::Asked(UnitVerb::Start, JobMode::Fail);

const STOP_OR_FAIL: Comes = Comes::Asked(UnitVerb::Stop, JobMode::Fail);

/// The end of the first process, by the signal to end.
const FIRST_ENDS: Comes = Comes::Ended(5, 1, End::Signal(15));

/// The end of a process that isn't there.
const LATE: Comes = Comes::Ended(7, 2, End::Code(0));

/// The answer to an input without effect.
const NO_EFFECT: &str = "no effect";

const SPAWN_1: &str = r#"spawn 1 ["/bin/sleep", "9"] [];"#;

const SPAWN_2: &str = r#"spawn 2 ["/bin/sleep", "9"] [];"#;

const TERM_1: &str = "signal 1 Term;";

const DEAD: Option<SubState> = Some(SubState::Dead);

const RUNNING: Option<SubState> = Some(SubState::Running);

const STOPPING: Option<SubState> = Some(SubState::StopSigterm);

/// Inputs that are refused or have no effect.
const REFUSALS: &[Script] = &[
    Script {
        shows: "a start of nothing is refused",
        entries: 0,
        steps: &[
            (START, "E4 NotFound a.service", None),
            (RESTART, "E4 NotFound a.service", None),
            (STOP, "E7 NotLoaded a.service", None),
            (TRY_RESTART, "E7 NotLoaded a.service", None),
        ],
        main: None,
    },
    Script {
        shows: "a put into a full tree is refused",
        // a tree has at most 4,096
        entries: 4095,
        steps: &[
            // the last one with room is put again in its own place
            (PUT, "", None),
            (PUT, "", None),
            (
                Comes::Put("lib/more.service", "#"),
                "E13 TooLarge entries",
                None,
            ),
        ],
        main: None,
    },
    Script {
        shows: "the end of no process has no effect",
        entries: 0,
        steps: &[
            (PUT, "", None),
            (Comes::Reload, "", None),
            (START, SPAWN_1, RUNNING),
            (LATE, NO_EFFECT, None),
        ],
        main: Some(1),
    },
];

/// Restarts.
const RESTARTS: &[Script] = &[
    Script {
        shows: "a restart stops a running service and starts it again",
        entries: 0,
        steps: &[
            (PUT, "", None),
            (Comes::Reload, "", None),
            (START, SPAWN_1, RUNNING),
            (RESTART, TERM_1, STOPPING),
            (FIRST_ENDS, SPAWN_2, RUNNING),
        ],
        main: Some(2),
    },
    Script {
        shows: "a restart of what runs stops a running service and starts it again",
        entries: 0,
        steps: &[
            (PUT, "", None),
            (Comes::Reload, "", None),
            (START, SPAWN_1, RUNNING),
            (TRY_RESTART, TERM_1, STOPPING),
            (FIRST_ENDS, SPAWN_2, RUNNING),
        ],
        main: Some(2),
    },
    Script {
        shows: "a restart starts what does not run and a restart of what runs changes nothing",
        entries: 0,
        steps: &[
            (PUT, "", None),
            (Comes::Reload, "", None),
            (TRY_RESTART, "", None),
            (TRY_RESTART, "", None),
            (RESTART, SPAWN_1, RUNNING),
        ],
        main: Some(1),
    },
];

/// Modes of commands while jobs are pending.
const MODES: &[Script] = &[
    Script {
        shows: "mode fail refuses a stop that drops a waiting start",
        entries: 0,
        steps: &[
            (PUT, "", None),
            (Comes::Reload, "", None),
            (START_OR_FAIL, SPAWN_1, RUNNING),
            (STOP_OR_FAIL, TERM_1, STOPPING),
            (START_OR_FAIL, "", STOPPING),
            (STOP_OR_FAIL, "E10 JobConflict a.service", None),
            (FIRST_ENDS, SPAWN_2, RUNNING),
        ],
        main: Some(2),
    },
    Script {
        shows: "mode replace drops a waiting start",
        entries: 0,
        steps: &[
            (PUT, "", None),
            (Comes::Reload, "", None),
            (START_OR_FAIL, SPAWN_1, RUNNING),
            (STOP_OR_FAIL, TERM_1, STOPPING),
            (START_OR_FAIL, "", STOPPING),
            (STOP, "", STOPPING),
            (FIRST_ENDS, "", DEAD),
        ],
        main: None,
    },
];

/// Boots.
const BOOTS: &[Script] = &[
    Script {
        shows: "after a boot all are dead and process numbers go on",
        entries: 0,
        steps: &[
            (PUT, "", None),
            (Comes::Reload, "", None),
            (START, SPAWN_1, RUNNING),
            (Comes::Booted("one"), "", DEAD),
            (START, SPAWN_2, RUNNING),
        ],
        main: Some(2),
    },
    Script {
        shows: "the boot that is known has no effect",
        entries: 0,
        steps: &[
            (PUT, "", None),
            (Comes::Reload, "", None),
            (START, SPAWN_1, RUNNING),
            (Comes::Booted("one"), "", DEAD),
            (START, SPAWN_2, RUNNING),
            (Comes::Booted("one"), NO_EFFECT, None),
        ],
        main: Some(2),
    },
    Script {
        shows: "what stands under run is gone after a boot",
        entries: 0,
        steps: &[
            (Comes::Put("run/a.service", SLEEPS), "", None),
            (Comes::Reload, "", None),
            (START, SPAWN_1, RUNNING),
            (Comes::Booted("one"), "", DEAD),
            (START, "E4 NotFound a.service", None),
        ],
        main: None,
    },
];

/// A file of this text is put.
fn put(rt: &(impl AllocGlobal + Abort), path: &str, content: &str) -> Box<Input> {
    let path = text!(rt, path);
    let text = text!(rt, content);
    obeyed(rt, 5, Command::PutFile { path, text })
}

/// A command for `a.service`.
fn asked(rt: &(impl AllocGlobal + Abort), verb: UnitVerb, mode: JobMode) -> Box<Input> {
    let unit = unit!(rt, "a.service");
    obeyed(rt, 5, Command::ForUnit { verb, unit, mode })
}

/// The machine is booted, with this id.
fn booted(rt: &(impl AllocGlobal + Abort), id: &str) -> Box<Input> {
    let boot = BootId::new(text!(rt, id)).expect(rt, "no boot");
    happened(rt, 7, Happening::Booted { boot })
}

/// The input.
fn input_of(rt: &(impl AllocGlobal + Abort), comes: &Comes) -> Box<Input> {
    match comes {
        Comes::Put(path, content) => put(rt, path, content),
        Comes::Reload => obeyed(rt, 5, Command::DaemonReload),
        Comes::Asked(verb, mode) => asked(rt, *verb, *mode),
        Comes::Ended(micros, number, end) => {
            let (number, end) = (*number, *end);
            happened(rt, *micros, Happening::ProcessEnded { number, end })
        }
        Comes::Booted(id) => booted(rt, id),
    }
}

/// An engine in a state with this number of files.
fn engine_with(rt: &(impl AllocGlobal + Abort), entries: usize) -> Box<Engine> {
    let mut state = empty(rt);
    for number in 0..entries {
        let path = format!(in rt.alloc(); "lib/u{number}.service").expect(rt, "no memory");
        let put: Result<_, _> = state.as_mut().put_file(path.as_str(), "#");
        put.expect(rt, "not put");
    }
    engine_of(rt, state, SIZE)
}

/// The outcome of a step that is taken: no effect, or its actions.
fn taken(rt: &(impl AllocGlobal + Abort), engine: &mut Engine, next: Box<Next>) -> String {
    let effect = if next.as_ref().has_effect() {
        ""
    } else {
        NO_EFFECT
    };
    let (actions, _) = committed(rt, engine, next);
    let asked = told(rt, actions.as_slice());
    format!(in rt.alloc(); "{effect}{asked}").expect(rt, "no memory")
}

/// The refusal as it prints.
fn refused(rt: &(impl AllocGlobal + Abort), refusal: &Refusal) -> String {
    refusal.to_string(rt.alloc()).expect(rt, "no memory")
}

/// The outcome of the input: its refusal; or it is taken, and has no effect or these actions.
fn answer_to(rt: &(impl AllocGlobal + Abort), engine: &mut Engine, input: &Input) -> String {
    match engine.plan(input) {
        Ok(next) => taken(
            rt,
            engine,
            Box::new(rt.alloc(), next).expect(rt, "no memory"),
        ),
        Err(refusal) => {
            let text = refused(rt, &refusal);
            drop(refusal);
            text
        }
    }
}

/// Asserts that the unit stands as before, in this row.
fn is_as_before(rt: &impl Abort, now: &UnitState, before: &UnitState, row: (&str, usize)) {
    assert_eq!(rt; *now, *before, "at {row:?}");
}

/// Asserts that the step has its answer, and that `a.service` stands then as the row says. Returns how it stands.
fn takes(
    rt: &(impl AllocGlobal + Abort),
    engine: &mut Engine,
    step: &Step,
    stands: &UnitState,
    row: (&str, usize),
) -> UnitState {
    let (comes, wanted, sub) = step;
    let input = input_of(rt, comes);
    let answer = answer_to(rt, engine, input.as_ref());
    same_at!(rt, answer.as_str(), *wanted, row);
    let now = standing(rt, engine, "a.service");
    match sub {
        Some(sub) => same_at!(rt, now.sub, *sub, row),
        None => is_as_before(rt, &now, stands, row),
    }
    now
}

/// Asserts that each step of the script has its answer, and that `a.service` stands then as it says.
fn plays(rt: &(impl AllocGlobal + Abort), engine: &mut Engine, script: &Script) {
    let mut stands = standing(rt, engine, "a.service");
    same_at!(rt, &stands, &UnitState::DEAD, script.shows);
    for (at, step) in script.steps.iter().enumerate() {
        stands = takes(rt, engine, step, &stands, (script.shows, at + 1));
    }
    let main = stands.main.map(|main| main.get());
    same_at!(rt, main, script.main, script.shows);
}

/// Plays the script in a state with its number of files.
fn play(rt: &(impl AllocGlobal + Abort), script: &Script) {
    let mut engine = engine_with(rt, script.entries);
    plays(rt, engine.as_mut(), script);
}

/// Plays the scripts.
fn play_all(rt: &(impl AllocGlobal + Abort), scripts: &[Script]) {
    for script in scripts {
        play(rt, script);
    }
}

#[test]
fn steps_are_taken_or_refused(rt: HostRuntime) {
    play_all(&rt, REFUSALS);
    play_all(&rt, RESTARTS);
    play_all(&rt, MODES);
    play_all(&rt, BOOTS);
}

/// Asserts that `a.service` stands so.
fn stands_so(rt: &(impl AllocGlobal + Abort), engine: &Engine, wanted: &UnitState) {
    assert_eq!(rt; standing(rt, engine, "a.service"), *wanted);
}

/// Asserts that the step is taken to a clock of this number of microseconds and that the way back leads to the other; `a.service` stands as
/// before all along, and there are no actions.
fn is_taken_back(
    rt: &(impl AllocGlobal + Abort),
    engine: &mut Engine,
    comes: &Comes,
    clock: u64,
    clock_before: u64,
) {
    let stands = standing(rt, engine, "a.service");
    let input = input_of(rt, comes);
    let next = planned(rt, engine, input.as_ref());
    let (actions, back) = committed(rt, engine, next);
    let taken = (actions.len(), engine.clock().micros());
    same!(rt, taken, (0, clock));
    stands_so(rt, engine, &stands);
    engine.back(Box::into_inner(back));
    same!(rt, engine.clock().micros(), clock_before);
    stands_so(rt, engine, &stands);
}

/// The inputs up to a running service.
const RUNS: &[Comes] = &[PUT, Comes::Reload, START];

/// The service runs.
fn run(rt: &(impl AllocGlobal + Abort), engine: &mut Engine) {
    for comes in RUNS {
        let input = input_of(rt, comes);
        let _taken = answer_to(rt, engine, input.as_ref());
    }
}

#[test]
fn a_step_is_taken_back_and_one_without_effect_changes_nothing(rt: HostRuntime) {
    let mut engine = engine_with(&rt, 0);
    is_taken_back(&rt, engine.as_mut(), &PUT, 5, 0);
    run(&rt, engine.as_mut());
    is_taken_back(&rt, engine.as_mut(), &LATE, 5, 5);
}
