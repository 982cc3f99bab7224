//! Truth values, numbers, time spans, sets of exits and restart policies.
use std::process::Abort;
use um_asserts::{same, same_at};
use um_model::{End, Span};
use um_value::{ExitSet, RestartPolicy, TimeSpan, boolean, exit_set, number, restart, span};

/// Texts, and the truth value of each; None if it has none.
const TRUTHS: &[(&str, Option<bool>)] = &[
    ("1", Some(true)),
    ("yes", Some(true)),
    ("YES", Some(true)),
    ("True", Some(true)),
    ("on", Some(true)),
    ("y", Some(true)),
    ("T", Some(true)),
    ("0", Some(false)),
    ("no", Some(false)),
    ("fALSE", Some(false)),
    ("off", Some(false)),
    ("N", Some(false)),
    ("f", Some(false)),
    ("", None),
    ("maybe", None),
    ("10", None),
    ("yes ", None),
    ("tru", None),
];

#[test]
fn a_truth_value_is_one_of_twelve_words(rt: HostRuntime) {
    for (text, wanted) in TRUTHS {
        same_at!(&rt, boolean(text), *wanted, text);
    }
}

/// Texts, and the number of each; None if it is none.
const NUMBERS: &[(&str, Option<u32>)] = &[
    ("5", Some(5)),
    ("0010", Some(10)),
    ("4294967295", Some(4_294_967_295)),
    ("", None),
    ("4294967296", None),
    ("-1", None),
    ("+1", None),
    ("1 ", None),
    ("1.0", None),
    ("000000000000000000000000000099999999999", None),
];

#[test]
fn a_number_has_digits_alone(rt: HostRuntime) {
    for (text, wanted) in NUMBERS {
        same_at!(&rt, number(text), *wanted, text);
    }
}

/// A day, in microseconds.
const DAY: Option<u64> = Some(86_400_000_000);

/// A week, in microseconds.
const WEEK: Option<u64> = Some(604_800_000_000);

/// Texts, and the span of each in microseconds; None if it is none.
const SPANS: &[(&str, Option<u64>)] = &[
    // parts are added up
    ("1min 200ms", Some(60_200_000)),
    ("5", Some(5_000_000)),
    ("\t5 s ", Some(5_000_000)),
    ("1 2", Some(3_000_000)),
    ("2h30min", Some(9_000_000_000)),
    ("0", Some(0)),
    ("4611686018427387904us", Some(4_611_686_018_427_387_904)),
    ("4611686018427387903us 1us", Some(4_611_686_018_427_387_904)),
    // each unit has its words
    ("86400s", DAY),
    ("86400sec", DAY),
    ("86400second", DAY),
    ("86400seconds", DAY),
    ("1440m", DAY),
    ("1440min", DAY),
    ("1440minute", DAY),
    ("1440minutes", DAY),
    ("24h", DAY),
    ("24hr", DAY),
    ("24hour", DAY),
    ("24hours", DAY),
    ("1d", DAY),
    ("1day", DAY),
    ("1days", DAY),
    ("604800000000us", WEEK),
    ("604800000000usec", WEEK),
    ("604800000ms", WEEK),
    ("604800000msec", WEEK),
    ("1w", WEEK),
    ("1week", WEEK),
    ("1weeks", WEEK),
    // no spans, and at the end spans that are too long
    ("", None),
    (" ", None),
    ("1.5s", None),
    ("infinity 1", None),
    (" infinity", None),
    ("1sx", None),
    ("1S", None),
    ("s", None),
    ("-1", None),
    ("1s,2s", None),
    ("4611686018427387905us", None),
    ("4611686018427387904us 1us", None),
    ("999999999999999999999999999999", None),
    ("99999999999999w", None),
];

/// The span of this number of microseconds.
fn micros(count: Option<u64>) -> Option<TimeSpan> {
    Some(TimeSpan::Micros(Span::new(count?)?))
}

#[test]
fn parts_of_a_span_are_added_up(rt: HostRuntime) {
    for (text, wanted) in SPANS {
        same_at!(&rt, &span(text), &micros(*wanted), text);
    }
    same!(&rt, span("infinity"), Some(TimeSpan::Infinite));
}

/// Which of some ends the set of the text holds; None if it can't be read.
fn held(text: &str) -> Option<[bool; 5]> {
    let set: ExitSet = exit_set(text)?;
    Some([
        set.holds(End::Code(0)),
        set.holds(End::Code(7)),
        set.holds(End::Code(255)),
        set.holds(End::Signal(1)),
        set.holds(End::Signal(15)),
    ])
}

/// Texts, and which of those ends the set of each holds; None if it is no set of exits.
const SETS: &[(&str, Option<[bool; 5]>)] = &[
    ("0 1 SIGTERM", Some([true, false, false, false, true])),
    ("007\t255  SIGHUP ", Some([false, true, true, true, false])),
    (" ", Some([false, false, false, false, false])),
    ("256", None),
    ("TERM", None),
    ("sigterm", None),
    ("SIGSTOP", None),
    ("1,2", None),
    ("\"0\"", None),
    ("-1", None),
];

#[test]
fn an_exit_set_holds_what_its_words_tell(rt: HostRuntime) {
    for (text, wanted) in SETS {
        same_at!(&rt, held(text), *wanted, text);
    }
}

/// The set of the text.
fn set_of(rt: &impl Abort, text: &str) -> ExitSet {
    exit_set(text).expect(rt, "no set")
}

/// Ends, and whether the joined set holds them.
const ENDS: &[(End, bool)] = &[
    (End::Code(7), true),
    (End::Code(255), true),
    (End::Signal(1), true),
    (End::Signal(15), true),
    (End::Code(1), false),
    (End::Code(15), false),
    (End::Signal(7), false),
    (End::Lost, false),
];

#[test]
fn a_set_is_joined_with_another_and_with_none(rt: HostRuntime) {
    let mut set = set_of(&rt, "7 SIGHUP");
    set.add(&set_of(&rt, "255 SIGHUP SIGTERM"));
    let joined = set;
    set.add(&ExitSet::empty());
    same!(&rt, set, joined);
    for (end, wanted) in ENDS {
        same_at!(&rt, joined.holds(*end), *wanted, end);
    }
}

/// Asserts that the set of this name holds the end by this signal and no other end.
fn is_of_signal(rt: &impl Abort, name: &str, number: u8) {
    let set = set_of(rt, name);
    for signal in 0..65u8 {
        let row = (name, signal);
        same_at!(rt, set.holds(End::Signal(signal)), signal == number, row);
    }
    let others = (set.holds(End::Code(number)), set.holds(End::Lost));
    same_at!(rt, others, (false, false), name);
}

/// The signals that have a name, and their numbers.
const SIGNALS: &[(&str, u8)] = &[
    ("SIGHUP", 1),
    ("SIGINT", 2),
    ("SIGQUIT", 3),
    ("SIGILL", 4),
    ("SIGTRAP", 5),
    ("SIGABRT", 6),
    ("SIGBUS", 7),
    ("SIGFPE", 8),
    ("SIGKILL", 9),
    ("SIGUSR1", 10),
    ("SIGSEGV", 11),
    ("SIGUSR2", 12),
    ("SIGPIPE", 13),
    ("SIGALRM", 14),
    ("SIGTERM", 15),
];

#[test]
fn each_signal_has_its_number(rt: HostRuntime) {
    for (name, number) in SIGNALS {
        is_of_signal(&rt, name, *number);
    }
}

/// Words, and the restart policy of each; None if it has none.
const POLICIES: &[(&str, Option<RestartPolicy>)] = &[
    ("no", Some(RestartPolicy::No)),
    ("always", Some(RestartPolicy::Always)),
    ("on-success", Some(RestartPolicy::OnSuccess)),
    ("on-failure", Some(RestartPolicy::OnFailure)),
    ("on-abnormal", Some(RestartPolicy::OnAbnormal)),
    ("on-abort", Some(RestartPolicy::OnAbort)),
    ("on-watchdog", Some(RestartPolicy::OnWatchdog)),
    ("Always", None),
    ("on-failure ", None),
];

#[test]
fn a_restart_policy_has_its_word(rt: HostRuntime) {
    for (text, wanted) in POLICIES {
        same_at!(&rt, restart(text), *wanted, text);
    }
}
