//! The start limit of a unit.
use std::process::Abort;
use um_asserts::{same, same_at};
use um_limit::{Counted, Window};
use um_model::{Moment, Span};

/// The count of a window before and after these starts: since which moment, and how many. Of each start its moment, and
/// whether the window lets it through.
struct Row {
    before: Option<(u64, u32)>,
    starts: &'static [(u64, bool)],
    interval: Option<u32>,
    burst: u32,
    after: Option<(u64, u32)>,
}

const ROWS: &[Row] = &[
    // three starts in ten seconds pass, and the fourth is refused
    Row {
        before: None,
        starts: &[
            (5_000_000, true),
            (5_000_000, true),
            (15_000_000, true),
            (15_000_000, false),
        ],
        interval: Some(10_000_000),
        burst: 3,
        after: Some((5_000_000, 3)),
    },
    Row {
        before: Some((5_000_000, 3)),
        starts: &[(15_000_001, true)],
        interval: Some(10_000_000),
        burst: 3,
        after: Some((15_000_001, 1)),
    },
    // without a limit nothing is counted
    Row {
        before: None,
        starts: &[(7, true), (7, true), (7, true), (7, true)],
        interval: Some(0),
        burst: 1,
        after: None,
    },
    Row {
        before: None,
        starts: &[(7, true), (7, true), (7, true), (7, true)],
        interval: None,
        burst: 0,
        after: None,
    },
    // a window without end lets its burst through once
    Row {
        before: None,
        starts: &[
            (1, true),
            (4_000_000_000_000_000_000, false),
            (4_000_000_000_000_000_000, false),
            (4_000_000_000_000_000_000, false),
        ],
        interval: None,
        burst: 1,
        after: Some((1, 1)),
    },
];

/// The window that has counted this.
fn window(rt: &impl Abort, counted: Option<(u64, u32)>) -> Window {
    match counted {
        Some((began, count)) => {
            let began = Moment::new(began).expect(rt, "no moment");
            Window::from_counted(Some(Counted { began, count }))
        }
        None => Window::new(),
    }
}

/// The interval in which its starts count; None is infinite.
fn interval(row: &Row) -> Option<Span> {
    row.interval.map(Span::from_micros)
}

/// Asserts that the window of the row lets its starts through as the row says, and its count then.
fn counts(rt: &impl Abort, row: &Row) {
    let label = (row.burst, row.starts);
    let mut counting = window(rt, row.before);
    for (micros, passes) in row.starts {
        let moment = Moment::new(*micros).expect(rt, "no moment");
        let passed = counting.count(moment, interval(row), row.burst);
        same_at!(rt, passed, *passes, label);
    }
    let wanted = window(rt, row.after);
    same!(rt, counting.counted(), wanted.counted());
    same!(rt, counting, wanted);
}

#[test]
fn a_window_counts_starts_and_refuses_those_behind_its_burst(rt: HostRuntime) {
    for row in ROWS {
        counts(&rt, row);
    }
}
