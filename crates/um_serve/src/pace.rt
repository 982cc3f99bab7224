//! How long is slept.

ghost use Rattle.std.specs.Prelude.{◌≡◌, ◌-◌, ◌*◌};
ghost use Rattle.std.specs.Duration.{as_nanos};
ghost use Rattle.um_serve.specs.Sleep.{slept};

use std::time::Duration;
use um_model::{Deadline, Moment};

/// The longest sleep, in microseconds, while something is open that no runner reports.
const SOON: u64 = 10_000;

/// The longest sleep otherwise, in microseconds, if there is no deadline.
const IDLE: u64 = 1_000_000;

/// How long it is until a deadline, in microseconds; 0 where that is past.
fn until(now: Moment, deadline: Deadline) -> u64
    ensures { result ≡ deadline - now }
{
    deadline.micros().saturating_sub(now.micros())
}

/// The length of the sleep between rounds in which nothing arrived, by whether something is open that no runner
/// reports, and by the deadline that is slept for.
///
/// A runner wakes the manager when a process starts or ends. Still, while processes are live a second is slept at most,
/// in case a wake was lost, for example by a runner of an older program; and 10 ms if no runner may report the event
/// that is awaited.
pub fn pause(is_open: bool, now: Moment, deadline: Option<Deadline>) -> Duration
    ensures { as_nanos result ≡ 1000 * slept 10000 is_open now deadline }
{
    let longest = match deadline {
        Some(deadline) => until(now, deadline).min(IDLE),
        None => IDLE,
    };
    let wait = if is_open { SOON } else { IDLE };
    Duration::from_micros(wait.min(longest))
}
