//! The rows of the trial, a function each. Each prints what it found.

use crate::orders::Orders;
use anyhow::Context;
use std::alloc::Global;
use std::time::Duration;
use std::{env, fs, thread};
use um_children::{
    Children, End, FakeChildren, Fate, NextNumber, ProcessNumber, RunnerDir, Signal,
};
use um_keeper::SpawnOrder;

/// How often a fate is queried, every 10 ms.
const POLLS: u32 = 500;

/// How often the trial looks whether a process starts that must not.
const FEW_POLLS: u32 = 50;

/// The folder of the runners' files.
const FOLDER: &str = "processes";

/// Another one, for numbers that two stores give.
const TWICE: &str = "twice";

/// A third one, for a start without a runner.
const ALONE: &str = "alone";

/// A fourth one, for a process that only its files report.
const SEEN: &str = "seen";

type Dir<'a> = RunnerDir<'a, HostRuntime>;

fn number(n: u64) -> anyhow::Result<ProcessNumber> {
    ProcessNumber::new(n).context("no process number")
}

/// Children over the folder, with this program as the runner.
fn open<'a>(rt: &'a HostRuntime, folder: &str) -> anyhow::Result<Box<Dir<'a>>> {
    let program = env::current_exe(rt)?;
    let children = RunnerDir::open(rt, rt.alloc(), program.as_str(), folder)?;
    Box::new(rt.alloc(), children).ok().context("no memory")
}

/// The fate of the number once it has ended, or, if that is enough, once it runs; else the last fate queried.
fn fate_of(
    rt: &HostRuntime,
    children: &mut Dir<'_>,
    number: ProcessNumber,
    to_its_end: bool,
) -> anyhow::Result<Fate> {
    let mut fate = children.fate(number, false)?;
    for _ in 0..POLLS {
        match fate {
            Fate::Ended(_) => return Ok(fate),
            Fate::Starting => {}
            _ if !to_its_end => return Ok(fate),
            _ => {}
        }
        thread::sleep(rt, Duration::from_millis(10));
        fate = children.fate(number, false)?;
    }
    Ok(fate)
}

/// When a process is signalled.
#[derive(Clone, Copy)]
enum Signalled {
    Never,
    BeforeItStarts,
    WhileItRuns,
}

/// A name, the lines of a service, and when it is signalled.
type Service = (&'static str, &'static str, Signalled);

/// Carries out an order, and signals its process.
fn spawn(
    rt: &HostRuntime,
    children: &mut Dir<'_>,
    order: Box<SpawnOrder>,
    signalled: Signalled,
) -> anyhow::Result<()> {
    let number = order.as_ref().number();
    if let Signalled::BeforeItStarts = signalled {
        children.signal(number, Signal::Term)?;
    }
    children.spawn(Box::into_inner(order))?;
    if let Signalled::WhileItRuns = signalled {
        fate_of(rt, children, number, false)?;
        children.signal(number, Signal::Term)?;
    }
    Ok(())
}

/// Runs a service with these lines to its end, and prints that under the name.
fn row(
    rt: &HostRuntime,
    orders: &mut Orders,
    children: &mut Dir<'_>,
    service: Service,
) -> anyhow::Result<()> {
    let (name, lines, signalled) = service;
    let order = orders.order(lines)?;
    let number = order.as_ref().number();
    spawn(rt, children, order, signalled)?;
    let fate = fate_of(rt, children, number, true)?;
    println!(rt; "{name}: {fate:?}")?;
    Ok(())
}

fn is_there(rt: &HostRuntime, path: &str) -> bool {
    fs::symlink_metadata(rt, path).is_ok()
}

/// Whether something stands at the path, or appears there.
fn comes(rt: &HostRuntime, path: &str) -> bool {
    for _ in 0..FEW_POLLS {
        if is_there(rt, path) {
            return true;
        }
        thread::sleep(rt, Duration::from_millis(10));
    }
    is_there(rt, path)
}

/// Waits until nothing stands at the path.
fn wait_until_gone(rt: &HostRuntime, path: &str) {
    for _ in 0..POLLS {
        if !is_there(rt, path) {
            return;
        }
        thread::sleep(rt, Duration::from_millis(10));
    }
}

const EXIT: &str = "ExecStart=/bin/sh -c 'exit 3'";

const NOT_THERE: &str = "ExecStart=/nonexistent";

const ENVIRONMENT: &str =
    "Environment=\"MARK=a b\"\nExecStart=/bin/sh -c 'test \"$MARK\" = \"a b\"'";

const SLEEP: &str = "ExecStart=/bin/sleep 9";

/// Processes 1 and 2.
const FIRST: &[Service] = &[
    ("exit 3", EXIT, Signalled::Never),
    ("not there", NOT_THERE, Signalled::Never),
];

/// Processes 3 to 5.
const OTHERS: &[Service] = &[
    ("environment", ENVIRONMENT, Signalled::Never),
    ("signalled", SLEEP, Signalled::WhileItRuns),
    (
        "signalled before it started",
        SLEEP,
        Signalled::BeforeItStarts,
    ),
];

/// Runs services, one after another.
fn each(
    rt: &HostRuntime,
    orders: &mut Orders,
    children: &mut Dir<'_>,
    services: &[Service],
) -> anyhow::Result<()> {
    for service in services {
        row(rt, orders, children, *service)?;
    }
    Ok(())
}

/// Processes 1 to 5 end, and their fates say so: the fourth is signalled while it runs, the fifth before it is started.
fn ends(rt: &HostRuntime, orders: &mut Orders, children: &mut Dir<'_>) -> anyhow::Result<()> {
    each(rt, orders, children, FIRST)?;
    let pid = is_there(rt, "processes/2.pid");
    println!(rt; "its pid file: {pid}")?;
    each(rt, orders, children, OTHERS)
}

/// Waits until there is news, or, if the fate of a number is queried each time, until there is none; returns whether there is any.
fn wait_for_news(
    rt: &HostRuntime,
    children: &mut Dir<'_>,
    asked: Option<ProcessNumber>,
) -> anyhow::Result<bool> {
    for _ in 0..POLLS {
        if let Some(number) = asked {
            children.fate(number, false)?;
        }
        if children.has_news() == asked.is_none() {
            return Ok(asked.is_none());
        }
        thread::sleep(rt, Duration::from_millis(10));
    }
    Ok(asked.is_some())
}

/// The news of a process that only its files report, from its start to its end.
fn is_news(rt: &HostRuntime, children: &mut Dir<'_>, number: ProcessNumber) -> anyhow::Result<()> {
    let starting = children.has_news();
    fate_of(rt, children, number, false)?;
    let running = wait_for_news(rt, children, Some(number))?;
    let ended = wait_for_news(rt, children, None)?;
    let fate = fate_of(rt, children, number, true)?;
    println!(rt;
        "news at the start: {starting}, while it runs: {running}, at its end: {ended}; {fate:?}"
    )?;
    Ok(())
}

/// A process is news from its start until it runs, and once it has ended.
fn news(rt: &HostRuntime, alloc: Global) -> anyhow::Result<()> {
    let order = Orders::new(alloc)?.order("ExecStart=/bin/sleep 3")?;
    let number = order.as_ref().number();
    let mut children = open(rt, SEEN)?;
    children.spawn(Box::into_inner(order))?;
    is_news(rt, children.as_mut(), number)
}

/// Whether something stands at the path `late`, or appears there, after the start of this order.
fn starts_late(
    rt: &HostRuntime,
    children: &mut Dir<'_>,
    order: Box<SpawnOrder>,
) -> anyhow::Result<bool> {
    children.spawn(Box::into_inner(order))?;
    Ok(comes(rt, "late"))
}

const LATE: &str = "ExecStart=/bin/sh -c 'echo x >>late'";

/// A number that the manager has claimed: a runner that finds it starts nothing, nor does one that comes once it was forgotten.
fn claimed(
    rt: &HostRuntime,
    orders: &mut Orders,
    others: &mut Orders,
    children: &mut Dir<'_>,
) -> anyhow::Result<()> {
    let first = orders.order(LATE)?;
    let number = first.as_ref().number();
    let fate = children.fate(number, true)?;
    let started = starts_late(rt, children, first)?;
    let later = children.fate(number, true)?;
    children.forget(number)?;
    let second = others.order(LATE)?;
    let same = number == second.as_ref().number();
    let started = starts_late(rt, children, second)? || started;
    println!(rt; "claimed: {fate:?}, then {later:?}; the same number: {same}; started: {started}")?;
    Ok(())
}

const TWO: &str = "ExecStart=/bin/sh -c 'echo x >>two; sleep 1'";

/// A number that two runners claim. The second one's entries are handed over once the first has taken its own, whose place they would take.
fn claimed_twice(
    rt: &HostRuntime,
    orders: &mut Orders,
    others: &mut Orders,
    children: &mut Dir<'_>,
) -> anyhow::Result<()> {
    let first = orders.order(TWO)?;
    let number = first.as_ref().number();
    let second = others.order(TWO)?;
    let same = number == second.as_ref().number();
    let entries = format!(in rt.alloc(); "{TWICE}/{}.env", number.get())?;
    children.spawn(Box::into_inner(first))?;
    wait_until_gone(rt, entries.as_str());
    children.spawn(Box::into_inner(second))?;
    let fate = fate_of(rt, children, number, true)?;
    let size = fs::metadata(rt, "two")?.len();
    println!(rt; "two runners: {fate:?}; the same number: {same}; bytes written: {size}")?;
    Ok(())
}

/// Both, over these stores.
fn claimed_of(
    rt: &HostRuntime,
    orders: &mut Orders,
    others: &mut Orders,
    children: &mut Dir<'_>,
) -> anyhow::Result<()> {
    claimed(rt, orders, others, children)?;
    claimed_twice(rt, orders, others, children)?;
    let failures = children.failures();
    println!(rt; "failures: {failures}")?;
    Ok(())
}

/// Who claims a number first has it, if two stores give the number: a runner that finds a claim of the manager starts nothing,
/// also one that comes after the number was forgotten; two runners start one child.
fn claims(rt: &HostRuntime, alloc: Global) -> anyhow::Result<()> {
    let mut children = open(rt, TWICE)?;
    let mut orders = Orders::new(alloc)?;
    let mut others = Orders::new(alloc)?;
    claimed_of(rt, &mut orders, &mut others, children.as_mut())
}

/// Prints the result of a start through a runner that isn't there.
fn starts_none(
    rt: &HostRuntime,
    children: &mut Dir<'_>,
    order: Box<SpawnOrder>,
) -> anyhow::Result<()> {
    let number = order.as_ref().number();
    let spawned = children.spawn(Box::into_inner(order));
    let fate = children.fate(number, true)?;
    let failures = children.failures();
    println!(rt; "no runner: {spawned:?}, then {fate:?}; failures: {failures}")?;
    Ok(())
}

/// A start through a runner that isn't there is refused, and the number is the manager's from then on.
fn no_runner(rt: &HostRuntime, alloc: Global) -> anyhow::Result<()> {
    let order = Orders::new(alloc)?.order("ExecStart=/bin/true")?;
    let children = RunnerDir::open(rt, alloc, "/nonexistent", ALONE)?;
    let mut children = Box::new(alloc, children).ok().context("no memory")?;
    starts_none(rt, children.as_mut(), order)
}

/// A number that is forgotten leaves nothing.
fn forgets(rt: &HostRuntime, children: &mut Dir<'_>) -> anyhow::Result<()> {
    children.forget(number(1)?)?;
    let left = is_there(rt, "processes/1.status") || is_there(rt, "processes/1.claim");
    let next = NextNumber::new(9).context("no next number")?;
    children.forget_others(&[number(2)?], next)?;
    let two = is_there(rt, "processes/2.status");
    let three = is_there(rt, "processes/3.status");
    let claim = is_there(rt, "twice/1.claim");
    println!(rt; "left of 1: {left}; 2: {two}, 3: {three}; the manager's claim: {claim}")?;
    Ok(())
}

/// Numbers, each with a file of another form.
const ODD: &[(u64, &str, &str)] = &[
    (20, "20.status", ""),
    (21, "21.status", "code 256\n"),
    (22, "22.status", "signal 9"),
    (23, "23.status", "signal 9\n"),
    (24, "24.claim", "x"),
    (25, "25.claim", "manager\n"),
    (26, "26.pid", "12a\n"),
];

/// The fate of a number with a file of another form, and whether it can be signalled.
fn odd_file(
    rt: &HostRuntime,
    children: &mut Dir<'_>,
    odd: &(u64, &str, &str),
) -> anyhow::Result<()> {
    let (n, name, text) = *odd;
    let path = format!(in rt.alloc(); "{FOLDER}/{name}")?;
    fs::write(rt, path.as_str(), text)?;
    let fate = children.fate(number(n)?, true)?;
    let signal = children.signal(number(n)?, Signal::Kill);
    println!(rt; "{name} {text:?}: {fate:?}, signal {signal:?}")?;
    Ok(())
}

/// Statuses that are no files: a directory, and a link.
fn no_files(rt: &HostRuntime, children: &mut Dir<'_>) -> anyhow::Result<()> {
    fs::create_dir(rt, "processes/27.status")?;
    let fate = children.fate(number(27)?, true)?;
    std::os::unix::fs::symlink(rt, "/proc/self/stat", "processes/28.status")?;
    let linked = children.fate(number(28)?, true)?;
    println!(rt; "a directory: {fate:?}, a link: {linked:?}")?;
    Ok(())
}

/// Files of another form.
fn odd_files(rt: &HostRuntime, children: &mut Dir<'_>) -> anyhow::Result<()> {
    for odd in ODD {
        odd_file(rt, children, odd)?;
    }
    no_files(rt, children)?;
    let bytes = vec![in rt.alloc(); 255u8; 1 << 20]?;
    fs::write(rt, "processes/29.status", bytes.as_slice())?;
    let large = children.fate(number(29)?, true)?;
    println!(rt; "a megabyte that is no text: {large:?}")?;
    Ok(())
}

/// The fates that children in memory report of a process that was never started.
fn told_in_memory(rt: &HostRuntime, children: &mut FakeChildren) -> anyhow::Result<()> {
    children.ends(number(2)?, End::Code(3))?;
    let starting = children.fate(number(2)?, false)?;
    let absent = children.fate(number(2)?, true)?;
    children.fuse(2);
    children.signal(number(2)?, Signal::Term)?;
    let failed = children.fate(number(2)?, true);
    let copy = children.copy(rt.alloc())?;
    let (calls, failures) = (copy.calls().len(), copy.failures());
    println!(rt;
        "in memory: {starting:?}, {absent:?}, {failed:?}; calls: {calls}, failures: {failures}"
    )?;
    Ok(())
}

/// All rows of children in a folder.
fn in_folder(rt: &HostRuntime, orders: &mut Orders, children: &mut Dir<'_>) -> anyhow::Result<()> {
    ends(rt, orders, children)?;
    claims(rt, rt.alloc())?;
    no_runner(rt, rt.alloc())?;
    news(rt, rt.alloc())?;
    forgets(rt, children)?;
    odd_files(rt, children)
}

/// Plays all rows; each prints what it found.
pub fn rows(rt: &HostRuntime, alloc: Global) -> anyhow::Result<()> {
    let mut children = open(rt, FOLDER)?;
    let mut orders = Orders::new(alloc)?;
    in_folder(rt, &mut orders, children.as_mut())?;
    told_in_memory(rt, &mut FakeChildren::new(alloc))?;
    let failures = children.failures();
    println!(rt; "failures: {failures}")?;
    Ok(())
}
