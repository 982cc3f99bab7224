//! The pending jobs of the units of a graph.
use crate::answers::WAITS_TO_START;
use std::process::Abort;
use um_asserts::{is_refused_at, same, unit};
use um_graph::Graph;
use um_jobs::Jobs;
use um_model::{DependencyKind, JobKind, JobState, Profile, UnitJobs};
use um_name::UnitName;
use um_tree::Tree;
use um_unit::Reading;

/// b comes after a and requires it.
const FILES: &[(&str, &str)] = &[
    (
        "lib/a.service",
        "[Unit]\nDefaultDependencies=no\n[Service]\nExecStart=/bin/a\n",
    ),
    (
        "lib/b.service",
        "[Unit]\nDefaultDependencies=no\nRequires=a.service\nAfter=a.service\n[Service]\nExecStart=/bin/b\n",
    ),
];

const WAITS_TO_STOP: UnitJobs = UnitJobs {
    stop: Some(JobState::Waiting),
    start: None,
};

/// The tree of the files.
fn tree(rt: &(impl AllocGlobal + Abort)) -> Tree {
    let mut tree = Tree::new(rt.alloc());
    for (path, said) in FILES {
        let put: Result<_, _> = tree.put(path, said);
        put.expect(rt, "no file");
    }
    tree
}

/// The graph of the tree and of these units besides.
fn graph_of(rt: &(impl AllocGlobal + Abort), tree: &Tree, extra: &[UnitName]) -> Box<Graph> {
    let reading = Reading {
        tree,
        profile: Profile::current(),
    };
    let graph = Graph::of(rt.alloc(), reading, extra).expect(rt, "no graph");
    Box::new(rt.alloc(), graph).expect(rt, "no memory")
}

/// The graph of the files: a is unit 0, and b is unit 1.
fn graph(rt: &(impl AllocGlobal + Abort)) -> Box<Graph> {
    graph_of(rt, &tree(rt), &[])
}

/// These jobs of the units of the graph.
fn jobs_of<'g>(
    rt: &(impl AllocGlobal + Abort),
    graph: &'g Graph,
    pending: &[UnitJobs],
) -> Box<Jobs<'g>> {
    let jobs = Jobs::of(rt.alloc(), graph, pending).expect(rt, "no memory");
    Box::new(rt.alloc(), jobs).expect(rt, "no memory")
}

/// Asserts that this is the job that begins next, also after a search that went over the units before it.
fn is_ready(rt: &impl Abort, jobs: &mut Jobs<'_>, wanted: Option<(usize, JobKind)>) {
    same!(rt, jobs.find_ready(), wanted);
    same!(rt, jobs.ready(), wanted);
    same!(rt, jobs.find_ready(), wanted);
}

/// The graph of a and b, which know nothing of each other.
fn unrelated(rt: &(impl AllocGlobal + Abort)) -> Box<Graph> {
    let extra = vec![in rt.alloc(); unit!(rt, "b.service"), unit!(rt, "a.service")];
    let extra = extra.expect(rt, "no memory");
    graph_of(rt, &Tree::new(rt.alloc()), &extra)
}

/// Asserts that the ready job of the least name begins, where a and b know nothing of each other and have no jobs at first.
fn begin_by_name(rt: &impl Abort, jobs: &mut Jobs<'_>) {
    is_ready(rt, jobs, None);
    jobs.install(&[UnitJobs::NONE, WAITS_TO_START]);
    is_ready(rt, jobs, Some((1, JobKind::Start)));
    jobs.install(&[WAITS_TO_START, WAITS_TO_START]);
    is_ready(rt, jobs, Some((0, JobKind::Start)));
    jobs.hold(0, true);
    is_ready(rt, jobs, Some((1, JobKind::Start)));
    jobs.finish(1, JobKind::Start);
    is_ready(rt, jobs, None);
    jobs.hold(0, false);
    is_ready(rt, jobs, Some((0, JobKind::Start)));
}

#[test]
fn the_ready_job_of_the_least_name_begins(rt: HostRuntime) {
    let graph = unrelated(&rt);
    let jobs = Jobs::new(rt.alloc(), graph.as_ref()).expect(&rt, "no memory");
    let mut jobs = Box::new(rt.alloc(), jobs).expect(&rt, "no memory");
    begin_by_name(&rt, jobs.as_mut());
}

/// Asserts that this job begins and that the other one is not ready before it has finished.
fn begin_in_turn(
    rt: &impl Abort,
    jobs: &mut Jobs<'_>,
    first: (usize, JobKind),
    second: (usize, JobKind),
) {
    is_ready(rt, jobs, Some(first));
    jobs.begin(first.0, first.1);
    is_ready(rt, jobs, None);
    jobs.finish(first.0, first.1);
    is_ready(rt, jobs, Some(second));
}

#[test]
fn a_running_job_still_blocks_those_behind_it(rt: HostRuntime) {
    let graph = graph(&rt);
    let mut jobs = jobs_of(&rt, graph.as_ref(), &[WAITS_TO_START, WAITS_TO_START]);
    begin_in_turn(&rt, jobs.as_mut(), (0, JobKind::Start), (1, JobKind::Start));
}

#[test]
fn a_stop_waits_for_that_of_the_unit_behind(rt: HostRuntime) {
    let graph = graph(&rt);
    let mut jobs = jobs_of(&rt, graph.as_ref(), &[WAITS_TO_STOP, WAITS_TO_STOP]);
    begin_in_turn(&rt, jobs.as_mut(), (1, JobKind::Stop), (0, JobKind::Stop));
}

/// Asserts that a cancel of the unit of this number, for b, is refused, where nothing waits.
fn is_not_cancelled(rt: &(impl AllocGlobal + Abort), jobs: &mut Jobs<'_>, of: usize, row: &str) {
    let cancelled = jobs.cancel(rt.alloc(), of, &unit!(rt, "b.service"));
    is_refused_at!(rt, cancelled, Some("E21 NoSuchJob b.service"), row);
}

/// Whether a cancel of the unit of this number, for b, is refused.
fn refuses_cancel(rt: &(impl AllocGlobal + Abort), jobs: &mut Jobs<'_>, of: usize) -> bool {
    let cancelled = jobs.cancel(rt.alloc(), of, &unit!(rt, "b.service"));
    let refused = cancelled.is_err();
    drop(cancelled);
    refused
}

/// Asserts that a cancel takes the waiting jobs out of these and nothing else, when a runs and b waits.
fn cancel_what_waits(rt: &(impl AllocGlobal + Abort), left: &mut Jobs<'_>) {
    let cancelled = left.cancel(rt.alloc(), 1, &unit!(rt, "b.service"));
    cancelled.expect(rt, "none waits");
    same!(rt, left.get(1), UnitJobs::NONE);
    is_not_cancelled(rt, left, 1, "cancelled twice");
    is_not_cancelled(rt, left, 2, "past the last unit");
    same!(rt, refuses_cancel(rt, left, 0), true);
    same!(rt, left.as_slice().len(), 2);
}

/// A copy of the jobs.
fn copy_of<'g>(rt: &(impl AllocGlobal + Abort), jobs: &Jobs<'g>) -> Box<Jobs<'g>> {
    let copy = jobs.copy().expect(rt, "no memory");
    Box::new(rt.alloc(), copy).expect(rt, "no memory")
}

#[test]
fn a_cancel_takes_out_what_waits_and_nothing_else(rt: HostRuntime) {
    let graph = graph(&rt);
    let mut jobs = jobs_of(&rt, graph.as_ref(), &[WAITS_TO_START, WAITS_TO_START]);
    jobs.as_mut().begin(0, JobKind::Start);
    cancel_what_waits(&rt, copy_of(&rt, jobs.as_ref()).as_mut());
    same!(&rt, jobs.as_ref().get(1), WAITS_TO_START);
}

#[test]
fn the_dependencies_and_the_order_are_listed(rt: HostRuntime) {
    let graph = graph(&rt);
    let edges = graph.as_ref().edges(rt.alloc()).expect(&rt, "no memory");
    same!(&rt, edges.as_slice(), &[(DependencyKind::Requires, 1, 0)]);
    let before = graph.as_ref().before(rt.alloc()).expect(&rt, "no memory");
    same!(&rt, before.as_slice(), &[(0, 1)]);
}

#[test]
fn a_unit_knows_the_first_one_that_it_comes_after(rt: HostRuntime) {
    let graph = graph(&rt);
    same!(&rt, graph.as_ref().first_after(0), None);
    same!(&rt, graph.as_ref().first_after(1), Some(0));
    same!(&rt, graph.as_ref().first_after(2), None);
}
