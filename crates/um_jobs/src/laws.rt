//! Theorems about ready jobs.

ghost use Rattle.std.specs.Prelude.{◌≡◌};
ghost use Rattle.um_graph.specs.Graph.{GraphView};
ghost use Rattle.um_jobs.specs.Jobs.{IsReadyIn, JobsView};
ghost use Rattle.um_model.specs.Jobs.{IsToldBefore, Job};
ghost use Rattle.um_model.specs.Least.{IsLeast};

/// At most one of the ready jobs is the least.
pub fn one_ready_job_is_the_least()
    ensures { (g : GraphView) (v : JobsView) (job other : Job)
        → IsLeast IsToldBefore (IsReadyIn g v) job → IsLeast IsToldBefore (IsReadyIn g v) other → job ≡ other }
{}
