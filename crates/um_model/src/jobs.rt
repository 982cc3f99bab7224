//! The pending jobs of one unit.

ghost use Rattle.std.specs.Prelude.{◌≡◌};
ghost use Rattle.um_model.specs.Jobs.{has_job, job_kind_text, job_state_text, with_job};

/// The kind of a job (systemctl(1), "list-jobs").
#[derive(Clone, Copy, Debug, PartialEq, Eq)]
pub enum JobKind {
    Stop,
    Start,
}

/// How far a job is.
#[derive(Clone, Copy, Debug, PartialEq, Eq)]
pub enum JobState {
    Waiting,
    Running,
}

impl JobKind {
    /// The word for the kind of the job.
    pub fn text(self) -> &'static str
        ensures { result.now ≡ job_kind_text self }
    {
        match self {
            JobKind::Stop => "stop",
            JobKind::Start => "start",
        }
    }
}

impl JobState {
    /// The word for how far the job is.
    pub fn text(self) -> &'static str
        ensures { result.now ≡ job_state_text self }
    {
        match self {
            JobState::Waiting => "waiting",
            JobState::Running => "running",
        }
    }
}

/// The pending jobs of one unit: its stop job and its start job, if there is one.
#[derive(Clone, Copy, Debug, PartialEq, Eq)]
pub struct UnitJobs {
    pub stop: Option<JobState>,
    pub start: Option<JobState>,
}

impl UnitJobs {
    /// No job is pending.
    pub const NONE: UnitJobs = UnitJobs {
        stop: None,
        start: None,
    };

    /// Whether a job is pending.
    pub fn has_job(&self) -> bool
        ensures { result ≡ has_job self.now }
    {
        self.stop.is_some() || self.start.is_some()
    }

    /// The jobs with the one of this kind in that state.
    pub fn with_job(self, kind: JobKind, state: JobState) -> UnitJobs
        ensures { result ≡ with_job kind state self }
    {
        match kind {
            JobKind::Stop => UnitJobs {
                stop: Some(state),
                ..self
            },
            JobKind::Start => UnitJobs {
                start: Some(state),
                ..self
            },
        }
    }
}
