//! The words that have a sentence.

ghost use Rattle.std.specs.Prelude.{◌≡◌, map};
ghost use Rattle.std.specs.Map.{lookup};
ghost use Rattle.std.specs.Str.{bytes_eq};
ghost use Rattle.um_sentences.specs.Sentences as model;

use um_model::UnitResult;

/// The kind of a word in a reply: a reason of `E6 BadSetting`, or the result of a unit.
#[derive(Clone, Copy, Debug, PartialEq, Eq)]
pub enum Topic {
    /// `setting`: a key that no unit may have is given a value.
    Setting,
    /// `type`: a `Type=` that isn't served.
    ServiceType,
    /// `exec-count`: too many commands, or too few.
    ExecCount,
    /// `restart`: a oneshot would be started again after a success.
    Restart,
    /// `template`: a template is to be started.
    Template,
    /// `default-instance`: a template is to be enabled.
    DefaultInstance,
    /// The outcome of a unit.
    Outcome(UnitResult),
}

/// The words, each with its topic.
const TOPICS: [(&str, Topic); 15] = [
    ("setting", Topic::Setting),
    ("type", Topic::ServiceType),
    ("exec-count", Topic::ExecCount),
    ("restart", Topic::Restart),
    ("template", Topic::Template),
    ("default-instance", Topic::DefaultInstance),
    ("success", Topic::Outcome(UnitResult::Success)),
    ("exit-code", Topic::Outcome(UnitResult::ExitCode)),
    ("signal", Topic::Outcome(UnitResult::Signal)),
    ("timeout", Topic::Outcome(UnitResult::Timeout)),
    ("lost", Topic::Outcome(UnitResult::Lost)),
    ("start-limit-hit", Topic::Outcome(UnitResult::StartLimitHit)),
    ("dependency", Topic::Outcome(UnitResult::Dependency)),
    ("not-loaded", Topic::Outcome(UnitResult::NotLoaded)),
    ("resources", Topic::Outcome(UnitResult::Resources)),
];

/// The words for the reasons of E6.
pub(crate) const REASONS: [(&str, Topic); 6] = [
    ("setting", Topic::Setting),
    ("type", Topic::ServiceType),
    ("exec-count", Topic::ExecCount),
    ("restart", Topic::Restart),
    ("template", Topic::Template),
    ("default-instance", Topic::DefaultInstance),
];

/// The topic of the word among these.
fn topic_among(known: &[(&str, Topic)], word: &str) -> Option<Topic>
    ensures { result ≡ lookup (bytes_eq word.now) (map (λ k. (k.0.now, k.1)) known.now) }
{
    for (name, topic) in known {
        if word == *name {
            return Some(*topic);
        }
    }
    None
}

/// The topic of this word. `None` if a word has no sentence.
pub fn topic_named(word: &str) -> Option<Topic>
    ensures { result ≡ model.topic_named word.now }
{
    topic_among(&TOPICS, word)
}

/// The outcome of a unit, as a sentence.
fn result_sentence(outcome: UnitResult) -> &'static str
    ensures { result.now ≡ model.result_sentence outcome }
{
    match outcome {
        UnitResult::Success => "nothing has failed.",
        UnitResult::ExitCode =>
            "a process ended with a code that counts as a failure: 'umd status UNIT' tells the code, 'umd logs UNIT' what it printed.",
        UnitResult::Signal =>
            "a signal that counts as a failure ended a process: 'umd status UNIT' tells which.",
        UnitResult::Timeout =>
            "a start or a stop took longer than TimeoutStartSec= or TimeoutStopSec= allows.",
        UnitResult::Lost =>
            "nobody can tell how a process ended, as when its files in the folder of processes are gone.",
        UnitResult::StartLimitHit =>
            "it was started more often than StartLimitBurst= allows within StartLimitIntervalSec=: mend the cause, then ask reset-failed and start.",
        UnitResult::Dependency =>
            "its start was given up because a unit that it requires failed to start: 'umd status' tells which one failed.",
        UnitResult::NotLoaded =>
            "it couldn't be loaded as its start began: 'umd status UNIT' says why.",
        UnitResult::Resources => "no process number was left to start it with.",
    }
}

impl Topic {
    /// Its meaning to a person, in one sentence.
    pub fn sentence(self) -> &'static str
        ensures { result.now ≡ model.topic_sentence self }
    {
        match self {
            Topic::Setting =>
                "a key has a value that umd doesn't serve and that a start can't ignore: take the line out; 'umd verify' tells which line it is.",
            Topic::ServiceType => "the Type= isn't served: simple, exec and oneshot are.",
            Topic::ExecCount =>
                "a service has exactly one command in ExecStart=; of Type=oneshot it has one or more, or none with RemainAfterExit=yes and a command in ExecStop=.",
            Topic::Restart =>
                "a service of Type=oneshot isn't started again behind a success: neither Restart=always nor Restart=on-success is served with it.",
            Topic::Template =>
                "a template isn't started: name an instance of it, as name@instance.service.",
            Topic::DefaultInstance =>
                "a template without a fit DefaultInstance= isn't enabled: name an instance of it, as name@instance.service.",
            Topic::Outcome(outcome) => result_sentence(outcome),
        }
    }
}
