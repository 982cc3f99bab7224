//! The parts of a unit in the state, and its profile: choices by their tags, how a process ended, a start window, and
//! the unit.
ghost use Rattle.um_model.specs.InputSpellings.{mode_tag, modes};
ghost use Rattle.um_model.specs.Spellings.{FitCounted, FitEnd, FitUnit, counted_at, counted_spelling, end_at, end_spelling, unit_at, unit_of, unit_spelling};
ghost use Rattle.um_model.specs.Spellings.{job_state_tag, job_states, kind_tag, kinds, profile_of, profile_tag, result_tag, results, sub_states, sub_tag};
ghost use Rattle.um_model.proofs.InputSpellingsLaws.{mode_again, mode_back};
ghost use Rattle.um_model.proofs.SpellingsLaws.{canonical_counted, canonical_end, canonical_unit};
ghost use Rattle.um_model.proofs.SpellingsLaws.{job_state_again, job_state_back, kind_again, kind_back, profile_again, profile_back, result_again, result_back, sub_again, sub_back};
ghost use Rattle.um_model.specs.declared.limit.Counted as counted;
ghost use Rattle.um_model.specs.declared.service.End as end;
ghost use Rattle.um_model.specs.declared.service.UnitState as unit;
ghost use Rattle.std.specs.List.{slice_get};
ghost use Rattle.std.specs.Prelude.{◌≡◌};

use crate::canon::Canon;
use crate::choices::Tagged;
use std::alloc::{AllocError, Global};
use um_model::{
    Counted, Deadline, End, JobKind, JobMode, JobState, Moment, ProcessNumber, Profile, SubState,
    UnitResult, UnitState,
};

impl Tagged for SubState {
    ghost tag_of = { sub_tag };

    ghost with_tag = { slice_get sub_states };

    fn tag(&self) -> u8 {
        match self {
            SubState::Dead => 0,
            SubState::Start => 1,
            SubState::Running => 2,
            SubState::Exited => 3,
            SubState::Stop => 4,
            SubState::StopSigterm => 5,
            SubState::StopSigkill => 6,
            SubState::Failed => 7,
            SubState::AutoRestart => 8,
            SubState::Active => 9,
            SubState::StartPre => 10,
        }
    }

    fn from_tag(tag: u8) -> Option<SubState> {
        match tag {
            0 => Some(SubState::Dead),
            1 => Some(SubState::Start),
            2 => Some(SubState::Running),
            3 => Some(SubState::Exited),
            4 => Some(SubState::Stop),
            5 => Some(SubState::StopSigterm),
            6 => Some(SubState::StopSigkill),
            7 => Some(SubState::Failed),
            8 => Some(SubState::AutoRestart),
            9 => Some(SubState::Active),
            10 => Some(SubState::StartPre),
            _ => None,
        }
    }

    ghost again = { sub_again };

    ghost back = { sub_back };
}

impl Tagged for UnitResult {
    ghost tag_of = { result_tag };

    ghost with_tag = { slice_get results };

    fn tag(&self) -> u8 {
        match self {
            UnitResult::Success => 0,
            UnitResult::ExitCode => 1,
            UnitResult::Signal => 2,
            UnitResult::Timeout => 3,
            UnitResult::Lost => 4,
            UnitResult::StartLimitHit => 5,
            UnitResult::Dependency => 6,
            UnitResult::NotLoaded => 7,
            UnitResult::Resources => 8,
        }
    }

    fn from_tag(tag: u8) -> Option<UnitResult> {
        match tag {
            0 => Some(UnitResult::Success),
            1 => Some(UnitResult::ExitCode),
            2 => Some(UnitResult::Signal),
            3 => Some(UnitResult::Timeout),
            4 => Some(UnitResult::Lost),
            5 => Some(UnitResult::StartLimitHit),
            6 => Some(UnitResult::Dependency),
            7 => Some(UnitResult::NotLoaded),
            8 => Some(UnitResult::Resources),
            _ => None,
        }
    }

    ghost again = { result_again };

    ghost back = { result_back };
}

impl Tagged for JobKind {
    ghost tag_of = { kind_tag };

    ghost with_tag = { slice_get kinds };

    fn tag(&self) -> u8 {
        match self {
            JobKind::Stop => 0,
            JobKind::Start => 1,
        }
    }

    fn from_tag(tag: u8) -> Option<JobKind> {
        match tag {
            0 => Some(JobKind::Stop),
            1 => Some(JobKind::Start),
            _ => None,
        }
    }

    ghost again = { kind_again };

    ghost back = { kind_back };
}

impl Tagged for JobState {
    ghost tag_of = { job_state_tag };

    ghost with_tag = { slice_get job_states };

    fn tag(&self) -> u8 {
        match self {
            JobState::Waiting => 0,
            JobState::Running => 1,
        }
    }

    fn from_tag(tag: u8) -> Option<JobState> {
        match tag {
            0 => Some(JobState::Waiting),
            1 => Some(JobState::Running),
            _ => None,
        }
    }

    ghost again = { job_state_again };

    ghost back = { job_state_back };
}

impl Tagged for JobMode {
    ghost tag_of = { mode_tag };

    ghost with_tag = { slice_get modes };

    fn tag(&self) -> u8 {
        match self {
            JobMode::Replace => 0,
            JobMode::Fail => 1,
        }
    }

    fn from_tag(tag: u8) -> Option<JobMode> {
        match tag {
            0 => Some(JobMode::Replace),
            1 => Some(JobMode::Fail),
            _ => None,
        }
    }

    ghost again = { mode_again };

    ghost back = { mode_back };
}

impl Tagged for Profile {
    ghost tag_of = { profile_tag };

    ghost with_tag = { profile_of };

    fn tag(&self) -> u8 {
        match self {
            Profile::One => 1,
            Profile::Two => 2,
        }
    }

    fn from_tag(tag: u8) -> Option<Profile> {
        match tag {
            1 => Some(Profile::One),
            2 => Some(Profile::Two),
            _ => None,
        }
    }

    ghost again = { profile_again };

    ghost back = { profile_back };
}

impl Canon for End {
    ghost Value = { end.End };

    ghost value = { λ e. e };

    ghost fits = { FitEnd };

    ghost spelling = { end_spelling };

    ghost reading = { end_at };

    fn put(&self, out: &mut Vec<u8>) -> Result<(), AllocError> {
        match self {
            End::Code(code) => out.extend_from_slice(&[0, *code]),
            End::Signal(number) => out.extend_from_slice(&[1, *number]),
            End::Lost => out.extend_from_slice(&[2]),
        }
    }

    fn get(_alloc: Global, bytes: &[u8]) -> Result<Option<(End, usize)>, AllocError> {
        match bytes {
            [0, code, ..] => Ok(Some((End::Code(*code), 2))),
            [1, number, ..] => Ok(Some((End::Signal(*number), 2))),
            [2, ..] => Ok(Some((End::Lost, 1))),
            _ => Ok(None),
        }
    }

    ghost canonical = { canonical_end };
}

impl Canon for Counted {
    ghost Value = { counted.Counted };

    ghost value = { λ c. c };

    ghost fits = { FitCounted };

    ghost spelling = { counted_spelling };

    ghost reading = { counted_at };

    fn put(&self, out: &mut Vec<u8>) -> Result<(), AllocError> {
        self.began.put(out)?;
        self.count.put(out)?;
        Ok(())
    }

    fn get(alloc: Global, bytes: &[u8]) -> Result<Option<(Counted, usize)>, AllocError> {
        match <(Moment, u32)>::get(alloc, bytes)? {
            Some(((began, count), n)) => Ok(Some((Counted { began, count }, n))),
            None => Ok(None),
        }
    }

    ghost canonical = { canonical_counted };
}

/// The fields of a unit, in the order of their bytes.
type Fields = (
    SubState,
    (
        UnitResult,
        (
            Option<ProcessNumber>,
            (
                Option<ProcessNumber>,
                (
                    u32,
                    (Option<Deadline>, (Option<Counted>, (bool, Option<End>))),
                ),
            ),
        ),
    ),
);

fn fields_of(unit: &UnitState) -> Fields
    ensures { unit_of result ≡ unit.now }
{
    let last = (unit.window, (unit.stop_asked, unit.last));
    let later = (unit.control, (unit.index, (unit.deadline, last)));
    (unit.sub, (unit.result, (unit.main, later)))
}

fn unit_of(fields: Fields) -> UnitState
    ensures { result ≡ unit_of fields }
{
    let (sub, (result, (main, later))) = fields;
    let (control, (index, (deadline, (window, (stop_asked, last))))) = later;
    UnitState {
        sub,
        result,
        main,
        control,
        index,
        deadline,
        window,
        stop_asked,
        last,
    }
}

impl Canon for UnitState {
    ghost Value = { unit.UnitState };

    ghost value = { λ u. u };

    ghost fits = { FitUnit };

    ghost spelling = { unit_spelling };

    ghost reading = { unit_at };

    fn put(&self, out: &mut Vec<u8>) -> Result<(), AllocError> {
        fields_of(self).put(out)
    }

    fn get(alloc: Global, bytes: &[u8]) -> Result<Option<(UnitState, usize)>, AllocError> {
        match Fields::get(alloc, bytes)? {
            Some((fields, n)) => Ok(Some((unit_of(fields), n))),
            None => Ok(None),
        }
    }

    ghost canonical = { canonical_unit };
}
