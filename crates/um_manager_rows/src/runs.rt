//! Runners of real commands. A runner waits for its command, so a row waits for nothing else: no poll is needed.
use crate::orders::number;
use crate::places::{folder, holds, path_of, put, remove};
use std::fs;
use std::fs::{File, Files};
use std::net::Net;
use std::process::{Abort, Processes};
use std::test::Fail;
use std::time::Clock;
use um_asserts::{same, same_at, text};
use um_runner::{
    Claimant, Claiming, End, Folder, FolderFault, Job, Told, claim, pid_in, run, status_in,
};

/// Runs the words, of which the first `count` are entries, under this number.
fn runs(
    rt: &(impl AllocGlobal + Files<File = File> + Net + Processes + Clock + Abort),
    folder: &str,
    n: u64,
    count: usize,
    words: &[&str],
) -> bool {
    let alloc = rt.alloc();
    let mut texts = Vec::new(alloc);
    for word in words {
        let text = text!(rt, word);
        texts.push(text).expect(rt, "no memory");
    }
    let job = Job::of(count, texts.as_slice()).expect(rt, "no job");
    let mut host = Folder::of(rt, alloc, folder, number(rt, n));
    run(&mut host, &job).is_ok()
}

/// Asserts the content of the status file.
fn ended(
    rt: &(impl AllocGlobal + Files<File = File> + Abort),
    folder: &str,
    n: u64,
    wanted: Option<End>,
) {
    let end = status_in(rt, rt.alloc(), folder, number(rt, n)).expect(rt, "not read");
    same_at!(rt, end, wanted, n);
}

#[test]
fn a_code_and_a_signal_are_told(rt: HostRuntime) -> Result<(), Fail> {
    let place = folder(&rt, "ends")?;
    let place = place.as_str();
    same!(
        &rt,
        runs(&rt, place, 1, 0, &["/bin/sh", "-c", "exit 3"]),
        true,
    );
    holds(&rt, place, "1.claim", Some("runner\n"));
    holds(&rt, place, "1.status", Some("code 3\n"));
    same!(
        &rt,
        runs(&rt, place, 2, 0, &["/bin/sh", "-c", "kill -TERM $$"]),
        true,
    );
    holds(&rt, place, "2.status", Some("signal 15\n"));
    ended(&rt, place, 2, Some(End::Signal(15)));
    let told = pid_in(&rt, rt.alloc(), place, number(&rt, 2)).expect(&rt, "not read");
    same!(&rt, matches!(told, Told::Pid(_)), true);
    holds(&rt, place, "2.pid.new", None);
    holds(&rt, place, "2.status.new", None);
    remove(&rt, place);
    Ok(())
}

#[test]
fn what_cannot_be_executed_has_code_203_and_no_pid(rt: HostRuntime) -> Result<(), Fail> {
    let place = folder(&rt, "absent")?;
    let place = place.as_str();
    same!(&rt, runs(&rt, place, 1, 0, &["/nonexistent"]), true);
    holds(&rt, place, "1.status", Some("code 203\n"));
    holds(&rt, place, "1.pid", None);
    remove(&rt, place);
    Ok(())
}

#[test]
fn entries_are_set_over_the_environment(rt: HostRuntime) -> Result<(), Fail> {
    let place = folder(&rt, "entries")?;
    let place = place.as_str();
    let script = "test \"$MARK\" = 'a b' && test \"$EMPTY\" = '' && test \"$EQUALS\" = 'a=b'";
    let words = [
        "MARK=x",
        "EQUALS=a=b",
        "EMPTY=",
        "MARK=a b",
        "/bin/sh",
        "-c",
        script,
    ];
    same!(&rt, runs(&rt, place, 1, 4, &words), true);
    holds(&rt, place, "1.status", Some("code 0\n"));
    remove(&rt, place);
    Ok(())
}

#[test]
fn a_claimed_number_starts_nothing(rt: HostRuntime) -> Result<(), Fail> {
    let place = folder(&rt, "claimed")?;
    let place = place.as_str();
    let claiming = claim(&rt, rt.alloc(), place, number(&rt, 1), Claimant::Manager).expect(
        &rt, "no claim",
    );
    same!(&rt, claiming, Claiming::New);
    same!(
        &rt,
        runs(&rt, place, 1, 0, &["/bin/sh", "-c", "exit 3"]),
        true,
    );
    holds(&rt, place, "1.claim", Some("manager\n"));
    holds(&rt, place, "1.status", None);
    let again = claim(&rt, rt.alloc(), place, number(&rt, 1), Claimant::Manager).expect(
        &rt, "no claim",
    );
    same!(&rt, again, Claiming::Stands(Claimant::Manager));
    put(&rt, place, "2.claim", b"x");
    let other = claim(&rt, rt.alloc(), place, number(&rt, 2), Claimant::Manager).expect(
        &rt, "no claim",
    );
    same!(&rt, other, Claiming::Stands(Claimant::Runner));
    remove(&rt, place);
    Ok(())
}

/// A draft that was left over is the claim under another name.
#[test]
fn a_claim_that_stands_is_not_written_again(rt: HostRuntime) -> Result<(), Fail> {
    let place = folder(&rt, "drafts")?;
    let place = place.as_str();
    put(&rt, place, "1.claim", b"x");
    let standing = path_of(&rt, place, "1.claim");
    for draft in ["1.claim.manager", "1.claim.runner"] {
        let draft = path_of(&rt, place, draft);
        fs::hard_link(&rt, standing.as_str(), draft.as_str()).expect(&rt, "no link");
    }
    for claimant in [Claimant::Manager, Claimant::Runner] {
        let claiming = claim(&rt, rt.alloc(), place, number(&rt, 1), claimant).expect(
            &rt, "no claim",
        );
        same!(&rt, claiming, Claiming::Stands(Claimant::Runner));
        holds(&rt, place, "1.claim", Some("x"));
    }
    remove(&rt, place);
    Ok(())
}

#[test]
fn two_runners_of_a_number_start_one_child(rt: HostRuntime) -> Result<(), Fail> {
    let place = folder(&rt, "twice")?;
    let place = place.as_str();
    let script = format!(in rt.alloc(); "echo ran >>{place}/ran").expect(&rt, "no memory");
    let words = ["/bin/sh", "-c", script.as_str()];
    same!(&rt, runs(&rt, place, 1, 0, &words), true);
    same!(&rt, runs(&rt, place, 1, 0, &words), true);
    holds(&rt, place, "ran", Some("ran\n"));
    remove(&rt, place);
    Ok(())
}

#[test]
fn odd_files_are_read_safely(rt: HostRuntime) -> Result<(), Fail> {
    let place = folder(&rt, "odd")?;
    let place = place.as_str();
    ended(&rt, place, 1, None);
    put(&rt, place, "1.status", b"");
    put(&rt, place, "2.status", [b'7'; 1_000_000].as_slice());
    put(
        &rt,
        place,
        "3.status",
        b"code 3\n and more, up to what is read and past it",
    );
    fs::create_dir(&rt, path_of(&rt, place, "4.status")).expect(&rt, "no folder");
    for n in 1..5 {
        ended(&rt, place, n, Some(End::Lost));
    }
    put(&rt, place, "1.pid", b"12a");
    let told = pid_in(&rt, rt.alloc(), place, number(&rt, 1)).expect(&rt, "not read");
    same!(&rt, told, Told::NoPid);
    let told = pid_in(&rt, rt.alloc(), place, number(&rt, 2)).expect(&rt, "not read");
    same!(&rt, told, Told::Nothing);
    remove(&rt, place);
    Ok(())
}

#[test]
fn nothing_is_started_without_the_folder(rt: HostRuntime) -> Result<(), Fail> {
    let place = folder(&rt, "gone")?;
    let place = place.as_str();
    let script = format!(in rt.alloc(); "echo ran >{place}/ran").expect(&rt, "no memory");
    let gone = path_of(&rt, place, "gone");
    let words = ["/bin/sh", "-c", script.as_str()];
    same!(&rt, runs(&rt, gone.as_str(), 1, 0, &words), false);
    holds(&rt, place, "ran", None);
    let faulty = claim(
        &rt,
        rt.alloc(),
        gone.as_str(),
        number(&rt, 1),
        Claimant::Manager,
    );
    same!(&rt, matches!(faulty, Err(FolderFault::System(_))), true);
    remove(&rt, place);
    Ok(())
}
