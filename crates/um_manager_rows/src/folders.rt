//! Children through runners, over a folder of files that a test has put there. No process is started.
use crate::orders::{next, number, told};
use crate::places::{folder, put, remove};
use std::fs::{File, Files, Permissions};
use std::os::unix::fs::PermissionsExt;
use std::process::{Abort, Processes};
use std::test::Fail;
use std::time::{Clock, Duration, SystemTime};
use std::{fs, process, thread};
use um_asserts::{same, same_at};
use um_children::{ChildFault, Children, End, Fate, OpenFault, RunnerDir, Signal};

/// Asserts that a file stands in the folder, or that none does.
fn stands(rt: &(impl AllocGlobal + Files + Abort), folder: &str, name: &str, wanted: bool) {
    let path = format!(in rt.alloc(); "{folder}/{name}").expect(rt, "no memory");
    let found = fs::exists(rt, path.as_str()).expect(rt, "not looked");
    same_at!(rt, found, wanted, name);
}

/// Asserts that a file of the folder holds these bytes.
fn holds(
    rt: &(impl AllocGlobal + Files<File = File> + Abort),
    folder: &str,
    name: &str,
    wanted: &[u8],
) {
    let path = format!(in rt.alloc(); "{folder}/{name}").expect(rt, "no memory");
    let bytes = fs::read(rt, path.as_str()).expect(rt, "not read");
    same!(rt, bytes.as_slice(), wanted);
}

/// The children of a folder, in a box, which a row drops in one call.
fn children<'a, R: AllocGlobal + Files + Processes + Clock + Abort>(
    rt: &'a R,
    folder: &str,
) -> Box<RunnerDir<'a, R>> {
    let children = RunnerDir::open(rt, rt.alloc(), "/nonexistent", folder).expect(rt, "no folder");
    Box::new(rt.alloc(), children).expect(rt, "no memory")
}

/// Kills a number, which is no failure.
fn kill<C: Children>(rt: &impl Abort, children: &mut C, n: u64) {
    children
        .signal(number(rt, n), Signal::Kill)
        .expect(rt, "a failure");
}

/// Forgets a number.
fn forget<C: Children>(rt: &impl Abort, children: &mut C, n: u64) {
    children.forget(number(rt, n)).expect(rt, "not forgotten");
}

/// Files of another form, and their contents.
const ODD: &[(&str, &[u8])] = &[
    ("1.status", b""),
    ("2.status", b"code 256\n"),
    ("3.status", b"signal 9"),
    ("4.claim", b"x"),
    ("5.pid", b"12a\n"),
    ("8.status", b"\xff\xfe code 3\n"),
    ("9.status", b"signal 9\n"),
];

/// Puts these files, and a long one.
fn put_odd(rt: &(impl AllocGlobal + Files<File = File> + Abort), folder: &str) {
    for (name, bytes) in ODD {
        put(rt, folder, name, bytes);
    }
    put(rt, folder, "7.status", [b'7'; 1_000_000].as_slice());
}

/// Asserts the reports of these files, and that the number whose pid is none can be killed.
fn tell_no_error<C: Children>(rt: &impl Abort, children: &mut C) {
    for n in [1, 2, 3, 6, 7, 8] {
        told(rt, children, n, true, Fate::Ended(End::Lost));
    }
    told(rt, children, 4, true, Fate::Starting);
    told(rt, children, 5, true, Fate::Executed);
    told(rt, children, 9, true, Fate::Ended(End::Signal(9)));
    kill(rt, children, 5);
}

#[test]
fn files_of_another_form_are_never_an_error(rt: HostRuntime) -> Result<(), Fail> {
    let place = folder(&rt, "odd-files")?;
    let place = place.as_str();
    put_odd(&rt, place);
    fs::create_dir(&rt, format!(in rt.alloc(); "{place}/6.status")?)?;
    let mut children = children(&rt, place);
    tell_no_error(&rt, children.as_mut());
    same!(&rt, children.failures(), 0);
    remove(&rt, place);
    Ok(())
}

/// Asserts that a number that the manager claims is absent from then on, also once it is forgotten.
fn is_absent_for_good<C: Children>(
    rt: &(impl AllocGlobal + Files<File = File> + Abort),
    children: &mut C,
    folder: &str,
) {
    told(rt, children, 1, false, Fate::Starting);
    stands(rt, folder, "1.claim", false);
    told(rt, children, 1, true, Fate::Absent);
    holds(rt, folder, "1.claim", b"manager\n");
    stands(rt, folder, "1.claim.manager", false);
    forget(rt, children, 1);
    stands(rt, folder, "1.claim", true);
    told(rt, children, 1, true, Fate::Absent);
}

#[test]
fn what_the_manager_claims_first_is_absent_for_good(rt: HostRuntime) -> Result<(), Fail> {
    let place = folder(&rt, "claims")?;
    let place = place.as_str();
    is_absent_for_good(&rt, children(&rt, place).as_mut(), place);
    remove(&rt, place);
    Ok(())
}

/// The files of a number that has ended.
const NAMES: &[&str] = &[
    "claim",
    "pid",
    "status",
    "pid.new",
    "status.new",
    "claim.manager",
    "claim.runner",
];

/// Puts each file of a number.
fn put_all(rt: &(impl AllocGlobal + Files<File = File> + Abort), folder: &str, n: u64) {
    for name in NAMES {
        let name = format!(in rt.alloc(); "{n}.{name}").expect(rt, "no memory");
        put(rt, folder, name.as_str(), b"code 0\n");
    }
}

/// Asserts that no file of a number stands in the folder.
fn has_none(rt: &(impl AllocGlobal + Files + Abort), folder: &str, n: u64) {
    for name in NAMES {
        let name = format!(in rt.alloc(); "{n}.{name}").expect(rt, "no memory");
        stands(rt, folder, name.as_str(), false);
    }
}

/// Forgets both numbers, and asserts that the files of the one that ended are gone.
fn forget_both<C: Children>(
    rt: &(impl AllocGlobal + Files + Abort),
    children: &mut C,
    folder: &str,
) {
    forget(rt, children, 1);
    forget(rt, children, 2);
    has_none(rt, folder, 1);
    stands(rt, folder, "2.claim", true);
    stands(rt, folder, "2.pid", true);
}

#[test]
fn a_number_that_ended_is_forgotten_with_its_files(rt: HostRuntime) -> Result<(), Fail> {
    let place = folder(&rt, "forgotten")?;
    let place = place.as_str();
    put_all(&rt, place, 1);
    put_all(&rt, place, 2);
    fs::remove_file(&rt, format!(in rt.alloc(); "{place}/2.status")?)?;
    let mut children = children(&rt, place);
    forget_both(&rt, children.as_mut(), place);
    same!(&rt, children.failures(), 0);
    remove(&rt, place);
    Ok(())
}

/// A number that runs in a folder, whose files were read after its time was old enough to go by.
fn running<'a, R: AllocGlobal + Files<File = File> + Processes + Clock + Abort>(
    rt: &'a R,
    place: &str,
) -> Box<RunnerDir<'a, R>> {
    put(rt, place, "1.pid", b"2147483647\n");
    let mut children = children(rt, place);
    told(rt, children.as_mut(), 1, false, Fate::Executed);
    thread::sleep(rt, Duration::from_millis(50));
    told(rt, children.as_mut(), 1, false, Fate::Executed);
    children
}

/// The time of a folder.
fn time_of(rt: &HostRuntime, folder: &str) -> Result<SystemTime, Fail> {
    Ok(fs::metadata(rt, folder)?.modified()?)
}

/// Sets the time of a folder.
fn set_time(rt: &HostRuntime, folder: &str, time: SystemTime) -> Result<(), Fail> {
    Ok(File::open(rt, folder)?.set_modified(time)?)
}

/// The second of this time, from its beginning.
fn second_of(rt: &impl Abort, time: SystemTime) -> SystemTime {
    let since = time.duration_since(SystemTime::UNIX_EPOCH);
    let nanos = since.map_or(0, |since| since.subsec_nanos());
    let second = time.checked_sub(Duration::from_nanos(u64::from(nanos)));
    second.expect(rt, "no second of a time")
}

/// The time of some folders goes on in whole seconds: it is here as before the status was written.
#[test]
fn an_end_is_found_within_a_second_where_the_folder_s_time_is_of_whole_seconds(
    rt: HostRuntime,
) -> Result<(), Fail> {
    let place = folder(&rt, "coarse")?;
    let place = place.as_str();
    let mut children = running(&rt, place);
    let time = second_of(&rt, time_of(&rt, place)?);
    set_time(&rt, place, time)?;
    told(&rt, children.as_mut(), 1, false, Fate::Executed);
    same!(&rt, children.has_news(), false);
    put(&rt, place, "1.status", b"code 3\n");
    set_time(&rt, place, time)?;
    thread::sleep(&rt, Duration::from_millis(1100));
    same!(&rt, children.has_news(), true);
    told(&rt, children.as_mut(), 1, false, Fate::Ended(End::Code(3)));
    remove(&rt, place);
    Ok(())
}

/// Asserts that no number is forgotten if the next number is the one whose files stand there.
fn lets_none_go<C: Children>(rt: &impl Abort, children: &mut C) {
    let refused = children.forget_others(&[], next(rt, 7));
    same!(rt, refused, Err(ChildFault::Device));
}

/// Asserts that no fate can be queried.
fn tells_nothing<C: Children>(rt: &impl Abort, children: &mut C) {
    let refused = children.fate(number(rt, 1), true);
    same!(rt, refused, Err(ChildFault::Device));
}

/// Lets all numbers go, of which the next one is 8.
fn let_all_go<C: Children>(rt: &impl Abort, children: &mut C) {
    children
        .forget_others(&[], next(rt, 8))
        .expect(rt, "not forgotten");
}

#[test]
fn files_of_a_number_that_was_never_started_are_another_stores(
    rt: HostRuntime,
) -> Result<(), Fail> {
    let place = folder(&rt, "foreign")?;
    let place = place.as_str();
    put_all(&rt, place, 7);
    put(&rt, place, "lock", b"");
    put(&rt, place, "09.claim", b"manager\n");
    let mut children = children(&rt, place);
    lets_none_go(&rt, children.as_mut());
    same!(&rt, children.foreign() == Some(number(&rt, 7)), true);
    stands(&rt, place, "7.status", true);
    tells_nothing(&rt, children.as_mut());
    stands(&rt, place, "1.claim", false);
    let_all_go(&rt, children.as_mut());
    same!(&rt, children.foreign().is_none(), true);
    has_none(&rt, place, 7);
    remove(&rt, place);
    Ok(())
}

#[test]
fn no_signal_goes_to_the_manager_itself(rt: HostRuntime) -> Result<(), Fail> {
    let place = folder(&rt, "own")?;
    let place = place.as_str();
    let own = process::id(rt.process());
    let text = format!(in rt.alloc(); "{own}\n")?;
    put(&rt, place, "1.pid", text.as_bytes());
    let mut children = children(&rt, place);
    told(&rt, children.as_mut(), 1, false, Fate::Executed);
    kill(&rt, children.as_mut(), 1);
    remove(&rt, place);
    Ok(())
}

/// Whether the folder is opened; None where it is refused since others may write it.
fn is_opened<R: AllocGlobal + Files + Processes + Clock>(rt: &R, folder: &str) -> Option<bool> {
    let opened = RunnerDir::open(rt, rt.alloc(), "/nonexistent", folder);
    let told = match &opened {
        Ok(_) => Some(true),
        Err(OpenFault::Writable) => None,
        Err(_) => Some(false),
    };
    drop(opened);
    told
}

#[test]
fn a_folder_that_others_may_write_is_refused(rt: HostRuntime) -> Result<(), Fail> {
    let place = folder(&rt, "open")?;
    let place = place.as_str();
    fs::set_permissions(&rt, place, Permissions::from_mode(0o770))?;
    same!(&rt, is_opened(&rt, place), None);
    fs::set_permissions(&rt, place, Permissions::from_mode(0o755))?;
    same!(&rt, is_opened(&rt, place), Some(true));
    remove(&rt, place);
    Ok(())
}
