//! The life of a service.

use crate::managers::{ask, new_store, opened, silent_turn};
use std::alloc::Global;
use um_children::{Call, Children, End, FakeChildren, ProcessNumber};
use um_manager::Manager;
use um_sector::Disk;
use um_wire::Refusal;

const PUT: &str =
    r#"{"verb":"put-file","path":"lib/a.service","text":"[Service]\nExecStart=/bin/sleep 9\n"}"#;

const RELOAD: &str = r#"{"verb":"daemon-reload"}"#;

const START: &str = r#"{"verb":"start","unit":"a"}"#;

const IS_ACTIVE: &str = r#"{"verb":"is-active","unit":"a"}"#;

const SHOW: &str = r#"{"verb":"show","unit":"a"}"#;

const ACTIVE: &str = r#"{"ok":true,"value":"active"}"#;

/// Starts the service. If its process found no memory it has failed, and is started once more.
fn start<D: Disk, C: Children>(alloc: Global, manager: &mut Manager<D, C>) -> Result<(), Refusal> {
    for _ in 0..2 {
        let _done = ask(alloc, manager, START)?;
        silent_turn(alloc, manager)?;
        silent_turn(alloc, manager)?;
        if ask(alloc, manager, IS_ACTIVE)?.as_str() == ACTIVE {
            return Ok(());
        }
    }
    Err(Refusal::BadRequest)
}

/// The last number that was started.
fn last_started(children: &FakeChildren) -> Option<ProcessNumber> {
    let mut last = None;
    for call in children.calls() {
        if let Call::Spawned { number, .. } = call {
            last = Some(*number);
        }
    }
    last
}

/// The process that was started last has ended with code 3.
fn end(children: &mut FakeChildren) -> Result<(), Refusal> {
    let number = last_started(children).ok_or(Refusal::BadRequest)?;
    match children.ends(number, End::Code(3)) {
        Ok(()) => Ok(()),
        Err(_) => Ok(children.ends(number, End::Code(3))?),
    }
}

/// Puts, loads and starts the service.
fn begin<D: Disk, C: Children>(alloc: Global, manager: &mut Manager<D, C>) -> Result<(), Refusal> {
    let _done = ask(alloc, manager, PUT)?;
    let _done = ask(alloc, manager, RELOAD)?;
    start(alloc, manager)
}

/// The disk and the children that are left of a manager that started the service.
fn begun<D: Disk + Drop, C: Children + Drop>(
    alloc: Global,
    disk: D,
    children: C,
) -> Result<(D, C), Refusal> {
    let mut manager = opened(alloc, disk, children)?;
    match begin(alloc, &mut manager) {
        Ok(()) => Ok(manager.into_parts()),
        Err(refusal) => {
            drop(manager);
            Err(refusal)
        }
    }
}

/// The reply to `show` for the service, two turns later.
fn shown<D: Disk, C: Children>(
    alloc: Global,
    manager: &mut Manager<D, C>,
) -> Result<String, Refusal> {
    silent_turn(alloc, manager)?;
    silent_turn(alloc, manager)?;
    ask(alloc, manager, SHOW)
}

/// The reply to `show` for the service, by a manager that is opened over a disk and children.
fn shown_again<D: Disk + Drop, C: Children + Drop>(
    alloc: Global,
    disk: D,
    children: C,
) -> Result<String, Refusal> {
    let mut manager = opened(alloc, disk, children)?;
    let told = shown(alloc, &mut manager);
    drop(manager);
    told
}

/// A service is put, loaded and started; its process ends while no manager is there; and the manager that is opened then shows it.
pub fn life(alloc: Global) -> Result<String, Refusal> {
    let (disk, mut children) = begun(alloc, new_store(alloc)?, FakeChildren::new(alloc))?;
    match end(&mut children) {
        Ok(()) => shown_again(alloc, disk, children),
        Err(refusal) => Err(refusal),
    }
}
