//! Inputs, and the results of a keeper for them.
use std::process::Abort;
use um_asserts::text;
use um_keeper::{Handed, Keeper, Receipt};
use um_model::Moment;
use um_sector::Disk;
use um_state::{Command, Event, Input};
use um_wire::Refusal;

/// The file of `a.service`.
pub const A: &str = "lib/a.service";

/// The file of `b.service`.
pub const B: &str = "lib/b.service";

/// The event at the moment.
pub fn input(rt: &impl Abort, micros: u64, event: Event) -> Input {
    Input::new(Moment::new(micros).expect(rt, "no moment"), event)
}

/// The input that puts a file.
pub fn put(rt: &(impl AllocGlobal + Abort), path: &str, content: &str) -> Input {
    let path = text!(rt, path);
    let text = text!(rt, content);
    input(rt, 0, Event::Commanded(Command::PutFile { path, text }))
}

/// The input that puts a file of `length` bytes.
pub fn put_long(rt: &(impl AllocGlobal + Abort), path: &str, length: usize) -> Input {
    let content = "#".repeat(rt.alloc(), length).expect(rt, "no memory");
    put(rt, path, content.as_str())
}

/// Spends a receipt, and returns how many processes it starts.
pub fn starts(mut receipt: Receipt) -> usize {
    let mut starts: usize = 0;
    while let Some(handed) = receipt.next_action() {
        if let Handed::Spawn(_) = &handed {
            starts = starts.saturating_add(1);
        }
        drop(handed);
    }
    receipt.finish();
    starts
}

/// Submits an input, and returns how many processes it starts.
pub fn submit<D: Disk>(keeper: &mut Keeper<D>, input: Input) -> Result<usize, Refusal> {
    let receipt = keeper.submit(input)?;
    Ok(starts(receipt))
}

/// Submits an input that is taken, and returns how many processes it starts.
pub fn take<D: Disk>(
    rt: &(impl AllocGlobal + Abort),
    keeper: &mut Keeper<D>,
    input: Input,
) -> usize {
    submit(keeper, input).expect(rt, "not taken")
}
