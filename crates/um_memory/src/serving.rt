//! Serves one client from a stream of frames.
ghost use Rattle.std.specs.Prelude.{◌≡◌, ◌≤◌, ◌++◌, ℕ, List, [], length, Option, Ok, None, MatchOption, ⊤, false, IfOk, OnOk, OnErr};
ghost use Rattle.std.specs.Io.KnownBytes.{Appends};
ghost use Rattle.um_memory.specs.Managers.{state_of, size_of, kept_of, StepsTo, IsAnswered, WritesReply, BeginsReply, WritesReplies, WritesBeginning};
ghost use Rattle.um_memory.specs.Stores.{IsOfStep};
ghost use Rattle.um_memory.specs.Streams.{WritesFrom, BeginsFrom};
ghost use Rattle.um_keeper.specs.Keepers.{has_failed};
ghost use Rattle.um_memory.specs.Stores.{memory_size};
ghost use Rattle.um_model.specs.Frames.{kept_after, last_reply};
ghost use Rattle.um_model.specs.Machine as model;
ghost use Rattle.um_model.specs.Machine.{Told, empty_state};
ghost use Rattle.um_model.specs.Replies.{reply_text, reply_limit};
ghost use Rattle.um_model.specs.declared.frames.Ending as ending;
ghost use Rattle.um_state.specs.View.{event_of, reply_of};
ghost use Rattle.um_wire.specs.Refusal.{refused_of};

use crate::actions::{keep_actions, told_in};
use crate::frames::{Piece, next_piece};
use crate::store::{fault_of, new_store, renewed};
use std::alloc::Global;
use std::io::{ErrorKind, Read, Write};
use std::{io, mem};
use um_keeper::Keeper;
use um_model::{Ending, Mode, Moment, SECTOR_BYTES};
use um_proto::{Asked, ReplyText, Request, read_request, write_reply};
use um_sector::MemDisk;
use um_state::{Action, Event, Input, Reply};
use um_stream::{Fault, put_frame};
use um_wire::{Limit, Refusal};

/// The store is renewed after this many inputs, or fewer if they are long: each counts one, and one more for each whole
/// sector of its request.
const RENEWAL: usize = 512;

/// The text of a reply.
fn text_of(alloc: Global, reply: Reply) -> Result<Vec<u8>, Fault>
    ensures text { IfOk result (λ text. text.items ≡ reply_text (reply_of reply)) }
    ensures short { IfOk result (λ text. length text.items ≤ reply_limit) }
{
    Ok(write_reply(alloc, &reply)?.bytes)
}

/// The reply that reports the refusal of a step. Any other refusal ends `memory`.
fn reply_to(refusal: Refusal) -> Result<Reply, Fault>
    ensures told { IfOk result (λ reply. reply_of reply ≡ model.Refusal (refused_of refusal)) }
    ensures step { OnOk result (IsOfStep refusal) }
{
    match refusal {
        Refusal::NoMemory | Refusal::Device | Refusal::Reopen | Refusal::GenerationsSpent => {
            Err(fault_of(&refusal))
        }
        refusal => Ok(Reply::Refused(refusal)),
    }
}

/// The manager in memory.
struct Manager {
    keeper: Keeper<MemDisk>,
    /// The actions since they were last requested.
    kept: Vec<Action>,
    /// The inputs since the store was renewed, counted as for `RENEWAL`.
    taken: usize,
}

// One call, where a derived one is taken apart at each exit.
impl Drop for Manager {
    fn drop(self) {
        let Manager {
            keeper: _keeper,
            kept: _kept,
            taken: _,
        } = self;
    }
}

impl Manager {
    /// A manager of a new store.
    fn new(alloc: Global) -> Result<Manager, Fault>
        ensures state { IfOk result (λ m. state_of m ≡ empty_state) }
        ensures size { IfOk result (λ m. size_of m ≡ memory_size) }
        ensures kept { IfOk result (λ m. kept_of m ≡ []) }
        ensures working { IfOk result (λ m. has_failed m.keeper ≡ false) }
    {
        Ok(Manager {
            keeper: new_store(alloc)?,
            kept: Vec::new(alloc),
            taken: 0,
        })
    }

    /// The same manager, over its store renewed where that is due.
    fn refreshed(self, alloc: Global) -> Result<Manager, Fault>
        requires { has_failed self.keeper ≡ false }
        ensures state { IfOk result (λ m. state_of m ≡ state_of self) }
        ensures size { IfOk result (λ m. size_of m ≡ size_of self) }
        ensures kept { IfOk result (λ m. kept_of m ≡ kept_of self) }
        ensures working { IfOk result (λ m. has_failed m.keeper ≡ false) }
    {
        if self.taken < RENEWAL {
            return Ok(self);
        }
        let Manager {
            keeper,
            kept,
            taken: _,
        } = self;
        let keeper = renewed(alloc, keeper)?;
        Ok(Manager {
            keeper,
            kept,
            taken: 0,
        })
    }

    /// The reply to an event at the given moment, or at the clock's.
    fn take_event(&mut self, at: Option<Moment>, event: Event) -> Result<Reply, Fault>
        requires { has_failed self.old.keeper ≡ false }
        ensures step { IfOk result (λ reply. StepsTo self.old at (event_of event) (reply_of reply) self.new) }
        ensures size { size_of self.new ≡ size_of self.old }
        ensures working { OnOk result (has_failed self.new.keeper ≡ false) }
    {
        let moment = at.unwrap_or(self.keeper.state().clock());
        match self.keeper.submit(Input::new(moment, event)) {
            Ok(receipt) => Ok(keep_actions(&mut self.kept, receipt)?),
            Err(refusal) => reply_to(refusal),
        }
    }

    /// The text that lists the actions since they were last requested. They are kept if it would be too long.
    fn tell_actions(&mut self, alloc: Global) -> Result<Vec<u8>, Fault>
        ensures text { IfOk result (λ text. text.items ≡ reply_text (Told (kept_of self.old))) }
        ensures short { IfOk result (λ text. length text.items ≤ reply_limit) }
        ensures kept { OnOk result (kept_of self.new ≡ kept_after (kept_of self.old)) }
        ensures keeper { self.new.keeper ≡ self.old.keeper }
    {
        let reply = Reply::Told(mem::replace(&mut self.kept, Vec::new(alloc)));
        let ReplyText { bytes, is_whole } = write_reply(alloc, &reply)?;
        if !is_whole {
            self.kept = told_in(alloc, reply);
        }
        Ok(bytes)
    }

    /// The text of the reply to a frame.
    fn answer(&mut self, alloc: Global, bytes: &[u8]) -> Result<Vec<u8>, Fault>
        requires { has_failed self.old.keeper ≡ false }
        ensures reply { IfOk result (λ text. IsAnswered self.old bytes.now text.items self.new) }
        ensures short { IfOk result (λ text. length text.items ≤ reply_limit) }
        ensures size { size_of self.new ≡ size_of self.old }
        ensures working { OnOk result (has_failed self.new.keeper ≡ false) }
    {
        match read_request(alloc, bytes, Mode::Memory) {
            Ok(Request { at, asked }) => match asked {
                Asked::Query(query) => {
                    let reply = self.keeper.query(&query)?;
                    text_of(alloc, reply)
                }
                Asked::Event(event) => {
                    self.taken = self.taken.saturating_add(1 + bytes.len() / SECTOR_BYTES);
                    let reply = self.take_event(at, event)?;
                    text_of(alloc, reply)
                }
                Asked::Actions => self.tell_actions(alloc),
            },
            Err(Refusal::NoMemory) => Err(Fault::NoMemory),
            Err(refusal) => text_of(alloc, Reply::Refused(refusal)),
        }
    }
}

/// Answers a frame.
fn answer_frame<W: Write>(
    alloc: Global,
    manager: &mut Manager,
    bytes: &[u8],
    output: &mut W,
) -> Result<(), Fault>
    requires { has_failed manager.old.keeper ≡ false }
    ensures ok { OnOk result (WritesReply manager.old bytes.now manager.new (W.contents output.old) (W.contents output.new)) }
    ensures front { BeginsReply manager.old bytes.now (W.contents output.old) (W.contents output.new) }
    ensures size { size_of manager.new ≡ size_of manager.old }
    ensures working { OnOk result (has_failed manager.new.keeper ≡ false) }
{
    let text = manager.answer(alloc, bytes)?;
    put_frame(output, text.as_slice())
}

/// Answers the end of the input.
fn answer_end<W: Write>(alloc: Global, ending: Ending, output: &mut W) -> Result<(), Fault>
    ensures ok { OnOk result (Appends (W.contents output.old) (W.contents output.new) (last_reply ending)) }
    ensures front { (front more : List ℕ) × (last_reply ending ≡ front ++ more) × Appends (W.contents output.old) (W.contents output.new) front }
{
    match ending {
        Ending::Between | Ending::Inside => Ok(()),
        Ending::TooLong => {
            let refusal = Refusal::TooLarge {
                limit: Limit::Frame,
            };
            let text = text_of(alloc, Reply::Refused(refusal))?;
            put_frame(output, text.as_slice())
        }
    }
}

/// Takes one frame and answers it, or ends.
fn serve_one<R: Read, W: Write>(
    alloc: Global,
    manager: &mut Manager,
    input: &mut R,
    output: &mut W,
) -> Result<Option<Ending>, Fault>
    requires { has_failed manager.old.keeper ≡ false }
    ensures serves { result ≡ Ok None → (new : Option (List ℕ)) (e : ending.Ending)
        → WritesReplies manager.new (R.remaining input.new) (W.contents output.new) new e
        → WritesReplies manager.old (R.remaining input.old) (W.contents output.old) new e }
    ensures begins { result ≡ Ok None → (new : Option (List ℕ))
        → WritesBeginning manager.new (R.remaining input.new) (W.contents output.new) new
        → WritesBeginning manager.old (R.remaining input.old) (W.contents output.old) new }
    ensures ends { IfOk result (λ o. MatchOption o ⊤ (λ e.
        WritesReplies manager.old (R.remaining input.old) (W.contents output.old) (W.contents output.new) e)) }
    ensures err { OnErr result (WritesBeginning manager.old (R.remaining input.old) (W.contents output.old) (W.contents output.new)) }
    ensures size { size_of manager.new ≡ size_of manager.old }
    ensures working { OnOk result (has_failed manager.new.keeper ≡ false) }
{
    match next_piece(alloc, input)? {
        Piece::Frame(bytes) => {
            answer_frame(alloc, manager, bytes.as_slice(), output)?;
            Ok(None)
        }
        Piece::End(ending) => {
            answer_end(alloc, ending, output)?;
            Ok(Some(ending))
        }
    }
}

/// Answers each frame of the input from the empty state on, over a store in memory, and returns how the input ended.
///
/// Whatever the bytes and however they are cut, the output is the frames of the replies to the input. If a write or a
/// read fails, or a growth of memory is refused, it ends, and a beginning of them was written.
pub fn memory<R: Read, W: Write>(
    alloc: Global,
    input: &mut R,
    output: &mut W,
) -> Result<Ending, Fault>
    ensures ok { IfOk result (λ e. WritesFrom memory_size empty_state [] (R.remaining input.old) (W.contents output.old) (W.contents output.new) e) }
    ensures err { OnErr result (BeginsFrom memory_size empty_state [] (R.remaining input.old) (W.contents output.old) (W.contents output.new)) }
{
    let mut manager = Manager::new(alloc)?;
    'frames: for _ in 0..u64::MAX {
        if let Some(ending) = serve_one(alloc, &mut manager, input, output)? {
            return Ok(ending);
        }
        manager = manager.refreshed(alloc)?;
    }
    Err(Fault::Read(io::Error::from(ErrorKind::Other)))
}
