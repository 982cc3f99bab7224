//! The session of one client.
ghost use Rattle.std.specs.Prelude.{◌≡◌, ◌↔◌, ◌≤◌, ◌+◌, ◌-◌, [], length, drop, take, true, false, IsOk, OnOk, OnErr, vec_capacity, vec_len};
ghost use Rattle.um_model.specs.Sessions as model;
ghost use Rattle.um_model.specs.Requests.{request_of as request_defined};
ghost use Rattle.um_proto.specs.View.{request_of};
ghost use Rattle.um_session.specs.Readings.{HoldsFrame, IsReading};
ghost use Rattle.um_wire.specs.Gives.{Gives};

use crate::front::{FrameFront, HEADER, front_of};
use byteorder::{BigEndian, ByteOrder};
use std::alloc::{AllocError, Global};
use std::marker::Model;
use std::mem;
use um_proto::{Mode, Request, read_request};
use um_wire::{Limit, Refusal};

/// Room past this many bytes is given back once nothing is held in it.
const KEPT_ROOM: usize = 64 << 10;

/// The bytes held of one client: its input that isn't read yet, and its output that isn't taken yet.
#[derive(Drop)]
pub struct Session {
    alloc: Global,
    held: Vec<u8>,
    /// The number of bytes held that are read.
    at: usize,
    output: Vec<u8>,
    /// It reads no more.
    failed: bool,
}

impl Model for Session {
    ghost Value = { model.Session };

    ghost view = { λ s. record { rest = drop s.at s.held.items; output = s.output.items; failed = s.failed; room = vec_capacity s.held - vec_len s.held } };

    ghost invariant = { λ s. s.at ≤ length s.held.items };
}

impl Session {
    /// A session to which no bytes were fed yet. It takes no memory.
    pub fn new(alloc: Global) -> Session
        ensures rest { result.rest ≡ [] }
        ensures output { result.output ≡ [] }
        ensures failed { result.failed ≡ false }
    {
        Session {
            alloc,
            held: Vec::new(alloc),
            at: 0,
            output: Vec::new(alloc),
            failed: false,
        }
    }

    /// Whether it has failed: a length past the limit was read, or a reply found no memory.
    pub fn failed(&self) -> bool
        ensures { result ≡ self.now.failed }
    {
        self.failed
    }

    /// Whether a whole frame is held: then `next_request` reads one without more bytes.
    pub fn holds_frame(&self) -> bool
        ensures { (result ≡ true) ↔ HoldsFrame self.now }
    {
        !self.failed && matches!(front_of(self.rest()), FrameFront::Frame(_))
    }

    /// Makes room, so that a next `feed` of at most `len` bytes takes no memory. The place of bytes that were read is
    /// given back once they are half of those held, so that no more bytes are moved than were read.
    pub fn room(&mut self, len: usize) -> Result<(), AllocError>
        ensures room { OnOk result (len ≤ self.new.room) }
        ensures deed { model.Does self.old model.Room self.new }
    {
        if self.at >= self.held.len() - self.at {
            self.pack();
        }
        self.held.try_reserve(len)
    }

    /// Gives back the place of the bytes that were read.
    fn pack(&mut self)
        ensures { model.Does self.old model.Room self.new }
    {
        self.held.drain(..self.at);
        self.at = 0;
    }

    /// Takes these bytes after those before. A session that has failed takes none.
    pub fn feed(&mut self, bytes: &[u8]) -> Result<(), AllocError>
        ensures ok { OnOk result (model.Does self.old (model.Feed bytes.now) self.new) }
        ensures err { OnErr result (model.Does self.old model.Room self.new) }
        ensures memory { length bytes.now ≤ self.old.room → IsOk result }
    {
        if self.failed {
            return Ok(());
        }
        self.held.extend_from_slice(bytes)
    }

    /// The request of the first frame, once it is whole; the frame is read then, whatever it holds. None where no frame is whole.
    ///
    /// `BadRequest`, `UnknownVerb`, `BadName` or `NoMemory` as `read_request` refuses what the frame holds; `TooLarge` `frame` for a
    /// length past the limit, before its bytes come: then the session has failed, and reads no more.
    pub fn next_request(&mut self) -> Option<Result<Request, Refusal>>
        ensures { IsReading self.old result self.new }
    {
        if self.failed() {
            return None;
        }
        match front_of(self.rest()) {
            FrameFront::Partial => None,
            FrameFront::TooLong => {
                self.fail();
                Some(Err(Refusal::TooLarge {
                    limit: Limit::Frame,
                }))
            }
            FrameFront::Frame(size) => {
                let request = self.request(size);
                self.pass(size + HEADER);
                Some(request)
            }
        }
    }

    /// The session has failed.
    fn fail(&mut self)
        ensures { self.new ≡ record self.old { failed = true } }
    {
        self.failed = true;
    }

    /// The bytes that aren't read yet.
    fn rest(&self) -> &[u8]
        ensures { result.now ≡ self.now.rest }
    {
        &self.held.as_slice()[self.at..]
    }

    /// The request in the first frame, of `size` bytes.
    fn request(&self, size: usize) -> Result<Request, Refusal>
        requires { size + 4 ≤ length self.now.rest }
        ensures { Gives request_of result (request_defined Mode.Service (take size (drop 4 self.now.rest))) }
    {
        read_request(
            self.alloc,
            &self.rest()[HEADER..size + HEADER],
            Mode::Service,
        )
    }

    /// Marks `count` bytes as read.
    fn pass(&mut self, count: usize)
        requires { count ≤ length self.old.rest }
        ensures { self.new ≡ record self.old { rest = drop count self.old.rest } }
    {
        self.at += count;
    }

    /// Puts out a reply, as a frame. Where that finds no memory, nothing of it is put out and the session has failed; so too for a
    /// text of 2^32 bytes or more, which no frame holds.
    #[tactic(auto, unfolding(um_model::specs::Frames::frame_of))]
    pub fn push_reply(&mut self, text: &[u8]) -> Result<(), AllocError>
        ensures ok { OnOk result (model.Does self.old (model.Put text.now) self.new) }
        ensures err { OnErr result (model.Does self.old model.GiveUp self.new) }
    {
        let Ok(size) = u32::try_from(text.len()) else {
            self.fail();
            return Err(AllocError);
        };
        let mut header = [0u8; HEADER];
        BigEndian::write_u32(&mut header, size);
        let before = self.output.len();
        if self.output.extend_from_slice(&header).is_err() {
            self.fail();
            return Err(AllocError);
        }
        if self.output.extend_from_slice(text).is_err() {
            self.output.truncate(before);
            self.fail();
            return Err(AllocError);
        }
        Ok(())
    }

    /// Fails the session, if a reply finds no memory before it gets here.
    pub fn give_up(&mut self)
        ensures { model.Does self.old model.GiveUp self.new }
    {
        self.fail();
    }

    /// Gives back much room for bytes, where none is held that isn't read.
    fn give_back(&mut self)
        ensures { model.Does self.old model.Room self.new }
    {
        if self.at == self.held.len() && self.held.capacity() > KEPT_ROOM {
            self.held = Vec::new(self.alloc);
            self.at = 0;
        }
    }

    /// Takes the output. If all input is read, much room for it is given back.
    pub fn take_output(&mut self) -> Vec<u8>
        ensures { model.Does self.old (model.Take result.items) self.new }
    {
        self.give_back();
        mem::replace(&mut self.output, Vec::new(self.alloc))
    }
}
