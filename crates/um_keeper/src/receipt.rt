//! Receipts: the answer to an input, with the actions on processes that its step wants.
ghost use Rattle.std.specs.Prelude.{◌≡◌, [], IfOk, List, map, string_bytes};
ghost use Rattle.std.specs.Vec.Iter.{into_iter_items};
ghost use Rattle.um_model.specs.Children as children;
ghost use Rattle.um_model.specs.Machine as machine;
ghost use Rattle.um_model.specs.Service as service;
ghost use Rattle.um_service.specs.Started.{is_too_long};
ghost use Rattle.um_state.specs.View.{action_of, reply_of};

use std::alloc::{AllocError, Global};
use std::marker::Model;
use std::vec;
use um_model::{ProcessNumber, Signal};
use um_state::{Action, Reply, Start};

/// An order to start a process. `Receipt::next_action` alone makes one, and nothing copies it: so no process is started but for an
/// accepted input, and none twice. Its words are put together only where they are read.
#[derive(Drop)]
pub struct SpawnOrder {
    number: ProcessNumber,
    start: Start,
}

impl Model for SpawnOrder {
    ghost Value = { children.Spawn };

    ghost view = { λ o. record { number = o.number; words = o.start.words; environment = o.start.environment } };
}

impl SpawnOrder {
    /// The number of the process.
    pub fn number(&self) -> ProcessNumber
        ensures { result ≡ self.now.number }
    {
        self.number
    }

    /// The program and its arguments, put together. Refused only for want of memory.
    pub fn words(&self, alloc: Global) -> Result<Vec<String>, AllocError>
        ensures { IfOk result (λ words. map string_bytes words.items ≡ self.now.words) }
    {
        self.start.words(alloc)
    }

    /// `NAME=value` each, put together. Refused only for want of memory.
    pub fn environment(&self, alloc: Global) -> Result<Vec<String>, AllocError>
        ensures { IfOk result (λ texts. map string_bytes texts.items ≡ self.now.environment) }
    {
        self.start.environment(alloc)
    }

    /// Whether no process can be started with the words and the environment, since they are too long: past two MiB
    /// (2,097,152 bytes) in all, or 128 KiB (131,072 bytes) in one text, each with a zero byte at its end. Nothing is
    /// put together. Refused only for want of memory.
    pub fn is_too_long(&self, alloc: Global) -> Result<bool, AllocError>
        ensures { IfOk result (λ told. told ≡ is_too_long self.now.words self.now.environment) }
    {
        self.start.is_too_long(alloc)
    }

    /// The start that is ordered, as it is set. The order is spent.
    pub fn into_start(self) -> Start
        ensures words { result.words ≡ self.words }
        ensures environment { result.environment ≡ self.environment }
    {
        self.start
    }
}

/// An action as it is handed out.
#[derive(Drop)]
pub enum Handed {
    Spawn(SpawnOrder),
    Signal {
        number: ProcessNumber,
        signal: Signal,
    },
}

/// The answer to an accepted input: the reply, and the actions that are still to be done. It can't be copied or
/// dropped: each action must be taken out, and then `finish` gives the reply.
pub struct Receipt {
    reply: Reply,
    actions: vec::IntoIter<Action>,
}

impl Model for Receipt {
    ghost Value = { machine.Reply × List service.Action };

    ghost view = { λ r. (reply_of r.reply, map action_of (into_iter_items r.actions)) };
}

impl Receipt {
    ghost use Rattle.um_keeper.specs.Receipts.{Hands};

    /// The receipt of an input that was accepted with this reply and these actions.
    pub(crate) fn new(reply: Reply, actions: Vec<Action>) -> Receipt
        ensures reply { result.0 ≡ reply_of reply }
        ensures actions { result.1 ≡ map action_of actions.items }
    {
        Receipt {
            reply,
            actions: actions.into_iter(),
        }
    }

    /// The receipt of an input that is done and has no actions. It takes no memory.
    pub(crate) fn done(alloc: Global) -> Receipt
        ensures reply { result.0 ≡ machine.Done }
        ensures actions { result.1 ≡ [] }
    {
        Receipt::new(Reply::Done, Vec::new(alloc))
    }

    /// The reply to the input. It can be read before the actions are taken out.
    pub fn reply(&self) -> &Reply
        ensures { reply_of result.now ≡ self.now.0 }
    {
        &self.reply
    }

    /// The next action, in their order, each once. None where none is left.
    pub fn next_action(&mut self) -> Option<Handed>
        ensures actions { Hands self.old.1 result self.new.1 }
        ensures reply { self.new.0 ≡ self.old.0 }
    {
        match self.actions.next()? {
            Action::Spawn { number, start } => Some(Handed::Spawn(SpawnOrder { number, start })),
            Action::Signal { number, signal } => Some(Handed::Signal { number, signal }),
        }
    }

    /// Ends a receipt of which each action was taken, and gives its reply.
    pub fn finish(self) -> Reply
        requires { self.1 ≡ [] }
        ensures { reply_of result ≡ self.0 }
    {
        let Receipt { reply, actions: _ } = self;
        reply
    }

    /// Drops a receipt that was given to nobody.
    pub(crate) fn let_go(self) {
        let Receipt { reply, actions } = self;
        drop(reply);
        drop(actions);
    }
}
