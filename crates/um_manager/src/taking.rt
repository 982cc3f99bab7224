//! The requests that a turn takes of the connections.

ghost use Rattle.std.specs.Prelude.{◌≡◌, ◌≤◌, ◌+◌, ◌++◌, ◌∷◌, [], OnOk, length, vec_len, vec_capacity};
ghost use Rattle.um_manager.specs.Connections.{AllSame, AllFit, piece_len, Cuts, Took, inputs_asked, due_of};
ghost use Rattle.um_fates.specs.Fates.{inputs_in};
ghost use Rattle.um_manager.specs.Replies.{replies_due, replies_owed};
ghost use Rattle.um_model.specs.Sessions.{Does, Room};

use crate::pieces::Piece;
use std::alloc::{AllocError, Global};
use um_fates::put;
use um_model::Moment;
use um_proto::{Asked, Request};
use um_session::Session;
use um_state::{Input, Query, Reply};
use um_wire::Refusal;

/// The reply that a connection is due.
#[derive(Drop)]
pub enum Due {
    Nothing,
    /// The reply to its input.
    Input,
    /// The reply to its query.
    Query(Query),
    /// This reply.
    Reply(Reply),
}

/// Makes room for a piece.
fn room_one(session: &mut Session, piece: &Piece) -> Result<(), AllocError>
    ensures same { Does session.old Room session.new }
    ensures room { OnOk result (piece_len piece.now ≤ session.new.room) }
{
    match piece {
        Piece::Bytes(bytes) => session.room(bytes.len()),
        Piece::Nothing | Piece::Closed => Ok(()),
    }
}

/// Makes room for each piece.
pub fn room_all(sessions: &mut [Session], pieces: &[Piece]) -> Result<(), AllocError>
    requires { length sessions.old ≡ length pieces.now }
    ensures same { AllSame sessions.old sessions.new }
    ensures room { OnOk result (AllFit pieces.now sessions.new) }
{
    let Some((session, sessions)) = sessions.split_first_mut() else {
        return Ok(());
    };
    let Some((piece, pieces)) = pieces.split_first() else {
        return Ok(());
    };
    let made = room_one(session, piece);
    let others = room_all(sessions, pieces);
    match made {
        Ok(()) => others,
        Err(error) => Err(error),
    }
}

/// Takes a piece, and the request of the first whole frame.
fn cut_one(alloc: Global, session: &mut Session, piece: &Piece) -> Option<Result<Request, Refusal>>
    requires { piece_len piece.now ≤ session.old.room }
    ensures { Cuts session.old piece.now result session.new }
{
    match piece {
        Piece::Nothing => {}
        Piece::Bytes(bytes) => match session.feed(bytes.as_slice()) {
            Ok(()) => {}
            Err(_) => unreachable!(),
        },
        Piece::Closed => *session = Session::new(alloc),
    }
    session.next_request()
}

/// Notes the input that a request carries, and returns the reply that is due for it.
fn note(moment: Moment, request: Option<Result<Request, Refusal>>, inputs: &mut Vec<Input>) -> Due
    requires { vec_len inputs.old + 1 ≤ vec_capacity inputs.old }
    ensures due { result ≡ due_of request }
    ensures items { inputs_in inputs.new.items ≡ inputs_in inputs.old.items ++ inputs_asked moment request }
    ensures len { vec_len inputs.new ≡ vec_len inputs.old + replies_due result }
    ensures capacity { vec_capacity inputs.old ≤ vec_capacity inputs.new }
{
    match request {
        None => Due::Nothing,
        Some(Ok(Request { at: _, asked })) => match asked {
            Asked::Event(event) => {
                put(inputs, Input::new(moment, event));
                Due::Input
            }
            Asked::Query(query) => Due::Query(query),
            Asked::Actions => Due::Reply(Reply::Refused(Refusal::BadRequest)),
        },
        Some(Err(refusal)) => Due::Reply(Reply::Refused(refusal)),
    }
}

/// Notes a reply that is due, where there is room.
fn put_due(owed: &mut Vec<Due>, due: Due)
    requires { vec_len owed.old + 1 ≤ vec_capacity owed.old }
    ensures items { owed.new.items ≡ owed.old.items ++ due ∷ [] }
    ensures len { vec_len owed.new ≡ vec_len owed.old + 1 }
    ensures capacity { vec_capacity owed.old ≤ vec_capacity owed.new }
{
    owed.push_reserved(due);
}

/// Takes each piece, and of each connection the request of its first whole frame. The inputs of the requests go after
/// the others, and the replies due for them after those due before.
pub fn take_all(
    alloc: Global,
    sessions: &mut [Session],
    pieces: &[Piece],
    moment: Moment,
    inputs: &mut Vec<Input>,
    owed: &mut Vec<Due>,
)
    requires fits { AllFit pieces.now sessions.old }
    requires as_many { length sessions.old ≡ length pieces.now }
    requires room { vec_len inputs.old + length sessions.old ≤ vec_capacity inputs.old }
    requires owed_room { vec_len owed.old + length sessions.old ≤ vec_capacity owed.old }
    ensures took { Took moment sessions.old pieces.now sessions.new (inputs_in inputs.old.items) (inputs_in inputs.new.items) owed.old.items owed.new.items }
    ensures len { vec_len inputs.new ≤ vec_len inputs.old + length sessions.old }
    ensures owed_len { vec_len owed.new ≡ vec_len owed.old + length sessions.old }
    ensures owes { vec_len inputs.new + replies_owed owed.old.items ≡ vec_len inputs.old + replies_owed owed.new.items }
{
    let Some((session, sessions)) = sessions.split_first_mut() else {
        return;
    };
    let Some((piece, pieces)) = pieces.split_first() else {
        return;
    };
    let request = cut_one(alloc, session, piece);
    let due = note(moment, request, inputs);
    put_due(owed, due);
    take_all(alloc, sessions, pieces, moment, inputs, owed);
}
