//! Replies put out, each to the connection that sent the request.

ghost use Rattle.std.specs.Prelude.{◌≡◌, ◌≤◌, ◌+◌, [], ◌∷◌, ℕ, List, length, map};
ghost use Rattle.um_keeper.specs.Keepers.{state_in};
ghost use Rattle.um_state.specs.View.{reply_of, query_of};
ghost use Rattle.um_manager.specs.Replies.{Puts, Pays, PaysAll, TellsOf, replies_due, replies_owed};

use crate::taking::Due;
use std::alloc::Global;
use um_keeper::Keeper;
use um_proto::write_reply;
use um_sector::Disk;
use um_session::Session;
use um_state::{Query, Reply};
use um_wire::Refusal;

/// Puts out a reply. Where it finds no memory its session has failed.
fn put_out(alloc: Global, session: &mut Session, reply: &Reply)
    ensures { Puts session.old (reply_of reply.now) session.new }
{
    match write_reply(alloc, reply) {
        Ok(text) => {
            let _put = session.push_reply(text.bytes.as_slice());
        }
        Err(_) => session.give_up(),
    }
}

/// The reply to a query, or that it finds no memory.
fn told<D: Disk>(keeper: &Keeper<D>, query: &Query) -> Reply
    ensures { TellsOf (state_in keeper.now) (query_of query.now) (reply_of result) }
{
    match keeper.query(query) {
        Ok(reply) => reply,
        Err(_) => Reply::Refused(Refusal::NoMemory),
    }
}

/// Puts out the reply that is due: an input's is the first of the replies at hand, and the others are left.
fn pay<'a, D: Disk>(
    alloc: Global,
    keeper: &Keeper<D>,
    session: &mut Session,
    due: &Due,
    replies: &'a [Reply],
) -> &'a [Reply]
    requires { replies_due due.now ≤ length replies.now }
    ensures pays { Pays (state_in keeper.now) due.now (map reply_of replies.now) (map reply_of result.now) session.old session.new }
    ensures left { length result.now + replies_due due.now ≡ length replies.now }
{
    match due {
        Due::Nothing => replies,
        Due::Input => {
            let Some((reply, left)) = replies.split_first() else {
                unreachable!();
            };
            put_out(alloc, session, reply);
            left
        }
        Due::Query(query) => {
            let reply = told(keeper, query);
            put_out(alloc, session, &reply);
            replies
        }
        Due::Reply(reply) => {
            put_out(alloc, session, reply);
            replies
        }
    }
}

/// Puts out the reply that is due for each connection.
pub fn pay_all<D: Disk>(
    alloc: Global,
    keeper: &Keeper<D>,
    sessions: &mut [Session],
    owed: &[Due],
    replies: &[Reply],
)
    requires as_many { length sessions.old ≡ length owed.now }
    requires enough { replies_owed owed.now ≤ length replies.now }
    ensures { PaysAll (state_in keeper.now) owed.now (map reply_of replies.now) sessions.old sessions.new }
{
    let Some((session, sessions)) = sessions.split_first_mut() else {
        return;
    };
    let Some((due, owed)) = owed.split_first() else {
        return;
    };
    let replies = pay(alloc, keeper, session, due, replies);
    pay_all(alloc, keeper, sessions, owed, replies);
}
