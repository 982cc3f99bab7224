//! A gate in memory, for tests and for proofs.

ghost use Rattle.std.specs.Prelude.{◌≡◌, ◌≢◌, ◌≤◌, ◌<◌, ◌++◌, ◌∷◌, [], ℕ, map, min, take, drop, length, slice_get, slice_set, not, true, false, Some, None, IsTrue, IfOk, IfSome, OnOk, OnErr, vec_capacity};
ghost use Rattle.um_gate.specs.Events.{accepted, read, wrote, dropped, came};
ghost use Rattle.um_gate.specs.Fakes as model;
ghost use Rattle.um_gate.specs.Fakes.{after_accept, after_read, client_at, first_taken, given_up, is_due, is_free, is_there, limit_of, nobody, sent_by, unsent, with_client};
ghost use Rattle.um_gate.specs.Notes.{events_of};

use crate::gate::{CONNECTIONS, Gate, MOST_BYTES, Open};
use crate::note::Note;
use std::alloc::{AllocError, Global};
use std::collections::VecDeque;
use std::marker::Model;

/// A client of a gate in memory.
#[derive(Debug, Drop)]
struct Client {
    /// The number of its connection.
    number: usize,
    /// The bytes it sends, a part a read; an empty part is a moment of silence.
    parts: Vec<Vec<u8>>,
    /// It leaves once all is sent.
    leaves: bool,
    /// The most bytes that it takes of a write.
    limit: usize,
}

impl Model for Client {
    ghost Value = { model.Client };

    ghost view = { λ c. record { number = c.number; parts = map (λ part. part.items) c.parts.items; leaves = c.leaves; limit = c.limit } };
}

/// A gate in memory. It is honest, and keeps its list.
///
/// Its clients are given beforehand, each under a number, and wait to be accepted in the order in which they were given.
#[derive(Drop)]
pub struct FakeGate {
    alloc: Global,
    notes: Vec<Note>,
    /// Those that wait, the first first.
    waiting: VecDeque<Client>,
    /// Those that were accepted, by the numbers of their connections.
    places: Vec<Option<Client>>,
    /// The accept that fails, counted from now on: 1 is the next, 0 none.
    fuse: usize,
    /// An event is missing from the notes.
    lost: bool,
}

impl Model for FakeGate {
    ghost Value = { model.InMemory };

    ghost view = { λ g. record { past = events_of g.notes.items; is_whole = not g.lost; clients = record { waiting = g.waiting.items; places = g.places.items; fuse = g.fuse } } };

    ghost invariant = { λ g. length g.places.items ≡ 64 };
}

/// The bytes again, where there is memory.
fn copied(alloc: Global, bytes: &[u8]) -> Option<Vec<u8>>
    ensures { IfSome result (λ copy. copy.items ≡ bytes.now) }
{
    let mut copy = Vec::new(alloc);
    copy.extend_from_slice(bytes).ok()?;
    Some(copy)
}

/// Notes a read, where there is memory.
fn note_read(
    alloc: Global,
    notes: &mut Vec<Note>,
    number: usize,
    most: usize,
    is_open: bool,
    bytes: &[u8],
) -> bool
    ensures { result ≡ true → events_of notes.new.items ≡ events_of notes.old.items ++ read number most (came is_open bytes.now) ∷ [] }
{
    if !is_open {
        return notes.push(Note::Closed { number, most }).is_ok();
    }
    let Some(bytes) = copied(alloc, bytes) else {
        return false;
    };
    let note = Note::Came {
        number,
        most,
        bytes,
    };
    notes.push(note).is_ok()
}

/// Notes a write, where there is memory.
fn note_write(
    alloc: Global,
    notes: &mut Vec<Note>,
    number: usize,
    offered: &[u8],
    taken: &[u8],
) -> bool
    ensures { result ≡ true → events_of notes.new.items ≡ events_of notes.old.items ++ wrote number offered.now taken.now ∷ [] }
{
    let (Some(offered), Some(taken)) = (copied(alloc, offered), copied(alloc, taken)) else {
        return false;
    };
    let note = Note::Wrote {
        number,
        offered,
        taken,
    };
    notes.push(note).is_ok()
}

/// The connections of those that are there.
fn open_of(places: &[Option<Client>]) -> Open
    requires { length places.now ≡ 64 }
    ensures { (n : ℕ) → n < 64 → slice_get result.is_open n ≡ Some (is_there (client_at n places.now)) }
{
    let mut is_open = [false; CONNECTIONS];
    for number in 0..CONNECTIONS {
        is_open[number] = places[number].is_some();
    }
    Open { is_open }
}

/// As many free places as there are connections.
fn free_places(alloc: Global) -> Result<Vec<Option<Client>>, AllocError>
    ensures { IfOk result (λ places. places.items ≡ nobody.places) }
{
    let mut places = Vec::with_capacity(alloc, CONNECTIONS)?;
    for _ in 0..CONNECTIONS {
        places.push(None)?;
    }
    Ok(places)
}

/// Takes the front of a part, `most` bytes at most.
fn take_front(part: &mut Vec<u8>, most: usize, bytes: &mut Vec<u8>)
    requires empty { bytes.old.items ≡ [] }
    requires room { most ≤ vec_capacity bytes.old }
    ensures came { bytes.new.items ≡ take most part.old.items }
    ensures bound { length bytes.new.items ≤ most }
    ensures left { part.new.items ≡ drop most part.old.items }
{
    let size = part.len().min(most);
    match bytes.extend_from_slice(&part[..size]) {
        Ok(()) => {}
        Err(_) => unreachable!(),
    }
    part.drain(..size);
}

impl Client {
    /// Sends the next part, `most` bytes of it at most.
    fn send(&mut self, most: usize, bytes: &mut Vec<u8>)
        requires some { self.old.parts ≢ [] }
        requires empty { bytes.old.items ≡ [] }
        requires room { most ≤ vec_capacity bytes.old }
        ensures came { Some bytes.new.items ≡ sent_by most (Some self.old) }
        ensures bound { length bytes.new.items ≤ most }
        ensures left { self.new ≡ record self.old { parts = unsent most self.old.parts } }
    {
        let is_all = self.parts[0].len() <= most;
        take_front(&mut self.parts[0], most, bytes);
        if is_all {
            self.parts.remove(0);
        }
    }
}

/// Reads the bytes that are there of a place, and returns whether it is open still.
fn read_place(place: &mut Option<Client>, most: usize, bytes: &mut Vec<u8>) -> bool
    requires empty { bytes.old.items ≡ [] }
    requires room { most ≤ vec_capacity bytes.old }
    ensures came { came result bytes.new.items ≡ sent_by most place.old }
    ensures bound { length bytes.new.items ≤ most }
    ensures left { place.new ≡ after_read most place.old }
{
    let Some(client) = place else {
        return false;
    };
    if !client.parts.is_empty() {
        client.send(most, bytes);
        return true;
    }
    let leaves = client.leaves;
    if leaves {
        *place = None;
    }
    !leaves
}

/// Reads the bytes that are there of the place of a number.
fn read_at(
    places: &mut Vec<Option<Client>>,
    number: usize,
    most: usize,
    bytes: &mut Vec<u8>,
) -> bool
    requires empty { bytes.old.items ≡ [] }
    requires room { most ≤ vec_capacity bytes.old }
    ensures came { came result bytes.new.items ≡ sent_by most (client_at number places.old.items) }
    ensures bound { length bytes.new.items ≤ most }
    ensures left { places.new.items ≡ slice_set places.old.items number (after_read most (client_at number places.old.items)) }
{
    if number >= places.len() {
        return false;
    }
    read_place(&mut places[number], most, bytes)
}

/// How many bytes of a write the client of a place takes at most.
fn limit_of(place: &Option<Client>) -> usize
    ensures { result ≡ limit_of place.now }
{
    match place {
        Some(client) => client.limit,
        None => 0,
    }
}

/// The client of a place is gone: it sends nothing more, and takes nothing.
fn give_up(place: &mut Option<Client>)
    ensures { place.new ≡ given_up place.old }
{
    if let Some(client) = place {
        client.parts.clear();
        client.leaves = true;
        client.limit = 0;
    }
}

/// The client of a number is gone.
fn give_up_at(places: &mut Vec<Option<Client>>, number: usize)
    ensures { places.new.items ≡ slice_set places.old.items number (given_up (client_at number places.old.items)) }
{
    if number >= places.len() {
        return;
    }
    give_up(&mut places[number]);
}

/// Takes a client under its number; where that isn't free its connection is closed unread.
fn take_client(places: &mut Vec<Option<Client>>, client: Client)
    ensures { places.new.items ≡ with_client client places.old.items }
{
    let number = client.number;
    if number >= places.len() || places[number].is_some() {
        return;
    }
    places[number] = Some(client);
}

impl FakeGate {
    /// A gate to which no client has connected yet.
    pub fn new(alloc: Global) -> Result<FakeGate, AllocError>
        ensures past { IfOk result (λ gate. gate.past ≡ []) }
        ensures whole { IfOk result (λ gate. gate.is_whole ≡ true) }
        ensures clients { IfOk result (λ gate. gate.clients ≡ nobody) }
    {
        Ok(FakeGate {
            alloc,
            notes: Vec::new(alloc),
            waiting: VecDeque::new(alloc),
            places: free_places(alloc)?,
            fuse: 0,
            lost: false,
        })
    }

    /// A client connects, after those that wait. Under its number it sends these parts: one a read, or as much of it as
    /// that reads at most. It leaves then, if it `leaves`, and takes at most `limit` bytes of a write. If there is no
    /// memory for it, it doesn't connect.
    pub fn client(
        &mut self,
        number: usize,
        parts: Vec<Vec<u8>>,
        leaves: bool,
        limit: usize,
    ) -> Result<(), AllocError>
        ensures comes { OnOk result (self.new.clients ≡ record self.old.clients {
          waiting = self.old.clients.waiting
              ++ record { number = number; parts = map (λ part. part.items) parts.items; leaves = leaves; limit = limit } ∷ [];
        }) }
        ensures err { OnErr result (self.new.clients ≡ self.old.clients) }
        ensures past { self.new.past ≡ self.old.past }
        ensures whole { self.new.is_whole ≡ self.old.is_whole }
    {
        let client = Client {
            number,
            parts,
            leaves,
            limit,
        };
        self.waiting.push_back(client)?;
        Ok(())
    }

    /// Fails the `fails`-th accept from now on: it takes nobody, and each client that waits goes on waiting. With 0
    /// none fails.
    pub fn fuse(&mut self, fails: usize)
        ensures { self.new ≡ record self.old { clients = record self.old.clients { fuse = fails } } }
    {
        self.fuse = fails;
    }

    /// Its events so far, the oldest first.
    pub fn notes(&self) -> &[Note]
        ensures { events_of result.now ≡ self.now.past }
    {
        self.notes.as_slice()
    }

    /// Takes the client that connected first, if its number is free.
    fn take_first(&mut self)
        ensures clients { self.new.clients ≡ first_taken self.old.clients.waiting self.old.clients }
        ensures past { self.new.past ≡ self.old.past }
        ensures whole { self.new.is_whole ≡ self.old.is_whole }
    {
        let Some(client) = self.waiting.pop_front() else {
            return;
        };
        take_client(&mut self.places, client);
    }
}

impl Gate for FakeGate {
    ghost past = { λ gate. gate.past };

    ghost whole = { λ gate. gate.is_whole };

    ghost honest = { λ _. true };

    fn accept(&mut self) -> Open
        ensures past { IsTrue true → IsTrue self.new.is_whole → self.new.past ≡ self.old.past ++ accepted result.is_open ∷ [] }
        ensures whole { IsTrue self.new.is_whole → IsTrue self.old.is_whole }
        ensures honest { true ≡ true }
        ensures clients { self.new.clients ≡ after_accept self.old.clients }
        ensures open { (n : ℕ) → n < 64 → slice_get result.is_open n ≡ Some (is_there (client_at n self.new.clients.places)) }
    {
        let fails = self.fuse == 1;
        self.fuse = self.fuse.saturating_sub(1);
        if !fails {
            self.take_first();
        }
        let open = open_of(self.places.as_slice());
        if self.notes.push(Note::Accepted(open)).is_err() {
            self.lost = true;
        }
        open
    }

    fn read(&mut self, number: usize, most: usize, bytes: &mut Vec<u8>) -> bool
        requires empty { bytes.old.items ≡ [] }
        requires few { most ≤ MOST_BYTES }
        requires room { most ≤ vec_capacity bytes.old }
        ensures past { IsTrue true → IsTrue self.new.is_whole → self.new.past ≡ self.old.past ++ read number most (came result bytes.new.items) ∷ [] }
        ensures whole { IsTrue self.new.is_whole → IsTrue self.old.is_whole }
        ensures honest { true ≡ true }
        ensures clients { self.new.clients ≡ record self.old.clients { places = slice_set self.old.clients.places number (after_read most (client_at number self.old.clients.places)) } }
        ensures bound { length bytes.new.items ≤ most }
        ensures came { came result bytes.new.items ≡ sent_by most (client_at number self.old.clients.places) }
    {
        let is_open = read_at(&mut self.places, number, most, bytes);
        if !note_read(
            self.alloc,
            &mut self.notes,
            number,
            most,
            is_open,
            bytes.as_slice(),
        ) {
            self.lost = true;
        }
        is_open
    }

    fn write(&mut self, number: usize, bytes: &[u8]) -> usize
        ensures past { IsTrue true → IsTrue self.new.is_whole → self.new.past ≡ self.old.past ++ wrote number bytes.now (take result bytes.now) ∷ [] }
        ensures whole { IsTrue self.new.is_whole → IsTrue self.old.is_whole }
        ensures honest { true ≡ true }
        ensures clients { self.new.clients ≡ self.old.clients }
        ensures bound { result ≤ length bytes.now }
        ensures taken { result ≡ min (limit_of (client_at number self.old.clients.places)) (length bytes.now) }
    {
        let count = match self.places.get(number) {
            Some(place) => limit_of(place).min(bytes.len()),
            None => 0,
        };
        if !note_write(self.alloc, &mut self.notes, number, bytes, &bytes[..count]) {
            self.lost = true;
        }
        count
    }

    fn drop_connection(&mut self, number: usize)
        ensures past { IsTrue true → IsTrue self.new.is_whole → self.new.past ≡ self.old.past ++ dropped number ∷ [] }
        ensures whole { IsTrue self.new.is_whole → IsTrue self.old.is_whole }
        ensures honest { true ≡ true }
        ensures clients { self.new.clients ≡ record self.old.clients { places = slice_set self.old.clients.places number (given_up (client_at number self.old.clients.places)) } }
    {
        give_up_at(&mut self.places, number);
        if self.notes.push(Note::Dropped(number)).is_err() {
            self.lost = true;
        }
    }
}
