//! A gate over a Unix socket.

ghost use Rattle.std.specs.Prelude.{◌≡◌, ◌≤◌, [], length, false, true, IfOk, IfSome, vec_capacity};

use crate::gate::{CONNECTIONS, Gate, MOST_BYTES, Open};
use crate::listener::listener_at;
use crate::news::News;
use mio::net::{UnixListener, UnixStream};
use mio::{Events, Interest, Poll, Token};
use std::alloc::{AllocError, Global};
use std::fs::Files;
use std::io::{ErrorKind, Read, Write};
use std::net::Net;
use std::time::Duration;
use std::{fs, io, mem};

/// The most events that one wait reports.
const EVENTS: usize = 128;

/// The listener's events have this token; those of a connection its number.
const LISTENER: usize = CONNECTIONS;

/// And those of the socket of news this one.
const NEWS: usize = CONNECTIONS + 1;

/// The place under the number of a connection.
#[derive(Drop)]
enum Place {
    Free,
    Open(UnixStream),
    /// It failed in a write, or was given up: its next read reports it closed.
    Broken,
}

/// A gate over a Unix socket, of which no call waits but `wait`.
///
/// No contract can say which bytes a socket gives and takes. So `honest` isn't claimed of it, and of the clauses of
/// `Gate` only those on the number of bytes say something here. That a socket follows the list of events is a premise
/// of the proofs above.
#[derive(Drop)]
pub struct SocketGate {
    poll: Poll,
    events: Events,
    listener: UnixListener,
    /// The last accept took a client: another one may wait that no event reports any more.
    has_accepted: bool,
    /// The socket at which the gate is woken; None before it was made.
    news: Option<News>,
    /// A descriptor that is released if none is left to accept a connection to that socket, so that files can be read
    /// after the wake.
    spare: Option<Poll>,
    /// Why no connection to that socket could be closed while the spare descriptor was there.
    fault: Option<io::Error>,
    places: Vec<Place>,
    /// Where a read puts its bytes first.
    buffer: Vec<u8>,
    ghost full: { length buffer.items ≡ 4096 },
}

/// As many free places as there are connections.
fn free_places(alloc: Global) -> Result<Vec<Place>, AllocError> {
    let mut places = Vec::with_capacity(alloc, CONNECTIONS)?;
    for _ in 0..CONNECTIONS {
        places.push(Place::Free)?;
    }
    Ok(places)
}

/// A buffer of as many bytes as a read gives at most.
fn full_buffer(alloc: Global) -> Result<Vec<u8>, AllocError>
    ensures { IfOk result (λ buffer. length buffer.items ≡ MOST_BYTES) }
{
    let mut buffer = Vec::new(alloc);
    buffer.resize(MOST_BYTES, 0)?;
    Ok(buffer)
}

/// The least number that is free.
fn free_number(places: &[Place]) -> Option<usize> {
    places.iter().position(|place| matches!(place, Place::Free))
}

/// Reads a stream: the number of bytes in the buffer, or none if it is closed.
fn read_stream(stream: &mut UnixStream, buffer: &mut [u8]) -> Option<usize>
    ensures { IfSome result (λ count. count ≤ length buffer.old) }
{
    // the system answers a read of no bytes as it answers at the end
    if buffer.is_empty() {
        return Some(0);
    }
    match stream.read(buffer) {
        Ok(0) => None,
        Ok(count) => Some(count),
        Err(e) => match e.kind() {
            ErrorKind::WouldBlock | ErrorKind::Interrupted => Some(0),
            _ => None,
        },
    }
}

/// How many of the bytes a stream takes; none where it failed.
fn write_stream(stream: &mut UnixStream, bytes: &[u8]) -> Option<usize>
    ensures { IfSome result (λ count. count ≤ length bytes.now) }
{
    if bytes.is_empty() {
        return Some(0);
    }
    match stream.write(bytes) {
        Ok(count) => Some(count),
        Err(e) => match e.kind() {
            ErrorKind::WouldBlock | ErrorKind::Interrupted => Some(0),
            _ => None,
        },
    }
}

impl SocketGate {
    /// Serves a socket at `path`, to which its owner alone may connect from its first moment on. It takes the place of
    /// a socket at which nobody answers. It is made in a folder beside it, at `path` with `.new` appended, which is
    /// removed again.
    ///
    /// `AddrInUse` and `AlreadyExists` as of `look_at_socket`, with the file there left as it is; another error where
    /// the system refuses it, as for a path past 101 bytes, or where memory is refused.
    pub fn open<R: Files + Net>(rt: &R, alloc: Global, path: &str) -> io::Result<SocketGate> {
        let poll = Poll::new(rt)?;
        let events = Events::with_capacity(alloc, EVENTS)?;
        let places = free_places(alloc)?;
        let buffer = full_buffer(alloc)?;
        let mut listener = listener_at(rt, alloc, path)?;
        poll.registry()
            .register(&mut listener, Token(LISTENER), Interest::READABLE)?;
        Ok(SocketGate {
            poll,
            events,
            listener,
            has_accepted: false,
            news: None,
            spare: None,
            fault: None,
            places,
            buffer,
        })
    }

    /// Makes a socket at `path` as `open` does, which wakes the gate: each connection to it is closed, and nothing is
    /// read. It takes the place of one that was made before. From then on the gate has a spare descriptor: one for
    /// files if it is woken and the system has no other.
    ///
    /// The same errors as those of `open`. After one the socket made before is as it was, unless the poll takes no
    /// further socket: then one at which nobody answers stands at the path.
    pub fn open_news<R: Files + Net>(
        &mut self,
        rt: &R,
        alloc: Global,
        path: &str,
    ) -> io::Result<()> {
        self.take_spare(rt)?;
        let mut listener = listener_at(rt, alloc, path)?;
        self.poll
            .registry()
            .register(&mut listener, Token(NEWS), Interest::READABLE)?;
        self.news = Some(News::of(listener));
        Ok(())
    }

    /// Takes the spare descriptor, where it isn't there.
    fn take_spare<R: Files + Net>(&mut self, rt: &R) -> io::Result<()> {
        if self.spare.is_none() {
            self.spare = Some(Poll::new(rt)?);
        }
        Ok(())
    }

    /// Makes the socket of news at `path` again if nothing stands there any more, and takes the spare descriptor again.
    /// A file that stands there is left as it is.
    ///
    /// The same errors as those of `open_news`, or another one where the system refuses the look.
    pub fn keep_news<R: Files + Net>(
        &mut self,
        rt: &R,
        alloc: Global,
        path: &str,
    ) -> io::Result<()> {
        self.take_spare(rt)?;
        match fs::symlink_metadata(rt, path) {
            Err(e) if e.kind() == ErrorKind::NotFound => self.open_news(rt, alloc, path),
            Err(e) => Err(e),
            Ok(_) => Ok(()),
        }
    }

    /// Why no connection to the socket of news can be closed, by the last look after which the spare descriptor was
    /// there; None once that went well again.
    pub fn news_fault(&self) -> Option<&io::Error> {
        self.fault.as_ref()
    }

    /// Whether a connection may wait at the socket of news that no event reports any more.
    fn has_more_news(&self) -> bool {
        match &self.news {
            Some(news) => news.has_more(),
            None => false,
        }
    }

    /// Closes the connections to the socket of news, 64 at most, and returns whether there was any. If no descriptor is
    /// left for that the spare one is released, until it is taken again.
    fn take_news(&mut self) -> bool {
        let Some(news) = &mut self.news else {
            return false;
        };
        let is_woken = news.take();
        // once the spare one is released it isn't known whether others are left
        if self.spare.is_some() {
            self.fault = news.take_fault();
            if self.fault.is_some() {
                self.spare = None;
            }
        }
        is_woken
    }

    /// Waits until an event occurs, but no longer than this, and returns whether one did.
    fn wait_for_event(&mut self, longest: Duration) -> bool {
        match self.poll.poll(&mut self.events, Some(longest)) {
            Ok(()) => !self.events.is_empty(),
            // if the system refuses to wait, a look shows what there is
            Err(_) => true,
        }
    }

    /// Waits until a client connects, bytes arrive, a connection takes bytes again, or the gate is woken, but no longer
    /// than this, and returns whether any of it may be. It is a hint alone: the caller then looks at each open
    /// connection, since the same client or bytes aren't reported a second time.
    pub fn wait(&mut self, longest: Duration) -> bool {
        if mem::replace(&mut self.has_accepted, false) {
            return true;
        }
        let longest = if self.has_more_news() {
            Duration::ZERO
        } else {
            longest
        };
        let has_event = self.wait_for_event(longest);
        // in any case, since no event reports again a connection that couldn't be closed
        self.take_news() | has_event
    }

    /// The next client, if one waits. It doesn't get the descriptor that the spare one leaves.
    fn next_client(&mut self) -> Option<UnixStream> {
        if self.news.is_some() && self.spare.is_none() {
            return None;
        }
        let (stream, _) = self.listener.accept().ok()?;
        Some(stream)
    }

    /// Takes a client under a free number; if none is free its connection is closed.
    fn take_client(&mut self, mut stream: UnixStream) {
        let Some(number) = free_number(self.places.as_slice()) else {
            return;
        };
        let interest = Interest::READABLE | Interest::WRITABLE;
        let registry = self.poll.registry();
        if registry
            .register(&mut stream, Token(number), interest)
            .is_err()
        {
            return;
        }
        if let Some(place) = self.places.get_mut(number) {
            *place = Place::Open(stream);
        }
    }
}

/// Which places aren't free.
fn open_of(places: &[Place]) -> Open {
    let mut is_open = [false; CONNECTIONS];
    for (number, place) in places.iter().enumerate() {
        if number < CONNECTIONS {
            is_open[number] = !matches!(place, Place::Free);
        }
    }
    Open { is_open }
}

/// Reads the bytes that are there of a place; none where it is closed.
fn read_place(place: &mut Place, buffer: &mut [u8]) -> Option<usize>
    ensures { IfSome result (λ count. count ≤ length buffer.old) }
{
    match place {
        Place::Open(stream) => read_stream(stream, buffer),
        Place::Free | Place::Broken => None,
    }
}

/// Puts the bytes that are there of a place into the vector, by way of the buffer, and returns whether it is open
/// still.
fn fill(place: &mut Place, buffer: &mut [u8], most: usize, bytes: &mut Vec<u8>) -> bool
    requires empty { bytes.old.items ≡ [] }
    requires few { most ≤ MOST_BYTES }
    requires room { most ≤ vec_capacity bytes.old }
    requires full { length buffer.old ≡ MOST_BYTES }
    ensures bound { length bytes.new.items ≤ most }
    ensures full { length buffer.new ≡ MOST_BYTES }
{
    let Some(count) = read_place(place, &mut buffer[..most]) else {
        *place = Place::Free;
        return false;
    };
    match bytes.extend_from_slice(&buffer[..count]) {
        Ok(()) => true,
        Err(_) => unreachable!(),
    }
}

/// How many of the bytes a place takes.
fn write_place(place: &mut Place, bytes: &[u8]) -> usize
    ensures { result ≤ length bytes.now }
{
    let taken = match place {
        Place::Open(stream) => write_stream(stream, bytes),
        Place::Free | Place::Broken => Some(0),
    };
    match taken {
        Some(count) => count,
        None => {
            *place = Place::Broken;
            0
        }
    }
}

impl Gate for SocketGate {
    // No clause reads it, since nothing is claimed of what a socket gives.
    ghost past = { λ _. [] };

    ghost whole = { λ _. true };

    ghost honest = { λ _. false };

    fn accept(&mut self) -> Open {
        let client = self.next_client();
        self.has_accepted = client.is_some();
        if let Some(stream) = client {
            self.take_client(stream);
        }
        open_of(self.places.as_slice())
    }

    fn read(&mut self, number: usize, most: usize, bytes: &mut Vec<u8>) -> bool {
        match self.places.get_mut(number) {
            Some(place) => fill(place, self.buffer.as_mut_slice(), most, bytes),
            None => false,
        }
    }

    fn write(&mut self, number: usize, bytes: &[u8]) -> usize {
        match self.places.get_mut(number) {
            Some(place) => write_place(place, bytes),
            None => 0,
        }
    }

    fn drop_connection(&mut self, number: usize) {
        if let Some(place) = self.places.get_mut(number) {
            *place = Place::Broken;
        }
    }
}
