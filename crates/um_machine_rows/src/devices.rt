//! A reader that gives little at a time, and a writer that fails.
use crate::script::front;
use crate::texts::{DONE, RELOAD};
use std::io;
use std::io::{ErrorKind, Read, Write};
use std::process::Abort;
use um_asserts::{frames, same, same_at};
use um_memory::{Ending, Fault, memory};

/// A reader that gives its bytes one at a time.
#[derive(Drop)]
pub struct Slow {
    pub bytes: Vec<u8>,
    pub given: usize,
}

impl Read for Slow {
    fn read(&mut self, buf: &mut [u8]) -> io::Result<usize> {
        if buf.is_empty() || self.given >= self.bytes.len() {
            return Ok(0);
        }
        buf[0] = self.bytes[self.given];
        self.given += 1;
        Ok(1)
    }
}

/// A writer that takes one byte at a time, and fails once it has taken a given number.
#[derive(Drop)]
struct Short {
    left: usize,
    taken: Vec<u8>,
}

impl Write for Short {
    fn write(&mut self, buf: &[u8]) -> io::Result<usize> {
        if self.left == 0 {
            return Err(io::Error::from(ErrorKind::BrokenPipe));
        }
        if buf.is_empty() {
            return Ok(0);
        }
        self.taken.push(buf[0])?;
        self.left -= 1;
        Ok(1)
    }

    fn flush(&mut self) -> io::Result<()> {
        Ok(())
    }
}

/// How the serving ended, or the kind of the failure of its writer.
fn ended(answer: &Result<Ending, Fault>) -> (Option<Ending>, Option<ErrorKind>) {
    match answer {
        Ok(ending) => (Some(*ending), None),
        Err(Fault::Write(error)) => (None, Some(error.kind())),
        Err(_) => (None, None),
    }
}

/// Asserts that a writer with room for this number of bytes has taken that many of the replies, and that serving ends at its failure if
/// they are more.
fn takes(rt: &(impl AllocGlobal + Abort), input: &[u8], replies: &[u8], left: usize) {
    let mut output = Short {
        left,
        taken: Vec::new(rt.alloc()),
    };
    let mut rest = input;
    let answer = memory(rt.alloc(), &mut rest, &mut output);
    let wanted = if left < replies.len() {
        (None, Some(ErrorKind::BrokenPipe))
    } else {
        (Some(Ending::Between), None)
    };
    same_at!(rt, ended(&answer), wanted, (left, &answer));
    same_at!(rt, output.taken.as_slice(), front(replies, left), left);
}

#[test]
fn a_writer_that_fails_has_taken_a_beginning_of_the_replies(rt: HostRuntime) {
    let input = frames(rt.alloc(), &[RELOAD, RELOAD]).expect(&rt, "no memory");
    let replies = frames(rt.alloc(), &[DONE, DONE]).expect(&rt, "no memory");
    same!(&rt, replies.len(), 30);
    for left in 0..31usize {
        takes(&rt, input.as_slice(), replies.as_slice(), left);
    }
}
