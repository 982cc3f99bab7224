//! Scripts of requests with the replies that are wanted for them.
use std::alloc::Global;
use std::process::Abort;
use um_asserts::{push_frame, same_at};
use um_memory::{Ending, Fault, memory};

/// A script: what it shows, and its requests, each with the wanted reply. Most are constants of their own, because the prover's time for
/// one grows with its texts times their bytes.
pub struct Script {
    pub shows: &'static str,
    pub steps: &'static [(&'static str, &'static str)],
}

/// The bytes written for these, and how serving ended.
pub fn served(alloc: Global, bytes: &[u8]) -> Result<(Vec<u8>, Ending), Fault> {
    let mut input = bytes;
    let mut output = Vec::new(alloc);
    let ending = memory(alloc, &mut input, &mut output)?;
    Ok((output, ending))
}

/// The contents of the first frame and the bytes after it; all the bytes if no whole frame stands in front.
fn cut_frame(bytes: &[u8]) -> (&[u8], &[u8]) {
    let Some((length, behind)) = bytes.split_first_chunk() else {
        return (bytes, &[]);
    };
    let length = u32::from_be_bytes(*length) as usize;
    behind.split_at_checked(length).unwrap_or((bytes, &[]))
}

/// Asserts that the frames are the replies that are wanted at these steps, and no more.
pub fn has_replies(
    rt: &(impl AllocGlobal + Abort),
    output: &[u8],
    shows: &str,
    steps: &[(&str, &str)],
) {
    let mut rest = output;
    for (at, (request, wanted)) in steps.iter().enumerate() {
        let (reply, behind) = cut_frame(rest);
        let got = String::from_utf8_lossy(rt.alloc(), reply).expect(rt, "no memory");
        same_at!(rt, got.as_str(), *wanted, (shows, at + 1, request));
        rest = behind;
    }
    same_at!(rt, rest.len(), 0, (shows, "bytes behind the last reply"));
}

/// Plays the steps, each a request with the reply that is wanted for it, and stops at the first other reply.
pub fn play(rt: &(impl AllocGlobal + Abort), shows: &str, steps: &[(&str, &str)]) {
    let mut input = Vec::new(rt.alloc());
    for (request, _) in steps {
        push_frame(&mut input, request).expect(rt, "no memory");
    }
    let (output, ending) = served(rt.alloc(), input.as_slice()).expect(rt, "not served");
    has_replies(rt, output.as_slice(), shows, steps);
    same_at!(rt, ending, Ending::Between, shows);
}

/// Plays the script on a store of its own.
pub fn play_script(rt: &(impl AllocGlobal + Abort), script: &Script) {
    play(rt, script.shows, script.steps);
}

/// The first `count` bytes, or all.
pub fn front(bytes: &[u8], count: usize) -> &[u8] {
    &bytes[..count.min(bytes.len())]
}

/// The bytes after the first `count`.
pub fn rest(bytes: &[u8], count: usize) -> &[u8] {
    &bytes[count.min(bytes.len())..]
}
