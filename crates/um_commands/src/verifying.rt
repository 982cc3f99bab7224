//! `umd verify`: which units of folders and files can't be loaded and why, and which of their lines have no effect.

use crate::answers::put_text;
use crate::showing::push_shown;
use std::alloc::{AllocError, Global};
use std::fs::Files;
use um_line::{DEVICE, REFUSED, USAGE, VerifyLine, put_line};
use um_memory::Fault;
use um_verify::{Finding, VerifyFault, collect};

/// Appends the line of a finding.
fn push_finding(text: &mut String, alloc: Global, finding: &Finding) -> Result<(), AllocError> {
    let line = finding.to_line(alloc)?;
    push_shown(text, alloc, line.as_str())
}

/// The lines of all findings.
fn text_of(alloc: Global, findings: &[Finding]) -> Result<String, AllocError> {
    let mut text = String::new(alloc);
    for finding in findings {
        push_finding(&mut text, alloc, finding)?;
    }
    Ok(text)
}

/// The findings of the units in folders and files.
fn findings_in<R: Files>(
    rt: &R,
    alloc: Global,
    paths: &[&str],
) -> Result<Vec<Finding>, VerifyFault> {
    um_verify::verify(collect(rt, alloc, paths)?)
}

/// Says why nothing could be verified, and returns the exit status.
pub fn tell_unread<R: Eprint>(rt: &R, alloc: Global, fault: &VerifyFault) -> Result<u8, Fault> {
    match fault {
        VerifyFault::Twice { path, other } => {
            put_line(
                rt,
                alloc,
                format_args!("error: {other} and {path} are the same file of a tree"),
            );
            Ok(USAGE)
        }
        VerifyFault::Read(path, error) => {
            put_line(rt, alloc, format_args!("umd: {path}: {error}"));
            Ok(DEVICE)
        }
        VerifyFault::Refused(refusal) => {
            put_line(rt, alloc, format_args!("{refusal}"));
            Ok(REFUSED)
        }
        VerifyFault::NoMemory => Err(Fault::NoMemory),
    }
}

/// Prints the findings, and returns the exit status.
fn put_findings<R: Print>(rt: &R, alloc: Global, findings: &[Finding]) -> Result<u8, Fault> {
    let text = text_of(alloc, findings)?;
    put_text(rt, text.as_str())?;
    if findings.iter().any(|finding| finding.stops) {
        Ok(REFUSED)
    } else {
        Ok(0)
    }
}

/// Verifies unit files, prints the findings, and returns the exit status. A fault if standard output can't be written or
/// memory is refused.
pub fn verify<R: Files + Print + Eprint>(
    rt: &R,
    alloc: Global,
    line: &VerifyLine<'_>,
) -> Result<u8, Fault> {
    match findings_in(rt, alloc, line.paths.as_slice()) {
        Ok(findings) => put_findings(rt, alloc, findings.as_slice()),
        Err(fault) => tell_unread(rt, alloc, &fault),
    }
}
