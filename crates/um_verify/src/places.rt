//! Files that were read into a tree, and their places on the disk.

use crate::fault::VerifyFault;
use crate::finding::Finding;
use std::alloc::Global;
use std::collections::BTreeMap;
use um_tree::{ServedPath, Tree};
use um_wire::Refusal;

/// Files that were read into a tree.
#[derive(Drop)]
pub struct Collected {
    pub(crate) alloc: Global,
    pub(crate) tree: Tree,
    /// The paths of the files on the disk, by those in the tree.
    pub(crate) origins: BTreeMap<String, String>,
    /// The findings about files that aren't in the tree.
    pub(crate) findings: Vec<Finding>,
    /// The files that can't be put at their places in a tree, and why, a line each.
    pub(crate) misfits: Vec<String>,
}

impl Collected {
    /// An empty tree, without any finding or misfit.
    pub(crate) fn new(alloc: Global) -> Collected {
        Collected {
            alloc,
            tree: Tree::new(alloc),
            origins: BTreeMap::new(alloc),
            findings: Vec::new(alloc),
            misfits: Vec::new(alloc),
        }
    }

    /// The files and links that were read.
    pub fn tree(&self) -> &Tree {
        &self.tree
    }

    /// The files that no command would put at their places in a tree, and why: `lib/a.txt: E12 BadPath lib/a.txt`.
    pub fn misfits(&self) -> &[String] {
        self.misfits.as_slice()
    }

    /// Notes that the entry at a place can't be put there.
    pub(crate) fn misfit(&mut self, place: &str, why: &str) -> Result<(), VerifyFault> {
        let line = format!(in self.alloc; "{place}: {why}")?;
        self.misfits.push(line)?;
        Ok(())
    }

    /// Notes that nothing of this kind can be put at a place, or nothing at all.
    pub(crate) fn no_place(&mut self, place: &str) -> Result<(), VerifyFault> {
        let line = format!(in self.alloc; "{place}: E12 BadPath {place}")?;
        self.misfits.push(line)?;
        Ok(())
    }

    /// Reports that a file is none of a unit.
    pub(crate) fn tell_no_unit(&mut self, path: &str) -> Result<(), VerifyFault> {
        self.tell(path, "no unit file", false)
    }

    /// Reports that the entry at a place is no file of a unit.
    pub(crate) fn tell_no_place(&mut self, place: &str, path: &str) -> Result<(), VerifyFault> {
        self.no_place(place)?;
        self.tell_no_unit(path)
    }

    /// Reports that a file is no text.
    pub(crate) fn tell_no_text(&mut self, place: &str, path: &str) -> Result<(), VerifyFault> {
        self.misfit(place, "not UTF-8")?;
        self.tell(path, "not UTF-8", true)
    }

    /// Reports that a file is too long.
    pub(crate) fn tell_too_long(&mut self, place: &str, path: &str) -> Result<(), VerifyFault> {
        self.misfit(place, "E13 TooLarge text")?;
        self.tell(path, "longer than 65536 bytes", true)
    }

    /// Reports on a whole file.
    pub(crate) fn tell(&mut self, path: &str, text: &str, stops: bool) -> Result<(), VerifyFault> {
        let finding = Finding::of_file(self.alloc, path, text, stops)?;
        self.findings.push(finding)?;
        Ok(())
    }

    /// Whether the tree can have a file at the path; if not, false is returned and that is reported.
    pub(crate) fn takes(&mut self, place: &str, path: &str) -> Result<bool, VerifyFault> {
        if ServedPath::parse(place).is_none() {
            self.tell_no_place(place, path)?;
            return Ok(false);
        }
        match self.origins.get(place) {
            Some(other) => Err(VerifyFault::Twice {
                path: String::from_str(self.alloc, path)?,
                other: other.clone()?,
            }),
            None => Ok(true),
        }
    }

    /// Notes the path on the disk of the file at a path of the tree.
    fn note(&mut self, place: &str, path: &str) -> Result<(), VerifyFault> {
        let place = String::from_str(self.alloc, place)?;
        let path = String::from_str(self.alloc, path)?;
        self.origins.insert(place, path)?;
        Ok(())
    }

    /// Puts a file with this text at the path of the tree.
    pub(crate) fn put_file(
        &mut self,
        place: &str,
        path: &str,
        text: &str,
    ) -> Result<(), VerifyFault> {
        match self.tree.put(place, text) {
            Ok(()) => self.note(place, path),
            Err(
                Refusal::TooLarge {
                    limit: um_wire::Limit::Text,
                },
            ) => self.tell_too_long(place, path),
            Err(refusal) => Err(VerifyFault::from(refusal)),
        }
    }

    /// Puts a link at the path of the tree. False if it can't be there.
    pub(crate) fn put_link(
        &mut self,
        place: &str,
        path: &str,
        target: &str,
    ) -> Result<bool, VerifyFault> {
        match self.tree.link(place, target) {
            Ok(()) => {
                self.note(place, path)?;
                Ok(true)
            }
            Err(Refusal::BadPath { path: _ }) => {
                self.no_place(place)?;
                Ok(false)
            }
            Err(refusal) => Err(VerifyFault::from(refusal)),
        }
    }
}
