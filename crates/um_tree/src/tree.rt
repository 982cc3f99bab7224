//! A tree of unit files and links.
ghost use Rattle.std.specs.Prelude.{◌≡◌, ◌≤◌, ◌^◌, ◌++◌, string_bytes, Some, Ok, Err, IfErr, IfOk, IsOk, IsTrue, OnErr, OnOk, option_map};
ghost use Rattle.std.specs.FinMap as map;
ghost use Rattle.std.specs.Map.Iter.{ShowsInOrder};
ghost use Rattle.um_model.specs.Tree.{has_run};
ghost use Rattle.um_model.specs.Tree as model;
ghost use Rattle.um_model.specs.Refusals as told;
ghost use Rattle.um_model.specs.Weight.{entry_weight, tree_weight};
ghost use Rattle.um_model.specs.declared.refusals.Limit as limits;
ghost use Rattle.um_tree.specs.Code.{tree_code};
ghost use Rattle.um_tree.specs.Folder.{entries_in};
ghost use Rattle.um_tree.specs.View.{entry_of, path_with_entry, refused_by, stored_entry, tree_of};
ghost use Rattle.um_wire.specs.Refusal.{refused_of};
ghost use Rattle.um_wire.specs.declared.refusal.Refusal.TheVariants.{NoMemory, TooLarge};

use crate::cause::Cause;
use crate::entries::Entries;
use crate::entry::{Entry, Stored};
use crate::path::{ServedPath, is_fit_target};
use crate::text::behind;
use std::alloc::{AllocError, Global};
use std::collections::BTreeMap;
use std::marker::Model;
use std::rc::RcStr;
use um_model::Layer;
use um_wire::{Limit, Refusal};

/// The most bytes of a file's text.
pub(crate) const TEXT_LIMIT: usize = 65_536;

/// The most entries of a tree.
pub(crate) const ENTRY_LIMIT: usize = 4_096;

/// The weight of an entry in addition to its path and its text or target.
const ENTRY_WEIGHT: u64 = 32;

/// One text after the other.
fn joined(alloc: Global, text: &str, end: &str) -> Result<String, AllocError>
    ensures { IfOk result (λ joined. string_bytes joined ≡ text.now ++ end.now) }
{
    let mut joined = String::from_str(alloc, text)?;
    joined.push_str(end)?;
    Ok(joined)
}

/// A finite map from served paths to files and links (systemd.unit(5), "Unit File Load Path").
#[derive(Drop)]
pub struct Tree {
    pub(crate) alloc: Global,
    pub(crate) entries: BTreeMap<String, Stored>,
}

impl Model for Tree {
    ghost Value = { model.Tree };

    ghost coded = { tree_code };

    ghost view = { λ t. tree_of t.entries.entries };

    ghost invariant = { λ t. model.IsTree (tree_of t.entries.entries) };
}

impl Tree {
    /// The tree with no entry. It takes no memory.
    pub fn new(alloc: Global) -> Tree
        ensures { result ≡ map.empty }
    {
        Tree {
            alloc,
            entries: BTreeMap::new(alloc),
        }
    }

    /// The entry at the path. It takes no memory.
    pub fn get(&self, path: &str) -> Option<Entry<'_>>
        ensures { option_map entry_of result ≡ map.get self.now path.now }
    {
        match self.entries.get(path) {
            Some(entry) => Some(entry.as_entry()),
            None => None,
        }
    }

    /// The entries with their paths, in ascending order of the paths by bytes. It takes no memory.
    pub fn entries(&self) -> Entries<'_>
        ensures entries { result ≡ map.entries self.now }

        // The iterator gives them in this order.
        ensures runs { ShowsInOrder path_with_entry }
        ensures tree { model.IsTree self.now }
    {
        Entries::of(self.entries.range(..))
    }

    /// The entries in a folder with their paths, in ascending order of the paths by bytes: those whose path begins
    /// with the folder's and a slash. It doesn't go over the other entries.
    pub fn entries_in(&self, folder: &str) -> Result<Entries<'_>, AllocError>
        ensures entries { IfOk result (λ found. found ≡ entries_in folder.now self.now) }

        // The iterator gives them in this order.
        ensures runs { ShowsInOrder path_with_entry }
    {
        // the sign after the slash is the digit zero: everything between the two has the slash there
        let first = joined(self.alloc, folder, "/")?;
        let end = joined(self.alloc, folder, "0")?;
        Ok(Entries::of(self.entries.range(&first..&end)))
    }

    /// The number of entries.
    pub fn len(&self) -> usize
        ensures len { result ≡ map.len self.now }
        ensures tree { model.IsTree self.now }
    {
        self.entries.len()
    }

    /// The weight of the tree: an upper bound of the bytes that it takes in a snapshot. For each entry these are 32
    /// and the bytes of its path and of its text or target. It takes no memory.
    pub fn weight(&self) -> u64
        ensures weight { result ≡ tree_weight self.now }
        ensures light { tree_weight self.now ≤ 2 ^ 29 }
    {
        let mut weight = 0;
        for (path, entry) in self.entries() {
            weight += entry_weight(path, entry);
        }
        weight
    }

    /// A copy of the tree. It takes memory only for the paths: the two share their texts.
    pub fn copy(&self) -> Result<Tree, AllocError>
        ensures { IfOk result (λ t. t ≡ self.now) }
    {
        Ok(Tree {
            alloc: self.alloc,
            entries: self.entries.clone()?,
        })
    }
}

impl Tree {
    fn is_link_at(&self, path: &str) -> bool
        ensures { result ≡ model.is_link (map.get self.now path.now) }
    {
        match self.get(path) {
            Some(Entry::Link(_)) => true,
            Some(Entry::File(_)) => false,
            None => false,
        }
    }

    fn is_full_for(&self, path: &str) -> bool
        ensures { result ≡ model.is_full_for self.now path.now }
    {
        self.get(path).is_none() && self.len() >= ENTRY_LIMIT
    }

    /// Why `put` would refuse a file with the text at the path, if it would. It takes no memory.
    pub fn put_cause<'a>(&self, path: &'a str, text: &str) -> Option<Cause<'a>>
        ensures { option_map refused_by result ≡ model.put_cause self.now path.now text.now }
    {
        if ServedPath::parse(path).is_none() {
            return Some(Cause::BadPath { path });
        }
        if self.is_link_at(path) {
            return Some(Cause::Exists { path });
        }
        if text.len() > TEXT_LIMIT {
            return Some(Cause::TooLarge { limit: Limit::Text });
        }
        if self.is_full_for(path) {
            return Some(Cause::TooLarge {
                limit: Limit::Entries,
            });
        }
        None
    }

    fn insert(&mut self, path: &str, entry: Stored) -> Result<(), AllocError>
        requires { model.IsTree (map.insert self.old path.now (stored_entry entry)) }
        ensures ok { OnOk result (self.new ≡ map.insert self.old path.now (stored_entry entry)) }
        ensures err { OnErr result (self.new ≡ self.old) }
    {
        let path = String::from_str(self.alloc, path)?;
        self.entries.insert(path, entry)?;
        Ok(())
    }

    /// Puts a file with the text at the path, in place of a file that is there. Refused, with the tree unchanged, are
    /// a path that isn't served (E12); one at which there is a link (E11); a text of more than 65,536 bytes (E13
    /// `text`); and a new path if there are 4,096 entries (E13 `entries`). The first of these is reported. An
    /// exceeded limit is reported without memory.
    #[tactic(auto, unfolding(um_model::specs::Tree::put_file))]
    pub fn put(&mut self, path: &str, text: &str) -> Result<(), Refusal>
        ensures ok { OnOk result (model.put_file self.old path.now text.now ≡ Ok self.new) }
        ensures err { OnErr result (self.new ≡ self.old) }
        ensures refused { IfErr result (λ e. ¬ (e ≡ NoMemory) → model.put_file self.old path.now text.now ≡ Err (refused_of e)) }
        ensures large { (limit : limits.Limit) → model.put_file self.old path.now text.now ≡ Err (told.too_large limit) → result ≡ Err (TooLarge limit) }
    {
        if let Some(cause) = self.put_cause(path, text) {
            return Err(cause.refusal(self.alloc));
        }
        let text = RcStr::from_str(self.alloc, text)?;
        self.insert(path, Stored::File(text))?;
        Ok(())
    }

    fn is_other_than_link_at(&self, path: &str, target: &str) -> bool
        ensures { result ≡ model.is_other_than_link (map.get self.now path.now) target.now }
    {
        match self.get(path) {
            Some(Entry::Link(old)) => old != target,
            Some(Entry::File(_)) => true,
            None => false,
        }
    }

    /// Why `link` would refuse a link to the target at the path, if it would. It takes no memory.
    pub fn link_cause<'a>(&self, path: &'a str, target: &str) -> Option<Cause<'a>>
        ensures { option_map refused_by result ≡ model.link_cause self.now path.now target.now }
    {
        if !is_fit_target(ServedPath::parse(path), target) {
            return Some(Cause::BadPath { path });
        }
        if self.is_other_than_link_at(path, target) {
            return Some(Cause::Exists { path });
        }
        if self.is_full_for(path) {
            return Some(Cause::TooLarge {
                limit: Limit::Entries,
            });
        }
        None
    }

    /// Puts a link to the target at the path. If the same link is there, nothing changes, and no memory is taken.
    /// Refused, with the tree unchanged, are, in this order: a path that isn't served or that of a drop-in, and an
    /// unfit target (E12); a path at which there is something else (E11); and a new path if there are 4,096 entries
    /// (E13 `entries`). An exceeded limit is reported without memory.
    ///
    /// A target has 1 to 512 bytes. At `LAYER/NAME` it is `/dev/null`, or its part after the last `/` is another unit
    /// name than NAME; at a path in `.wants` or `.requires` it may be any text.
    #[tactic(auto, unfolding(um_model::specs::Tree::put_link))]
    pub fn link(&mut self, path: &str, target: &str) -> Result<(), Refusal>
        ensures ok { OnOk result (model.put_link self.old path.now target.now ≡ Ok self.new) }
        ensures err { OnErr result (self.new ≡ self.old) }
        ensures refused { IfErr result (λ e. ¬ (e ≡ NoMemory) → model.put_link self.old path.now target.now ≡ Err (refused_of e)) }
        ensures large { (limit : limits.Limit) → model.put_link self.old path.now target.now ≡ Err (told.too_large limit) → result ≡ Err (TooLarge limit) }
        ensures there { map.get self.old path.now ≡ Some (model.Link target.now) → IsOk result }
    {
        if let Some(cause) = self.link_cause(path, target) {
            return Err(cause.refusal(self.alloc));
        }
        if self.get(path).is_some() {
            return Ok(());
        }
        let target = RcStr::from_str(self.alloc, target)?;
        self.insert(path, Stored::Link(target))?;
        Ok(())
    }

    /// Whether there is an entry under `run/`. It takes no memory.
    pub fn has_run(&self) -> bool
        ensures { result ≡ has_run self.now }
    {
        for (path, _) in self.entries() {
            if is_volatile(path) {
                return true;
            }
        }
        false
    }

    /// Removes each entry under `run/`: those don't outlive a boot. It takes no memory.
    pub fn clear_run(&mut self)
        ensures { self.new ≡ model.without_run self.old }
    {
        self.entries.retain(|path, _| !is_volatile(path.as_str()));
    }

    /// Why `remove` would refuse the path, if it would. It takes no memory.
    pub fn remove_cause<'a>(&self, path: &'a str) -> Option<Cause<'a>>
        ensures { option_map refused_by result ≡ model.remove_cause self.now path.now }
    {
        match self.get(path) {
            Some(_) => None,
            None => Some(Cause::BadPath { path }),
        }
    }

    /// The tree without the path.
    fn take_out(&mut self, path: &str)
        ensures { self.new ≡ map.remove self.old path.now }
    {
        self.entries.remove(path);
    }

    /// Removes the entry at the path, without memory. If there is none, it is refused (E12), and the tree is
    /// unchanged.
    #[tactic(auto, unfolding(um_model::specs::Tree::remove_at))]
    pub fn remove(&mut self, path: &str) -> Result<(), Refusal>
        ensures ok { OnOk result (model.remove_at self.old path.now ≡ Ok self.new) }
        ensures err { OnErr result (self.new ≡ self.old) }
        ensures refused { IfErr result (λ e. ¬ (e ≡ NoMemory) → model.remove_at self.old path.now ≡ Err (refused_of e)) }
        ensures there { IsTrue (map.contains_key self.old path.now) → IsOk result }
    {
        if let Some(cause) = self.remove_cause(path) {
            return Err(cause.refusal(self.alloc));
        }
        self.take_out(path);
        Ok(())
    }
}

/// The weight of an entry at its path.
fn entry_weight(path: &str, entry: Entry<'_>) -> u64
    requires { entry_weight path.now (entry_of entry) ≤ 2 ^ 17 }
    ensures { result ≡ entry_weight path.now (entry_of entry.entry) }
{
    ENTRY_WEIGHT + path.len() as u64 + entry.text().len() as u64
}

fn is_volatile(path: &str) -> bool
    ensures { result ≡ model.is_volatile path.now }
{
    behind(Layer::Run.text(), path).is_some()
}
