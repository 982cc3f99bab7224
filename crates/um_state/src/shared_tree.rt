//! A tree as a state holds it.
ghost use Rattle.std.specs.Prelude.{◌≡◌, false, IfErr, IfOk, IfSome, OnErr, OnOk, Err, Ok};
ghost use Rattle.std.specs.Option.{option_map_or};
ghost use Rattle.std.specs.FinMap as maps;
ghost use Rattle.um_model.specs.Tree as model;
ghost use Rattle.um_tree.specs.Code.{tree_code};
ghost use Rattle.um_wire.specs.Refusal.{refused_of};
ghost use Rattle.um_wire.specs.declared.refusal.Refusal.TheVariants.{NoMemory};

use std::alloc::{AllocError, Global};
use std::marker::Model;
use std::rc::Rc;
use um_tree::Tree;
use um_wire::Refusal;

/// A tree whose copies share its paths, unless entries stand under `run/`. A boot takes those out without memory, so a tree with such
/// entries is held by itself.
pub(crate) struct SharedTree {
    alloc: Global,
    shared: Option<Rc<Tree>>,
    /// The tree, if it isn't shared.
    own: Tree,
}

impl Model for SharedTree {
    ghost Value = { model.Tree };

    ghost coded = { tree_code };

    ghost view = { λ t. option_map_or (λ rc. rc.value) t.shared t.own };

    ghost invariant = { λ t. IfSome t.shared (λ rc. model.has_run rc.value ≡ false) };
}

// One call for the prover, as for a `State`.
impl Drop for SharedTree {
    fn drop(self) {
        let SharedTree {
            alloc: _,
            shared: _shared,
            own: _own,
        } = self;
    }
}

impl SharedTree {
    /// The empty tree. It takes no memory.
    pub(crate) fn empty(alloc: Global) -> SharedTree
        ensures { result ≡ maps.empty }
    {
        SharedTree {
            alloc,
            shared: None,
            own: Tree::new(alloc),
        }
    }

    /// This tree, shared from now on unless an entry stands under `run/`.
    pub(crate) fn of(alloc: Global, tree: Tree) -> Result<SharedTree, AllocError>
        ensures { IfOk result (λ t. t ≡ tree) }
    {
        if tree.has_run() {
            return Ok(SharedTree {
                alloc,
                shared: None,
                own: tree,
            });
        }
        let tree = Rc::new(alloc, tree)?;
        Ok(SharedTree {
            alloc,
            shared: Some(tree),
            own: Tree::new(alloc),
        })
    }

    /// The tree, shared or not.
    pub(crate) fn tree(&self) -> &Tree
        ensures { result.now ≡ self.now }
    {
        match &self.shared {
            Some(tree) => tree.as_ref(),
            None => &self.own,
        }
    }

    /// A copy of the tree. A copy of a shared tree takes no memory.
    pub(crate) fn copy(&self) -> Result<SharedTree, AllocError>
        ensures { IfOk result (λ t. t ≡ self.now) }
    {
        match &self.shared {
            Some(tree) => Ok(SharedTree {
                alloc: self.alloc,
                shared: Some(tree.clone()?),
                own: Tree::new(self.alloc),
            }),
            None => SharedTree::of(self.alloc, self.own.copy()?),
        }
    }

    /// Takes out each entry under `run/`. It takes no memory.
    pub(crate) fn clear_run(&mut self)
        ensures { self.new ≡ model.without_run self.old }
    {
        if self.shared.is_none() {
            self.own.clear_run();
        }
    }

    /// Puts a file, with the refusals of `Tree::put`; after one, all is as before.
    pub(crate) fn put(&mut self, path: &str, text: &str) -> Result<(), Refusal>
        ensures ok { OnOk result (model.put_file self.old path.now text.now ≡ Ok self.new) }
        ensures err { OnErr result (self.new ≡ self.old) }
        ensures refused { IfErr result (λ e. ¬ (e ≡ NoMemory) → model.put_file self.old path.now text.now ≡ Err (refused_of e)) }
    {
        if self.shared.is_none() {
            return self.own.put(path, text);
        }
        let mut tree = self.tree().copy()?;
        tree.put(path, text)?;
        *self = SharedTree::of(self.alloc, tree)?;
        Ok(())
    }

    /// Puts a link, with the refusals of `Tree::link`; after one, all is as before.
    pub(crate) fn link(&mut self, path: &str, target: &str) -> Result<(), Refusal>
        ensures ok { OnOk result (model.put_link self.old path.now target.now ≡ Ok self.new) }
        ensures err { OnErr result (self.new ≡ self.old) }
        ensures refused { IfErr result (λ e. ¬ (e ≡ NoMemory) → model.put_link self.old path.now target.now ≡ Err (refused_of e)) }
    {
        if self.shared.is_none() {
            return self.own.link(path, target);
        }
        let mut tree = self.tree().copy()?;
        tree.link(path, target)?;
        *self = SharedTree::of(self.alloc, tree)?;
        Ok(())
    }

    /// Removes the entry at the path, with the refusals of `Tree::remove`; after one, all is as before.
    pub(crate) fn remove(&mut self, path: &str) -> Result<(), Refusal>
        ensures ok { OnOk result (model.remove_at self.old path.now ≡ Ok self.new) }
        ensures err { OnErr result (self.new ≡ self.old) }
        ensures refused { IfErr result (λ e. ¬ (e ≡ NoMemory) → model.remove_at self.old path.now ≡ Err (refused_of e)) }
    {
        if self.shared.is_none() {
            return self.own.remove(path);
        }
        let mut tree = self.tree().copy()?;
        tree.remove(path)?;
        *self = SharedTree::of(self.alloc, tree)?;
        Ok(())
    }
}
