//! The readings of texts and units, and the trees that rows stand on.
use std::process::Abort;
use um_asserts::text;
use um_tree::{Entry, Tree};
use um_wire::Refusal;
use um_words::{Command, Variable};

/// The text, repeated this number of times.
pub fn repeated(rt: &(impl AllocGlobal + Abort), text: &str, count: usize) -> String {
    text.repeat(rt.alloc(), count).expect(rt, "no memory")
}

/// These texts as a list of their own.
pub fn list(rt: &(impl AllocGlobal + Abort), texts: &[&str]) -> Vec<String> {
    let mut list = Vec::new(rt.alloc());
    for item in texts {
        list.push(text!(rt, item)).expect(rt, "no memory");
    }
    list
}

/// The variables of these names and values.
pub fn variables_of(rt: &(impl AllocGlobal + Abort), list: &[(&str, &str)]) -> Vec<Variable> {
    let mut variables = Vec::new(rt.alloc());
    for (name, value) in list {
        let variable = Variable {
            name: text!(rt, name),
            value: text!(rt, value),
        };
        variables.push(variable).expect(rt, "no memory");
    }
    variables
}

/// A command as it is wanted, by its words: one without signs, one whose failure is ignored, one whose variables stay, or both.
pub enum Wanted {
    Plain(&'static [&'static str]),
    Ignoring(&'static [&'static str]),
    Verbatim(&'static [&'static str]),
    IgnoringVerbatim(&'static [&'static str]),
}

/// The command that is wanted.
fn command_of(rt: &(impl AllocGlobal + Abort), wanted: &Wanted) -> Command {
    let (words, ignores_failure, substitutes) = match wanted {
        Wanted::Plain(words) => (words, false, true),
        Wanted::Ignoring(words) => (words, true, true),
        Wanted::Verbatim(words) => (words, false, false),
        Wanted::IgnoringVerbatim(words) => (words, true, false),
    };
    Command {
        words: list(rt, words),
        ignores_failure,
        substitutes,
    }
}

/// The commands that are wanted.
pub fn commands_of(rt: &(impl AllocGlobal + Abort), wanted: &[Wanted]) -> Vec<Command> {
    let mut commands = Vec::new(rt.alloc());
    for command in wanted {
        commands
            .push(command_of(rt, command))
            .expect(rt, "no memory");
    }
    commands
}

/// Puts a file or a link.
pub fn put(tree: &mut Tree, path: &str, entry: Entry<'_>) -> Result<(), Refusal> {
    match entry {
        Entry::File(text) => tree.put(path, text),
        Entry::Link(target) => tree.link(path, target),
    }
}

/// A tree of these files and links, which are put one after another.
pub fn tree_of(rt: &(impl AllocGlobal + Abort), entries: &[(&str, Entry<'_>)]) -> Tree {
    let mut tree = Tree::new(rt.alloc());
    for (path, entry) in entries {
        put(&mut tree, path, *entry).expect(rt, "not put");
    }
    tree
}
