//! Which paths of requested links have another entry, and whether there is room for the new ones.

ghost use Rattle.std.specs.Prelude.{◌≡◌, None, is_none, map as each, option_map};
ghost use Rattle.std.specs.FinMap as map;
ghost use Rattle.um_model.specs.Tree.{IsTree, is_other_than_link};
ghost use Rattle.um_install.specs.Checks as checks;
ghost use Rattle.um_install.specs.View.{link_of, targets_of, text_of};

use crate::fitness::lesser;
use crate::links::{LinkAt, Targets};
use um_tree::{Entry, Tree};

/// Whether an entry other than the link stands at its path.
fn is_in_the_way(tree: &Tree, link: &LinkAt) -> bool
    ensures { result ≡ is_other_than_link (map.get tree.now (link_of link.now).path) (link_of link.now).target }
{
    match tree.get(link.path.as_str()) {
        Some(Entry::Link(old)) => old != link.target.as_str(),
        Some(Entry::File(_)) => true,
        None => false,
    }
}

/// The target of the link that these have at the path.
fn target_at<'t>(targets: &'t Targets, path: &str) -> Option<&'t str>
    ensures { option_map text_of result ≡ map.get (targets_of targets.now.entries) path.now }
{
    match targets.get(path) {
        Some(target) => Some(target.as_str()),
        None => None,
    }
}

/// Whether these have another link at its path.
fn differs(targets: &Targets, link: &LinkAt) -> bool
    ensures { result ≡ checks.is_other (map.get (targets_of targets.now.entries) (link_of link.now).path) (link_of link.now).target }
{
    match target_at(targets, link.path.as_str()) {
        Some(target) => target != link.target.as_str(),
        None => false,
    }
}

fn is_occupied(tree: &Tree, targets: &Targets, link: &LinkAt) -> bool
    ensures { result ≡ checks.is_occupied tree.now (targets_of targets.now.entries) (link_of link.now) }
{
    is_in_the_way(tree, link) || differs(targets, link)
}

/// The least path that has another entry, or for which another link is requested.
pub(crate) fn least_occupied<'l>(
    tree: &Tree,
    targets: &Targets,
    links: &'l [LinkAt],
) -> Option<&'l str>
    ensures { option_map text_of result ≡ checks.least_of (checks.is_occupied tree.now (targets_of targets.now.entries)) None (each link_of links.now) }
{
    let mut least = None;
    for link in links {
        if is_occupied(tree, targets, link) {
            least = lesser(least, link.path.as_str());
        }
    }
    least
}

/// Whether the path has no entry.
pub(crate) fn is_new(tree: &Tree, path: &str) -> bool
    ensures { result ≡ is_none (map.get tree.now path.now) }
{
    tree.get(path).is_none()
}

/// The greatest number of entries in a tree.
const ENTRY_LIMIT: usize = 4_096;

/// Whether there is room in the tree for the paths that have no entry yet.
pub(crate) fn has_room(tree: &Tree, targets: &Targets) -> bool
    ensures room { result ≡ checks.has_room tree.now (targets_of targets.now.entries) }
    ensures tree { IsTree tree.now }
{
    let mut room = ENTRY_LIMIT - tree.len();
    for (path, _) in targets.iter() {
        if is_new(tree, path.as_str()) {
            if room == 0 {
                return false;
            }
            room -= 1;
        }
    }
    true
}
