//! Requested links that may not stand at their paths.

ghost use Rattle.std.specs.Prelude.{◌≡◌, None, map as each, option_map};
ghost use Rattle.um_install.specs.Checks as checks;
ghost use Rattle.um_install.specs.View.{link_of, text_of};

use crate::links::LinkAt;
use um_tree::{Cause, Tree};

/// Whether the path of the link isn't served, or a link to its target may not stand there.
fn is_unfit(tree: &Tree, link: &LinkAt) -> bool
    ensures { result ≡ checks.is_unfit (link_of link.now) }
{
    matches!(
        tree.link_cause(link.path.as_str(), link.target.as_str()),
        Some(Cause::BadPath { .. })
    )
}

/// The lesser of a path and one that was found before.
pub(crate) fn lesser<'l>(found: Option<&'l str>, path: &'l str) -> Option<&'l str>
    ensures { option_map text_of result ≡ checks.lesser (option_map text_of found.entry) path.now }
{
    match found {
        Some(other) => Some(if other < path { other } else { path }),
        None => Some(path),
    }
}

/// The least path of a link that is unfit.
pub(crate) fn least_unfit<'l>(tree: &Tree, links: &'l [LinkAt]) -> Option<&'l str>
    ensures { option_map text_of result ≡ checks.least_of checks.is_unfit None (each link_of links.now) }
{
    let mut least = None;
    for link in links {
        if is_unfit(tree, link) {
            least = lesser(least, link.path.as_str());
        }
    }
    least
}
