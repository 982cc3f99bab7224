//! Parts of a text by its front, its end or a slash.
ghost use Rattle.std.specs.Prelude.{◌≡◌, option_map};
ghost use Rattle.std.specs.List.{after_last};
ghost use Rattle.um_model.specs.Tree.{is_slash, behind, before, around_slash};
ghost use Rattle.um_tree.specs.View.{text_of, two_texts};

/// The text after the front, if the text begins with it.
pub(crate) fn behind<'a>(front: &str, text: &'a str) -> Option<&'a str>
    ensures { option_map text_of result ≡ behind front.now text.now }
{
    text.strip_prefix(front)
}

/// The text before the end, if the text ends with it.
pub(crate) fn before<'a>(end: &str, text: &'a str) -> Option<&'a str>
    ensures { option_map text_of result ≡ before end.now text.now }
{
    text.strip_suffix(end)
}

/// The text before the first `/` and the text after it, if there is one.
pub(crate) fn around_slash(text: &str) -> Option<(&str, &str)>
    ensures { option_map two_texts result ≡ around_slash text.now }
{
    text.split_once('/')
}

/// The unit that a link to the target leads to: the part after the last `/`, or the whole target without one.
pub fn unit_in_target(target: &str) -> &str
    ensures { result.now ≡ after_last is_slash target.now }
{
    match target.rsplit_once('/') {
        Some((_, unit)) => unit,
        None => target,
    }
}
