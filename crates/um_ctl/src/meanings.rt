//! The meaning of each refusal to an operator.

ghost use Rattle.std.specs.Prelude.{◌≡◌, IfOk, is_some};
ghost use Rattle.um_ctl.specs.Help.{MeansRefusal};
ghost use Rattle.um_ctl.specs.Told as model;

use crate::reply::name_of;
use std::alloc::{AllocError, Global};

/// The meaning of the refusal of this number and what to do about it, in one sentence. `None` if there is no such
/// refusal.
pub fn meaning(number: u64) -> Option<&'static str>
    ensures { is_some result ≡ is_some (model.name_of number) }
{
    let sentence = match number {
        1 =>
            "no manager reads a request of this form, or an id of a boot past 64 bytes: docs/FORMATS.md, \"Requests\", has the fields.",
        2 => "there is no such verb: 'umd ctl --help' lists them.",
        3 => {
            "the text isn't a unit name: letters, digits and : - _ . \\ and a suffix as .service make one."
        }
        4 => "no file of this unit was found: put it with put-file, then ask daemon-reload.",
        5 =>
            "the unit is masked, by an empty file or a link to /dev/null: unmask it, or remove that entry, and ask daemon-reload.",
        6 =>
            "a setting of the unit isn't served, or it is a template where an instance is wanted, and the reason follows its name: mend the file, put it again and ask daemon-reload, or name an instance.",
        7 =>
            "the manager knows no such unit: look for its name with list-units, or put its file and ask daemon-reload.",
        8 =>
            "the command would both start and stop this unit: take out a Conflicts= or a Requires= between it and what is started.",
        9 =>
            "these units would wait for each other in a circle: take out one of the Before= and After= between them.",
        10 =>
            "mode fail keeps the pending job that is in the way: wait until list-jobs is without it, cancel it, or leave out --mode fail.",
        11 =>
            "something else stands at this path, and is kept: remove it first, or take another path.",
        12 =>
            "nothing can stand at this path or be removed from it, or the target is unfit: docs/FORMATS.md, \"Paths of the tree\", has the forms.",
        13 =>
            "the limit that is named is passed: ask for less, or take out files or units that are needed no more.",
        14 =>
            "the store has no room for that much state: take out files that are needed no more, or make a store with larger slots.",
        15 =>
            "the system refused memory and nothing was changed: free some and ask again; a manager that ended of it can be served again at once.",
        16 =>
            "the disk or the folder of the processes failed: look at both, then serve the store again; what was answered is kept.",
        17 => "the store failed in an earlier call: serve it again; what was answered is kept.",
        18 =>
            "the store can't be read at this sector, so nothing is taken from it: put back a copy of the file, or make a new store.",
        19 => "the file is no store of umd: compare its path, or make a store with 'umd create'.",
        20 =>
            "the store has been written anew as often as it can be: make a new one with 'umd create', and put and enable the units again.",
        21 =>
            "no job of this unit waits any more, so there is nothing to cancel: list-jobs tells the pending ones.",
        22 =>
            "the store has another layout than this umd reads: serve it with the version that made it.",
        _ => return None,
    };
    Some(sentence)
}

/// The line of `umd help E4`: number, name and meaning. `None` if there is no refusal of this number.
pub fn meaning_line(alloc: Global, number: u64) -> Result<Option<String>, AllocError>
    ensures { IfOk result (MeansRefusal number) }
{
    let Some(name) = name_of(number) else {
        return Ok(None);
    };
    let Some(sentence) = meaning(number) else {
        return Ok(None);
    };
    let digits = number.to_string(alloc)?;
    let mut text = String::from_str(alloc, "E")?;
    text.push_str(digits.as_str())?;
    text.push_str(" ")?;
    text.push_str(name)?;
    text.push_str(": ")?;
    text.push_str(sentence)?;
    text.push_str("\n")?;
    Ok(Some(text))
}
