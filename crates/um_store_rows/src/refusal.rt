//! The numbers and names of refusals, and how they print.
use std::alloc::{AllocError, Global};
use std::process::Abort;
use um_asserts::{same, same_at, text};
use um_wire::{
    Limit, Refusal, Texts, bad_name, bad_path, bad_setting, clash, exists_at, job_conflict, masked,
    no_such_job, not_found, not_loaded, unknown_verb,
};

/// A refusal, by its number and its texts: the name and the printed text.
const ROWS: &[(u64, [&str; 2], &str, &str)] = &[
    (2, ["frob", ""], "UnknownVerb", "E2 UnknownVerb frob"),
    (3, ["a b", ""], "BadName", "E3 BadName a b"),
    (4, ["b.service", ""], "NotFound", "E4 NotFound b.service"),
    (5, ["b.service", ""], "Masked", "E5 Masked b.service"),
    (
        6,
        ["b.service", "exec-count"],
        "BadSetting",
        "E6 BadSetting b.service exec-count",
    ),
    (7, ["b.service", ""], "NotLoaded", "E7 NotLoaded b.service"),
    (8, ["b.service", ""], "Clash", "E8 Clash b.service"),
    (
        9,
        ["a.service", "b.service"],
        "OrderingCycle",
        "E9 OrderingCycle a.service b.service",
    ),
    (
        10,
        ["b.service", ""],
        "JobConflict",
        "E10 JobConflict b.service",
    ),
    (
        11,
        ["etc/a.service", ""],
        "Exists",
        "E11 Exists etc/a.service",
    ),
    (12, ["lib/../x", ""], "BadPath", "E12 BadPath lib/../x"),
    (
        21,
        ["b.service", ""],
        "NoSuchJob",
        "E21 NoSuchJob b.service",
    ),
    // without texts
    (1, ["", ""], "BadRequest", "E1 BadRequest"),
    (13, ["", ""], "TooLarge", "E13 TooLarge frame"),
    (14, ["", ""], "NoRoom", "E14 NoRoom"),
    (15, ["", ""], "NoMemory", "E15 NoMemory"),
    (16, ["", ""], "Device", "E16 Device"),
    (17, ["", ""], "Reopen", "E17 Reopen"),
    (18, ["", ""], "Damaged", "E18 Damaged 129"),
    (19, ["", ""], "NotFormatted", "E19 NotFormatted"),
    (20, ["", ""], "GenerationsSpent", "E20 GenerationsSpent"),
    (22, ["", ""], "OtherLayout", "E22 OtherLayout"),
];

/// A refusal with a text, by its number; none if it has no text.
fn with_text(alloc: Global, number: u64, texts: [&str; 2]) -> Option<Result<Refusal, AllocError>> {
    let [first, second] = texts;
    match number {
        2 => Some(unknown_verb(alloc, first)),
        3 => Some(bad_name(alloc, first)),
        4 => Some(not_found(alloc, first)),
        5 => Some(masked(alloc, first)),
        6 => Some(bad_setting(alloc, first, second)),
        7 => Some(not_loaded(alloc, first)),
        8 => Some(clash(alloc, first)),
        10 => Some(job_conflict(alloc, first)),
        11 => Some(exists_at(alloc, first)),
        12 => Some(bad_path(alloc, first)),
        21 => Some(no_such_job(alloc, first)),
        _ => None,
    }
}

/// The refusal of this number with these texts.
fn refusal(rt: &(impl AllocGlobal + Abort), number: u64, texts: [&str; 2]) -> Refusal {
    if let Some(made) = with_text(rt.alloc(), number, texts) {
        return made.expect(rt, "no memory");
    }
    match number {
        1 => Refusal::BadRequest,
        9 => Refusal::OrderingCycle {
            units: Texts {
                items: vec![in rt.alloc(); text!(rt, texts[0]), text!(rt, texts[1])].expect(
                    rt,
                    "no memory",
                ),
            },
        },
        13 => Refusal::TooLarge {
            limit: Limit::Frame,
        },
        14 => Refusal::NoRoom,
        15 => Refusal::NoMemory,
        16 => Refusal::Device,
        17 => Refusal::Reopen,
        18 => Refusal::Damaged { sector: 129 },
        19 => Refusal::NotFormatted,
        20 => Refusal::GenerationsSpent,
        _ => Refusal::OtherLayout,
    }
}

#[test]
fn refusals_print_their_number_name_and_details(rt: HostRuntime) {
    for (number, texts, name, printed) in ROWS {
        let refusal = refusal(&rt, *number, *texts);
        let shown = refusal.to_string(rt.alloc()).expect(&rt, "no memory");
        let told = (refusal.number(), refusal.name(), shown.as_str());
        same!(&rt, told, (*number, *name, *printed));
    }
    same!(&rt, Refusal::from(AllocError).number(), 15);
}

const LIMITS: &[(Limit, &str)] = &[
    (Limit::Frame, "frame"),
    (Limit::Text, "text"),
    (Limit::Entries, "entries"),
    (Limit::Units, "units"),
    (Limit::Reply, "reply"),
];

#[test]
fn each_limit_has_its_word(rt: HostRuntime) {
    for (limit, wanted) in LIMITS {
        same_at!(&rt, limit.word(), *wanted, wanted);
    }
}
