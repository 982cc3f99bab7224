//! Keys that no unit may have with a value, and why.

ghost use Rattle.std.specs.Prelude.{◌≡◌, IfOk, map, option_map, string_bytes};
ghost use Rattle.std.specs.Map.{lookup};
ghost use Rattle.std.specs.Str.{bytes_eq};
ghost use Rattle.um_sentences.specs.Sentences as model;

use std::alloc::{AllocError, Global};

/// The keys that are named, each with why it isn't served.
pub(crate) const REFUSED_KEYS: [(&str, &str); 13] = [
    ("User", "every service runs as umd's user"),
    ("Group", "every service runs with umd's groups"),
    ("DynamicUser", "every service runs as umd's user"),
    ("RootDirectory", "every service has umd's root directory"),
    (
        "WorkingDirectory",
        "every service has umd's working directory",
    ),
    ("EnvironmentFile", "variables are set by Environment= alone"),
    (
        "ExecCondition",
        "no command decides whether a service starts",
    ),
    (
        "ExecStartPost",
        "no command runs behind those of ExecStart=",
    ),
    ("ExecStopPost", "no command runs behind those of ExecStop="),
    ("Requisite", "Requires= and BindsTo= are"),
    ("Upholds", "Wants= and Requires= are"),
    ("OnFailure", "no unit is started because another failed"),
    ("OnSuccess", "no unit is started because another succeeded"),
];

/// The fronts of keys, and why such keys aren't served.
pub(crate) const REFUSED_FRONTS: [(&str, &str); 2] = [
    ("Condition", "no start depends on a condition"),
    ("Assert", "no start depends on an assertion"),
];

/// Why the key isn't served, by its name among these.
fn why_named(known: &[(&str, &'static str)], key: &str) -> Option<&'static str>
    ensures { option_map (λ s. s.now) result ≡ lookup (bytes_eq key.now) (map (λ k. (k.0.now, k.1.now)) known.now) }
{
    for (name, why) in known {
        if key == *name {
            return Some(*why);
        }
    }
    None
}

/// Whether the key begins with the text.
fn begins_with(key: &str, front: &str) -> bool
    ensures { result ≡ model.begins_with key.now front.now }
{
    key.as_bytes().starts_with(front.as_bytes())
}

/// Why the key isn't served, by its front among these.
fn why_begun(known: &[(&str, &'static str)], key: &str) -> Option<&'static str>
    ensures { option_map (λ s. s.now) result ≡ lookup (model.begins_with key.now) (map (λ k. (k.0.now, k.1.now)) known.now) }
{
    for (front, why) in known {
        if begins_with(key, front) {
            return Some(*why);
        }
    }
    None
}

/// Why no unit may have the key with a value, as `every service runs as umd's user` for `User`. `None` for keys that
/// it may have.
pub fn key_why(key: &str) -> Option<&'static str>
    ensures { option_map (λ s. s.now) result ≡ model.key_why key.now }
{
    match why_named(&REFUSED_KEYS, key) {
        Some(why) => Some(why),
        None => why_begun(&REFUSED_FRONTS, key),
    }
}

/// The sentence for a key that isn't served: `User= isn't served: every service runs as umd's user`.
pub fn key_sentence(alloc: Global, key: &str, why: &str) -> Result<String, AllocError>
    ensures { IfOk result (λ text. string_bytes text ≡ model.key_sentence key.now why.now) }
{
    format!(in alloc; "{key}= isn't served: {why}")
}
