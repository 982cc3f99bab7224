//! The sections and keys of unit files.

ghost use Rattle.std.specs.Prelude.{◌≡◌, Some, map, nat_eq};
ghost use Rattle.std.specs.List.{list_any, starts_with};
ghost use Rattle.std.specs.Map.{lookup};
ghost use Rattle.std.specs.Str.{bytes_eq};
ghost use Rattle.um_model.specs.Keys as keys;

use um_model::{Profile, Suffix, ValueKind};

/// The keys of `[Unit]` (systemd.unit(5)).
const UNIT_KEYS: [(&str, ValueKind); 12] = [
    ("Description", ValueKind::Text),
    ("Documentation", ValueKind::Unused),
    ("After", ValueKind::Units),
    ("Before", ValueKind::Units),
    ("Wants", ValueKind::Units),
    ("Requires", ValueKind::Units),
    ("BindsTo", ValueKind::Units),
    ("PartOf", ValueKind::Units),
    ("Conflicts", ValueKind::Units),
    ("DefaultDependencies", ValueKind::Truth),
    ("StartLimitIntervalSec", ValueKind::Span),
    ("StartLimitBurst", ValueKind::Number),
];

/// The keys of `[Service]` (systemd.service(5)).
const SERVICE_KEYS: [(&str, ValueKind); 16] = [
    ("Type", ValueKind::ServiceType),
    ("ExecStartPre", ValueKind::Commands),
    ("ExecStart", ValueKind::Commands),
    ("ExecStop", ValueKind::Commands),
    ("Environment", ValueKind::Environment),
    ("RemainAfterExit", ValueKind::Truth),
    ("Restart", ValueKind::Policy),
    ("RestartSec", ValueKind::Span),
    ("TimeoutStartSec", ValueKind::Span),
    ("TimeoutStopSec", ValueKind::Span),
    ("TimeoutSec", ValueKind::Span),
    ("SuccessExitStatus", ValueKind::Exits),
    ("RestartPreventExitStatus", ValueKind::Exits),
    ("RestartForceExitStatus", ValueKind::Exits),
    ("StartLimitInterval", ValueKind::Span),
    ("StartLimitBurst", ValueKind::Number),
];

/// The keys of `[Install]` (systemd.unit(5)).
const INSTALL_KEYS: [(&str, ValueKind); 5] = [
    ("Alias", ValueKind::Aliases),
    ("WantedBy", ValueKind::Units),
    ("RequiredBy", ValueKind::Units),
    ("Also", ValueKind::Units),
    ("DefaultInstance", ValueKind::Instance),
];

/// Keys that no unit may have, in any section, by whatever profile it is read: a start that ignored one would do something other than its
/// author wrote.
const REFUSED_KEYS: [&str; 13] = [
    "User",
    "Group",
    "DynamicUser",
    "RootDirectory",
    "WorkingDirectory",
    "EnvironmentFile",
    "ExecCondition",
    "ExecStartPost",
    "ExecStopPost",
    "Requisite",
    "Upholds",
    "OnFailure",
    "OnSuccess",
];

fn is_among(text: &str, words: &[&str]) -> bool
    ensures { result ≡ list_any (λ w. bytes_eq text.now w.now) words.now }
{
    words.iter().any(|word| text == *word)
}

fn begins_with(front: &str, text: &str) -> bool
    ensures { result ≡ starts_with nat_eq text.now front.now }
{
    text.as_bytes().starts_with(front.as_bytes())
}

/// Whether no profile serves the key: it is one of those, or begins with `Condition` or `Assert`.
fn is_never_served(key: &str) -> bool
    ensures { result ≡ keys.is_never_served key.now }
{
    if is_among(key, &REFUSED_KEYS) {
        return true;
    }
    begins_with("Condition", key) || begins_with("Assert", key)
}

/// Whether no unit that is read by the profile may have the key with a value.
pub fn is_refused_key(profile: Profile, key: &str) -> bool
    ensures { result ≡ keys.is_refused_key profile key.now }
{
    if key == "ExecStartPre" && !profile.serves_start_pre() {
        return true;
    }
    is_never_served(key)
}

/// Whether a section or a key is foreign: it begins with `X-` (systemd.unit(5)).
pub fn is_foreign(text: &str) -> bool
    ensures { result ≡ keys.is_foreign text.now }
{
    begins_with("X-", text)
}

/// Whether a unit of this type has the section.
pub fn is_known_section(suffix: Suffix, section: &str) -> bool
    ensures { result ≡ keys.is_known_section (Some suffix) section.now }
{
    match suffix {
        Suffix::Service => section == "Unit" || section == "Install" || section == "Service",
        _ => section == "Unit" || section == "Install",
    }
}

/// The kind of a key's values among these keys.
fn kind_among(known: &[(&str, ValueKind)], key: &str) -> Option<ValueKind>
    ensures { result ≡ lookup (bytes_eq key.now) (map (λ k. (k.0.now, k.1)) known.now) }
{
    for (name, kind) in known {
        if key == *name {
            return Some(*kind);
        }
    }
    None
}

/// The kind of a key's values among the keys of a known section.
fn kind_in(section: &str, key: &str) -> Option<ValueKind>
    ensures { result ≡ lookup (bytes_eq key.now) (keys.keys_of section.now) }
{
    if section == "Unit" {
        return kind_among(&UNIT_KEYS, key);
    }
    if section == "Install" {
        return kind_among(&INSTALL_KEYS, key);
    }
    kind_among(&SERVICE_KEYS, key)
}

/// The kind of a key's values in a known section, if the profile knows the key.
#[tactic(auto, unfolding(um_model::specs::Keys::kind_of_key))]
pub fn kind_of_key(profile: Profile, section: &str, key: &str) -> Option<ValueKind>
    ensures { result ≡ keys.kind_of_key profile section.now key.now }
{
    if is_refused_key(profile, key) {
        Some(ValueKind::Refused)
    } else {
        kind_in(section, key)
    }
}
