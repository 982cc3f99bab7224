//! A unit in the reply to `show`.

ghost use Rattle.std.specs.Prelude.{◌≡◌, option_map};
ghost use Rattle.serde_json.specs.View.{view};
ghost use Rattle.um_status.specs.Status as model;
ghost use Rattle.um_status.specs.View.{shown_of};

use serde_json::Value;

/// A unit in the reply to `show`.
#[derive(Clone, Copy)]
pub struct UnitShown<'v> {
    /// Its own name, to which the requested name leads.
    pub id: &'v str,
    /// Whether it is loaded, as `bad-setting`.
    pub loaded: &'v str,
    /// Its active state, as `activating`.
    pub active: &'v str,
    /// Its sub state, as `auto-restart`.
    pub sub: &'v str,
    /// Its result, as `exit-code`.
    pub result: &'v str,
    /// The number of its main process; 0 if none is live.
    pub number: u64,
}

/// The text of a field.
fn text_at<'v>(value: &'v Value, key: &str) -> Option<&'v str>
    ensures { option_map (λ s. s.now) result ≡ model.text_at key.now (view value.now) }
{
    value.get(key)?.as_str()
}

/// The number of a field.
fn number_at(value: &Value, key: &str) -> Option<u64>
    ensures { result ≡ model.number_at key.now (view value.now) }
{
    value.get(key)?.as_u64()
}

/// The unit of the value of a reply to `show`. `None` if it is no unit's.
#[tactic(auto, unfolding(crate::specs::Status::unit_shown))]
pub fn unit_shown(value: &Value) -> Option<UnitShown<'_>>
    ensures { option_map shown_of result ≡ model.unit_shown (view value.now) }
{
    let id = text_at(value, "Id")?;
    let loaded = text_at(value, "LoadState")?;
    let active = text_at(value, "ActiveState")?;
    let sub = text_at(value, "SubState")?;
    let outcome = text_at(value, "Result")?;
    let number = number_at(value, "MainNumber")?;
    Some(UnitShown {
        id,
        loaded,
        active,
        sub,
        result: outcome,
        number,
    })
}
