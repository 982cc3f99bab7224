//! Laws of replies and of shown text, as functions that do nothing.

ghost use Rattle.std.specs.Prelude.{◌≡◌, ◌≤◌, ◌++◌, ℕ, List, Some, false, length};
ghost use Rattle.std.specs.List.{list_any};
ghost use Rattle.std.specs.Str.{IsUtf8, chars};
ghost use Rattle.um_ctl.specs.Shown.{misleads, misleads_in_json, on_terminal, shown, shown_chars, terminal_chars};
ghost use Rattle.um_ctl.specs.Streams.{TakesReply};
ghost use Rattle.um_model.specs.Frames.{frame_of};
ghost use Rattle.um_model.specs.Replies.{reply_limit};

/// A reply is read from an input as one frame: the frame of a text within the limit is read as just this text,
/// whatever follows, and no input holds two replies at its front.
pub fn a_reply_is_one_frame()
    ensures whole { (reply rest : List ℕ) → length reply ≤ reply_limit → TakesReply (Some (frame_of reply ++ rest)) (Some rest) reply }
    ensures one { (input a b r q : List ℕ) → TakesReply (Some input) (Some r) a → TakesReply (Some input) (Some q) b → (a ≡ b) × (r ≡ q) }
{}

/// Shown text holds no control character and no mark of direction, and a text that holds none is shown as it is. Text
/// for a terminal holds none of them except line feeds and others below U+0020, which JSON has escaped before.
pub fn what_is_shown_has_no_control_character()
    ensures plain { (text : List ℕ) → list_any misleads (shown_chars text) ≡ false }
    ensures same { (text : List ℕ) → IsUtf8 text → list_any misleads (chars text) ≡ false → shown text ≡ text }
    ensures terminal { (text : List ℕ) → list_any misleads_in_json (terminal_chars text) ≡ false }
    ensures untouched { (text : List ℕ) → IsUtf8 text → list_any misleads_in_json (chars text) ≡ false → on_terminal text ≡ text }
{}
