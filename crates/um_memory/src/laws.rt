//! Laws of the definitions of a served stream.
ghost use Rattle.std.specs.Prelude.{◌≡◌, ℕ, List};
ghost use Rattle.um_model.specs.Frames.{IsStream, Serves};
ghost use Rattle.um_model.specs.Machine.{State};
ghost use Rattle.um_model.specs.Outcomes.{AreAlikeBut};
ghost use Rattle.um_model.specs.Service.{Action};
ghost use Rattle.um_model.specs.declared.frames.Ending as ending;

/// A stream has one reading: its frames, and how it ends.
pub fn a_stream_has_one_reading()
    ensures some { (stream : List ℕ) → (frames : List (List ℕ)) × (e : ending.Ending) × IsStream stream frames e }
    ensures one { (stream : List ℕ) (f g : List (List ℕ)) (d e : ending.Ending) → IsStream stream f d → IsStream stream g e → (f ≡ g) × (d ≡ e) }
{}

/// A stream is served in one way, from each state on with the actions kept, except for the cycles that refusals name:
/// the replies frame by frame, and how it ends.
pub fn a_stream_is_served_in_one_way()
    ensures { (size : ℕ) (s : State) (kept : List Action) (stream out other : List ℕ) (d e : ending.Ending)
        → Serves size s kept stream out d → Serves size s kept stream other e → AreAlikeBut d out other × (d ≡ e) }
{}
