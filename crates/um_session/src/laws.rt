//! Laws of a session over any calls.
ghost use Rattle.std.specs.Prelude.{◌≡◌, ◌++◌, List, [], flat_map, false};
ghost use Rattle.um_model.specs.Sessions.{Session, Deed, Lives, IsReadOf, bytes_fed, readings, frames_put, bytes_taken};

/// However a client's bytes are cut, and whatever else is done with its session meanwhile, its readings are the
/// requests of the frames of all its bytes, in their order. If a length past the limit arrives, its refusal follows
/// them.
pub fn a_session_reads_its_frames()
    ensures { (s u : Session) (deeds : List Deed) → s.rest ≡ [] → s.failed ≡ false → Lives s deeds u → IsReadOf (flat_map bytes_fed deeds) (flat_map readings deeds) u }
{}

/// The output taken, and the output not taken yet, are the frames of the replies that were put out, in their order.
pub fn a_session_puts_out_its_replies()
    ensures { (s u : Session) (deeds : List Deed) → s.output ≡ [] → Lives s deeds u → flat_map bytes_taken deeds ++ u.output ≡ flat_map frames_put deeds }
{}
