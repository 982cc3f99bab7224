//! Laws of rounds and sleeps, as functions that do nothing.
ghost use Rattle.std.specs.Prelude.{◌≡◌, ◌≢◌, ◌<◌, ◌≤◌, ◌+◌, ◌-◌, ◌++◌, ℕ, List, [], length, Bool, true, false, IsTrue, Option, Some, Result, Ok, Err, slice_get};
ghost use Rattle.um_backlog.specs.Backlog.{Waits, nothing};
ghost use Rattle.um_manager.specs.Clients.{HasHad, IsServed};
ghost use Rattle.um_manager.specs.Going.{IsJustOpened};
ghost use Rattle.um_manager.specs.Histories.{History};
ghost use Rattle.um_manager.specs.Places.{Place};
ghost use Rattle.um_manager.specs.Turns.{Now, Turned};
ghost use Rattle.um_manager.specs.declared.pieces.Piece.{Piece};
ghost use Rattle.um_model.specs.Children.{Call};
ghost use Rattle.um_model.specs.Disk.{Past};
ghost use Rattle.um_model.specs.Machine.{State};
ghost use Rattle.um_model.specs.Service.{state_of_unit};
ghost use Rattle.um_model.specs.Sessions.{Session};
ghost use Rattle.um_serve.specs.Clients.{HasGot, IsFollowed, IsTakenOf};
ghost use Rattle.um_serve.specs.Rounds.{Round, Trust, IsWithin, Served, Serves, IsCount};
ghost use Rattle.um_serve.specs.Histories.{AreRounds};
ghost use Rattle.um_serve.specs.Sleep.{has_changed, slept, IsSleptFor};
ghost use Rattle.um_serve.specs.Taking.{took_in_rounds, IsTakenBy};
ghost use Rattle.um_wire.specs.declared.refusal.Refusal.{Refusal};
ghost use Rattle.um_wire.specs.declared.refusal.Refusal.TheVariants.{NoMemory};

/// Serving again and again is serving once: after rounds that end Ok others go on where these ended, and all of them
/// together are rounds from where the first ones began, as many as both calls were given.
pub fn rounds_join()
    ensures { (all rest : Trust) (place : Place) (first more : List Round) (result : Result Unit Refusal) (limit later : ℕ) (x mid y : Served) → IsWithin rest all
        → Serves all place first (Ok tt) x mid → IsCount (Ok tt) (length first) limit → Serves rest place more result mid y → IsCount result (length more) later
        → Serves rest place (first ++ more) result x y × IsCount result (length (first ++ more)) (limit + later) }
{}

/// Each client is served from its opening on, whatever the rounds answer. Turns put out for it the frames of the
/// replies to its own requests that they took, in their order, one each; the last may be missing if its session failed
/// for want of memory. The gate takes a beginning of that. The rest waits for it, unless it was given up.
pub fn each_client_is_served()
    ensures { (k : ℕ) (bytes out took : List ℕ) (x : Served) → k < 64 → HasGot k bytes out took x
        → (had : HasHad k bytes out x.now) × (t : Session) × (slice_get x.now.sessions k ≡ Some t) × IsServed had t
        × (waits : Waits) × (slice_get x.waits k ≡ Some waits) × IsTakenOf took out waits }
{}

/// The bytes that the gate takes for a client are a beginning of the frames that the manager put out for it, as the
/// manager's history records them. So it is right after an opening, where nothing waits for anybody, and so it stays
/// over any rounds, whatever these answer. The rest waits for the client, unless it was given up, or a read was lost.
/// For each frame the history names the command that it answers (`each_connection_is_served` of um_manager, `told`): so
/// a command that a client has read to be done is one that the headline says outlives all stops.
pub fn what_a_client_reads_was_told()
    ensures opened { (k : ℕ) → k < 64 → (place : Place) (honest whole : Bool) (moment : ℕ) (boot : List ℕ) (count sectors : ℕ) (x : Served) (disk : Past)
        (before : List Call) (past : History disk before x.now) → IsJustOpened place honest whole moment boot count sectors past
        → slice_get x.waits k ≡ Some nothing → IsTakenBy k [] x past }
    ensures rounds { (k : ℕ) → k < 64 → (took : List ℕ) (trust : Trust) (place : Place) (rs : List Round) (result : Result Unit Refusal) (x y : Served)
        (disk : Past) (before : List Call) (past : History disk before x.now) (all : History disk before y.now)
        (rounds : AreRounds trust place rs result x y past all) → IsTakenBy k took x past → IsTakenBy k (took_in_rounds k took rounds) y all }
{}

/// The bytes of a client can be followed over any calls, whatever they answer. So the law above holds after each of
/// them, or, if a read was lost, before the round that lost it. That one hands out nothing.
pub fn any_calls_go_on_with_a_client()
    ensures { (trust : Trust) (place : Place) (rs : List Round) (result : Result Unit Refusal) (k : ℕ) (x y : Served) → IsFollowed k x
        → Serves trust place rs result x y → IsFollowed k y }
{}

/// After a read that was lost nothing is served: a call leaves all as it was, and is answered E15, unless its count of
/// rounds is zero.
pub fn nothing_is_served_behind_a_lost_read()
    ensures { (trust : Trust) (place : Place) (rs : List Round) (result : Result Unit Refusal) (limit : ℕ) (x y : Served) → x.lost ≡ true
        → Serves trust place rs result x y → IsCount result (length rs) limit → (y ≡ x) × (limit ≢ 0 → result ≡ Err NoMemory) }
{}

/// A deadline that the last turn was offered, and that stands all the same, wakes nobody: the deadline that is slept
/// for lies past the moment of that turn.
pub fn a_blocked_deadline_wakes_nobody()
    ensures { (s : State) (turned deadline : ℕ) (next : Option ℕ) → IsSleptFor s turned next → next ≡ Some deadline → turned < deadline }
{}

/// No other deadline is slept past, however long the pace would let it: each unit whose deadline lies past the moment
/// of the last turn is looked at when it is due.
pub fn no_deadline_is_slept_past()
    ensures { (s : State) (turned deadline wait now : ℕ) (is_live : Bool) (next : Option ℕ) (unit : List ℕ) → IsSleptFor s turned next
        → (state_of_unit s.units unit).deadline ≡ Some deadline → turned < deadline → slept wait is_live now next ≤ deadline - now }
{}

/// A turn at a moment past the state's clock that leaves the clock there changed nothing: so a deadline that it was offered, and that stands, is
/// held up by something.
pub fn a_turn_that_leaves_the_clock_changed_nothing()
    ensures { (place : Place) (honest whole : Bool) (result : Result Unit Refusal) (moment : ℕ) (pieces : List Piece) (a b : Now)
        → Turned place honest whole result moment pieces a b → a.state.clock < moment → has_changed a.state b.state ≡ false → b.state ≡ a.state }
{}
