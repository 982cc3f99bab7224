//! Laws of the turns of a script and of lives of managers, as functions that do nothing.
ghost use Rattle.std.specs.Prelude.{◌≡◌, ◌<◌, ◌++◌, ℕ, List, flat_map, Bool, Some, Result, Ok, IsTrue, slice_get};
ghost use Rattle.um_manager.specs.Clients.{AllTurned, HasHad, IsServed};
ghost use Rattle.um_manager.specs.Crashes.{all_offers, IsLeft};
ghost use Rattle.um_manager.specs.Done.{Told, told_by};
ghost use Rattle.um_manager.specs.Going.{IsJustOpened, IsTurn, IsTaking, offers_in_turn, stopped, EndsThere, IsRefusedLife, Continues};
ghost use Rattle.um_manager.specs.Had.{came_of, taken_of, put_out_of, frames_of};
ghost use Rattle.um_manager.specs.Histories.{History, offers_in, told_to, HasGoneOn};
ghost use Rattle.um_manager.specs.Lives.{DiskPremises, Outlives};
ghost use Rattle.um_manager.specs.Living.{ManagerLife, behind};
ghost use Rattle.um_manager.specs.Offered.{offered_in};
ghost use Rattle.um_manager.specs.Opening.{IsRefused};
ghost use Rattle.um_manager.specs.Places.{Place, place_on};
ghost use Rattle.um_manager.specs.Scripts.{Runs};
ghost use Rattle.um_manager.specs.Turns.{Now, Turned, IsMeanwhile};
ghost use Rattle.um_manager.specs.declared.script.Step.{Step};
ghost use Rattle.um_manager.specs.declared.pieces.Piece.{Piece};
ghost use Rattle.um_model.specs.Children.{Call};
ghost use Rattle.um_model.specs.Disk.{Image, Past, IsImage, During};
ghost use Rattle.um_model.specs.Machine.{State};
ghost use Rattle.um_model.specs.Sessions.{Session};
ghost use Rattle.um_model.specs.Store.{body_limit};
ghost use Rattle.um_model.specs.declared.layout.Layout.{Layout};
ghost use Rattle.um_wire.specs.declared.refusal.Refusal.{Refusal};

/// Each connection is served from its opening on, over any calls and whatever they answer, with its output taken at any
/// moment. The requests taken of it are those of the frames of all its bytes, in their order. The output for it, taken
/// or not, is the frames of the replies to exactly these, one each, in their order. Only the last may be missing, if
/// the session failed for want of memory.
///
/// The same holds of the history of a manager, for each of its connections since that was opened last. The output for
/// it is the frames of the replies that its history names, each beside the command that it answers. Those of commands
/// that were done are the ones reported to it last.
pub fn each_connection_is_served()
    ensures served { (k : ℕ) (bytes taken : List ℕ) (a : Now) (had : HasHad k bytes taken a)
        → (t : Session) × (slice_get a.sessions k ≡ Some t) × IsServed had t }
    ensures had { (k : ℕ) (low : k < 64) (disk : Past) (before : List Call) (b : Now) (past : History disk before b)
        → HasHad k (came_of k past) (taken_of k low past) b }
    ensures put { (k : ℕ) (low : k < 64) (disk : Past) (before : List Call) (b : Now) (past : History disk before b)
        → (t : Session) × (slice_get b.sessions k ≡ Some t) × (taken_of k low past ++ t.output ≡ frames_of (put_out_of k past)) }
    ensures told { (k : ℕ) (disk : Past) (before : List Call) (b : Now) (past : History disk before b)
        → (earlier : List Told) × (told_to k past ≡ earlier ++ flat_map told_by (put_out_of k past)) }
{}

/// A crash of a script leaves a life of its store. A script that ends Ok is one turn a step. After turns that ended Ok,
/// each image of each moment of the next one, however that ends, is one that a life of the store may leave that began
/// where the first of these turns did. That life takes all inputs that these turns answered, and a beginning of those
/// of the next that weren't turned away. So `um_keeper::laws::lives` holds of it, over any number of crashes.
pub fn what_a_crash_leaves()
    ensures turns { (place : Place) (honest whole : Bool) (steps : List Step) (a b : Now) → Runs place honest whole steps (Ok tt) a b
        → AllTurned place honest whole steps a b }
    ensures leaves { (place : Place) (honest whole still : Bool) (steps : List Step) (a b c : Now) (turns : AllTurned place honest whole steps a b)
        (result : Result Unit Refusal) (moment : ℕ) (pieces : List Piece)
        → place.size ≡ body_limit place.layout → IsTrue place.trusted → (next : Turned place honest still result moment pieces b c)
        → During b.disk c.disk (IsLeft place.layout a.state (all_offers turns) (offered_in next) next.answers) }
{
    um_keeper::laws::offers_are_parts_of_lives();
}

/// The history of a manager over a disk that does what it answers is a life. A manager that was just opened is a life
/// so far. Each turn goes on with it as long as its store answers Ok; after a turn that its store refuses it has
/// stopped. Its output may be taken, and it may stop between any two calls. An opening that is refused is a life of its
/// own.
pub fn what_was_done_is_a_life()
    ensures opened { (layout : Layout) (honest whole : Bool) (moment : ℕ) (boot : List ℕ) (count sectors : ℕ) (disk : Past) (before : List Call) (b : Now)
        (past : History disk before b) → IsJustOpened (place_on layout) honest whole moment boot count sectors past → HasGoneOn layout past }
    ensures turned { (layout : Layout) (honest whole : Bool) (result : Result Unit Refusal) (moment : ℕ) (pieces : List Piece) (disk : Past) (before : List Call)
        (a b : Now) (past : History disk before a) (all : History disk before b)
        (turn : IsTurn (place_on layout) honest whole result moment pieces past all) → HasGoneOn layout past
        → Continues layout past all (offers_in_turn turn) result }
    ensures taken { (layout : Layout) (disk : Past) (before : List Call) (a b : Now) (past : History disk before a) (all : History disk before b)
        → IsTaking past all → HasGoneOn layout past → HasGoneOn layout all × (offers_in all ≡ offers_in past) }
    ensures stops { (layout : Layout) (disk : Past) (before : List Call) (b : Now) (past : History disk before b) → HasGoneOn layout past
        → EndsThere layout past (offers_in past) (λ k. told_to k past) (stopped (behind past) b.disk b.past) }
    ensures refused { (layout : Layout) (honest whole : Bool) (moment : ℕ) (boot : List ℕ) (sectors : ℕ) (disk left : Past) (past calls : List Call)
        → IsMeanwhile disk left left → (refused : IsRefused layout honest whole moment boot sectors disk left past calls)
        → (life : ManagerLife) × IsRefusedLife layout refused life }
{}

/// A service manager outlives crashes. Over one store there may be any number of lives of managers, each stopped at any
/// moment of any call and the next one opened on the disk as it then is. The disk is a store of the state that one run
/// of the machine reaches from the empty state. The run is over a beginning of the inputs that each life offered; it
/// holds all that was answered, with the replies that were given. An opening takes up that state. Each report to a
/// client that its command was done stands among the steps of that run, in their order. Each job that begins in it does
/// so in its turn, and no oneshot that finished begins again before a command's plan puts a start of it. And over
/// children that do what they answer no process number was started twice in all lives, and each start that was ordered
/// is one that the run wants, in their order.
pub fn a_service_manager_outlives_crashes()
    ensures { (layout : Layout) (first : State) (lives : List ManagerLife) (stop : Past) (image : Image) → DiskPremises layout first lives stop
        → IsImage stop image → Outlives layout first lives image }
{
    um_keeper::laws::offers_are_parts_of_lives();
    um_keeper::laws::finished();
    um_keeper::laws::a_store_is_taken_up();
}
