//! The running manager, and its turn.
ghost use Rattle.std.specs.Prelude.{◌≡◌, ◌≢◌, ◌⊎◌, ◌↔◌, ℕ, List, [], length, true, false, Err, IsTrue, IfOk, IfErr, slice_get};
ghost use Rattle.std.specs.List.{AllByRecursion};
ghost use Rattle.um_children.specs.Frames.{KeepsChildren};
ghost use Rattle.um_manager.specs.Frames.{Frame};
ghost use Rattle.um_keeper.specs.Keepers.{disk_in, state_in, size_in, layout_in, left_in, has_failed, opened_in};
ghost use Rattle.um_keeper.specs.Opening.{IsRead, IsSomeStore, IsUntaken, IsUnwritten};
ghost use Rattle.um_manager.specs.Connections.{IsNew, HoldsFrameAt};
ghost use Rattle.um_manager.specs.Going.{IsJustOpened, IsTurn, IsTaking, Continues};
ghost use Rattle.um_manager.specs.Histories.{History, HasGoneOn};
ghost use Rattle.um_manager.specs.Opening.{Opened, IsRefused, IsOfRefused, IsSilent};
ghost use Rattle.um_manager.specs.Places.{place, place_in};
ghost use Rattle.um_manager.specs.Replies.{IsOutput};
ghost use Rattle.um_manager.specs.Scripts.{Runs, AreTurns, offers_in_turns};
ghost use Rattle.um_manager.specs.Turns.{Turns, now_in};
ghost use Rattle.um_model.specs.Children.{Call};
ghost use Rattle.um_model.specs.Disk.{Past, seen, one_more, Images, During};
ghost use Rattle.um_model.specs.Store.{body_limit};
ghost use Rattle.um_model.specs.declared.layout.Layout.{Layout};
ghost use Rattle.um_sector.specs.Refused.{CountsDevice, IsLost};
ghost use Rattle.um_state.specs.View.{state_of};

use crate::connection::Connection;
use crate::opening::{Held, begin};
use crate::pieces::Pieces;
use crate::round::turn;
use crate::script::{Step, run};
use std::alloc::Global;
use um_children::Children;
use um_fates::Marks;
use um_keeper::{Keeper, OpenedStore};
use um_model::Moment;
use um_sector::Disk;
use um_session::Session;
use um_state::{BootId, State};
use um_wire::Refusal;

/// The output of a connection.
#[derive(Drop)]
pub struct Output {
    pub bytes: Vec<u8>,
    /// Its session has failed, and takes no more: the connection is to be closed.
    pub failed: bool,
}

/// The running manager over a store and children.
pub struct Manager<D: Disk, C: Children> {
    alloc: Global,
    keeper: Keeper<D>,
    children: C,
    marks: Marks,
    sessions: Vec<Session>,
    adopted: usize,
    ghost each: { length sessions.items ≡ 64 },
}

// One call, where a derived one is taken apart at each exit.
impl<D: Disk + Drop, C: Children + Drop> Drop for Manager<D, C> {
    fn drop(self) {
        let Manager {
            alloc: _,
            keeper: _keeper,
            children: _children,
            marks: _marks,
            sessions: _sessions,
            adopted: _,
        } = self;
    }
}

impl<D: Disk, C: Children> Manager<D, C> {
    /// Opens the store that a disk holds, offers the boot, and adopts the processes that are live: it queries the fate
    /// of each, offers the fates that are reported, and ends those that were being ended. It starts nothing by itself.
    /// A refusal hands disk and children back.
    ///
    /// Its refusals are those of `Keeper::open`, for the same causes. With each but E15 and E16 nothing was written.
    /// E16 is given exactly if the count of the disk's failures rises. Then the numbers that aren't live after the boot
    /// may have been forgotten, and fates queried, and nothing else; with each of the others not even that.
    pub fn open(
        alloc: Global,
        disk: D,
        children: C,
        boot: BootId,
        moment: Moment,
    ) -> Result<Manager<D, C>, (Refusal, D, C)>
        ensures opened { IfOk result (λ m. Opened (place (size_in m.keeper) (layout_in m.keeper) (D.honest disk)) (C.honest children) (C.whole m.children)
            moment boot m.adopted (D.size disk) (D.past disk) (C.past children)
            (now_in m.keeper (C.past m.children) m.marks [] (D.past (disk_in m.keeper)))) }
        ensures history { IfOk result (λ m.
            (all : History (D.past disk) (C.past children)
            (now_in m.keeper (C.past m.children) m.marks m.sessions.items (D.past (disk_in m.keeper))))
            × IsJustOpened (place (size_in m.keeper) (layout_in m.keeper) (D.honest disk)) (C.honest children) (C.whole m.children) moment boot
            m.adopted (D.size disk) all) }
        ensures read { IfOk result (λ m. IsTrue (D.honest disk) → IsRead (layout_in m.keeper) (seen (D.past disk)) (opened_in m.keeper)) }
        ensures anew { IfOk result (λ m. AllByRecursion IsNew m.sessions.items) }
        ensures working { IfOk result (λ m. has_failed m.keeper ≡ false) }
        ensures sized { IfOk result (λ m. size_in m.keeper ≡ body_limit (layout_in m.keeper)) }
        ensures same { IfOk result (λ m. (D.honest (disk_in m.keeper) ≡ D.honest disk) × KeepsChildren C.Children children m.children) }
        ensures err { IfErr result (λ e. IsTrue (D.honest disk) → (layout : Layout) → Images (D.past disk) (IsSomeStore layout)
            → During (D.past disk) (D.past e.1)
            (IsOfRefused layout moment boot (D.size disk) (D.past disk) (C.honest children) (C.whole e.2) (C.past children) (C.past e.2))) }
        ensures refuses { IfErr result (λ e. IsTrue (D.honest disk) → (layout : Layout) → Images (D.past disk) (IsSomeStore layout)
            → IsRefused layout (C.honest children) (C.whole e.2) moment boot (D.size disk) (D.past disk) (D.past e.1) (C.past children) (C.past e.2)) }
        ensures silent { IfErr result (λ e. IsTrue (C.honest children) → IsTrue (C.whole e.2)
            → (C.past e.2 ≡ C.past children) ⊎ IsSilent (D.size disk) (D.past disk) (D.honest disk) moment boot (C.past children) (C.past e.2)) }
        ensures refused { IfErr result (λ e. IsLost e.0 ⊎ (IsTrue (D.honest disk) → IsUntaken (D.size disk) (seen (D.past disk)) e.0)) }
        ensures unwritten { IfErr result (λ e. IsTrue (D.honest disk) → IsLost e.0 ⊎ IsUnwritten (D.past disk) (D.past e.1)) }
        ensures device { IfErr result (λ e. ((e.0 ≡ Refusal.Device) × (D.failures e.1 ≡ one_more (D.failures disk)))
            ⊎ ((e.0 ≢ Refusal.Device) × (D.failures e.1 ≡ D.failures disk))) }
        ensures quiet { IfOk result (λ m. D.failures (disk_in m.keeper) ≡ D.failures disk) }
        ensures early { IfErr result (λ e. e.0 ≢ Refusal.Device → C.past e.2 ≡ C.past children) }
        ensures back { IfErr result (λ e. (D.honest e.1 ≡ D.honest disk) × KeepsChildren C.Children children e.2) }
    {
        let mut children = children;
        let mut keeper = match Keeper::open(alloc, disk) {
            Ok(keeper) => keeper,
            Err((refusal, disk)) => return Err((refusal, disk, children)),
        };
        match begin(alloc, &mut keeper, &mut children, boot, moment) {
            Ok(
                Held {
                    marks,
                    sessions,
                    adopted,
                },
            ) => Ok(Manager {
                alloc,
                keeper,
                children,
                marks,
                sessions,
                adopted,
            }),
            Err(refusal) => Err((refusal, keeper.into_disk(), children)),
        }
    }

    /// One turn at this moment over the pieces of the connections.
    ///
    /// After an Ok of the store 16 sectors of a snapshot under way go out, or all that are left.
    ///
    /// E15 before anything is taken, queried or offered. The store's E16 and E17 are returned after the replies are put
    /// out. So is E16 of the writes that follow them, though the inputs were answered. E16 is given exactly if the
    /// count of the disk's failures rises, E17 exactly if it rose in an earlier call.
    pub fn turn(&mut self, moment: Moment, pieces: &Pieces) -> Result<(), Refusal>
        ensures turns { Turns (place_in (D.honest (disk_in self.old.keeper)) self.old.keeper) result (C.honest self.old.children)
            (C.whole self.new.children) moment pieces.now
            (now_in self.old.keeper (C.past self.old.children) self.old.marks self.old.sessions.items (D.past (disk_in self.old.keeper)))
            (now_in self.new.keeper (C.past self.new.children) self.new.marks self.new.sessions.items (D.past (disk_in self.new.keeper))) }
        ensures history { (disk : Past) (before : List Call)
            (past : History disk before
            (now_in self.old.keeper (C.past self.old.children) self.old.marks self.old.sessions.items (D.past (disk_in self.old.keeper))))
            → (all : History disk before
            (now_in self.new.keeper (C.past self.new.children) self.new.marks self.new.sessions.items (D.past (disk_in self.new.keeper))))
            × IsTurn (place_in (D.honest (disk_in self.old.keeper)) self.old.keeper) (C.honest self.old.children) (C.whole self.new.children) result moment
            pieces.now past all }
        ensures refused { IfErr result (λ e. IsLost e ⊎ (e ≡ Refusal.Reopen)) }
        ensures device { CountsDevice result (D.failures (disk_in self.old.keeper)) (D.failures (disk_in self.new.keeper)) }
        ensures reopen { result ≢ Err Refusal.NoMemory → (result ≡ Err Refusal.Reopen) ↔ (has_failed self.old.keeper ≡ true) }
        ensures frame { Frame D.Disk C.Children result self.old.keeper self.new.keeper self.old.children self.new.children }
        ensures adopted { self.new.adopted ≡ self.old.adopted }
    {
        turn(
            self.alloc,
            &mut self.keeper,
            &mut self.children,
            &mut self.marks,
            self.sessions.as_mut_slice(),
            moment,
            pieces.as_slice(),
        )
    }

    /// One turn a step, until one is refused, for the causes of `turn`.
    pub fn run_script(&mut self, steps: &[Step]) -> Result<(), Refusal>
        ensures runs { Runs (place_in (D.honest (disk_in self.old.keeper)) self.old.keeper) (C.honest self.old.children) (C.whole self.new.children)
            steps.now result
            (now_in self.old.keeper (C.past self.old.children) self.old.marks self.old.sessions.items (D.past (disk_in self.old.keeper)))
            (now_in self.new.keeper (C.past self.new.children) self.new.marks self.new.sessions.items (D.past (disk_in self.new.keeper))) }
        ensures history { (disk : Past) (before : List Call)
            (past : History disk before
            (now_in self.old.keeper (C.past self.old.children) self.old.marks self.old.sessions.items (D.past (disk_in self.old.keeper))))
            → (all : History disk before
            (now_in self.new.keeper (C.past self.new.children) self.new.marks self.new.sessions.items (D.past (disk_in self.new.keeper))))
            × AreTurns (place_in (D.honest (disk_in self.old.keeper)) self.old.keeper) (C.honest self.old.children) (C.whole self.new.children) steps.now
            result _ _ past all }
        ensures life { IsTrue (D.honest (disk_in self.old.keeper)) → has_failed self.old.keeper ≡ false → (disk : Past) (before : List Call)
            (past : History disk before
            (now_in self.old.keeper (C.past self.old.children) self.old.marks self.old.sessions.items (D.past (disk_in self.old.keeper))))
            → HasGoneOn (layout_in self.old.keeper) past
            → (all : History disk before
            (now_in self.new.keeper (C.past self.new.children) self.new.marks self.new.sessions.items (D.past (disk_in self.new.keeper))))
            × (turns : AreTurns (place_in (D.honest (disk_in self.old.keeper)) self.old.keeper) (C.honest self.old.children) (C.whole self.new.children)
            steps.now result _ _ past all)
            × Continues (layout_in self.old.keeper) past all (offers_in_turns turns) result }
        ensures refused { IfErr result (λ e. IsLost e ⊎ (e ≡ Refusal.Reopen)) }
        ensures device { CountsDevice result (D.failures (disk_in self.old.keeper)) (D.failures (disk_in self.new.keeper)) }
        ensures reopen { result ≢ Err Refusal.NoMemory → (result ≡ Err Refusal.Reopen) ↔ ((has_failed self.old.keeper ≡ true) × (steps.now ≢ [])) }
        ensures frame { Frame D.Disk C.Children result self.old.keeper self.new.keeper self.old.children self.new.children }
        ensures adopted { self.new.adopted ≡ self.old.adopted }
    {
        run(
            self.alloc,
            &mut self.keeper,
            &mut self.children,
            &mut self.marks,
            self.sessions.as_mut_slice(),
            steps,
        )
    }

    /// Takes the output for a connection, and returns it with whether its session has failed.
    pub fn output(&mut self, connection: Connection) -> Output
        ensures taken { IsOutput (slice_get self.old.sessions.items connection) result.bytes.items result.failed
            (slice_get self.new.sessions.items connection) }
        ensures others { (other : ℕ) → other ≢ connection → slice_get self.new.sessions.items other ≡ slice_get self.old.sessions.items other }
        ensures history { (disk : Past) (before : List Call)
            (past : History disk before
            (now_in self.old.keeper (C.past self.old.children) self.old.marks self.old.sessions.items (D.past (disk_in self.old.keeper))))
            → (all : History disk before
            (now_in self.new.keeper (C.past self.new.children) self.new.marks self.new.sessions.items (D.past (disk_in self.new.keeper))))
            × IsTaking past all }
        ensures keeper { self.new.keeper ≡ self.old.keeper }
        ensures children { self.new.children ≡ self.old.children }
        ensures marks { self.new.marks ≡ self.old.marks }
        ensures adopted { self.new.adopted ≡ self.old.adopted }
    {
        let session = &mut self.sessions[connection.get()];
        Output {
            bytes: session.take_output(),
            failed: session.failed(),
        }
    }

    /// Whether a whole frame of a connection is held. The next turn takes its request, whatever bytes arrive. So the
    /// server can leave further bytes where they are until then, and no client makes the manager hold more than a frame
    /// and one piece.
    pub fn holds_frame(&self, connection: Connection) -> bool
        ensures { (result ≡ true) ↔ HoldsFrameAt (slice_get self.now.sessions.items connection) }
    {
        self.sessions[connection.get()].holds_frame()
    }

    /// The state of its store.
    pub fn state(&self) -> &State
        ensures { state_of result.now ≡ state_in self.now.keeper }
    {
        self.keeper.state()
    }

    /// The children, which are the manager's alone to call.
    pub fn children(&self) -> &C
        ensures { result.now ≡ self.now.children }
    {
        &self.children
    }

    /// The number of body sectors that are left of the snapshot under way, and 0 exactly if none is. Each turn writes
    /// the next of them, so one is to be made soon, even if nothing arrives.
    pub fn left(&self) -> u32
        ensures { result ≡ left_in self.now.keeper }
    {
        self.keeper.left()
    }

    /// The findings of the opening of the store.
    pub fn opened(&self) -> OpenedStore
        ensures { result ≡ opened_in self.now.keeper }
    {
        self.keeper.opened()
    }

    /// The number of processes that were live when the manager was opened.
    pub fn adopted(&self) -> usize
        ensures { result ≡ self.now.adopted }
    {
        self.adopted
    }

    /// The disk and the children, as the last call left them.
    pub fn into_parts(self) -> (D, C)
        ensures disk { result.0 ≡ disk_in self.keeper }
        ensures children { result.1 ≡ self.children }
    {
        let Manager {
            alloc: _,
            keeper,
            children,
            marks: _marks,
            sessions: _sessions,
            adopted: _,
        } = self;
        (keeper.into_disk(), children)
    }
}
