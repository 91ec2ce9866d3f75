//! What one worker does at its desk.

ghost use Rattle.std.specs.Prelude.{◌≡◌, ◌≢◌, ◌<◌, ◌+◌, ◌∷◌, [], ◌++◌, ◌⊎◌, ℕ, length, vec_len, IfOk, OnOk, Some};
ghost use Rattle.casa_history.specs.declared.pass.Pass.{Pass};
ghost use Rattle.casa_commit.specs.declared.prepared.Prepared.{Prepared};
ghost use Rattle.casa_interleavings.specs.declared.desk.Desk.{Desk};
ghost use Rattle.casa_history.specs.Entries.{desk_of};
ghost use Rattle.casa_commit.specs.Prepared.{view_of};
ghost use Rattle.casa_commit.specs.Rooms.{world_of, entries_of, Admits};
ghost use Rattle.casa_interleavings.specs.Scenes.{Worker, Scene, with_hand, nothing, read, compute, Commits, Happens, worker_of, most_workers};
ghost use Rattle.casa_interleavings.specs.Desks.{IsForHeld, IsOfHeld};
ghost use Rattle.casa_interleavings.specs.Rooms.{reply_after, IsRoomWorker};

use crate::desk::{Desk, Held};
use crate::event::Event;
use crate::hand_in::hand_in;
use crate::stamped::Stamped;
use casa_commit::{Gate, Prepared, Room, World, prepare};
use casa_plan::Direct;
use std::alloc::{AllocError, Global};
use std::mem::replace;

/// Read: a desk that holds nothing takes a view for the call.
pub(crate) fn read<W: Stamped>(
    room: &Room<W>,
    desk: &mut Desk<W::Call, W::Reply, W::View, Prepared<W>>,
    call: &W::Call,
) -> Result<(), AllocError>
    ensures pass { desk.new.pass ≡ desk.old.pass }
    ensures stands { OnOk result ((x : Worker W.Call W.Reply) →
        IsRoomWorker W.World W.Stamped.own room.now desk.old x →
        IsRoomWorker W.World W.Stamped.own room.now desk.new
        (with_hand (read call.now (entries_of room.now) x.hand) x)) }
{
    if let Held::Nothing = desk.held {
        let view = room.world().view(call)?;
        desk.held = Held::View(W::copy_call(call)?, view);
    }
    Ok(())
}

/// Compute: a desk that holds a view works the answer out on it.
pub(crate) fn compute<W: Stamped>(
    alloc: Global,
    room: &Room<W>,
    desk: &mut Desk<W::Call, W::Reply, W::View, Prepared<W>>,
) -> Result<(), AllocError>
where
    Direct: Gate<W>,
    requires for_call { IsForHeld W.is_for desk.old.held }
    ensures pass { desk.new.pass ≡ desk.old.pass }
    ensures stands { OnOk result ((x : Worker W.Call W.Reply) →
        IsRoomWorker W.World W.Stamped.own room.now desk.old x →
        IsRoomWorker W.World W.Stamped.own room.now desk.new (with_hand (compute x.hand) x)) }
{
    match replace(&mut desk.held, Held::Nothing) {
        Held::View(call, view) => {
            let number = desk.pass.desk();
            let answer = prepare(alloc, &Direct, number, 0, view, call)?;
            desk.held = Held::Answer(answer);
        }
        held => desk.held = held,
    }
    Ok(())
}

/// Abandon: the desk holds nothing then.
pub(crate) fn abandon<W: Stamped>(
    room: &Room<W>,
    desk: &mut Desk<W::Call, W::Reply, W::View, Prepared<W>>,
)
    ensures pass { desk.new.pass ≡ desk.old.pass }
    ensures stands { (x : Worker W.Call W.Reply) →
        IsRoomWorker W.World W.Stamped.own room.now desk.old x →
        IsRoomWorker W.World W.Stamped.own room.now desk.new (with_hand nothing x) }
{
    desk.held = Held::Nothing;
}

/// Commit: a desk that holds an answer hands it in, and is told the outcome.
pub(crate) fn commit<W: Stamped>(
    room: &mut Room<W>,
    desk: &mut Desk<W::Call, W::Reply, W::View, Prepared<W>>,
) -> Result<(), AllocError>
    requires admitted { Admits room.old desk.old.pass }
    requires of_world { IsOfHeld (λ p. W.is_of (view_of p) (world_of room.old)) desk.old.held }
    ensures desk { OnOk result (desk_of desk.new.pass ≡ desk_of desk.old.pass) }
    ensures admitted { OnOk result (Admits room.new desk.new.pass) }
    ensures others { OnOk result ((p : Pass W.Call W.Reply) → desk_of p ≢ desk_of desk.old.pass →
        Admits room.old p → Admits room.new p) }
    ensures stay { OnOk result ((y : Desk W.Call W.Reply W.View
        (Prepared W W.Call W.View W.Change W.Reply W.World)) (x : Worker W.Call W.Reply) →
        IsRoomWorker W.World W.Stamped.own room.old y x →
        IsRoomWorker W.World W.Stamped.own room.new y x) }
    ensures happens { OnOk result ((w : ℕ) (m : Scene W.Call W.Reply) → desk_of desk.old.pass ≡ w →
        m.history ≡ entries_of room.old →
        IsRoomWorker W.World W.Stamped.own room.old desk.old (m.workers w) →
        (n : Scene W.Call W.Reply)
        × Commits (reply_after W.World) W.is_unmoved w (m.workers w).hand m n
        × (n.history ≡ entries_of room.new)
        × IsRoomWorker W.World W.Stamped.own room.new desk.new (n.workers w)
        × ((v : ℕ) → v ≢ w → n.workers v ≡ m.workers v)) }
{
    match replace(&mut desk.held, Held::Nothing) {
        Held::Answer(prepared) => {
            let outcome = hand_in(room, &mut desk.pass, prepared)?;
            desk.outcome = Some(outcome);
        }
        held => desk.held = held,
    }
    Ok(())
}

/// What a worker does at its desk by one event.
pub(crate) fn act<W: Stamped>(
    alloc: Global,
    room: &mut Room<W>,
    desk: &mut Desk<W::Call, W::Reply, W::View, Prepared<W>>,
    event: &Event<W::Call>,
) -> Result<(), AllocError>
where
    Direct: Gate<W>,
    requires admitted { Admits room.old desk.old.pass }
    requires held { IsForHeld W.is_for desk.old.held
        × IsOfHeld (λ p. W.is_of (view_of p) (world_of room.old)) desk.old.held }
    requires sits { desk_of desk.old.pass ≡ worker_of event.now }
    requires few { desk_of desk.old.pass < most_workers }
    ensures pass { OnOk result ((desk_of desk.new.pass ≡ desk_of desk.old.pass)
        × Admits room.new desk.new.pass) }
    ensures others { OnOk result ((p : Pass W.Call W.Reply) → desk_of p ≢ desk_of desk.old.pass →
        Admits room.old p → Admits room.new p) }
    ensures stay { OnOk result ((y : Desk W.Call W.Reply W.View
        (Prepared W W.Call W.View W.Change W.Reply W.World)) (x : Worker W.Call W.Reply) →
        IsRoomWorker W.World W.Stamped.own room.old y x →
        IsRoomWorker W.World W.Stamped.own room.new y x) }
    ensures happens { OnOk result ((m : Scene W.Call W.Reply) →
        m.history ≡ entries_of room.old →
        IsRoomWorker W.World W.Stamped.own room.old desk.old (m.workers (worker_of event.now)) →
        (n : Scene W.Call W.Reply) × Happens (reply_after W.World) W.is_unmoved event.now m n
        × (n.history ≡ entries_of room.new)
        × IsRoomWorker W.World W.Stamped.own room.new desk.new (n.workers (worker_of event.now))
        × ((v : ℕ) → v ≢ worker_of event.now → n.workers v ≡ m.workers v)) }
{
    match event {
        Event::Read(_, call) => read(room, desk, call)?,
        Event::Compute(_) => compute(alloc, room, desk)?,
        Event::Commit(_) => commit(room, desk)?,
        Event::Abandon(_) => abandon(room, desk),
    }
    Ok(())
}
