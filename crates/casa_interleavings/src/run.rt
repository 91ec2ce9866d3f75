//! What came of a list of events, on any world.

ghost use Rattle.std.specs.Prelude.{◌≡◌, [], ◌∷◌, ◌++◌, IfOk};
ghost use Rattle.casa_commit.specs.Legal.{replay};
ghost use Rattle.casa_interleavings.specs.Scenes.{IsRun};
ghost use Rattle.casa_interleavings.specs.Rooms.{reply_after};
ghost use Rattle.casa_interleavings.specs.Runs.{run_events, run_history, run_world, run_outcomes};

use crate::desk::Desk;
use crate::desks::{happen, open_desks};
use crate::event::Event;
use crate::stamped::Stamped;
use casa_commit::{Gate, Prepared, Room};
use casa_plan::Direct;
use std::alloc::{AllocError, Global};
use std::marker::Model;
use std::snapshot::Snapshot;

/// What came of a list of events: the history, the world that it left, and the outcome of each worker's last commit.
///
/// Contracts see the events, too.
#[derive(Drop)]
pub struct Run<W: Stamped> {
    pub(crate) room: Room<W>,
    pub(crate) desks: Vec<Desk<W::Call, W::Reply, W::View, Prepared<W>>>,
    /// The events, of which nothing is kept but for contracts.
    pub(crate) events: Vec<Snapshot<Event<W::Call>>>,
}

impl<W: Stamped> Model for Run<W> {
    ghost use Rattle.std.specs.Prelude.{map};
    ghost use Rattle.casa_commit.specs.Rooms.{world_of, entries_of};
    ghost use Rattle.casa_interleavings.specs.Runs.{Played};

    ghost Value = { Played W W.Call W.Reply };

    ghost use Rattle.casa_interleavings.specs.Rooms.{HasHad};

    ghost view = { λ r. record {
      events = map (λ e. e.value) r.events.items;
      history = entries_of r.room;
      world = world_of r.room;
      outcomes = map (λ d. d.outcome) r.desks.items;
    } };

    ghost invariant = { λ r. HasHad W.World W.Stamped (map (λ e. e.value) r.events.items) r.room r.desks.items };
}

/// A run of no event from a world in the opening state, or `AllocError` where there is no memory for it.
pub(crate) fn begin<W: Stamped + Drop>(alloc: Global, world: W) -> Result<Run<W>, AllocError>
    requires { W.state world ≡ W.opening }
    ensures events { IfOk result (λ run. run_events run ≡ []) }
    ensures run { IfOk result (λ run. IsRun (reply_after W.World) W.is_unmoved (run_events run)
        (run_history run) (run_outcomes run)) }
    ensures state { IfOk result (λ run. W.state (run_world run)
        ≡ replay W.after W.opening (run_history run)) }
{
    let mut room = Room::new(alloc, world, 0);
    let desks = open_desks(alloc, &mut room)?;
    Ok(Run {
        room,
        desks,
        events: Vec::new(alloc),
    })
}

/// The run with one event more, or `AllocError` where there is no memory for it.
pub(crate) fn go_on<W: Stamped + Drop>(
    alloc: Global,
    run: Run<W>,
    event: &Event<W::Call>,
) -> Result<Run<W>, AllocError>
where
    Direct: Gate<W>,
    ensures events { IfOk result (λ next. run_events next ≡ run_events run ++ event.now ∷ []) }
    ensures run { IfOk result (λ next. IsRun (reply_after W.World) W.is_unmoved (run_events next)
        (run_history next) (run_outcomes next)) }
    ensures state { IfOk result (λ next. W.state (run_world next)
        ≡ replay W.after W.opening (run_history next)) }
{
    let Run {
        mut room,
        mut desks,
        mut events,
    } = run;
    happen(alloc, &mut room, desks.as_mut_slice(), event)?;
    events.push(Snapshot::of(event))?;
    Ok(Run {
        room,
        desks,
        events,
    })
}
