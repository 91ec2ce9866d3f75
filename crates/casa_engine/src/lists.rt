//! The lists of a board.

ghost use Rattle.std.specs.Prelude.{◌≡◌, List, [], ◌++◌, IfOk, OnOk};
ghost use Rattle.std.specs.List.{cons_option};
ghost use Rattle.std.specs.Option.{option_copied};
ghost use Rattle.casa_flight.specs.declared.call.Call.{Call};
ghost use Rattle.casa_flight.specs.declared.reply.Reply.{Reply};
ghost use Rattle.casa_history.specs.declared.entry.Entry.{Entry};
ghost use Rattle.casa_footprint.specs.Stamps.{state_after};
ghost use Rattle.casa_plan.specs.Rooms.{IsBoardAfter};
ghost use Rattle.casa_engine.specs.Delays.{lists_in};

use casa_commit::World;
use casa_list::SharedList;
use casa_view::{Board, Store};
use std::alloc::{AllocError, Global};

/// The lists of all open regulations, shared and not copied: those to which a history leads, after which the board stands.
/// `AllocError` where there is no memory for that.
pub(crate) fn shared_lists<K: Store>(
    alloc: Global,
    board: &Board<K>,
) -> Result<Vec<SharedList>, AllocError>
    ensures { IfOk result (λ lists. (history : List (Entry Call Reply)) →
        IsBoardAfter history (⟦<Board<K> as World>⟧.state board.now) →
        lists.items ≡ lists_in (state_after history)) }
{
    let regulations = board.catalogue();
    let mut lists = Vec::with_capacity(alloc, regulations.len())?;
    for regulation in regulations {
        push_shared(&mut lists, board.shared_list(&regulation.id))?;
    }
    Ok(lists)
}

/// Adds a list, if there is one, which is shared. `AllocError` where there is no memory for that.
fn push_shared(lists: &mut Vec<SharedList>, list: Option<&SharedList>) -> Result<(), AllocError>
    ensures { OnOk result (lists.new.items
        ≡ lists.old.items ++ cons_option (option_copied list.entry) []) }
{
    if let Some(list) = list {
        lists.push(list.share()?)?;
    }
    Ok(())
}
