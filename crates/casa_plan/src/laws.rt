//! Laws of the definitions, each on a function that does nothing.

ghost use Rattle.casa_flight.specs.declared.call.Call.{Call};
ghost use Rattle.casa_flight.specs.declared.state.State.{State};
ghost use Rattle.casa_flight.specs.Good.{IsGood};
ghost use Rattle.casa_view.specs.declared.view.View.{View};
ghost use Rattle.casa_view.specs.View.{Shows, IsFor};
ghost use Rattle.casa_view.specs.Shown.{HasRowsInOrder};
ghost use Rattle.casa_plan_spec.specs.Sight.{IsSightOf};
ghost use Rattle.casa_plan.specs.Seen.{sight};

use casa_view::Version;

/// A view for a call shows what the call reads, in every good state that shows the view.
pub fn views_show_what_is_read<V: Version>()
    ensures { (v : View V) (call : Call) (m : State) → IsFor V.item_of v call → HasRowsInOrder v
        → IsGood m →
        Shows V.item_of m v → IsSightOf m call (sight V.item_of v) }
{}
