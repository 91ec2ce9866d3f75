//! Laws of the answers to new rates, to the clock, to an exchange of slots and to the question for a list, each on a
//! function that does nothing.

ghost use Rattle.std.specs.Prelude.{ℕ, List};
ghost use Rattle.casa_grid.specs.declared.period.Period.{Period};
ghost use Rattle.casa_flight.specs.declared.call.Call.{Call};
ghost use Rattle.casa_filing.specs.Text.{Text};
ghost use Rattle.casa_plan_spec.specs.Sight.{Sight, IsPlanned};
ghost use Rattle.casa_plan_spec.specs.NewRates.{rates};
ghost use Rattle.casa_plan_spec.specs.Issue.{tick};
ghost use Rattle.casa_plan_spec.specs.Look.{list};
ghost use Rattle.casa_plan_spec.specs.Swapping.{swap};

/// What is answered to new rates, by what a view shows, is the answer in every good state of which the view shows what
/// the call reads.
pub fn rates_is_planned()
    ensures { (v : Sight) (id : Text) (profile : List Period) →
        IsPlanned v (Call.Rates id profile) (rates v id profile) }
{}

/// And so is what is answered to the clock: each flight is issued at the time that it has before all of them.
pub fn tick_is_planned()
    ensures { (v : Sight) (at : ℕ) → IsPlanned v (Call.Tick at) (tick v at) }
{}

/// And so is what is answered to the question for a list.
pub fn list_is_planned()
    ensures { (v : Sight) (id : Text) → IsPlanned v (Call.List id) (list v id) }
{}

/// And so is what is answered to an exchange of slots: each flight is issued at the time that the other had.
pub fn swap_is_planned()
    ensures { (v : Sight) (key other : Text)
        → IsPlanned v (Call.Swap key other) (swap v key other) }
{}
