//! Laws of what differs between two days, on functions that do nothing.

ghost use Rattle.std.specs.Prelude.{◌≡◌, ◌≢◌, ◌↔◌, [], IsTrue};
ghost use Rattle.casa_filing.specs.Text.{Text};
ghost use Rattle.casa_flight.specs.declared.state.State.{State};
ghost use Rattle.casa_difference.specs.Differences.{differences, is_told};
ghost use Rattle.casa_difference.specs.Standings.{standing_in};

/// A flight is told exactly where it does not stand alike on both days, in one of the three things that are told of it, or
/// where one of the days alone has it.
pub fn flights_that_differ_are_told()
    ensures { (m n : State) (key : Text) →
        IsTrue (is_told key (differences m n)) ↔ (standing_in m key ≢ standing_in n key) }
{}

/// No flight differs between a day and itself.
pub fn a_day_does_not_differ_from_itself()
    ensures { (m : State) → differences m m ≡ [] }
{}
