//! Laws of the answers to the calls that open and close a regulation, and of what a regulation takes in.

ghost use Rattle.std.specs.Prelude.{◌≡◌, List, Bool, true, false, Option, Some};
ghost use Rattle.std.specs.Option.{option_map_or};
ghost use Rattle.std.specs.List.{AllByRecursion, filter};
ghost use Rattle.casa_grid.specs.declared.period.Period.{Period};
ghost use Rattle.casa_flight.specs.declared.call.Call.{Call};
ghost use Rattle.casa_flight.specs.declared.comp.Comp.{Comp};
ghost use Rattle.casa_filing.specs.declared.regulation.Regulation.{Regulation};
ghost use Rattle.casa_flight.specs.declared.row.Row.{Row};
ghost use Rattle.casa_filing.specs.Text.{Text};
ghost use Rattle.casa_flight.specs.Good.{AreInOrder};
ghost use Rattle.casa_flight.specs.Listing.{filter_map_values, stance_over};
ghost use Rattle.casa_flight.specs.Steps.{flights_over};
ghost use Rattle.casa_plan_spec.specs.Sight.{Sight, IsPlanned};
ghost use Rattle.casa_plan_spec.specs.TakingIn.{stances_by};
ghost use Rattle.casa_plan_spec.specs.Opening.{open_reg};
ghost use Rattle.casa_plan_spec.specs.Closing.{close_reg};

/// The answer to a regulation that opens.
pub fn open_is_planned()
    ensures { (v : Sight) (id loc : Text) (profile : List Period) →
        IsPlanned v (Call.OpenReg id loc profile) (open_reg v id loc profile) }
{}

/// The answer to a regulation that closes.
pub fn close_is_planned()
    ensures { (v : Sight) (id : Text) → IsPlanned v (Call.CloseReg id) (close_reg v id) }
{}

/// The flights over a regulation that pass a test are those of all flights over it whose rows pass it.
pub fn newcomers_are_among_all()
    ensures { (at : Text → Option Row) (test : Row → Bool) (r : Regulation)
        (rows : List (Text × Row)) →
        AllByRecursion (λ (e : Text × Row). at e.0 ≡ Some e.1) rows →
        filter (λ (c : Comp). option_map_or test (at c.key) false)
        (flights_over (λ (row : Row). true) r rows)
        ≡ flights_over test r rows }
{}

/// The flights over a regulation, by keys and each as it stands by its row, are those of its list.
pub fn list_has_each_flight_over()
    ensures { (at : Text → Option Row) (r : Regulation) (rows : List (Text × Row))
        → AreInOrder rows →
        AllByRecursion (λ (e : Text × Row). at e.0 ≡ Some e.1) rows →
        stances_by r.id at (flights_over (λ (row : Row). true) r rows)
        ≡ filter_map_values (stance_over r) rows }
{}
