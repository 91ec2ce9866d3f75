//! A law of the definitions, on a function that does nothing.

ghost use Rattle.std.specs.Prelude.{◌≡◌};
ghost use Rattle.std.specs.List.{sum_by};
ghost use Rattle.casa_filing.specs.Text.{Text};
ghost use Rattle.casa_flight.specs.declared.row.Row.{Row};
ghost use Rattle.casa_flight.specs.declared.state.State.{State};
ghost use Rattle.casa_flight.specs.Good.{IsGood};
ghost use Rattle.casa_flight.specs.Listing.{delay_of};
ghost use Rattle.casa_look.specs.declared.state.OpenRegulation.{OpenRegulation};
ghost use Rattle.casa_look.specs.StateText.{open_regulations};

/// The delays with which a good state shows its open regulations add up to those of its flights, of which each has one.
pub fn state_shows_what_flights_wait()
    ensures { (m : State) → IsGood m →
        sum_by (λ (r : OpenRegulation). r.cost.delay) (open_regulations m)
        ≡ sum_by (λ (r : Text × Row). delay_of m r.0 r.1) m.rows }
{}
