//! Laws of the definitions, on functions that do nothing.

ghost use Rattle.std.specs.Prelude.{◌≡◌, ◌≢◌, map};
ghost use Rattle.std.specs.Cmp.Lexicographic.{slice_cmp};
ghost use Rattle.std.specs.List.{Contains, sum_by};
ghost use Rattle.std.specs.List.Sorted.{IsStrictlySortedBy};
ghost use Rattle.std.specs.Ordering.{nat_cmp};
ghost use Rattle.casa_flight.specs.declared.call.Call.TheVariants.{Swap};
ghost use Rattle.casa_flight.specs.declared.row.Row.{Row};
ghost use Rattle.casa_flight.specs.declared.state.State.{State};
ghost use Rattle.casa_flight.specs.Good.{IsGood};
ghost use Rattle.casa_flight.specs.Listing.{delay_of};
ghost use Rattle.casa_flight.specs.Replies.{ctot_before as ctot_in};
ghost use Rattle.casa_flight.specs.Steps.{leads, step};
ghost use Rattle.casa_filing.specs.Text.{Text};
ghost use Rattle.casa_inquiry.specs.declared.exchanging.PossibleExchange.{PossibleExchange};
ghost use Rattle.casa_inquiry.specs.Exchanges.{exchanges};
ghost use Rattle.casa_inquiry.specs.Summary.{lists_told, total_delay};

/// The delays that the lists of a good state tell add up to those of its flights, of which each has one, as it is shown.
pub fn summary_tells_what_flights_wait()
    ensures { (m : State) → IsGood m →
        total_delay (lists_told m) ≡ sum_by (λ (r : Text × Row). delay_of m r.0 r.1) m.rows }
{}

/// Each exchange that is named as possible is one with another flight that the allocator accepts now, and the two flights
/// then have the calculated take-off times that are named. None is left out: wherever the exchange of a flight with another
/// one is accepted, it is named. And each other flight is named once, in the order of the keys.
pub fn possible_exchanges_are_accepted()
    ensures accepted { (m : State) (key : Text) (x : PossibleExchange) →
        Contains (exchanges m key) x →
        (n : State) × (step m (Swap key x.other) ≡ leads n) × (key ≢ x.other) ×
        (x.ctot ≡ ctot_in n key) × (x.other_ctot ≡ ctot_in n x.other) }
    ensures none_left_out { (m n : State) (key other : Text) →
        key ≢ other → step m (Swap key other) ≡ leads n →
        Contains (exchanges m key)
        (record { other = other; ctot = ctot_in n key; other_ctot = ctot_in n other }) }
    ensures once { (m : State) (key : Text) → IsGood m →
        IsStrictlySortedBy (slice_cmp nat_cmp)
        (map (λ (x : PossibleExchange). x.other) (exchanges m key)) }
{}
