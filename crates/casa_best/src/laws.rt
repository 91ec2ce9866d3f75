//! Laws of the definitions, each on a function that does nothing.

ghost use Rattle.std.specs.Prelude.{◌≡◌, ℕ, ◌+◌, ◌≤◌, ◌<◌, List, map, None, Some};
ghost use Rattle.std.specs.List.{All, AllPairs};
ghost use Rattle.casa_grid.specs.Profile.{IsProfile};
ghost use Rattle.casa_flight.specs.declared.comp.Assigned.{Assigned};
ghost use Rattle.casa_filing.specs.FlightPlan.{FlightPlan};
ghost use Rattle.casa_filing.specs.Text.{Text, put, without};
ghost use Rattle.casa_flight.specs.declared.call.Call.TheVariants.{Cancel, Exempt, File, Swap};
ghost use Rattle.casa_flight.specs.declared.row.Row.{Row};
ghost use Rattle.casa_flight.specs.declared.row.Stance.{Stance};
ghost use Rattle.casa_flight.specs.declared.state.State.{State};
ghost use Rattle.casa_flight.specs.Good.{AreInOrder, IsGood};
ghost use Rattle.casa_flight.specs.Listing.{Listing, competitors, delay_of, governing_list, occupancy, place_of, places, stance_of};
ghost use Rattle.casa_flight.specs.State.{row_of};
ghost use Rattle.casa_flight.specs.Steps.{next};
ghost use Rattle.casa_best.specs.Serving.{IsAllowed, IsCost, IsNoLater, MayHave, AreApart, delay_at, delayed_count, delay_beyond, flight_delay, over_count, total_cost, total_delay};

/// Of all ways to serve the competitors of a list around its issued flights, first planned, first served costs least,
/// whatever a delay costs, if a longer one costs no less and each further second no less than the one before. So the
/// total delay is least, and so is all delay beyond any threshold; no other way keeps all flights within a delay within
/// which this one does not keep them; and the fewest flights are over. It is itself such a way.
pub fn nothing_is_served_better()
    ensures allowed { (l : Listing) → IsAllowed l (places l) }
    ensures cost { (l : Listing) (other : List Assigned) (cost : ℕ → ℕ) →
        IsProfile l.profile → IsAllowed l other → IsCost cost →
        total_cost cost l (places l) ≤ total_cost cost l other }
    ensures total { (l : Listing) (other : List Assigned) →
        IsProfile l.profile → IsAllowed l other →
        total_delay l (places l) ≤ total_delay l other }
    ensures beyond { (l : Listing) (other : List Assigned) (t : ℕ) →
        IsProfile l.profile → IsAllowed l other →
        delay_beyond t l (places l) ≤ delay_beyond t l other }
    ensures longest { (l : Listing) (other : List Assigned) (most : ℕ) →
        IsProfile l.profile → IsAllowed l other →
        All (λ (a : Assigned). delay_at l a ≤ most) other →
        All (λ (a : Assigned). delay_at l a ≤ most) (places l) }
    ensures over { (l : Listing) (other : List Assigned) → IsAllowed l other →
        over_count (places l) ≤ over_count other }
{}

/// What is not promised. First planned, first served does not delay the fewest flights: some list has an allowed way that
/// delays fewer. And it is best among allowed ways alone: if two flights could share a slot, or if a flight could have a
/// slot that is not open to it, some list would have a way with less delay.
pub fn what_is_not_promised()
    ensures fewest_delayed { (l : Listing) × (other : List Assigned) ×
        IsProfile l.profile × IsAllowed l other ×
        (delayed_count l other < delayed_count l (places l)) }
    ensures shared_slots { (l : Listing) × (other : List Assigned) × IsProfile l.profile ×
        (map (λ (a : Assigned). a.comp) other ≡ competitors l) ×
        All (λ (a : Assigned). MayHave (occupancy l) a.comp.eto a.place) other ×
        (total_delay l other < total_delay l (places l)) }
    ensures closed_slots { (l : Listing) × (other : List Assigned) × IsProfile l.profile ×
        (map (λ (a : Assigned). a.comp) other ≡ competitors l) ×
        AllPairs (λ (a b : Assigned). AreApart a.place b.place) other ×
        (total_delay l other < total_delay l (places l)) }
{}

/// Who leaves delays nobody. Where a flight is cancelled or exempted, each other flight stays as it is, and its delay is
/// no longer than before: in its list it keeps its place or gets an earlier one.
pub fn who_leaves_delays_nobody()
    ensures places { (l : Listing) (key other : Text) →
        AreInOrder l.flights → (other ≡ key → ⊥) →
        let left : Listing = record l { flights = without l.flights key } in
        IsNoLater (place_of left other) (place_of l other) }
    ensures cancelled { (m : State) (key other : Text) (row : Row) → AreInOrder m.rows →
        ((l : Listing) → governing_list m row ≡ Some l → IsProfile l.profile) →
        (other ≡ key → ⊥) → row_of m other ≡ Some row →
        let left : State = next m (Cancel key) in
        (row_of left other ≡ Some row) × (delay_of left other row ≤ delay_of m other row) }
    ensures exempted { (m : State) (key other : Text) (row : Row) → AreInOrder m.rows →
        ((l : Listing) → governing_list m row ≡ Some l → IsProfile l.profile) →
        (other ≡ key → ⊥) → row_of m other ≡ Some row →
        let left : State = next m (Exempt key) in
        (row_of left other ≡ Some row) × (delay_of left other row ≤ delay_of m other row) }
{}

/// Who is filed shortens nobody's delay. Each other flight stays as it is, and its delay is no shorter than before: in its
/// list it keeps its place or gets a later one.
pub fn who_is_filed_shortens_no_delay()
    ensures places { (l : Listing) (key other : Text) (stands : Stance) →
        AreInOrder l.flights → stance_of l key ≡ None → (other ≡ key → ⊥) →
        let entered : Listing = record l { flights = put l.flights key stands } in
        IsNoLater (place_of l other) (place_of entered other) }
    ensures filed { (m : State) (plan : FlightPlan) (other : Text) (row : Row) →
        AreInOrder m.rows →
        ((l : Listing) → governing_list m row ≡ Some l → IsProfile l.profile) →
        (other ≡ plan.key → ⊥) → row_of m other ≡ Some row →
        let filed : State = next m (File plan) in
        (row_of filed other ≡ Some row) × (delay_of m other row ≤ delay_of filed other row) }
{}

/// Two flights that exchange their slots wait as long together as before.
pub fn an_exchange_keeps_the_sum_of_delays()
    ensures { (m : State) (key other : Text) → IsGood m → (other ≡ key → ⊥) →
        let exchanged : State = next m (Swap key other) in
        flight_delay exchanged key + flight_delay exchanged other
        ≡ flight_delay m key + flight_delay m other }
{}
