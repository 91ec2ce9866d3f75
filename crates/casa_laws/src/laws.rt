//! Laws of the definitions, each on a function that does nothing: what the contracts of this crate mean.

ghost use Rattle.std.specs.Prelude.{◌≡◌, ◌↔◌, ◌⊎◌, ℕ, ◌-◌, ◌≤◌, ◌<◌, Bool, List, [], ◌∷◌, ◌++◌, take, length, map, not, Option, Some, None, true, is_some, unwrap_or, false};
ghost use Rattle.std.specs.Option.{option_map, option_and_then};
ghost use Rattle.std.specs.List.{All, AllPairs, Contains, filter};
ghost use Rattle.std.specs.List.Sorted.{IsStrictlySortedBy};
ghost use Rattle.std.specs.Cmp.Lexicographic.{slice_cmp};
ghost use Rattle.std.specs.Ordering.{nat_cmp};
ghost use Rattle.std.specs.declared.cmp.Ordering.TheVariants.{Less};
ghost use Rattle.casa_grid.specs.Profile.{IsProfile, end_of};
ghost use Rattle.casa_grid.specs.Slots.{slots};
ghost use Rattle.casa_grid.specs.TimeOver.{cto};
ghost use Rattle.casa_flight.specs.declared.comp.Comp.{Comp};
ghost use Rattle.casa_flight.specs.declared.comp.Assigned.{Assigned};
ghost use Rattle.casa_filing.specs.declared.regulation.Measure.{Measure};
ghost use Rattle.casa_flight.specs.declared.row.Row.{Row};
ghost use Rattle.casa_flight.specs.declared.row.Stance.{Stance};
ghost use Rattle.casa_flight.specs.declared.row.Stance.TheVariants.{Competing, Issued};
ghost use Rattle.casa_flight.specs.declared.state.State.{State};
ghost use Rattle.casa_filing.specs.Text.{Text, same_text, at_name, put, without};
ghost use Rattle.casa_filing.specs.Subject.{regulation, subject};
ghost use Rattle.casa_flight.specs.State.{row_of, measure_of, with_row};
ghost use Rattle.casa_flight.specs.Assignment.{Occupancy, IsRight, assignment, Precedes};
ghost use Rattle.casa_flight.specs.Listing.{Listing, listing, list_of, stance_in, stance_of, places, place_of};
ghost use Rattle.casa_flight.specs.Listing.{is_before, competitors};
ghost use Rattle.casa_flight.specs.Listing.{cto_of, delay_of, governing_list};
ghost use Rattle.casa_flight.specs.Entry.{Offer, situation, offer, offers, choice};
ghost use Rattle.casa_filing.specs.FlightPlan.{FlightPlan};
ghost use Rattle.casa_flight.specs.Good.{AreInOrder, IsGood};
ghost use Rattle.casa_flight.specs.State.{empty};
ghost use Rattle.casa_flight.specs.Steps.{refused, step, next, flights_over};
ghost use Rattle.casa_flight.specs.Replies.{reply, row_in, is_row_before, list_rows};
ghost use Rattle.casa_filing.specs.declared.regulation.Regulation.{Regulation};
ghost use Rattle.casa_flight.specs.declared.reply.ListRow.{ListRow};
ghost use Rattle.casa_flight.specs.Messages.{messages_in, flight_of, CanCome, is_silent, TellsChange};
ghost use Rattle.casa_flight.specs.Messages.{Passes};
ghost use Rattle.casa_flight.specs.IssuedTimes.{may_free, may_serve, IsTakenIn, BecomesIssued, issue_in_turn};
ghost use Rattle.casa_filing.specs.PlanFaults.{plan_fault};
ghost use Rattle.casa_filing.specs.FlightPlan.{IsValid};
ghost use Rattle.casa_filing.specs.Text.{is_name};
ghost use Rattle.casa_flight.specs.Entry.{is_to_issue};
ghost use Rattle.casa_flight.specs.Listing.{ctot_of};
ghost use Rattle.casa_grid.specs.declared.period.Period.{Period};
ghost use Rattle.casa_filing.specs.declared.plan.Crossing.{Crossing};
ghost use Rattle.casa_flight.specs.declared.call.Call.{Call};
ghost use Rattle.casa_flight.specs.declared.call.Call.TheVariants.{OpenReg, Rates, Tick, Swap};
ghost use Rattle.casa_flight.specs.declared.call.Refusal.{Refusal};
ghost use Rattle.casa_flight.specs.declared.reply.Message.{Message};

/// First planned, first served has one answer: `assignment` is right, and nothing else is.
pub fn assignment_is_right()
    ensures right { (o : Occupancy) (cs : List Comp) → IsRight o (assignment o cs) }
    ensures whose { (o : Occupancy) (cs : List Comp)
        → map (λ (a : Assigned). a.comp) (assignment o cs) ≡ cs }
    ensures only { (o : Occupancy) (all : List Assigned) → IsRight o all →
        all ≡ assignment o (map (λ (a : Assigned). a.comp) all) }
{}

/// Later competitors change nothing for earlier ones.
pub fn later_competitors_change_nothing()
    ensures { (o : Occupancy) (cs ds : List Comp) →
        take (length cs) (assignment o (cs ++ ds)) ≡ assignment o cs }
{}

/// Along the competitors of a list, in their order, places rise; behind one that is over all are over.
pub fn places_rise()
    ensures { (l : Listing) (before : List Assigned) (a : Assigned) (between : List Assigned)
        (b : Assigned)
        (after : List Assigned) →
        places l ≡ before ++ a ∷ between ++ b ∷ after → Precedes a.place b.place }
{}

/// The lists of a state are in the order of their keys. The competitors of such a list are its flights that compete,
/// and each is planned before all later ones, by time over and, among equal times, by key: so each is there once.
pub fn competitors_are_in_order()
    ensures lists { (m : State) (id : Text) (l : Listing) →
        AreInOrder m.rows → list_of m id ≡ Some l → AreInOrder l.flights }
    ensures who { (l : Listing) (c : Comp) → AreInOrder l.flights →
        Contains (competitors l) c ↔ (stance_of l c.key ≡ Some (Competing c.eto)) }
    ensures order { (l : Listing) → AreInOrder l.flights →
        AllPairs (λ (a b : Comp). is_before a b ≡ true) (competitors l) }
{}

/// The flights that enter when a regulation is opened or closed are those whose rows pass the test and whose plans are
/// subject to the regulation. Each enters once, at its time over there: the earlier first and, among equal times, by key.
pub fn entering_flights_are_in_order()
    ensures who { (test : Row → Bool) (r : Regulation) (rows : List (Text × Row)) (c : Comp)
        → AreInOrder rows →
        Contains (flights_over test r rows) c ↔
        (row : Row) × (at_name rows c.key ≡ Some row) × (test row ≡ true)
        × (subject row.plan r ≡ Some c.eto) }
    ensures order { (test : Row → Bool) (r : Regulation) (rows : List (Text × Row))
        → AreInOrder rows →
        AllPairs (λ (a b : Comp). is_before a b ≡ true) (flights_over test r rows) }
{}

/// The rows of a list are those of its flights, each once, by calculated time over and, among equal times, by key.
pub fn rows_are_in_order()
    ensures who { (m : State) (l : Listing) (row : ListRow) → AreInOrder l.flights →
        Contains (list_rows m l) row
        ↔ (option_map (row_in m l row.key) (stance_of l row.key) ≡ Some row) }
    ensures order { (m : State) (l : Listing) → AreInOrder l.flights →
        AllPairs (λ (a b : ListRow). is_row_before a b ≡ true) (list_rows m l) }
{}

/// A written or removed row changes the entry of its own flight in each list, and nothing else there. A flight
/// stands in a list as its row says.
pub fn written_row_changes_its_entries()
    ensures puts { (m : State) (key id : Text) (row : Row) (measure : Measure) (l : Listing)
        (s : Stance) →
        AreInOrder m.rows → measure_of m id ≡ Some measure → list_of m id ≡ Some l →
        stance_in id measure row ≡ Some s →
        list_of (with_row m key row) id ≡ Some (record l { flights = put l.flights key s }) }
    ensures removes { (m : State) (key id : Text) (row : Row) (measure : Measure) (l : Listing) →
        AreInOrder m.rows → measure_of m id ≡ Some measure → list_of m id ≡ Some l →
        stance_in id measure row ≡ None →
        list_of (with_row m key row) id ≡ Some (record l { flights = without l.flights key }) }
    ensures spares { (m : State) (key id : Text) (row : Row) (measure : Measure) (l : Listing) →
        AreInOrder m.rows → measure_of m id ≡ Some measure → list_of m id ≡ Some l →
        stance_in id measure row ≡ None → stance_of l key ≡ None →
        list_of (with_row m key row) id ≡ Some l }
    ensures cancelled { (m : State) (key id : Text) (measure : Measure) (l : Listing) →
        AreInOrder m.rows → measure_of m id ≡ Some measure → list_of m id ≡ Some l →
        list_of (record m { rows = without m.rows key }) id
        ≡ Some (record l { flights = without l.flights key }) }
    ensures found { (m : State) (key id : Text) (row : Row) (measure : Measure) (l : Listing) →
        AreInOrder m.rows → measure_of m id ≡ Some measure → list_of m id ≡ Some l →
        row_of m key ≡ Some row → stance_of l key ≡ stance_in id measure row }
    ensures absent { (m : State) (key id : Text) (measure : Measure) (l : Listing) →
        AreInOrder m.rows → measure_of m id ≡ Some measure → list_of m id ≡ Some l →
        row_of m key ≡ None → stance_of l key ≡ None }
{}

/// A flight's delay is that of its issue or, before it is issued, of its place in its governing list. It has none
/// where no regulation governs it.
pub fn delay_is_of_the_place()
    ensures governed { (m : State) (key id : Text) (row : Row) (measure : Measure) (eto : ℕ) →
        AreInOrder m.rows → row_of m key ≡ Some row → row.governing ≡ Some id →
        measure_of m id ≡ Some measure → subject row.plan (regulation id measure) ≡ Some eto →
        let place = place_of (listing m.rows id measure) key in
        delay_of m key row ≡
        unwrap_or row.issued
        (cto (slots measure.profile) (end_of measure.profile) eto place) - eto }
    ensures free { (m : State) (key : Text) (row : Row) → row.governing ≡ None
        → delay_of m key row ≡ 0 }
{}

/// A regulation offers a flight the delay and the calculated time over that the flight has once the regulation
/// governs it.
pub fn offer_is_the_delay_there()
    ensures delay { (m : State) (key id : Text) (row : Row) (measure : Measure) (eto : ℕ) →
        AreInOrder m.rows → measure_of m id ≡ Some measure →
        subject row.plan (regulation id measure) ≡ Some eto →
        let there : Row = record row { governing = Some id; issued = None } in
        option_map (λ (o : Offer). o.delay)
        (offer (situation m) key row.plan (regulation id measure)) ≡
        Some (delay_of (with_row m key there) key there) }
    ensures time { (m : State) (key id : Text) (row : Row) (measure : Measure) (eto : ℕ) →
        AreInOrder m.rows → measure_of m id ≡ Some measure →
        subject row.plan (regulation id measure) ≡ Some eto →
        let there : Row = record row { governing = Some id; issued = None } in
        option_map (λ (o : Offer). o.cto)
        (offer (situation m) key row.plan (regulation id measure)) ≡
        option_and_then (λ (l : Listing). cto_of l key)
        (governing_list (with_row m key there) there) }
{}

/// The choice is the most penalising of the offers: one of them, none delays more, and of those that delay as much it
/// has the smallest identifier. There is none exactly where nothing is offered.
pub fn choice_is_most_penalising()
    ensures among { (m : State) (key : Text) (plan : FlightPlan) (best : Offer) →
        choice (situation m) key plan ≡ Some best → Contains (offers (situation m) key plan) best }
    ensures greatest { (m : State) (key : Text) (plan : FlightPlan) (best : Offer) →
        choice (situation m) key plan ≡ Some best →
        All (λ (o : Offer). o.delay ≤ best.delay) (offers (situation m) key plan) }
    ensures ties { (m : State) (key : Text) (plan : FlightPlan) (best o : Offer)
        → AreInOrder m.regs →
        choice (situation m) key plan ≡ Some best → Contains (offers (situation m) key plan) o →
        o.delay ≡ best.delay → (best ≡ o) ⊎ (slice_cmp nat_cmp best.id o.id ≡ Less) }
    ensures none { (m : State) (key : Text) (plan : FlightPlan) →
        choice (situation m) key plan ≡ None ↔ offers (situation m) key plan ≡ [] }
{}

/// The offers to a flight are those of the open regulations, and an open regulation makes one exactly where the
/// flight's plan is subject to it.
pub fn offers_are_of_open_regulations()
    ensures open { (m : State) (key : Text) (plan : FlightPlan) (o : Offer) → AreInOrder m.regs →
        Contains (offers (situation m) key plan) o ↔
        (measure : Measure) × (measure_of m o.id ≡ Some measure) ×
        (offer (situation m) key plan (regulation o.id measure) ≡ Some o) }
    ensures subject { (m : State) (key id : Text) (plan : FlightPlan) (measure : Measure) →
        measure_of m id ≡ Some measure →
        is_some (offer (situation m) key plan (regulation id measure)) ≡
        is_some (subject plan (regulation id measure)) }
{}

/// A competitor that becomes issued at the calculated time over that it has moves nobody: in a list with a valid
/// profile every other flight keeps its place, and the places are those of before without its own. So it is for one
/// in a slot, which the issued time then blocks, and for one that is over.
pub fn issue_moves_nobody()
    ensures others { (l : Listing) (key other : Text) (eto t : ℕ) → IsProfile l.profile
        → AreInOrder l.flights →
        stance_of l key ≡ Some (Competing eto) → cto_of l key ≡ Some t → (other ≡ key → ⊥) →
        place_of (record l { flights = put l.flights key (Issued eto t) }) other
        ≡ place_of l other }
    ensures places { (l : Listing) (key : Text) (eto t : ℕ) → IsProfile l.profile
        → AreInOrder l.flights →
        stance_of l key ≡ Some (Competing eto) → cto_of l key ≡ Some t →
        places (record l { flights = put l.flights key (Issued eto t) }) ≡
        filter (λ (a : Assigned). not (same_text key a.comp.key)) (places l) }
{}

/// Two issued flights that exchange their times move nobody, wherever these times lie: in a list whose flights are in
/// order, the places are those of before. So an exchange on a good state moves nobody in any list.
pub fn exchange_moves_nobody()
    ensures places { (l : Listing) (key other : Text) (eto cto its_eto its_cto : ℕ)
        → AreInOrder l.flights →
        stance_of l key ≡ Some (Issued eto cto)
        → stance_of l other ≡ Some (Issued its_eto its_cto) →
        places (record l {
          flights = put (put l.flights key (Issued eto its_cto)) other
              (Issued its_eto cto);
        }) ≡
        places l }
    ensures lists { (m : State) (key other id : Text) → IsGood m →
        option_map places (list_of (next m (Swap key other)) id)
        ≡ option_map places (list_of m id) }
{}

/// The empty state is good, and every call leads from a good state to a good one.
pub fn good_states_are_kept()
    ensures opening { IsGood empty }
    ensures kept { (m : State) (call : Call) → IsGood m → IsGood (next m call) }
{}

/// Which messages come of a call on a good state. Only those of the kinds, and for the flights, that such a call can
/// give. One for each flight that got a slot, kept one at another take-off time, or is there and has none any more, and
/// no other. In the order of the keys, at most one to a flight.
pub fn messages_of_calls()
    ensures kinds { (m : State) (call : Call) → IsGood m →
        All (CanCome m call) (messages_in (reply m call)) }
    ensures tells { (m : State) (call : Call) → IsGood m →
        All (TellsChange m (next m call)) (messages_in (reply m call)) }
    ensures comes { (m : State) (call : Call) (message : Message) → IsGood m →
        TellsChange m (next m call) message → Contains (messages_in (reply m call)) message }
    ensures order { (m : State) (call : Call) → IsGood m →
        IsStrictlySortedBy (slice_cmp nat_cmp) (map flight_of (messages_in (reply m call))) }
{}

/// No message comes of a refused call; nor, on a good state, of a cancellation, of new rates that move no end later,
/// or of a call that only looks.
pub fn calls_without_messages()
    ensures refusals { (m : State) (call : Call) (r : Refusal) →
        step m call ≡ refused r → messages_in (reply m call) ≡ [] }
    ensures silent { (m : State) (call : Call) → IsGood m →
        is_silent m call ≡ true → messages_in (reply m call) ≡ [] }
{}

/// An issued time is not moved for another flight, but where the two are told to exchange their times. A call on a
/// good state that is neither a flight's own revision, amendment, exemption or cancellation nor its exchange with
/// another flight nor the close of the regulation that governs it leaves the flight as it is (plan, mark, governing
/// regulation and issued time) where it is issued, and as it is but for its issue where it is governed. If the call
/// also opens no regulation, moves no end later and does not move the clock, it leaves the flight as it is, governed
/// or not. A refused call changes nothing at all.
pub fn issued_times_stay()
    ensures issued { (m : State) (call : Call) (key : Text) (row : Row) → IsGood m →
        row_of m key ≡ Some row → may_free call key row ≡ false → is_some row.issued ≡ true →
        row_of (next m call) key ≡ Some row }
    ensures governed { (m : State) (call : Call) (key : Text) (row : Row) → IsGood m →
        row_of m key ≡ Some row → may_free call key row ≡ false → is_some row.governing ≡ true →
        (issued : Option ℕ) × (row_of (next m call) key ≡ Some (record row { issued = issued })) }
    ensures others { (m : State) (call : Call) (key : Text) (row : Row) → IsGood m →
        row_of m key ≡ Some row → may_free call key row ≡ false → may_serve m call ≡ false →
        row_of (next m call) key ≡ Some row }
    ensures refusals { (m : State) (call : Call) (r : Refusal) → step m call ≡ refused r
        → next m call ≡ m }
{}

/// What a regulation that opens or ends later and the clock give on a good state, they give to flights that had none:
/// the regulation governs only flights that nothing governed, and issues those of them that are due; the clock issues
/// only flights that were governed and not issued, at the calculated time over that they have. Each other flight
/// stays as it is.
pub fn only_waiting_flights_are_served()
    ensures opened { (m : State) (id loc key : Text) (profile : List Period) (row : Row)
        → IsGood m →
        row_of m key ≡ Some row →
        (new : Row) × (row_of (next m (OpenReg id loc profile)) key ≡ Some new) ×
        ((new ≡ row) ⊎ IsTakenIn m.clock id row new) }
    ensures extended { (m : State) (id key : Text) (profile : List Period) (row : Row) → IsGood m →
        row_of m key ≡ Some row →
        (new : Row) × (row_of (next m (Rates id profile)) key ≡ Some new) ×
        ((new ≡ row) ⊎ IsTakenIn m.clock id row new) }
    ensures ticked { (m : State) (at : ℕ) (key : Text) (row : Row) → IsGood m →
        row_of m key ≡ Some row →
        (new : Row) × (row_of (next m (Tick at)) key ≡ Some new) ×
        ((new ≡ row) ⊎ ((time : ℕ) × BecomesIssued time row new ×
        (option_and_then (λ (l : Listing). cto_of l key) (governing_list m row) ≡ Some time))) }
{}

/// The clock moves nobody. In a list with a valid profile a flight that stands as it stood, a competitor for one, keeps
/// its place, and every flight its calculated time over. So all due flights become issued at once as they would one after
/// the other, in any order; and every flight keeps its take-off time.
pub fn tick_moves_nobody()
    ensures places { (m : State) (at : ℕ) (id key : Text) (old new : Listing) →
        AreInOrder m.rows → IsProfile old.profile →
        list_of m id ≡ Some old → list_of (next m (Tick at)) id ≡ Some new →
        stance_of new key ≡ stance_of old key → place_of new key ≡ place_of old key }
    ensures times { (m : State) (at : ℕ) (id key : Text) (old new : Listing) →
        AreInOrder m.rows → IsProfile old.profile →
        list_of m id ≡ Some old → list_of (next m (Tick at)) id ≡ Some new →
        cto_of new key ≡ cto_of old key }
    ensures in_turn { (m : State) (at : ℕ) (id : Text) (old : Listing) (keys : List Text) →
        AreInOrder m.rows → IsProfile old.profile → m.clock ≤ at → list_of m id ≡ Some old →
        ((key : Text) → Contains keys key ↔ Passes m key (is_to_issue at)) →
        list_of (next m (Tick at)) id ≡ Some (issue_in_turn old keys) }
    ensures take_off { (m : State) (at : ℕ) (key : Text) (row new : Row) →
        AreInOrder m.rows → ((l : Listing) → governing_list m row ≡ Some l → IsProfile l.profile) →
        row_of m key ≡ Some row → row_of (next m (Tick at)) key ≡ Some new →
        ctot_of (next m (Tick at)) key new ≡ ctot_of m key row }
{}

/// A plan of these has no fault exactly where its key is a name and the rest is valid.
pub fn valid_plan_has_no_fault()
    ensures { (key : Text) (eobt taxi : ℕ) (via : List Crossing) →
        (plan_fault key eobt taxi via ≡ None) ↔ ((is_name key ≡ true) × IsValid eobt taxi via) }
{}

/// A valid plan is subject to a regulation, at an estimated time over, exactly where it crosses the regulation's location
/// at that time and the regulation lasts then: from its start on and before its end.
pub fn subject_is_by_the_crossing()
    ensures { (plan : FlightPlan) (r : Regulation) (eto : ℕ)
        → IsValid plan.eobt plan.taxi plan.via →
        let there : Crossing = record { loc = r.loc; eto = eto } in
        (subject plan r ≡ Some eto) ↔ (Contains plan.via there × (r.start ≤ eto) × (eto < r.end)) }
{}
