//! Laws of the answers to the calls on one flight, each on a function that does nothing.

ghost use Rattle.std.specs.Prelude.{◌≡◌};
ghost use Rattle.casa_filing.specs.Text.{Text};
ghost use Rattle.casa_filing.specs.FlightPlan.{FlightPlan};
ghost use Rattle.casa_flight.specs.Entry.{choice};
ghost use Rattle.casa_flight.specs.declared.call.Call.{Call};
ghost use Rattle.casa_plan_spec.specs.Sight.{Sight, IsPlanned, situation_in};
ghost use Rattle.casa_plan_spec.specs.OneFlight.{best_offer};
ghost use Rattle.casa_plan_spec.specs.FlightCalls.{file, amend, cancel, revise, exempt, show};

/// The most penalising offer of the regulations to which a plan is subject is that of all open ones, of which the
/// others offer nothing.
pub fn best_offer_is_the_choice()
    ensures { (v : Sight) (key : Text) (plan : FlightPlan) →
        best_offer v key plan ≡ choice (situation_in v) key plan }
{}

/// What is answered to each call on one flight, by what a view shows, is the answer in every good state of which the
/// view shows what the call reads.
pub fn flight_calls_are_answered()
    ensures filed { (v : Sight) (plan : FlightPlan) → IsPlanned v (Call.File plan) (file v plan) }
    ensures amended { (v : Sight) (plan : FlightPlan)
        → IsPlanned v (Call.Amend plan) (amend v plan) }
    ensures cancelled { (v : Sight) (key : Text) → IsPlanned v (Call.Cancel key) (cancel v key) }
    ensures revised { (v : Sight) (key : Text) → IsPlanned v (Call.Revise key) (revise v key) }
    ensures exempted { (v : Sight) (key : Text) → IsPlanned v (Call.Exempt key) (exempt v key) }
    ensures shown { (v : Sight) (key : Text) → IsPlanned v (Call.Show key) (show v key) }
{}
