//! What the types of calls keep, as clauses: each function gives back what it is given, or nothing.

ghost use Rattle.std.specs.Prelude.{◌≡◌, All};
ghost use Rattle.casa_grid.specs.declared.period.Period.{Period};
ghost use Rattle.casa_grid.specs.Profile.{IsProfile};
ghost use Rattle.casa_filing.specs.FlightPlan.{IsValid};
ghost use Rattle.casa_filing.specs.declared.plan.Crossing.{Crossing};
ghost use Rattle.casa_lines.specs.Sayable.{IsMoment, IsName, IsPlan, IsProfileOfMoments, IsSayable};

use casa_flight::{Call, Crossing, Name, Plan};
use casa_grid::{Period, Profile};
use casa_time::Moment;

/// The same call. Every call that there is can be said: its type keeps what that takes.
pub fn sayable(call: Call) -> Call
    ensures same { result ≡ call }
    ensures sayable { IsSayable call }
{
    match call {
        Call::File(plan) => Call::File(kept_plan(plan)),
        Call::Amend(plan) => Call::Amend(kept_plan(plan)),
        Call::Cancel(key) => Call::Cancel(kept_name(key)),
        Call::Revise(key) => Call::Revise(kept_name(key)),
        Call::Exempt(key) => Call::Exempt(kept_name(key)),
        Call::OpenReg(reg, loc, profile) => {
            Call::OpenReg(kept_name(reg), kept_name(loc), kept_profile(profile))
        }
        Call::CloseReg(reg) => Call::CloseReg(kept_name(reg)),
        Call::Rates(reg, profile) => Call::Rates(kept_name(reg), kept_profile(profile)),
        Call::Tick(at) => Call::Tick(kept_moment(at)),
        Call::Show(key) => Call::Show(kept_name(key)),
        Call::List(reg) => Call::List(kept_name(reg)),
        Call::Swap(key, other) => Call::Swap(kept_name(key), kept_name(other)),
    }
}

fn kept_name<Kind>(name: Name<Kind>) -> Name<Kind>
    ensures same { result ≡ name }
    ensures name { IsName name }
{
    name
}

fn kept_moment(at: Moment) -> Moment
    ensures same { result ≡ at }
    ensures moment { IsMoment at }
{
    at
}

fn kept_plan(plan: Plan) -> Plan
    ensures same { result ≡ plan }
    ensures plan { IsPlan plan }
{
    let _key = kept_name(plan.key());
    look_at_crossings(plan.via());
    valid_plan(plan)
}

fn valid_plan(plan: Plan) -> Plan
    ensures same { result ≡ plan }
    ensures valid { IsValid plan.eobt plan.taxi plan.via }
{
    plan
}

fn look_at_crossings(via: &[Crossing])
    ensures { All (λ (c : Crossing). IsName c.loc × IsMoment c.eto) via.now }
{
    if let [first, rest @ ..] = via {
        let _crossing = kept_crossing(*first);
        look_at_crossings(rest);
    }
}

fn kept_crossing(crossing: Crossing) -> Crossing
    ensures same { result ≡ crossing }
    ensures location { IsName crossing.loc }
    ensures time { IsMoment crossing.eto }
{
    crossing
}

fn kept_profile(profile: Profile) -> Profile
    ensures same { result ≡ profile }
    ensures profile { IsProfileOfMoments profile }
{
    look_at_periods(profile.periods());
    profile
}

fn look_at_periods(periods: &[Period])
    ensures { All (λ (p : Period). IsMoment p.begin × IsMoment p.until) periods.now }
{
    if let [first, rest @ ..] = periods {
        let _period = kept_period(*first);
        look_at_periods(rest);
    }
}

fn kept_period(period: Period) -> Period
    ensures same { result ≡ period }
    ensures begin { IsMoment period.begin }
    ensures until { IsMoment period.until }
{
    period
}
