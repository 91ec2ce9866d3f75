//! How a regulation takes flights in, as it opens and as it ends later than before.

ghost use Rattle.std.specs.Prelude.{◌≡◌, false, IfOk, OnOk};
ghost use Rattle.std.specs.Option.{option_map_or};
ghost use Rattle.std.specs.List.{filter};
ghost use Rattle.casa_flight.specs.declared.comp.Comp.{Comp};
ghost use Rattle.casa_flight.specs.Steps.{may_compete};
ghost use Rattle.casa_table.specs.Asking.{HaveRows, comps_of};
ghost use Rattle.casa_plan_spec.specs.Sight.{regulations_in, row_in};
ghost use Rattle.casa_plan_spec.specs.Enter.{with_entries};
ghost use Rattle.casa_plan_spec.specs.TakingIn.{with_regulation, taking_in};
ghost use Rattle.casa_plan.specs.TakingIn.{member_of, stances_of};

use crate::entering::reenter;
use crate::shown::Shown;
use casa_flight::{RegId, Regulation, Stance};
use casa_grid::{Grid, Profile};
use casa_list::{Member, SharedList, SlotList};
use casa_time::Moment;
use casa_view::{Catalogue, Change, FlightOver, Version};
use std::alloc::{AllocError, Global};

/// The catalogue of what a view shows with this regulation: one more, or in place of that with its identifier. `AllocError`
/// where there is no memory for it.
fn with_regulation<V: Version>(
    alloc: Global,
    view: &Shown<V>,
    regulation: Regulation,
) -> Result<Catalogue, AllocError>
    ensures { IfOk result (λ all. all ≡ with_regulation regulation (regulations_in view.now)) }
{
    match view.catalogue() {
        Some(catalogue) => catalogue.with(alloc, regulation),
        None => Catalogue::new(alloc).with(alloc, regulation),
    }
}

/// A flight as it stands in the list of a regulation, by its row.
fn member_of(id: RegId, over: &FlightOver) -> Member
    ensures { result ≡ member_of id over.now }
{
    let stance = Stance::of(over.row.is_governed_by(id), over.row.issued, over.comp.eto);
    Member::new(over.comp.key, stance)
}

/// The list of a regulation with this profile and these flights over it. `AllocError` where there is no memory for it.
fn list_over(
    alloc: Global,
    id: RegId,
    profile: &Profile,
    flights: &[FlightOver],
) -> Result<SharedList, AllocError>
    ensures { IfOk result (λ list. list ≡ record {
      profile = profile.now;
      flights = stances_of id flights.now;
    }) }
{
    let mut members = Vec::with_capacity(alloc, flights.len())?;
    for over in flights {
        members.push(member_of(id, over))?;
    }
    SharedList::new(
        alloc,
        SlotList::of_members(alloc, Grid::of(alloc, profile)?, members)?,
    )
}

/// Those of these flights that may compete, which come with their rows, enter one by one, where these regulations are
/// open. `AllocError` where there is no memory for that.
fn enter_newcomers<V: Version>(
    alloc: Global,
    view: &Shown<V>,
    draft: &mut Change,
    clock: Moment,
    catalogue: &Catalogue,
    flights: &[FlightOver],
) -> Result<(), AllocError>
    requires { HaveRows view.now.rows flights.now }
    ensures { OnOk result (draft.new ≡
        with_entries clock catalogue.now view.now draft.old (filter (λ (c : Comp).
        option_map_or (may_compete clock) (row_in view.now c.key) false)
        (comps_of flights.now))) }
{
    for over in flights {
        if over.row.may_compete(clock) {
            let row = Some(over.row);
            reenter(alloc, view, draft, clock, catalogue, over.comp.key, row)?;
        }
    }
    Ok(())
}

/// What is written where a regulation opens, or ends later than before, with this profile: the flights over it that nothing
/// governs and that may compete enter, and all others stand in its list as they are. `AllocError` where there is no memory
/// for that.
pub(crate) fn taking_in<V: Version>(
    alloc: Global,
    view: &Shown<V>,
    regulation: Regulation,
    profile: &Profile,
) -> Result<Change, AllocError>
    ensures { IfOk result (λ draft. draft ≡ taking_in view.now regulation profile.now) }
{
    let clock = view.clock();
    let catalogue = with_regulation(alloc, view, regulation)?;
    let over = view.flights_over(alloc, &regulation)?;
    let mut draft = Change::new(alloc);
    draft.set_list(
        regulation.id,
        Some(list_over(alloc, regulation.id, profile, &over)?),
    )?;
    enter_newcomers(alloc, view, &mut draft, clock, &catalogue, &over)?;
    draft.set_catalogue(catalogue)?;
    Ok(draft)
}
