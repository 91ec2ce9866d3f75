//! What a list keeps beside its flights, worked out from all of them at once.

ghost use Rattle.std.specs.Prelude.{◌≡◌, IfOk, OnOk, map};
ghost use Rattle.std.specs.List.{All, filter_map};
ghost use Rattle.std.specs.Ordering.{is_lt};
ghost use Rattle.casa_flight.specs.declared.comp.Assigned.{Assigned};
ghost use Rattle.casa_flight.specs.declared.row.Stance.{Stance};
ghost use Rattle.casa_filing.specs.Text.{Text};
ghost use Rattle.casa_flight.specs.Good.{AreInOrder};
ghost use Rattle.casa_flight.specs.Listing.{sorted_by, is_before, competitor};
ghost use Rattle.casa_slots.specs.Seat.{HoldsTime, issued_in};
ghost use Rattle.casa_list.specs.Standings.{is_flight_before, issued_flight};
ghost use Rattle.casa_slots.specs.Walk.{comps_in};

use crate::stances::Stances;
use casa_flight::{Comp, Stance, put_in_order};
use casa_grid::Place;
use casa_slots::Seat;
use std::alloc::{AllocError, Global};
use std::cmp::Ordering;

/// The competitors among these flights, by key, with no places yet.
fn competing_by_key(alloc: Global, flights: &Stances) -> Result<Vec<Seat>, AllocError>
    ensures items { IfOk result (λ all. comps_in all.items ≡
        filter_map (λ (e : Text × Stance). competitor e.0 e.1) flights.now) }
    ensures ordered { AreInOrder flights.now }
{
    let mut all = Vec::new(alloc);
    for member in flights.as_slice() {
        if let Stance::Competing { eto } = member.stance() {
            let comp = Comp {
                eto,
                key: member.key(),
            };
            all.push(Seat::new(comp, Place::Over))?;
        }
    }
    Ok(all)
}

/// The competitors among these flights, in their order, with no places yet.
pub fn competitors_of(alloc: Global, flights: &Stances) -> Result<Vec<Seat>, AllocError>
    ensures items { IfOk result (λ all. comps_in all.items ≡
        sorted_by is_before (filter_map (λ (e : Text × Stance). competitor e.0 e.1) flights.now)) }
    ensures ordered { AreInOrder flights.now }
{
    let mut all = competing_by_key(alloc, flights)?;
    sort_seats(&mut all)?;
    Ok(all)
}

/// How flights compare: by time over, and by key among equal times.
fn compare(a: &Seat, b: &Seat) -> Ordering
    ensures { is_lt result ≡ is_before a.now.comp b.now.comp }
{
    a.comp().cmp(b.comp())
}

/// Puts flights in their order.
fn sort_seats(seats: &mut Vec<Seat>) -> Result<(), AllocError>
    ensures { OnOk result (seats.new.items
        ≡ sorted_by (λ (a b : Assigned). is_before a.comp b.comp) seats.old.items) }
{
    put_in_order(seats, |a, b| compare(a, b))?;
    Ok(())
}

/// The issued ones among these flights, by key.
fn issued_by_key(alloc: Global, flights: &Stances) -> Result<Vec<Seat>, AllocError>
    ensures flights { IfOk result (λ all. map issued_in all.items ≡
        filter_map (λ (e : Text × Stance). issued_flight e.0 e.1) flights.now) }
    ensures times { IfOk result (λ all. All HoldsTime all.items) }
{
    let mut all = Vec::new(alloc);
    for member in flights.as_slice() {
        if let Stance::Issued { eto, cto } = member.stance() {
            let comp = Comp {
                eto,
                key: member.key(),
            };
            all.push(Seat::held(comp, cto))?;
        }
    }
    Ok(all)
}

/// The issued ones among these flights, in their order.
pub fn issued_of(alloc: Global, flights: &Stances) -> Result<Vec<Seat>, AllocError>
    ensures flights { IfOk result (λ all. map issued_in all.items ≡ sorted_by is_flight_before
        (filter_map (λ (e : Text × Stance). issued_flight e.0 e.1) flights.now)) }
    ensures times { IfOk result (λ all. All HoldsTime all.items) }
{
    let mut all = issued_by_key(alloc, flights)?;
    sort_seats(&mut all)?;
    Ok(all)
}
