//! The seats of governed flights, as a list keeps them.

ghost use Rattle.std.specs.Prelude.{◌≡◌};
ghost use Rattle.casa_slots.specs.Seat.{HoldsTime, issued_in, number_of_place, place_of_number};
ghost use Rattle.casa_slots.specs.Walk.{IsWithin};
ghost use Rattle.casa_slots.specs.declared.standing.Standing.{Standing};

use casa_flight::Comp;
use casa_grid::Place;
use casa_time::Moment;
use std::marker::Model;

/// Stands for the place of a flight that is over: no grid has as many slots.
const OVER: u32 = u32::MAX;

/// A governed flight with a number, in little memory: a list has one for each, and copies them all. The number is that of
/// a competitor's slot, or the calculated time over of an issued flight, in seconds.
///
/// Contracts see it as an `Assigned`: a competitor in its place. What it says of an issued flight is `issued_in`.
#[derive(Clone, Copy)]
pub struct Seat {
    comp: Comp,
    number: u32,
}

impl Model for Seat {
    ghost use Rattle.casa_flight.specs.declared.comp.Assigned.{Assigned};
    ghost use Rattle.casa_slots.specs.Seat.{place_of_number, number_of_place, same_seat};

    ghost Value = { Assigned };

    ghost view = { λ s. record { comp = s.comp; place = place_of_number s.number } };

    ghost inverse = { λ a. record { comp = a.comp; number = number_of_place a.place } };

    ghost inverse_ok = { same_seat };
}

impl Seat {
    /// A competitor in a place: over, or the slot of this number, which is below 4,294,967,295.
    pub fn new(comp: Comp, place: Place) -> Seat
        requires { IsWithin u32.MAX place }
        ensures { result ≡ record { comp = comp; place = place } }
    {
        let number = match place {
            Place::Slot(k) => k as u32,
            Place::Over => OVER,
        };
        Seat { comp, number }
    }

    /// An issued flight with its calculated time over, in seconds as every moment; its own estimated time over is in `comp`.
    pub fn held(comp: Comp, cto: Moment) -> Seat
        ensures issued { issued_in result ≡ (comp, Standing.Issued cto) }
        ensures comp { result.comp ≡ comp }
        ensures time { HoldsTime result }
    {
        Seat {
            comp,
            number: cto.secs(),
        }
    }

    /// The flight: its key, with its estimated time over.
    pub fn comp(&self) -> &Comp
        ensures { result.now ≡ self.now.comp }
    {
        &self.comp
    }

    /// The place that a competitor has.
    pub fn place(&self) -> Place
        ensures { result ≡ self.now.place }
    {
        if self.number == OVER {
            return Place::Over;
        }
        Place::Slot(self.number as usize)
    }

    /// The calculated time over of an issued flight, which the seat must have been given.
    pub fn cto(&self) -> Moment
        requires { HoldsTime self.now }
        ensures { result ≡ number_of_place self.now.place }
    {
        Moment::new(self.number).unwrap()
    }
}
