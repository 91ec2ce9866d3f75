//! What regulations offer a flight that enters, and the most penalising offer.

ghost use Rattle.std.specs.Prelude.{◌≡◌, ◌≤◌, ◌-◌};
ghost use Rattle.casa_time.specs.Moment.{last_moment};
ghost use Rattle.casa_flight.specs.Entry.{governed, more_penalising, most_penalising};

use crate::row::Row;
use casa_filing::RegId;
use casa_time::Moment;
use std::marker::Model;

/// What a regulation offers a flight: the calculated time over that it would have there as a competitor, and the delay
/// that this is.
#[derive(Clone, Copy, Debug)]
pub struct Offer {
    id: RegId,
    cto: Moment,
    delay: u32,
}

impl Model for Offer {
    ghost use Rattle.std.specs.Prelude.{◌≤◌};
    ghost use Rattle.casa_time.specs.Moment.{last_moment};
    ghost use Rattle.casa_flight.specs.Entry.{Offer};

    ghost Value = { Offer };

    ghost view = { λ o. record { id = o.id; cto = o.cto; delay = o.delay } };

    ghost invariant = { λ o. o.delay ≤ last_moment };

    ghost inverse = { λ o. record { id = o.id; cto = o.cto; delay = o.delay } };
}

impl Offer {
    /// What the regulation with this identifier offers a flight that is estimated over it at `eto` and would be
    /// calculated over it at `cto`.
    pub fn of(id: RegId, eto: Moment, cto: Moment) -> Offer
        ensures { result ≡ record { id = id; cto = cto; delay = cto - eto } }
    {
        Offer {
            id,
            cto,
            delay: cto.secs().saturating_sub(eto.secs()),
        }
    }

    /// The regulation that offers it.
    pub fn id(&self) -> RegId
        ensures { result ≡ self.now.id }
    {
        self.id
    }

    /// The calculated time over.
    pub fn cto(&self) -> Moment
        ensures { result ≡ self.now.cto }
    {
        self.cto
    }

    /// The delay, in seconds.
    pub fn delay(&self) -> u32
        ensures value { result ≡ self.now.delay }
        ensures in_range { result ≤ last_moment }
    {
        self.delay
    }
}

/// The more penalising of the best offer so far, if there is one, and the next: the earlier one where both delay as
/// much. Along the offers of a flight, in the order of their regulations, it leads to the most penalising one.
pub fn more_penalising(best: Option<Offer>, offer: Offer) -> Offer
    ensures { result ≡ more_penalising best offer }
{
    match best {
        Some(best) if best.delay >= offer.delay => best,
        _ => offer,
    }
}

/// The most penalising of these offers: the first one with the greatest delay; `None` where there is no offer.
pub fn most_penalising(offers: &[Offer]) -> Option<Offer>
    ensures { result ≡ most_penalising offers.now }
{
    let mut best = None;
    for offer in offers {
        best = Some(more_penalising(best, *offer));
    }
    best
}

impl Row {
    /// The flight governed as offered, and issued at once, at the time of the offer, if it is due by the clock.
    pub fn governed(self, clock: Moment, offer: Offer) -> Row
        ensures { result ≡ governed clock self offer }
    {
        let issued = self.plan.is_due(clock).then_some(offer.cto);
        Row {
            plan: self.plan,
            marked: self.marked,
            governing: Some(offer.id),
            issued,
        }
    }
}
