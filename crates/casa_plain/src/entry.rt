//! Entering: what the open regulations offer a flight, and the most penalising one of them.

ghost use Rattle.std.specs.Prelude.{◌≡◌, IfOk, OnOk, option_copied};
ghost use Rattle.std.specs.Option.{option_map};
ghost use Rattle.std.specs.List.{filter_map};
ghost use Rattle.casa_flight.specs.State.{row_of};
ghost use Rattle.casa_flight.specs.Listing.{listing, list_of, governing_list};
ghost use Rattle.casa_flight.specs.Entry.{situation, offer_in, offer, offers, choice};
ghost use Rattle.casa_flight.specs.Entry.{row_after_entry, enter, reenter, enter_all};

use crate::plain::Plain;
use crate::plain_list::PlainList;
use casa_flight::{
    Comp, Key, Measure, Offer, RegId, Regulation, Row, Stance, most_penalising, subject,
};
use casa_time::Moment;
use std::alloc::{AllocError, Global};
use std::collections::BTreeMap;

/// The list of the regulation with this measure, if it is open.
fn list_with(
    alloc: Global,
    rows: &BTreeMap<Key, Row>,
    id: RegId,
    measure: Option<&Measure>,
) -> Result<Option<PlainList>, AllocError>
    ensures { IfOk result (λ list. list
        ≡ option_map (listing rows.now.entries id) (option_copied measure.entry)) }
{
    match measure {
        Some(measure) => Ok(Some(PlainList::of(alloc, rows, id, measure)?)),
        None => Ok(None),
    }
}

/// What the regulation with this list offers the flight, if that is subject to it.
fn offer_in(
    alloc: Global,
    id: RegId,
    key: Key,
    list: Option<PlainList>,
    eto: Option<Moment>,
) -> Result<Option<Offer>, AllocError>
    ensures { IfOk result (λ offer. offer ≡ offer_in id key list eto) }
{
    let Some(mut list) = list else {
        return Ok(None);
    };
    let Some(eto) = eto else {
        return Ok(None);
    };
    list.add_competitor(key, eto)?;
    let cto = list.cto_as(alloc, key, &Stance::Competing { eto })?;
    Ok(Some(Offer::of(id, eto, cto)))
}

impl Plain {
    /// The list of an open regulation.
    pub(crate) fn list_of(&self, alloc: Global, id: RegId) -> Result<Option<PlainList>, AllocError>
        ensures { IfOk result (λ list. list ≡ list_of self.now id) }
    {
        list_with(alloc, self.rows(), id, self.measure(id))
    }

    /// The list of the regulation that governs the flight.
    pub(crate) fn governing_list(
        &self,
        alloc: Global,
        row: &Row,
    ) -> Result<Option<PlainList>, AllocError>
        ensures { IfOk result (λ list. list ≡ governing_list self.now row.now) }
    {
        match row.governing {
            Some(id) => self.list_of(alloc, id),
            None => Ok(None),
        }
    }

    /// What a regulation offers the flight.
    fn offer(
        &self,
        alloc: Global,
        key: Key,
        row: &Row,
        regulation: &Regulation,
    ) -> Result<Option<Offer>, AllocError>
        ensures { IfOk result (λ o. o ≡ offer
            (situation self.now) key row.now.plan regulation.now) }
    {
        let list = self.list_of(alloc, regulation.id)?;
        offer_in(alloc, regulation.id, key, list, subject(row, regulation))
    }

    /// What these regulations offer the flight.
    fn offers_of(
        &self,
        alloc: Global,
        key: Key,
        row: &Row,
        regulations: &[Regulation],
    ) -> Result<Vec<Offer>, AllocError>
        ensures { IfOk result (λ all. all.items ≡
            filter_map (offer (situation self.now) key row.now.plan) regulations.now) }
    {
        let mut offers = Vec::new(alloc);
        for regulation in regulations {
            if let Some(offer) = self.offer(alloc, key, row, regulation)? {
                offers.push(offer)?;
            }
        }
        Ok(offers)
    }

    /// What the open regulations offer the flight.
    fn offers(&self, alloc: Global, key: Key, row: &Row) -> Result<Vec<Offer>, AllocError>
        ensures { IfOk result (λ all. all.items ≡ offers (situation self.now) key row.now.plan) }
    {
        let regulations = self.catalogue(alloc)?;
        self.offers_of(alloc, key, row, regulations.as_slice())
    }

    /// The most penalising offer to the flight.
    fn choice(&self, alloc: Global, key: Key, row: &Row) -> Result<Option<Offer>, AllocError>
        ensures { IfOk result (λ best. best ≡ choice (situation self.now) key row.now.plan) }
    {
        let offers = self.offers(alloc, key, row)?;
        Ok(most_penalising(offers.as_slice()))
    }

    /// An ungoverned flight as it stands after it entered.
    pub(crate) fn row_after_entry(
        &self,
        alloc: Global,
        key: Key,
        row: Row,
    ) -> Result<Row, AllocError>
        ensures { IfOk result (λ new. new ≡ row_after_entry (situation self.now) key row) }
    {
        if row.is_exempt() || row.plan.is_gone(self.clock()) {
            return Ok(row);
        }
        match self.choice(alloc, key, &row)? {
            Some(offer) => Ok(row.governed(self.clock(), offer)),
            None => Ok(row),
        }
    }

    /// The flight enters.
    pub(crate) fn enter(&mut self, alloc: Global, key: Key, row: Row) -> Result<(), AllocError>
        ensures { OnOk result (self.new ≡ enter self.old key row) }
    {
        let row = self.row_after_entry(alloc, key, row)?;
        self.put_row(key, row)
    }

    /// The flight under a key enters anew, if there is one.
    fn reenter(&mut self, alloc: Global, key: Key) -> Result<(), AllocError>
        ensures { OnOk result (self.new ≡ reenter self.old key (row_of self.old key)) }
    {
        let Some(row) = self.row(key) else {
            return Ok(());
        };
        let row = row.ungoverned()?;
        self.enter(alloc, key, row)
    }

    /// These flights enter one by one.
    pub(crate) fn enter_all(&mut self, alloc: Global, comps: &[Comp]) -> Result<(), AllocError>
        ensures { OnOk result (self.new ≡ enter_all self.old comps.now) }
    {
        for comp in comps {
            self.reenter(alloc, comp.key)?;
        }
        Ok(())
    }
}
