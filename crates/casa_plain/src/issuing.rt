//! Delays and take-off times of flights, and the issue of those that are due.

ghost use Rattle.std.specs.Prelude.{◌≡◌, ◌≤◌, IfOk, OnOk, map};
ghost use Rattle.std.specs.Option.{option_and_then, option_map_or};
ghost use Rattle.casa_time.specs.Moment.{last_moment};
ghost use Rattle.casa_flight.specs.declared.row.Row.{Row};
ghost use Rattle.casa_filing.specs.Text.{Text};
ghost use Rattle.casa_flight.specs.Listing.{Listing, cto_of, delay_in, delay_of, ctot_of};
ghost use Rattle.casa_flight.specs.Entry.{is_to_issue, issued_in, issue_if, issue_due};

use crate::plain::Plain;
use crate::plain_list::PlainList;
use casa_flight::{Key, Row};
use casa_time::Moment;
use std::alloc::{AllocError, Global};
use std::collections::BTreeMap;

/// The flight's delay in this list, and none without one.
fn delay_at(alloc: Global, list: Option<PlainList>, key: Key) -> Result<u32, AllocError>
    ensures value { IfOk result (λ delay. delay
        ≡ option_map_or (λ (l : Listing). delay_in l key) list 0) }
    ensures in_range { IfOk result (λ delay. delay ≤ last_moment) }
{
    match list {
        Some(list) => list.delay_in(alloc, key),
        None => Ok(0),
    }
}

/// The flight's calculated time over in this list.
fn cto_at(alloc: Global, list: Option<PlainList>, key: Key) -> Result<Option<Moment>, AllocError>
    ensures { IfOk result (λ cto. cto ≡ option_and_then (λ (l : Listing). cto_of l key) list) }
{
    match list {
        Some(list) => list.cto_of(alloc, key),
        None => Ok(None),
    }
}

impl Plain {
    /// The flight's delay, in seconds.
    pub(crate) fn delay_of(&self, alloc: Global, key: Key, row: &Row) -> Result<u32, AllocError>
        ensures value { IfOk result (λ delay. delay ≡ delay_of self.now key row.now) }
        ensures in_range { IfOk result (λ delay. delay ≤ last_moment) }
    {
        let list = self.governing_list(alloc, row)?;
        delay_at(alloc, list, key)
    }

    /// The flight's calculated take-off time, in seconds from midnight UTC.
    pub(crate) fn ctot_of(&self, alloc: Global, key: Key, row: &Row) -> Result<u32, AllocError>
        ensures { IfOk result (λ ctot. ctot ≡ ctot_of self.now key row.now) }
    {
        let delay = self.delay_of(alloc, key, row)?;
        Ok(row.plan.etot() + delay)
    }

    /// The flight issued at its calculated time over.
    fn issued_in(&self, alloc: Global, key: Key, row: &Row) -> Result<Row, AllocError>
        ensures { IfOk result (λ new. new ≡ issued_in self.now key row.now) }
    {
        let list = self.governing_list(alloc, row)?;
        let issued = cto_at(alloc, list, key)?;
        Ok(Row {
            plan: row.plan.clone()?,
            marked: row.marked,
            governing: row.governing,
            issued,
        })
    }

    /// The flight issued, if it is to be issued.
    fn issue_if(
        &self,
        alloc: Global,
        is_issued: bool,
        key: Key,
        row: &Row,
    ) -> Result<Row, AllocError>
        ensures { IfOk result (λ new. new ≡ issue_if is_issued self.now key row.now) }
    {
        if is_issued {
            return self.issued_in(alloc, key, row);
        }
        row.clone()
    }

    /// These flights, with those issued that are due.
    fn issued_rows(
        &self,
        alloc: Global,
        rows: &BTreeMap<Key, Row>,
    ) -> Result<BTreeMap<Key, Row>, AllocError>
        ensures { IfOk result (λ all. all.entries ≡
            map (λ (e : Text × Row).
            (e.0, issue_if (is_to_issue self.now.clock e.1) self.now e.0 e.1))
            rows.now.entries) }
    {
        let mut all = BTreeMap::new(alloc);
        for (key, row) in rows.iter() {
            let is_issued = row.is_to_issue(self.clock());
            all.insert(*key, self.issue_if(alloc, is_issued, *key, row)?)?;
        }
        Ok(all)
    }

    /// All due flights become issued, each at its place in the state before.
    pub(crate) fn issue_due(&mut self, alloc: Global) -> Result<(), AllocError>
        ensures { OnOk result (self.new ≡ issue_due self.old) }
    {
        let rows = self.issued_rows(alloc, self.rows())?;
        self.set_rows(rows);
        Ok(())
    }
}
