//! What the allocator replies: the answer to a call, and the messages of a change.

ghost use Rattle.std.specs.Prelude.{◌≡◌, IfOk, OnOk, OnErr, map};
ghost use Rattle.casa_flight.specs.declared.row.Stance.{Stance};
ghost use Rattle.casa_filing.specs.Text.{Text};
ghost use Rattle.casa_flight.specs.Steps.{next, step};
ghost use Rattle.casa_flight.specs.Replies.{flight_reply, flight_answer, forced_time, row_in};
ghost use Rattle.casa_flight.specs.Replies.{list_rows, list_reply, list_answer, answer};
ghost use Rattle.casa_flight.specs.Replies.{ctot_before, message, messages, reply};
ghost use Rattle.casa_plain.specs.Outcome.{step_of};

use crate::plain::Plain;
use crate::plain_list::PlainList;
use crate::steps::Outcome;
use casa_flight::{
    Answer, Call, FlightReply, Key, ListReply, ListRow, Message, Messages, RegId, Regulation,
    Reply, Row, Rows, Shared, SlotNumber, Stance, is_issued, slot_number, sort_rows,
};
use casa_time::Moment;
use std::alloc::{AllocError, Global};

/// The message to the operator of a flight that is now filed under a key, if its slot is issued, revised or taken back.
fn message(
    alloc: Global,
    old: &Plain,
    new: &Plain,
    key: Key,
    row: &Row,
) -> Result<Option<Message>, AllocError>
    ensures { IfOk result (λ m. m ≡ message old.now new.now key row.now) }
{
    let was_issued = is_issued(old.row(key));
    let is_issued = row.issued.is_some();
    let before = if was_issued && is_issued {
        old.ctot_before(alloc, key)?
    } else {
        0
    };
    let ctot = if is_issued {
        new.ctot_of(alloc, key, row)?
    } else {
        0
    };
    Ok(Message::of(key, row.governing, was_issued, is_issued, before, ctot))
}

/// The messages of a change from one state to another.
fn messages(alloc: Global, old: &Plain, new: &Plain) -> Result<Messages, AllocError>
    ensures { IfOk result (λ m. m ≡ messages old.now new.now) }
{
    let mut all = Vec::new(alloc);
    for (key, row) in new.rows() {
        if let Some(message) = message(alloc, old, new, *key, row)? {
            all.push(message)?;
        }
    }
    Ok(Messages::from_vec(all)?)
}

impl Plain {
    /// The calculated take-off time of the flight under a key, and 0 where there is none.
    fn ctot_before(&self, alloc: Global, key: Key) -> Result<u32, AllocError>
        ensures { IfOk result (λ ctot. ctot ≡ ctot_before self.now key) }
    {
        match self.row(key) {
            Some(row) => self.ctot_of(alloc, key, row),
            None => Ok(0),
        }
    }

    /// The flight as it is answered.
    fn flight_reply(&self, alloc: Global, key: Key, row: &Row) -> Result<FlightReply, AllocError>
        ensures { IfOk result (λ r. r ≡ flight_reply self.now key row.now) }
    {
        let delay = self.delay_of(alloc, key, row)?;
        Ok(FlightReply::of(key, row, delay))
    }

    /// The answer with the flight under a key.
    fn flight_answer(&self, alloc: Global, key: Key) -> Result<Answer, AllocError>
        ensures { IfOk result (λ a. a ≡ flight_answer self.now key) }
    {
        match self.row(key) {
            Some(row) => Ok(Answer::Flight(self.flight_reply(alloc, key, row)?)),
            None => Ok(Answer::Done),
        }
    }

    /// When a forced flight passes, in seconds from midnight UTC: with the delay that it has at its governing
    /// regulation.
    fn forced_time(&self, alloc: Global, key: Key, eto: Moment) -> Result<u32, AllocError>
        ensures { IfOk result (λ at. at ≡ forced_time self.now key eto) }
    {
        match self.row(key) {
            Some(row) => Ok(eto.secs() + self.delay_of(alloc, key, row)?),
            None => Ok(eto.secs()),
        }
    }

    /// A flight as its list shows it.
    fn row_in(
        &self,
        alloc: Global,
        list: &PlainList,
        key: Key,
        stance: Stance,
    ) -> Result<ListRow, AllocError>
        ensures { IfOk result (λ row. row ≡ row_in self.now list.now key stance) }
    {
        let (cto, slot) = match stance {
            Stance::Competing { .. } => {
                let cto = list.cto_as(alloc, key, &stance)?;
                (cto.secs(), slot_number(list.place_of(alloc, key)?))
            }
            Stance::Issued { cto, .. } => (cto.secs(), list.window_of(cto)),
            Stance::Forced { eto } => (self.forced_time(alloc, key, eto)?, None),
        };
        Ok(ListRow {
            key,
            eto: stance.eto(),
            cto,
            kind: stance.kind(),
            slot: SlotNumber::of(slot)?,
        })
    }

    /// The flights of a list as it shows them, by key.
    fn rows_in(&self, alloc: Global, list: &PlainList) -> Result<Vec<ListRow>, AllocError>
        ensures { IfOk result (λ rows. rows.items ≡
            map (λ (e : Text × Stance). row_in self.now list.now e.0 e.1) list.now.flights) }
    {
        let mut rows = Vec::new(alloc);
        for (key, stance) in list.flights() {
            rows.push(self.row_in(alloc, list, *key, *stance)?)?;
        }
        Ok(rows)
    }

    /// The rows of a list, in their order.
    fn list_rows(&self, alloc: Global, list: &PlainList) -> Result<Rows, AllocError>
        ensures { IfOk result (λ rows. rows ≡ list_rows self.now list.now) }
    {
        let mut rows = self.rows_in(alloc, list)?;
        sort_rows(&mut rows)?;
        Ok(Rows::from_vec(rows)?)
    }

    /// A regulation's list as it is answered.
    fn list_reply(
        &self,
        alloc: Global,
        regulation: &Regulation,
        list: &PlainList,
    ) -> Result<ListReply, AllocError>
        ensures { IfOk result (λ r. r ≡ list_reply self.now regulation.now list.now) }
    {
        Ok(ListReply {
            reg: regulation.id,
            loc: regulation.loc,
            start: regulation.start,
            end: regulation.end,
            slots: list.len(),
            rows: self.list_rows(alloc, list)?,
        })
    }

    /// The answer with the list of a regulation.
    fn list_answer(&self, alloc: Global, id: RegId) -> Result<Answer, AllocError>
        ensures { IfOk result (λ a. a ≡ list_answer self.now id) }
    {
        let Some(measure) = self.measure(id) else {
            return Ok(Answer::Done);
        };
        let list = PlainList::of(alloc, self.rows(), id, measure)?;
        let reply = self.list_reply(alloc, &Regulation::of(id, measure), &list)?;
        Ok(Answer::List(Shared::new(alloc, reply)?))
    }

    /// The answer to an accepted call, in the state that it led to.
    fn answer(&self, alloc: Global, call: &Call) -> Result<Answer, AllocError>
        ensures { IfOk result (λ a. a ≡ answer self.now call.now) }
    {
        match call {
            Call::File(plan) => self.flight_answer(alloc, plan.key()),
            Call::Amend(plan) => self.flight_answer(alloc, plan.key()),
            Call::Revise(key) => self.flight_answer(alloc, *key),
            Call::Exempt(key) => self.flight_answer(alloc, *key),
            Call::Show(key) => self.flight_answer(alloc, *key),
            Call::List(id) => self.list_answer(alloc, *id),
            _ => Ok(Answer::Done),
        }
    }

    /// Takes over what a call leads to, and replies.
    pub(crate) fn conclude(
        &mut self,
        alloc: Global,
        call: &Call,
        outcome: Outcome,
    ) -> Result<Reply, AllocError>
        requires { step_of outcome ≡ step self.old call.now }
        ensures reply { IfOk result (λ r. r ≡ reply self.old call.now) }
        ensures state { OnOk result (self.new ≡ next self.old call.now) }
        ensures unchanged { OnErr result (self.new ≡ self.old) }
    {
        match outcome {
            Outcome::Refused(refusal) => Ok(Reply::Refused(refusal)),
            Outcome::Leads(new) => {
                let answer = new.answer(alloc, call)?;
                let messages = messages(alloc, self, &new)?;
                *self = new;
                Ok(Reply::Answered(answer, messages))
            }
        }
    }
}
