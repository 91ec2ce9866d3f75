ghost use Rattle.std.specs.Prelude.{◌≡◌, ◌≤◌, IfOk};
ghost use Rattle.casa_time.specs.Moment.{last_moment};
ghost use Rattle.casa_flight.specs.Replies.{flight_with, message_of, slot_number};

use crate::call::Refusal;
use crate::row::Row;
use crate::slot::SlotNumber;
use casa_filing::{Key, Loc, RegId, Shared, SharedSlice};
use casa_grid::Place;
use casa_time::Moment;
use std::alloc::AllocError;

/// What the allocator replies to a call.
#[derive(Drop, Debug, PartialEq, Eq)]
pub enum Reply {
    Refused(Refusal),
    Answered(Answer, Messages),
}

/// The answer to an accepted call.
#[derive(Drop, Debug, PartialEq, Eq)]
pub enum Answer {
    Done,
    Flight(FlightReply),
    List(Shared<ListReply>),
}

/// A flight as it stands after the call. Times are in seconds from midnight UTC.
#[derive(Clone, Copy, PartialEq, Eq, Debug)]
pub struct FlightReply {
    pub key: Key,
    pub eobt: Moment,
    /// Estimated take-off time.
    pub etot: u32,
    /// Calculated take-off time.
    pub ctot: u32,
    /// In seconds.
    pub delay: u32,
    /// Exempt by a desk's mark or by the plan's status.
    pub exempt: bool,
    pub issued: bool,
    /// The governing regulation.
    pub reg: Option<RegId>,
}

/// A regulation's list as it stands.
#[derive(Drop, Debug, PartialEq, Eq)]
pub struct ListReply {
    pub reg: RegId,
    pub loc: Loc,
    pub start: Moment,
    pub end: Moment,
    /// How many slots the profile has.
    pub slots: usize,
    /// Every flight that is subject to the regulation, by calculated time over and key.
    pub rows: Rows,
}

/// A flight in a regulation's list.
#[derive(Clone, Copy, PartialEq, Eq, Debug)]
pub struct ListRow {
    pub key: Key,
    /// Estimated time over.
    pub eto: Moment,
    /// Calculated time over, in seconds from midnight UTC; of a forced flight it may be later than any moment.
    pub cto: u32,
    pub kind: Kind,
    /// The slot of a competitor, or the slot whose window holds an issued time.
    pub slot: SlotNumber,
}

/// How a flight stands in a list.
#[derive(Clone, Copy, PartialEq, Eq, Debug)]
pub enum Kind {
    /// With a pre-allocated slot, or over.
    Pre,
    Issued,
    Forced,
}

/// A message to the operator of a flight. A take-off time is in seconds from midnight UTC.
#[derive(Clone, Copy, PartialEq, Eq, Debug)]
pub enum Message {
    /// Slot allocation: a slot is issued, with this calculated take-off time, by this regulation.
    Sam(Key, u32, RegId),
    /// Slot revision: the calculated take-off time is now this one.
    Srm(Key, u32, RegId),
    /// Slot cancellation: no slot is needed any more.
    Slc(Key),
}

/// The rows of a list, in their order.
pub type Rows = SharedSlice<ListRow>;

/// The messages of a call, in the order of the keys.
pub type Messages = SharedSlice<Message>;

impl FlightReply {
    /// The flight filed under a key as it is answered, with this delay in seconds. The delay is at most as long as the
    /// engine's day.
    pub fn of(key: Key, row: &Row, delay: u32) -> FlightReply
        requires { delay ≤ last_moment }
        ensures { result ≡ flight_with key row.now delay }
    {
        let etot = row.plan.etot();
        FlightReply {
            key,
            eobt: row.plan.eobt(),
            etot,
            ctot: etot + delay,
            delay,
            exempt: row.is_exempt(),
            issued: row.issued.is_some(),
            reg: row.governing,
        }
    }
}

/// The number of the slot at a place; `None` where that is over.
pub fn slot_number(place: Place) -> Option<usize>
    ensures { result ≡ slot_number place }
{
    match place {
        Place::Slot(k) => Some(k),
        Place::Over => None,
    }
}

impl Message {
    /// The message to the operator of a flight: by its governing regulation now, whether it was issued before and is
    /// now, and its calculated take-off times before and now, in seconds from midnight UTC. `None` where there is
    /// nothing to tell.
    pub fn of(
        key: Key,
        reg: Option<RegId>,
        was_issued: bool,
        is_issued: bool,
        ctot_before: u32,
        ctot: u32,
    ) -> Option<Message>
        ensures { result ≡ message_of key reg was_issued is_issued ctot_before ctot }
    {
        if !is_issued {
            return was_issued.then_some(Message::Slc(key));
        }
        let reg = reg?;
        if !was_issued {
            return Some(Message::Sam(key, ctot, reg));
        }
        (ctot_before != ctot).then_some(Message::Srm(key, ctot, reg))
    }
}

impl ListReply {
    /// The same list; its rows are shared, so that it takes no memory of its own. `AllocError` where they are shared too
    /// often to be counted.
    pub fn try_clone(&self) -> Result<ListReply, AllocError>
        ensures { IfOk result (λ copy. copy ≡ self.now) }
    {
        Ok(ListReply {
            reg: self.reg,
            loc: self.loc,
            start: self.start,
            end: self.end,
            slots: self.slots,
            rows: self.rows.try_clone()?,
        })
    }
}

impl Answer {
    /// The same answer; a list is shared, so that it takes no memory of its own. `AllocError` where it is shared
    /// too often to be counted.
    pub fn try_clone(&self) -> Result<Answer, AllocError>
        ensures { IfOk result (λ copy. copy ≡ self.now) }
    {
        Ok(match self {
            Answer::Done => Answer::Done,
            Answer::Flight(flight) => Answer::Flight(*flight),
            Answer::List(list) => Answer::List(list.try_clone()?),
        })
    }
}

impl Reply {
    /// The same reply; list and messages are shared, so that it takes no memory of its own. `AllocError` where they are
    /// shared too often to be counted.
    pub fn try_clone(&self) -> Result<Reply, AllocError>
        ensures { IfOk result (λ copy. copy ≡ self.now) }
    {
        Ok(match self {
            Reply::Refused(refusal) => Reply::Refused(*refusal),
            Reply::Answered(answer, messages) => {
                Reply::Answered(answer.try_clone()?, messages.try_clone()?)
            }
        })
    }
}
