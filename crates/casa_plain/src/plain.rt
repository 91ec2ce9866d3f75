//! The state of the allocator, and the step from one to the next.

ghost use Rattle.std.specs.Prelude.{◌≡◌, IfOk, OnOk, OnErr, length, option_copied};
ghost use Rattle.casa_flight.specs.State.{empty, row_of, measure_of, with_row, catalogue};
ghost use Rattle.casa_flight.specs.Steps.{next};
ghost use Rattle.casa_flight.specs.Replies.{reply};
ghost use Rattle.casa_filing.specs.Text.{put, without};

use crate::flights::catalogue;
use casa_flight::{Call, Key, Measure, RegId, Regulation, Reply, Row};
use casa_time::Moment;
use std::alloc::{AllocError, Global};
use std::collections::BTreeMap;
use std::marker::Model;

/// The slow sequential allocator.
///
/// A regulation is opened at LA, and a flight is filed that crosses it. `rt` is the runtime and `alloc` its allocator;
/// `profile` has 30 flights an hour from 36000 to 37200:
///
/// ```rust
/// let mut plain = Plain::new(alloc);
/// let r1 = RegId::new(b"R1").expect(&rt, "an identifier");
/// let la = Loc::new(b"LA").expect(&rt, "a location");
/// plain.step(alloc, &Call::OpenReg(r1, la, profile)).expect(&rt, "memory");
/// let eobt = Moment::new(30_000).expect(&rt, "08:20");
/// let eto = Moment::new(36_010).expect(&rt, "10:00:10");
/// let via = [Crossing { loc: la, eto }];
/// let plan = Plan::new(alloc, b"A", eobt, 600, &via, Sts::Plain).expect(&rt, "a plan");
/// let reply = plain.step(alloc, &Call::File(plan)).expect(&rt, "memory");
/// assert!(&rt; matches!(&reply, Reply::Answered(Answer::Flight(a), _) if a.ctot == 30_600));
/// ```
///
/// Contracts see it as the state of the definitions.
#[derive(Drop, Debug)]
pub struct Plain {
    clock: Moment,
    regs: BTreeMap<RegId, Measure>,
    rows: BTreeMap<Key, Row>,
}

impl Model for Plain {
    ghost use Rattle.casa_flight.specs.declared.state.State.{State};

    ghost Value = { State };

    ghost view = { λ p. record { clock = p.clock; regs = p.regs.entries; rows = p.rows.entries } };
}

impl Plain {
    /// The allocator at midnight, with no regulation and no flight.
    pub fn new(alloc: Global) -> Plain
        ensures { result ≡ empty }
    {
        Plain {
            clock: Moment::new(0).unwrap(),
            regs: BTreeMap::new(alloc),
            rows: BTreeMap::new(alloc),
        }
    }

    /// Does what the call asks, and replies; `AllocError` where memory is refused, and then nothing changes.
    pub fn step(&mut self, alloc: Global, call: &Call) -> Result<Reply, AllocError>
        ensures reply { IfOk result (λ r. r ≡ reply self.old call.now) }
        ensures state { OnOk result (self.new ≡ next self.old call.now) }
        ensures unchanged { OnErr result (self.new ≡ self.old) }
    {
        let outcome = self.outcome(alloc, call)?;
        self.conclude(alloc, call, outcome)
    }

    /// The same state in memory of its own.
    pub(crate) fn try_clone(&self) -> Result<Plain, AllocError>
        ensures { IfOk result (λ copy. copy ≡ self.now) }
    {
        Ok(Plain {
            clock: self.clock,
            regs: self.regs.clone()?,
            rows: self.rows.clone()?,
        })
    }

    /// The clock.
    pub(crate) fn clock(&self) -> Moment
        ensures { result ≡ self.now.clock }
    {
        self.clock
    }

    /// Sets the clock.
    pub(crate) fn set_clock(&mut self, at: Moment)
        ensures { self.new ≡ record self.old { clock = at } }
    {
        self.clock = at;
    }

    /// The flights, by keys.
    pub(crate) fn rows(&self) -> &BTreeMap<Key, Row>
        ensures { result.now.entries ≡ self.now.rows }
    {
        &self.rows
    }

    /// The flight filed under a key.
    pub(crate) fn row(&self, key: Key) -> Option<&Row>
        ensures { option_copied result ≡ row_of self.now key }
    {
        self.rows.get(&key)
    }

    /// Files a flight under a key.
    pub(crate) fn put_row(&mut self, key: Key, row: Row) -> Result<(), AllocError>
        ensures { OnOk result (self.new ≡ with_row self.old key row) }
    {
        self.rows.insert(key, row)?;
        Ok(())
    }

    /// Removes the flight filed under a key.
    pub(crate) fn remove_row(&mut self, key: Key)
        ensures { self.new ≡ record self.old { rows = without self.old.rows key } }
    {
        let _row = self.rows.remove(&key);
    }

    /// Puts these flights in place of all.
    pub(crate) fn set_rows(&mut self, rows: BTreeMap<Key, Row>)
        ensures { self.new ≡ record self.old { rows = rows.entries } }
    {
        self.rows = rows;
    }

    /// How many regulations are open.
    pub(crate) fn regulations(&self) -> usize
        ensures { result ≡ length self.now.regs }
    {
        self.regs.len()
    }

    /// The open regulations, in the order of their identifiers.
    pub(crate) fn catalogue(&self, alloc: Global) -> Result<Vec<Regulation>, AllocError>
        ensures { IfOk result (λ regulations. regulations.items ≡ catalogue self.now) }
    {
        catalogue(alloc, &self.regs)
    }

    /// The measure of the regulation open under an identifier.
    pub(crate) fn measure(&self, id: RegId) -> Option<&Measure>
        ensures { option_copied result ≡ measure_of self.now id }
    {
        self.regs.get(&id)
    }

    /// Opens a regulation under an identifier, or changes its measure.
    pub(crate) fn put_measure(&mut self, id: RegId, measure: Measure) -> Result<(), AllocError>
        ensures { OnOk result (self.new ≡ record self.old { regs = put self.old.regs id measure }) }
    {
        self.regs.insert(id, measure)?;
        Ok(())
    }

    /// Closes the regulation under an identifier.
    pub(crate) fn remove_measure(&mut self, id: RegId)
        ensures { self.new ≡ record self.old { regs = without self.old.regs id } }
    {
        let _measure = self.regs.remove(&id);
    }
}
