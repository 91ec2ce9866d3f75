//! The sum of all delays in lists.

ghost use Rattle.std.specs.Prelude.{◌≡◌, ◌+◌, ◌%◌, ◌^◌, ◌<◌, ◌≤◌, length, IfOk, OnOk};
ghost use Rattle.casa_engine.specs.Delays.{delays, delay_at, numbered_delay, numbered_delays, IsAuditOf};

use casa_list::{SharedList, SlotList};
use rayon::prelude::*;
use std::alloc::{AllocError, Global};
use std::thread::Threads;

/// How many lists there are, and the sum of the delays of the flights that they govern, in seconds.
#[derive(Clone, Copy, PartialEq, Eq, Debug)]
pub struct Audit {
    pub lists: usize,
    pub delay: u128,
}

/// A flight by its list and its number there.
type Numbered<'a> = (&'a SlotList, usize);

/// How many lists these are, and the sum of the delays of the flights that they govern. `AllocError` where there is no
/// memory for it.
///
/// The flights are numbered one after the other; several threads look them up and add.
pub fn audit_lists<R: Threads + Sync>(
    rt: &R,
    alloc: Global,
    lists: &[SlotList],
) -> Result<Audit, AllocError>
    ensures { IfOk result (IsAuditOf lists.now) }
{
    let mut flights = Vec::new(alloc);
    for list in lists {
        push_governed(&mut flights, list)?;
    }
    Ok(Audit {
        lists: lists.len(),
        delay: total(rt, flights.as_slice()),
    })
}

/// The same of shared lists. `AllocError` where there is no memory for it.
pub fn audit_shared<R: Threads + Sync>(
    rt: &R,
    alloc: Global,
    lists: &[SharedList],
) -> Result<Audit, AllocError>
    ensures { IfOk result (IsAuditOf lists.now) }
{
    let mut flights = Vec::new(alloc);
    for list in lists {
        push_governed(&mut flights, list.list())?;
    }
    Ok(Audit {
        lists: lists.len(),
        delay: total(rt, flights.as_slice()),
    })
}

/// Adds the flights that a list governs.
fn push_governed<'a>(flights: &mut Vec<Numbered<'a>>, list: &'a SlotList) -> Result<(), AllocError>
    ensures { OnOk result (numbered_delays flights.new.items ≡
        numbered_delays flights.old.items + delays list.now) }
{
    for n in 0..list.governed() {
        flights.push((list, n))?;
    }
    Ok(())
}

/// The sum of the delays of these flights, worked out in several threads.
fn total<R: Threads + Sync>(rt: &R, flights: &[Numbered<'_>]) -> u128
    requires { length flights.now < 2 ^ 64 }
    ensures { result ≡ numbered_delays flights.now }
{
    flights
        .par_iter()
        .map(
            |flight: &Numbered<'_>| -> u128
                ensures { (result ≡ numbered_delay flight.now) × (result ≤ 172800) }
            { delay_of(flight.0, flight.1) as u128 },
        )
        .reduce(
            rt,
            || -> u128
                ensures { result ≡ 0 }
            { 0 },
            |a: u128, b: u128| -> u128
                ensures { result ≡ (a + b) % 2 ^ 128 }
            { a.wrapping_add(b) },
        )
}

/// The delay of flight number `n` of a list, in seconds.
fn delay_of(list: &SlotList, n: usize) -> u32
    ensures value { result ≡ delay_at list.now n }
    ensures bound { result < 172800 }
{
    let Some((comp, _)) = list.nth(n) else {
        return 0;
    };
    match list.cto_of(&comp.key) {
        Some(cto) => cto.secs().saturating_sub(comp.eto.secs()),
        None => 0,
    }
}
