//! A flight in a list: how it comes, goes or stands otherwise.

ghost use Rattle.std.specs.Prelude.{◌≡◌, ℕ, true, Some, None, IfOk, OnOk, OnErr, IfSome, if◌then◌else◌};
ghost use Rattle.casa_flight.specs.Good.{AreInOrder};
ghost use Rattle.casa_flight.specs.Listing.{stance_of};
ghost use Rattle.casa_flight.specs.declared.row.Stance.{Stance};
ghost use Rattle.casa_flight.specs.IssuedTimes.{with_issued};
ghost use Rattle.casa_list.specs.Standings.{governed_place};
ghost use Rattle.casa_plan_spec.specs.Sight.{with_flight};

use casa_flight::{Comp, Key, Stance};
use casa_list::{SharedList, SlotList};
use std::alloc::{AllocError, Global};

/// Takes a flight out, which stands in this way, if it is there.
pub(crate) fn take_out(list: &mut SlotList, key: &Key, was: &Option<Stance>)
    requires { stance_of list.old key.now ≡ was.now }
    ensures { list.new ≡ with_flight list.old key.now None }
{
    match was {
        None => {}
        Some(Stance::Forced { .. }) => {
            let _forced = list.unforce(key);
        }
        Some(_) => {
            let _place = list.leave(key);
        }
    }
}

/// Makes way for a flight that stands in one way and is to stand in another: it is taken out, but where it is forced
/// and to be governed, since it is freed as it enters.
fn make_way(list: &mut SlotList, key: &Key, was: &Option<Stance>, stance: &Stance)
    requires stands { stance_of list.old key.now ≡ was.now }
    requires ordered { AreInOrder list.old.flights }
    ensures ungoverned { governed_place list.new key.now ≡ None }
    ensures free { (eto : ℕ) → stance.now ≡ Stance.Forced eto → stance_of list.new key.now ≡ None }
    ensures same { with_flight list.new key.now (Some stance.now)
        ≡ with_flight list.old key.now (Some stance.now) }
{
    match (was, stance) {
        (Some(Stance::Forced { .. }), Stance::Competing { .. } | Stance::Issued { .. }) => {}
        _ => take_out(list, key, was),
    }
}

/// Puts a flight in that the list does not govern, and that is not there where it is to be forced. `AllocError` where there
/// is no memory for it; the list is then as it was.
pub(crate) fn put_in(list: &mut SlotList, key: Key, stance: Stance) -> Result<(), AllocError>
    requires ungoverned { governed_place list.old key ≡ None }
    requires free { (eto : ℕ) → stance ≡ Stance.Forced eto → stance_of list.old key ≡ None }
    ensures stands { OnOk result (list.new ≡ with_flight list.old key (Some stance)) }
    ensures unchanged { OnErr result (list.new ≡ list.old) }
{
    match stance {
        Stance::Competing { eto } => {
            list.enter(Comp { eto, key })?;
        }
        Stance::Issued { eto, cto } => list.hold(Comp { eto, key }, cto)?,
        Stance::Forced { eto } => list.force(Comp { eto, key })?,
    }
    Ok(())
}

/// How a flight that stands in one way stands once it is issued at the time that it has; `None` where it does not compete.
pub(crate) fn once_issued(list: &SlotList, key: &Key, was: &Option<Stance>) -> Option<Stance>
    requires { stance_of list.now key.now ≡ was.now }
    ensures { IfSome result (λ stance.
        with_issued list.now key.now ≡ with_flight list.now key.now (Some stance)) }
{
    match was {
        Some(Stance::Competing { eto }) => Some(Stance::Issued {
            eto: *eto,
            cto: list.cto_of(key)?,
        }),
        _ => None,
    }
}

/// Issues a flight that stands in one way and is to stand in another, if it competes and that is what it then comes to,
/// and says whether: nobody moves.
fn issued_in_place(
    list: &mut SlotList,
    key: &Key,
    was: &Option<Stance>,
    stance: &Option<Stance>,
) -> bool
    requires { stance_of list.old key.now ≡ was.now }
    ensures { list.new ≡ (if result then with_flight list.old key.now stance.now else list.old) }
{
    let issued = once_issued(list, key, was);
    if issued.is_none() || issued != *stance {
        return false;
    }
    let _cto = list.issue(key);
    true
}

/// The list with a flight, which stands in one way, standing in another, or not at all. `AllocError` where there is no
/// memory for it.
pub(crate) fn with_stance(
    list: SlotList,
    key: Key,
    was: &Option<Stance>,
    stance: Option<Stance>,
) -> Result<SlotList, AllocError>
    requires stands { stance_of list key ≡ was.now }
    requires ordered { AreInOrder list.flights }
    ensures { IfOk result (λ new. new ≡ with_flight list key stance) }
{
    let mut list = list;
    if issued_in_place(&mut list, &key, was, &stance) {
        return Ok(list);
    }
    let Some(stance) = stance else {
        take_out(&mut list, &key, was);
        return Ok(list);
    };
    make_way(&mut list, &key, was, &stance);
    put_in(&mut list, key, stance)?;
    Ok(list)
}

/// Whether the one stance is the other.
pub(crate) fn is_stance(was: &Option<Stance>, stance: &Option<Stance>) -> bool
    ensures { result ≡ true → was.now ≡ stance.now }
{
    *was == *stance
}

/// A list that others may have, with a flight standing in this way, or not at all: it is copied where they do, and is
/// the same one where the flight stands so already. `AllocError` where there is no memory for another.
pub fn with_flight(
    alloc: Global,
    shared: SharedList,
    key: Key,
    stance: Option<Stance>,
) -> Result<SharedList, AllocError>
    ensures { IfOk result (λ list. list ≡ with_flight shared key stance) }
{
    let was = shared.list().stance_of(&key);
    if is_stance(&was, &stance) {
        return Ok(shared);
    }
    let list = with_stance(shared.into_list()?, key, &was, stance)?;
    SharedList::new(alloc, list)
}
