//! An edit of a list where it lies, of one flight: what may fail comes first, and the rest can be finished or undone.

ghost use Rattle.std.specs.Prelude.{◌≡◌, None, Some, IfOk, IfSome, OnErr};
ghost use Rattle.casa_flight.specs.declared.row.Stance.{Stance};
ghost use Rattle.casa_flight.specs.Listing.{stance_of};
ghost use Rattle.casa_plan_spec.specs.Sight.{with_flight};
ghost use Rattle.casa_stance.specs.Edit.{finished, undone};

use crate::stance::{is_stance, once_issued, put_in, take_out, with_stance};
use casa_flight::{Comp, Key, Stance};
use casa_list::SlotList;
use std::alloc::AllocError;

/// An edit of a list that was made ready: what is left of it takes no memory.
///
/// In between the list may have the flight already, and shows else what it showed before.
#[derive(Drop)]
pub enum Edit {
    /// Nothing is left: the flight stands so already.
    Same,
    /// The flight with this key was not there, and was put in as it is to stand.
    PutIn(Key),
    /// A forced flight gets another time over.
    Reforced(Comp),
    /// The flight with this key goes.
    Out(Key),
    /// The competitor with this key is issued.
    Issued(Key),
    /// This list comes in place of the one that is there.
    Other(SlotList),
}

/// The edit that brings a flight, which stands in one way, to stand in another or not at all, where all of it takes no
/// memory.
fn edit_for_later(
    list: &SlotList,
    key: Key,
    was: &Option<Stance>,
    stance: &Option<Stance>,
) -> Option<Edit>
    requires { stance_of list.now key ≡ was.now }
    ensures finished { IfSome result (λ edit. finished list.now edit
        ≡ with_flight list.now key stance.now) }
    ensures undone { IfSome result (λ edit. undone list.now edit ≡ list.now) }
{
    let issued = once_issued(list, &key, was);
    if issued.is_some() && is_stance(&issued, stance) {
        return Some(Edit::Issued(key));
    }
    match (was, stance) {
        (_, None) => Some(Edit::Out(key)),
        (Some(Stance::Forced { .. }), Some(Stance::Forced { eto })) => {
            Some(Edit::Reforced(Comp { eto: *eto, key }))
        }
        _ => None,
    }
}

impl Edit {
    /// Makes it ready that a flight stands so in the list, or not at all. `AllocError` where there is no memory for it; the
    /// list is then as it was.
    pub fn ready(list: &mut SlotList, key: Key, stance: Option<Stance>) -> Result<Edit, AllocError>
        ensures finished { IfOk result (λ edit. finished list.new edit
            ≡ with_flight list.old key stance) }
        ensures undone { IfOk result (λ edit. undone list.new edit ≡ list.old) }
        ensures unchanged { OnErr result (list.new ≡ list.old) }
    {
        let was = list.stance_of(&key);
        if is_stance(&was, &stance) {
            return Ok(Edit::Same);
        }
        if let Some(edit) = edit_for_later(list, key, &was, &stance) {
            return Ok(edit);
        }
        if let (None, Some(stance)) = (&was, stance) {
            put_in(list, key, stance)?;
            return Ok(Edit::PutIn(key));
        }
        let copy = list.try_clone()?;
        Ok(Edit::Other(with_stance(copy, key, &was, stance)?))
    }

    /// Does the rest of the edit.
    pub fn finish(self, list: &mut SlotList)
        ensures { list.new ≡ finished list.old self }
    {
        match self {
            Edit::Same | Edit::PutIn(_) => {}
            Edit::Reforced(comp) => {
                let _forced = list.reforce(comp);
            }
            Edit::Out(key) => {
                let was = list.stance_of(&key);
                take_out(list, &key, &was);
            }
            Edit::Issued(key) => {
                let _cto = list.issue(&key);
            }
            Edit::Other(other) => *list = other,
        }
    }

    /// Undoes what was done of the edit.
    pub fn undo(self, list: &mut SlotList)
        ensures { list.new ≡ undone list.old self }
    {
        if let Edit::PutIn(key) = self {
            let was = list.stance_of(&key);
            take_out(list, &key, &was);
        }
    }
}
