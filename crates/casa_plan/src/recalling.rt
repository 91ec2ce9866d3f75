//! A gate whose replies to `List` share their rows with equal ones that it gave before.

ghost use Rattle.std.specs.Prelude.{◌≡◌};

use crate::planning::{plan, plan_whole};
use casa_commit::Gate;
use casa_flight::{Call, RegId, Reply, reply_equality};
use casa_view::{Board, Change, Store, View};
use std::alloc::{AllocError, Global};
use std::collections::BTreeMap;
use std::sync::Mutex;

/// The latest reply to the question for each list.
type Latest = BTreeMap<RegId, Reply>;

/// The largest number of lists whose latest reply is kept: as many as regulations may be open.
const MOST_LISTS: usize = 256;

/// The gate that works each answer out at once. Where a list is shown as it was shown last, the reply shares the rows of
/// that one, so that a history has them once, however often and by whom the list is asked for.
#[derive(Drop)]
pub struct Recalling {
    latest: Mutex<Latest>,
}

impl Recalling {
    /// The gate that has answered nothing yet. It takes no memory.
    pub fn new(alloc: Global) -> Recalling {
        Recalling {
            latest: Mutex::new(BTreeMap::new(alloc)),
        }
    }

    /// The same reply to a call, which shares its rows with an equal earlier one where it asks for a list.
    fn recall(&self, call: &Call, reply: Reply) -> Reply
        ensures { result ≡ reply }
    {
        match call {
            // Nobody waits here: where another desk looks up a reply at this moment, this one stays as it is.
            Call::List(id) => match self.latest.try_lock() {
                Some(mut latest) => recalled(&mut latest, id, reply),
                None => reply,
            },
            _ => reply,
        }
    }
}

/// The same gate for a board that many desks share: what it answers has whole lists, so that none has to be copied while
/// the board is locked.
#[derive(Drop)]
pub struct RecallingShared {
    recalling: Recalling,
}

impl RecallingShared {
    /// The gate that has answered nothing yet. It takes no memory.
    pub fn new(alloc: Global) -> RecallingShared {
        RecallingShared {
            recalling: Recalling::new(alloc),
        }
    }
}

/// The same reply to the question for a list, by the latest one where that is equal. Else it is the latest from now on,
/// where there is memory to note that.
fn recalled(latest: &mut Latest, id: &RegId, reply: Reply) -> Reply
    ensures { result ≡ reply }
{
    reply_equality();
    if let Some(earlier) = latest.get(id) {
        if *earlier == reply {
            return earlier.try_clone().unwrap_or(reply);
        }
    }
    if MOST_LISTS <= latest.len() {
        latest.clear();
    }
    if let Ok(copy) = reply.try_clone() {
        let _noted = latest.insert(*id, copy);
    }
    reply
}

impl<K: Store> Gate<Board<K>> for Recalling {
    fn plan(
        &self,
        alloc: Global,
        _desk: u32,
        _attempt: u32,
        view: &View<K::Version>,
        call: &Call,
    ) -> Result<(Reply, Change), AllocError> {
        let (reply, change) = plan(alloc, view, call)?;
        Ok((self.recall(call, reply), change))
    }
}

impl<K: Store> Gate<Board<K>> for RecallingShared {
    fn plan(
        &self,
        alloc: Global,
        _desk: u32,
        _attempt: u32,
        view: &View<K::Version>,
        call: &Call,
    ) -> Result<(Reply, Change), AllocError> {
        let (reply, change) = plan_whole(alloc, view, call)?;
        Ok((self.recalling.recall(call, reply), change))
    }
}
