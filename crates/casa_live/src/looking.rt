//! What a browser is shown of the engine's history.
//!
//! Each method lets a front see the history of which it tells. At `AllocError` the front may have seen more, too.

ghost use Rattle.std.specs.Prelude.{◌≡◌, List, Some, length, IfOk};
ghost use Rattle.std.specs.Option.{option_map};
ghost use mathlib.Core.List.{IsPrefix};
ghost use Rattle.casa_flight.specs.declared.call.Call.{Call};
ghost use Rattle.casa_flight.specs.declared.reply.Reply.{Reply};
ghost use Rattle.casa_history.specs.declared.entry.Entry.{Entry};
ghost use Rattle.casa_engine.specs.Looks.{HasAll, IsLookBehind};
ghost use Rattle.casa_flight.specs.declared.state.State.{State};
ghost use Rattle.casa_flight.specs.Good.{IsGood};
ghost use Rattle.casa_footprint.specs.Stamps.{state_after};
ghost use Rattle.casa_http.specs.Question.{whole_state, list_named, flight_named, calls_behind};
ghost use Rattle.casa_inquiry.specs.Shown.{AreShownOf};
ghost use Rattle.casa_plan.specs.Rooms.{IsSequential};
ghost use Rattle.casa_live.specs.Shown.{IsShownBehind, flight_in};
ghost use Rattle.casa_session.specs.Played.{state_after_calls};
ghost use Rattle.casa_trial.specs.Tried.{IsLookAfter};

use crate::all_seen::AllSeen;
use crate::browser::EngineBrowser;
use crate::gauges::Gauges;
use casa_commit::Gate;
use casa_engine::{EngineName, Look, legal_histories_are_sequential};
use casa_flight::{Answer, Call, Key, RegId, Reply};
use casa_front::Front;
use casa_inquiry::{ShownLists, ShownRows, exchanges, explain};
use casa_look::{flight_text, list_text, shown_text, since_text};
use casa_view::{Board, Store, Version, View};
use std::alloc::{AllocError, Global};
use std::sync::Wait;

/// The most entries of which it is told at once what came of them.
const MOST: usize = 1000;

impl<'e, K, L, G, R, Q> EngineBrowser<'e, K, L, G, R, Q>
where
    K: Store,
    L: EngineName,
    G: Gate<Board<K>> + Drop,
    R: Wait,
    Q: Gauges,
{
    /// The state, as `shown_text` writes it.
    pub(crate) fn state_text(
        &self,
        front: &mut Front<Call, Reply, L>,
    ) -> Result<Vec<u8>, AllocError>
        ensures { IfOk result (λ text.
            IsShownBehind front.old front.new whole_state (Some text.items)) }
    {
        let look = self.engine.look(self.rt, front)?;
        shown_text(self.alloc, look.calls, &shown_lists(&look))
    }

    /// The list of the open regulation with this identifier, as `list_text` writes it; `None` where there is none.
    pub(crate) fn list_text(
        &self,
        front: &mut Front<Call, Reply, L>,
        name: &[u8],
    ) -> Result<Option<Vec<u8>>, AllocError>
        ensures { IfOk result (λ found. IsShownBehind front.old front.new (list_named name.now)
            (option_map (λ text. text.items) found)) }
    {
        let Some(id) = RegId::new(name) else {
            self.look_on(front);
            return Ok(None);
        };
        let (calls, reply) = self.engine.would_reply(self.rt, front, &Call::List(id))?;
        match &reply {
            Reply::Answered(Answer::List(list), _) => {
                Ok(Some(list_text(self.alloc, calls, list)?))
            }
            _ => Ok(None),
        }
    }

    /// The flight that is filed under this key, as `flight_text` writes it; `None` where there is none.
    pub(crate) fn flight_text(
        &self,
        front: &mut Front<Call, Reply, L>,
        name: &[u8],
    ) -> Result<Option<Vec<u8>>, AllocError>
        ensures { IfOk result (λ found. IsShownBehind front.old front.new (flight_named name.now)
            (option_map (λ text. text.items) found)) }
    {
        let Some(key) = Key::new(name) else {
            self.look_on(front);
            return Ok(None);
        };
        let (calls, view) = self.engine.view_all(self.rt, front)?;
        flight_found(self.alloc, calls, &view, key)
    }

    /// What came of the first entries behind this position, as `since_text` writes it; `None` where there is no such position.
    pub(crate) fn news_text(
        &self,
        front: &mut Front<Call, Reply, L>,
        position: usize,
    ) -> Result<Option<Vec<u8>>, AllocError>
        ensures { IfOk result (λ found. IsShownBehind front.old front.new (calls_behind position)
            (option_map (λ text. text.items) found)) }
    {
        let Some(entries) = self.engine.behind(self.rt, front, position, MOST)? else {
            return Ok(None);
        };
        if position.checked_add(entries.len()).is_none() {
            // There is no memory for so many entries.
            return Err(AllocError);
        }
        Ok(Some(since_text(self.alloc, position, &entries)?))
    }

    /// Lets a front see the history as it is now.
    pub(crate) fn look_on(&self, front: &mut Front<Call, Reply, L>)
        ensures sequential { IsSequential front.new }
        ensures longer { IsPrefix front.old front.new }
    {
        legal_histories_are_sequential::<K>();
        self.engine.see(self.rt, front);
    }
}

/// A flight by a view of all items behind so many calls, as `flight_text` writes it; `None` where there is none with this key.
/// `AllocError` where there is no memory to work it out.
fn flight_found<V: Version>(
    alloc: Global,
    calls: usize,
    view: &View<V>,
    key: Key,
) -> Result<Option<Vec<u8>>, AllocError>
    ensures { IfOk result (λ found. (m : State) → IsGood m → HasAll V.item_of m view.now →
        option_map (λ text. text.items) found ≡ flight_in calls m key) }
{
    let seen = AllSeen { view };
    let Some(row) = seen.row(&key) else {
        return Ok(None);
    };
    let why = explain(alloc, &seen, key, row)?;
    let exchanges = exchanges(alloc, &seen, key, row)?;
    let text = flight_text(alloc, calls, &row.plan, &why, exchanges.as_slice())?;
    Ok(Some(text))
}

/// What a look has, as it is asked for.
pub(crate) fn shown_lists(look: &Look) -> ShownLists<'_>
    ensures behind { (history : List (Entry Call Reply)) → IsLookBehind history look.now →
        AreShownOf (state_after history) result }
    ensures after { (calls : List Call) → IsLookAfter calls look.now →
        AreShownOf (state_after_calls calls) result }
{
    ShownLists {
        clock: look.clock,
        regulations: look.regulations.as_slice(),
        lists: look.lists.as_slice(),
    }
}
