//! What stands behind the page for a browser.

ghost use Rattle.std.specs.Prelude.{◌≡◌, None};

use crate::answering::answer_lines;
use crate::counting::count_all;
use crate::gauges::Gauges;
use crate::metrics::metrics_text;
use crate::seen::Seen;
use crate::trying::Turn;
use casa_commit::Gate;
use casa_engine::{DeskPass, Engine, EngineName};
use casa_front::Named;
use casa_http::Backend;
use casa_view::{Board, Store};
use std::alloc::{AllocError, Global};
use std::sync::Wait;

/// What stands behind the page for a browser, or for several, one after the other: an engine, and what was seen of its
/// history. E is the engine, P is the pass of its desks, L names it, R waits for its lock, and Q tells how busy the server is.
/// Whose turn it is to try lines all browsers of an engine are to have in common.
#[derive(Drop)]
pub struct Browser<'e, E, P, L: Named, R, Q> {
    pub(crate) engine: &'e E,
    pub(crate) rt: &'e R,
    pub(crate) alloc: Global,
    gauges: &'e Q,
    pub(crate) turn: &'e Turn,
    seen: Seen<P, L>,
}

/// The same over an engine whose versions the store K keeps, and whose gate is G.
pub type EngineBrowser<'e, K, L, G, R, Q> = Browser<'e, Engine<K, L, G>, DeskPass<K, L>, L, R, Q>;

impl<'e, K, L, G, R, Q> EngineBrowser<'e, K, L, G, R, Q>
where
    K: Store,
    L: EngineName,
    G: Gate<Board<K>> + Drop,
    R: Wait,
    Q: Gauges,
{
    /// A browser that has seen the engine's history as it is now, and has no desk.
    pub fn new(
        engine: &'e Engine<K, L, G>,
        rt: &'e R,
        alloc: Global,
        gauges: &'e Q,
        turn: &'e Turn,
    ) -> EngineBrowser<'e, K, L, G, R, Q>
        ensures { result.seen.desk ≡ None }
    {
        let seen = Seen::new(engine.front(rt));
        Browser {
            engine,
            rt,
            alloc,
            gauges,
            turn,
            seen,
        }
    }
}

/// Questions are no calls: the desk is as it was. The first POST of lines opens it, and the later ones are answered by the
/// same. `answer` gives `AllocError` also where 1,024 desks are open: then nothing was answered.
impl<'e, K, L, G, R, Q> Backend for EngineBrowser<'e, K, L, G, R, Q>
where
    K: Store,
    L: EngineName,
    G: Gate<Board<K>> + Drop,
    R: Wait,
    Q: Gauges,
{
    ghost use Rattle.std.specs.Prelude.{◌≡◌};
    ghost use Rattle.casa_engine.specs.Passes.{pass_of};
    ghost use Rattle.casa_live.specs.Answered.{HasAnswered, given_by};
    ghost use Rattle.casa_live.specs.Shown.{IsShownBehind};

    ghost shows = { λ old question found new.
        IsShownBehind old.seen.front new.seen.front question found × (new.seen.desk ≡ old.seen.desk) };

    ghost answers = { λ old lines told new.
        HasAnswered lines told (given_by pass_of old.seen.desk) (given_by pass_of new.seen.desk)
        old.seen.front new.seen.front };

    fn state(&mut self) -> Result<Vec<u8>, AllocError> {
        let mut front = self.seen.front();
        let text = self.state_text(&mut front)?;
        self.seen.see(front);
        Ok(text)
    }

    fn list(&mut self, name: &[u8]) -> Result<Option<Vec<u8>>, AllocError> {
        let mut front = self.seen.front();
        let found = self.list_text(&mut front, name)?;
        self.seen.see(front);
        Ok(found)
    }

    fn flight(&mut self, name: &[u8]) -> Result<Option<Vec<u8>>, AllocError> {
        let mut front = self.seen.front();
        let found = self.flight_text(&mut front, name)?;
        self.seen.see(front);
        Ok(found)
    }

    fn since(&mut self, position: usize) -> Result<Option<Vec<u8>>, AllocError> {
        let mut front = self.seen.front();
        let found = self.news_text(&mut front, position)?;
        self.seen.see(front);
        Ok(found)
    }

    fn metrics(&mut self) -> Result<Vec<u8>, AllocError> {
        let mut front = self.seen.front();
        let look = self.engine.look(self.rt, &mut front)?;
        let counted = self.seen.tally_in(&front);
        let tally = count_all(self.rt, self.engine, &front, look.calls, counted)?;
        let text = metrics_text(self.alloc, &tally, look.clock, self.gauges.read())?;
        self.seen.see_counted(front, tally);
        Ok(text)
    }

    fn would_answer(&mut self, lines: &[u8]) -> Result<Option<Vec<u8>>, AllocError> {
        let mut front = self.seen.front();
        let found = self.tried_text(&mut front, lines)?;
        self.seen.see(front);
        Ok(found)
    }

    fn answer(&mut self, lines: &[u8]) -> Result<Vec<u8>, AllocError> {
        let pass = match self.seen.take_desk() {
            Some(pass) => pass,
            None => {
                let Ok(pass) = self.engine.desk(self.rt) else {
                    return Err(AllocError);
                };
                pass
            }
        };
        let mut front = self.seen.front();
        let (told, pass) = answer_lines(self.rt, self.alloc, self.engine, pass, lines, &mut front);
        self.seen.see(front);
        self.seen.keep_desk(pass);
        told
    }
}
