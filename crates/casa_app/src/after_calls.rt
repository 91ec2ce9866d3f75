ghost use Rattle.std.specs.Prelude.{◌≡◌};
ghost use Rattle.casa_session.specs.Played.{state_after_calls};

use casa_difference::ShownFlights;
use casa_flight::{Key, RegId, Regulation, Row};
use casa_inquiry::{Shown, ShownRows};
use casa_list::SlotList;
use casa_session::Lone;
use casa_time::Moment;
use std::alloc::{AllocError, Global};
use std::collections::BTreeSet;

/// What a desk that is alone shows of the state after its calls.
#[derive(Drop)]
pub(crate) struct AfterCalls<'a> {
    pub lone: &'a Lone,
}

impl<'a> Shown for AfterCalls<'a> {
    ghost shows = { λ after m. m ≡ state_after_calls after.lone.now };

    fn clock(&self) -> Moment {
        self.lone.clock()
    }

    fn catalogue(&self) -> &[Regulation] {
        self.lone.catalogue()
    }

    fn list(&self, id: &RegId) -> Option<&SlotList> {
        self.lone.list(id)
    }
}

impl<'a> ShownRows for AfterCalls<'a> {
    fn row(&self, key: &Key) -> Option<&Row> {
        self.lone.row(key)
    }
}

impl<'a> ShownFlights for AfterCalls<'a> {
    fn keys(&self, alloc: Global) -> Result<BTreeSet<Key>, AllocError> {
        self.lone.keys(alloc)
    }
}
