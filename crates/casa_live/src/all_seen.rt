//! What a view of all items shows of a state.

use casa_flight::{Key, RegId, Regulation, Row};
use casa_inquiry::{Shown, ShownRows};
use casa_list::SlotList;
use casa_time::Moment;
use casa_view::{Version, View};

/// What a view that has all items of a state shows of it.
pub(crate) struct AllSeen<'a, V: Version> {
    pub view: &'a View<V>,
}

impl<'a, V: Version> Drop for AllSeen<'a, V> {
    fn drop(self) {
        let AllSeen { view: _ } = self;
    }
}

impl<'a, V: Version> Shown for AllSeen<'a, V> {
    ghost use Rattle.casa_engine.specs.Looks.{HasAll};

    ghost shows = { λ seen m. HasAll V.item_of m seen.view.now };

    fn clock(&self) -> Moment {
        match self.view.clock() {
            Some(clock) => clock,
            None => Moment::new(0).unwrap(),
        }
    }

    fn catalogue(&self) -> &[Regulation] {
        match self.view.catalogue() {
            Some(catalogue) => catalogue.as_slice(),
            None => &[],
        }
    }

    fn list(&self, id: &RegId) -> Option<&SlotList> {
        self.view.list(id)
    }
}

impl<'a, V: Version> ShownRows for AllSeen<'a, V> {
    fn row(&self, key: &Key) -> Option<&Row> {
        self.view.row(key)
    }
}
