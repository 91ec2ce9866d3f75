//! The end of a server whose journal can't be written.

use crate::door::Standing;
use crate::log::Log;
use casa_keeper::{Keeper, Unkept};
use casa_sockets::Listener;
use std::io::Eprint;
use std::sync::Arc;
use std::time::Clock;

/// A keeper of a server, which ends when the file of its journal has failed: nobody may connect any more, and no connection
/// waits for its peer any more.
#[derive(Drop)]
pub(crate) struct EndingKeeper<'k, 'g, 'r, 'l, 's, R, P> {
    pub(crate) keeper: &'k P,
    pub(crate) log: &'g Log<'r, R>,
    pub(crate) listeners: &'l [Arc<Listener>],
    pub(crate) standing: &'s Standing,
}

impl<'k, 'g, 'r, 'l, 's, R: Eprint + Clock, P: Keeper> Keeper
    for EndingKeeper<'k, 'g, 'r, 'l, 's, R, P> {
    type Kept = P::Kept;

    fn settle(&self) -> Result<P::Kept, Unkept> {
        let settled = self.keeper.settle();
        if let Err(Unkept::Failed) = settled {
            self.end();
        }
        settled
    }
}

impl<'k, 'g, 'r, 'l, 's, R: Eprint + Clock, P> EndingKeeper<'k, 'g, 'r, 'l, 's, R, P> {
    /// Ends the server, and says so once.
    fn end(&self) {
        if !self.standing.end() {
            return;
        }
        self.log.warn(
            "the journal can't be written any more: nothing is replied, and the server ends",
        );
        for listener in self.listeners {
            // One that can't be shut accepts one connection more.
            let _ = listener.shut();
        }
    }
}
