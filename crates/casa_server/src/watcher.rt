use crate::fault::{SeatFault, TimerFault};
use casa_session::SessionFault;

/// Is told what goes on in a server that stays. The ends of its connections are an I, which is read, and an O, which is
/// written.
pub trait Watcher<I, O> {
    /// So many seats were begun, and why there are no more.
    fn begun(&self, seats: usize, fault: Option<SeatFault>);

    /// The session over this connection ended so. The connection is closed when both of its ends are dropped.
    fn ended(&self, reader: I, writer: O, ended: Result<u64, SessionFault>);

    /// The timer ended so.
    fn ticked(&self, accepted: Result<u32, TimerFault>);
}
