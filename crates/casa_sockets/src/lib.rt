//! The addresses at which a server listens, and the connections that come there: bytes go through them, whatever these say.
#![tactic(auto)]

mod addresses;
mod descriptors;
mod sockets;
mod streams;

pub use addresses::BindFault;
pub use descriptors::stand_in;
pub use streams::{Counted, LineEnd, Listener, Patience, Peer, ReplyEnd, Stream, ends_of};
