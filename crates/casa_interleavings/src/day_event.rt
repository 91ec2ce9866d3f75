use crate::event::Event;

/// What happens in a day of many workers.
#[derive(Drop)]
pub enum DayEvent<C> {
    /// A worker does this.
    Do(Event<C>),
    /// What the journal does not have yet is written, and put on the disk.
    Flush,
    /// The reply to the call at this position, counted from 1, is told; nothing where the journal does not have it.
    Tell(usize),
}
