ghost use Rattle.std.specs.Prelude.{◌≡◌};
ghost use Rattle.casa_interleavings.specs.Scenes.{worker_of};

/// What a worker does.
#[derive(Drop)]
pub enum Event<C> {
    /// The worker takes a view for this call.
    Read(u32, C),
    /// The worker works out the answer on its view.
    Compute(u32),
    /// The worker hands its answer in.
    Commit(u32),
    /// The worker gives up what it holds.
    Abandon(u32),
}

impl<C> Event<C> {
    /// The number of the worker.
    pub(crate) fn worker(&self) -> u32
        ensures { result ≡ worker_of self.now }
    {
        match self {
            Event::Read(worker, _) => *worker,
            Event::Compute(worker) => *worker,
            Event::Commit(worker) => *worker,
            Event::Abandon(worker) => *worker,
        }
    }
}

/// What came of a commit.
#[derive(Clone, Copy, PartialEq, Eq, Debug)]
pub enum Outcome {
    /// The call stands in the history at this position, counted from 1.
    Accepted(usize),
    /// The call was refused, since what it read was written meanwhile.
    Refused,
}
