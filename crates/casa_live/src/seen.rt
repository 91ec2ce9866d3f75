//! What a browser has been shown and answered.

ghost use Rattle.std.specs.Prelude.{◌≡◌, None, Some, take};
ghost use mathlib.Core.List.{IsPrefix};
ghost use Rattle.casa_live.specs.Tallies.{IsTallyOf};

use crate::tally::Tally;
use casa_flight::{Call, Reply};
use casa_front::{Front, Named};
use std::mem;

/// The history that a browser has seen, its desk where it has one, and how many calls of each command the first entries of
/// the history have.
#[derive(Drop)]
pub(crate) struct Seen<P, L: Named> {
    front: Front<Call, Reply, L>,
    desk: Option<P>,
    tally: Tally,
    ghost counted: { IsTallyOf (take tally.position front) tally },
}

impl<P: Drop, L: Named> Seen<P, L> {
    /// This history, and no desk.
    pub(crate) fn new(front: Front<Call, Reply, L>) -> Seen<P, L>
        ensures front { result.front ≡ front }
        ensures desk { result.desk ≡ None }
    {
        Seen {
            front,
            desk: None,
            tally: Tally::new(),
        }
    }

    /// The history.
    pub(crate) fn front(&self) -> Front<Call, Reply, L>
        ensures { result ≡ self.now.front }
    {
        self.front.again()
    }

    /// How many calls of each command the first entries of a history have that begins with this one.
    pub(crate) fn tally_in(&self, front: &Front<Call, Reply, L>) -> Tally
        requires { IsPrefix self.now.front front.now }
        ensures { IsTallyOf (take result.position front.now) result }
    {
        self.tally
    }

    /// Sees a history that begins with this one.
    pub(crate) fn see(&mut self, front: Front<Call, Reply, L>)
        requires { IsPrefix self.old.front front }
        ensures front { self.new.front ≡ front }
        ensures desk { self.new.desk ≡ self.old.desk }
    {
        self.front = front;
    }

    /// Sees a history that begins with this one, of which this is the tally.
    pub(crate) fn see_counted(&mut self, front: Front<Call, Reply, L>, tally: Tally)
        requires { IsTallyOf front tally }
        ensures front { self.new.front ≡ front }
        ensures desk { self.new.desk ≡ self.old.desk }
    {
        self.front = front;
        self.tally = tally;
    }

    /// Hands out the desk, where there is one.
    pub(crate) fn take_desk(&mut self) -> Option<P>
        ensures desk { result ≡ self.old.desk }
        ensures none { self.new.desk ≡ None }
        ensures front { self.new.front ≡ self.old.front }
    {
        self.desk.take()
    }

    /// Keeps this desk.
    pub(crate) fn keep_desk(&mut self, desk: P)
        ensures desk { self.new.desk ≡ Some desk }
        ensures front { self.new.front ≡ self.old.front }
    {
        self.desk = Some(desk);
    }
}
