//! Who makes a history longer that a type names.

ghost use Rattle.std.specs.Prelude.{◌≡◌, ℕ, [], ◌∷◌, ◌++◌};
ghost use mathlib.Core.List.{IsPrefix};
ghost use Rattle.casa_front.specs.Openings.{history_name};

use crate::front::Front;
use crate::line::Line;
use crate::opened::{Opened, cut};
use crate::rule::{Asked, Cuts, Finds, Law, Named, Nothing, Writes};
use casa_history::Entry;
use logbook::{Offer, Pen, Seen, Word};
use std::marker::{Model, PhantomData};

/// All of the history that J names, and the right to make it longer, which nobody else has. Contracts see it as its
/// entries.
///
/// The right is a baton: the pen of a word that the book does not hold yet. With each line the word of its baton is
/// handed in, and the next baton is cut. So who has a baton knows that nothing was written with it.
pub struct Keeper<C, R, J: Named> {
    head: Word<Line<C, R>, u64, Law>,
    seen: Seen<Line<C, R>, u64, Law>,
    baton: Pen,
    of: PhantomData<J>,
}

impl<C, R, J: Named> Model for Keeper<C, R, J> {
    ghost use Rattle.std.specs.Prelude.{◌≡◌, List};
    ghost use Rattle.logbook.specs.Pages.{nib, may_write};
    ghost use Rattle.casa_history.specs.declared.entry.Entry.{Entry};
    ghost use Rattle.casa_front.specs.Lines.{told, next_baton, word_of};

    ghost Value = { List (Entry C R) };

    ghost view = { λ k. told J.history.root k.seen.log };

    ghost invariant = { λ k. (k.head ≡ word_of J.history.book) × (k.seen.book ≡ J.history.book)
        × (k.baton.book ≡ J.history.book)
        × (k.baton.nib ≡ nib may_write (next_baton J.history.root k.seen.log) 0) };
}

impl<C, R, J: Named> Drop for Keeper<C, R, J> {
    fn drop(self) {
        let Keeper {
            head: _,
            seen: _,
            baton: _,
            of: _,
        } = self;
    }
}

impl<C, R> Opened<C, R> {
    /// The history, under the name that it has, with no entry.
    pub fn named<J: Named>(self) -> Keeper<C, R, J>
        requires { history_name self ≡ J.history }
        ensures { result ≡ [] }
    {
        let Opened { head, seen, baton } = self;
        Keeper {
            head,
            seen,
            baton,
            of: PhantomData,
        }
    }
}

impl<C, R, J: Named> Keeper<C, R, J> {
    /// A front that has seen all of it.
    pub fn front(&self) -> Front<C, R, J>
        ensures { result ≡ self.now }
    {
        Front {
            seen: self.seen.again(),
            of: PhantomData,
        }
    }

    /// Adds an entry behind all others. The front, which had seen a beginning, has then seen all.
    pub fn push(&mut self, front: &mut Front<C, R, J>, entry: &Entry<C, R>)
        ensures pushed { self.new ≡ self.old ++ entry.now ∷ [] }
        ensures seen { front.new ≡ self.new }
        ensures known { IsPrefix front.old self.old }
    {
        let next = cut(&self.head, &self.seen);
        let asked = Asked {
            entry,
            from: &self.baton,
            next: &next,
        };
        let mut offer: Offer<Line<C, R>, u64, Law, Nothing> = self
            .seen
            .plain::<Nothing, Asked<'_, C, R>, Writes>(&asked);
        self.seen.learn(&front.seen);
        let _found = self
            .head
            .compare_exchange::<Writes, Nothing>(0, 0, &mut self.seen, &mut offer, &mut self.baton);
        self.baton = next;
        front.seen = self.seen.again();
    }

    /// What a front has seen is a beginning of what there is. Nothing changes.
    pub fn knows(&mut self, front: &Front<C, R, J>)
        ensures same { self.new ≡ self.old }
        ensures known { IsPrefix front.now self.old }
    {
        let mut both = self.seen.again();
        both.learn(&front.seen);
        let mut offer: Offer<Line<C, R>, u64, Law, Nothing> = both.plain::<Nothing, (), Cuts>(&());
        let _found = self
            .head
            .compare_exchange::<Finds, Nothing>(0, 0, &mut both, &mut offer, &mut self.baton);
    }
}
