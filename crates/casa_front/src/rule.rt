//! The rule of a book, what its steps tell, and what names a history.

use crate::line::Line;
use casa_history::Entry;
use logbook::{Gain, Pen, Plain, Play, Rule};
use std::marker::{Brand, PhantomData};

/// The rule of the book: each baton by which a line was written is used up.
pub struct Law;

impl<C, R> Rule<Line<C, R>, u64> for Law {
    ghost use Rattle.std.specs.Prelude.{[]};
    ghost use base.Fml.{ftrue};
    ghost use Rattle.casa_front.specs.Rules.{IsKept};

    ghost holds = { λ cells log. IsKept cells log };

    ghost first = { [] };

    ghost hinted = { λ n log. Unit {0} };

    ghost shows = { λ log. [] };

    ghost keeps = { λ names log. ftrue };

    ghost moves = { λ ask before after answer. Unit {0} };
}

/// No step trades anything.
pub struct Nothing;

impl<C, R> Gain<Line<C, R>, u64> for Nothing {
    ghost use base.Fml.{ftrue};

    ghost after = { λ names about answer. ftrue };
}

/// A step that cuts a new baton.
pub struct Cuts;

impl<C, R> Play<Line<C, R>, u64> for Cuts {
    ghost use Rattle.casa_front.specs.Rules.{Cuts};

    ghost then = { Cuts };
}

/// It asks for no line.
impl<C, R> Plain<(), Line<C, R>, u64> for Cuts {
    ghost use Rattle.std.specs.Prelude.{None};

    ghost ask = { λ x. record { from = 0; entry = None; next = 0 } };

    ghost state = { λ x. None };
}

/// A step that writes a line.
pub struct Writes;

impl<C, R> Play<Line<C, R>, u64> for Writes {
    ghost use Rattle.casa_front.specs.Rules.{Writes};

    ghost then = { Writes };
}

/// A step that finds nothing written with a baton.
pub struct Finds;

impl<C, R> Play<Line<C, R>, u64> for Finds {
    ghost use Rattle.casa_front.specs.Rules.{Finds};

    ghost then = { Finds };
}

/// The line that a step writes: of this entry, with the baton `from`, and with `next` for the line after it.
#[derive(Drop)]
pub struct Asked<'a, C, R> {
    pub entry: &'a Entry<C, R>,
    pub from: &'a Pen,
    pub next: &'a Pen,
}

impl<'a, C, R> Plain<Asked<'a, C, R>, Line<C, R>, u64> for Writes {
    ghost use Rattle.std.specs.Prelude.{Some, None};

    ghost ask = { λ x. record { from = x.from.now.nib.key; entry = Some x.entry.now; next = x.next.now.nib.key } };

    ghost state = { λ x. None };
}

/// Names a history. A caller picks which one, once, where it hands a history over that has no name.
pub trait Named {
    ghost use Rattle.casa_front.specs.Names.{HistoryName};

    /// The history's name.
    ghost history: { HistoryName };

    /// That of its notes, a history of their own: what was kept of it, and when.
    ghost notes: { HistoryName };
}

impl Named for Brand {
    ghost use Rattle.casa_front.specs.Names.{no_name};

    ghost history = { no_name };

    ghost notes = { no_name };
}

/// Names the notes of the history that J names, as a history.
pub struct Notes<J> {
    of: PhantomData<J>,
}

impl<J: Named> Named for Notes<J> {
    ghost history = { J.notes };

    ghost notes = { J.notes };
}
