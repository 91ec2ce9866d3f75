//! Laws of `==`, each on a function that does nothing.

ghost use Rattle.std.specs.Prelude.{◌≡◌, ◌↔◌, IsTrue};
ghost use Rattle.casa_flight.specs.declared.call.Call.{Call};
ghost use Rattle.casa_flight.specs.declared.reply.Reply.{Reply};
ghost use Rattle.casa_flight.specs.declared.row.Row.{Row};

use crate::call::Call;
use crate::reply::Reply;
use crate::row::Row;

/// `==` of calls is equality.
pub fn call_equality()
    ensures { (a b : Call) → IsTrue (⟦<Call as PartialEq>⟧.eq a b) ↔ (a ≡ b) }
{}

/// `==` of replies is equality.
pub fn reply_equality()
    ensures { (a b : Reply) → IsTrue (⟦<Reply as PartialEq>⟧.eq a b) ↔ (a ≡ b) }
{}

/// `==` of rows is equality.
pub fn row_equality()
    ensures { (a b : Row) → IsTrue (⟦<Row as PartialEq>⟧.eq a b) ↔ (a ≡ b) }
{}
