//! What stands behind the page.

ghost use Rattle.std.specs.Prelude.{◌≡◌, ℕ, List, Option, None, Some, IfOk, OnErr};
ghost use Rattle.std.specs.Option.{option_map};
ghost use Rattle.casa_http.specs.Question.{Question, whole_state, list_named, flight_named, calls_behind, server_metrics, lines_tried};

use std::alloc::AllocError;

/// What stands behind the page: it shows what can be looked at, and answers lines.
///
/// Where there is no memory for what is to be shown, it is as it was. Where there is none for the replies to lines, they may
/// have been answered all the same: that is for `answers` to say.
pub trait Backend {
    // What the question names is shown by the text, or is not there; from the first state it comes to the second.
    ghost shows: { Self → Question → Option (List ℕ) → Self → Type 0 };

    // The lines are answered by the text, or there is no memory for one; from the first state it comes to the second.
    ghost answers: { Self → List ℕ → Option (List ℕ) → Self → Type 0 };

    /// The state. `AllocError` where there is no memory for it.
    fn state(&mut self) -> Result<Vec<u8>, AllocError>
        ensures ok { IfOk result (λ text. shows self.old whole_state (Some text.items) self.new) }
        ensures err { OnErr result (self.new ≡ self.old) };

    /// The list of this name; `None` where there is none. `AllocError` where there is no memory for it.
    fn list(&mut self, name: &[u8]) -> Result<Option<Vec<u8>>, AllocError>
        ensures ok { IfOk result (λ shown. shows self.old (list_named name.now)
            (option_map (λ text. text.items) shown) self.new) }
        ensures err { OnErr result (self.new ≡ self.old) };

    /// The flight of this name; `None` where there is none. `AllocError` where there is no memory for it.
    fn flight(&mut self, name: &[u8]) -> Result<Option<Vec<u8>>, AllocError>
        ensures ok { IfOk result (λ shown. shows self.old (flight_named name.now)
            (option_map (λ text. text.items) shown) self.new) }
        ensures err { OnErr result (self.new ≡ self.old) };

    /// What came of the calls behind this position; `None` where there is no such position. `AllocError` where there is no
    /// memory for it.
    fn since(&mut self, position: usize) -> Result<Option<Vec<u8>>, AllocError>
        ensures ok { IfOk result (λ shown. shows self.old (calls_behind position)
            (option_map (λ text. text.items) shown) self.new) }
        ensures err { OnErr result (self.new ≡ self.old) };

    /// Metrics of the server. `AllocError` where there is no memory for them.
    fn metrics(&mut self) -> Result<Vec<u8>, AllocError>
        ensures ok { IfOk result (λ text. shows self.old server_metrics (Some text.items) self.new) }
        ensures err { OnErr result (self.new ≡ self.old) };

    /// What would come of these lines, of which nothing stays; `None` where they are too many to be tried at once.
    /// `AllocError` where there is no memory for it.
    fn would_answer(&mut self, lines: &[u8]) -> Result<Option<Vec<u8>>, AllocError>
        ensures ok { IfOk result (λ shown. shows self.old (lines_tried lines.now)
            (option_map (λ text. text.items) shown) self.new) }
        ensures err { OnErr result (self.new ≡ self.old) };

    /// The replies to these lines. `AllocError` where there is no memory for them.
    fn answer(&mut self, lines: &[u8]) -> Result<Vec<u8>, AllocError>
        ensures ok { IfOk result (λ text. answers self.old lines.now (Some text.items) self.new) }
        ensures err { OnErr result (answers self.old lines.now None self.new) };
}
