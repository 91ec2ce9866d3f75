//! Laws of the definitions, each on a function that does nothing: what a call needs to see and what it changes.

ghost use Rattle.std.specs.Prelude.{◌≡◌, ◌≢◌, false, List, ◌++◌, None};
ghost use Rattle.casa_flight.specs.declared.call.Call.{Call};
ghost use Rattle.casa_flight.specs.declared.reply.Reply.{Reply};
ghost use Rattle.casa_flight.specs.declared.state.State.{State};
ghost use Rattle.casa_filing.specs.Text.{Text};
ghost use Rattle.casa_flight.specs.Listing.{list_of};
ghost use Rattle.casa_flight.specs.Good.{IsGood};
ghost use Rattle.casa_flight.specs.Steps.{next};
ghost use Rattle.casa_history.specs.declared.entry.Entry.{Entry};
ghost use Rattle.casa_footprint.specs.Items.{ItemName, the_catalogue, contents, AgreeOn};
ghost use Rattle.casa_footprint.specs.Footprint.{reads, writes};
ghost use Rattle.casa_footprint.specs.Stamps.{View, state_after, stamp, IsUnmoved};
ghost use Rattle.casa_footprint.specs.Written.{IsWritten, IsAbsentStill};

/// What a call does not write contains afterwards what it contained before.
pub fn other_items_stay()
    ensures { (m : State) (call : Call) → IsGood m →
        (i : ItemName) → writes m call i ≡ false → contents (next m call) i ≡ contents m i }
{}

/// What a call reads decides what it reads: to look at it is to know that nothing else is to be looked at.
pub fn reads_decide_reads()
    ensures { (m n : State) (call : Call) → IsGood m → IsGood n → AgreeOn (reads m call) m n →
        (i : ItemName) → reads m call i ≡ reads n call i }
{}

/// An item with the same stamp after two histories, of which one begins the other, contains the same after both:
/// every item, also the absence of a row that came back. So where a view is unmoved, its items contain what they
/// contained when it saw them. The catalogue's stamp answers for the lists that are absent.
pub fn equal_stamps_show_equal_items()
    ensures item { (history later : List (Entry Call Reply)) (i : ItemName) →
        stamp history i ≡ stamp (history ++ later) i →
        contents (state_after history) i ≡ contents (state_after (history ++ later)) i }
    ensures view { (history later : List (Entry Call Reply)) (view : View)
        → IsUnmoved view history →
        IsUnmoved view (history ++ later)
        → AgreeOn view.has (state_after history) (state_after (history ++ later)) }
    ensures absent { (history later : List (Entry Call Reply)) (id : Text) →
        stamp history the_catalogue ≡ stamp (history ++ later) the_catalogue →
        list_of (state_after history) id ≡ None
        → list_of (state_after (history ++ later)) id ≡ None }
{}

/// An item has another stamp after more entries exactly where one of these wrote it, but for an absent row that is
/// absent again.
pub fn stamps_change_where_written()
    ensures unwritten { (history later : List (Entry Call Reply)) (i : ItemName)
        → ¬ (IsWritten history later i) →
        stamp (history ++ later) i ≡ stamp history i }
    ensures written { (history later : List (Entry Call Reply)) (i : ItemName)
        → IsWritten history later i →
        ¬ (IsAbsentStill history later i) → stamp (history ++ later) i ≢ stamp history i }
    ensures absent { (history later : List (Entry Call Reply)) (i : ItemName)
        → IsAbsentStill history later i →
        stamp (history ++ later) i ≡ stamp history i }
{}
