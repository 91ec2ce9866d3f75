//! Laws of the definitions, each on a function that does nothing.

ghost use Rattle.std.specs.Prelude.{◌≡◌, Option, None};
ghost use Rattle.casa_filing.specs.Text.{Text};
ghost use Rattle.casa_flight.specs.Listing.{Listing};
ghost use Rattle.casa_flight.specs.declared.call.Call.{Call};
ghost use Rattle.casa_flight.specs.declared.state.State.{State};
ghost use Rattle.casa_flight.specs.Good.{IsGood};
ghost use Rattle.casa_flight.specs.Replies.{reply};
ghost use Rattle.casa_footprint.specs.Footprint.{reads};
ghost use Rattle.casa_footprint.specs.Items.{ItemName, AgreeOn};
ghost use Rattle.casa_plan_spec.specs.Sight.{says, nothing_written};

/// A change that writes nothing says nothing of any item.
pub fn nothing_is_said()
    ensures { (lists : Text → Option Listing) (i : ItemName) → says lists nothing_written i ≡ None }
{}

/// What a call reads decides its reply: it is the same in two good states that contain the same there.
pub fn reads_decide_replies()
    ensures { (m n : State) (call : Call) → IsGood m → IsGood n → AgreeOn (reads m call) m n →
        reply m call ≡ reply n call }
{}
