//! A desk that is alone on a board.

ghost use Rattle.std.specs.Prelude.{◌≡◌, ◌≢◌, ◌∷◌, [], ◌++◌, Err, IfOk, OnErr, option_map};
ghost use Rattle.std.specs.Map.{keys_of};
ghost use Rattle.std.specs.Option.{option_copied};
ghost use Rattle.casa_filing.specs.Text.{Text};
ghost use Rattle.casa_flight.specs.Listing.{list_of};
ghost use Rattle.casa_flight.specs.State.{catalogue, empty, row_of};
ghost use Rattle.casa_session.specs.Alone.{lone_sides};
ghost use Rattle.casa_session.specs.Filed.{filed_by};
ghost use Rattle.casa_session.specs.Played.{receipts_played, sequential_history, state_after_calls};
ghost use Rattle.casa_session.specs.Transcript.{Ends};

use crate::fault::SessionFault;
use crate::session::run;
use casa_commit::{CallFault, Desk, Room, World};
use casa_flight::{Call, Key, RegId, Regulation, Reply, Row};
use casa_history::{Receipt, SharedEntry};
use casa_list::SlotList;
use casa_plan::Recalling;
use casa_time::Moment;
use casa_view::{Board, Copies};
use std::alloc::{AllocError, Global};
use std::collections::BTreeSet;
use std::io::{Read, Write};
use std::marker::Model;

/// The number of the room. There is no other from which it would have to be told.
const ROOM: u32 = 0;

/// The number of the desk, which is the first.
const DESK: u32 = 0;

/// A desk that is alone on a board, so that each call is answered as the sequential allocator does after the calls
/// before it.
///
/// A line opens a regulation. `rt` is the runtime and `alloc` its allocator:
///
/// ```rust
/// let mut lone = Lone::new(alloc).expect(&rt, "memory");
/// let line =
///     r#"{"cmd":"open","reg":"R1","loc":"LA","periods":[{"from":36000,"to":37200,"rate":30}]}"#;
/// let mut input = line.as_bytes();
/// let mut output = Vec::new(alloc);
/// assert!(&rt; lone.run(alloc, &mut input, &mut output) == Ok(1));
/// assert!(&rt; output.as_slice() == "{\"done\":true,\"msgs\":[],\"n\":1}\n".as_bytes());
/// assert!(&rt; lone.catalogue().len() == 1 && lone.clock().secs() == 0);
/// ```
///
/// Contracts see it as the calls that it has answered.
pub struct Lone {
    room: Room<Board<Copies>>,
    gate: Recalling,
}

impl Model for Lone {
    ghost use Rattle.std.specs.Prelude.{List};
    ghost use Rattle.casa_flight.specs.declared.call.Call.{Call};
    ghost use Rattle.casa_commit.specs.Rooms.{entries_of};
    ghost use Rattle.casa_session.specs.Alone.{IsAlone};
    ghost use Rattle.casa_session.specs.Played.{calls_in};

    ghost Value = { List Call };

    ghost view = { λ l. calls_in (entries_of l.room) };

    ghost invariant = { λ l. IsAlone l.room };
}

impl Drop for Lone {
    fn drop(self) {
        let Lone { room: _, gate: _ } = self;
    }
}

impl Lone {
    /// A desk on an empty board, with the clock at midnight. `AllocError` where there is no memory for it.
    pub fn new(alloc: Global) -> Result<Lone, AllocError>
        ensures { IfOk result (λ lone. lone ≡ []) }
    {
        let mut room = Room::new(alloc, Board::new(alloc, Copies::new())?, ROOM);
        match room.open_desk() {
            Ok(_) => {
                let gate = Recalling::new(alloc);
                Ok(Lone { room, gate })
            }
            Err(_) => Err(AllocError),
        }
    }

    /// Answers each line of the reader at the writer, and says how many there were.
    ///
    /// Replies are gathered and written together, but none waits for input. The session ends at its first fault,
    /// which is never `ForeignPass`. What was answered by then stands, and the next call is answered after it.
    pub fn run<R: Read, W: Write>(
        &mut self,
        alloc: Global,
        reader: &mut R,
        writer: &mut W,
    ) -> Result<u64, SessionFault>
        ensures { Ends ⊥ result (lone_sides self.old self.new (R.remaining reader.old)
            (R.remaining reader.new)
            (W.contents writer.old) (W.contents writer.new)) }
    {
        run(alloc, reader, writer, self)
    }

    /// The board as it stands after the calls.
    fn board(&self) -> &Board<Copies>
        ensures state { (⟦<Board<Copies> as World>⟧.state result.now).state
            ≡ state_after_calls self.now }
        ensures catalogue { (⟦<Board<Copies> as World>⟧.state result.now).catalogue
            ≡ catalogue (state_after_calls self.now) }
        ensures lists { (id : Text) → (⟦<Board<Copies> as World>⟧.state result.now).list id
            ≡ list_of (state_after_calls self.now) id }
    {
        self.room.world()
    }

    /// The clock after the calls.
    pub fn clock(&self) -> Moment
        ensures { result ≡ (state_after_calls self.now).clock }
    {
        self.board().clock()
    }

    /// The regulations that are open after the calls, in the order of their identifiers.
    pub fn catalogue(&self) -> &[Regulation]
        ensures { result.now ≡ catalogue (state_after_calls self.now) }
    {
        self.board().catalogue()
    }

    /// The flight with this key as it stands after the calls; none where there is no such flight.
    pub fn row(&self, key: &Key) -> Option<&Row>
        ensures { option_copied result ≡ row_of (state_after_calls self.now) key.now }
    {
        self.board().row(key)
    }

    /// The keys of the flights after the calls. `AllocError` where there is no memory for them.
    pub fn keys(&self, alloc: Global) -> Result<BTreeSet<Key>, AllocError>
        ensures { IfOk result (λ keys. keys.keys ≡ keys_of (state_after_calls self.now).rows) }
    {
        let mut keys = BTreeSet::new(alloc);
        for entry in self.entries() {
            if let Some(key) = self.filed_by(&entry.call) {
                keys.insert(key)?;
            }
        }
        Ok(keys)
    }

    /// The key under which a call files a flight; none where it files none, or no flight with that key is there after all
    /// calls.
    fn filed_by(&self, call: &Call) -> Option<Key>
        ensures { result ≡ option_map (λ flight. flight.0)
            (filed_by (state_after_calls self.now) call.now) }
    {
        let Call::File(plan) = call else {
            return None;
        };
        let key = plan.key();
        self.row(&key)?;
        Some(key)
    }

    /// The list of the regulation with this identifier after the calls; none where it is not open.
    pub fn list(&self, id: &RegId) -> Option<&SlotList>
        ensures { option_copied result ≡ list_of (state_after_calls self.now) id.now }
    {
        self.board().list(id)
    }

    /// The entries of the history of the calls: each call with the reply that it got, the first first.
    pub fn entries(&self) -> &[SharedEntry<Call, Reply>]
        ensures { result.now ≡ sequential_history empty self.now }
    {
        self.room.history().entries()
    }

    /// The receipt of the call; where memory is refused, nothing was answered.
    fn receipt(&mut self, alloc: Global, call: &Call) -> Result<Receipt<Call, Reply>, CallFault>
        ensures ok { IfOk result (λ receipt. receipts_played self.new
            ≡ receipts_played self.old ++ receipt ∷ []) }
        ensures called { IfOk result (λ receipt. receipt.entry.call ≡ call.now) }
        ensures err { OnErr result (self.new ≡ self.old) }
        ensures foreign { result ≢ Err CallFault.ForeignPass }
    {
        let Ok(receipt) = self.room.answer(alloc, DESK, call, &self.gate) else {
            return Err(CallFault::NoMemory);
        };
        Ok(receipt)
    }
}

/// Its receipts are those that the sequential allocator gives to some calls.
impl Desk for Lone {
    type Call = Call;

    type Reply = Reply;

    ghost use Rattle.std.specs.Prelude.{List, refl};
    ghost use Rattle.casa_flight.specs.declared.call.Call.{Call};

    ghost answered = { λ calls. receipts_played calls };

    ghost lawful = { λ given. (calls : List Call) × (given ≡ receipts_played calls) };

    ghost may_be_foreign = { ⊥ };

    ghost always = { λ calls. (calls, refl) };

    fn answer(&mut self, alloc: Global, call: &Call) -> Result<Receipt<Call, Reply>, CallFault> {
        self.receipt(alloc, call)
    }
}
