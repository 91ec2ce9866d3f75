ghost use Rattle.std.specs.Prelude.{◌≡◌, [], ⊤};
ghost use Rattle.casa_history.specs.Entries.{receipts};
ghost use Rattle.casa_engine.specs.Passes.{pass_of};
ghost use Rattle.casa_session.specs.Transcript.{Ends};
ghost use Rattle.casa_server.specs.Serving.{IsSession};

use casa_commit::Gate;
use casa_engine::{CountedPass, EngineName, Shareable, SharedDesk, SharedRoom};
use casa_flight::{Call, Reply};
use casa_front::Front;
use casa_history::Holds;
use casa_plan::Direct;
use casa_session::{SessionFault, run};
use std::alloc::Global;
use std::io::{Read, Write};
use std::sync::Wait;

/// A connection with the pass of a desk that is its own.
///
/// Its type says that the pass has no receipt: nobody has made a call by it. Since a pass can't be cloned, nobody else
/// will.
#[derive(Drop)]
pub(crate) struct Connection<I, O, P: Holds<Call, Reply>> {
    pub(crate) ends: (I, O),
    pub(crate) pass: P,
    ghost unused: { receipts (P.held pass) ≡ [] },
}

/// What a connection's thread hands out: how its session ended, with the number of its lines, and what its pass has seen.
pub(crate) type Ended<L> = (Result<u64, SessionFault>, Front<Call, Reply, L>);

/// Answers the lines of a connection until it ends, and closes it.
pub(crate) fn answer<
    I: Read + Drop,
    O: Write + Drop,
    W: Shareable<Call = Call, Reply = Reply>,
    L: EngineName,
    G: Gate<W>,
    R: Wait,
>(
    rt: &R,
    alloc: Global,
    room: &SharedRoom<W, L, G>,
    connection: Connection<I, O, CountedPass<W, L>>,
) -> Ended<L>
where
    Direct: Gate<W>,
    ensures { IsSession W.World L.Named I.remaining O.contents result.1
        connection.ends result.0 }
{
    let Connection {
        ends: (mut reader, mut writer),
        pass,
    } = connection;
    let (ended, pass) = session(rt, alloc, room, pass, &mut reader, &mut writer);
    let front = pass.front();
    (ended, front)
}

/// Answers the lines of a reader at a writer by the desk of this pass, as every session does. Gives the pass back.
pub(crate) fn session<
    W: Shareable<Call = Call, Reply = Reply>,
    L: EngineName,
    G: Gate<W>,
    R: Wait,
    I: Read,
    O: Write,
>(
    rt: &R,
    alloc: Global,
    room: &SharedRoom<W, L, G>,
    pass: CountedPass<W, L>,
    reader: &mut I,
    writer: &mut O,
) -> (Result<u64, SessionFault>, CountedPass<W, L>)
where
    Direct: Gate<W>,
    ensures { Ends ⊤ result.0 (record {
      input = I.remaining reader.old;
      input_left = I.remaining reader.new;
      receipts = receipts (pass_of pass);
      receipts_now = receipts (pass_of result.1);
      output = O.contents writer.old;
      output_now = O.contents writer.new;
    }) }
{
    let mut desk = SharedDesk::new(room, rt, pass);
    let ended = run(alloc, reader, writer, &mut desk);
    (ended, desk.into_pass())
}
