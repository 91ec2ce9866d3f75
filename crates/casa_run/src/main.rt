//! `casa run` alone, as `casa` answers it where no other word is given: it answers the command lines on standard input. It
//! stands on no server, no page and no words of a command line, so that it is proved long before the whole program is.
#![tactic(auto)]

use casa_session::{Lone, SessionFault};
use std::alloc::Global;
use std::io::{Read, Write};
use std::process::ExitCode;
use std::{io, mem};

fn main(rt: HostRuntime) -> ExitCode {
    let (mut input, mut writer) = (rt.reader(), io::writer(&rt));
    match answer_lines(rt.alloc(), &mut input, &mut writer) {
        Ok(()) => ExitCode::SUCCESS,
        Err(fault) => {
            let _ = eprintln!(&rt; "casa: {}", fault.name());
            ExitCode::FAILURE
        }
    }
}

/// Answers the command lines of the reader, by a desk that is alone on a board. The board is not taken apart behind the
/// last line: the program ends then, and its memory with it.
///
/// `NoMemory` where there is none for the board; then the fault with which the session ends.
fn answer_lines<R: Read, W: Write>(
    alloc: Global,
    reader: &mut R,
    writer: &mut W,
) -> Result<(), SessionFault> {
    let Ok(mut lone) = Lone::new(alloc) else {
        return Err(SessionFault::NoMemory);
    };
    let ended = lone.run(alloc, reader, writer);
    mem::forget(lone);
    ended?;
    Ok(())
}
