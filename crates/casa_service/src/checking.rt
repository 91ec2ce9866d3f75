//! What a journal has.

use crate::fault::{ServiceFault, Trouble};
use casa_commit::Desk;
use casa_keeper::{FileFault, is_torn_line};
use casa_script::{RULES, call_at, line_vouches_for};
use casa_session::{Lone, SessionFault, send};
use casa_tape::{first_line, whole_end};
use std::alloc::Global;
use std::fs;
use std::fs::{File, Files};
use std::io::{Read, Write};

/// Answers the calls of a journal again, and writes how many they are, where the clock stands in seconds from midnight, the
/// version of the rules, and how many bytes stand behind the whole lines. The file stays as it is, and another program may have
/// it.
///
/// `Journal` where the file can't be read, where a line says no call at its position, where a call is answered otherwise than
/// its line vouches, or where more than a torn line stands behind the whole ones; `WriteFailed` where the writer fails;
/// `NoMemory` where there is none.
pub fn check_journal<R: Files<File = File>, O: Write>(
    rt: &R,
    alloc: Global,
    path: &str,
    writer: &mut O,
) -> Result<(), ServiceFault> {
    let bytes = match read_file(rt, alloc, path) {
        Ok(bytes) => bytes,
        Err(fault) => {
            let trouble = Trouble::NotOpened(fault);
            return Err(ServiceFault::of_journal(alloc, path, trouble));
        }
    };
    let end = whole_end(&bytes);
    let (calls, clock) = answer_again(alloc, path, &bytes[..end])?;
    let torn = bytes.len() - end;
    if !is_torn_line(&bytes[end..]) {
        let trouble = Trouble::MoreThanTorn(calls.saturating_add(1), torn);
        return Err(ServiceFault::of_journal(alloc, path, trouble));
    }
    let text = format!(in alloc; "calls {calls}\nclock {clock}\nrules {RULES}\ntorn {torn}\n")?;
    match send(writer, text.as_bytes(), 0) {
        Ok(_) => Ok(()),
        Err(unsent) => Err(ServiceFault::Session(SessionFault::WriteFailed(unsent.written))),
    }
}

/// The bytes of a regular file.
fn read_file<R: Files<File = File>>(
    rt: &R,
    alloc: Global,
    path: &str,
) -> Result<Vec<u8>, FileFault> {
    // Looked at before it is opened, since to open a pipe would wait for who writes to it.
    if !fs::metadata(rt, path)?.is_file() {
        return Err(FileFault::NotRegular);
    }
    let mut file = File::open(rt, path)?;
    let mut bytes = Vec::new(alloc);
    file.read_to_end(&mut bytes)?;
    Ok(bytes)
}

/// Answers the calls of these lines by a desk that is alone on a board. How many they are, and where the clock stands then.
fn answer_again(alloc: Global, path: &str, lines: &[u8]) -> Result<(usize, u32), ServiceFault> {
    let mut lone = Lone::new(alloc)?;
    let mut rest = lines;
    let mut position = 0;
    while let Some((line, others)) = first_line(rest) {
        position += 1;
        answer_line(alloc, &mut lone, path, position, line)?;
        rest = others;
    }
    Ok((position, lone.clock().secs()))
}

/// Answers the call of the line at this position, and compares its reply with the one for which the line vouches.
fn answer_line(
    alloc: Global,
    lone: &mut Lone,
    path: &str,
    position: usize,
    line: &[u8],
) -> Result<(), ServiceFault> {
    let Some(call) = call_at(alloc, position, line)? else {
        let trouble = Trouble::BadLine(position);
        return Err(ServiceFault::of_journal(alloc, path, trouble));
    };
    let Ok(receipt) = lone.answer(alloc, &call) else {
        return Err(ServiceFault::NoMemory);
    };
    if line_vouches_for(alloc, position, line, &receipt.entry.reply)? {
        return Ok(());
    }
    let trouble = Trouble::ReplayDiffers(position);
    Err(ServiceFault::of_journal(alloc, path, trouble))
}
