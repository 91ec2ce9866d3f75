//! The descriptors of the standard streams.

use std::alloc::Global;
use std::fs::{File, Files, OpenOptions};
use std::os::fd::AsRawFd;

/// How many standard streams there are; their descriptors are the numbers below it.
const STANDARD_STREAMS: i32 = 3;

/// Opens `/dev/null` in place of each standard stream that was closed when the program began, for as long as what is given
/// back is kept. Else a connection would get its descriptor, and would be sent what is meant for standard error.
///
/// Where `/dev/null` can't be opened, or there is no memory, the streams stay closed.
pub fn stand_in<R: Files<File = File>>(rt: &R, alloc: Global) -> Vec<File> {
    let mut standing_in = Vec::new(alloc);
    for _ in 0..STANDARD_STREAMS {
        let opened = OpenOptions::new()
            .read(true)
            .write(true)
            .open(rt, "/dev/null");
        match opened {
            Ok(file) if file.as_raw_fd() < STANDARD_STREAMS => {
                if standing_in.push(file).is_err() {
                    break;
                }
            }
            _ => break,
        }
    }
    standing_in
}
