//! Where what a crash left of a line is kept.

use crate::log::Log;
use casa_keeper::{Aside, sync_name};
use std::alloc::Global;
use std::fs::{File, Files};
use std::io::{Eprint, ErrorKind, Write};
use std::time::Clock;
use std::{fs, io};

/// How many torn ends are kept beside a journal, at most.
const MOST_TORN: u32 = 1_000_000;

/// Files beside a journal, for what crashes left of its lines: its path with `.torn` behind it, then with `.torn.2` and so on.
/// None is ever written over.
#[derive(Drop)]
pub(crate) struct TornFiles<'t, 'g, 'r, 'p, R> {
    pub(crate) rt: &'t R,
    pub(crate) alloc: Global,
    pub(crate) log: &'g Log<'r, R>,
    /// The path of the journal.
    pub(crate) path: &'p str,
    /// Why something was not set aside.
    pub(crate) error: Option<io::Error>,
}

/// Of what is set aside no clause knows more than that it was asked for.
impl<'t, 'g, 'r, 'p, R: Files<File = File> + Eprint + Clock> Aside
    for TornFiles<'t, 'g, 'r, 'p, R> {
    ghost has = { λ _ lines torn. Unit {0} };

    ghost has_refused = { λ _. Unit {0} };

    fn set_aside(&mut self, _lines: usize, torn: &[u8]) -> bool {
        if torn.is_empty() {
            return true;
        }
        match self.keep(torn) {
            Ok(()) => true,
            Err(error) => {
                self.error = Some(error);
                false
            }
        }
    }
}

impl<'t, 'g, 'r, 'p, R: Files<File = File> + Eprint + Clock> TornFiles<'t, 'g, 'r, 'p, R> {
    /// Writes these bytes to a new file, and puts it with its name on the disk. Where that fails the file is removed.
    fn write(&self, file: File, name: &str, torn: &[u8]) -> io::Result<()> {
        let written = match write_whole(file, torn) {
            Ok(()) => sync_name(self.rt, name),
            Err(error) => Err(error),
        };
        if written.is_err() {
            let _ = fs::remove_file(self.rt, name);
        }
        written
    }

    /// Keeps these bytes in the first file that is not there yet, and says so.
    fn keep(&self, torn: &[u8]) -> io::Result<()> {
        let path = self.path;
        let mut name = format!(in self.alloc; "{path}.torn")?;
        for number in 2..MOST_TORN {
            match File::create_new(self.rt, name.as_str()) {
                Ok(file) => {
                    self.write(file, name.as_str(), torn)?;
                    self.log.warn(format_args!(
                        "{path}: the {} bytes behind its last whole line are kept in {name}",
                        torn.len()
                    ));
                    return Ok(());
                }
                Err(error) if error.kind() == ErrorKind::AlreadyExists => {
                    name = format!(in self.alloc; "{path}.torn.{number}")?;
                }
                Err(error) => return Err(error),
            }
        }
        Err(io::Error::from(ErrorKind::AlreadyExists))
    }
}

/// Writes these bytes to a file, and puts them on the disk.
fn write_whole(file: File, bytes: &[u8]) -> io::Result<()> {
    let mut file = file;
    file.write_all(bytes)?;
    file.sync_all()
}
