//! A journal in a file of the system.

ghost use Rattle.std.specs.Prelude.{◌≡◌};

use casa_tape::{Tape, TapeError};
use std::alloc::{AllocError, Global};
use std::fmt::{Display, Formatter};
use std::fs::{File, OpenOptions, TryLockError};
use std::io::{Read, Seek, SeekFrom, Write};
use std::rt::Files;
use std::sync::Arc;
use std::sync::atomic::{AtomicI32, Ordering};
use std::{fmt, io};

/// Why a journal's file could not be opened.
#[derive(Debug, Drop)]
pub enum FileFault {
    /// There is no such file and none can be made, or it can't be read and appended to. What the system says.
    NotOpened(io::Error),
    /// It is no regular file.
    NotRegular,
    /// Another program has the journal.
    InUse,
}

/// The reason.
impl Display for FileFault {
    fn fmt<W: fmt::Write>(&self, f: &mut Formatter<W>) -> fmt::Result {
        match self {
            FileFault::NotOpened(error) => write!(f, "{error}"),
            FileFault::NotRegular => f.write_str("it is no regular file"),
            FileFault::InUse => f.write_str("another program has it"),
        }
    }
}

impl From<io::Error> for FileFault {
    ghost use Rattle.casa_keeper.specs.declared.file.FileFault.TheVariants.{NotOpened};

    ghost from_gives = { λ error fault. fault ≡ NotOpened error };

    fn from(error: io::Error) -> Self {
        FileFault::NotOpened(error)
    }
}

/// What the system said when a file failed last, which outlasts the file.
#[derive(Drop)]
pub struct LastError {
    code: Arc<AtomicI32>,
}

impl LastError {
    /// Nothing yet. `AllocError` where there is no memory for it.
    pub fn new(alloc: Global) -> Result<LastError, AllocError> {
        match Arc::new(alloc, AtomicI32::new(0)) {
            Ok(code) => Ok(LastError { code }),
            Err(_) => Err(AllocError),
        }
    }

    /// The same once more. `AllocError` where it is shared too often to be counted.
    pub fn again(&self) -> Result<LastError, AllocError> {
        let code = self.code.clone()?;
        Ok(LastError { code })
    }

    /// Notes what the system says.
    fn note(&self, error: &io::Error) {
        let code = error.raw_os_error().unwrap_or(0);
        self.code.store(code, Ordering::SeqCst);
    }

    /// What the system said.
    pub fn error(&self) -> io::Error {
        io::Error::from_raw_os_error(self.code.load(Ordering::SeqCst))
    }
}

/// A file of the system that this program alone appends to. No clause knows what it holds.
#[derive(Drop)]
pub struct FileTape {
    file: File,
    last: LastError,
}

impl FileTape {
    /// Opens the file of this path, or makes it, and keeps other programs from opening it as a journal until this one ends.
    /// The name of a file that is made is put on the disk, too. Where the file fails later, that is noted.
    pub fn open<R: Files<File = File>>(
        rt: &R,
        path: &str,
        last: LastError,
    ) -> Result<FileTape, FileFault> {
        let file = OpenOptions::new()
            .read(true)
            .append(true)
            .create(true)
            .open(rt, path)?;
        if !file.metadata()?.is_file() {
            return Err(FileFault::NotRegular);
        }
        match file.try_lock() {
            Ok(()) => {}
            Err(TryLockError::WouldBlock) => return Err(FileFault::InUse),
            Err(TryLockError::Error(error)) => return Err(FileFault::NotOpened(error)),
        }
        sync_name(rt, path)?;
        Ok(FileTape { file, last })
    }

    /// What a call of the file came to. It is noted where the file failed, and not where there is no memory.
    fn told<X: Drop>(&self, done: io::Result<X>) -> Result<X, TapeError> {
        match done {
            Ok(x) => Ok(x),
            Err(error) if error.kind() == io::ErrorKind::OutOfMemory => Err(TapeError::NoMemory),
            Err(error) => {
                self.last.note(&error);
                Err(TapeError::Failed)
            }
        }
    }
}

/// Puts the name of a file on the disk: the folder in which it lies.
pub fn sync_name<R: Files<File = File>>(rt: &R, path: &str) -> io::Result<()> {
    let folder = match path.rfind('/') {
        None => ".",
        Some(0) => "/",
        Some(end) => &path[..end],
    };
    File::open(rt, folder)?.sync_all()
}

/// Of this file nothing is known: not what it holds, and not what a crash leaves.
impl Tape for FileTape {
    ghost holds = { λ tape xs. ⊥ };

    ghost may_leave = { λ tape c. ⊥ };

    ghost moment = { λ tape. 0 };

    ghost left_since = { λ tape t c. ⊥ };

    ghost has_failed = { λ tape. Unit {0} };

    ghost may_leave_all = { λ tape xs none. none };

    ghost counts_now = { λ tape t c le none. none };

    ghost only_now = { λ tape c none. none };

    ghost since_earlier = { λ tape t u c le none. none };

    fn read(&mut self, alloc: Global) -> Result<Vec<u8>, TapeError> {
        let mut bytes = Vec::new(alloc);
        let read = read_whole(&mut self.file, &mut bytes);
        self.told(read)?;
        Ok(bytes)
    }

    fn append(&mut self, bytes: &[u8]) -> Result<(), TapeError> {
        let written = self.file.write_all(bytes);
        self.told(written)
    }

    fn cut(&mut self, len: usize) -> Result<(), TapeError> {
        let cut = self.file.set_len(len as u64);
        self.told(cut)
    }

    fn sync(&mut self) -> Result<(), TapeError> {
        let synced = self.file.sync_data();
        self.told(synced)
    }
}

/// Reads all bytes of a file, from its beginning.
fn read_whole(file: &mut File, bytes: &mut Vec<u8>) -> io::Result<()> {
    file.seek(SeekFrom::Start(0))?;
    file.read_to_end(bytes)?;
    Ok(())
}
