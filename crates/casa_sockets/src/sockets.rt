//! Sockets of the file system, to which those may connect whom its rights let.

use std::alloc::Global;
use std::fs::{Files, Permissions};
use std::io::ErrorKind;
use std::net::Net;
use std::os::unix::fs::{FileTypeExt, PermissionsExt};
use std::os::unix::net::{UnixListener, UnixStream};
use std::{fs, io};

/// Who alone may enter the folder in which a socket is made.
const OWNER_FOLDER: u32 = 0o700;

/// Who may connect: the owner.
const OWNER: u32 = 0o600;

/// Who may connect: the owner and the group.
const GROUP: u32 = 0o660;

/// Listens at a socket that is made at this path: its owner may connect, and with `group` its group too. A socket that nobody
/// answers at is replaced.
///
/// `AddrInUse` where somebody answers there, `AlreadyExists` where something else than a socket is there, `OutOfMemory` where
/// there is no memory for the names, and the system's faults. The socket is made in a folder of its own beside it, which others
/// can't enter, and moved to its path when its rights are set: so nobody can connect whom they do not let.
pub(crate) fn listen<R: Files + Net>(
    rt: &R,
    alloc: Global,
    path: &str,
    group: bool,
) -> io::Result<UnixListener> {
    find_free(rt, path)?;
    let folder = format!(in alloc; "{path}.new")?;
    let made = format!(in alloc; "{path}.new/s")?;
    make_folder(rt, folder.as_str())?;
    remove_if_there(rt, made.as_str())?;
    let listener = UnixListener::bind(rt, made.as_str())?;
    let mode = if group { GROUP } else { OWNER };
    fs::set_permissions(rt, made.as_str(), Permissions::from_mode(mode))?;
    fs::rename(rt, made.as_str(), path)?;
    fs::remove_dir(rt, folder.as_str())?;
    Ok(listener)
}

/// Whether a socket may be made at this path: there is nothing, or a socket that nobody answers at.
fn find_free<R: Files + Net>(rt: &R, path: &str) -> io::Result<()> {
    let found = match fs::symlink_metadata(rt, path) {
        Ok(found) => found,
        Err(error) if error.kind() == ErrorKind::NotFound => return Ok(()),
        Err(error) => return Err(error),
    };
    if !found.file_type().is_socket() {
        return Err(io::Error::from(ErrorKind::AlreadyExists));
    }
    match UnixStream::connect(rt, path) {
        Ok(_) => Err(io::Error::from(ErrorKind::AddrInUse)),
        Err(error) if error.kind() == ErrorKind::ConnectionRefused => Ok(()),
        Err(error) => Err(error),
    }
}

/// Makes a folder that nobody else can enter, or takes one that an earlier program left.
fn make_folder<R: Files>(rt: &R, path: &str) -> io::Result<()> {
    match fs::create_dir(rt, path) {
        Ok(()) => {}
        Err(error) if error.kind() == ErrorKind::AlreadyExists => {}
        Err(error) => return Err(error),
    }
    fs::set_permissions(rt, path, Permissions::from_mode(OWNER_FOLDER))
}

/// Removes a file, if it is there.
fn remove_if_there<R: Files>(rt: &R, path: &str) -> io::Result<()> {
    match fs::remove_file(rt, path) {
        Err(error) if error.kind() != ErrorKind::NotFound => Err(error),
        _ => Ok(()),
    }
}
