//! Sockets that are listened at, made so that only their owner connects.

use mio::net::{UnixListener, UnixStream};
use std::alloc::Global;
use std::fs::{DirBuilder, Files, Permissions};
use std::io::ErrorKind;
use std::net::Net;
use std::os::unix::fs::{DirBuilderExt, FileTypeExt, PermissionsExt};
use std::{fs, io};

/// The owner alone may connect.
const MODE: u32 = 0o600;

/// The owner alone may go into the folder in which the socket is made.
const FOLDER_MODE: u32 = 0o700;

/// Whether somebody answers at the socket at the path.
fn is_answered<R: Net>(rt: &R, path: &str) -> io::Result<bool> {
    match UnixStream::connect(rt, path) {
        Ok(_) => Ok(true),
        Err(e) => match e.kind() {
            // the queue of connections to accept is full, so somebody serves the socket
            ErrorKind::WouldBlock => Ok(true),
            ErrorKind::ConnectionRefused | ErrorKind::NotFound => Ok(false),
            _ => Err(e),
        },
    }
}

/// Checks whether a socket may be made at the path: nothing stands there, or a socket at which nobody answers. It
/// changes nothing.
///
/// `AddrInUse` where somebody answers, `AlreadyExists` where something stands there that is no socket, or another error
/// where the system refuses the look.
pub fn look_at_socket<R: Files + Net>(rt: &R, path: &str) -> io::Result<()> {
    match fs::symlink_metadata(rt, path) {
        Ok(about) if about.file_type().is_socket() => {}
        Ok(_) => {
            let message = "what stands there is no socket";
            return Err(io::Error::new(ErrorKind::AlreadyExists, message));
        }
        Err(e) if e.kind() == ErrorKind::NotFound => return Ok(()),
        Err(e) => return Err(e),
    }
    if is_answered(rt, path)? {
        let message = "somebody serves this socket";
        return Err(io::Error::new(ErrorKind::AddrInUse, message));
    }
    Ok(())
}

/// Removes the folder, with a socket in it, that is left of the making of one, as where a server was killed meanwhile.
fn clear<R: Files>(rt: &R, folder: &str, inside: &str) {
    // a file that stays is in the way when the folder is made, and is reported then
    if let Ok(about) = fs::symlink_metadata(rt, inside) {
        if about.file_type().is_socket() {
            let _ = fs::remove_file(rt, inside);
        }
    }
    let _ = fs::remove_dir(rt, folder);
}

/// Makes the folder in which a socket is made.
fn make_folder<R: Files>(rt: &R, folder: &str) -> io::Result<()> {
    match DirBuilder::new().mode(FOLDER_MODE).create(rt, folder) {
        Err(e) if e.kind() == ErrorKind::AlreadyExists => {
            let message =
                "it is made in a folder at this path with .new behind, where something else stands";
            Err(io::Error::new(ErrorKind::AlreadyExists, message))
        }
        made => made,
    }
}

/// A listener at the path inside a folder of its own, to which nobody else connects before its mode is set; then it is
/// moved to its path, over a socket at which nobody answers.
fn listener_by<R: Files + Net>(
    rt: &R,
    folder: &str,
    inside: &str,
    path: &str,
) -> io::Result<UnixListener> {
    make_folder(rt, folder)?;
    let listener = UnixListener::bind(rt, inside)?;
    fs::set_permissions(rt, inside, Permissions::from_mode(MODE))?;
    look_at_socket(rt, path)?;
    fs::rename(rt, inside, path)?;
    Ok(listener)
}

/// A listener at the path, to which the owner alone may connect.
pub(crate) fn listener_at<R: Files + Net>(
    rt: &R,
    alloc: Global,
    path: &str,
) -> io::Result<UnixListener> {
    let folder = format!(in alloc; "{path}.new")?;
    let inside = format!(in alloc; "{folder}/s")?;
    look_at_socket(rt, path)?;
    clear(rt, folder.as_str(), inside.as_str());
    let listener = listener_by(rt, folder.as_str(), inside.as_str(), path);
    clear(rt, folder.as_str(), inside.as_str());
    listener
}
