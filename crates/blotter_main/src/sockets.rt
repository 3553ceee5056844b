//! The sockets by which operators come.
ghost use Rattle.std.specs.Prelude.{◌≡◌};
ghost use Rattle.blotter_main.specs.declared.sockets.SocketFault.TheVariants.{NoMemory as OutOfMemory, Io};

use std::alloc::{AllocError as NoMemory, Global};
use std::fs::{self, DirBuilder, Files, Permissions};
use std::io::{self, ErrorKind};
use std::net::{Net, OpenStream, Shutdown};
use std::os::unix::fs::{DirBuilderExt, FileTypeExt, PermissionsExt};
use std::os::unix::net::{UnixListener, UnixStream};

/// Why there is no socket for operators.
#[derive(Debug, Drop)]
pub enum SocketFault {
    /// Somebody listens there.
    InUse,
    /// What stands there is no socket.
    NoSocket,
    NoMemory,
    /// What the system said.
    Io(io::Error),
}

impl From<io::Error> for SocketFault {
    ghost from_gives = { λ error fault. fault ≡ Io error };

    fn from(error: io::Error) -> SocketFault {
        SocketFault::Io(error)
    }
}

impl From<NoMemory> for SocketFault {
    ghost from_gives = { λ _ fault. fault ≡ OutOfMemory };

    fn from(_fault: NoMemory) -> SocketFault {
        SocketFault::NoMemory
    }
}

/// What makes the sockets by which operators come.
pub trait Sockets {
    /// A socket at a path, which its owner alone may use. One at which nobody listens any more is removed first; anything else that stands
    /// there is left.
    fn open(&self, alloc: Global, path: &str) -> Result<UnixListener, SocketFault>;

    /// Removes the socket at a path, at which nobody listens any more. Where somebody does, it is the next day's, and is left.
    fn remove(&self, path: &str);
}

impl Sockets for HostRuntime {
    fn open(&self, alloc: Global, path: &str) -> Result<UnixListener, SocketFault> {
        clear(self, path)?;
        open_private(self, alloc, path)
    }

    fn remove(&self, path: &str) {
        if UnixStream::connect(self, path).is_err() {
            let _ = remove_stale(self, path);
        }
    }
}

// Removes the socket at a path where nobody listens.
fn clear<R: Files + Net>(rt: &R, path: &str) -> Result<(), SocketFault> {
    match UnixStream::connect(rt, path) {
        Ok(_) => Err(SocketFault::InUse),
        Err(error) => match error.kind() {
            ErrorKind::NotFound if is_there(rt, path) => Err(SocketFault::NoSocket),
            ErrorKind::NotFound => Ok(()),
            ErrorKind::ConnectionRefused => remove_stale(rt, path),
            _ => Err(SocketFault::Io(error)),
        },
    }
}

// Whether anything stands at a path: a link that leads nowhere, too.
fn is_there<R: Files>(rt: &R, path: &str) -> bool {
    fs::symlink_metadata(rt, path).is_ok()
}

// Removes what stands at a path where that is a socket.
fn remove_stale<R: Files>(rt: &R, path: &str) -> Result<(), SocketFault> {
    if !fs::symlink_metadata(rt, path)?.file_type().is_socket() {
        return Err(SocketFault::NoSocket);
    }
    fs::remove_file(rt, path)?;
    Ok(())
}

// A socket at a path where nothing stands. It is made in a folder that its owner alone may enter, so that at the path it is private from its
// first moment there.
fn open_private<R: Files + Net>(
    rt: &R,
    alloc: Global,
    path: &str,
) -> Result<UnixListener, SocketFault> {
    let folder = format!(in alloc; "{path}.new")?;
    let made = format!(in alloc; "{folder}/s")?;
    remove_left(rt, folder.as_str(), made.as_str());
    DirBuilder::new().mode(0o700).create(rt, folder.as_str())?;
    let opened = bind_there(rt, made.as_str(), path);
    if opened.is_err() {
        let _ = fs::remove_file(rt, made.as_str());
    }
    let _ = fs::remove_dir(rt, folder.as_str());
    Ok(opened?)
}

// Removes what a crash left: the folder, and the socket in it. Anything else stays.
fn remove_left<R: Files>(rt: &R, folder: &str, made: &str) {
    let is_folder = fs::symlink_metadata(rt, folder).is_ok_and(|found| found.is_dir());
    let is_socket = fs::symlink_metadata(rt, made).is_ok_and(|found| found.file_type().is_socket());
    if is_folder && is_socket {
        let _ = fs::remove_file(rt, made);
    }
    let _ = fs::remove_dir(rt, folder);
}

// A socket that is made at one path and put at another.
fn bind_there<R: Files + Net>(rt: &R, made: &str, path: &str) -> io::Result<UnixListener> {
    let listener = UnixListener::bind(rt, made)?;
    fs::set_permissions(rt, made, Permissions::from_mode(0o600))?;
    fs::rename(rt, made, path)?;
    Ok(listener)
}

/// The port of a day and the socket of its operators, which are closed together.
#[derive(Drop)]
pub(crate) struct PortAndSocket<S> {
    pub(crate) port: S,
    pub(crate) socket: S,
}

impl<S: OpenStream> OpenStream for PortAndSocket<S> {
    fn shutdown(&self, how: Shutdown) -> io::Result<()> {
        let port = self.port.shutdown(how);
        let socket = self.socket.shutdown(how);
        port?;
        socket
    }
}
