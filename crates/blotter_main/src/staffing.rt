//! Runs of a day whose operators come over a socket.
ghost use Rattle.std.specs.Prelude.{◌≡◌, ◌≢◌, IfErr, OnOk};
ghost use Rattle.std.specs.List.{IsDistinct};
ghost use Rattle.blot_types.specs.Keys.{same_text};
ghost use Rattle.blot_stream.specs.declared.outcome.Outcome.TheVariants.{BadWords};
ghost use Rattle.blot_arguments.specs.Words.{IsApart};
ghost use Rattle.blotter.specs.Serving.{StaffedDayServed};
ghost use Rattle.blotter_main.specs.Failure.{outcome_of};
ghost use Rattle.blotter_main.specs.Running.{KeepsStaffed};

use crate::failure::{Failure, system_words};
use crate::journals::Journals;
use crate::keeping::{unkept, unopened};
use crate::running::bind;
use crate::sockets::{PortAndSocket, SocketFault, Sockets};
use blot_recovery::OPERATOR_SEATS;
use blot_terminals::OPERATORS_MAX;
use blot_time::Day;
use blot_types::Text64;
use blotter::{Door, serve_kept_staffed_day, serve_staffed_day};
use log::Log;
use std::alloc::Global;
use std::io::{ErrorKind, Write};
use std::marker::Brand;
use std::net::{Net, TcpStream};
use std::os::fd::OwnedFd;
use std::os::unix::net::UnixListener;
use std::sync::Wait;
use std::sync::ledger::Blank;
use std::thread::Threads;
use std::time::Clock;

/// Serves an open day over a port of 127.0.0.1, to operators who come over the socket at a path.
pub(crate) fn staff_port<J: Sockets, T, W: Write>(
    sockets: &J,
    rt: &T,
    alloc: Global,
    path: String,
    own: Text64,
    peers: &[Text64],
    day: Day,
    port: u16,
    lanes: u16,
    output: &mut W,
) -> Result<(), Failure>
where
    T: Threads + Wait + Net + Clock + Log + Sync,
    T::Listener: Sync,
    T::Stream: Send,
    OwnedFd: From<T::Listener>,
    requires { IsDistinct same_text peers.now }
    ensures served { OnOk result (StaffedDayServed day (W.contents output.old) (W.contents output.new)) }
    ensures words { IfErr result (λ failure. outcome_of failure ≢ BadWords) }
{
    let (listener, port) = bind(rt, port)?;
    let (terminals, door) = open_socket(sockets, alloc, path.as_str(), port)?;
    let blank = Blank::new(peers.len() as u64 + OPERATORS_MAX as u64);
    let served = serve_staffed_day::<Brand, _, _, _, _, _>(
        rt, alloc, blank, &listener, &door, lanes, own, peers, day, &terminals, output,
    );
    door.close();
    sockets.remove(path.as_str());
    served.map_err(Failure::Served)
}

/// Serves such a day, and keeps it in a file.
pub(crate) fn keep_staffed<J: Journals + Sockets, T, W: Write>(
    journals: &J,
    rt: &T,
    alloc: Global,
    file: String,
    path: String,
    own: Text64,
    peers: &[Text64],
    day: Day,
    port: u16,
    lanes: u16,
    output: &mut W,
) -> Result<(), Failure>
where
    T: Threads + Wait + Net + Clock + Log + Sync,
    T::Listener: Sync,
    T::Stream: Send,
    OwnedFd: From<T::Listener>,
    requires peers { IsDistinct same_text peers.now }
    requires apart { IsApart own peers.now }
    ensures served { OnOk result (KeepsStaffed day (W.contents output.old) (W.contents output.new)) }
    ensures words { IfErr result (λ failure. outcome_of failure ≢ BadWords) }
{
    let device = match Journals::open(journals, file.as_str()) {
        Ok(device) => device,
        Err(fault) => return Err(unopened(alloc, fault, file)),
    };
    let (listener, port) = match bind(rt, port) {
        Ok(opened) => opened,
        Err(failure) => return Err(failure),
    };
    let (terminals, door) = match open_socket(journals, alloc, path.as_str(), port) {
        Ok(opened) => opened,
        Err(failure) => return Err(failure),
    };
    let blank = Blank::new(peers.len() as u64 + u64::from(OPERATOR_SEATS));
    let kept = serve_kept_staffed_day::<Brand, _, _, _, _, _, _>(
        rt, alloc, blank, device, &listener, &door, lanes, own, peers, day, &terminals, output,
    );
    door.close();
    journals.remove(path.as_str());
    match kept {
        Ok(_) => Ok(()),
        Err((fault, device)) => Err(unkept(alloc, fault, device, file)),
    }
}

// The socket at a path, and the door of a day that has this port too.
fn open_socket<J: Sockets>(
    sockets: &J,
    alloc: Global,
    path: &str,
    port: TcpStream,
) -> Result<(UnixListener, Door<PortAndSocket<TcpStream>>), Failure>
    ensures words { IfErr result (λ failure. outcome_of failure ≢ BadWords) }
{
    let listener = match Sockets::open(sockets, alloc, path) {
        Ok(listener) => listener,
        Err(fault) => return Err(unmade(alloc, fault, path)),
    };
    match listener.try_clone() {
        Ok(handle) => {
            let socket = TcpStream::from(OwnedFd::from(handle));
            Ok((listener, Door::new(PortAndSocket { port, socket })))
        }
        Err(error) => Err(unmade(alloc, SocketFault::Io(error), path)),
    }
}

// Why there is no socket at a path.
fn unmade(alloc: Global, fault: SocketFault, path: &str) -> Failure
    ensures words { outcome_of result ≢ BadWords }
{
    let Ok(path) = String::from_str(alloc, path) else {
        drop(fault);
        return Failure::NoMemory;
    };
    match fault {
        SocketFault::NoMemory => Failure::NoMemory,
        SocketFault::InUse => Failure::InUse(path),
        SocketFault::NoSocket => Failure::NoSocket(path),
        SocketFault::Io(error) if error.kind() == ErrorKind::OutOfMemory => Failure::NoMemory,
        SocketFault::Io(error) => match system_words(alloc, &error) {
            Ok(why) => Failure::NoFile(path, why),
            Err(_) => Failure::NoMemory,
        },
    }
}
