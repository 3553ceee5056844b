//! The lanes of an open day.
ghost use Rattle.std.specs.Prelude.{◌≡◌, IfOk};

use crate::connection::log_stranger;
use crate::{Peers, serve_connection};
use blot_desk::Desk;
use blot_gateway::{Ended, FrameKeeper};
use blot_sockets::{Door, Socket, SystemClock};
use log::{Log, error, info, warn};
use std::alloc::{AllocError as NoMemory, Global};
use std::io::{self, ErrorKind, Read, Write};
use std::net::{OpenListener, OpenStream, SocketAddr};
use std::sync::Wait;
use std::sync::atomic::AtomicBool;
use std::sync::atomic::Ordering::SeqCst;
use std::sync::ledger::Ledger;
use std::thread;
use std::thread::Threads;
use std::time::{Clock, Duration};

// How many milliseconds a lane waits before it accepts again, where it couldn't.
const PAUSE: u64 = 200;

/// What is done beside the serving. It gives back what it was lent, since a thread's end says nothing of a `&mut` that a closure holds.
pub trait Task {
    /// What comes of it.
    type Output;

    /// What comes of it, by what it holds.
    ghost gives: { Self → Self.Output → Type 0 };

    /// Does it.
    fn run(self) -> Self::Output
        ensures { gives self result };
}

// What all lanes of a day share.
#[derive(Drop)]
struct Lanes<'a, R, N, L: Ledger, K: FrameKeeper, H> {
    rt: &'a R,
    alloc: Global,
    listener: &'a N,
    peers: &'a Peers<L>,
    desk: &'a Desk<L, K>,
    door: &'a Door<H>,
    // Whether the last connection couldn't be accepted.
    is_failing: AtomicBool,
}

/// Serves the connections of a listener in so many lanes, each in a thread of its own, as far as the system gives them, and does a task
/// meanwhile. After it the door is closed, and the lanes end. How many lanes there are is logged, and who is on, and how each connection
/// ended. An error is out of memory: there was no thread for a lane, and nothing was done.
pub fn serve_lanes<R, N, L, K, H, T, A>(
    rt: &R,
    alloc: Global,
    listener: &N,
    peers: &Peers<L>,
    desk: &Desk<L, K>,
    door: &Door<H>,
    lanes: u16,
    task: T,
) -> Result<A, NoMemory>
where
    R: Threads + Wait + Clock + Log + Sync,
    N: OpenListener + Sync,
    N::Stream: Read + Write + OpenStream + Send,
    L: Ledger + Send + Sync,
    K: FrameKeeper + Send + Sync,
    H: OpenStream + Sync,
    T: Task<Output = A> + Drop,
    ensures { IfOk result (λ given. T.gives task given) }
{
    serve_crewed(
        rt,
        alloc,
        listener,
        peers,
        desk,
        door,
        lanes,
        &NoCrew {},
        0,
        task,
    )
}

/// What some threads do beside the lanes, each until the door is closed.
pub trait Crew {
    /// What one of them does.
    fn run(&self);
}

// Nobody does anything beside the lanes.
struct NoCrew {}

impl Crew for NoCrew {
    fn run(&self) {}
}

/// The same, with so many more threads beside the lanes, as far as the system gives them. What they do has to end when the door is closed.
pub fn serve_crewed<R, N, L, K, H, C, T, A>(
    rt: &R,
    alloc: Global,
    listener: &N,
    peers: &Peers<L>,
    desk: &Desk<L, K>,
    door: &Door<H>,
    lanes: u16,
    crew: &C,
    threads: u16,
    task: T,
) -> Result<A, NoMemory>
where
    R: Threads + Wait + Clock + Log + Sync,
    N: OpenListener + Sync,
    N::Stream: Read + Write + OpenStream + Send,
    L: Ledger + Send + Sync,
    K: FrameKeeper + Send + Sync,
    H: OpenStream + Sync,
    C: Crew + Sync,
    T: Task<Output = A> + Drop,
    ensures { IfOk result (λ given. T.gives task given) }
{
    let shared = Lanes {
        rt,
        alloc,
        listener,
        peers,
        desk,
        door,
        is_failing: AtomicBool::new(false),
    };
    let shared = &shared;
    thread::scope(
        thread::scope_env(),
        rt,
        move |scope| -> Result<A, NoMemory>
            ensures { IfOk result (λ given. T.gives task given) }
        {
            let mut running = 0u16;
            for _ in 0..lanes {
                if scope.spawn(move || shared.run()).is_ok() {
                    running = running.saturating_add(1);
                }
            }
            if running == 0 {
                return Err(NoMemory);
            }
            info!(rt; "lanes {running}");
            for _ in 0..threads {
                let _ = scope.spawn(move || crew.run());
            }
            let given = task.run();
            door.close();
            Ok(given)
        },
    )
}

impl<'a, R, N, L, K, H> Lanes<'a, R, N, L, K, H>
where
    R: Wait + Clock + Log,
    N: OpenListener,
    N::Stream: Read + Write + OpenStream,
    L: Ledger,
    K: FrameKeeper,
    H: OpenStream,
{
    // One lane: takes connections, and serves each, until the door is closed.
    fn run(&self) {
        for _ in 0..u64::MAX {
            if self.door.is_closed() {
                return;
            }
            match self.listener.accept() {
                Ok((stream, address)) => self.serve(stream, address),
                Err(error) => self.pass_over(&error),
            }
        }
    }

    // Serves a connection. One that is gone already can't be set up. Where the journal can't be written any more, the day ends, which is logged.
    // The socket goes last: that may take two seconds.
    fn serve(&self, stream: N::Stream, address: SocketAddr) {
        self.is_failing.store(false, SeqCst);
        let Ok(mut socket) = Socket::new(self.rt, stream) else {
            log_stranger(self.rt, address, Ended::ReadFault);
            return;
        };
        let clock = SystemClock::new(self.rt);
        serve_connection(
            self.rt,
            self.alloc,
            self.peers,
            self.desk,
            self.door,
            address,
            &mut socket,
            clock,
        );
        if self.desk.sync(self.rt).is_err() && !self.door.is_closed() {
            error!(self.rt; "the journal can't be written, so the day ends");
            self.door.close();
        }
    }

    // Waits a little where no connection could be accepted, which is logged once until one can be. One that is gone already is no failure,
    // and the end of the day isn't either.
    fn pass_over(&self, error: &io::Error) {
        let is_failure = !matches!(
            error.kind(),
            ErrorKind::Interrupted | ErrorKind::ConnectionAborted
        );
        if is_failure && !self.door.is_closed() {
            if !self.is_failing.swap(true, SeqCst) {
                warn!(self.rt; "no connection can be accepted: {error}");
            }
            let _ = thread::sleep(self.rt, Duration::from_millis(PAUSE));
        }
    }
}
