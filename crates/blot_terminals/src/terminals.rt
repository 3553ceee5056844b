//! Operators over a socket, many at once.
use crate::Operators;
use crate::naming::named_seat;
use crate::patient::Patient;
use blot_desk::Desk;
use blot_gateway::FrameKeeper;
use blot_operator::{OpenDay, open_lines};
use blot_sockets::Door;
use blot_stream::ReplayFault;
use blot_types::Text64;
use log::{Log, error, info, warn};
use std::alloc::Global;
use std::io::{self, Read, Write};
use std::net::OpenStream;
use std::os::unix::net::{UnixListener, UnixStream};
use std::sync::Wait;
use std::sync::atomic::AtomicBool;
use std::sync::atomic::Ordering::SeqCst;
use std::sync::ledger::Ledger;
use std::time::{Clock, Duration};
use std::{str, thread};

/// How many terminals are served at once: twice as many as a day has operators, so that those without a name keep nobody out.
pub const TERMINALS: u16 = 32;

// How many seconds a read waits for bytes.
const READ_WAIT: u64 = 1;

// How many seconds a write waits for the terminal to take bytes.
const WRITE_WAIT: u64 = 30;

// The most reads, one behind the other, that bring nothing of a terminal that has no name yet: after a minute it is closed.
const NAMING_READS: u64 = 60;

// How many milliseconds are waited before the next terminal is looked for, where none could come.
const PAUSE: u64 = 200;

/// Where operators come.
pub trait Terminals {
    /// What comes of a terminal.
    type Input: Read + Drop;

    /// What goes back to it.
    type Output: Write + Drop;

    /// Waits for the next terminal. A read of it waits for a second, and a write for 30; one that gets nothing is told as WouldBlock.
    fn next(&self) -> io::Result<(Self::Input, Self::Output)>;
}

impl Terminals for UnixListener {
    type Input = UnixStream;

    type Output = UnixStream;

    fn next(&self) -> io::Result<(UnixStream, UnixStream)> {
        let (stream, _) = self.accept()?;
        stream.set_read_timeout(Some(Duration::from_secs(READ_WAIT)))?;
        stream.set_write_timeout(Some(Duration::from_secs(WRITE_WAIT)))?;
        let output = stream.try_clone()?;
        Ok((stream, output))
    }
}

/// Where the operators of an open day come, and what their terminals share.
#[derive(Drop)]
pub struct Room<'a, R, T, L: Ledger, K: FrameKeeper, D, H> {
    rt: &'a R,
    alloc: Global,
    terminals: &'a T,
    operators: &'a Operators<L>,
    desk: &'a Desk<L, K>,
    day: &'a D,
    door: &'a Door<H>,
    // Whether the last terminal couldn't come.
    is_failing: AtomicBool,
}

impl<'a, R, T, L, K, D, H> Room<'a, R, T, L, K, D, H>
where
    R: Wait + Clock + Log,
    T: Terminals,
    L: Ledger,
    K: FrameKeeper,
    D: OpenDay,
    H: OpenStream,
{
    /// The room of these operators.
    pub fn new(
        rt: &'a R,
        alloc: Global,
        terminals: &'a T,
        operators: &'a Operators<L>,
        desk: &'a Desk<L, K>,
        day: &'a D,
        door: &'a Door<H>,
    ) -> Room<'a, R, T, L, K, D, H> {
        Room {
            rt,
            alloc,
            terminals,
            operators,
            desk,
            day,
            door,
            is_failing: AtomicBool::new(false),
        }
    }

    /// Takes terminals, and serves each, one after the other, until the door is closed. So many threads do this at once as terminals are to be served.
    /// A terminal names itself, and then its lines are answered by the seat of that name. Who is on is logged.
    pub fn run(&self) {
        for _ in 0..u64::MAX {
            if self.door.is_closed() {
                return;
            }
            match self.terminals.next() {
                Ok((input, output)) => self.serve(input, output),
                Err(error) => self.pass_over(&error),
            }
        }
    }

    // Serves a terminal: it names itself, and its lines are answered by the seat of that name. Where the journal can't be written any more, the
    // day ends, which is logged.
    fn serve(&self, input: T::Input, output: T::Output) {
        self.is_failing.store(false, SeqCst);
        let mut input = Patient::new(input, self.door, NAMING_READS);
        let mut output = output;
        let named = named_seat(self.rt, self.alloc, self.operators, &mut input, &mut output);
        let Ok(Some(seat)) = named else {
            return;
        };
        input.wait_for_good();
        let mut seat = seat;
        let name = *seat.name();
        info!(self.rt; "operator {} on", shown(&name));
        let answered = open_lines(
            self.rt,
            self.alloc,
            &mut input,
            &mut output,
            self.desk,
            &mut seat,
            self.day,
        );
        info!(self.rt; "operator {} off", shown(&name));
        self.operators.give_back(self.rt, seat);
        if matches!(answered, Err(ReplayFault::Journal)) && !self.door.is_closed() {
            error!(self.rt; "the journal can't be written, so the day ends");
            self.door.close();
        }
    }

    // Waits a little where no terminal could come, which is logged once until one can. The end of the day is no failure.
    fn pass_over(&self, error: &io::Error) {
        if self.door.is_closed() {
            return;
        }
        if !self.is_failing.swap(true, SeqCst) {
            warn!(self.rt; "no operator can connect: {error}");
        }
        let _ = thread::sleep(self.rt, Duration::from_millis(PAUSE));
    }
}

// A name, which is ASCII.
fn shown(name: &Text64) -> &str {
    str::from_utf8(name.bytes()).unwrap_or("?")
}
