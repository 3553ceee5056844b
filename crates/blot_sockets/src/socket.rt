//! A connection over TCP.
ghost use Rattle.std.specs.Prelude.{◌≡◌, IfOk};
ghost use Rattle.blot_gateway.specs.Wires.{Counts};

use blot_gateway::{Reading, Wire, Writing};
use blot_stream::write_retrying;
use std::io::{self, ErrorKind, Read, Write};
use std::net::{OpenStream, Shutdown};
use std::thread;
use std::time::{Clock, Duration};

// How many seconds a read waits for bytes.
const READ_WAIT: u64 = 1;

// How many seconds a write waits for the peer to take bytes.
const WRITE_WAIT: u64 = 30;

// When a connection is closed: how many reads of what the peer still sends are made, and how many milliseconds each waits for it, and
// then for more.
const CLOSING_READS: u8 = 10;

const CLOSING_WAIT: u64 = 100;

/// A connection over TCP. A read that gets nothing within a second is quiet; a write of which the peer takes nothing within
/// 30 seconds fails.
pub struct Socket<'a, R: Clock, S: Read + OpenStream + Drop> {
    clock: &'a R,
    stream: S,
    faults: u64,
    // Whether anything was written.
    has_written: bool,
}

impl<'a, R: Clock, S: Read + OpenStream + Drop> Socket<'a, R, S> {
    /// The connection of a stream. What is written goes out at once. An error is the system's.
    pub fn new(clock: &'a R, stream: S) -> io::Result<Socket<'a, R, S>>
        ensures { IfOk result (λ socket. (socket.stream ≡ stream) × (socket.faults ≡ 0)) }
    {
        stream.set_read_timeout(Some(Duration::from_secs(READ_WAIT)))?;
        stream.set_write_timeout(Some(Duration::from_secs(WRITE_WAIT)))?;
        stream.set_nodelay(true)?;
        Ok(Socket {
            clock,
            stream,
            faults: 0,
            has_written: false,
        })
    }
}

/// What was written reaches a peer that sends on. A system that closes a connection of which bytes are unread throws away what it hasn't
/// sent yet. So the end is said first, and then what still comes is read, until the peer has hung up too, for two seconds at most.
impl<R: Clock, S: Read + OpenStream + Drop> Drop for Socket<'_, R, S> {
    fn drop(self) {
        let Socket {
            clock,
            mut stream,
            faults: _,
            has_written,
        } = self;
        let wait = Duration::from_millis(CLOSING_WAIT);
        if !has_written
            || stream.shutdown(Shutdown::Write).is_err()
            || stream.set_read_timeout(Some(wait)).is_err()
        {
            return;
        }
        let mut buffer = [0; 16_384];
        for _ in 0..CLOSING_READS {
            match stream.read(&mut buffer) {
                Ok(0) => return,
                Ok(_) => thread::sleep(clock, wait),
                Err(error) => match error.kind() {
                    ErrorKind::WouldBlock | ErrorKind::Interrupted => (),
                    _ => return,
                },
            }
        }
    }
}

impl<R: Clock, S: Read + OpenStream + Drop> Socket<'_, R, S> {
    // Counts a failure, as far as 2^64 - 1.
    fn count_fault(&mut self)
        ensures counted { Counts self.old.faults self.new.faults }
        ensures stream { self.new.stream ≡ self.old.stream }
    {
        self.faults = self.faults.saturating_add(1);
    }
}

impl<R: Clock, S: Read + Write + OpenStream + Drop> Wire for Socket<'_, R, S> {
    ghost use Rattle.blot_sockets.specs.Sockets.{SocketDoes};

    ghost does = { SocketDoes S.remaining S.contents };

    ghost failures = { λ socket. socket.faults };

    fn read_some(&mut self, buffer: &mut [u8]) -> Reading {
        match self.stream.read(buffer) {
            Ok(0) => Reading::End,
            Ok(count) => Reading::Got(count),
            Err(error) => match error.kind() {
                ErrorKind::WouldBlock | ErrorKind::Interrupted => Reading::Quiet,
                _ => {
                    self.count_fault();
                    Reading::Fault
                }
            },
        }
    }

    fn write_some(&mut self, text: &[u8]) -> Writing {
        match write_retrying(&mut self.stream, text) {
            Some(count) => {
                self.has_written = true;
                Writing::Wrote(count)
            }
            None => {
                self.count_fault();
                Writing::Fault
            }
        }
    }

    fn faults(&self) -> u64 {
        self.faults
    }
}
