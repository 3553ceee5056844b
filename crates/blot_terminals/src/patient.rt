//! An input that waits.
use blot_sockets::Door;
use std::io::{self, ErrorKind, Read};
use std::net::OpenStream;

/// An input whose reads wait until bytes come, as long as the day is open. When the day is closed a read fails, so that half a line isn't taken for a
/// whole one. The input is at its end when `patience` reads in a row have brought nothing.
#[derive(Drop)]
pub(crate) struct Patient<'a, I, H> {
    input: I,
    door: &'a Door<H>,
    patience: u64,
}

impl<'a, I, H> Patient<'a, I, H> {
    /// The input, which is at its end after `patience` reads in a row that bring nothing.
    pub(crate) fn new(input: I, door: &'a Door<H>, patience: u64) -> Patient<'a, I, H> {
        Patient {
            input,
            door,
            patience,
        }
    }

    /// From now on it waits as long as the day is open.
    pub(crate) fn wait_for_good(&mut self) {
        self.patience = u64::MAX;
    }
}

impl<'a, I: Read, H: OpenStream> Read for Patient<'a, I, H> {
    fn read(&mut self, buffer: &mut [u8]) -> io::Result<usize> {
        for _ in 0..self.patience {
            if self.door.is_closed() {
                return Err(ErrorKind::ConnectionAborted.into());
            }
            match self.input.read(buffer) {
                Ok(count) => return Ok(count),
                Err(error) => match error.kind() {
                    ErrorKind::WouldBlock | ErrorKind::Interrupted => {}
                    _ => return Err(error),
                },
            }
        }
        Ok(0)
    }
}
