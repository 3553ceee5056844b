//! The door through which the connections of a day come.

use std::net::{OpenStream, Shutdown};
use std::sync::atomic::AtomicBool;
use std::sync::atomic::Ordering::SeqCst;

/// The door through which the connections of a day come: whether it is open, and a handle of its listener by which it is closed.
#[derive(Drop)]
pub struct Door<H> {
    is_closed: AtomicBool,
    listener: H,
}

impl<H: OpenStream> Door<H> {
    /// An open door. The handle is another one of the listener, taken as a stream, which can be shut down.
    pub fn new(listener: H) -> Door<H> {
        Door {
            is_closed: AtomicBool::new(false),
            listener,
        }
    }

    /// Closes it. The port is free, no further connection is accepted, and each call that waits for one ends.
    pub fn close(&self) {
        self.is_closed.store(true, SeqCst);
        let _ = self.listener.shutdown(Shutdown::Both);
    }

    /// Whether it is closed.
    pub fn is_closed(&self) -> bool {
        self.is_closed.load(SeqCst)
    }
}
