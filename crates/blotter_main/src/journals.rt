//! The files of journals.
ghost use Rattle.std.specs.Prelude.{IfOk, IsTrue};
ghost use Rattle.blot_journal.specs.Calls.{is_readable_after, leaves_after, left_after, seen_after};
ghost use Rattle.blot_journal.specs.Device.{Only};

use blot_journal::{FileDevice, FileFault, open_file};

/// What opens the files of journals.
pub trait Journals {
    /// The file of a journal, for this process alone. It is made where it isn't there.
    fn open(&self, path: &str) -> Result<FileDevice, FileFault>
        ensures readable { IfOk result (λ device. IsTrue (is_readable_after device)) }
        ensures durable { IfOk result (λ device. Only (seen_after device) (leaves_after device)) }
        ensures fresh { IfOk result (λ device. Only (seen_after device) (left_after device 0)) };
}

impl Journals for HostRuntime {
    fn open(&self, path: &str) -> Result<FileDevice, FileFault> {
        open_file(self, path)
    }
}
