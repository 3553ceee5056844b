//! Messages.

use crate::{Admin, Allocation, Head, Report};

/// A message without a fault. Its texts stand in its frame.
#[derive(Debug, Drop)]
pub struct Message<'a> {
    pub head: Head<'a>,
    pub body: Body<'a>,
}

impl<'a> Message<'a> {
    ghost use Rattle.std.specs.Prelude.{◌≡◌};

    /// What its header says.
    pub fn head(&self) -> &Head<'a>
        ensures { result.now ≡ self.now.head }
    {
        &self.head
    }
}

/// What a message says after its header.
#[derive(Debug, Drop)]
pub enum Body<'a> {
    /// A message of the session layer.
    Admin(Admin<'a>),
    /// An Execution Report (35=8).
    Report(Report<'a>),
    /// An Allocation Instruction (35=J).
    Allocation(Allocation<'a>),
    /// A message of any other type. Its fields aren't read.
    Other,
}
