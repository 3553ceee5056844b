//! Why a desk takes no event, or isn't settled.

/// Why a desk takes no event, or isn't settled. It records nothing then, and changes nothing.
#[derive(Clone, Copy, Debug, PartialEq, Eq)]
pub enum DeskFault {
    /// As many events as a day's record holds are recorded (`EVENTS_MAX`).
    Full,
    /// Memory ran out.
    NoMemory,
    /// What keeps the events of a desk couldn't be written, and no more events are taken, but those that only ask. Only `Desk::submit_with`
    /// answers it.
    Broken,
    /// The receipts and the history don't agree. Only `Closed::settle` answers it.
    Unsettled,
}
