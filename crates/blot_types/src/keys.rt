//! The keys under which a peer's executions, orders and allocations are known, and the positions.

use crate::Text64;

/// An execution of a peer: the peer's CompID, and its ExecID(17).
#[derive(Clone, Copy, Debug, PartialEq, Eq, Hash)]
pub struct ExecKey {
    pub peer: Text64,
    pub id: Text64,
}

/// An order of a peer: the peer's CompID, and its OrderID(37).
#[derive(Clone, Copy, Debug, PartialEq, Eq, PartialOrd, Ord, Hash)]
pub struct OrderKey {
    pub peer: Text64,
    pub id: Text64,
}

/// An allocation of a peer: the peer's CompID, and its AllocID(70).
#[derive(Clone, Copy, Debug, PartialEq, Eq, Hash)]
pub struct AllocKey {
    pub peer: Text64,
    pub id: Text64,
}

/// A position: an account, `*` the house account, and a symbol.
#[derive(Clone, Copy, Debug, PartialEq, Eq, PartialOrd, Ord, Hash)]
pub struct PositionKey {
    pub account: Text64,
    pub symbol: Text64,
}
