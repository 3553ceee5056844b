//! What an order book holds under one number.
ghost use Rattle.std.specs.Prelude.{◌≡◌, false};
ghost use Rattle.blot_order.specs.Slots.{marked};

use blot_decimal::{Price, Qty, QtySum};
use blot_places::GhostValue;
use blot_types::{Fill, Sign, Text64};
use std::marker::Model;

/// What an order book holds under one number. A contract sees the fills of an order book as the finite map
/// from number to this.
#[derive(Clone, Copy, Debug, PartialEq, Eq)]
pub enum FillState {
    /// A fill that was put and taken since.
    Kept(Fill),
    /// A fill that is put.
    Put(Fill),
}

/// A fill in its slot: what its order needs of it, a mark that says whether it is put, so that it isn't moved where it is put or
/// taken, and the place of its order's cell among the cells. A contract sees the whole fill.
#[derive(Drop)]
pub(crate) struct StoredFill {
    place: usize,
    qty: Qty,
    price: Price,
    size: QtySum,
    is_put: bool,
    sign: Sign,
    symbol: Text64,
    fill: GhostValue<Fill>,
}

impl Model for StoredFill {
    ghost use Rattle.std.specs.Prelude.{◌≡◌};
    ghost use Rattle.blot_order.specs.Slots.{Placed};

    ghost Value = { Placed };

    ghost view = { λ held. record { fill = held.fill.value; is_put = held.is_put; place = held.place } };

    ghost invariant = { λ held. (held.qty ≡ held.fill.value.qty) × (held.price ≡ held.fill.value.price) × (held.size ≡ held.fill.value.size)
        × (held.sign ≡ held.fill.value.sign) × (held.symbol ≡ held.fill.value.symbol) };
}

impl StoredFill {
    /// A fill that is kept, whose order has its cell at a place.
    pub(crate) fn kept(fill: &Fill, place: usize) -> StoredFill
        ensures { result ≡ record { fill = fill.now; is_put = false; place = place } }
    {
        StoredFill {
            place,
            qty: fill.qty,
            price: fill.price,
            size: fill.size,
            is_put: false,
            sign: fill.sign,
            symbol: fill.symbol,
            fill: GhostValue::of(fill),
        }
    }

    /// The size of its order.
    pub(crate) fn size(&self) -> QtySum
        ensures { result ≡ self.now.fill.size }
    {
        self.size
    }

    /// Its quantity.
    pub(crate) fn qty(&self) -> Qty
        ensures { result ≡ self.now.fill.qty }
    {
        self.qty
    }

    /// Its price.
    pub(crate) fn price(&self) -> Price
        ensures { result ≡ self.now.fill.price }
    {
        self.price
    }

    /// Its symbol.
    pub(crate) fn symbol(&self) -> Text64
        ensures { result ≡ self.now.fill.symbol }
    {
        self.symbol
    }

    /// Whether it is bought or sold.
    pub(crate) fn sign(&self) -> Sign
        ensures { result ≡ self.now.fill.sign }
    {
        self.sign
    }

    /// Whether it is put.
    pub(crate) fn is_put(&self) -> bool
        ensures { result ≡ self.now.is_put }
    {
        self.is_put
    }

    /// The place of its order's cell.
    pub(crate) fn place(&self) -> usize
        ensures { result ≡ self.now.place }
    {
        self.place
    }

    /// Marks the fill as put, or as kept.
    pub(crate) fn mark(&mut self, is_put: bool)
        ensures { self.new ≡ marked is_put self.old }
    {
        self.is_put = is_put;
    }
}
