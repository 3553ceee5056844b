//! The positions: opened, changed, shown.
ghost use Rattle.std.specs.Prelude.{◌≡◌, IsTrue, IfOk, OnOk, OnErr};
ghost use Rattle.std.specs.FinMap as map;
ghost use Rattle.blot_types.specs.Keys.{position_at};
ghost use Rattle.blot_position.specs.Positions.{sums_at, has_cell, with_cell, with_part, without_part, AreKeysOf};
ghost use Rattle.blot_position.specs.Sums.{line_by, HasRoom, HasPart};

use crate::cell::{Cells, add_part, is_made, keys_of, make_cell, put_part, sub_part, sums_of};
use blot_decimal::{QtySum, Value};
use blot_types::{PositionKey, PositionLine, Text64};
use indexmap::IndexMap;
use std::alloc::{AllocError as NoMemory, Global};
use std::marker::Model;

/// The positions of accounts in symbols. A contract sees them as a finite map from account and symbol to the
/// number and the sums of the parts, with an entry for each position for which a cell was made.
#[derive(Drop)]
pub struct Positions {
    cells: Cells,
}

impl Model for Positions {
    ghost use Rattle.blot_position.specs.Positions.{Cells, cells_code};
    ghost use Rattle.blot_position.specs.Cells.{cells_in};

    ghost Value = { Cells };

    ghost coded = { cells_code };

    ghost view = { λ positions. cells_in positions.cells.entries };
}

impl Positions {
    /// No cells. No memory is taken.
    pub fn new(alloc: Global) -> Positions
        ensures { result ≡ map.empty }
    {
        Positions {
            cells: IndexMap::new(alloc),
        }
    }

    /// Makes a cell for a position, so that a part is added to it without memory. No sums change, so nothing
    /// more is shown. Out of memory is the only error, and then nothing has changed.
    pub fn open(&mut self, account: &Text64, symbol: &Text64) -> Result<(), NoMemory>
        ensures ok { OnOk result (self.new ≡ with_cell account.now symbol.now self.old) }
        ensures err { OnErr result (self.new ≡ self.old) }
    {
        make_cell(&mut self.cells, &position_at(account, symbol))
    }

    /// Whether a cell was made for a position.
    pub fn is_open(&self, account: &Text64, symbol: &Text64) -> bool
        ensures { result ≡ has_cell self.now account.now symbol.now }
    {
        is_made(&self.cells, &position_at(account, symbol))
    }

    /// Adds a part to a position. Out of memory is the only error, and then nothing has changed.
    pub fn add(
        &mut self,
        account: &Text64,
        symbol: &Text64,
        qty: QtySum,
        value: Value,
    ) -> Result<(), NoMemory>
        requires room { HasRoom (sums_at self.old account.now symbol.now) qty value }
        ensures ok { OnOk result (self.new ≡ with_part account.now symbol.now qty value self.old) }
        ensures err { OnErr result (self.new ≡ self.old) }
    {
        put_part(&mut self.cells, &position_at(account, symbol), qty, value)
    }

    /// Takes a part that was added away from a position. Its cell stays. It needs no memory.
    pub fn sub(&mut self, account: &Text64, symbol: &Text64, qty: QtySum, value: Value)
        requires part { HasPart (sums_at self.old account.now symbol.now) qty value }
        ensures { self.new ≡ without_part account.now symbol.now qty value self.old }
    {
        sub_part(&mut self.cells, &position_at(account, symbol), qty, value);
    }

    /// Adds a part to a position for which a cell was made. It needs no memory.
    pub fn un_sub(&mut self, account: &Text64, symbol: &Text64, qty: QtySum, value: Value)
        requires made { IsTrue (has_cell self.old account.now symbol.now) }
        requires room { HasRoom (sums_at self.old account.now symbol.now) qty value }
        ensures { self.new ≡ with_part account.now symbol.now qty value self.old }
    {
        add_part(&mut self.cells, &position_at(account, symbol), qty, value);
    }

    /// The positions for which a cell was made, each once, in no order. An error is out of memory.
    pub fn keys(&self, alloc: Global) -> Result<Vec<PositionKey>, NoMemory>
        ensures { IfOk result (λ keys. AreKeysOf self.now keys.items) }
    {
        keys_of(alloc, &self.cells)
    }

    /// The line of a position: the sums of its parts, or none without a part.
    pub fn get(&self, account: &Text64, symbol: &Text64) -> Option<PositionLine>
        ensures { result ≡ line_by (sums_at self.now account.now symbol.now) }
    {
        sums_of(&self.cells, &position_at(account, symbol)).line()
    }
}

// The position of an account in a symbol.
fn position_at(account: &Text64, symbol: &Text64) -> PositionKey
    ensures { result ≡ position_at account.now symbol.now }
{
    PositionKey {
        account: *account,
        symbol: *symbol,
    }
}
