//! The lines of orders.
ghost use Rattle.std.specs.Prelude.{◌≡◌, IfOk, IsTrue};
ghost use Rattle.blot_types.specs.Legal.{is_numbered};
ghost use Rattle.blot_types.specs.Order.{order_of};

use crate::survivors;
use blot_types::{Entry, OrderKey, OrderLine};
use std::alloc::{AllocError as NoMemory, Global};

/// The line of an order, or none where no execution of it stands.
pub fn order_of(
    alloc: Global,
    list: &[Entry],
    order: &OrderKey,
) -> Result<Option<OrderLine>, NoMemory>
    requires { IsTrue (is_numbered list.now) }
    ensures { IfOk result (λ line. line ≡ order_of list.now order.now) }
{
    let mut line = None;
    for version in &survivors(alloc, list)? {
        if version.fill.order == *order {
            line = Some(OrderLine::with_fill(line, &version.fill));
        }
    }
    Ok(line)
}
