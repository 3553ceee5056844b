//! Receipts compared with the history.
ghost use Rattle.std.specs.Prelude.{◌≡◌, ◌↔◌, ◌<◌, true, false, IfOk, length};
ghost use Rattle.blot_desk.specs.Marks.{AllDisagree, AllMarked, AreMarked, Disagree, EachMarked};
ghost use Rattle.blot_desk.specs.Receipts.{IsSettled, Stands};

use crate::{Receipt, Recorded, Seat};
use std::alloc::{AllocError as NoMemory, Global};
use std::sync::ledger::Ledger;

/// Whether every receipt stands in the history at its place, the places of each seat rise, and every place has one receipt.
pub(crate) fn is_settled<L: Ledger>(
    alloc: Global,
    history: &[Recorded],
    seats: &[Seat<L>],
) -> Result<bool, NoMemory>
    ensures { IfOk result (λ settled. (settled ≡ true) ↔ IsSettled history.now seats.now) }
{
    let mut marks = vec![in alloc; false; history.len()]?;
    Ok(mark_seats(history, &mut marks, seats) && are_all_marked(&marks))
}

// Marks the places of all receipts, or tells that they don't agree with the history.
fn mark_seats<L: Ledger>(history: &[Recorded], marks: &mut [bool], seats: &[Seat<L>]) -> bool
    requires { length marks.old ≡ length history.now }
    ensures length { length marks.new ≡ length marks.old }
    ensures marked { result ≡ true → AllMarked history.now marks.old marks.new seats.now }
    ensures other { result ≡ false → AllDisagree history.now marks.old seats.now }
{
    for seat in seats {
        if !mark_receipts(history, marks, seat.receipts()) {
            return false;
        }
    }
    true
}

// Marks the places of a seat's receipts, or tells that they don't agree with the history.
fn mark_receipts(history: &[Recorded], marks: &mut [bool], receipts: &[Receipt]) -> bool
    requires { length marks.old ≡ length history.now }
    ensures length { length marks.new ≡ length marks.old }
    ensures marked { result ≡ true → AreMarked history.now marks.old marks.new receipts.now }
    ensures other { result ≡ false → Disagree history.now marks.old receipts.now }
{
    let mut from = 0;
    for receipt in receipts {
        if !stands(history, receipt) || receipt.place < from || marks[receipt.place as usize] {
            return false;
        }
        marks[receipt.place as usize] = true;
        from = receipt.place + 1;
    }
    true
}

// Whether a receipt stands in the history.
fn stands(history: &[Recorded], receipt: &Receipt) -> bool
    ensures stands { (result ≡ true) ↔ Stands history.now receipt.now }
    ensures within { result ≡ true → receipt.now.place < length history.now }
{
    match history.get(receipt.place as usize) {
        Some(recorded) => recorded.event == receipt.event && recorded.reply == receipt.reply,
        None => false,
    }
}

// Whether all places are marked.
fn are_all_marked(marks: &[bool]) -> bool
    ensures { (result ≡ true) ↔ EachMarked marks.now }
{
    marks.iter().all(|mark| *mark)
}
