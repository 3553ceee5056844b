//! A list without a busted chain of executions.
ghost use Rattle.std.specs.Prelude.{◌≡◌, [], ◌∷◌, ◌++◌, None, IsTrue, IfOk, IfErr, OnOk};
ghost use Rattle.blot_types.specs.Legal.{is_book};
ghost use Rattle.blot_withdraw.specs.Erasure.{without_chain, without_chain_of, erase_fault, IsEraseFault, SameOrders, SamePositions};

use crate::EraseFault;
use crate::chain::{first_listing, is_of_chain};
use blot_command::{ApplyFault, Tables, Undoable};
use blot_model::{bust_of, root_of};
use blot_types::{Entry, ExecKey};
use std::alloc::{AllocError as NoMemory, Global};

/// The book of a list without the chain of an execution: without its Trade, its Corrects and its Bust, each other
/// entry under its own number. The chain has to be busted, and no allocation of the list, live, replaced or cancelled,
/// may list an execution of it. The key is that of the Trade or of any Correct; a Bust's own key is no execution's.
/// Else the fault is the first that applies, in the order of `EraseFault`. Beside its list the book keeps no entry, so that it takes
/// the next command as any book of that list does.
pub fn erase_check(alloc: Global, list: &[Entry], key: ExecKey) -> Result<Tables, EraseFault>
    requires { IsTrue (is_book list.now) }
    ensures allowed { OnOk result (erase_fault list.now key ≡ None) }
    ensures rest { IfOk result (λ tables. tables.list ≡ without_chain_of list.now key) }
    ensures book { IfOk result (λ tables. IsTrue (is_book tables.list)) }
    ensures none_kept { IfOk result (λ tables. tables.kept ≡ []) }
    ensures fault { IfErr result (λ fault. IsEraseFault list.now key fault) }

    // As if the chain had never come: the lines of all orders and positions are those of the whole list.
    ensures orders { IfOk result (λ tables. SameOrders list.now tables.list) }
    ensures positions { IfOk result (λ tables. SamePositions list.now tables.list) }
{
    let Some(root) = root_of(list, &key) else {
        return Err(EraseFault::UnknownExec);
    };
    if bust_of(list, &root).is_none() {
        return Err(EraseFault::NotBusted);
    }
    if let Some(number) = first_listing(list, &root) {
        return Err(EraseFault::Named(number));
    }
    match without_chain(alloc, list, &root) {
        Ok(tables) => Ok(tables),
        Err(_) => Err(EraseFault::NoMemory),
    }
}

// The book of a list without the chain of a root.
fn without_chain(alloc: Global, list: &[Entry], root: &ExecKey) -> Result<Tables, NoMemory>
    requires { IsTrue (is_book (without_chain list.now root.now)) }
    ensures list { IfOk result (λ tables. tables.list ≡ without_chain list.now root.now) }
    ensures none_kept { IfOk result (λ tables. tables.kept ≡ []) }
{
    let mut tables = Tables::new(alloc);
    for entry in list {
        if !is_of_chain(list, root, entry) {
            put(alloc, &mut tables, entry)?;
        }
    }
    Ok(tables)
}

// Puts a copy of an entry after the others, in a book that keeps none beside its list.
fn put(alloc: Global, tables: &mut Tables, entry: &Entry) -> Result<(), NoMemory>
    requires book { IsTrue (is_book (tables.old.list ++ entry.now ∷ [])) }
    requires none_kept { tables.old.kept ≡ [] }
    ensures list { OnOk result (tables.new.list ≡ tables.old.list ++ entry.now ∷ []) }
    ensures none_kept { OnOk result (tables.new.kept ≡ []) }
{
    let command = match entry.command.try_copy(alloc) {
        Ok(command) => command,
        Err(fault) => return Err(fault),
    };
    match command.apply(tables, entry.number) {
        Ok(_) => Ok(()),
        Err((_, ApplyFault::NoMemory)) => Err(NoMemory),
        Err((_, ApplyFault::Refused(_))) => unreachable!(),
    }
}
