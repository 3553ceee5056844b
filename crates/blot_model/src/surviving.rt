//! The executions that stand.
ghost use Rattle.std.specs.Prelude.{◌≡◌, IfOk, IsTrue};
ghost use Rattle.blot_types.specs.Laws.{HasOneSurvivorEach, BustsLeaveOthers, StandsUncorrected};
ghost use Rattle.blot_types.specs.Legal.{is_book};
ghost use Rattle.blot_types.specs.Survivors.{links_of, stands_in, survivors};

use crate::chains::{bust_of, current, root_of};
use blot_types::{Entry, Version};
use std::alloc::{AllocError as NoMemory, Global};

/// The executions of a list that stand, in list order: of each chain that isn't busted its last version.
/// A Bust leaves those of the other chains as they were.
pub fn survivors(alloc: Global, list: &[Entry]) -> Result<Vec<Version>, NoMemory>
    ensures exact { IfOk result (λ versions. versions.items ≡ survivors list.now) }
    ensures one_each { IsTrue (is_book list.now) → HasOneSurvivorEach list.now }
    ensures busts { IsTrue (is_book list.now) → BustsLeaveOthers list.now }
    ensures uncorrected { IsTrue (is_book list.now) → StandsUncorrected list.now }
{
    let mut versions = Vec::new(alloc);
    for entry in list {
        if let Some(version) = entry.version() {
            if stands(list, &version) {
                versions.push(version)?;
            }
        }
    }
    Ok(versions)
}

// Whether a version of a list stands.
fn stands(list: &[Entry], version: &Version) -> bool
    ensures { result ≡ stands_in (links_of list.now) version.now }
{
    let Some(root) = root_of(list, &version.key) else {
        return false;
    };
    bust_of(list, &root).is_none() && current(list, &root) == Some(version.number)
}
