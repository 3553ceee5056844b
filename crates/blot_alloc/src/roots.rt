//! One place under each of some roots.
ghost use Rattle.std.specs.Prelude.{IsTrue, OnOk, All};
ghost use Rattle.blot_places.specs.Places.{HasRoom, PutsPlace, SamePlaces, TakesPlace};
ghost use Rattle.blot_types.specs.Instructions.{are_apart};
ghost use Rattle.blot_types.specs.Keys.{is_among, same_exec};

use blot_places::Places;
use blot_types::ExecKey;
use std::alloc::{AllocError as NoMemory, Global};

/// Makes room for one more place under each of these roots. No place comes or goes.
pub(crate) fn make_room(
    places: &mut Places<ExecKey>,
    alloc: Global,
    roots: &[ExecKey],
) -> Result<(), NoMemory>
    ensures same { SamePlaces same_exec places.old places.new }
    ensures room { OnOk result (All (HasRoom same_exec places.new) roots.now) }
{
    for root in roots {
        places.make_room(alloc, root)?;
    }
    Ok(())
}

/// Puts a place on the stack of each of these roots, which are all different.
pub(crate) fn push(places: &mut Places<ExecKey>, roots: &[ExecKey], place: usize)
    requires room { All (HasRoom same_exec places.old) roots.now }
    requires apart { IsTrue (are_apart roots.now) }
    ensures { PutsPlace same_exec (is_among roots.now) place places.old places.new }
{
    for root in roots {
        places.push(root, place);
    }
}

/// Takes the newest place off the stack of each of these roots, which are all different.
pub(crate) fn pop(places: &mut Places<ExecKey>, roots: &[ExecKey])
    requires apart { IsTrue (are_apart roots.now) }
    ensures { TakesPlace same_exec (is_among roots.now) places.old places.new }
{
    for root in roots {
        places.pop(root);
    }
}
