//! The quantities that an allocation has to come to.
ghost use Rattle.std.specs.Prelude.{◌≡◌, ◌^◌, ◌≤ℤ◌, pos, [], reverse, filter_map};
ghost use Rattle.std.specs.List.{cons_option};
ghost use Rattle.blot_types.specs.Order.{cum_of};
ghost use Rattle.blot_types.specs.Refusals.{current_fill};
ghost use Rattle.blot_types.specs.Survivors.{version_numbered};

use crate::chains::{current, root_of};
use blot_types::{Entry, ExecKey, Fill, Version};

/// The fill of the last version of the chain of a key.
pub(crate) fn current_fill(list: &[Entry], key: &ExecKey) -> Option<Fill>
    ensures { result ≡ current_fill (reverse list.now) key.now }
{
    let root = root_of(list, key)?;
    let number = current(list, &root)?;
    version_numbered(list, number).map(|version| version.fill)
}

// The version of a number: the newest, where there are several.
fn version_numbered(list: &[Entry], number: u64) -> Option<Version>
    ensures { result ≡ version_numbered (reverse list.now) number }
{
    list.iter()
        .rev()
        .filter_map(Entry::version)
        .find(|version| version.number == number)
}

/// The quantity of the last versions of listed executions, in units of 10^-6.
pub(crate) fn wanted(list: &[Entry], execs: &[ExecKey]) -> i128
    ensures { result ≡ cum_of (filter_map (current_fill (reverse list.now)) execs.now) }
{
    let mut sum = 0;
    for key in execs {
        sum += filled(list, key);
    }
    sum
}

// The quantity of the last version of an execution, in units of 10^-6: 0 where there is none.
fn filled(list: &[Entry], key: &ExecKey) -> i128
    ensures value { result ≡ cum_of (cons_option (current_fill (reverse list.now) key.now) []) }
    ensures low { pos 0 ≤ℤ result }
    ensures high { result ≤ℤ pos (10 ^ 16) }
{
    match current_fill(list, key) {
        None => 0,
        Some(fill) => i128::from(fill.qty.units()),
    }
}
