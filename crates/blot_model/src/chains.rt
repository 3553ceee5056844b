//! The chains of executions.
ghost use Rattle.std.specs.Prelude.{◌≡◌};
ghost use Rattle.blot_types.specs.Chains.{taker_in, is_root, busts, bust_in, current_in};
ghost use Rattle.blot_types.specs.Survivors.{link_of, links_of, root_of};
ghost use Rattle.blot_model.specs.Keyed.{is_version, link_keyed};

use blot_types::{Entry, ExecKey, Link, Role};

/// The number of the entry that takes up a key: of a Trade, a Correct or a Bust.
pub fn number_of(list: &[Entry], key: &ExecKey) -> Option<u64>
    ensures { result ≡ taker_in (links_of list.now) key.now }
{
    let mut rest = list;
    while let Some((entry, earlier)) = rest.split_last() {
        if let Some(link) = entry.link() {
            if link.key == *key {
                return Some(link.number);
            }
        }
        rest = earlier;
    }
    None
}

/// The root of a key: the Trade that its chain began with, or none where no Trade or Correct has the key.
pub fn root_of(list: &[Entry], key: &ExecKey) -> Option<ExecKey>
    ensures { result ≡ root_of list.now key.now }
{
    let mut rest = list;
    let mut sought = *key;
    while let Some((entry, earlier)) = rest.split_last() {
        rest = earlier;
        let Some(link) = link_keyed(entry, &sought) else {
            continue;
        };
        match link.role {
            Role::Begins => return Some(link.key),
            Role::Corrects(reference) => sought = reference,
            Role::Busts(_) => return None,
        }
    }
    None
}

/// The number of the Bust of the chain of a root.
pub fn bust_of(list: &[Entry], root: &ExecKey) -> Option<u64>
    ensures { result ≡ bust_in (links_of list.now) root.now }
{
    let mut rest = list;
    while let Some((entry, earlier)) = rest.split_last() {
        if let Some(link) = entry.link() {
            if is_bust(earlier, &link, root) {
                return Some(link.number);
            }
        }
        rest = earlier;
    }
    None
}

/// The number of the last version of the chain of a root, busted or not.
pub fn current(list: &[Entry], root: &ExecKey) -> Option<u64>
    ensures { result ≡ current_in (links_of list.now) root.now }
{
    let mut rest = list;
    while let Some((entry, earlier)) = rest.split_last() {
        if let Some(link) = entry.link() {
            if is_version(earlier, &link, root) {
                return Some(link.number);
            }
        }
        rest = earlier;
    }
    None
}

// An entry's link, if it is one and takes up this key.
fn link_keyed(entry: &Entry, key: &ExecKey) -> Option<Link>
    ensures { result ≡ link_keyed key.now (link_of entry.now) }
{
    match entry.link() {
        Some(link) if link.key == *key => Some(link),
        _ => None,
    }
}

// Whether a link after these entries is a Bust of the chain of a root.
fn is_bust(earlier: &[Entry], link: &Link, root: &ExecKey) -> bool
    ensures { result ≡ busts (links_of earlier.now) root.now link.now.role }
{
    match link.role {
        Role::Begins | Role::Corrects(_) => false,
        Role::Busts(reference) => is_same(root, root_of(earlier, &reference)),
    }
}

// Whether a link after these entries brings a version to the chain of a root.
fn is_version(earlier: &[Entry], link: &Link, root: &ExecKey) -> bool
    ensures { result ≡ is_version earlier.now root.now link.now }
{
    match link.role {
        Role::Begins => link.key == *root,
        Role::Corrects(reference) => is_same(root, root_of(earlier, &reference)),
        Role::Busts(_) => false,
    }
}

// Whether there is a root, and it is this one.
fn is_same(root: &ExecKey, found: Option<ExecKey>) -> bool
    ensures { result ≡ is_root root.now found }
{
    match found {
        None => false,
        Some(found) => found == *root,
    }
}
