//! A link with the root of its chain.
ghost use Rattle.std.specs.Prelude.{◌≡◌, IfOk, IsTrue};
ghost use Rattle.blot_types.specs.declared.link.Role.TheVariants.{Begins};
ghost use Rattle.blot_types.specs.Chains.{refers_to, brings_version};
ghost use Rattle.blot_chain.specs.Cells.{relation_in_chain};
ghost use Rattle.blot_chain.specs.ChainLinks.{kept_root};
ghost use Rattle.blot_chain.specs.RootedLink.{begun, rooted};

use crate::cell::Relation;
use blot_places::GhostValue;
use blot_types::{ExecKey, Numbered, Role};
use std::alloc::{AllocError as NoMemory, Global};
use std::marker::Model;

/// A link with the root of the chain that it begins, corrects or busts. Its key stands in the key's cell, of which it has the place.
/// A Trade refers to nothing, and its root is its own key; what the others have besides is on the heap. A contract sees it whole.
#[derive(Drop)]
pub(crate) struct ChainLink {
    number: u64,
    place: usize,
    origin: Option<Box<Origin>>,
    key: GhostValue<ExecKey>,
}

// What a link does that refers to another, and the root of the other's chain.
#[derive(Clone, Copy)]
struct Origin {
    role: Role,
    root: ExecKey,
}

impl Model for ChainLink {
    ghost use Rattle.std.specs.Option.{option_map_or};
    ghost use Rattle.blot_types.specs.declared.link.Role.TheVariants.{Begins};
    ghost use Rattle.blot_chain.specs.RootedLink.{RootedLink, rooted};

    ghost Value = { RootedLink };

    ghost view = { λ item. rooted item.number item.key.value (option_map_or (λ origin. origin.value.role) item.origin Begins)
        (option_map_or (λ origin. origin.value.root) item.origin item.key.value) item.place };
}

impl ChainLink {
    /// A link whose key has its cell at a place. That of a Trade takes no memory, since its root is its own key. Out of memory is the
    /// only error.
    pub(crate) fn new(
        alloc: Global,
        number: u64,
        key: &ExecKey,
        role: Role,
        root: &ExecKey,
        place: usize,
    ) -> Result<ChainLink, NoMemory>
        requires begins { role ≡ Begins → root.now ≡ key.now }
        ensures { IfOk result (λ item. item ≡ rooted number key.now role root.now place) }
    {
        let origin = match role {
            Role::Begins => None,
            Role::Corrects(_) | Role::Busts(_) => {
                Some(Box::new(alloc, Origin { role, root: *root })?)
            }
        };
        Ok(ChainLink {
            number,
            place,
            origin,
            key: GhostValue::of(key),
        })
    }

    /// The place of its key's cell.
    pub(crate) fn place(&self) -> usize
        ensures { result ≡ self.now.place }
    {
        self.place
    }

    /// Whether the link begins its chain, so that the root is its own key.
    pub(crate) fn begins(&self) -> bool
        ensures { IsTrue result → self.now ≡ begun self.now.link.number self.now.link.key self.now.place }
    {
        self.origin.is_none()
    }

    /// What the link is to the key of its root, if that isn't its own.
    pub(crate) fn relation_in_chain(&self) -> Relation
        ensures { result ≡ relation_in_chain self.now.link.role }
    {
        match &self.origin {
            Some(origin) => relation_in_chain(&origin.role),
            None => Relation::Version,
        }
    }

    /// Whether the link brings a version to its chain: a Trade's and a Correct's do.
    pub(crate) fn is_version(&self) -> bool
        ensures { result ≡ brings_version self.now.link.role }
    {
        match &self.origin {
            Some(origin) => brings_version(&origin.role),
            None => true,
        }
    }

    /// Whether the link refers to a key.
    pub(crate) fn refers_to(&self, key: &ExecKey) -> bool
        ensures { result ≡ refers_to key.now self.now.link.role }
    {
        match &self.origin {
            Some(origin) => refers_to(key, &origin.role),
            None => false,
        }
    }

    /// The root of its chain, where the link has this key.
    pub(crate) fn root<'a>(&'a self, key: &'a ExecKey) -> &'a ExecKey
        requires { key.now ≡ self.now.link.key }
        ensures { result.now ≡ self.now.root }
    {
        match &self.origin {
            Some(origin) => &origin.root,
            None => key,
        }
    }

    /// The root of the link's own key, which is this. The key of a Bust has none.
    pub(crate) fn own_root(&self, key: &ExecKey) -> Option<ExecKey>
        requires { key.now ≡ self.now.link.key }
        ensures { result ≡ kept_root self.now }
    {
        if self.is_version() {
            Some(*self.root(key))
        } else {
            None
        }
    }
}

impl Numbered for ChainLink {
    ghost use Rattle.blot_chain.specs.ChainLinks.{link_number};

    ghost number_of = { link_number };

    fn number(&self) -> u64 {
        self.number
    }
}

// Whether a link of this role brings a version to its chain.
fn brings_version(role: &Role) -> bool
    ensures { result ≡ brings_version role.now }
{
    match role {
        Role::Begins | Role::Corrects(_) => true,
        Role::Busts(_) => false,
    }
}

// What a link of this role is to the key of its root, if that isn't its own.
fn relation_in_chain(role: &Role) -> Relation
    ensures { result ≡ relation_in_chain role.now }
{
    match role {
        Role::Begins | Role::Corrects(_) => Relation::Version,
        Role::Busts(_) => Relation::Bust,
    }
}

// Whether a link of this role refers to a key.
fn refers_to(key: &ExecKey, role: &Role) -> bool
    ensures { result ≡ refers_to key.now role.now }
{
    match role {
        Role::Begins => false,
        Role::Corrects(reference) | Role::Busts(reference) => *reference == *key,
    }
}
