//! Object identifiers (X.690, 8.19).
ghost use Rattle.std.specs.Prelude.{◌≡◌, ◌<◌, IfOk, IfErr, IsTrue, ◌↔◌, length, nat_eq};
ghost use Rattle.std.specs.Ordering.{nat_cmp, as_partial_cmp};
ghost use Rattle.std.specs.Cmp.Lexicographic.{slice_cmp, pointwise};
ghost use Rattle.std.specs.Cmp.Rules.{comparing, hashing};
ghost use Rattle.std.specs.Cmp.{partial_order_from_own_ties};
ghost use Rattle.std.specs.Hash as fed;
ghost use Rattle.std.proofs.Common.{rules};
ghost use Rattle.yasna_base.specs.Oid.{AreFirstTwo, IsEncodableOid};

use std::alloc::{AllocError, Global};
use std::cmp::Ordering;
use std::convert::AsSlice;
use std::hash::{Hash, Hasher};
use std::marker::Model;

/// An object identifier: its components, the root first.
///
/// Any components may be in one; `is_encodable` says whether they have an encoding. Identifiers are compared and
/// hashed as the lists of their components.
#[derive(Debug, Drop)]
pub struct ObjectIdentifier {
    components: Vec<u64>,
}

// Whether these are the first two components of an identifier that has an encoding.
fn are_first_two(first: u64, second: u64) -> bool
    ensures { IsTrue result ↔ AreFirstTwo first second }
{
    match first {
        0 | 1 => second < 40,
        2 => second <= 18446744073709551535,
        _ => false,
    }
}

// Whether an identifier with these components has an encoding.
fn are_encodable(components: &[u64]) -> bool
    ensures { IsTrue result ↔ IsEncodableOid components.now }
{
    match components {
        [first, second, ..] => are_first_two(*first, *second),
        _ => false,
    }
}

impl Model for ObjectIdentifier {
    ghost use Rattle.std.specs.Prelude.{List, ℕ};

    ghost Value = { List ℕ };

    ghost view = { λ o. o.components.items };
}

impl ObjectIdentifier {
    ghost use Rattle.std.specs.Borrow.{sem};
    ghost use Rattle.yasna_base.specs.Lending.{LendsComponents};

    /// The identifier with these components.
    pub fn new(components: Vec<u64>) -> ObjectIdentifier
        ensures { result ≡ components.items }
    {
        ObjectIdentifier { components }
    }

    /// The identifier with a copy of these components. Without components it doesn't allocate.
    pub fn from_slice(alloc: Global, components: &[u64]) -> Result<ObjectIdentifier, AllocError>
        ensures copy { IfOk result (λ oid. oid ≡ components.now) }
        ensures memory { IfErr result (λ _. 0 < length components.now) }
    {
        let mut copy = Vec::with_capacity(alloc, components.len())?;
        copy.extend_from_slice(components)?;
        Ok(ObjectIdentifier { components: copy })
    }

    /// A copy of the identifier. Without components it doesn't allocate.
    pub fn clone(&self) -> Result<ObjectIdentifier, AllocError>
        ensures copy { IfOk result (λ oid. oid ≡ self.now) }
        ensures memory { IfErr result (λ _. 0 < length self.now) }
    {
        ObjectIdentifier::from_slice(*self.components.allocator(), self.components.as_slice())
    }

    /// The components.
    pub fn components(&self) -> &Vec<u64>
        ensures { result.now.items ≡ self.now }
    {
        &self.components
    }

    /// The components, mutable.
    pub fn components_mut(&mut self) -> &mut Vec<u64>
        ensures* lends { sem 𝓛 (LendsComponents self.entry result) }
        ensures value { result.now.items ≡ self.old }
    {
        &mut self.components
    }

    /// The components, moved out.
    pub fn into_components(self) -> Vec<u64>
        ensures { result.items ≡ self }
    {
        let ObjectIdentifier { components } = self;
        components
    }

    /// Whether there is an encoding: of two components at least, the first is 0, 1 or 2, and the second below 40, or where
    /// the first is 2 at most 18446744073709551535 (X.690, 8.19.4).
    pub fn is_encodable(&self) -> bool
        ensures { IsTrue result ↔ IsEncodableOid self.now }
    {
        are_encodable(&self.components)
    }
}

impl From<Vec<u64>> for ObjectIdentifier {
    ghost from_gives = { λ v o. o ≡ v.items };

    fn from(components: Vec<u64>) -> ObjectIdentifier {
        ObjectIdentifier::new(components)
    }
}

impl AsSlice<u64> for ObjectIdentifier {
    ghost items = { λ o. o };

    fn as_slice(&self) -> &[u64] {
        self.components.as_slice()
    }
}

impl PartialEq for ObjectIdentifier {
    ghost eq = { pointwise nat_eq };

    ghost laws = { Prim.search (comparing, rules) };

    fn eq(&self, other: &ObjectIdentifier) -> bool {
        self.components == other.components
    }
}

impl Eq for ObjectIdentifier {
    ghost laws = { Prim.search (comparing, rules) };
}

impl PartialOrd for ObjectIdentifier {
    ghost partial_cmp = { as_partial_cmp (slice_cmp nat_cmp) };

    ghost laws = { partial_order_from_own_ties (Prim.search (comparing, rules)) (Prim.search (comparing, rules)) };

    fn partial_cmp(&self, other: &ObjectIdentifier) -> Option<Ordering> {
        Some(self.cmp(other))
    }
}

impl Ord for ObjectIdentifier {
    ghost cmp = { slice_cmp nat_cmp };

    ghost total = { Prim.search (comparing, rules) };

    ghost matches_partial_cmp = { Prim.search (comparing, rules) };

    ghost matches_eq = { Prim.search (comparing, rules) };

    fn cmp(&self, other: &ObjectIdentifier) -> Ordering {
        self.components.cmp(&other.components)
    }
}

impl Hash for ObjectIdentifier {
    ghost hash_input = { fed.slice fed.u64 };

    ghost respects_eq = { Prim.search (hashing, rules) };

    fn hash<H: Hasher>(&self, state: &mut H) {
        self.components.hash(state)
    }
}
