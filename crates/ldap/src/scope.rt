//! How deep a search goes (RFC 4511, 4.5.1.2).
//!
//! ```text
//! ENUMERATED { baseObject(0), singleLevel(1), wholeSubtree(2), ... }
//! ```
ghost use Rattle.yasna_notation.specs.Bounded.{from_zero};
ghost use Rattle.ldap.specs.Scopes.{scope_number, scope_allowed, scope_writable};

use yasna_notation_types::Numbered;

/// How deep a search goes.
///
/// `Other` of a number that has a name is equal to the variant of this name, and is written and read as it.
#[derive(Clone, Copy, Debug, PartialEq, Eq)]
pub enum Scope {
    /// Only the entry where the search begins.
    BaseObject,
    /// The entries directly below it.
    SingleLevel,
    /// It and all below it.
    WholeSubtree,
    /// A number that the module doesn't name, never negative.
    Other(i64),
}

impl Numbered for Scope {
    ghost number_of = { scope_number };

    ghost named = { from_zero };

    ghost allowed = { scope_allowed };

    fn number(&self) -> i64 {
        match self {
            Scope::BaseObject => 0,
            Scope::SingleLevel => 1,
            Scope::WholeSubtree => 2,
            Scope::Other(number) => *number,
        }
    }

    fn from_number(number: i64) -> Option<Scope> {
        match number {
            0 => Some(Scope::BaseObject),
            1 => Some(Scope::SingleLevel),
            2 => Some(Scope::WholeSubtree),
            _ if number >= 0 => Some(Scope::Other(number)),
            _ => None,
        }
    }

    ghost writable = { scope_writable };
}
