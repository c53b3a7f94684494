//! Which aliases a search follows (RFC 4511, 4.5.1.3).
//!
//! ```text
//! ENUMERATED {
//!     neverDerefAliases(0), derefInSearching(1), derefFindingBaseObj(2), derefAlways(3) }
//! ```
//!
//! The module implies that it is extensible (RFC 4511, 4).
ghost use Rattle.yasna_notation.specs.Bounded.{from_zero};
ghost use Rattle.ldap.specs.Aliases.{aliases_number, aliases_allowed, aliases_writable};

use yasna_notation_types::Numbered;

/// Which aliases a search follows.
///
/// `Other` of a number that has a name is equal to the variant of this name, and is written and read as it.
#[derive(Clone, Copy, Debug, PartialEq, Eq)]
pub enum DerefAliases {
    NeverDerefAliases,
    /// Those below the entry where the search begins.
    DerefInSearching,
    /// Those that name this entry.
    DerefFindingBaseObj,
    DerefAlways,
    /// A number that the module doesn't name, never negative.
    Other(i64),
}

impl Numbered for DerefAliases {
    ghost number_of = { aliases_number };

    ghost named = { from_zero };

    ghost allowed = { aliases_allowed };

    fn number(&self) -> i64 {
        match self {
            DerefAliases::NeverDerefAliases => 0,
            DerefAliases::DerefInSearching => 1,
            DerefAliases::DerefFindingBaseObj => 2,
            DerefAliases::DerefAlways => 3,
            DerefAliases::Other(number) => *number,
        }
    }

    fn from_number(number: i64) -> Option<DerefAliases> {
        match number {
            0 => Some(DerefAliases::NeverDerefAliases),
            1 => Some(DerefAliases::DerefInSearching),
            2 => Some(DerefAliases::DerefFindingBaseObj),
            3 => Some(DerefAliases::DerefAlways),
            _ if number >= 0 => Some(DerefAliases::Other(number)),
            _ => None,
        }
    }

    ghost writable = { aliases_writable };
}
