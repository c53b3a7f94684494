//! The texts of object identifiers: their components in decimal, joined by dots.
ghost use Rattle.std.specs.Prelude.{◌≡◌, ◌<◌, ◌⊎◌, ℕ, List, [], ◌∷◌, ◌++◌, length, true, false, MatchOption, MatchResult, IfErr};
ghost use Rattle.std.specs.List.{position_or_len, before_first, after_first};
ghost use Rattle.yasna_base.specs.OidText.{BeginsWithComponent, IsComponent, IsOidText, is_dot, ran_out_of_memory};

use crate::models::ObjectIdentifier;
use std::alloc::Global;
use std::error::Error;
use std::fmt;

/// Why a text wasn't read as an object identifier.
#[derive(Clone, Copy, PartialEq, Eq, Debug)]
pub struct ParseOidError {
    out_of_memory: bool,
}

impl ParseOidError {
    // `OutOfMemory`.
    pub(crate) fn out_of_memory_error() -> ParseOidError
        ensures { ran_out_of_memory result ≡ true }
    {
        ParseOidError {
            out_of_memory: true,
        }
    }

    /// Whether memory ran out. Then the text may be that of an object identifier.
    pub fn is_out_of_memory(&self) -> bool
        ensures { result ≡ ran_out_of_memory self.now }
    {
        self.out_of_memory
    }
}

impl fmt::Display for ParseOidError {
    ghost use Rattle.std.specs.Prelude.{Some};
    ghost use Rattle.yasna_base.specs.OidText.{oid_error_text};

    ghost output = { λ e. Some (oid_error_text (ran_out_of_memory e)) };

    fn fmt<W: fmt::Write>(&self, f: &mut fmt::Formatter<W>) -> fmt::Result {
        if self.out_of_memory {
            f.write_str("Out of memory")
        } else {
            f.write_str("Failed to parse OID")
        }
    }
}

impl Error for ParseOidError {}

/// The components in decimal, joined by dots.
impl fmt::Display for ObjectIdentifier {
    ghost use Rattle.std.specs.Prelude.{Some};
    ghost use Rattle.yasna_base.specs.OidText.{oid_text};

    ghost output = { λ o. Some (oid_text o) };

    fn fmt<W: fmt::Write>(&self, f: &mut fmt::Formatter<W>) -> fmt::Result {
        let Some((first, further)) = self.components().split_first() else {
            return Ok(());
        };
        write!(f, "{first}")?;
        for component in further {
            write!(f, ".{component}")?;
        }
        Ok(())
    }
}

// What is before a text's first dot, and after it.
fn cut(text: &str) -> Option<(&str, &str)>
    ensures { MatchOption result (position_or_len is_dot text.now ≡ length text.now) (λ x. (position_or_len is_dot text.now < length text.now) × (x.0.now ≡ before_first is_dot text.now) × (x.1.now ≡ after_first is_dot text.now)) }
{
    text.split_once('.')
}

// The number that a part of a text spells.
fn component(part: &str) -> Option<u64>
    ensures { MatchOption result ((n : ℕ) → IsComponent part.now n → ⊥) (λ n. IsComponent part.now n) }
{
    part.parse::<u64>().ok()
}

// Appends the number that a part of a text spells.
fn push_component(components: &mut Vec<u64>, part: &str) -> Result<(), ParseOidError>
    ensures exact { MatchResult result (λ _. (n : ℕ) × IsComponent part.now n × (components.new.items ≡ components.old.items ++ (n ∷ []))) (λ e. ran_out_of_memory e ≡ false → (n : ℕ) → IsComponent part.now n → ⊥) }
    ensures memory { IfErr result (λ e. ran_out_of_memory e ≡ true → (n : ℕ) × IsComponent part.now n) }
{
    let Some(number) = component(part) else {
        return Err(ParseOidError {
            out_of_memory: false,
        });
    };
    if components.push(number).is_err() {
        return Err(ParseOidError::out_of_memory_error());
    }
    Ok(())
}

impl ObjectIdentifier {
    /// The object identifier whose text this is: its parts between dots are the components.
    ///
    /// A part is one or more digits of value up to 2^64-1, with a plus before them or none. Other texts are rejected. It allocates
    /// only if the first part is such a number.
    pub fn from_str(alloc: Global, text: &str) -> Result<ObjectIdentifier, ParseOidError>
        ensures exact { MatchResult result (λ oid. IsOidText text.now oid) (λ e. ran_out_of_memory e ≡ false → (cs : List ℕ) → IsOidText text.now cs → ⊥) }
        ensures memory { IfErr result (λ e. ran_out_of_memory e ≡ true → BeginsWithComponent text.now) }
    {
        let mut components = Vec::new(alloc);
        let mut rest = text;
        while let Some((part, further)) = cut(rest) {
            if let Err(error) = push_component(&mut components, part) {
                return Err(error);
            }
            rest = further;
        }
        match push_component(&mut components, rest) {
            Ok(()) => Ok(ObjectIdentifier::new(components)),
            Err(error) => Err(error),
        }
    }
}
