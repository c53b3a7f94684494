//! Parts of a SET with a DEFAULT (X.690, 8.11.3 and 11.5).
ghost use Rattle.std.specs.Prelude.{◌≡◌, ◌++◌, ◌&&◌, Some, None, if◌then◌else◌};
ghost use Rattle.yasna_base.specs.Beginnings.{share_none};
ghost use Rattle.yasna_base.specs.Choice.{AnyEither};
ghost use Rattle.yasna_notation_types.specs.SetParts.{DefaultPick, tags_precede, set_default_laws};
ghost use Rattle.yasna_notation_types.specs.SetReading.{value_or_default};

use crate::set_part::SetPart;
use crate::set_parts::SetParts;
use yasna_base::{ASN1Error, ASN1ErrorKind, ASN1Result, BERMode};
use yasna_notation::{Default, DefaultValue, Notation};
use yasna_reader::BERReaderSet;

// The value that was read, unless it is the default.
fn other_than_default<A: Notation, D: DefaultValue<A>>(value: A::Value) -> Option<A::Value>
where
    A::Value: Eq,
    ensures { result ≡ if D.is value then None else Some value }
{
    if value == D::default() {
        None
    } else {
        Some(value)
    }
}

// The value of a part with a default, or `None` if the mode rejects what was found.
fn value_or_default<A: Notation, D: DefaultValue<A>>(
    mode: BERMode,
    found: Option<A::Value>,
) -> Option<A::Value>
where
    A::Value: Eq,
    ensures { result ≡ value_or_default D.is D.default mode found }
{
    match found {
        None => Some(D::default()),
        Some(value) => match mode {
            BERMode::Ber => Some(value),
            BERMode::Der => other_than_default::<A, D>(value),
            BERMode::Cer => other_than_default::<A, D>(value),
        },
    }
}

impl<A: SetPart, D: DefaultValue<A>, W: SetParts> SetParts for (Default<A, D>, W)
where
    A::Value: Eq,
{
    ghost set_tags = { A.means.tags ++ W.set_tags };

    ghost members = { AnyEither (A.means.any_under None) W.members };

    ghost picks = { DefaultPick D.is (A.means.under None) W.picks };

    ghost set_unambiguous = { (tags_precede A.means.tags W.set_tags && (share_none A.means.tags W.set_tags && (A.unambiguous && W.set_unambiguous))) };

    #[inline(always)]
    fn read_set_parts(set: &mut BERReaderSet) -> ASN1Result<(A::Value, W::Values)> {
        let found = match A::read_chosen(set) {
            Ok(found) => found,
            Err(error) => return Err(error),
        };
        let first = match value_or_default::<A, D>(set.mode(), found) {
            Some(first) => first,
            None => return Err(ASN1Error::new(ASN1ErrorKind::Invalid)),
        };
        let others = match W::read_set_parts(set) {
            Ok(others) => others,
            Err(error) => return Err(error),
        };
        Ok((first, others))
    }

    ghost set_laws = { λ a. set_default_laws A.is_known (λ b. (A.lawful b).own) W.set_laws a D.is D.default D.detects };
}
