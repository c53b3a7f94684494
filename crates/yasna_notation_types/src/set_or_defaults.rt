//! Parts of a SET whose value is `None` for their DEFAULT (X.690, 8.11.3 and 11.5).
ghost use Rattle.std.specs.Prelude.{◌≡◌, ◌++◌, ◌&&◌, None};
ghost use Rattle.yasna_base.specs.Beginnings.{share_none};
ghost use Rattle.yasna_base.specs.Choice.{AnyEither};
ghost use Rattle.yasna_notation_constraints.specs.OrDefault.{accepted_by};
ghost use Rattle.yasna_notation_constraints.specs.TestedDefaults.{some_passes};
ghost use Rattle.yasna_notation_types.specs.SetParts.{OrDefaultPick, tags_precede, set_or_default_laws};

use crate::set_part::SetPart;
use crate::set_parts::SetParts;
use yasna_base::{ASN1Error, ASN1ErrorKind, ASN1Result, BERMode};
use yasna_notation::Notation;
use yasna_notation_constraints::{OrDefault, TestedDefault, is_some_default};
use yasna_reader::BERReaderSet;

// Whether a mode accepts what was found: DER and CER reject the default.
fn accepts<A: Notation, D: TestedDefault<A>>(mode: BERMode, found: &Option<A::Value>) -> bool
    ensures { result ≡ accepted_by (some_passes D.is) mode found.now }
{
    match mode {
        BERMode::Ber => true,
        BERMode::Der => !is_some_default::<A, D>(found),
        BERMode::Cer => !is_some_default::<A, D>(found),
    }
}

impl<A: SetPart, D: TestedDefault<A>, W: SetParts> SetParts for OrDefault<A, D, W> {
    ghost set_tags = { A.means.tags ++ W.set_tags };

    ghost members = { AnyEither (A.means.any_under None) W.members };

    ghost picks = { OrDefaultPick D.is (A.means.under None) W.picks };

    ghost set_unambiguous = { (tags_precede A.means.tags W.set_tags && (share_none A.means.tags W.set_tags && (A.unambiguous && W.set_unambiguous))) };

    #[inline(always)]
    fn read_set_parts(set: &mut BERReaderSet) -> ASN1Result<(Option<A::Value>, W::Values)> {
        let found = match A::read_chosen(set) {
            Ok(found) => found,
            Err(error) => return Err(error),
        };
        if !accepts::<A, D>(set.mode(), &found) {
            return Err(ASN1Error::new(ASN1ErrorKind::Invalid));
        }
        let others = match W::read_set_parts(set) {
            Ok(others) => others,
            Err(error) => return Err(error),
        };
        Ok((found, others))
    }

    ghost set_laws = { λ a. set_or_default_laws A.is_known (λ b. (A.lawful b).own) W.set_laws a D.is D.one };
}
