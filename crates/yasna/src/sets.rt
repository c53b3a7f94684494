//! The laws of SET OF values of a type (X.690, 8.12 and 11.6). A closure reads and writes them.
ghost use Rattle.yasna_base.specs.SetWriting.{SetOfKeepsReadingLaws, SetOfSetOfKeepsReadingLaws, SetOfKeepsWritingLaws};

use crate::traits::{BERDecodable, DERCanonical};

/// The laws of a SET OF values of every type that satisfies the laws of reading.
///
/// Under any tag but that of the end of contents, encodings are unambiguous and prefix-free, and what is read within some levels is
/// read within more.
pub fn set_of_is_read<T: BERDecodable>()
    ensures { SetOfKeepsReadingLaws T.same T.encodes T.elements }
{}

/// As `set_of_is_read`, of a SET OF such SETs OF, each under any tag but that of the end of contents.
///
/// Deeper ones satisfy the laws by the lemma `set_of_reading`, of the law of their elements; `laws::sets_of_other_types` of `yasna_base`
/// says so of elements without traits.
pub fn set_of_sets_is_read<T: BERDecodable>()
    ensures { SetOfSetOfKeepsReadingLaws T.same T.encodes T.elements }
{}

/// The laws of a SET OF values of every type that satisfies the laws.
///
/// Under any tag but that of the end of contents, DER and CER read values only in the order of their encodings, and BER reads them
/// from these too. What is written of values in any order is read as the same values in order. What DER or CER read is written again
/// in that mode as the same bytes.
pub fn set_of_is_written<T: DERCanonical>()
    ensures { SetOfKeepsWritingLaws T.same T.encodes T.encoding T.depth T.encodable }
{}
