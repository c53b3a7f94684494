//! A part at the end that may be omitted, of a type whose tags needn't be known (X.690, 8.9.3).
ghost use Rattle.std.specs.Prelude.{◌≡◌, ◌++◌, ◌||◌, [], None, false};
ghost use Rattle.yasna_base.specs.Canonical.{Always};
ghost use Rattle.yasna_base.specs.Exact.{part_fits, nothing_fits, option_fits};
ghost use Rattle.yasna_base.specs.Optional.{OptionOf, AnyOption, SameOption, option_encoding, option_depth, option_can};
ghost use Rattle.yasna_base.specs.Sequence.{PartOf, NoParts, AnyPart, AnyNothing, SamePart, SameNothing, part_encoding, part_depth, part_can, nothing_encoding, nothing_depth};
ghost use Rattle.yasna_writer.specs.View.{WroteParts};
ghost use Rattle.yasna_notation.specs.Parts.{last_part_laws};

use crate::notation::Notation;
use crate::parts::{Parts, PartsBy, optional_len, prepend_optional, write_optional};
use std::marker::PhantomData;
use yasna_base::{ASN1Result, BERMode};
use yasna_reader::BERReaderSeq;
use yasna_writer::{DERWriterSeq, PrependBuffer};

/// `N OPTIONAL` at the end of a SEQUENCE, as `(ObjectIdentifier, Last<TaggedDerValue>)` of an OBJECT IDENTIFIER and an ANY OPTIONAL.
pub struct Last<N> {
    of: PhantomData<N>,
}

impl<A: Notation> Parts for Last<A> {
    type Values = Option<A::Value>;

    type Inner = A::Inner;

    ghost tags_known = { A.means.tags_known };

    ghost tags = { A.means.tags ++ [] };

    ghost unambiguous = { A.unambiguous };

    ghost parts = { λ m n v c. PartOf (OptionOf (A.means.under None)) NoParts m n (v, tt) c };

    ghost any_parts = { AnyPart (AnyOption (A.means.any_under None)) AnyNothing };

    ghost may_allocate = { (A.means.may_allocate || false) };

    ghost same = { λ v w. SamePart (SameOption A.means.same) SameNothing (v, tt) (w, tt) };

    ghost encoding = { λ m v. part_encoding (option_encoding (A.means.encoding_under None)) nothing_encoding m (v, tt) };

    ghost depth = { λ m v. part_depth (option_depth A.means.depth) nothing_depth m (v, tt) };

    ghost can = { λ v. part_can (option_can A.means.can) Always (v, tt {0}) };

    ghost fits = { λ m n v. part_fits (option_fits A.means.fits) nothing_fits m n (v, tt) };

    #[inline(always)]
    fn read_parts(seq: &mut BERReaderSeq) -> ASN1Result<Option<A::Value>> {
        seq.read_optional(|part| A::read(part))
    }

    #[inline(always)]
    fn write_parts(values: &Option<A::Value>, seq: &mut DERWriterSeq) -> ASN1Result<()> {
        write_optional::<A>(values, seq)
    }

    #[inline(always)]
    fn prepend_parts(values: &Option<A::Value>, out: &mut PrependBuffer) -> ASN1Result<()> {
        prepend_optional::<A>(values, out)
    }

    #[inline(always)]
    fn parts_len(values: &Option<A::Value>, mode: BERMode) -> Option<usize> {
        optional_len::<A>(values, mode)
    }

    ghost laws = { λ a. last_part_laws (A.lawful a).own };
}

impl<'a, A: Notation> PartsBy<&'a Option<A::Value>> for Last<A> {
    type Held = Option<A::Value>;

    ghost held = { λ r. r.now };

    ghost encoding_by = { λ m v. part_encoding (option_encoding (A.means.encoding_under None)) nothing_encoding m (v, tt) };

    ghost can_by = { λ v. part_can (option_can A.means.can) Always (v, tt {0}) };

    #[inline(always)]
    fn write_each(fields: &&'a Option<A::Value>, seq: &mut DERWriterSeq) -> ASN1Result<()> {
        write_optional::<A>(*fields, seq)
    }

    #[inline(always)]
    fn prepend_each(fields: &&'a Option<A::Value>, out: &mut PrependBuffer) -> ASN1Result<()> {
        prepend_optional::<A>(*fields, out)
    }

    #[inline(always)]
    fn each_len(fields: &&'a Option<A::Value>, mode: BERMode) -> Option<usize> {
        optional_len::<A>(*fields, mode)
    }
}
