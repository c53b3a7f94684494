//! The rest of an extensible SEQUENCE: elements of one type up to the end of its contents (X.680, 25 and 52).
ghost use Rattle.std.specs.Prelude.{◌≡◌, [], None, true, false};
ghost use Rattle.std.specs.List.{AllByRecursion};
ghost use Rattle.yasna_base.specs.Exact.{elements_fit};
ghost use Rattle.yasna_base.specs.Pieces.{Each};
ghost use Rattle.yasna_base.specs.SequenceOf.{ElementsOf, AnyElements, elements_encoding, elements_depth};
ghost use Rattle.yasna_writer.specs.Prepend.{Prepends, KnownLength};
ghost use Rattle.yasna_writer.specs.View.{WroteParts};
ghost use Rattle.yasna_notation_types.specs.Rest.{rest_laws, rest_written};

use std::marker::PhantomData;
use yasna_base::{ASN1Result, BERMode};
use yasna_notation::{
    CanonicalNotation, CanonicalParts, Notation, Parts, PartsBy, items_len, prepend_items,
    write_items,
};
use yasna_reader::BERReaderSeq;
use yasna_writer::{DERWriterSeq, PrependBuffer};

/// Any number of values of `N`, up to the end of a SEQUENCE: `(i64, Rest<TaggedDerValue>)` of `SEQUENCE { INTEGER, ... }`.
///
/// All parts before it have to be mandatory. If some may be omitted, `Others` follows them.
pub struct Rest<N> {
    of: PhantomData<N>,
}

impl<N: Notation> Parts for Rest<N> {
    type Values = Vec<N::Value>;

    type Inner = N::Inner;

    ghost tags_known = { false };

    ghost tags = { [] };

    ghost unambiguous = { N.unambiguous };

    ghost parts = { λ m n v c. ElementsOf (N.means.under None) m n v.items c };

    ghost any_parts = { AnyElements (N.means.any_under None) };

    ghost may_allocate = { true };

    ghost same = { λ v w. Each N.means.same v.items w.items };

    ghost encoding = { λ m v. elements_encoding (N.means.encoding_under None) m v.items };

    ghost depth = { λ m v. elements_depth N.means.depth m v.items };

    ghost can = { λ v. AllByRecursion N.means.can v.items };

    ghost fits = { λ m n v. elements_fit N.means.fits m n v.items };

    #[inline(always)]
    fn read_parts(seq: &mut BERReaderSeq) -> ASN1Result<Vec<N::Value>> {
        seq.collect_rest(|item| N::read(item))
    }

    #[inline(always)]
    fn write_parts(values: &Vec<N::Value>, seq: &mut DERWriterSeq) -> ASN1Result<()> {
        write_items::<N>(values.as_slice(), seq)
    }

    #[inline(always)]
    fn prepend_parts(values: &Vec<N::Value>, out: &mut PrependBuffer) -> ASN1Result<()> {
        prepend_items::<N>(values.as_slice(), out)
    }

    #[inline(always)]
    fn parts_len(values: &Vec<N::Value>, mode: BERMode) -> Option<usize> {
        items_len::<N>(values.as_slice(), mode)
    }

    ghost laws = { λ a. rest_laws (N.lawful a).own };
}

impl<'a, N: Notation> PartsBy<&'a Vec<N::Value>> for Rest<N> {
    type Held = Vec<N::Value>;

    ghost held = { λ r. r.now };

    ghost encoding_by = { λ m v. elements_encoding (N.means.encoding_under None) m v.items };

    ghost can_by = { λ v. AllByRecursion N.means.can v.items };

    #[inline(always)]
    fn write_each(fields: &&'a Vec<N::Value>, seq: &mut DERWriterSeq) -> ASN1Result<()> {
        write_items::<N>(fields.as_slice(), seq)
    }

    #[inline(always)]
    fn prepend_each(fields: &&'a Vec<N::Value>, out: &mut PrependBuffer) -> ASN1Result<()> {
        prepend_items::<N>(fields.as_slice(), out)
    }

    #[inline(always)]
    fn each_len(fields: &&'a Vec<N::Value>, mode: BERMode) -> Option<usize> {
        items_len::<N>(fields.as_slice(), mode)
    }
}

impl<N: CanonicalNotation> CanonicalParts for Rest<N> {
    ghost written = { λ a. rest_written (N.written a).own };
}
