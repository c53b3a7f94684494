//! Tuples of one part, and of three to six.
ghost use Rattle.std.specs.Prelude.{false, ◌||◌};
ghost use Rattle.yasna_base.specs.Canonical.{enclosed_encoding, enclosed_depth, Always};
ghost use Rattle.yasna_base.specs.Element.{Enclosed, AnyEnclosed};
ghost use Rattle.yasna_base.specs.Sequence.{sequence_tag, PartOf, NoParts, AnyPart, AnyNothing, SamePart, SameNothing, part_encoding, part_depth, part_can, nothing_encoding, nothing_depth};
ghost use Rattle.yasna_base.proofs.Sequence.{part, no_part, tuple, part_written, no_part_written, tuple_written};

use super::{prepend_tuple, read_tuple, tuple_len, write_tuple};
use crate::traits::{BERDecodable, DERCanonical, DEREncodable};
use yasna_base::error::ASN1Result;
use yasna_base::mode::BERMode;
use yasna_reader::BERReader;
use yasna_writer::{DERWriter, PrependBuffer};

impl<A: BERDecodable> BERDecodable for (A,) {
    ghost encodes = { λ m n v b. Enclosed (PartOf A.encodes NoParts) sequence_tag m n (v.0, tt) b };

    ghost elements = { AnyEnclosed (AnyPart A.elements AnyNothing) sequence_tag };

    ghost may_allocate = { (A.may_allocate || false) };

    ghost same = { λ v w. SamePart A.same SameNothing (v.0, tt) (w.0, tt) };

    #[inline(always)]
    fn decode_ber(reader: BERReader) -> ASN1Result<(A,)> {
        match read_tuple(reader) {
            Ok((a, ())) => Ok((a,)),
            Err(error) => Err(error),
        }
    }

    ghost coding = { tuple (λ v. (v.0, tt)) (part A.coding no_part) };
}

impl<A: DEREncodable> DEREncodable for (A,) {
    ghost encoding = { λ m v. enclosed_encoding (part_encoding A.encoding nothing_encoding) sequence_tag m (v.0, tt) };

    ghost depth = { λ m v. enclosed_depth (part_depth A.depth nothing_depth) m (v.0, tt) };

    ghost encodable = { λ v. part_can A.encodable Always (v.0, tt {0}) };

    fn encode_der(&self, writer: DERWriter<'_>) -> ASN1Result<()> {
        write_tuple(&(&self.0, ()), writer)
    }

    fn prepend_der(&self, out: &mut PrependBuffer) -> ASN1Result<()> {
        prepend_tuple(&(&self.0, ()), out)
    }

    fn encoded_len(&self, mode: BERMode) -> Option<usize> {
        tuple_len(&(&self.0, ()), mode)
    }
}

impl<A: DERCanonical> DERCanonical for (A,) {
    ghost written = { tuple_written (λ v. (v.0, tt)) (part_written A.written no_part_written) };
}

impl<A: BERDecodable, B: BERDecodable, C: BERDecodable> BERDecodable for (A, B, C) {
    ghost encodes = { λ m n v b. Enclosed (PartOf A.encodes (PartOf B.encodes (PartOf C.encodes NoParts))) sequence_tag m n (v.0, (v.1, (v.2, tt))) b };

    ghost elements = { AnyEnclosed (AnyPart A.elements (AnyPart B.elements (AnyPart C.elements AnyNothing))) sequence_tag };

    ghost may_allocate = { (A.may_allocate || (B.may_allocate || (C.may_allocate || false))) };

    ghost same = { λ v w. SamePart A.same (SamePart B.same (SamePart C.same SameNothing)) (v.0, (v.1, (v.2, tt))) (w.0, (w.1, (w.2, tt))) };

    #[inline(always)]
    fn decode_ber(reader: BERReader) -> ASN1Result<(A, B, C)> {
        match read_tuple(reader) {
            Ok((a, (b, (c, ())))) => Ok((a, b, c)),
            Err(error) => Err(error),
        }
    }

    ghost coding = { tuple (λ v. (v.0, (v.1, (v.2, tt)))) (part A.coding (part B.coding (part C.coding no_part))) };
}

impl<A: DEREncodable, B: DEREncodable, C: DEREncodable> DEREncodable for (A, B, C) {
    ghost encoding = { λ m v. enclosed_encoding (part_encoding A.encoding (part_encoding B.encoding (part_encoding C.encoding nothing_encoding))) sequence_tag m (v.0, (v.1, (v.2, tt))) };

    ghost depth = { λ m v. enclosed_depth (part_depth A.depth (part_depth B.depth (part_depth C.depth nothing_depth))) m (v.0, (v.1, (v.2, tt))) };

    ghost encodable = { λ v. part_can A.encodable (part_can B.encodable (part_can C.encodable Always)) (v.0, (v.1, (v.2, tt {0}))) };

    fn encode_der(&self, writer: DERWriter<'_>) -> ASN1Result<()> {
        write_tuple(&(&self.0, (&self.1, (&self.2, ()))), writer)
    }

    fn prepend_der(&self, out: &mut PrependBuffer) -> ASN1Result<()> {
        prepend_tuple(&(&self.0, (&self.1, (&self.2, ()))), out)
    }

    fn encoded_len(&self, mode: BERMode) -> Option<usize> {
        tuple_len(&(&self.0, (&self.1, (&self.2, ()))), mode)
    }
}

impl<A: DERCanonical, B: DERCanonical, C: DERCanonical> DERCanonical for (A, B, C) {
    ghost written = { tuple_written (λ v. (v.0, (v.1, (v.2, tt)))) (part_written A.written (part_written B.written (part_written C.written no_part_written))) };
}

impl<A: BERDecodable, B: BERDecodable, C: BERDecodable, D: BERDecodable> BERDecodable
    for (A, B, C, D) {
    ghost encodes = { λ m n v b. Enclosed (PartOf A.encodes (PartOf B.encodes (PartOf C.encodes (PartOf D.encodes NoParts)))) sequence_tag m n (v.0, (v.1, (v.2, (v.3, tt)))) b };

    ghost elements = { AnyEnclosed (AnyPart A.elements (AnyPart B.elements (AnyPart C.elements (AnyPart D.elements AnyNothing)))) sequence_tag };

    ghost may_allocate = { (A.may_allocate || (B.may_allocate || (C.may_allocate || (D.may_allocate || false)))) };

    ghost same = { λ v w. SamePart A.same (SamePart B.same (SamePart C.same (SamePart D.same SameNothing))) (v.0, (v.1, (v.2, (v.3, tt)))) (w.0, (w.1, (w.2, (w.3, tt)))) };

    #[inline(always)]
    fn decode_ber(reader: BERReader) -> ASN1Result<(A, B, C, D)> {
        match read_tuple(reader) {
            Ok((a, (b, (c, (d, ()))))) => Ok((a, b, c, d)),
            Err(error) => Err(error),
        }
    }

    ghost coding = { tuple (λ v. (v.0, (v.1, (v.2, (v.3, tt))))) (part A.coding (part B.coding (part C.coding (part D.coding no_part)))) };
}

impl<A: DEREncodable, B: DEREncodable, C: DEREncodable, D: DEREncodable> DEREncodable
    for (A, B, C, D) {
    ghost encoding = { λ m v. enclosed_encoding (part_encoding A.encoding (part_encoding B.encoding (part_encoding C.encoding (part_encoding D.encoding nothing_encoding)))) sequence_tag m (v.0, (v.1, (v.2, (v.3, tt)))) };

    ghost depth = { λ m v. enclosed_depth (part_depth A.depth (part_depth B.depth (part_depth C.depth (part_depth D.depth nothing_depth)))) m (v.0, (v.1, (v.2, (v.3, tt)))) };

    ghost encodable = { λ v. part_can A.encodable (part_can B.encodable (part_can C.encodable (part_can D.encodable Always))) (v.0, (v.1, (v.2, (v.3, tt {0})))) };

    fn encode_der(&self, writer: DERWriter<'_>) -> ASN1Result<()> {
        write_tuple(&(&self.0, (&self.1, (&self.2, (&self.3, ())))), writer)
    }

    fn prepend_der(&self, out: &mut PrependBuffer) -> ASN1Result<()> {
        prepend_tuple(&(&self.0, (&self.1, (&self.2, (&self.3, ())))), out)
    }

    fn encoded_len(&self, mode: BERMode) -> Option<usize> {
        tuple_len(&(&self.0, (&self.1, (&self.2, (&self.3, ())))), mode)
    }
}

impl<A: DERCanonical, B: DERCanonical, C: DERCanonical, D: DERCanonical> DERCanonical
    for (A, B, C, D) {
    ghost written = { tuple_written (λ v. (v.0, (v.1, (v.2, (v.3, tt))))) (part_written A.written (part_written B.written (part_written C.written (part_written D.written no_part_written)))) };
}

impl<
    A: BERDecodable,
    B: BERDecodable,
    C: BERDecodable,
    D: BERDecodable,
    E: BERDecodable,
> BERDecodable for (A, B, C, D, E) {
    ghost encodes = { λ m n v b. Enclosed (PartOf A.encodes (PartOf B.encodes (PartOf C.encodes (PartOf D.encodes (PartOf E.encodes NoParts))))) sequence_tag m n (v.0, (v.1, (v.2, (v.3, (v.4, tt))))) b };

    ghost elements = { AnyEnclosed (AnyPart A.elements (AnyPart B.elements (AnyPart C.elements (AnyPart D.elements (AnyPart E.elements AnyNothing))))) sequence_tag };

    ghost may_allocate = { (A.may_allocate || (B.may_allocate || (C.may_allocate || (D.may_allocate || (E.may_allocate || false))))) };

    ghost same = { λ v w. SamePart A.same (SamePart B.same (SamePart C.same (SamePart D.same (SamePart E.same SameNothing)))) (v.0, (v.1, (v.2, (v.3, (v.4, tt))))) (w.0, (w.1, (w.2, (w.3, (w.4, tt))))) };

    #[inline(always)]
    fn decode_ber(reader: BERReader) -> ASN1Result<(A, B, C, D, E)> {
        match read_tuple(reader) {
            Ok((a, (b, (c, (d, (e, ())))))) => Ok((a, b, c, d, e)),
            Err(error) => Err(error),
        }
    }

    ghost coding = { tuple (λ v. (v.0, (v.1, (v.2, (v.3, (v.4, tt)))))) (part A.coding (part B.coding (part C.coding (part D.coding (part E.coding no_part))))) };
}

impl<
    A: DEREncodable,
    B: DEREncodable,
    C: DEREncodable,
    D: DEREncodable,
    E: DEREncodable,
> DEREncodable for (A, B, C, D, E) {
    ghost encoding = { λ m v. enclosed_encoding (part_encoding A.encoding (part_encoding B.encoding (part_encoding C.encoding (part_encoding D.encoding (part_encoding E.encoding nothing_encoding))))) sequence_tag m (v.0, (v.1, (v.2, (v.3, (v.4, tt))))) };

    ghost depth = { λ m v. enclosed_depth (part_depth A.depth (part_depth B.depth (part_depth C.depth (part_depth D.depth (part_depth E.depth nothing_depth))))) m (v.0, (v.1, (v.2, (v.3, (v.4, tt))))) };

    ghost encodable = { λ v. part_can A.encodable (part_can B.encodable (part_can C.encodable (part_can D.encodable (part_can E.encodable Always)))) (v.0, (v.1, (v.2, (v.3, (v.4, tt {0}))))) };

    fn encode_der(&self, writer: DERWriter<'_>) -> ASN1Result<()> {
        write_tuple(
            &(&self.0, (&self.1, (&self.2, (&self.3, (&self.4, ()))))),
            writer,
        )
    }

    fn prepend_der(&self, out: &mut PrependBuffer) -> ASN1Result<()> {
        prepend_tuple(
            &(&self.0, (&self.1, (&self.2, (&self.3, (&self.4, ()))))),
            out,
        )
    }

    fn encoded_len(&self, mode: BERMode) -> Option<usize> {
        tuple_len(
            &(&self.0, (&self.1, (&self.2, (&self.3, (&self.4, ()))))),
            mode,
        )
    }
}

impl<
    A: DERCanonical,
    B: DERCanonical,
    C: DERCanonical,
    D: DERCanonical,
    E: DERCanonical,
> DERCanonical for (A, B, C, D, E) {
    ghost written = { tuple_written (λ v. (v.0, (v.1, (v.2, (v.3, (v.4, tt)))))) (part_written A.written (part_written B.written (part_written C.written (part_written D.written (part_written E.written no_part_written))))) };
}

impl<
    A: BERDecodable,
    B: BERDecodable,
    C: BERDecodable,
    D: BERDecodable,
    E: BERDecodable,
    F: BERDecodable,
> BERDecodable for (A, B, C, D, E, F) {
    ghost encodes = { λ m n v b. Enclosed (PartOf A.encodes (PartOf B.encodes (PartOf C.encodes (PartOf D.encodes (PartOf E.encodes (PartOf F.encodes NoParts)))))) sequence_tag m n (v.0, (v.1, (v.2, (v.3, (v.4, (v.5, tt)))))) b };

    ghost elements = { AnyEnclosed (AnyPart A.elements (AnyPart B.elements (AnyPart C.elements (AnyPart D.elements (AnyPart E.elements (AnyPart F.elements AnyNothing)))))) sequence_tag };

    ghost may_allocate = { (A.may_allocate || (B.may_allocate || (C.may_allocate || (D.may_allocate || (E.may_allocate || (F.may_allocate || false)))))) };

    ghost same = { λ v w. SamePart A.same (SamePart B.same (SamePart C.same (SamePart D.same (SamePart E.same (SamePart F.same SameNothing))))) (v.0, (v.1, (v.2, (v.3, (v.4, (v.5, tt)))))) (w.0, (w.1, (w.2, (w.3, (w.4, (w.5, tt)))))) };

    #[inline(always)]
    fn decode_ber(reader: BERReader) -> ASN1Result<(A, B, C, D, E, F)> {
        match read_tuple(reader) {
            Ok((a, (b, (c, (d, (e, (f, ()))))))) => Ok((a, b, c, d, e, f)),
            Err(error) => Err(error),
        }
    }

    ghost coding = { tuple (λ v. (v.0, (v.1, (v.2, (v.3, (v.4, (v.5, tt))))))) (part A.coding (part B.coding (part C.coding (part D.coding (part E.coding (part F.coding no_part)))))) };
}

impl<
    A: DEREncodable,
    B: DEREncodable,
    C: DEREncodable,
    D: DEREncodable,
    E: DEREncodable,
    F: DEREncodable,
> DEREncodable for (A, B, C, D, E, F) {
    ghost encoding = { λ m v. enclosed_encoding (part_encoding A.encoding (part_encoding B.encoding (part_encoding C.encoding (part_encoding D.encoding (part_encoding E.encoding (part_encoding F.encoding nothing_encoding)))))) sequence_tag m (v.0, (v.1, (v.2, (v.3, (v.4, (v.5, tt)))))) };

    ghost depth = { λ m v. enclosed_depth (part_depth A.depth (part_depth B.depth (part_depth C.depth (part_depth D.depth (part_depth E.depth (part_depth F.depth nothing_depth)))))) m (v.0, (v.1, (v.2, (v.3, (v.4, (v.5, tt)))))) };

    ghost encodable = { λ v. part_can A.encodable (part_can B.encodable (part_can C.encodable (part_can D.encodable (part_can E.encodable (part_can F.encodable Always))))) (v.0, (v.1, (v.2, (v.3, (v.4, (v.5, tt {0})))))) };

    fn encode_der(&self, writer: DERWriter<'_>) -> ASN1Result<()> {
        write_tuple(
            &(
                &self.0,
                (&self.1, (&self.2, (&self.3, (&self.4, (&self.5, ()))))),
            ),
            writer,
        )
    }

    fn prepend_der(&self, out: &mut PrependBuffer) -> ASN1Result<()> {
        prepend_tuple(
            &(
                &self.0,
                (&self.1, (&self.2, (&self.3, (&self.4, (&self.5, ()))))),
            ),
            out,
        )
    }

    fn encoded_len(&self, mode: BERMode) -> Option<usize> {
        tuple_len(
            &(
                &self.0,
                (&self.1, (&self.2, (&self.3, (&self.4, (&self.5, ()))))),
            ),
            mode,
        )
    }
}

impl<
    A: DERCanonical,
    B: DERCanonical,
    C: DERCanonical,
    D: DERCanonical,
    E: DERCanonical,
    F: DERCanonical,
> DERCanonical for (A, B, C, D, E, F) {
    ghost written = { tuple_written (λ v. (v.0, (v.1, (v.2, (v.3, (v.4, (v.5, tt))))))) (part_written A.written (part_written B.written (part_written C.written (part_written D.written (part_written E.written (part_written F.written no_part_written)))))) };
}
