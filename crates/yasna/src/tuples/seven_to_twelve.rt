//! Tuples of seven to twelve parts.
ghost use Rattle.std.specs.Prelude.{false, ◌||◌};
ghost use Rattle.yasna_base.specs.Canonical.{enclosed_encoding, enclosed_depth, Always};
ghost use Rattle.yasna_base.specs.Element.{Enclosed, AnyEnclosed};
ghost use Rattle.yasna_base.specs.Sequence.{sequence_tag, PartOf, NoParts, AnyPart, AnyNothing, SamePart, SameNothing, part_encoding, part_depth, part_can, nothing_encoding, nothing_depth};
ghost use Rattle.yasna_base.proofs.Sequence.{part, no_part, tuple, part_written, no_part_written, tuple_written};

use super::{long_tuple_len, prepend_long_tuple, read_long_tuple, write_long_tuple};
use crate::traits::{BERDecodable, DERCanonical, DEREncodable};
use yasna_base::error::ASN1Result;
use yasna_base::mode::BERMode;
use yasna_reader::BERReader;
use yasna_writer::{DERWriter, PrependBuffer};

impl<
    A: BERDecodable,
    B: BERDecodable,
    C: BERDecodable,
    D: BERDecodable,
    E: BERDecodable,
    F: BERDecodable,
    G: BERDecodable,
> BERDecodable for (A, B, C, D, E, F, G) {
    ghost encodes = { λ m n v b. Enclosed (PartOf A.encodes (PartOf B.encodes (PartOf C.encodes (PartOf D.encodes (PartOf E.encodes (PartOf F.encodes (PartOf G.encodes NoParts))))))) sequence_tag m n (v.0, (v.1, (v.2, (v.3, (v.4, (v.5, (v.6, tt))))))) b };

    ghost elements = { AnyEnclosed (AnyPart A.elements (AnyPart B.elements (AnyPart C.elements (AnyPart D.elements (AnyPart E.elements (AnyPart F.elements (AnyPart G.elements AnyNothing))))))) sequence_tag };

    ghost may_allocate = { (A.may_allocate || (B.may_allocate || (C.may_allocate || (D.may_allocate || (E.may_allocate || (F.may_allocate || (G.may_allocate || false))))))) };

    ghost same = { λ v w. SamePart A.same (SamePart B.same (SamePart C.same (SamePart D.same (SamePart E.same (SamePart F.same (SamePart G.same SameNothing)))))) (v.0, (v.1, (v.2, (v.3, (v.4, (v.5, (v.6, tt))))))) (w.0, (w.1, (w.2, (w.3, (w.4, (w.5, (w.6, tt))))))) };

    #[inline(always)]
    fn decode_ber(reader: BERReader) -> ASN1Result<(A, B, C, D, E, F, G)> {
        match read_long_tuple(reader) {
            Ok(((a, b, c, d, e, f), (g, ()))) => Ok((a, b, c, d, e, f, g)),
            Err(error) => Err(error),
        }
    }

    ghost coding = { tuple (λ v. (v.0, (v.1, (v.2, (v.3, (v.4, (v.5, (v.6, tt)))))))) (part A.coding (part B.coding (part C.coding (part D.coding (part E.coding (part F.coding (part G.coding no_part))))))) };
}

impl<
    A: DEREncodable,
    B: DEREncodable,
    C: DEREncodable,
    D: DEREncodable,
    E: DEREncodable,
    F: DEREncodable,
    G: DEREncodable,
> DEREncodable for (A, B, C, D, E, F, G) {
    ghost encoding = { λ m v. enclosed_encoding (part_encoding A.encoding (part_encoding B.encoding (part_encoding C.encoding (part_encoding D.encoding (part_encoding E.encoding (part_encoding F.encoding (part_encoding G.encoding nothing_encoding))))))) sequence_tag m (v.0, (v.1, (v.2, (v.3, (v.4, (v.5, (v.6, tt))))))) };

    ghost depth = { λ m v. enclosed_depth (part_depth A.depth (part_depth B.depth (part_depth C.depth (part_depth D.depth (part_depth E.depth (part_depth F.depth (part_depth G.depth nothing_depth))))))) m (v.0, (v.1, (v.2, (v.3, (v.4, (v.5, (v.6, tt))))))) };

    ghost encodable = { λ v. part_can A.encodable (part_can B.encodable (part_can C.encodable (part_can D.encodable (part_can E.encodable (part_can F.encodable (part_can G.encodable Always)))))) (v.0, (v.1, (v.2, (v.3, (v.4, (v.5, (v.6, tt {0}))))))) };

    fn encode_der(&self, writer: DERWriter<'_>) -> ASN1Result<()> {
        write_long_tuple(
            (&self.0, &self.1, &self.2, &self.3, &self.4, &self.5),
            (&self.6, ()),
            writer,
        )
    }

    fn prepend_der(&self, out: &mut PrependBuffer) -> ASN1Result<()> {
        prepend_long_tuple(
            (&self.0, &self.1, &self.2, &self.3, &self.4, &self.5),
            (&self.6, ()),
            out,
        )
    }

    fn encoded_len(&self, mode: BERMode) -> Option<usize> {
        long_tuple_len(
            (&self.0, &self.1, &self.2, &self.3, &self.4, &self.5),
            (&self.6, ()),
            mode,
        )
    }
}

impl<
    A: DERCanonical,
    B: DERCanonical,
    C: DERCanonical,
    D: DERCanonical,
    E: DERCanonical,
    F: DERCanonical,
    G: DERCanonical,
> DERCanonical for (A, B, C, D, E, F, G) {
    ghost written = { tuple_written (λ v. (v.0, (v.1, (v.2, (v.3, (v.4, (v.5, (v.6, tt)))))))) (part_written A.written (part_written B.written (part_written C.written (part_written D.written (part_written E.written (part_written F.written (part_written G.written no_part_written))))))) };
}

impl<
    A: BERDecodable,
    B: BERDecodable,
    C: BERDecodable,
    D: BERDecodable,
    E: BERDecodable,
    F: BERDecodable,
    G: BERDecodable,
    H: BERDecodable,
> BERDecodable for (A, B, C, D, E, F, G, H) {
    ghost encodes = { λ m n v b. Enclosed (PartOf A.encodes (PartOf B.encodes (PartOf C.encodes (PartOf D.encodes (PartOf E.encodes (PartOf F.encodes (PartOf G.encodes (PartOf H.encodes NoParts)))))))) sequence_tag m n (v.0, (v.1, (v.2, (v.3, (v.4, (v.5, (v.6, (v.7, tt)))))))) b };

    ghost elements = { AnyEnclosed (AnyPart A.elements (AnyPart B.elements (AnyPart C.elements (AnyPart D.elements (AnyPart E.elements (AnyPart F.elements (AnyPart G.elements (AnyPart H.elements AnyNothing)))))))) sequence_tag };

    ghost may_allocate = { (A.may_allocate || (B.may_allocate || (C.may_allocate || (D.may_allocate || (E.may_allocate || (F.may_allocate || (G.may_allocate || (H.may_allocate || false)))))))) };

    ghost same = { λ v w. SamePart A.same (SamePart B.same (SamePart C.same (SamePart D.same (SamePart E.same (SamePart F.same (SamePart G.same (SamePart H.same SameNothing))))))) (v.0, (v.1, (v.2, (v.3, (v.4, (v.5, (v.6, (v.7, tt)))))))) (w.0, (w.1, (w.2, (w.3, (w.4, (w.5, (w.6, (w.7, tt)))))))) };

    #[inline(always)]
    fn decode_ber(reader: BERReader) -> ASN1Result<(A, B, C, D, E, F, G, H)> {
        match read_long_tuple(reader) {
            Ok(((a, b, c, d, e, f), (g, (h, ())))) => Ok((a, b, c, d, e, f, g, h)),
            Err(error) => Err(error),
        }
    }

    ghost coding = { tuple (λ v. (v.0, (v.1, (v.2, (v.3, (v.4, (v.5, (v.6, (v.7, tt))))))))) (part A.coding (part B.coding (part C.coding (part D.coding (part E.coding (part F.coding (part G.coding (part H.coding no_part)))))))) };
}

impl<
    A: DEREncodable,
    B: DEREncodable,
    C: DEREncodable,
    D: DEREncodable,
    E: DEREncodable,
    F: DEREncodable,
    G: DEREncodable,
    H: DEREncodable,
> DEREncodable for (A, B, C, D, E, F, G, H) {
    ghost encoding = { λ m v. enclosed_encoding (part_encoding A.encoding (part_encoding B.encoding (part_encoding C.encoding (part_encoding D.encoding (part_encoding E.encoding (part_encoding F.encoding (part_encoding G.encoding (part_encoding H.encoding nothing_encoding)))))))) sequence_tag m (v.0, (v.1, (v.2, (v.3, (v.4, (v.5, (v.6, (v.7, tt)))))))) };

    ghost depth = { λ m v. enclosed_depth (part_depth A.depth (part_depth B.depth (part_depth C.depth (part_depth D.depth (part_depth E.depth (part_depth F.depth (part_depth G.depth (part_depth H.depth nothing_depth)))))))) m (v.0, (v.1, (v.2, (v.3, (v.4, (v.5, (v.6, (v.7, tt)))))))) };

    ghost encodable = { λ v. part_can A.encodable (part_can B.encodable (part_can C.encodable (part_can D.encodable (part_can E.encodable (part_can F.encodable (part_can G.encodable (part_can H.encodable Always))))))) (v.0, (v.1, (v.2, (v.3, (v.4, (v.5, (v.6, (v.7, tt {0})))))))) };

    fn encode_der(&self, writer: DERWriter<'_>) -> ASN1Result<()> {
        write_long_tuple(
            (&self.0, &self.1, &self.2, &self.3, &self.4, &self.5),
            (&self.6, (&self.7, ())),
            writer,
        )
    }

    fn prepend_der(&self, out: &mut PrependBuffer) -> ASN1Result<()> {
        prepend_long_tuple(
            (&self.0, &self.1, &self.2, &self.3, &self.4, &self.5),
            (&self.6, (&self.7, ())),
            out,
        )
    }

    fn encoded_len(&self, mode: BERMode) -> Option<usize> {
        long_tuple_len(
            (&self.0, &self.1, &self.2, &self.3, &self.4, &self.5),
            (&self.6, (&self.7, ())),
            mode,
        )
    }
}

impl<
    A: DERCanonical,
    B: DERCanonical,
    C: DERCanonical,
    D: DERCanonical,
    E: DERCanonical,
    F: DERCanonical,
    G: DERCanonical,
    H: DERCanonical,
> DERCanonical for (A, B, C, D, E, F, G, H) {
    ghost written = { tuple_written (λ v. (v.0, (v.1, (v.2, (v.3, (v.4, (v.5, (v.6, (v.7, tt))))))))) (part_written A.written (part_written B.written (part_written C.written (part_written D.written (part_written E.written (part_written F.written (part_written G.written (part_written H.written no_part_written)))))))) };
}

impl<
    A: BERDecodable,
    B: BERDecodable,
    C: BERDecodable,
    D: BERDecodable,
    E: BERDecodable,
    F: BERDecodable,
    G: BERDecodable,
    H: BERDecodable,
    I: BERDecodable,
> BERDecodable for (A, B, C, D, E, F, G, H, I) {
    ghost encodes = { λ m n v b. Enclosed (PartOf A.encodes (PartOf B.encodes (PartOf C.encodes (PartOf D.encodes (PartOf E.encodes (PartOf F.encodes (PartOf G.encodes (PartOf H.encodes (PartOf I.encodes NoParts))))))))) sequence_tag m n (v.0, (v.1, (v.2, (v.3, (v.4, (v.5, (v.6, (v.7, (v.8, tt))))))))) b };

    ghost elements = { AnyEnclosed (AnyPart A.elements (AnyPart B.elements (AnyPart C.elements (AnyPart D.elements (AnyPart E.elements (AnyPart F.elements (AnyPart G.elements (AnyPart H.elements (AnyPart I.elements AnyNothing))))))))) sequence_tag };

    ghost may_allocate = { (A.may_allocate || (B.may_allocate || (C.may_allocate || (D.may_allocate || (E.may_allocate || (F.may_allocate || (G.may_allocate || (H.may_allocate || (I.may_allocate || false))))))))) };

    ghost same = { λ v w. SamePart A.same (SamePart B.same (SamePart C.same (SamePart D.same (SamePart E.same (SamePart F.same (SamePart G.same (SamePart H.same (SamePart I.same SameNothing)))))))) (v.0, (v.1, (v.2, (v.3, (v.4, (v.5, (v.6, (v.7, (v.8, tt))))))))) (w.0, (w.1, (w.2, (w.3, (w.4, (w.5, (w.6, (w.7, (w.8, tt))))))))) };

    #[inline(always)]
    fn decode_ber(reader: BERReader) -> ASN1Result<(A, B, C, D, E, F, G, H, I)> {
        match read_long_tuple(reader) {
            Ok(((a, b, c, d, e, f), (g, (h, (i, ()))))) => Ok((a, b, c, d, e, f, g, h, i)),
            Err(error) => Err(error),
        }
    }

    ghost coding = { tuple (λ v. (v.0, (v.1, (v.2, (v.3, (v.4, (v.5, (v.6, (v.7, (v.8, tt)))))))))) (part A.coding (part B.coding (part C.coding (part D.coding (part E.coding (part F.coding (part G.coding (part H.coding (part I.coding no_part))))))))) };
}

impl<
    A: DEREncodable,
    B: DEREncodable,
    C: DEREncodable,
    D: DEREncodable,
    E: DEREncodable,
    F: DEREncodable,
    G: DEREncodable,
    H: DEREncodable,
    I: DEREncodable,
> DEREncodable for (A, B, C, D, E, F, G, H, I) {
    ghost encoding = { λ m v. enclosed_encoding (part_encoding A.encoding (part_encoding B.encoding (part_encoding C.encoding (part_encoding D.encoding (part_encoding E.encoding (part_encoding F.encoding (part_encoding G.encoding (part_encoding H.encoding (part_encoding I.encoding nothing_encoding))))))))) sequence_tag m (v.0, (v.1, (v.2, (v.3, (v.4, (v.5, (v.6, (v.7, (v.8, tt))))))))) };

    ghost depth = { λ m v. enclosed_depth (part_depth A.depth (part_depth B.depth (part_depth C.depth (part_depth D.depth (part_depth E.depth (part_depth F.depth (part_depth G.depth (part_depth H.depth (part_depth I.depth nothing_depth))))))))) m (v.0, (v.1, (v.2, (v.3, (v.4, (v.5, (v.6, (v.7, (v.8, tt))))))))) };

    ghost encodable = { λ v. part_can A.encodable (part_can B.encodable (part_can C.encodable (part_can D.encodable (part_can E.encodable (part_can F.encodable (part_can G.encodable (part_can H.encodable (part_can I.encodable Always)))))))) (v.0, (v.1, (v.2, (v.3, (v.4, (v.5, (v.6, (v.7, (v.8, tt {0}))))))))) };

    fn encode_der(&self, writer: DERWriter<'_>) -> ASN1Result<()> {
        write_long_tuple(
            (&self.0, &self.1, &self.2, &self.3, &self.4, &self.5),
            (&self.6, (&self.7, (&self.8, ()))),
            writer,
        )
    }

    fn prepend_der(&self, out: &mut PrependBuffer) -> ASN1Result<()> {
        prepend_long_tuple(
            (&self.0, &self.1, &self.2, &self.3, &self.4, &self.5),
            (&self.6, (&self.7, (&self.8, ()))),
            out,
        )
    }

    fn encoded_len(&self, mode: BERMode) -> Option<usize> {
        long_tuple_len(
            (&self.0, &self.1, &self.2, &self.3, &self.4, &self.5),
            (&self.6, (&self.7, (&self.8, ()))),
            mode,
        )
    }
}

impl<
    A: DERCanonical,
    B: DERCanonical,
    C: DERCanonical,
    D: DERCanonical,
    E: DERCanonical,
    F: DERCanonical,
    G: DERCanonical,
    H: DERCanonical,
    I: DERCanonical,
> DERCanonical for (A, B, C, D, E, F, G, H, I) {
    ghost written = { tuple_written (λ v. (v.0, (v.1, (v.2, (v.3, (v.4, (v.5, (v.6, (v.7, (v.8, tt)))))))))) (part_written A.written (part_written B.written (part_written C.written (part_written D.written (part_written E.written (part_written F.written (part_written G.written (part_written H.written (part_written I.written no_part_written))))))))) };
}

impl<
    A: BERDecodable,
    B: BERDecodable,
    C: BERDecodable,
    D: BERDecodable,
    E: BERDecodable,
    F: BERDecodable,
    G: BERDecodable,
    H: BERDecodable,
    I: BERDecodable,
    J: BERDecodable,
> BERDecodable for (A, B, C, D, E, F, G, H, I, J) {
    ghost encodes = { λ m n v b. Enclosed (PartOf A.encodes (PartOf B.encodes (PartOf C.encodes (PartOf D.encodes (PartOf E.encodes (PartOf F.encodes (PartOf G.encodes (PartOf H.encodes (PartOf I.encodes (PartOf J.encodes NoParts)))))))))) sequence_tag m n (v.0, (v.1, (v.2, (v.3, (v.4, (v.5, (v.6, (v.7, (v.8, (v.9, tt)))))))))) b };

    ghost elements = { AnyEnclosed (AnyPart A.elements (AnyPart B.elements (AnyPart C.elements (AnyPart D.elements (AnyPart E.elements (AnyPart F.elements (AnyPart G.elements (AnyPart H.elements (AnyPart I.elements (AnyPart J.elements AnyNothing)))))))))) sequence_tag };

    ghost may_allocate = { (A.may_allocate || (B.may_allocate || (C.may_allocate || (D.may_allocate || (E.may_allocate || (F.may_allocate || (G.may_allocate || (H.may_allocate || (I.may_allocate || (J.may_allocate || false)))))))))) };

    ghost same = { λ v w. SamePart A.same (SamePart B.same (SamePart C.same (SamePart D.same (SamePart E.same (SamePart F.same (SamePart G.same (SamePart H.same (SamePart I.same (SamePart J.same SameNothing))))))))) (v.0, (v.1, (v.2, (v.3, (v.4, (v.5, (v.6, (v.7, (v.8, (v.9, tt)))))))))) (w.0, (w.1, (w.2, (w.3, (w.4, (w.5, (w.6, (w.7, (w.8, (w.9, tt)))))))))) };

    #[inline(always)]
    fn decode_ber(reader: BERReader) -> ASN1Result<(A, B, C, D, E, F, G, H, I, J)> {
        match read_long_tuple(reader) {
            Ok(((a, b, c, d, e, f), (g, (h, (i, (j, ())))))) => Ok((a, b, c, d, e, f, g, h, i, j)),
            Err(error) => Err(error),
        }
    }

    ghost coding = { tuple (λ v. (v.0, (v.1, (v.2, (v.3, (v.4, (v.5, (v.6, (v.7, (v.8, (v.9, tt))))))))))) (part A.coding (part B.coding (part C.coding (part D.coding (part E.coding (part F.coding (part G.coding (part H.coding (part I.coding (part J.coding no_part)))))))))) };
}

impl<
    A: DEREncodable,
    B: DEREncodable,
    C: DEREncodable,
    D: DEREncodable,
    E: DEREncodable,
    F: DEREncodable,
    G: DEREncodable,
    H: DEREncodable,
    I: DEREncodable,
    J: DEREncodable,
> DEREncodable for (A, B, C, D, E, F, G, H, I, J) {
    ghost encoding = { λ m v. enclosed_encoding (part_encoding A.encoding (part_encoding B.encoding (part_encoding C.encoding (part_encoding D.encoding (part_encoding E.encoding (part_encoding F.encoding (part_encoding G.encoding (part_encoding H.encoding (part_encoding I.encoding (part_encoding J.encoding nothing_encoding)))))))))) sequence_tag m (v.0, (v.1, (v.2, (v.3, (v.4, (v.5, (v.6, (v.7, (v.8, (v.9, tt)))))))))) };

    ghost depth = { λ m v. enclosed_depth (part_depth A.depth (part_depth B.depth (part_depth C.depth (part_depth D.depth (part_depth E.depth (part_depth F.depth (part_depth G.depth (part_depth H.depth (part_depth I.depth (part_depth J.depth nothing_depth)))))))))) m (v.0, (v.1, (v.2, (v.3, (v.4, (v.5, (v.6, (v.7, (v.8, (v.9, tt)))))))))) };

    ghost encodable = { λ v. part_can A.encodable (part_can B.encodable (part_can C.encodable (part_can D.encodable (part_can E.encodable (part_can F.encodable (part_can G.encodable (part_can H.encodable (part_can I.encodable (part_can J.encodable Always))))))))) (v.0, (v.1, (v.2, (v.3, (v.4, (v.5, (v.6, (v.7, (v.8, (v.9, tt {0})))))))))) };

    fn encode_der(&self, writer: DERWriter<'_>) -> ASN1Result<()> {
        write_long_tuple(
            (&self.0, &self.1, &self.2, &self.3, &self.4, &self.5),
            (&self.6, (&self.7, (&self.8, (&self.9, ())))),
            writer,
        )
    }

    fn prepend_der(&self, out: &mut PrependBuffer) -> ASN1Result<()> {
        prepend_long_tuple(
            (&self.0, &self.1, &self.2, &self.3, &self.4, &self.5),
            (&self.6, (&self.7, (&self.8, (&self.9, ())))),
            out,
        )
    }

    fn encoded_len(&self, mode: BERMode) -> Option<usize> {
        long_tuple_len(
            (&self.0, &self.1, &self.2, &self.3, &self.4, &self.5),
            (&self.6, (&self.7, (&self.8, (&self.9, ())))),
            mode,
        )
    }
}

impl<
    A: DERCanonical,
    B: DERCanonical,
    C: DERCanonical,
    D: DERCanonical,
    E: DERCanonical,
    F: DERCanonical,
    G: DERCanonical,
    H: DERCanonical,
    I: DERCanonical,
    J: DERCanonical,
> DERCanonical for (A, B, C, D, E, F, G, H, I, J) {
    ghost written = { tuple_written (λ v. (v.0, (v.1, (v.2, (v.3, (v.4, (v.5, (v.6, (v.7, (v.8, (v.9, tt))))))))))) (part_written A.written (part_written B.written (part_written C.written (part_written D.written (part_written E.written (part_written F.written (part_written G.written (part_written H.written (part_written I.written (part_written J.written no_part_written)))))))))) };
}

impl<
    A: BERDecodable,
    B: BERDecodable,
    C: BERDecodable,
    D: BERDecodable,
    E: BERDecodable,
    F: BERDecodable,
    G: BERDecodable,
    H: BERDecodable,
    I: BERDecodable,
    J: BERDecodable,
    K: BERDecodable,
> BERDecodable for (A, B, C, D, E, F, G, H, I, J, K) {
    ghost encodes = { λ m n v b. Enclosed (PartOf A.encodes (PartOf B.encodes (PartOf C.encodes (PartOf D.encodes (PartOf E.encodes (PartOf F.encodes (PartOf G.encodes (PartOf H.encodes (PartOf I.encodes (PartOf J.encodes (PartOf K.encodes NoParts))))))))))) sequence_tag m n (v.0, (v.1, (v.2, (v.3, (v.4, (v.5, (v.6, (v.7, (v.8, (v.9, (v.10, tt))))))))))) b };

    ghost elements = { AnyEnclosed (AnyPart A.elements (AnyPart B.elements (AnyPart C.elements (AnyPart D.elements (AnyPart E.elements (AnyPart F.elements (AnyPart G.elements (AnyPart H.elements (AnyPart I.elements (AnyPart J.elements (AnyPart K.elements AnyNothing))))))))))) sequence_tag };

    ghost may_allocate = { (A.may_allocate || (B.may_allocate || (C.may_allocate || (D.may_allocate || (E.may_allocate || (F.may_allocate || (G.may_allocate || (H.may_allocate || (I.may_allocate || (J.may_allocate || (K.may_allocate || false))))))))))) };

    ghost same = { λ v w. SamePart A.same (SamePart B.same (SamePart C.same (SamePart D.same (SamePart E.same (SamePart F.same (SamePart G.same (SamePart H.same (SamePart I.same (SamePart J.same (SamePart K.same SameNothing)))))))))) (v.0, (v.1, (v.2, (v.3, (v.4, (v.5, (v.6, (v.7, (v.8, (v.9, (v.10, tt))))))))))) (w.0, (w.1, (w.2, (w.3, (w.4, (w.5, (w.6, (w.7, (w.8, (w.9, (w.10, tt))))))))))) };

    #[inline(always)]
    fn decode_ber(reader: BERReader) -> ASN1Result<(A, B, C, D, E, F, G, H, I, J, K)> {
        match read_long_tuple(reader) {
            Ok(((a, b, c, d, e, f), (g, (h, (i, (j, (k, ()))))))) => Ok((
                a, b, c, d, e, f, g, h, i, j, k,
            )),
            Err(error) => Err(error),
        }
    }

    ghost coding = { tuple (λ v. (v.0, (v.1, (v.2, (v.3, (v.4, (v.5, (v.6, (v.7, (v.8, (v.9, (v.10, tt)))))))))))) (part A.coding (part B.coding (part C.coding (part D.coding (part E.coding (part F.coding (part G.coding (part H.coding (part I.coding (part J.coding (part K.coding no_part))))))))))) };
}

impl<
    A: DEREncodable,
    B: DEREncodable,
    C: DEREncodable,
    D: DEREncodable,
    E: DEREncodable,
    F: DEREncodable,
    G: DEREncodable,
    H: DEREncodable,
    I: DEREncodable,
    J: DEREncodable,
    K: DEREncodable,
> DEREncodable for (A, B, C, D, E, F, G, H, I, J, K) {
    ghost encoding = { λ m v. enclosed_encoding (part_encoding A.encoding (part_encoding B.encoding (part_encoding C.encoding (part_encoding D.encoding (part_encoding E.encoding (part_encoding F.encoding (part_encoding G.encoding (part_encoding H.encoding (part_encoding I.encoding (part_encoding J.encoding (part_encoding K.encoding nothing_encoding))))))))))) sequence_tag m (v.0, (v.1, (v.2, (v.3, (v.4, (v.5, (v.6, (v.7, (v.8, (v.9, (v.10, tt))))))))))) };

    ghost depth = { λ m v. enclosed_depth (part_depth A.depth (part_depth B.depth (part_depth C.depth (part_depth D.depth (part_depth E.depth (part_depth F.depth (part_depth G.depth (part_depth H.depth (part_depth I.depth (part_depth J.depth (part_depth K.depth nothing_depth))))))))))) m (v.0, (v.1, (v.2, (v.3, (v.4, (v.5, (v.6, (v.7, (v.8, (v.9, (v.10, tt))))))))))) };

    ghost encodable = { λ v. part_can A.encodable (part_can B.encodable (part_can C.encodable (part_can D.encodable (part_can E.encodable (part_can F.encodable (part_can G.encodable (part_can H.encodable (part_can I.encodable (part_can J.encodable (part_can K.encodable Always)))))))))) (v.0, (v.1, (v.2, (v.3, (v.4, (v.5, (v.6, (v.7, (v.8, (v.9, (v.10, tt {0}))))))))))) };

    fn encode_der(&self, writer: DERWriter<'_>) -> ASN1Result<()> {
        write_long_tuple(
            (&self.0, &self.1, &self.2, &self.3, &self.4, &self.5),
            (&self.6, (&self.7, (&self.8, (&self.9, (&self.10, ()))))),
            writer,
        )
    }

    fn prepend_der(&self, out: &mut PrependBuffer) -> ASN1Result<()> {
        prepend_long_tuple(
            (&self.0, &self.1, &self.2, &self.3, &self.4, &self.5),
            (&self.6, (&self.7, (&self.8, (&self.9, (&self.10, ()))))),
            out,
        )
    }

    fn encoded_len(&self, mode: BERMode) -> Option<usize> {
        long_tuple_len(
            (&self.0, &self.1, &self.2, &self.3, &self.4, &self.5),
            (&self.6, (&self.7, (&self.8, (&self.9, (&self.10, ()))))),
            mode,
        )
    }
}

impl<
    A: DERCanonical,
    B: DERCanonical,
    C: DERCanonical,
    D: DERCanonical,
    E: DERCanonical,
    F: DERCanonical,
    G: DERCanonical,
    H: DERCanonical,
    I: DERCanonical,
    J: DERCanonical,
    K: DERCanonical,
> DERCanonical for (A, B, C, D, E, F, G, H, I, J, K) {
    ghost written = { tuple_written (λ v. (v.0, (v.1, (v.2, (v.3, (v.4, (v.5, (v.6, (v.7, (v.8, (v.9, (v.10, tt)))))))))))) (part_written A.written (part_written B.written (part_written C.written (part_written D.written (part_written E.written (part_written F.written (part_written G.written (part_written H.written (part_written I.written (part_written J.written (part_written K.written no_part_written))))))))))) };
}

impl<
    A: BERDecodable,
    B: BERDecodable,
    C: BERDecodable,
    D: BERDecodable,
    E: BERDecodable,
    F: BERDecodable,
    G: BERDecodable,
    H: BERDecodable,
    I: BERDecodable,
    J: BERDecodable,
    K: BERDecodable,
    L: BERDecodable,
> BERDecodable for (A, B, C, D, E, F, G, H, I, J, K, L) {
    ghost encodes = { λ m n v b. Enclosed (PartOf A.encodes (PartOf B.encodes (PartOf C.encodes (PartOf D.encodes (PartOf E.encodes (PartOf F.encodes (PartOf G.encodes (PartOf H.encodes (PartOf I.encodes (PartOf J.encodes (PartOf K.encodes (PartOf L.encodes NoParts)))))))))))) sequence_tag m n (v.0, (v.1, (v.2, (v.3, (v.4, (v.5, (v.6, (v.7, (v.8, (v.9, (v.10, (v.11, tt)))))))))))) b };

    ghost elements = { AnyEnclosed (AnyPart A.elements (AnyPart B.elements (AnyPart C.elements (AnyPart D.elements (AnyPart E.elements (AnyPart F.elements (AnyPart G.elements (AnyPart H.elements (AnyPart I.elements (AnyPart J.elements (AnyPart K.elements (AnyPart L.elements AnyNothing)))))))))))) sequence_tag };

    ghost may_allocate = { (A.may_allocate || (B.may_allocate || (C.may_allocate || (D.may_allocate || (E.may_allocate || (F.may_allocate || (G.may_allocate || (H.may_allocate || (I.may_allocate || (J.may_allocate || (K.may_allocate || (L.may_allocate || false)))))))))))) };

    ghost same = { λ v w. SamePart A.same (SamePart B.same (SamePart C.same (SamePart D.same (SamePart E.same (SamePart F.same (SamePart G.same (SamePart H.same (SamePart I.same (SamePart J.same (SamePart K.same (SamePart L.same SameNothing))))))))))) (v.0, (v.1, (v.2, (v.3, (v.4, (v.5, (v.6, (v.7, (v.8, (v.9, (v.10, (v.11, tt)))))))))))) (w.0, (w.1, (w.2, (w.3, (w.4, (w.5, (w.6, (w.7, (w.8, (w.9, (w.10, (w.11, tt)))))))))))) };

    #[inline(always)]
    fn decode_ber(reader: BERReader) -> ASN1Result<(A, B, C, D, E, F, G, H, I, J, K, L)> {
        match read_long_tuple(reader) {
            Ok(((a, b, c, d, e, f), (g, (h, (i, (j, (k, (l, ())))))))) => Ok((
                a, b, c, d, e, f, g, h, i, j, k, l,
            )),
            Err(error) => Err(error),
        }
    }

    ghost coding = { tuple (λ v. (v.0, (v.1, (v.2, (v.3, (v.4, (v.5, (v.6, (v.7, (v.8, (v.9, (v.10, (v.11, tt))))))))))))) (part A.coding (part B.coding (part C.coding (part D.coding (part E.coding (part F.coding (part G.coding (part H.coding (part I.coding (part J.coding (part K.coding (part L.coding no_part)))))))))))) };
}

impl<
    A: DEREncodable,
    B: DEREncodable,
    C: DEREncodable,
    D: DEREncodable,
    E: DEREncodable,
    F: DEREncodable,
    G: DEREncodable,
    H: DEREncodable,
    I: DEREncodable,
    J: DEREncodable,
    K: DEREncodable,
    L: DEREncodable,
> DEREncodable for (A, B, C, D, E, F, G, H, I, J, K, L) {
    ghost encoding = { λ m v. enclosed_encoding (part_encoding A.encoding (part_encoding B.encoding (part_encoding C.encoding (part_encoding D.encoding (part_encoding E.encoding (part_encoding F.encoding (part_encoding G.encoding (part_encoding H.encoding (part_encoding I.encoding (part_encoding J.encoding (part_encoding K.encoding (part_encoding L.encoding nothing_encoding)))))))))))) sequence_tag m (v.0, (v.1, (v.2, (v.3, (v.4, (v.5, (v.6, (v.7, (v.8, (v.9, (v.10, (v.11, tt)))))))))))) };

    ghost depth = { λ m v. enclosed_depth (part_depth A.depth (part_depth B.depth (part_depth C.depth (part_depth D.depth (part_depth E.depth (part_depth F.depth (part_depth G.depth (part_depth H.depth (part_depth I.depth (part_depth J.depth (part_depth K.depth (part_depth L.depth nothing_depth)))))))))))) m (v.0, (v.1, (v.2, (v.3, (v.4, (v.5, (v.6, (v.7, (v.8, (v.9, (v.10, (v.11, tt)))))))))))) };

    ghost encodable = { λ v. part_can A.encodable (part_can B.encodable (part_can C.encodable (part_can D.encodable (part_can E.encodable (part_can F.encodable (part_can G.encodable (part_can H.encodable (part_can I.encodable (part_can J.encodable (part_can K.encodable (part_can L.encodable Always))))))))))) (v.0, (v.1, (v.2, (v.3, (v.4, (v.5, (v.6, (v.7, (v.8, (v.9, (v.10, (v.11, tt {0})))))))))))) };

    fn encode_der(&self, writer: DERWriter<'_>) -> ASN1Result<()> {
        write_long_tuple(
            (&self.0, &self.1, &self.2, &self.3, &self.4, &self.5),
            (
                &self.6,
                (&self.7, (&self.8, (&self.9, (&self.10, (&self.11, ()))))),
            ),
            writer,
        )
    }

    fn prepend_der(&self, out: &mut PrependBuffer) -> ASN1Result<()> {
        prepend_long_tuple(
            (&self.0, &self.1, &self.2, &self.3, &self.4, &self.5),
            (
                &self.6,
                (&self.7, (&self.8, (&self.9, (&self.10, (&self.11, ()))))),
            ),
            out,
        )
    }

    fn encoded_len(&self, mode: BERMode) -> Option<usize> {
        long_tuple_len(
            (&self.0, &self.1, &self.2, &self.3, &self.4, &self.5),
            (
                &self.6,
                (&self.7, (&self.8, (&self.9, (&self.10, (&self.11, ()))))),
            ),
            mode,
        )
    }
}

impl<
    A: DERCanonical,
    B: DERCanonical,
    C: DERCanonical,
    D: DERCanonical,
    E: DERCanonical,
    F: DERCanonical,
    G: DERCanonical,
    H: DERCanonical,
    I: DERCanonical,
    J: DERCanonical,
    K: DERCanonical,
    L: DERCanonical,
> DERCanonical for (A, B, C, D, E, F, G, H, I, J, K, L) {
    ghost written = { tuple_written (λ v. (v.0, (v.1, (v.2, (v.3, (v.4, (v.5, (v.6, (v.7, (v.8, (v.9, (v.10, (v.11, tt))))))))))))) (part_written A.written (part_written B.written (part_written C.written (part_written D.written (part_written E.written (part_written F.written (part_written G.written (part_written H.written (part_written I.written (part_written J.written (part_written K.written (part_written L.written no_part_written)))))))))))) };
}
