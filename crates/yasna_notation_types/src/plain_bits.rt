//! BIT STRING by its bits only: unused bits are written as zeros (X.690, 8.6 and 11.2.1).
ghost use Rattle.std.specs.Prelude.{◌≡◌, ◌∷◌, [], true};
ghost use Rattle.std.proofs.Common.{arith};
ghost use Rattle.yasna_base.specs.Bits.{IsBits, CanBits, bits_tag, bits_depth};
ghost use Rattle.yasna_base.specs.Coding.{Any};
ghost use Rattle.yasna_base.specs.Exact.{written_fits};
ghost use Rattle.yasna_base.specs.Identifier.{tag_or};
ghost use Rattle.yasna_base.proofs.Identifier.{not_end};
ghost use Rattle.yasna_bytes.specs.Segments.{bits_in};
ghost use Rattle.yasna_notation.specs.Laws.{bits_non_empty};
ghost use Rattle.yasna_notation_types.specs.PlainBits.{EncodesUsed, same_used, plain_encoding, plain_lawful, plain_writes};
ghost use Rattle.yasna_base.specs.Bits.{cleared};

use yasna_base::tags::TAG_BITSTRING;
use yasna_base::{ASN1Result, BERMode, Tag};
use yasna_notation::{CanonicalNotation, Notation};
use yasna_reader::BERReader;
use yasna_writer::{DERWriter, PrependBuffer, bitvec_len};

/// BIT STRING, as its bytes and how many bits there are.
///
/// The first bit of a byte is its highest. Strings are equal if their bits are, so what BER reads is written in DER, with zeros for the unused
/// bits. The value has the unused bits as they came.
pub struct PlainBits;

impl Notation for PlainBits {
    type Value = (Vec<u8>, usize);

    type Inner = ();

    ghost means = { record {
      tags_known = true;
      tags = bits_tag ∷ [];
      retagged = true;
      under = λ u m n v b. EncodesUsed (tag_or u bits_tag) m n (bits_in v) b;
      any_under = λ u. Any (IsBits (tag_or u bits_tag));
      may_allocate = true;
      same = λ v w. same_used (bits_in v) (bits_in w);
      encoding_under = λ u m v. plain_encoding (tag_or u bits_tag) m (bits_in v);
      depth = λ m v. bits_depth m (bits_in v);
      can = λ v. CanBits (bits_in v);
      fits = λ m n v. written_fits bits_depth CanBits m n (bits_in v);
    } };

    #[inline(always)]
    fn has_tag(tag: Tag) -> bool {
        tag == TAG_BITSTRING
    }

    #[inline(always)]
    fn read(reader: BERReader) -> ASN1Result<(Vec<u8>, usize)> {
        reader.read_bitvec_bytes()
    }

    #[inline(always)]
    fn write(value: &(Vec<u8>, usize), writer: DERWriter<'_>) -> ASN1Result<()> {
        writer.write_bitvec_bytes(value.0.as_slice(), value.1)
    }

    #[inline(always)]
    fn prepend(
        value: &(Vec<u8>, usize),
        under: Option<Tag>,
        out: &mut PrependBuffer,
    ) -> ASN1Result<()> {
        out.prepend_bitvec_bytes(under.unwrap_or(TAG_BITSTRING), value.0.as_slice(), value.1)
    }

    #[inline(always)]
    fn encoded_len(value: &(Vec<u8>, usize), under: Option<Tag>, mode: BERMode) -> Option<usize> {
        bitvec_len(mode, under.unwrap_or(TAG_BITSTRING), value.0.as_slice())
    }

    ghost lawful = { λ _. plain_lawful };

    ghost non_empty = { λ u m v. bits_non_empty (tag_or u bits_tag) m (cleared (bits_in v)) };
}

impl CanonicalNotation for PlainBits {
    ghost written = { λ _. plain_writes };
}
