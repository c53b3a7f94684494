//! BIT STRING with named bits, which is written without zero bits at its end (X.680, 22.7; X.690, 11.2.2).
ghost use Rattle.std.specs.Prelude.{◌≡◌, ◌∷◌, [], true, nat_eq};
ghost use Rattle.yasna_base.specs.Bits.{bits_tag};
ghost use Rattle.yasna_base.specs.Coding.{Any};
ghost use Rattle.yasna_base.specs.Exact.{written_fits};
ghost use Rattle.yasna_base.specs.Identifier.{tag_or};
ghost use Rattle.yasna_bytes.specs.Segments.{bits_in};
ghost use Rattle.yasna_notation.specs.Laws.{bits_non_empty};
ghost use Rattle.yasna_notation.specs.WithinMode.{WithinMode};
ghost use Rattle.yasna_notation_types.specs.NamedBits.{EncodesBits, ends_well};
ghost use Rattle.yasna_notation_types.specs.LeastBits.{EncodesLeast, CanLeast, least, least_encoding, least_depth, same_least, bits_left, bit_at, least_lawful, least_writes};

use crate::named_bits::NamedBits;
use yasna_base::tags::TAG_BITSTRING;
use yasna_base::{ASN1Result, BERMode, Tag};
use yasna_notation::{CanonicalNotation, Notation};
use yasna_reader::BERReader;
use yasna_writer::{DERWriter, PrependBuffer, bitvec_len};

/// BIT STRING with named bits, as its bytes and how many bits there are.
///
/// Strings are equal if they are so without the zero bits at their ends. BER allows such bits, DER and CER reject them, and none is written. A
/// size that a module requires isn't: use `PlainBits` there.
pub struct LeastBits;

// Whether the bit at a place is one.
fn is_one(bytes: &[u8], at: usize) -> bool
    ensures { result ≡ nat_eq (bit_at (record { bytes = bytes.now; count = at }) at) 1 }
{
    match bytes.get(at / 8) {
        Some(byte) => (*byte >> (7 - at % 8)) % 2 == 1,
        None => false,
    }
}

// How many bits are left when the zeros at the end are removed.
fn bits_left(bytes: &[u8], count: usize) -> usize
    ensures { result ≡ bits_left (record { bytes = bytes.now; count = count }) count }
{
    let mut left = count;
    while left > 0 {
        if is_one(bytes, left - 1) {
            return left;
        }
        left -= 1;
    }
    0
}

impl Notation for LeastBits {
    type Value = (Vec<u8>, usize);

    type Inner = ();

    ghost means = { record {
      tags_known = true;
      tags = bits_tag ∷ [];
      retagged = true;
      under = λ u m n v b. EncodesLeast (tag_or u bits_tag) m n (bits_in v) b;
      any_under = λ u. Any (WithinMode ends_well (EncodesBits u));
      may_allocate = true;
      same = λ v w. same_least (bits_in v) (bits_in w);
      encoding_under = λ u m v. least_encoding (tag_or u bits_tag) m (bits_in v);
      depth = λ m v. least_depth m (bits_in v);
      can = λ v. CanLeast (bits_in v);
      fits = λ m n v. written_fits least_depth CanLeast m n (bits_in v);
    } };

    #[inline(always)]
    fn has_tag(tag: Tag) -> bool {
        tag == TAG_BITSTRING
    }

    #[inline(always)]
    fn read(reader: BERReader) -> ASN1Result<(Vec<u8>, usize)> {
        <NamedBits as Notation>::read(reader)
    }

    #[inline(always)]
    fn write(value: &(Vec<u8>, usize), writer: DERWriter<'_>) -> ASN1Result<()> {
        let bytes = value.0.as_slice();
        let count = bits_left(bytes, value.1);
        let size = count.div_ceil(8);
        writer.write_bitvec_bytes(&bytes[..size], count)
    }

    #[inline(always)]
    fn prepend(
        value: &(Vec<u8>, usize),
        under: Option<Tag>,
        out: &mut PrependBuffer,
    ) -> ASN1Result<()> {
        let bytes = value.0.as_slice();
        let count = bits_left(bytes, value.1);
        let size = count.div_ceil(8);
        out.prepend_bitvec_bytes(under.unwrap_or(TAG_BITSTRING), &bytes[..size], count)
    }

    #[inline(always)]
    fn encoded_len(value: &(Vec<u8>, usize), under: Option<Tag>, mode: BERMode) -> Option<usize> {
        let bytes = value.0.as_slice();
        let count = bits_left(bytes, value.1);
        let size = count.div_ceil(8);
        bitvec_len(mode, under.unwrap_or(TAG_BITSTRING), &bytes[..size])
    }

    ghost lawful = { λ _. least_lawful };

    ghost non_empty = { λ u m v. bits_non_empty (tag_or u bits_tag) m (least (bits_in v)) };
}

impl CanonicalNotation for LeastBits {
    ghost written = { λ _. least_writes };
}
