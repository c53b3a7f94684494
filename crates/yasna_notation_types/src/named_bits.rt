//! BIT STRING with named bits, which is written as it is (X.680, 22; X.690, 11.2.2).
ghost use Rattle.std.specs.Prelude.{◌≡◌, ◌∷◌, [], true};
ghost use Rattle.yasna_base.specs.Bits.{CanBits, bits_tag, bits_encoding, bits_depth};
ghost use Rattle.yasna_base.specs.Coding.{Any};
ghost use Rattle.yasna_base.specs.Identifier.{tag_or};
ghost use Rattle.yasna_bytes.specs.Segments.{bits_in};
ghost use Rattle.yasna_notation.specs.Laws.{bits_non_empty};
ghost use Rattle.yasna_notation.specs.WithinMode.{WithinMode};
ghost use Rattle.yasna_notation_types.specs.NamedBits.{EncodesBits, ends_in_one, ends_well, named_fits, named_bits_lawful};

use yasna_base::tags::TAG_BITSTRING;
use yasna_base::{ASN1Error, ASN1ErrorKind, ASN1Result, BERMode, Tag};
use yasna_notation::Notation;
use yasna_reader::BERReader;
use yasna_writer::{DERWriter, PrependBuffer, bitvec_len};

/// BIT STRING with named bits, as its bytes and how many bits there are.
///
/// DER and CER reject zero bits at its end. It is written as it is, so a value with such bits isn't written in DER: `LeastBits` removes them.
pub struct NamedBits;

// Whether there is no bit, or the last bit is one.
fn ends_in_one(bytes: &[u8], count: usize) -> bool
    ensures { result ≡ ends_in_one (record { bytes = bytes.now; count = count }) }
{
    if count == 0 {
        return true;
    }
    let last = count - 1;
    match bytes.get(last / 8) {
        Some(byte) => (*byte >> (7 - last % 8)) % 2 == 1,
        None => false,
    }
}

// Whether a string ends as the mode requires.
fn ends_well(mode: BERMode, bytes: &[u8], count: usize) -> bool
    ensures { result ≡ ends_well mode (record { bytes = bytes.now; count = count }) }
{
    match mode {
        BERMode::Ber => true,
        BERMode::Der => ends_in_one(bytes, count),
        BERMode::Cer => ends_in_one(bytes, count),
    }
}

impl Notation for NamedBits {
    type Value = (Vec<u8>, usize);

    type Inner = ();

    ghost means = { record {
      tags_known = true;
      tags = bits_tag ∷ [];
      retagged = true;
      under = λ u m n v b. WithinMode ends_well (EncodesBits u) m n (bits_in v) b;
      any_under = λ u. Any (WithinMode ends_well (EncodesBits u));
      may_allocate = true;
      same = λ v w. bits_in v ≡ bits_in w;
      encoding_under = λ u m v. bits_encoding (tag_or u bits_tag) m (bits_in v);
      depth = λ m v. bits_depth m (bits_in v);
      can = λ v. CanBits (bits_in v);
      fits = λ m n v. named_fits m n (bits_in v);
    } };

    #[inline(always)]
    fn has_tag(tag: Tag) -> bool {
        tag == TAG_BITSTRING
    }

    #[inline(always)]
    fn read(reader: BERReader) -> ASN1Result<(Vec<u8>, usize)> {
        let mode = reader.mode();
        let (bytes, count) = reader.read_bitvec_bytes()?;
        if !ends_well(mode, bytes.as_slice(), count) {
            return Err(ASN1Error::new(ASN1ErrorKind::Invalid));
        }
        Ok((bytes, count))
    }

    #[inline(always)]
    fn write(value: &(Vec<u8>, usize), writer: DERWriter<'_>) -> ASN1Result<()> {
        writer.write_bitvec_bytes(value.0.as_slice(), value.1)
    }

    #[inline(always)]
    fn prepend(
        value: &(Vec<u8>, usize),
        under: Option<Tag>,
        out: &mut PrependBuffer,
    ) -> ASN1Result<()> {
        out.prepend_bitvec_bytes(under.unwrap_or(TAG_BITSTRING), value.0.as_slice(), value.1)
    }

    #[inline(always)]
    fn encoded_len(value: &(Vec<u8>, usize), under: Option<Tag>, mode: BERMode) -> Option<usize> {
        bitvec_len(mode, under.unwrap_or(TAG_BITSTRING), value.0.as_slice())
    }

    ghost lawful = { λ _. named_bits_lawful };

    ghost non_empty = { λ u m v. bits_non_empty (tag_or u bits_tag) m (bits_in v) };
}
