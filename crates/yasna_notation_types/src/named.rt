//! ENUMERATED as an enum of Rust (X.680, 20; X.690, 8.4).
ghost use Rattle.std.specs.Prelude.{◌≡◌, ◌↔◌, Bool, IfSome, true, ℤ, is_some, FitsSigned};
ghost use Rattle.std.specs.Int.{w64};
ghost use Rattle.yasna_notation.specs.Laws.{element_non_empty};
ghost use Rattle.yasna_notation_types.specs.Named.{named_means, named_lawful, named_written};

use std::marker::PhantomData;
use yasna_base::tags::TAG_ENUM;
use yasna_base::{ASN1Error, ASN1ErrorKind, ASN1Result, BERMode, Tag};
use yasna_notation::{CanonicalNotation, Notation};
use yasna_reader::BERReader;
use yasna_writer::{DERWriter, PrependBuffer, i64_len};

/// An enum whose values have numbers, as those of an ENUMERATED.
pub trait Numbered: Sized + Drop {
    // The number of a value.
    ghost number_of: { Self → ℤ };

    // Whether a value has this number.
    ghost named: { ℤ → Bool };

    // Which values can be written.
    ghost allowed: { Self → Type 0 };

    /// The number of a value.
    fn number(&self) -> i64
        ensures { result ≡ number_of self.now };

    /// The value of a number, if there is one.
    fn from_number(number: i64) -> Option<Self>
        ensures named { is_some result ≡ named number }
        ensures number { IfSome result (λ v. number_of v ≡ number) };

    // A value can be written if and only if its number is named and has 64 bits.
    ghost writable: { (v : Self) → allowed v ↔ (FitsSigned w64 (number_of v) × (named (number_of v) ≡ true)) };
}

/// `ENUMERATED { .. }`, as an enum `E`.
///
/// A number that no value has is `Invalid`. An ENUMERATED with `...` is an enum with a variant for all other numbers.
pub struct Named<E> {
    of: PhantomData<E>,
}

impl<E: Numbered> Notation for Named<E> {
    type Value = E;

    type Inner = ();

    ghost means = { named_means E.number_of E.named E.allowed };

    #[inline(always)]
    fn has_tag(tag: Tag) -> bool {
        tag == TAG_ENUM
    }

    #[inline(always)]
    fn read(reader: BERReader) -> ASN1Result<E> {
        let number = reader.read_enum()?;
        match E::from_number(number) {
            Some(value) => Ok(value),
            None => Err(ASN1Error::new(ASN1ErrorKind::Invalid)),
        }
    }

    #[inline(always)]
    fn write(value: &E, writer: DERWriter<'_>) -> ASN1Result<()> {
        writer.write_enum(value.number())
    }

    #[inline(always)]
    fn prepend(value: &E, under: Option<Tag>, out: &mut PrependBuffer) -> ASN1Result<()> {
        out.prepend_i64(under.unwrap_or(TAG_ENUM), value.number())
    }

    #[inline(always)]
    fn encoded_len(value: &E, under: Option<Tag>, _mode: BERMode) -> Option<usize> {
        i64_len(under.unwrap_or(TAG_ENUM), value.number())
    }

    ghost lawful = { λ _. named_lawful E.number_of E.named E.writable };

    ghost non_empty = { λ u m v. element_non_empty _ _ _ _ };
}

impl<E: Numbered> CanonicalNotation for Named<E> {
    ghost written = { λ _. named_written E.number_of E.named E.writable };
}
