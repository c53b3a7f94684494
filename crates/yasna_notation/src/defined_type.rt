//! Types that a module defines: a struct or enum of Rust whose values represent those of a notation.
ghost use Rattle.std.specs.Prelude.{◌≡◌, true, refl};
ghost use Rattle.yasna_writer.specs.Prepend.{Prepends, KnownLength};
ghost use Rattle.yasna_writer.specs.View.{Writes};
ghost use Rattle.yasna_notation.specs.Laws.{represented_lawful};
ghost use Rattle.yasna_notation.specs.Notation.{represented_by};

use crate::messages::Message;
use crate::notation::Notation;
use yasna_base::{ASN1Result, BERMode, Tag};
use yasna_reader::BERReader;
use yasna_writer::{DERWriter, PrependBuffer};

/// A type that a module defines: its values represent those of a notation.
pub trait DefinedType: Sized + Drop {
    /// The notation that the module writes after `::=`.
    type Notation: Notation;

    // The value of the notation that represents a value.
    ghost value_of: { Self → Self.Notation.Value };

    /// Makes a value of the notation's one that represents it.
    fn from_value(value: <Self::Notation as Notation>::Value) -> Self
        ensures { value_of result ≡ value };

    /// Writes the notation's value that represents this one.
    fn write_value(&self, writer: DERWriter<'_>) -> ASN1Result<()>
        requires { Self.Notation.means.can (value_of self.now) }
        ensures { Writes (Self.Notation.means.encoding_under writer.old.tag writer.old.mode (value_of self.now)) writer.old writer.new result };

    /// Prepends the notation's value that represents this one to a buffer, as `Notation::prepend`.
    fn prepend_value(&self, under: Option<Tag>, out: &mut PrependBuffer) -> ASN1Result<()>
        requires { Self.Notation.means.can (value_of self.now) }
        ensures { Prepends (Self.Notation.means.encoding_under under out.old.mode (value_of self.now)) out.old out.new result }
    {
        let mut writer = out.writer_under(under);
        let written = self.write_value(&mut writer);
        out.prepend_written(writer, written)
    }

    /// The length of the encoding, if it is known, as `Notation::encoded_len`.
    fn value_len(&self, under: Option<Tag>, mode: BERMode) -> Option<usize>
        requires { Self.Notation.means.can (value_of self.now) }
        ensures { KnownLength (Self.Notation.means.encoding_under under mode (value_of self.now)) result }
    {
        let _ = under;
        let _ = mode;
        None
    }

    // Tags make unambiguous what has to be: `refl` proves it where they do.
    ghost unambiguous: { Self.Notation.unambiguous ≡ true };
}

impl<T: DefinedType> Notation for T {
    type Value = T;

    type Inner = (
        <T::Notation as Notation>::Value,
        <T::Notation as Notation>::Inner,
    );

    ghost means = { represented_by T.value_of T.Notation.means };

    #[inline(always)]
    fn has_tag(tag: Tag) -> bool {
        T::Notation::has_tag(tag)
    }

    #[inline(always)]
    fn read(reader: BERReader) -> ASN1Result<T> {
        let value = T::Notation::read(reader)?;
        Ok(T::from_value(value))
    }

    #[inline(always)]
    fn write(value: &T, writer: DERWriter<'_>) -> ASN1Result<()> {
        value.write_value(writer)
    }

    #[inline(always)]
    fn prepend(value: &T, under: Option<Tag>, out: &mut PrependBuffer) -> ASN1Result<()> {
        value.prepend_value(under, out)
    }

    #[inline(always)]
    fn encoded_len(value: &T, under: Option<Tag>, mode: BERMode) -> Option<usize> {
        value.value_len(under, mode)
    }

    ghost lawful = { λ _. represented_lawful T.value_of (T.Notation.lawful T.unambiguous) };

    ghost non_empty = { λ u m v. T.Notation.non_empty u m (T.value_of v) };
}

impl<T: DefinedType> Message for T {
    ghost is_unambiguous = { refl };
}
