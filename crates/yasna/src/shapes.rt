//! Types that have the shape of another: a struct that of the tuple of its fields, a reference that of its target.
//!
//! Such a type gets the three traits from its shape, with their laws.
ghost use Rattle.std.specs.Prelude.{◌≡◌, None};
ghost use Rattle.yasna_base.proofs.Canonical.{written_along};
ghost use Rattle.yasna_base.proofs.Coding.{along};
ghost use Rattle.yasna_writer.specs.Prepend.{Prepends, KnownLength};
ghost use Rattle.yasna_writer.specs.View.{Writes};

use crate::traits::{BERDecodable, DERCanonical, DEREncodable};
use yasna_base::error::ASN1Result;
use yasna_base::mode::BERMode;
use yasna_reader::BERReader;
use yasna_writer::{DERWriter, PrependBuffer};

/// A type whose values are encoded as those of another type, its shape.
///
/// ```rust
/// impl Shaped for Measurement {
///     type Shape = (i64, bool);
///
///     ghost shape_of = { λ v. (v.number, v.valid) };
/// }
/// ```
pub trait Shaped {
    /// The other type: the tuple of the fields, or the type of the only one.
    type Shape;

    // The value of the shape that represents a value.
    ghost shape_of: { Self → Self.Shape };
}

/// A type that is read as its shape is: it has `BERDecodable` if the shape has.
///
/// ```rust
/// impl FromShape for Measurement {
///     fn from_shape((number, valid): Self::Shape) -> Measurement {
///         Measurement { number, valid }
///     }
/// }
/// ```
pub trait FromShape: Shaped + Sized {
    /// Makes a value of the one of its shape that represents it.
    fn from_shape(shape: Self::Shape) -> Self
        ensures { Self.shape_of result ≡ shape };
}

impl<T: FromShape + Drop> BERDecodable for T
where
    T::Shape: BERDecodable,
{
    ghost encodes = { λ m n v b. T.Shape.encodes m n (T.shape_of v) b };

    ghost elements = { T.Shape.elements };

    ghost may_allocate = { T.Shape.may_allocate };

    ghost same = { λ v w. T.Shape.same (T.shape_of v) (T.shape_of w) };

    #[inline(always)]
    fn decode_ber(reader: BERReader) -> ASN1Result<T> {
        let shape = T::Shape::decode_ber(reader)?;
        Ok(T::from_shape(shape))
    }

    ghost coding = { along T.shape_of T.Shape.coding };
}

/// A type that is written as its shape is: it has `DEREncodable`, and `DERCanonical` if it is read so too and the shape has it.
///
/// ```rust
/// impl EncodeShape for Measurement {
///     fn encode_shape(&self, writer: DERWriter<'_>) -> ASN1Result<()> {
///         (self.number, self.valid).encode_der(writer)
///     }
/// }
/// ```
pub trait EncodeShape: Shaped
where
    Self::Shape: DEREncodable,
{
    /// Writes the value of the shape that represents this one, as `encode_der` writes it.
    fn encode_shape(&self, writer: DERWriter<'_>) -> ASN1Result<()>
        requires can { Self.Shape.encodable (Self.shape_of self.now) }
        requires untagged { writer.old.tag ≡ None }
        ensures { Writes (Self.Shape.encoding writer.old.mode (Self.shape_of self.now)) writer.old writer.new result };

    /// Prepends the value of the shape that represents this one, as `prepend_der` prepends it.
    fn prepend_shape(&self, out: &mut PrependBuffer) -> ASN1Result<()>
        requires { Self.Shape.encodable (Self.shape_of self.now) }
        ensures { Prepends (Self.Shape.encoding out.old.mode (Self.shape_of self.now)) out.old out.new result }
    {
        let mut writer = out.writer();
        let written = self.encode_shape(&mut writer);
        out.prepend_written(writer, written)
    }

    /// The length of the encoding, if it is known, as `encoded_len` returns it.
    fn shape_len(&self, mode: BERMode) -> Option<usize>
        requires { Self.Shape.encodable (Self.shape_of self.now) }
        ensures { KnownLength (Self.Shape.encoding mode (Self.shape_of self.now)) result }
    {
        let _ = mode;
        None
    }
}

impl<T: EncodeShape> DEREncodable for T
where
    T::Shape: DEREncodable,
{
    ghost encoding = { λ m v. T.Shape.encoding m (T.shape_of v) };

    ghost depth = { λ m v. T.Shape.depth m (T.shape_of v) };

    ghost encodable = { λ v. T.Shape.encodable (T.shape_of v) };

    #[inline(always)]
    fn encode_der(&self, writer: DERWriter<'_>) -> ASN1Result<()> {
        self.encode_shape(writer)
    }

    #[inline(always)]
    fn prepend_der(&self, out: &mut PrependBuffer) -> ASN1Result<()> {
        self.prepend_shape(out)
    }

    #[inline(always)]
    fn encoded_len(&self, mode: BERMode) -> Option<usize> {
        self.shape_len(mode)
    }
}

impl<T: FromShape + EncodeShape + Drop> DERCanonical for T
where
    T::Shape: DERCanonical,
{
    ghost written = { written_along T.shape_of T.Shape.written };
}

impl<'a, T> Shaped for &'a T {
    type Shape = T;

    ghost shape_of = { λ v. v.now };
}

impl<'a, T: DEREncodable> EncodeShape for &'a T {
    #[inline(always)]
    fn encode_shape(&self, writer: DERWriter<'_>) -> ASN1Result<()> {
        T::encode_der(*self, writer)
    }

    #[inline(always)]
    fn prepend_shape(&self, out: &mut PrependBuffer) -> ASN1Result<()> {
        T::prepend_der(*self, out)
    }

    #[inline(always)]
    fn shape_len(&self, mode: BERMode) -> Option<usize> {
        T::encoded_len(*self, mode)
    }
}
