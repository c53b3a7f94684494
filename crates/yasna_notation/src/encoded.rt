//! The traits of `yasna` for types that a module defines.
ghost use Rattle.std.specs.Prelude.{◌≡◌, None};
ghost use Rattle.yasna_base.proofs.Coding.{along};
ghost use Rattle.yasna_base.proofs.Exact.{exact_along};

use crate::messages::Message;
use crate::notation::Notation;
use yasna::{BERDecodable, DEREncodable, DERExact};
use yasna_base::{ASN1Result, BERMode};
use yasna_reader::BERReader;
use yasna_writer::{DERWriter, PrependBuffer};

/// A value of a type that a module defines, with the traits of `yasna`: it is decoded and encoded as a whole.
///
/// ```rust
/// pub fn extension_from_ber(alloc: Global, bytes: &[u8]) -> ASN1Result<Extension> {
///     let encoded: Encoded<Extension> = decode_ber(alloc, bytes)?;
///     Ok(encoded.into_value())
/// }
/// ```
#[derive(Drop)]
pub struct Encoded<T> {
    /// The value.
    pub value: T,
}

impl<T> Encoded<T> {
    /// The value.
    #[inline(always)]
    pub fn into_value(self) -> T
        ensures { result ≡ self.value }
    {
        let Encoded { value } = self;
        value
    }
}

impl<T: Message> BERDecodable for Encoded<T> {
    ghost encodes = { λ m n v b. T.means.under None m n v.value b };

    ghost elements = { T.means.any_under None };

    ghost may_allocate = { T.means.may_allocate };

    ghost same = { λ v w. T.means.same v.value w.value };

    #[inline(always)]
    fn decode_ber(reader: BERReader) -> ASN1Result<Encoded<T>> {
        let value = <T as Notation>::read(reader)?;
        Ok(Encoded { value })
    }

    ghost coding = { along (λ v. v.value) (T.lawful T.is_unambiguous).own.coding };
}

impl<T: Message> DEREncodable for Encoded<T> {
    ghost encoding = { λ m v. T.means.encoding_under None m v.value };

    ghost depth = { λ m v. T.means.depth m v.value };

    ghost encodable = { λ v. T.means.can v.value };

    #[inline(always)]
    fn encode_der(&self, writer: DERWriter<'_>) -> ASN1Result<()> {
        <T as Notation>::write(&self.value, writer)
    }

    #[inline(always)]
    fn prepend_der(&self, out: &mut PrependBuffer) -> ASN1Result<()> {
        <T as Notation>::prepend(&self.value, None, out)
    }

    #[inline(always)]
    fn encoded_len(&self, mode: BERMode) -> Option<usize> {
        <T as Notation>::encoded_len(&self.value, None, mode)
    }
}

impl<T: Message> DERExact for Encoded<T> {
    ghost fits = { λ m n v. T.means.fits m n v.value };

    ghost exact = { exact_along (λ v. v.value) (T.lawful T.is_unambiguous).own.exact };
}
