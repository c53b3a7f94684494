//! An example of `NamedBits` and `Rest`: an extensible SEQUENCE of mandatory parts.
ghost use Rattle.std.specs.Prelude.{◌≡◌, refl};

use yasna::models::TaggedDerValue;
use yasna::{ASN1Result, BERMode, DERWriter, PrependBuffer, Tag};
use yasna_notation::{DefinedType, Sequence};
use yasna_notation_types::{NamedBits, Rest};

type Parts = (i64, (NamedBits, Rest<TaggedDerValue>));

/// The head of a message, with the elements that this version doesn't know as they came.
#[derive(Drop)]
pub struct Header {
    pub version: i64,
    /// The bytes, and how many bits there are.
    pub flags: (Vec<u8>, usize),
    pub unknown: Vec<TaggedDerValue>,
}

impl DefinedType for Header {
    type Notation = Sequence<Parts>;

    ghost value_of = { λ v. (v.version, (v.flags, v.unknown)) };

    fn from_value(
        (version, (flags, unknown)): (i64, ((Vec<u8>, usize), Vec<TaggedDerValue>)),
    ) -> Header {
        Header {
            version,
            flags,
            unknown,
        }
    }

    fn write_value(&self, writer: DERWriter<'_>) -> ASN1Result<()> {
        Sequence::<Parts>::write_fields((&self.version, (&self.flags, &self.unknown)), writer)
    }

    fn prepend_value(&self, under: Option<Tag>, out: &mut PrependBuffer) -> ASN1Result<()> {
        Sequence::<Parts>::prepend_fields((&self.version, (&self.flags, &self.unknown)), under, out)
    }

    fn value_len(&self, under: Option<Tag>, mode: BERMode) -> Option<usize> {
        Sequence::<Parts>::fields_len((&self.version, (&self.flags, &self.unknown)), under, mode)
    }

    ghost unambiguous = { refl };
}
