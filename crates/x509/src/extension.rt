//! Extensions (RFC 5280, 4.1).
//!
//! ```text
//! Extension ::= SEQUENCE {
//!     extnID     OBJECT IDENTIFIER,
//!     critical   BOOLEAN DEFAULT FALSE,
//!     extnValue  OCTET STRING }
//! ```
ghost use Rattle.std.specs.Prelude.{◌≡◌, ◌↔◌, IsTrue, refl};

use yasna::models::ObjectIdentifier;
use yasna::{ASN1Result, BERMode, DERWriter, PrependBuffer, Tag};
use yasna_notation::{Default, DefinedType, False, Sequence};
use yasna_notation_constraints::{CheckedType, accepts_fields};

type Parts = (ObjectIdentifier, (Default<bool, False>, (Vec<u8>, ())));

/// An extension: its name, whether one who doesn't know it has to reject, and the octets that hold its value.
#[derive(Drop)]
pub struct Extension {
    pub extn_id: ObjectIdentifier,
    pub critical: bool,
    pub extn_value: Vec<u8>,
}

impl DefinedType for Extension {
    type Notation = Sequence<Parts>;

    ghost value_of = { λ v. (v.extn_id, (v.critical, (v.extn_value, tt))) };

    fn from_value(
        (extn_id, (critical, (extn_value, ()))): (ObjectIdentifier, (bool, (Vec<u8>, ()))),
    ) -> Extension {
        Extension {
            extn_id,
            critical,
            extn_value,
        }
    }

    fn write_value(&self, writer: DERWriter<'_>) -> ASN1Result<()> {
        Sequence::<Parts>::write_fields(
            (&self.extn_id, (&self.critical, (&self.extn_value, ()))),
            writer,
        )
    }

    fn prepend_value(&self, under: Option<Tag>, out: &mut PrependBuffer) -> ASN1Result<()> {
        Sequence::<Parts>::prepend_fields(
            (&self.extn_id, (&self.critical, (&self.extn_value, ()))),
            under,
            out,
        )
    }

    fn value_len(&self, under: Option<Tag>, mode: BERMode) -> Option<usize> {
        Sequence::<Parts>::fields_len(
            (&self.extn_id, (&self.critical, (&self.extn_value, ()))),
            under,
            mode,
        )
    }

    ghost unambiguous = { refl };
}

impl CheckedType for Extension {
    fn accepts_value(&self) -> bool {
        accepts_fields::<Parts, _>((&self.extn_id, (&self.critical, (&self.extn_value, ()))))
    }
}
