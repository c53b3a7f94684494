//! An example of `GeneralString`: the name of a principal (RFC 4120, 5.2.2).
//!
//! ```text
//! PrincipalName  ::= SEQUENCE {
//!     name-type    [0] Int32,
//!     name-string  [1] SEQUENCE OF KerberosString }
//!
//! Int32          ::= INTEGER (-2147483648..2147483647)
//! KerberosString ::= GeneralString
//! ```
ghost use Rattle.std.specs.Prelude.{◌≡◌, refl};

use yasna_base::{ASN1Result, BERMode, Tag};
use yasna_notation::{Context, DefinedType, Explicit, Sequence, SequenceOf};
use yasna_notation_types::GeneralString;
use yasna_writer::{DERWriter, PrependBuffer};

type Parts = (
    Explicit<Context<0>, i32>,
    (Explicit<Context<1>, SequenceOf<GeneralString>>, ()),
);

/// The name of a principal: its kind, and the octets of its components.
#[derive(Drop)]
pub struct PrincipalName {
    pub name_type: i32,
    pub name_string: Vec<Vec<u8>>,
}

impl DefinedType for PrincipalName {
    type Notation = Sequence<Parts>;

    ghost value_of = { λ v. (v.name_type, (v.name_string, tt)) };

    fn from_value((name_type, (name_string, ())): (i32, (Vec<Vec<u8>>, ()))) -> PrincipalName {
        PrincipalName {
            name_type,
            name_string,
        }
    }

    fn write_value(&self, writer: DERWriter<'_>) -> ASN1Result<()> {
        Sequence::<Parts>::write_fields((&self.name_type, (&self.name_string, ())), writer)
    }

    fn prepend_value(&self, under: Option<Tag>, out: &mut PrependBuffer) -> ASN1Result<()> {
        Sequence::<Parts>::prepend_fields((&self.name_type, (&self.name_string, ())), under, out)
    }

    fn value_len(&self, under: Option<Tag>, mode: BERMode) -> Option<usize> {
        Sequence::<Parts>::fields_len((&self.name_type, (&self.name_string, ())), under, mode)
    }

    ghost unambiguous = { refl };
}
