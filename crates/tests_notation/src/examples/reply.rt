//! An example of `Named`: a SEQUENCE with two enums.
//!
//! ```text
//! Reply ::= SEQUENCE {
//!     status  ENUMERATED { successful (0), malformedRequest (1), tryLater (3), sigRequired (5) },
//!     code    [0] IMPLICIT ENUMERATED { success (0), busy (51), ... } }
//! ```
ghost use Rattle.std.specs.Prelude.{◌≡◌, refl};

use yasna_base::{ASN1Result, BERMode, Tag};
use yasna_notation::{Context, DefinedType, Implicit, Sequence};
use yasna_notation_types::{Named, ResponseStatus, ResultCode};
use yasna_writer::{DERWriter, PrependBuffer};

type Parts = (
    Named<ResponseStatus>,
    (Implicit<Context<0>, Named<ResultCode>>, ()),
);

/// A reply.
#[derive(Drop)]
pub struct Reply {
    pub status: ResponseStatus,
    pub code: ResultCode,
}

impl DefinedType for Reply {
    type Notation = Sequence<Parts>;

    ghost value_of = { λ v. (v.status, (v.code, tt)) };

    fn from_value((status, (code, ())): (ResponseStatus, (ResultCode, ()))) -> Reply {
        Reply { status, code }
    }

    fn write_value(&self, writer: DERWriter<'_>) -> ASN1Result<()> {
        Sequence::<Parts>::write_fields((&self.status, (&self.code, ())), writer)
    }

    fn prepend_value(&self, under: Option<Tag>, out: &mut PrependBuffer) -> ASN1Result<()> {
        Sequence::<Parts>::prepend_fields((&self.status, (&self.code, ())), under, out)
    }

    fn value_len(&self, under: Option<Tag>, mode: BERMode) -> Option<usize> {
        Sequence::<Parts>::fields_len((&self.status, (&self.code, ())), under, mode)
    }

    ghost unambiguous = { refl };
}
