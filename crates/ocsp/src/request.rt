//! `Request` of the module OCSP.
//!
//! ```text
//! Request ::= SEQUENCE {
//!     reqCert                  CertID,
//!     singleRequestExtensions  [0] Extensions OPTIONAL }
//! ```
ghost use Rattle.std.specs.Prelude.{◌≡◌, ◌↔◌, IsTrue, refl};
ghost use Rattle.std.proofs.Common.{arith};
ghost use Rattle.yasna_notation.specs.Laws.{element_non_empty, represented_lawful};
ghost use Rattle.yasna_notation.specs.Making.{in_explicit, in_sequence, optional_part, part};
ghost use Rattle.yasna_notation.specs.Notation.{represented_by};
ghost use Rattle.yasna_notation.specs.Parts.{no_parts};
ghost use Rattle.ocsp.specs.contracts.cert_id.CertIdNotation.TheImpl.Laws.{lawful-law as cert_id_law};
ghost use Rattle.x509.specs.contracts.extensions.ExtensionsNotation.TheImpl.Laws.{lawful-law as x509_extensions_law};

use crate::cert_id::CertId;
use x509::Extensions;
use yasna::{ASN1Result, BERMode, BERReader, DERWriter, PrependBuffer, Tag};
use yasna_notation::{
    Context, Explicit, Message, Notation, Optional, Represents, Sequence, read_as,
};
use yasna_notation_constraints::{Checked, accepts_fields};

type Parts = (CertId, (Optional<Explicit<Context<0>, Extensions>>, ()));

type Fields = (CertId, (Option<Extensions>, ()));

type Notated = Sequence<Parts>;

/// `Request`.
#[derive(Drop)]
pub struct Request {
    pub req_cert: CertId,
    pub single_request_extensions: Option<Extensions>,
}

impl Represents<Fields> for Request {
    ghost value_of = { λ v. (v.req_cert, (v.single_request_extensions, tt)) };

    fn from_value((req_cert, (single_request_extensions, ())): Fields) -> Request {
        Request {
            req_cert,
            single_request_extensions,
        }
    }
}

impl Notation for Request {
    type Value = Request;

    type Inner = ();

    ghost means = { represented_by ⟦<Request as Represents<Fields>>⟧.value_of ⟦<Notated as Notation>⟧.means };

    fn has_tag(tag: Tag) -> bool {
        <Notated as Notation>::has_tag(tag)
    }

    fn read(reader: BERReader) -> ASN1Result<Request> {
        read_as::<Notated, Request>(reader)
    }

    fn write(value: &Request, writer: DERWriter<'_>) -> ASN1Result<()> {
        Sequence::<Parts>::write_fields(
            (&value.req_cert, (&value.single_request_extensions, ())),
            writer,
        )
    }

    fn prepend(value: &Request, under: Option<Tag>, out: &mut PrependBuffer) -> ASN1Result<()> {
        Sequence::<Parts>::prepend_fields(
            (&value.req_cert, (&value.single_request_extensions, ())),
            under,
            out,
        )
    }

    fn encoded_len(value: &Request, under: Option<Tag>, mode: BERMode) -> Option<usize> {
        Sequence::<Parts>::fields_len(
            (&value.req_cert, (&value.single_request_extensions, ())),
            under,
            mode,
        )
    }

    ghost lawful = { λ _. represented_lawful ⟦<Request as Represents<Fields>>⟧.value_of (in_sequence
        (part (cert_id_law refl).own (optional_part refl (in_explicit 0 (omega arith) (x509_extensions_law refl).own).own no_parts))) };

    ghost non_empty = { λ u m v. element_non_empty _ _ _ _ };
}

impl Message for Request {
    ghost is_unambiguous = { refl };
}

impl Checked for Request {
    fn accepts(value: &Request) -> bool {
        accepts_fields::<Parts, _>((&value.req_cert, (&value.single_request_extensions, ())))
    }
}
