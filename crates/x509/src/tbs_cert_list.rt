//! What is signed of a revocation list (RFC 5280, 5.1).
//!
//! ```text
//! TBSCertList ::= SEQUENCE {
//!     version              Version OPTIONAL, -- v2, where it is there
//!     signature            AlgorithmIdentifier,
//!     issuer               Name,
//!     thisUpdate           Time,
//!     nextUpdate           Time OPTIONAL,
//!     revokedCertificates  SEQUENCE OF SEQUENCE { .. } OPTIONAL,
//!     crlExtensions        [0] EXPLICIT Extensions OPTIONAL }
//! ```
ghost use Rattle.std.specs.Prelude.{◌≡◌, ◌↔◌, IsTrue, refl};
ghost use Rattle.yasna_notation.specs.Laws.{represented_lawful, element_non_empty};
ghost use Rattle.yasna_notation.specs.Making.{in_sequence, in_sequence_of, part, optional_part, in_explicit, exactly, in_bound};
ghost use Rattle.yasna_notation.specs.Notation.{represented_by};
ghost use Rattle.yasna_notation.specs.Parts.{no_parts};
ghost use Rattle.std.proofs.Common.{arith};
ghost use Rattle.yasna_notation.specs.contracts.simple.U64Notation.TheImpl.Laws.{lawful-law as number};
ghost use Rattle.x509.specs.contracts.time_part.TimePartNotation.TheImpl.Laws.{lawful-law as time};
ghost use Rattle.x509.specs.contracts.algorithm.AlgorithmIdentifierNotation.TheImpl.Laws.{lawful-law as algorithm};
ghost use Rattle.x509.specs.contracts.name.NameNotation.TheImpl.Laws.{lawful-law as name};
ghost use Rattle.x509.specs.contracts.extensions.ExtensionsNotation.TheImpl.Laws.{lawful-law as extensions};
ghost use Rattle.x509.specs.contracts.revoked_certificate.RevokedCertificateNotation.TheImpl.Laws.{lawful-law as revoked};

use crate::algorithm::AlgorithmIdentifier;
use crate::extensions::Extensions;
use crate::name::Name;
use crate::revoked_certificate::RevokedCertificate;
use crate::time::Time;
use crate::time_part::TimePart;
use yasna::tags::TAG_SEQUENCE;
use yasna::{ASN1Result, BERMode, BERReader, DERWriter, PrependBuffer, Tag};
use yasna_notation::{
    Bounded, Context, Exactly, Explicit, Message, Notation, Optional, Represents, Sequence,
    SequenceOf, read_as,
};
use yasna_notation_constraints::{Checked, accepts_fields};

type Revoked = Optional<SequenceOf<RevokedCertificate>>;

type CrlExtensions = Optional<Explicit<Context<0>, Extensions>>;

type Updates = (
    TimePart,
    (Optional<TimePart>, (Revoked, (CrlExtensions, ()))),
);

type Parts = (
    Optional<Bounded<u64, Exactly<1>>>,
    (AlgorithmIdentifier, (Name, Updates)),
);

type UpdateFields = (
    Time,
    (
        Option<Time>,
        (Option<Vec<RevokedCertificate>>, (Option<Extensions>, ())),
    ),
);

type Fields = (Option<u64>, (AlgorithmIdentifier, (Name, UpdateFields)));

/// What is signed of a revocation list.
#[derive(Drop)]
pub struct TbsCertList {
    /// 1 for v2; absent for v1.
    pub version: Option<u64>,
    /// The algorithm of the signature.
    pub signature: AlgorithmIdentifier,
    pub issuer: Name,
    pub this_update: Time,
    pub next_update: Option<Time>,
    pub revoked_certificates: Option<Vec<RevokedCertificate>>,
    pub crl_extensions: Option<Extensions>,
}

impl Represents<Fields> for TbsCertList {
    ghost value_of = { λ v. (v.version, (v.signature, (v.issuer, (v.this_update, (v.next_update, (v.revoked_certificates, (v.crl_extensions, tt))))))) };

    fn from_value((version, (signature, (issuer, others))): Fields) -> TbsCertList {
        let (this_update, (next_update, (revoked_certificates, (crl_extensions, ())))) = others;
        TbsCertList {
            version,
            signature,
            issuer,
            this_update,
            next_update,
            revoked_certificates,
            crl_extensions,
        }
    }
}

impl Notation for TbsCertList {
    type Value = TbsCertList;

    type Inner = ();

    ghost means = { represented_by ⟦<TbsCertList as Represents<Fields>>⟧.value_of ⟦<Sequence<Parts> as Notation>⟧.means };

    fn has_tag(tag: Tag) -> bool {
        tag == TAG_SEQUENCE
    }

    fn read(reader: BERReader) -> ASN1Result<TbsCertList> {
        read_as::<Sequence<Parts>, TbsCertList>(reader)
    }

    fn write(value: &TbsCertList, writer: DERWriter<'_>) -> ASN1Result<()> {
        let ends = (
            &value.next_update,
            (&value.revoked_certificates, (&value.crl_extensions, ())),
        );
        Sequence::<Parts>::write_fields(
            (
                &value.version,
                (
                    &value.signature,
                    (&value.issuer, (&value.this_update, ends)),
                ),
            ),
            writer,
        )
    }

    fn prepend(value: &TbsCertList, under: Option<Tag>, out: &mut PrependBuffer) -> ASN1Result<()> {
        let ends = (
            &value.next_update,
            (&value.revoked_certificates, (&value.crl_extensions, ())),
        );
        Sequence::<Parts>::prepend_fields(
            (
                &value.version,
                (
                    &value.signature,
                    (&value.issuer, (&value.this_update, ends)),
                ),
            ),
            under,
            out,
        )
    }

    fn encoded_len(value: &TbsCertList, under: Option<Tag>, mode: BERMode) -> Option<usize> {
        let ends = (
            &value.next_update,
            (&value.revoked_certificates, (&value.crl_extensions, ())),
        );
        Sequence::<Parts>::fields_len(
            (
                &value.version,
                (
                    &value.signature,
                    (&value.issuer, (&value.this_update, ends)),
                ),
            ),
            under,
            mode,
        )
    }

    ghost lawful = { λ _. represented_lawful ⟦<TbsCertList as Represents<Fields>>⟧.value_of
        (in_sequence (optional_part refl (in_bound (exactly 1) (number refl)).own
        (part (algorithm refl).own (part (name refl).own (part (time refl).own (optional_part refl (time refl).own
        (optional_part refl (in_sequence_of (revoked refl).own).own
        (optional_part refl (in_explicit 0 (omega arith) (extensions refl).own).own no_parts)))))))) };

    ghost non_empty = { λ u m v. element_non_empty _ _ _ _ };
}

impl Message for TbsCertList {
    ghost is_unambiguous = { refl };
}

impl Checked for TbsCertList {
    fn accepts(value: &TbsCertList) -> bool {
        let ends = (
            &value.next_update,
            (&value.revoked_certificates, (&value.crl_extensions, ())),
        );
        accepts_fields::<Parts, _>((
            &value.version,
            (
                &value.signature,
                (&value.issuer, (&value.this_update, ends)),
            ),
        ))
    }
}
