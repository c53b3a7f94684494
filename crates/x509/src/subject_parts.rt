//! What a TBSCertificate holds from its validity on.
//!
//! Split off only to keep the proofs small; it isn't a type of RFC 5280. What the whole requires of these parts is proved here once, and not
//! for each part before them.
ghost use Rattle.std.specs.Prelude.{◌≡◌, ◌↔◌, IsTrue, refl};
ghost use Rattle.std.proofs.Common.{arith};
ghost use Rattle.yasna_notation.specs.Making.{part, optional_part, in_explicit, in_implicit};
ghost use Rattle.yasna_notation.specs.Parts.{no_parts};
ghost use Rattle.yasna_notation.specs.contracts.strings.BitStringNotation.TheImpl.Laws.{lawful-law as bits};
ghost use Rattle.x509.specs.contracts.name.NameNotation.TheImpl.Laws.{lawful-law as name};
ghost use Rattle.x509.specs.contracts.validity.ValidityNotation.TheImpl.Laws.{lawful-law as validity};
ghost use Rattle.x509.specs.contracts.public_key.SubjectPublicKeyInfoNotation.TheImpl.Laws.{lawful-law as public_key};
ghost use Rattle.x509.specs.contracts.extensions.ExtensionsNotation.TheImpl.Laws.{lawful-law as extensions};

use crate::extensions::Extensions;
use crate::name::Name;
use crate::public_key::SubjectPublicKeyInfo;
use crate::tbs_certificate::TbsCertificate;
use crate::validity::Validity;
use yasna::{ASN1Result, BERMode, BERReaderSeq, DERWriterSeq, PrependBuffer};
use yasna_notation::{BitString, Context, Explicit, Implicit, Optional, Parts, PartsBy};
use yasna_notation_constraints::CheckedBy;

type IssuerUniqueId = Optional<Implicit<Context<1>, BitString>>;

type SubjectUniqueId = Optional<Implicit<Context<2>, BitString>>;

type CertificateExtensions = Optional<Explicit<Context<3>, Extensions>>;

type Ends = (
    IssuerUniqueId,
    (SubjectUniqueId, (CertificateExtensions, ())),
);

type SubjectPartsList = (Validity, (Name, (SubjectPublicKeyInfo, Ends)));

type EndFields = (
    Option<(Vec<u8>, usize)>,
    (Option<(Vec<u8>, usize)>, (Option<Extensions>, ())),
);

/// The values of these parts.
pub type SubjectFields = (Validity, (Name, (SubjectPublicKeyInfo, EndFields)));

/// The parts of a TBSCertificate from its validity on.
pub struct SubjectParts;

impl Parts for SubjectParts {
    type Values = SubjectFields;

    type Inner = ();

    ghost tags_known = { ⟦<SubjectPartsList as Parts>⟧.tags_known };

    ghost tags = { ⟦<SubjectPartsList as Parts>⟧.tags };

    ghost unambiguous = { ⟦<SubjectPartsList as Parts>⟧.unambiguous };

    ghost parts = { ⟦<SubjectPartsList as Parts>⟧.parts };

    ghost any_parts = { ⟦<SubjectPartsList as Parts>⟧.any_parts };

    ghost may_allocate = { ⟦<SubjectPartsList as Parts>⟧.may_allocate };

    ghost same = { ⟦<SubjectPartsList as Parts>⟧.same };

    ghost encoding = { ⟦<SubjectPartsList as Parts>⟧.encoding };

    ghost depth = { ⟦<SubjectPartsList as Parts>⟧.depth };

    ghost can = { ⟦<SubjectPartsList as Parts>⟧.can };

    ghost fits = { ⟦<SubjectPartsList as Parts>⟧.fits };

    #[inline(always)]
    fn read_parts(seq: &mut BERReaderSeq) -> ASN1Result<SubjectFields> {
        <SubjectPartsList as Parts>::read_parts(seq)
    }

    #[inline(always)]
    fn write_parts(values: &SubjectFields, seq: &mut DERWriterSeq) -> ASN1Result<()> {
        <SubjectPartsList as Parts>::write_parts(values, seq)
    }

    #[inline(always)]
    fn prepend_parts(values: &SubjectFields, out: &mut PrependBuffer) -> ASN1Result<()> {
        <SubjectPartsList as Parts>::prepend_parts(values, out)
    }

    #[inline(always)]
    fn parts_len(values: &SubjectFields, mode: BERMode) -> Option<usize> {
        <SubjectPartsList as Parts>::parts_len(values, mode)
    }

    ghost laws = { λ _. part (validity refl).own (part (name refl).own (part (public_key refl).own
        (optional_part refl (in_implicit 1 (omega arith) (bits refl)).own
        (optional_part refl (in_implicit 2 (omega arith) (bits refl)).own
        (optional_part refl (in_explicit 3 (omega arith) (extensions refl).own).own no_parts))))) };
}

impl<'a> PartsBy<&'a TbsCertificate> for SubjectParts {
    type Held = SubjectFields;

    ghost held = { λ r. (r.now.validity, (r.now.subject, (r.now.subject_public_key_info, (r.now.issuer_unique_id, (r.now.subject_unique_id, (r.now.extensions, tt)))))) };

    ghost encoding_by = { ⟦<SubjectPartsList as Parts>⟧.encoding };

    ghost can_by = { ⟦<SubjectPartsList as Parts>⟧.can };

    #[inline(always)]
    fn write_each(certificate: &&'a TbsCertificate, seq: &mut DERWriterSeq) -> ASN1Result<()> {
        let ends = (
            &certificate.issuer_unique_id,
            (
                &certificate.subject_unique_id,
                (&certificate.extensions, ()),
            ),
        );
        let fields = (
            &certificate.validity,
            (
                &certificate.subject,
                (&certificate.subject_public_key_info, ends),
            ),
        );
        SubjectPartsList::write_each(&fields, seq)
    }

    #[inline(always)]
    fn prepend_each(certificate: &&'a TbsCertificate, out: &mut PrependBuffer) -> ASN1Result<()> {
        let ends = (
            &certificate.issuer_unique_id,
            (
                &certificate.subject_unique_id,
                (&certificate.extensions, ()),
            ),
        );
        let fields = (
            &certificate.validity,
            (
                &certificate.subject,
                (&certificate.subject_public_key_info, ends),
            ),
        );
        SubjectPartsList::prepend_each(&fields, out)
    }

    #[inline(always)]
    fn each_len(certificate: &&'a TbsCertificate, mode: BERMode) -> Option<usize> {
        let ends = (
            &certificate.issuer_unique_id,
            (
                &certificate.subject_unique_id,
                (&certificate.extensions, ()),
            ),
        );
        let fields = (
            &certificate.validity,
            (
                &certificate.subject,
                (&certificate.subject_public_key_info, ends),
            ),
        );
        SubjectPartsList::each_len(&fields, mode)
    }
}

impl<'a> CheckedBy<&'a TbsCertificate> for SubjectParts {
    type Held = SubjectFields;

    ghost held = { λ r. (r.now.validity, (r.now.subject, (r.now.subject_public_key_info, (r.now.issuer_unique_id, (r.now.subject_unique_id, (r.now.extensions, tt)))))) };

    ghost can_by = { ⟦<SubjectPartsList as Parts>⟧.can };

    #[inline(always)]
    fn accept_each(certificate: &&'a TbsCertificate) -> bool {
        let ends = (
            &certificate.issuer_unique_id,
            (
                &certificate.subject_unique_id,
                (&certificate.extensions, ()),
            ),
        );
        let fields = (
            &certificate.validity,
            (
                &certificate.subject,
                (&certificate.subject_public_key_info, ends),
            ),
        );
        SubjectPartsList::accept_each(&fields)
    }
}
