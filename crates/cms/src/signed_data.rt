//! Signed contents (RFC 5652, 5.1).
//!
//! ```text
//! SignedData ::= SEQUENCE {
//!     version           CMSVersion,
//!     digestAlgorithms  DigestAlgorithmIdentifiers,
//!     encapContentInfo  EncapsulatedContentInfo,
//!     certificates      [0] IMPLICIT CertificateSet OPTIONAL,
//!     crls              [1] IMPLICIT RevocationInfoChoices OPTIONAL,
//!     signerInfos       SignerInfos }
//!
//! CMSVersion ::= INTEGER { v0(0), v1(1), v2(2), v3(3), v4(4), v5(5) }
//!
//! DigestAlgorithmIdentifiers ::= SET OF DigestAlgorithmIdentifier
//!
//! CertificateSet ::= SET OF CertificateChoices
//!
//! RevocationInfoChoices ::= SET OF RevocationInfoChoice
//!
//! SignerInfos ::= SET OF SignerInfo
//! ```
ghost use Rattle.std.specs.Prelude.{◌≡◌, ◌↔◌, IsTrue, refl};
ghost use Rattle.std.proofs.Common.{arith};
ghost use Rattle.yasna_notation.specs.Laws.{represented_lawful, element_non_empty};
ghost use Rattle.yasna_notation.specs.Making.{in_sequence, in_set_of, part, optional_part, in_implicit, at_most};
ghost use Rattle.yasna_notation.specs.Notation.{represented_by};
ghost use Rattle.yasna_notation.specs.Parts.{no_parts};
ghost use Rattle.yasna_notation.specs.contracts.simple.U64Notation.TheImpl.Laws.{lawful-law as number};
ghost use Rattle.x509.specs.contracts.algorithm.AlgorithmIdentifierNotation.TheImpl.Laws.{lawful-law as algorithm};
ghost use Rattle.cms.specs.contracts.encapsulated_content_info.EncapsulatedContentInfoNotation.TheImpl.Laws.{lawful-law as encapsulated};
ghost use Rattle.cms.specs.contracts.certificate_choices.CertificateChoicesNotation.TheImpl.Laws.{lawful-law as certificates};
ghost use Rattle.cms.specs.contracts.revocation_info_choice.RevocationInfoChoiceNotation.TheImpl.Laws.{lawful-law as revocation};
ghost use Rattle.cms.specs.contracts.signer_info.SignerInfoNotation.TheImpl.Laws.{lawful-law as signer_info};

use crate::certificate_choices::CertificateChoices;
use crate::encapsulated_content_info::EncapsulatedContentInfo;
use crate::revocation_info_choice::RevocationInfoChoice;
use crate::signer_info::SignerInfo;
use x509::AlgorithmIdentifier;
use yasna::tags::TAG_SEQUENCE;
use yasna::{ASN1Result, BERMode, BERReader, DERWriter, PrependBuffer, Tag};
use yasna_notation::{
    AtMost, Bounded, Context, Implicit, Message, Notation, Optional, Represents, Sequence, SetOf,
    read_as,
};
use yasna_notation_constraints::{Checked, accepts_fields};

type Version = Bounded<u64, AtMost<5>>;

type CertificateSet = Optional<Implicit<Context<0>, SetOf<CertificateChoices>>>;

type RevocationInfoChoices = Optional<Implicit<Context<1>, SetOf<RevocationInfoChoice>>>;

type Ends = (
    CertificateSet,
    (RevocationInfoChoices, (SetOf<SignerInfo>, ())),
);

type Content = (SetOf<AlgorithmIdentifier>, (EncapsulatedContentInfo, Ends));

type Parts = (Version, Content);

type EndFields = (
    Option<Vec<CertificateChoices>>,
    (Option<Vec<RevocationInfoChoice>>, (Vec<SignerInfo>, ())),
);

type ContentFields = (
    Vec<AlgorithmIdentifier>,
    (EncapsulatedContentInfo, EndFields),
);

type Fields = (u64, ContentFields);

/// Signed contents, with their signers' signatures.
#[derive(Drop)]
pub struct SignedData {
    /// From 0 to 5.
    pub version: u64,
    pub digest_algorithms: Vec<AlgorithmIdentifier>,
    pub encap_content_info: EncapsulatedContentInfo,
    pub certificates: Option<Vec<CertificateChoices>>,
    pub crls: Option<Vec<RevocationInfoChoice>>,
    pub signer_infos: Vec<SignerInfo>,
}

impl Represents<Fields> for SignedData {
    ghost value_of = { λ v. (v.version, (v.digest_algorithms, (v.encap_content_info, (v.certificates, (v.crls, (v.signer_infos, tt)))))) };

    fn from_value(
        (
            version,
            (digest_algorithms, (encap_content_info, (certificates, (crls, (signer_infos, ()))))),
        ): Fields,
    ) -> SignedData {
        SignedData {
            version,
            digest_algorithms,
            encap_content_info,
            certificates,
            crls,
            signer_infos,
        }
    }
}

impl Notation for SignedData {
    type Value = SignedData;

    type Inner = ();

    ghost means = { represented_by ⟦<SignedData as Represents<Fields>>⟧.value_of ⟦<Sequence<Parts> as Notation>⟧.means };

    fn has_tag(tag: Tag) -> bool {
        tag == TAG_SEQUENCE
    }

    fn read(reader: BERReader) -> ASN1Result<SignedData> {
        read_as::<Sequence<Parts>, SignedData>(reader)
    }

    fn write(value: &SignedData, writer: DERWriter<'_>) -> ASN1Result<()> {
        let ends = (
            &value.certificates,
            (&value.crls, (&value.signer_infos, ())),
        );
        Sequence::<Parts>::write_fields(
            (
                &value.version,
                (&value.digest_algorithms, (&value.encap_content_info, ends)),
            ),
            writer,
        )
    }

    fn prepend(value: &SignedData, under: Option<Tag>, out: &mut PrependBuffer) -> ASN1Result<()> {
        let ends = (
            &value.certificates,
            (&value.crls, (&value.signer_infos, ())),
        );
        Sequence::<Parts>::prepend_fields(
            (
                &value.version,
                (&value.digest_algorithms, (&value.encap_content_info, ends)),
            ),
            under,
            out,
        )
    }

    fn encoded_len(value: &SignedData, under: Option<Tag>, mode: BERMode) -> Option<usize> {
        let ends = (
            &value.certificates,
            (&value.crls, (&value.signer_infos, ())),
        );
        Sequence::<Parts>::fields_len(
            (
                &value.version,
                (&value.digest_algorithms, (&value.encap_content_info, ends)),
            ),
            under,
            mode,
        )
    }

    ghost lawful = { λ _. represented_lawful ⟦<SignedData as Represents<Fields>>⟧.value_of
        (in_sequence (part (at_most 5 (number refl)).own (part (in_set_of (algorithm refl).own).own (part (encapsulated refl).own
        (optional_part refl (in_implicit 0 (omega arith) (in_set_of (certificates refl).own)).own
        (optional_part refl (in_implicit 1 (omega arith) (in_set_of (revocation refl).own)).own (part (in_set_of (signer_info refl).own).own no_parts))))))) };

    ghost non_empty = { λ u m v. element_non_empty _ _ _ _ };
}

impl Message for SignedData {
    ghost is_unambiguous = { refl };
}

impl Checked for SignedData {
    fn accepts(value: &SignedData) -> bool {
        let ends = (
            &value.certificates,
            (&value.crls, (&value.signer_infos, ())),
        );
        accepts_fields::<Parts, _>((
            &value.version,
            (&value.digest_algorithms, (&value.encap_content_info, ends)),
        ))
    }
}
