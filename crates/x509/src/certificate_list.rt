//! Revocation lists (RFC 5280, 5.1).
//!
//! ```text
//! CertificateList ::= SEQUENCE {
//!     tbsCertList         TBSCertList,
//!     signatureAlgorithm  AlgorithmIdentifier,
//!     signatureValue      BIT STRING }
//! ```
ghost use Rattle.std.specs.Prelude.{◌≡◌, ◌↔◌, IsTrue, refl};
ghost use Rattle.yasna_notation.specs.Laws.{represented_lawful, element_non_empty};
ghost use Rattle.yasna_notation.specs.Making.{in_sequence, part};
ghost use Rattle.yasna_notation.specs.Notation.{represented_by};
ghost use Rattle.yasna_notation.specs.Parts.{no_parts};
ghost use Rattle.yasna_notation.specs.contracts.strings.BitStringNotation.TheImpl.Laws.{lawful-law as bits};
ghost use Rattle.x509.specs.contracts.algorithm.AlgorithmIdentifierNotation.TheImpl.Laws.{lawful-law as algorithm};
ghost use Rattle.x509.specs.contracts.tbs_cert_list.TbsCertListNotation.TheImpl.Laws.{lawful-law as tbs_list};

use crate::algorithm::AlgorithmIdentifier;
use crate::tbs_cert_list::TbsCertList;
use yasna::tags::TAG_SEQUENCE;
use yasna::{ASN1Result, BERMode, BERReader, DERWriter, PrependBuffer, Tag};
use yasna_notation::{BitString, Message, Notation, Represents, Sequence, read_as};
use yasna_notation_constraints::{Checked, accepts_fields};

type Parts = (TbsCertList, (AlgorithmIdentifier, (BitString, ())));

type Fields = (TbsCertList, (AlgorithmIdentifier, ((Vec<u8>, usize), ())));

/// A revocation list.
#[derive(Drop)]
pub struct CertificateList {
    pub tbs_cert_list: TbsCertList,
    pub signature_algorithm: AlgorithmIdentifier,
    /// The bits of the signature, as octets and a count.
    pub signature_value: (Vec<u8>, usize),
}

impl Represents<Fields> for CertificateList {
    ghost value_of = { λ v. (v.tbs_cert_list, (v.signature_algorithm, (v.signature_value, tt))) };

    fn from_value(
        (tbs_cert_list, (signature_algorithm, (signature_value, ()))): Fields,
    ) -> CertificateList {
        CertificateList {
            tbs_cert_list,
            signature_algorithm,
            signature_value,
        }
    }
}

impl Notation for CertificateList {
    type Value = CertificateList;

    type Inner = ();

    ghost means = { represented_by ⟦<CertificateList as Represents<Fields>>⟧.value_of ⟦<Sequence<Parts> as Notation>⟧.means };

    fn has_tag(tag: Tag) -> bool {
        tag == TAG_SEQUENCE
    }

    fn read(reader: BERReader) -> ASN1Result<CertificateList> {
        read_as::<Sequence<Parts>, CertificateList>(reader)
    }

    fn write(value: &CertificateList, writer: DERWriter<'_>) -> ASN1Result<()> {
        Sequence::<Parts>::write_fields(
            (
                &value.tbs_cert_list,
                (&value.signature_algorithm, (&value.signature_value, ())),
            ),
            writer,
        )
    }

    fn prepend(
        value: &CertificateList,
        under: Option<Tag>,
        out: &mut PrependBuffer,
    ) -> ASN1Result<()> {
        Sequence::<Parts>::prepend_fields(
            (
                &value.tbs_cert_list,
                (&value.signature_algorithm, (&value.signature_value, ())),
            ),
            under,
            out,
        )
    }

    fn encoded_len(value: &CertificateList, under: Option<Tag>, mode: BERMode) -> Option<usize> {
        Sequence::<Parts>::fields_len(
            (
                &value.tbs_cert_list,
                (&value.signature_algorithm, (&value.signature_value, ())),
            ),
            under,
            mode,
        )
    }

    ghost lawful = { λ _. represented_lawful ⟦<CertificateList as Represents<Fields>>⟧.value_of
        (in_sequence (part (tbs_list refl).own (part (algorithm refl).own (part (bits refl).own no_parts)))) };

    ghost non_empty = { λ u m v. element_non_empty _ _ _ _ };
}

impl Message for CertificateList {
    ghost is_unambiguous = { refl };
}

impl Checked for CertificateList {
    fn accepts(value: &CertificateList) -> bool {
        accepts_fields::<Parts, _>((
            &value.tbs_cert_list,
            (&value.signature_algorithm, (&value.signature_value, ())),
        ))
    }
}
