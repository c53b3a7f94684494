//! `PreferredSignatureAlgorithm` of the module OCSP.
//!
//! ```text
//! PreferredSignatureAlgorithm ::= SEQUENCE {
//!     sigIdentifier   AlgorithmIdentifier,
//!     certIdentifier  AlgorithmIdentifier OPTIONAL }
//! ```
ghost use Rattle.std.specs.Prelude.{◌≡◌, ◌↔◌, IsTrue, refl};
ghost use Rattle.yasna_notation.specs.Laws.{element_non_empty, represented_lawful};
ghost use Rattle.yasna_notation.specs.Making.{in_sequence, optional_part, part};
ghost use Rattle.yasna_notation.specs.Notation.{represented_by};
ghost use Rattle.yasna_notation.specs.Parts.{no_parts};
ghost use Rattle.x509.specs.contracts.algorithm.AlgorithmIdentifierNotation.TheImpl.Laws.{lawful-law as x509_algorithm_law};

use x509::AlgorithmIdentifier;
use yasna::{ASN1Result, BERMode, BERReader, DERWriter, PrependBuffer, Tag};
use yasna_notation::{Message, Notation, Optional, Represents, Sequence, read_as};
use yasna_notation_constraints::{Checked, accepts_fields};

type Parts = (AlgorithmIdentifier, (Optional<AlgorithmIdentifier>, ()));

type Fields = (AlgorithmIdentifier, (Option<AlgorithmIdentifier>, ()));

type Notated = Sequence<Parts>;

/// `PreferredSignatureAlgorithm`.
#[derive(Drop)]
pub struct PreferredSignatureAlgorithm {
    pub sig_identifier: AlgorithmIdentifier,
    pub cert_identifier: Option<AlgorithmIdentifier>,
}

impl Represents<Fields> for PreferredSignatureAlgorithm {
    ghost value_of = { λ v. (v.sig_identifier, (v.cert_identifier, tt)) };

    fn from_value((sig_identifier, (cert_identifier, ())): Fields) -> PreferredSignatureAlgorithm {
        PreferredSignatureAlgorithm {
            sig_identifier,
            cert_identifier,
        }
    }
}

impl Notation for PreferredSignatureAlgorithm {
    type Value = PreferredSignatureAlgorithm;

    type Inner = ();

    ghost means = { represented_by ⟦<PreferredSignatureAlgorithm as Represents<Fields>>⟧.value_of ⟦<Notated as Notation>⟧.means };

    fn has_tag(tag: Tag) -> bool {
        <Notated as Notation>::has_tag(tag)
    }

    fn read(reader: BERReader) -> ASN1Result<PreferredSignatureAlgorithm> {
        read_as::<Notated, PreferredSignatureAlgorithm>(reader)
    }

    fn write(value: &PreferredSignatureAlgorithm, writer: DERWriter<'_>) -> ASN1Result<()> {
        Sequence::<Parts>::write_fields(
            (&value.sig_identifier, (&value.cert_identifier, ())),
            writer,
        )
    }

    fn prepend(
        value: &PreferredSignatureAlgorithm,
        under: Option<Tag>,
        out: &mut PrependBuffer,
    ) -> ASN1Result<()> {
        Sequence::<Parts>::prepend_fields(
            (&value.sig_identifier, (&value.cert_identifier, ())),
            under,
            out,
        )
    }

    fn encoded_len(
        value: &PreferredSignatureAlgorithm,
        under: Option<Tag>,
        mode: BERMode,
    ) -> Option<usize> {
        Sequence::<Parts>::fields_len(
            (&value.sig_identifier, (&value.cert_identifier, ())),
            under,
            mode,
        )
    }

    ghost lawful = { λ _. represented_lawful ⟦<PreferredSignatureAlgorithm as Represents<Fields>>⟧.value_of (in_sequence
        (part (x509_algorithm_law refl).own (optional_part refl (x509_algorithm_law refl).own no_parts))) };

    ghost non_empty = { λ u m v. element_non_empty _ _ _ _ };
}

impl Message for PreferredSignatureAlgorithm {
    ghost is_unambiguous = { refl };
}

impl Checked for PreferredSignatureAlgorithm {
    fn accepts(value: &PreferredSignatureAlgorithm) -> bool {
        accepts_fields::<Parts, _>((&value.sig_identifier, (&value.cert_identifier, ())))
    }
}
