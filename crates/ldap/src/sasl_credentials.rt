//! Credentials of the Simple Authentication and Security Layer (RFC 4511, 4.2).
//!
//! ```text
//! SaslCredentials ::= SEQUENCE {
//!     mechanism    LDAPString,
//!     credentials  OCTET STRING OPTIONAL,
//!     ... }
//!
//! LDAPString ::= OCTET STRING
//! ```
ghost use Rattle.std.specs.Prelude.{◌≡◌, ◌↔◌, ◌∷◌, [], IsTrue, refl};
ghost use Rattle.yasna_notation.specs.Laws.{represented_lawful, element_non_empty};
ghost use Rattle.yasna_notation.specs.Making.{in_sequence, part};
ghost use Rattle.yasna_notation.specs.Notation.{represented_by};
ghost use Rattle.yasna_notation_types.specs.OpenChoice.{any_lawful};
ghost use Rattle.yasna_notation_types.specs.Others.{other_may, others_laws, others_within, possible};
ghost use Rattle.yasna_base.specs.Octets.{octets_tag};
ghost use Rattle.yasna_notation.specs.contracts.strings.VecU8Notation.TheImpl.Laws.{lawful-law as octets};

use yasna::models::TaggedDerValue;
use yasna::tags::TAG_SEQUENCE;
use yasna::{ASN1Result, BERMode, BERReader, DERWriter, PrependBuffer, Tag};
use yasna_notation::{Message, Notation, Represents, Sequence, read_as};
use yasna_notation_constraints::{Checked, accepts_fields};
use yasna_notation_types::{Others, Possible};

type Parts = (Vec<u8>, Possible<Vec<u8>, Others<Vec<u8>>>);

type Fields = (Vec<u8>, (Option<Vec<u8>>, Vec<TaggedDerValue>));

/// The client's credentials for a mechanism.
#[derive(Drop)]
pub struct SaslCredentials {
    /// The name of the mechanism.
    pub mechanism: Vec<u8>,
    pub credentials: Option<Vec<u8>>,
    /// The components at the end that this version doesn't know, as they came.
    pub unknown: Vec<TaggedDerValue>,
}

impl Represents<Fields> for SaslCredentials {
    ghost value_of = { λ v. (v.mechanism, (v.credentials, v.unknown)) };

    fn from_value((mechanism, (credentials, unknown)): Fields) -> SaslCredentials {
        SaslCredentials {
            mechanism,
            credentials,
            unknown,
        }
    }
}

impl Notation for SaslCredentials {
    type Value = SaslCredentials;

    type Inner = ();

    ghost means = { represented_by ⟦<SaslCredentials as Represents<Fields>>⟧.value_of ⟦<Sequence<Parts> as Notation>⟧.means };

    fn has_tag(tag: Tag) -> bool {
        tag == TAG_SEQUENCE
    }

    fn read(reader: BERReader) -> ASN1Result<SaslCredentials> {
        read_as::<Sequence<Parts>, SaslCredentials>(reader)
    }

    fn write(value: &SaslCredentials, writer: DERWriter<'_>) -> ASN1Result<()> {
        Sequence::<Parts>::write_fields(
            (&value.mechanism, (&value.credentials, &value.unknown)),
            writer,
        )
    }

    fn prepend(
        value: &SaslCredentials,
        under: Option<Tag>,
        out: &mut PrependBuffer,
    ) -> ASN1Result<()> {
        Sequence::<Parts>::prepend_fields(
            (&value.mechanism, (&value.credentials, &value.unknown)),
            under,
            out,
        )
    }

    fn encoded_len(value: &SaslCredentials, under: Option<Tag>, mode: BERMode) -> Option<usize> {
        Sequence::<Parts>::fields_len(
            (&value.mechanism, (&value.credentials, &value.unknown)),
            under,
            mode,
        )
    }

    ghost lawful = { λ _. represented_lawful ⟦<SaslCredentials as Represents<Fields>>⟧.value_of
        (in_sequence (part (octets refl).own (possible (other_may (octets_tag ∷ [])) refl (octets refl).own
        (others_laws (octets_tag ∷ []) any_lawful.own) (others_within (octets_tag ∷ []) any_lawful.own.coding)))) };

    ghost non_empty = { λ u m v. element_non_empty _ _ _ _ };
}

impl Message for SaslCredentials {
    ghost is_unambiguous = { refl };
}

impl Checked for SaslCredentials {
    fn accepts(value: &SaslCredentials) -> bool {
        accepts_fields::<Parts, _>((&value.mechanism, (&value.credentials, &value.unknown)))
    }
}
