//! Controls of a message (RFC 4511, 4.1.11).
//!
//! ```text
//! Control ::= SEQUENCE {
//!     controlType   LDAPOID,
//!     criticality   BOOLEAN DEFAULT FALSE,
//!     controlValue  OCTET STRING OPTIONAL,
//!     ... }
//!
//! LDAPOID ::= OCTET STRING
//! ```
ghost use Rattle.std.specs.Prelude.{◌≡◌, ◌↔◌, ◌∷◌, [], IsTrue, false, not, refl};
ghost use Rattle.yasna_notation.specs.Laws.{represented_lawful, element_non_empty};
ghost use Rattle.yasna_notation.specs.Making.{in_sequence, part};
ghost use Rattle.yasna_notation.specs.Notation.{represented_by};
ghost use Rattle.yasna_notation.specs.Parts.{detects_false};
ghost use Rattle.yasna_base.specs.Octets.{octets_tag};
ghost use Rattle.yasna_notation_types.specs.OpenChoice.{any_lawful};
ghost use Rattle.yasna_notation_types.specs.Others.{other_may, others_laws, others_within, possible, possible_default, possible_may, possible_within};
ghost use Rattle.ldap.specs.Known.{after_type};
ghost use Rattle.yasna_notation.specs.contracts.strings.VecU8Notation.TheImpl.Laws.{lawful-law as octets};
ghost use Rattle.yasna_notation.specs.contracts.simple.BoolNotation.TheImpl.Laws.{lawful-law as flag};

use yasna::models::TaggedDerValue;
use yasna::tags::TAG_SEQUENCE;
use yasna::{ASN1Result, BERMode, BERReader, DERWriter, PrependBuffer, Tag};
use yasna_notation::{Choice, False, Message, Notation, Represents, Sequence, read_as};
use yasna_notation_constraints::{Checked, accepts_fields};
use yasna_notation_types::{Others, Possible, PossibleDefault};

type Unknown = Others<Choice<(bool, (Vec<u8>,))>>;

type Parts = (
    Vec<u8>,
    PossibleDefault<bool, False, Possible<Vec<u8>, Unknown>>,
);

type Fields = (Vec<u8>, (bool, (Option<Vec<u8>>, Vec<TaggedDerValue>)));

/// A control: how its operation is extended.
#[derive(Drop)]
pub struct Control {
    /// An object identifier in the digits and points of its text.
    pub control_type: Vec<u8>,
    /// Whether one who doesn't know the control rejects the operation.
    pub criticality: bool,
    pub control_value: Option<Vec<u8>>,
    /// The components at the end that this version doesn't know, as they came.
    pub unknown: Vec<TaggedDerValue>,
}

impl Represents<Fields> for Control {
    ghost value_of = { λ v. (v.control_type, (v.criticality, (v.control_value, v.unknown))) };

    fn from_value((control_type, (criticality, (control_value, unknown))): Fields) -> Control {
        Control {
            control_type,
            criticality,
            control_value,
            unknown,
        }
    }
}

impl Notation for Control {
    type Value = Control;

    type Inner = ();

    ghost means = { represented_by ⟦<Control as Represents<Fields>>⟧.value_of ⟦<Sequence<Parts> as Notation>⟧.means };

    fn has_tag(tag: Tag) -> bool {
        tag == TAG_SEQUENCE
    }

    fn read(reader: BERReader) -> ASN1Result<Control> {
        read_as::<Sequence<Parts>, Control>(reader)
    }

    fn write(value: &Control, writer: DERWriter<'_>) -> ASN1Result<()> {
        Sequence::<Parts>::write_fields(
            (
                &value.control_type,
                (&value.criticality, (&value.control_value, &value.unknown)),
            ),
            writer,
        )
    }

    fn prepend(value: &Control, under: Option<Tag>, out: &mut PrependBuffer) -> ASN1Result<()> {
        Sequence::<Parts>::prepend_fields(
            (
                &value.control_type,
                (&value.criticality, (&value.control_value, &value.unknown)),
            ),
            under,
            out,
        )
    }

    fn encoded_len(value: &Control, under: Option<Tag>, mode: BERMode) -> Option<usize> {
        Sequence::<Parts>::fields_len(
            (
                &value.control_type,
                (&value.criticality, (&value.control_value, &value.unknown)),
            ),
            under,
            mode,
        )
    }

    ghost lawful = { λ _. represented_lawful ⟦<Control as Represents<Fields>>⟧.value_of
        (in_sequence (part (octets refl).own (possible_default (possible_may (octets_tag ∷ []) (other_may after_type)) not false
        detects_false refl (flag refl).own (possible (other_may after_type) refl (octets refl).own (others_laws after_type any_lawful.own)
        (others_within after_type any_lawful.own.coding)) (possible_within (other_may after_type) (octets refl).own
        (others_within after_type any_lawful.own.coding))))) };

    ghost non_empty = { λ u m v. element_non_empty _ _ _ _ };
}

impl Message for Control {
    ghost is_unambiguous = { refl };
}

impl Checked for Control {
    fn accepts(value: &Control) -> bool {
        accepts_fields::<Parts, _>((
            &value.control_type,
            (&value.criticality, (&value.control_value, &value.unknown)),
        ))
    }
}
