//! Messages (RFC 4511, 4.1.1).
//!
//! ```text
//! LDAPMessage ::= SEQUENCE {
//!     messageID   MessageID,
//!     protocolOp  CHOICE { .. },
//!     controls    [0] Controls OPTIONAL,
//!     ... }
//!
//! MessageID ::= INTEGER (0 .. maxInt)
//! Controls  ::= SEQUENCE OF control Control
//!
//! maxInt INTEGER ::= 2147483647
//! ```
ghost use Rattle.std.specs.Prelude.{◌≡◌, ◌↔◌, ◌∷◌, [], IsTrue, refl};
ghost use Rattle.std.proofs.Common.{arith};
ghost use Rattle.yasna_notation.specs.Laws.{represented_lawful, element_non_empty};
ghost use Rattle.yasna_notation.specs.Making.{context, in_sequence, in_sequence_of, part, in_implicit, at_most};
ghost use Rattle.yasna_notation.specs.Notation.{represented_by};
ghost use Rattle.yasna_notation_types.specs.OpenChoice.{any_lawful};
ghost use Rattle.yasna_notation_types.specs.Others.{other_may, others_laws, others_within, possible};
ghost use Rattle.yasna_notation.specs.contracts.simple.U64Notation.TheImpl.Laws.{lawful-law as number};
ghost use Rattle.ldap.specs.contracts.protocol_op.ProtocolOpNotation.TheImpl.Laws.{lawful-law as operation};
ghost use Rattle.ldap.specs.contracts.control.ControlNotation.TheImpl.Laws.{lawful-law as control};

use crate::control::Control;
use crate::protocol_op::ProtocolOp;
use yasna::models::TaggedDerValue;
use yasna::tags::TAG_SEQUENCE;
use yasna::{ASN1Result, BERMode, BERReader, DERWriter, PrependBuffer, Tag};
use yasna_notation::{
    AtMost, Bounded, Context, Implicit, Message, Notation, Represents, Sequence, SequenceOf,
    read_as,
};
use yasna_notation_constraints::{Checked, accepts_fields};
use yasna_notation_types::{Others, Possible};

type MessageId = Bounded<u64, AtMost<2147483647>>;

type Controls = Implicit<Context<0>, SequenceOf<Control>>;

type Parts = (
    MessageId,
    (ProtocolOp, Possible<Controls, Others<Controls>>),
);

type Fields = (
    u64,
    (ProtocolOp, (Option<Vec<Control>>, Vec<TaggedDerValue>)),
);

/// A message.
#[derive(Drop)]
pub struct LdapMessage {
    /// Up to 2147483647. Answers bear that of their request.
    pub message_id: u64,
    pub protocol_op: ProtocolOp,
    pub controls: Option<Vec<Control>>,
    /// The components at the end that this version doesn't know, as they came.
    pub unknown: Vec<TaggedDerValue>,
}

impl Represents<Fields> for LdapMessage {
    ghost value_of = { λ v. (v.message_id, (v.protocol_op, (v.controls, v.unknown))) };

    fn from_value((message_id, (protocol_op, (controls, unknown))): Fields) -> LdapMessage {
        LdapMessage {
            message_id,
            protocol_op,
            controls,
            unknown,
        }
    }
}

impl Notation for LdapMessage {
    type Value = LdapMessage;

    type Inner = ();

    ghost means = { represented_by ⟦<LdapMessage as Represents<Fields>>⟧.value_of ⟦<Sequence<Parts> as Notation>⟧.means };

    fn has_tag(tag: Tag) -> bool {
        tag == TAG_SEQUENCE
    }

    fn read(reader: BERReader) -> ASN1Result<LdapMessage> {
        read_as::<Sequence<Parts>, LdapMessage>(reader)
    }

    fn write(value: &LdapMessage, writer: DERWriter<'_>) -> ASN1Result<()> {
        Sequence::<Parts>::write_fields(
            (
                &value.message_id,
                (&value.protocol_op, (&value.controls, &value.unknown)),
            ),
            writer,
        )
    }

    fn prepend(
        message: &LdapMessage,
        under: Option<Tag>,
        out: &mut PrependBuffer,
    ) -> ASN1Result<()> {
        Sequence::<Parts>::prepend_fields(
            (
                &message.message_id,
                (&message.protocol_op, (&message.controls, &message.unknown)),
            ),
            under,
            out,
        )
    }

    fn encoded_len(message: &LdapMessage, under: Option<Tag>, mode: BERMode) -> Option<usize> {
        Sequence::<Parts>::fields_len(
            (
                &message.message_id,
                (&message.protocol_op, (&message.controls, &message.unknown)),
            ),
            under,
            mode,
        )
    }

    ghost lawful = { λ _. represented_lawful ⟦<LdapMessage as Represents<Fields>>⟧.value_of
        (in_sequence (part (at_most 2147483647 (number refl)).own (part (operation refl).own
        (possible (other_may (context 0 ∷ [])) refl (in_implicit 0 (omega arith) (in_sequence_of (control refl).own)).own
        (others_laws (context 0 ∷ []) any_lawful.own) (others_within (context 0 ∷ []) any_lawful.own.coding))))) };

    ghost non_empty = { λ u m v. element_non_empty _ _ _ _ };
}

impl Message for LdapMessage {
    ghost is_unambiguous = { refl };
}

impl Checked for LdapMessage {
    fn accepts(message: &LdapMessage) -> bool {
        accepts_fields::<Parts, _>((
            &message.message_id,
            (&message.protocol_op, (&message.controls, &message.unknown)),
        ))
    }
}
