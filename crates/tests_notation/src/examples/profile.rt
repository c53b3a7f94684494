//! An example of `Others`, `Possible` and `PossibleDefault`: an extensible SEQUENCE.
//!
//! ```text
//! Profile ::= SEQUENCE { id INTEGER, hidden BOOLEAN DEFAULT FALSE, admin [0] IMPLICIT BOOLEAN OPTIONAL, ... }
//! ```
ghost use Rattle.std.specs.Prelude.{◌≡◌, refl};
ghost use Rattle.std.proofs.Common.{arith};
ghost use Rattle.std.specs.Prelude.{◌∷◌, [], false, not};
ghost use Rattle.yasna_base.specs.Boolean.{boolean_tag};
ghost use Rattle.yasna_notation.specs.Parts.{detects_false};
ghost use Rattle.yasna_notation.specs.Laws.{represented_lawful, element_non_empty};
ghost use Rattle.yasna_notation.specs.Making.{context, in_implicit, in_sequence, part};
ghost use Rattle.yasna_notation.specs.Notation.{represented_by};
ghost use Rattle.yasna_notation_types.specs.OpenChoice.{any_lawful};
ghost use Rattle.yasna_notation_types.specs.Others.{other_may, others_laws, others_within, possible, possible_default, possible_may, possible_within};
ghost use Rattle.yasna_notation.specs.contracts.simple.I64Notation.TheImpl.Laws.{lawful-law as int64};
ghost use Rattle.yasna_notation.specs.contracts.simple.BoolNotation.TheImpl.Laws.{lawful-law as boolean};

use yasna_base::models::TaggedDerValue;
use yasna_base::tags::TAG_SEQUENCE;
use yasna_base::{ASN1Result, BERMode, Tag};
use yasna_notation::{
    Choice, Context, False, Implicit, Message, Notation, Represents, Sequence, read_as,
};
use yasna_notation_types::{Others, Possible, PossibleDefault};
use yasna_reader::BERReader;
use yasna_writer::{DERWriter, PrependBuffer};

type Admin = Implicit<Context<0>, bool>;

type Parts = (
    i64,
    PossibleDefault<bool, False, Possible<Admin, Others<Choice<(bool, (Admin,))>>>>,
);

type Fields = (i64, (bool, (Option<bool>, Vec<TaggedDerValue>)));

/// A profile, with the elements that this version doesn't know as they came.
#[derive(Drop)]
pub struct Profile {
    pub id: i64,
    pub hidden: bool,
    pub admin: Option<bool>,
    pub unknown: Vec<TaggedDerValue>,
}

impl Represents<Fields> for Profile {
    ghost value_of = { λ v. (v.id, (v.hidden, (v.admin, v.unknown))) };

    fn from_value((id, (hidden, (admin, unknown))): Fields) -> Profile {
        Profile {
            id,
            hidden,
            admin,
            unknown,
        }
    }
}

impl Notation for Profile {
    type Value = Profile;

    type Inner = ();

    ghost means = { represented_by ⟦<Profile as Represents<Fields>>⟧.value_of ⟦<Sequence<Parts> as Notation>⟧.means };

    fn has_tag(tag: Tag) -> bool {
        tag == TAG_SEQUENCE
    }

    fn read(reader: BERReader) -> ASN1Result<Profile> {
        read_as::<Sequence<Parts>, Profile>(reader)
    }

    fn write(value: &Profile, writer: DERWriter<'_>) -> ASN1Result<()> {
        Sequence::<Parts>::write_fields(
            (&value.id, (&value.hidden, (&value.admin, &value.unknown))),
            writer,
        )
    }

    fn prepend(value: &Profile, under: Option<Tag>, out: &mut PrependBuffer) -> ASN1Result<()> {
        Sequence::<Parts>::prepend_fields(
            (&value.id, (&value.hidden, (&value.admin, &value.unknown))),
            under,
            out,
        )
    }

    fn encoded_len(value: &Profile, under: Option<Tag>, mode: BERMode) -> Option<usize> {
        Sequence::<Parts>::fields_len(
            (&value.id, (&value.hidden, (&value.admin, &value.unknown))),
            under,
            mode,
        )
    }

    ghost lawful = { λ _. represented_lawful ⟦<Profile as Represents<Fields>>⟧.value_of (in_sequence
        (part (int64 refl).own
        (possible_default (possible_may (context 0 ∷ []) (other_may (boolean_tag ∷ context 0 ∷ []))) not false detects_false refl (boolean refl).own
        (possible (other_may (boolean_tag ∷ context 0 ∷ [])) refl (in_implicit 0 (omega arith) (boolean refl)).own (others_laws (boolean_tag ∷ context 0 ∷ []) any_lawful.own)
        (others_within (boolean_tag ∷ context 0 ∷ []) any_lawful.own.coding))
        (possible_within (other_may (boolean_tag ∷ context 0 ∷ [])) (in_implicit 0 (omega arith) (boolean refl)).own (others_within (boolean_tag ∷ context 0 ∷ []) any_lawful.own.coding))))) };

    ghost non_empty = { λ u m v. element_non_empty _ _ _ _ };
}

impl Message for Profile {
    ghost is_unambiguous = { refl };
}
