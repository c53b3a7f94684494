//! Requests to end a session (RFC 4511, 4.3).
//!
//! ```text
//! UnbindRequest ::= [APPLICATION 2] NULL
//! ```
ghost use Rattle.std.specs.Prelude.{◌≡◌, ◌↔◌, IsTrue, refl};
ghost use Rattle.std.proofs.Common.{arith};
ghost use Rattle.yasna_notation.specs.Laws.{represented_lawful, element_non_empty};
ghost use Rattle.yasna_notation.specs.Making.{in_application};
ghost use Rattle.yasna_notation.specs.Notation.{represented_by};
ghost use Rattle.yasna_notation.specs.contracts.simple.UnitNotation.TheImpl.Laws.{lawful-law as null};
ghost use Rattle.yasna_notation.specs.Canonical.{represented_written};
ghost use Rattle.yasna_notation.specs.Writing.{under_application};
ghost use Rattle.yasna_notation.specs.contracts.canonical.UnitCanonicalNotation.TheImpl.Laws.{written-law as null_written};

use yasna::{ASN1Result, BERMode, BERReader, DERWriter, PrependBuffer, Tag};
use yasna_notation::{
    Application, CanonicalNotation, Implicit, Message, Notation, Represents, read_as,
};
use yasna_notation_constraints::Checked;

type Notated = Implicit<Application<2>, ()>;

/// A request to end the session. It has no response.
#[derive(Drop)]
pub struct UnbindRequest;

impl Represents<()> for UnbindRequest {
    ghost value_of = { λ v. tt };

    fn from_value(_value: ()) -> UnbindRequest {
        UnbindRequest
    }
}

impl Notation for UnbindRequest {
    type Value = UnbindRequest;

    type Inner = ();

    ghost means = { represented_by ⟦<UnbindRequest as Represents<()>>⟧.value_of ⟦<Notated as Notation>⟧.means };

    fn has_tag(tag: Tag) -> bool {
        tag == Tag::application(2)
    }

    fn read(reader: BERReader) -> ASN1Result<UnbindRequest> {
        read_as::<Notated, UnbindRequest>(reader)
    }

    fn write(_value: &UnbindRequest, writer: DERWriter<'_>) -> ASN1Result<()> {
        Notated::write(&(), writer)
    }

    fn prepend(
        _value: &UnbindRequest,
        under: Option<Tag>,
        out: &mut PrependBuffer,
    ) -> ASN1Result<()> {
        Notated::prepend(&(), under, out)
    }

    fn encoded_len(_value: &UnbindRequest, under: Option<Tag>, mode: BERMode) -> Option<usize> {
        Notated::encoded_len(&(), under, mode)
    }

    ghost lawful = { λ _. represented_lawful ⟦<UnbindRequest as Represents<()>>⟧.value_of
        (in_application 2 (omega arith) (null refl)) };

    ghost non_empty = { λ u m v. element_non_empty _ _ _ _ };
}

impl Message for UnbindRequest {
    ghost is_unambiguous = { refl };
}

impl CanonicalNotation for UnbindRequest {
    ghost written = { λ _. represented_written ⟦<UnbindRequest as Represents<()>>⟧.value_of (under_application 2 (omega arith) (null_written refl)) };
}

impl Checked for UnbindRequest {
    fn accepts(_value: &UnbindRequest) -> bool {
        Notated::accepts(&())
    }
}
