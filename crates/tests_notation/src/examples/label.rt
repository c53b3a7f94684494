//! An example of defaults of strings and an object identifier: the label of a box.
//!
//! ```text
//! Label ::= SEQUENCE {
//!     kind  OBJECT IDENTIFIER                           DEFAULT { 2 999 1 },
//!     text  [0] IMPLICIT UTF8String (SIZE (1..8))       DEFAULT "box",
//!     key   OCTET STRING                                DEFAULT '0102'H,
//!     side  [1] EXPLICIT PrintableString                DEFAULT "N" }
//! ```
ghost use Rattle.std.specs.Prelude.{◌≡◌, ◌↔◌, IsTrue, ◌∷◌, [], refl};

use yasna_base::models::ObjectIdentifier;
use yasna_base::{ASN1Result, BERMode, Tag};
use yasna_notation::{
    Bounded, Context, DefinedType, Explicit, Implicit, PrintableString, Sequence,
};
use yasna_notation_constraints::{
    CheckedType, Identifier, IdentifierValue, Octets, OctetsValue, OrDefault, SizeFromTo, Text,
    TextValue, accepts_fields,
};
use yasna_writer::{DERWriter, PrependBuffer};

/// `{ 2 999 1 }`.
pub struct BoxKind;

impl IdentifierValue for BoxKind {
    ghost components = { 2 ∷ 999 ∷ 1 ∷ [] };

    fn components() -> &'static [u64] {
        &[2, 999, 1]
    }
}

/// `"box"`.
pub struct BoxText;

impl TextValue for BoxText {
    ghost text = { 98 ∷ 111 ∷ 120 ∷ [] };

    fn text() -> &'static str {
        "box"
    }
}

/// `'0102'H`.
pub struct BoxKey;

impl OctetsValue for BoxKey {
    ghost octets = { 1 ∷ 2 ∷ [] };

    fn octets() -> &'static [u8] {
        &[1, 2]
    }
}

/// `"N"`.
pub struct NorthSide;

impl TextValue for NorthSide {
    ghost text = { 78 ∷ [] };

    fn text() -> &'static str {
        "N"
    }
}

type Side = Explicit<Context<1>, PrintableString>;

type Ends = OrDefault<Vec<u8>, Octets<BoxKey>, OrDefault<Side, Text<NorthSide>, ()>>;

type BoxLine = Implicit<Context<0>, Bounded<String, SizeFromTo<1, 8>>>;

type Parts = OrDefault<
    ObjectIdentifier,
    Identifier<BoxKind>,
    OrDefault<BoxLine, Text<BoxText>, Ends>,
>;

type Fields = (
    Option<ObjectIdentifier>,
    (Option<String>, (Option<Vec<u8>>, (Option<String>, ()))),
);

/// A label.
#[derive(Drop)]
pub struct Label {
    /// `None` is 2.999.1.
    pub kind: Option<ObjectIdentifier>,
    /// One to eight characters; `None` is "box".
    pub text: Option<String>,
    /// `None` is the octets 1 and 2.
    pub key: Option<Vec<u8>>,
    /// `None` is "N".
    pub side: Option<String>,
}

impl DefinedType for Label {
    type Notation = Sequence<Parts>;

    ghost value_of = { λ v. (v.kind, (v.text, (v.key, (v.side, tt)))) };

    fn from_value((kind, (text, (key, (side, ())))): Fields) -> Label {
        Label {
            kind,
            text,
            key,
            side,
        }
    }

    fn write_value(&self, writer: DERWriter<'_>) -> ASN1Result<()> {
        Sequence::<Parts>::write_fields(
            (&self.kind, (&self.text, (&self.key, (&self.side, ())))),
            writer,
        )
    }

    fn prepend_value(&self, under: Option<Tag>, out: &mut PrependBuffer) -> ASN1Result<()> {
        Sequence::<Parts>::prepend_fields(
            (&self.kind, (&self.text, (&self.key, (&self.side, ())))),
            under,
            out,
        )
    }

    fn value_len(&self, under: Option<Tag>, mode: BERMode) -> Option<usize> {
        Sequence::<Parts>::fields_len(
            (&self.kind, (&self.text, (&self.key, (&self.side, ())))),
            under,
            mode,
        )
    }

    ghost unambiguous = { refl };
}

impl CheckedType for Label {
    fn accepts_value(&self) -> bool {
        accepts_fields::<Parts, _>((&self.kind, (&self.text, (&self.key, (&self.side, ())))))
    }
}
