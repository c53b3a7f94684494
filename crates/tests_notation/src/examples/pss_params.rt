//! An example of defaults that are structs: the parameters of RSASSA-PSS (RFC 8017, A.2.3).
//!
//! ```text
//! RSASSA-PSS-params ::= SEQUENCE {
//!     hashAlgorithm     [0] HashAlgorithm     DEFAULT sha1,
//!     maskGenAlgorithm  [1] MaskGenAlgorithm  DEFAULT mgf1SHA1,
//!     saltLength        [2] INTEGER           DEFAULT 20,
//!     trailerField      [3] TrailerField      DEFAULT trailerFieldBC }
//!
//! sha1      HashAlgorithm     ::= { algorithm id-sha1, parameters SHA1Parameters : NULL }
//! mgf1SHA1  MaskGenAlgorithm  ::= { algorithm id-mgf1, parameters HashAlgorithm : sha1 }
//! ```
ghost use Rattle.std.specs.Prelude.{◌≡◌, ◌↔◌, IsTrue, ◌∷◌, ◌&&◌, [], refl};
ghost use Rattle.std.specs.Str.{bytes_eq};
ghost use Rattle.yasna_base.specs.declared.tag.PCBit.TheVariants.{Primitive, Constructed};
ghost use Rattle.yasna_base.specs.Null.{null_tag};
ghost use Rattle.yasna_base.specs.Sequence.{sequence_tag};
ghost use Rattle.yasna_base.specs.TaggedDerValue.{raw_of, raw_value};
ghost use Rattle.yasna_notation_constraints.specs.TestedDefaults.{is_element, some_passes, one_list, one_seen, one_element, one_some, one_last, one_part, one_represented};

use crate::values::Assigned;
use yasna_base::models::{ObjectIdentifier, TaggedDerValue};
use yasna_base::tags::{TAG_NULL, TAG_SEQUENCE};
use yasna_base::{ASN1Result, BERMode, PCBit, Tag};
use yasna_notation::{Context, Default, DefinedType, Explicit, Last, Sequence};
use yasna_notation_constraints::{
    CheckedType, Element, ElementValue, Identifier, IdentifierValue, Natural, OrDefault,
    TestedDefault, accepts_fields, is_some_default,
};
use yasna_writer::{DERWriter, PrependBuffer};

/// An algorithm, with its parameters as they came (RFC 5280, 4.1.1.2).
#[derive(Drop)]
pub struct Algorithm {
    /// Which algorithm it is.
    pub algorithm: ObjectIdentifier,
    /// An element of any type.
    pub parameters: Option<TaggedDerValue>,
}

impl DefinedType for Algorithm {
    type Notation = Sequence<(ObjectIdentifier, Last<TaggedDerValue>)>;

    ghost value_of = { λ v. (v.algorithm, v.parameters) };

    fn from_value(
        (algorithm, parameters): (ObjectIdentifier, Option<TaggedDerValue>),
    ) -> Algorithm {
        Algorithm {
            algorithm,
            parameters,
        }
    }

    fn write_value(&self, writer: DERWriter<'_>) -> ASN1Result<()> {
        Sequence::<(ObjectIdentifier, Last<TaggedDerValue>)>::write_fields(
            (&self.algorithm, &self.parameters),
            writer,
        )
    }

    fn prepend_value(&self, under: Option<Tag>, out: &mut PrependBuffer) -> ASN1Result<()> {
        Sequence::<(ObjectIdentifier, Last<TaggedDerValue>)>::prepend_fields(
            (&self.algorithm, &self.parameters),
            under,
            out,
        )
    }

    fn value_len(&self, under: Option<Tag>, mode: BERMode) -> Option<usize> {
        Sequence::<(ObjectIdentifier, Last<TaggedDerValue>)>::fields_len(
            (&self.algorithm, &self.parameters),
            under,
            mode,
        )
    }

    ghost unambiguous = { refl };
}

impl CheckedType for Algorithm {
    fn accepts_value(&self) -> bool {
        accepts_fields::<(ObjectIdentifier, Last<TaggedDerValue>), _>((
            &self.algorithm,
            &self.parameters,
        ))
    }
}

/// `id-sha1`.
pub struct IdSha1;

impl IdentifierValue for IdSha1 {
    ghost components = { 1 ∷ 3 ∷ 14 ∷ 3 ∷ 2 ∷ 26 ∷ [] };

    fn components() -> &'static [u64] {
        &[1, 3, 14, 3, 2, 26]
    }
}

/// `id-mgf1`.
pub struct IdMgf1;

impl IdentifierValue for IdMgf1 {
    ghost components = { 1 ∷ 2 ∷ 840 ∷ 113549 ∷ 1 ∷ 1 ∷ 8 ∷ [] };

    fn components() -> &'static [u64] {
        &[1, 2, 840, 113549, 1, 1, 8]
    }
}

/// The parameters `NULL`.
pub struct NullElement;

impl ElementValue for NullElement {
    ghost element = { raw_value null_tag Primitive [] };

    fn tag() -> Tag {
        TAG_NULL
    }

    fn pcbit() -> PCBit {
        PCBit::Primitive
    }

    fn contents() -> &'static [u8] {
        &[]
    }
}

/// The parameters `HashAlgorithm : sha1`.
pub struct Sha1Element;

impl ElementValue for Sha1Element {
    ghost element = { raw_value sequence_tag Constructed (6 ∷ 5 ∷ 43 ∷ 14 ∷ 3 ∷ 2 ∷ 26 ∷ 5 ∷ 0 ∷ []) };

    fn tag() -> Tag {
        TAG_SEQUENCE
    }

    fn pcbit() -> PCBit {
        PCBit::Constructed
    }

    fn contents() -> &'static [u8] {
        &[6, 5, 43, 14, 3, 2, 26, 5, 0]
    }
}

/// `DEFAULT sha1`.
pub struct Sha1;

impl TestedDefault<Algorithm> for Sha1 {
    ghost is = { λ v. bytes_eq v.algorithm (1 ∷ 3 ∷ 14 ∷ 3 ∷ 2 ∷ 26 ∷ [])
        && some_passes (λ p. is_element (raw_value null_tag Primitive []) (raw_of p)) v.parameters };

    fn is_default(value: &Algorithm) -> bool {
        <Identifier<IdSha1> as TestedDefault<ObjectIdentifier>>::is_default(&value.algorithm)
            && is_some_default::<TaggedDerValue, Element<NullElement>>(&value.parameters)
    }

    ghost one = { one_represented (λ v. (v.algorithm, v.parameters)) (one_part (one_list (1 ∷ 3 ∷ 14 ∷ 3 ∷ 2 ∷ 26 ∷ []))
        (one_last (one_some (one_seen raw_of (λ v w. (λ e. e, λ e. e)) _ (one_element (raw_value null_tag Primitive [])))))) };
}

/// `DEFAULT mgf1SHA1`.
pub struct Mgf1Sha1;

impl TestedDefault<Algorithm> for Mgf1Sha1 {
    ghost is = { λ v. bytes_eq v.algorithm (1 ∷ 2 ∷ 840 ∷ 113549 ∷ 1 ∷ 1 ∷ 8 ∷ [])
        && some_passes (λ p. is_element (raw_value sequence_tag Constructed (6 ∷ 5 ∷ 43 ∷ 14 ∷ 3 ∷ 2 ∷ 26 ∷ 5 ∷ 0 ∷ [])) (raw_of p)) v.parameters };

    fn is_default(value: &Algorithm) -> bool {
        <Identifier<IdMgf1> as TestedDefault<ObjectIdentifier>>::is_default(&value.algorithm)
            && is_some_default::<TaggedDerValue, Element<Sha1Element>>(&value.parameters)
    }

    ghost one = { one_represented (λ v. (v.algorithm, v.parameters)) (one_part (one_list (1 ∷ 2 ∷ 840 ∷ 113549 ∷ 1 ∷ 1 ∷ 8 ∷ []))
        (one_last (one_some (one_seen raw_of (λ v w. (λ e. e, λ e. e)) _
        (one_element (raw_value sequence_tag Constructed (6 ∷ 5 ∷ 43 ∷ 14 ∷ 3 ∷ 2 ∷ 26 ∷ 5 ∷ 0 ∷ []))))))) };
}

// Octets of salt: 20, if they are omitted. The trailer field: 1, if it is.
type Numbers = (
    Default<Explicit<Context<2>, u64>, Natural<20>>,
    (Default<Explicit<Context<3>, u64>, Natural<1>>, ()),
);

type Parts = OrDefault<
    Explicit<Context<0>, Algorithm>,
    Sha1,
    OrDefault<Explicit<Context<1>, Algorithm>, Mgf1Sha1, Numbers>,
>;

/// The parameters of RSASSA-PSS. `None` is the hash algorithm SHA-1, or MGF1 with SHA-1.
pub struct PssParams;

impl Assigned for PssParams {
    type Notation = Sequence<Parts>;

    ghost unambiguous = { refl };
}
