//! The defaults of parts.
//!
//! | Mark | Represents |
//! |---|---|
//! | `#` | the number as Rust writes it |
//! | `^` | the number in clauses |
//! | `$` | what the names of the specs of an ENUMERATED begin with |
//! | `&` | the type of the default of an ENUMERATED, and that of the value of one that is tested |

use crate::forms::BOOLEAN;
use crate::shapes::{Shape, integer_shape};
use asn1_types::model::{DefaultValue, Integer, Notation, Part, Presence};

/// How a default is written: its type, and in clauses the test for it, its value, and the terms that the test detects it and that equal values are the
/// same.
pub struct DefaultTexts {
    /// The type.
    pub name: &'static str,
    /// The test.
    pub test: &'static str,
    /// The value.
    pub value: &'static str,
    /// The term.
    pub detects: &'static str,
    /// The term of equality. `@L` is that of the law.
    pub same: &'static str,
}

static TRUE: DefaultTexts = DefaultTexts {
    name: "True",
    test: "(λ v. v)",
    value: "true",
    detects: "detects_true",
    same: "equal_same",
};

static FALSE: DefaultTexts = DefaultTexts {
    name: "False",
    test: "not",
    value: "false",
    detects: "detects_false",
    same: "equal_same",
};

static UNSET: DefaultTexts = DefaultTexts {
    name: "Unset",
    test: "not",
    value: "false",
    detects: "detects_false",
    same: "equal_same",
};

static NATURAL: DefaultTexts = DefaultTexts {
    name: "Natural<#>",
    test: "(λ v. nat_eq v #)",
    value: "#",
    detects: "(detects_number #)",
    same: "equal_same",
};

static SIGNED: DefaultTexts = DefaultTexts {
    name: "Signed<#>",
    test: "(λ v. int_eq v ^)",
    value: "^",
    detects: "(detects_integer ^)",
    same: "equal_same",
};

static ITEM: DefaultTexts = DefaultTexts {
    name: "&",
    test: "(λ v. int_eq ($_number v) ^)",
    value: "&Value",
    detects: "($_detects &Value)",
    same: "@L.own.coding.meaning.equal",
};

// Those of defaults that are tested: the value is the proof that what passes the test is one value.
static IDENTIFIER: DefaultTexts = DefaultTexts {
    name: "TestedIdentifier<&>",
    test: "(λ v. bytes_eq v ⟦<& as IdentifierValue>⟧.components)",
    value: "(one_list ⟦<& as IdentifierValue>⟧.components)",
    detects: "",
    same: "",
};

static OCTETS: DefaultTexts = DefaultTexts {
    name: "TestedOctets<&>",
    test: "(λ v. bytes_eq v.items ⟦<& as OctetsValue>⟧.octets)",
    value: "(one_seen octets_of (λ v w. (λ e. e, λ e. e)) (λ o. bytes_eq o ⟦<& as OctetsValue>⟧.octets) (one_list ⟦<& as OctetsValue>⟧.octets))",
    detects: "",
    same: "",
};

static TEXT: DefaultTexts = DefaultTexts {
    name: "TestedText<&>",
    test: "(λ v. bytes_eq (characters v) (chars ⟦<& as TextValue>⟧.text))",
    value: "(one_seen characters (λ v w. (λ e. e, λ e. e)) (λ c. bytes_eq c (chars ⟦<& as TextValue>⟧.text)) (one_list (chars ⟦<& as TextValue>⟧.text)))",
    detects: "",
    same: "",
};

static BITS: DefaultTexts = DefaultTexts {
    name: "TestedBits<&>",
    test: "(λ v. is_bit_string ⟦<& as BitsValue>⟧.bits (bits_in v))",
    value: "(one_bits ⟦<& as BitsValue>⟧.bits)",
    detects: "",
    same: "",
};

static EMPTY_SEQUENCE: DefaultTexts = DefaultTexts {
    name: "EmptyList",
    test: "(λ v. is_empty_list v.items)",
    value: "(one_empty_sequence _ (λ v. v.items))",
    detects: "",
    same: "",
};

static EMPTY_SET: DefaultTexts = DefaultTexts {
    name: "EmptyList",
    test: "(λ v. is_empty_list v.items)",
    value: "(one_empty_set _ (λ v. v.items))",
    detects: "",
    same: "",
};

// Those of lists with a name, which are structs.
static EMPTY_NAMED_SEQUENCE: DefaultTexts = DefaultTexts {
    name: "&",
    test: "(λ v. is_empty_list v.items.items)",
    value: "(one_empty_sequence _ (λ v. v.items.items))",
    detects: "",
    same: "",
};

static EMPTY_NAMED_SET: DefaultTexts = DefaultTexts {
    name: "&",
    test: "(λ v. is_empty_list v.items.items)",
    value: "(one_empty_set _ (λ v. v.items.items))",
    detects: "",
    same: "",
};

/// Whether a part has a default that is tested, since to make it takes memory.
pub fn has_tested_default(part: &Part<'_>) -> bool {
    match &part.presence {
        Presence::Default(value) => is_tested(value),
        Presence::Required | Presence::Optional => false,
    }
}

/// Whether a part has a default that is a number. Its values have at most 64 bits then.
pub fn has_number_default(part: &Part<'_>) -> bool {
    matches!(&part.presence, Presence::Default(DefaultValue::Integer(_)))
}

// Whether a default is tested, and never made.
fn is_tested(value: &DefaultValue<'_>) -> bool {
    match value {
        DefaultValue::Boolean(_) => false,
        DefaultValue::Integer(_) => false,
        DefaultValue::Enumerated(_, _) => false,
        DefaultValue::ObjectIdentifier(_) => true,
        DefaultValue::Octets(_) => true,
        DefaultValue::Bits(_, _) => true,
        DefaultValue::EmptySequenceOf => true,
        DefaultValue::EmptySetOf => true,
        DefaultValue::Text(_) => true,
    }
}

/// The notation at the bottom of tags.
pub fn untagged(notation: &Notation) -> &Notation {
    let mut current = notation;
    while let Notation::Tagged(_, inner) = current {
        current = &**inner;
    }
    current
}

// Whether the values of a notation are `u64`.
fn is_natural(notation: &Notation) -> bool {
    match untagged(notation) {
        Notation::Integer(bounds, _) => integer_shape(*bounds, true).form.value == "u64",
        _ => false,
    }
}

// Whether a notation is BOOLEAN without tags.
fn is_plain_boolean(notation: &Notation) -> bool {
    match notation {
        Notation::Boolean => true,
        _ => false,
    }
}

// Whether a notation within tags is a type that has a name.
fn has_name(notation: &Notation) -> bool {
    match untagged(notation) {
        Notation::Defined(_) => true,
        _ => false,
    }
}

/// How the default of a notation is written. `is_under`: a tag is written around the notation.
pub fn default_texts(
    notation: &Notation,
    is_under: bool,
    value: &DefaultValue<'_>,
) -> &'static DefaultTexts {
    match value {
        DefaultValue::Boolean(true) => &TRUE,
        DefaultValue::Boolean(false) if !is_under && is_plain_boolean(notation) => &FALSE,
        DefaultValue::Boolean(false) => &UNSET,
        DefaultValue::Integer(_) if is_natural(notation) => &NATURAL,
        DefaultValue::Integer(_) => &SIGNED,
        DefaultValue::Enumerated(_, _) => &ITEM,
        DefaultValue::ObjectIdentifier(_) => &IDENTIFIER,
        DefaultValue::Octets(_) => &OCTETS,
        DefaultValue::Bits(_, _) => &BITS,
        DefaultValue::EmptySequenceOf if has_name(notation) => &EMPTY_NAMED_SEQUENCE,
        DefaultValue::EmptySequenceOf => &EMPTY_SEQUENCE,
        DefaultValue::EmptySetOf if has_name(notation) => &EMPTY_NAMED_SET,
        DefaultValue::EmptySetOf => &EMPTY_SET,
        DefaultValue::Text(_) => &TEXT,
    }
}

// The number of a default, if it is one.
fn number_of(value: &DefaultValue<'_>) -> Integer {
    match value {
        DefaultValue::Integer(number) => *number,
        DefaultValue::Enumerated(_, number) => Integer {
            is_negative: *number < 0,
            magnitude: number.unsigned_abs(),
        },
        _ => Integer {
            is_negative: false,
            magnitude: 0,
        },
    }
}

/// The number of a default, for the texts in which it is.
pub fn default_shape(value: &DefaultValue<'_>) -> Shape {
    let number = number_of(value);
    Shape {
        form: &BOOLEAN,
        first: number,
        second: number,
    }
}
