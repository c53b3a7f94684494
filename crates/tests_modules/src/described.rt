//! Resolved types, described in one line each.

use asn1_types::model::{
    Alternatives, Body, Components, Constant, DefaultValue, Definition, Enumeration, Integer,
    IntegerBounds, Loosening, Notation, Part, Presence, Resolved, Size, TagClass, TagLayer,
    TagMode, TextKind, Value,
};
use asn1_types::{Problem, problem_text};
use std::alloc::Global;

/// A description that is written piece by piece.
#[derive(Drop)]
pub struct Description {
    /// The text. It ends early if memory runs out.
    pub text: String,
}

impl Description {
    fn put(&mut self, text: &str) {
        let _ = self.text.push_str(text);
    }

    fn name(&mut self, name: &[u8]) {
        if let Ok(text) = std::str::from_utf8(name) {
            self.put(text);
        }
    }

    fn number(&mut self, number: u64) {
        let _ = write!(self.text, "{number}");
    }

    fn signed(&mut self, number: i64) {
        let _ = write!(self.text, "{number}");
    }
}

fn describe_integer(out: &mut Description, number: Integer) {
    if number.is_negative {
        out.put("-");
    }
    out.number(number.magnitude);
}

fn describe_bounds(out: &mut Description, bounds: IntegerBounds) {
    if bounds.low.is_none() && bounds.high.is_none() {
        return;
    }
    out.put("(");
    if let Some(low) = bounds.low {
        describe_integer(out, low);
    }
    out.put("..");
    if let Some(high) = bounds.high {
        describe_integer(out, high);
    }
    out.put(")");
}

fn describe_size(out: &mut Description, size: Size) {
    if size.low == 0 && size.high.is_none() {
        return;
    }
    out.put("(");
    out.number(size.low);
    out.put("..");
    if let Some(high) = size.high {
        out.number(high);
    }
    out.put(")");
}

fn describe_layer(out: &mut Description, layer: TagLayer) {
    out.put(match layer.class {
        TagClass::Universal => "[U",
        TagClass::Application => "[A",
        TagClass::ContextSpecific => "[",
        TagClass::Private => "[P",
    });
    out.number(layer.number);
    out.put(match layer.mode {
        TagMode::Explicit => " E] ",
        TagMode::Implicit => " I] ",
    });
}

fn text_word(kind: TextKind) -> &'static str {
    match kind {
        TextKind::Utf8 => "UTF8",
        TextKind::Numeric => "NUMERIC",
        TextKind::Printable => "PRINTABLE",
        TextKind::Ia5 => "IA5",
        TextKind::Visible => "VISIBLE",
        TextKind::Bmp => "BMP",
    }
}

fn word_of(notation: &Notation) -> &'static str {
    match notation {
        Notation::Boolean => "BOOLEAN",
        Notation::Null => "NULL",
        Notation::Integer(_, _) => "INTEGER",
        Notation::ObjectIdentifier => "OID",
        Notation::OctetString(_) => "OCTETS",
        Notation::BitString(_) => "BITS",
        Notation::NamedBits(_, _) => "NAMED BITS",
        Notation::Text(kind, _) => text_word(*kind),
        Notation::UtcTime => "UTC",
        Notation::GeneralizedTime => "GENERALIZED",
        Notation::Any => "ANY",
        Notation::Missing => "MISSING",
        Notation::OctetsUnder(_) => "OCTETS UNDER ",
        Notation::ElementsUnder(_) => "ELEMENTS UNDER ",
        Notation::Defined(_) => "#",
        Notation::Imported(_) => "@",
        Notation::SequenceOf(_, _) => "SEQUENCE",
        Notation::SetOf(_, _) => "SET",
        Notation::Tagged(_, _) => "",
    }
}

fn describe_notation(out: &mut Description, notation: &Notation) {
    out.put(word_of(notation));
    match notation {
        Notation::Integer(bounds, _) => describe_bounds(out, *bounds),
        Notation::OctetString(size)
        | Notation::BitString(size)
        | Notation::NamedBits(size, _)
        | Notation::Text(_, size) => describe_size(out, *size),
        Notation::OctetsUnder(number) | Notation::ElementsUnder(number) => out.number(*number),
        Notation::Defined(index) | Notation::Imported(index) => out.number(*index as u64),
        Notation::SequenceOf(element, size) | Notation::SetOf(element, size) => {
            describe_size(out, *size);
            out.put(" OF ");
            describe_notation(out, element);
        }
        Notation::Tagged(layer, inner) => {
            describe_layer(out, *layer);
            describe_notation(out, inner);
        }
        _ => {}
    }
}

fn describe_arcs(out: &mut Description, arcs: &[u64]) {
    for arc in arcs {
        out.put(".");
        out.number(*arc);
    }
}

fn describe_bits(out: &mut Description, octets: &[u8], count: usize) {
    out.number(count as u64);
    out.put(" bits in ");
    describe_octets(out, octets);
}

fn describe_octets(out: &mut Description, octets: &[u8]) {
    out.put("octets");
    for octet in octets {
        out.put(" ");
        out.number(u64::from(*octet));
    }
}

fn describe_default(out: &mut Description, value: &DefaultValue<'_>) {
    out.put(" DEFAULT ");
    match value {
        DefaultValue::Boolean(true) => out.put("TRUE"),
        DefaultValue::Boolean(false) => out.put("FALSE"),
        DefaultValue::Integer(number) => describe_integer(out, *number),
        DefaultValue::Enumerated(name, number) => {
            out.name(name);
            out.put(" ");
            out.signed(*number);
        }
        DefaultValue::ObjectIdentifier(arcs) => describe_arcs(out, arcs.as_slice()),
        DefaultValue::Octets(octets) => describe_octets(out, octets.as_slice()),
        DefaultValue::Bits(octets, count) => describe_bits(out, octets.as_slice(), *count),
        DefaultValue::EmptySequenceOf | DefaultValue::EmptySetOf => out.put("{}"),
        DefaultValue::Text(text) => {
            out.put("\"");
            out.name(text);
            out.put("\"");
        }
    }
}

fn describe_named(out: &mut Description, is_addition: bool, name: &[u8]) {
    out.put(if is_addition { " +" } else { " " });
    out.name(name);
    out.put(" ");
}

fn describe_part(out: &mut Description, part: &Part<'_>) {
    describe_named(out, part.is_addition, part.name);
    describe_notation(out, &part.notation);
    match &part.presence {
        Presence::Required => {}
        Presence::Optional => out.put(" OPTIONAL"),
        Presence::Default(value) => describe_default(out, value),
    }
    out.put(",");
}

fn describe_components(out: &mut Description, components: &Components<'_>) {
    for part in &components.parts {
        describe_part(out, part);
    }
    if let Some(index) = components.extension {
        out.put(" ...");
        out.number(index as u64);
    }
}

fn describe_choice(out: &mut Description, choice: &Alternatives<'_>) {
    for alternative in &choice.alternatives {
        describe_named(out, alternative.is_addition, alternative.name);
        describe_notation(out, &alternative.notation);
        out.put(",");
    }
    if choice.is_extensible {
        out.put(" ...");
    }
}

fn describe_items(out: &mut Description, enumeration: &Enumeration<'_>) {
    for item in &enumeration.items {
        describe_named(out, item.is_addition, item.name);
        out.signed(item.number);
        out.put(",");
    }
    if enumeration.is_extensible {
        out.put(" ...");
    }
}

fn describe_body(out: &mut Description, body: &Body<'_>) {
    match body {
        Body::Sequence(components) => {
            out.put("SEQUENCE");
            describe_components(out, components);
        }
        Body::Set(components) => {
            out.put("SET");
            describe_components(out, components);
        }
        Body::Choice(choice) => {
            out.put("CHOICE");
            describe_choice(out, choice);
        }
        Body::Enumerated(enumeration) => {
            out.put("ENUMERATED");
            describe_items(out, enumeration);
        }
        Body::Value(notation) => {
            out.put("of ");
            describe_notation(out, notation);
        }
        Body::Alias(notation) => {
            out.put("= ");
            describe_notation(out, notation);
        }
    }
}

fn loosening_word(what: Loosening) -> &'static str {
    match what {
        Loosening::Constraint => " !constraint",
        Loosening::InnerConstraint => " !inner",
        Loosening::Contents => " !contents",
        Loosening::OpenType => " !open",
        Loosening::Parameter => " !parameter",
        Loosening::Missing => " !missing",
        Loosening::Additions => " !additions",
        Loosening::Default => " !default",
        Loosening::Recursion => " !recursion",
        Loosening::Characters => " !characters",
        Loosening::Contained => " !contained",
    }
}

fn describe_definition(out: &mut Description, definition: &Definition<'_>) {
    for name in &definition.path {
        out.name(name);
        out.put(".");
    }
    out.put(if definition.is_exported {
        " "
    } else {
        " private "
    });
    for layer in &definition.tags {
        describe_layer(out, *layer);
    }
    describe_body(out, &definition.body);
    for looser in &definition.looser {
        out.put(loosening_word(looser.what));
    }
    out.put("\n");
}

fn describe_value(out: &mut Description, value: &Value<'_>) {
    match value {
        Value::Boolean(true) => out.put("TRUE"),
        Value::Boolean(false) => out.put("FALSE"),
        Value::Integer(number) => describe_integer(out, *number),
        Value::Bit(number) => {
            out.put("bit ");
            out.number(*number);
        }
        Value::ObjectIdentifier(arcs) => describe_arcs(out, arcs.as_slice()),
        Value::Text(text) => out.name(text),
    }
}

fn describe_constant(out: &mut Description, constant: &Constant<'_>) {
    if let Some(of) = constant.of {
        out.name(of);
        out.put(".");
    }
    out.name(constant.name);
    out.put(" = ");
    describe_value(out, &constant.value);
    out.put("\n");
}

fn describe_problem(out: &mut Description, problem: &Problem) {
    out.number(problem.place.module as u64);
    out.put(":");
    out.number(problem.place.offset as u64);
    out.put(": ");
    out.put(problem_text(problem.kind));
    if let Some(other) = problem.other {
        out.put(" at ");
        out.number(other.offset as u64);
    }
    out.put("\n");
}

/// A line for each definition, constant and problem.
pub fn described(alloc: Global, resolved: &Resolved<'_>) -> Description {
    let mut out = Description {
        text: String::new(alloc),
    };
    for definition in &resolved.definitions {
        describe_definition(&mut out, definition);
    }
    for constant in &resolved.constants {
        describe_constant(&mut out, constant);
    }
    for problem in &resolved.problems {
        describe_problem(&mut out, problem);
    }
    out
}
