//! The types of the values of defaults that are tested: of an OBJECT IDENTIFIER, an OCTET STRING, a BIT STRING, a string of
//! characters, or a list with a name.

use crate::defaults::untagged;
use crate::parts::{Field, Fields, put_default_name};
use crate::template::Fragments;
use crate::templates::{
    BITS_DEFAULT, EMPTY_DEFAULT, IDENTIFIER_DEFAULT, OCTETS_DEFAULT, TEXT_DEFAULT,
};
use crate::terms::TypeNames;
use crate::text::Text;
use asn1_types::model::{DefaultValue, Presence};

// A list of numbers: as clauses write it, and as Rust does.
#[derive(Drop)]
struct Numbers {
    clause: Text,
    code: Text,
}

// No numbers.
fn no_numbers(out: &Text) -> Numbers {
    Numbers {
        clause: out.another(),
        code: out.another(),
    }
}

impl Numbers {
    // Appends a number.
    fn put(&mut self, number: u64) {
        if !self.code.as_slice().is_empty() {
            self.code.say(", ");
        }
        self.code.put_number(number);
        self.clause.put_number(number);
        self.clause.say(" ∷ ");
    }
}

// The arcs of an object identifier.
fn arcs_in(arcs: &[u64], out: &Text) -> Numbers {
    let mut numbers = no_numbers(out);
    for arc in arcs {
        numbers.put(*arc);
    }
    numbers
}

// The octets of an OCTET STRING.
fn octets_in(octets: &[u8], out: &Text) -> Numbers {
    let mut numbers = no_numbers(out);
    for octet in octets {
        numbers.put(u64::from(*octet));
    }
    numbers
}

// A string of characters, which Rust writes as it is, but for `\\`.
fn text_in(text: &[u8], out: &Text) -> Numbers {
    let Numbers { clause, .. } = octets_in(text, out);
    let mut code = out.another();
    for octet in text {
        if *octet == b'\\' {
            code.say("\\");
        }
        code.put_octet(*octet);
    }
    Numbers { clause, code }
}

// The marks of the name of the type of a field's default.
fn named_after(field: &Field<'_, '_>, out: &Text) -> Fragments {
    let mut fragments = Fragments::new(out.alloc());
    let mut own = out.another();
    put_default_name(field.name, &mut own);
    fragments.set(b'X', own);
    fragments.set_octets(b'f', field.name);
    fragments
}

// The marks of the type of a value.
fn marks_of(field: &Field<'_, '_>, numbers: Numbers, out: &Text) -> Fragments {
    let Numbers { mut clause, code } = numbers;
    clause.say("[]");
    let mut fragments = named_after(field, out);
    fragments.set(b'n', clause);
    fragments.set(b'r', code);
    fragments
}

// Appends the type of a value.
fn put_type(template: &str, field: &Field<'_, '_>, numbers: Numbers, out: &mut Text) {
    marks_of(field, numbers, out).fill(template, out);
}

// Appends the type of bits, of which there are so many in these octets.
fn put_bits(field: &Field<'_, '_>, octets: &[u8], count: usize, out: &mut Text) {
    let mut fragments = marks_of(field, octets_in(octets, out), out);
    let mut number = out.another();
    number.put_number(count as u64);
    fragments.set(b'c', number);
    fragments.fill(BITS_DEFAULT, out);
}

// Appends the type of the default of a list, if the list has a name, and returns whether it has. `word` is that of the list in names of terms.
fn put_empty(field: &Field<'_, '_>, word: &[u8], names: &TypeNames, out: &mut Text) -> bool {
    let Some(list) = names.named(untagged(&field.part.notation)) else {
        return false;
    };
    let mut fragments = named_after(field, out);
    fragments.set_octets(b'B', list.name.as_slice());
    fragments.set_octets(b'n', word);
    fragments.fill(EMPTY_DEFAULT, out);
    true
}

// Appends the type of the value of a default, if it is tested and has one, and returns whether it has.
fn put_tested_type(field: &Field<'_, '_>, names: &TypeNames, out: &mut Text) -> bool {
    let Presence::Default(value) = &field.part.presence else {
        return false;
    };
    match value {
        DefaultValue::ObjectIdentifier(arcs) => {
            let numbers = arcs_in(arcs.as_slice(), out);
            put_type(IDENTIFIER_DEFAULT, field, numbers, out);
        }
        DefaultValue::Octets(octets) => {
            let numbers = octets_in(octets.as_slice(), out);
            put_type(OCTETS_DEFAULT, field, numbers, out);
        }
        DefaultValue::Bits(octets, count) => put_bits(field, octets.as_slice(), *count, out),
        DefaultValue::EmptySequenceOf => return put_empty(field, b"sequence", names, out),
        DefaultValue::EmptySetOf => return put_empty(field, b"set", names, out),
        DefaultValue::Text(text) => {
            let numbers = text_in(*text, out);
            put_type(TEXT_DEFAULT, field, numbers, out);
        }
        _ => return false,
    }
    true
}

/// Appends the types of the values of the defaults that are tested, but for those at the end of an extensible SEQUENCE. Returns whether there are any.
pub fn put_tested_types(fields: &Fields<'_, '_>, names: &TypeNames, out: &mut Text) -> bool {
    let count = match fields.tail {
        Some(start) => start,
        None => fields.count(),
    };
    let mut is_there = false;
    for place in 0..count {
        let Some(field) = fields.at(place) else { break };
        is_there = put_tested_type(&field, names, out) || is_there;
    }
    is_there
}
