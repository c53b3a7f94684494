//! Object identifiers from texts.
//!
//! ARG of `o:from_str` is the text in hexadecimal. Its answer is `none` where the text is rejected, and `notencodable` is in
//! place of the encoding where there is none.
//!
//! `o:parts N` makes the text of the N components 1, 2, 2, 3, 4 and so on, and reads it; these components are shown, written
//! and read again. The result is how many components there are, and the lengths of the text and of the encoding.

use crate::calls::IDENTIFIER;
use crate::leaf::{Leaf, show_identifier};
use crate::line::octets;
use crate::parts::Element;
use crate::reading::{append_leaf, encoding_of, parse};
use crate::text::Text;
use std::alloc::Global;
use yasna::models::ObjectIdentifier;
use yasna::{ASN1Error, ASN1ErrorKind, ASN1Result, BERMode};

/// Appends what a call on a text returns, and says whether there are such a call and argument.
pub fn append_outcome(call: &str, arg: &str, text: &mut Text) -> bool {
    match call {
        "o:from_str" => append_parsed(arg, text),
        "o:parts" => match arg.parse() {
            Ok(count) => {
                append_counts(count, text);
                true
            }
            Err(_) => false,
        },
        _ => false,
    }
}

/// The object identifier whose components a text shows; none where it shows none. Without memory for it, that is noted in a
/// result.
pub fn identifier(text: &str, came: &mut Text) -> Option<ObjectIdentifier> {
    match ObjectIdentifier::from_str(came.allocator(), text) {
        Ok(identifier) => Some(identifier),
        Err(error) => {
            if error.is_out_of_memory() {
                came.out_of_memory = true;
            }
            None
        }
    }
}

// Appends what reading a text in hexadecimal returns: the components, and their encoding if they have one.
fn append_parsed(digits: &str, text: &mut Text) -> bool {
    let Some(bytes) = octets(digits, text) else {
        return false;
    };
    let Ok(characters) = str::from_utf8(&bytes) else {
        return false;
    };
    match identifier(characters, text) {
        Some(identifier) if identifier.is_encodable() => {
            append_leaf(BERMode::Der, Leaf::Identifier(identifier), text);
        }
        Some(identifier) => {
            text.push("ok ");
            show_identifier(&identifier, text);
            text.push(" notencodable");
        }
        None => text.push("none"),
    }
    true
}

// Appends what becomes of so many components.
fn append_counts(count: u64, text: &mut Text) {
    let mut components = Text::with_room(text.allocator());
    components.push("1");
    for component in 1..count {
        components.push(".");
        components.push_value(&component.max(2));
    }
    if components.out_of_memory {
        text.out_of_memory = true;
        return;
    }
    match identifier(&components.text, text) {
        Some(identifier) => append_lengths(&components.text, identifier, text),
        None => text.push("none"),
    }
}

// Appends the lengths of these components, of their text and of their encoding.
fn append_lengths(components: &str, identifier: ObjectIdentifier, text: &mut Text) {
    let count = identifier.components().len();
    if !is_shown_as(&identifier, components, text) {
        return text.push("another text");
    }
    let Some(element) = Element::alone(Leaf::Identifier(identifier), text) else {
        return;
    };
    match written_length(text.allocator(), &element) {
        Ok(encoding) => {
            text.push("ok");
            for length in &[count, components.len(), encoding] {
                text.push(" ");
                text.push_value(length);
            }
        }
        Err(error) => text.reject(error.kind()),
    }
}

// Whether the text shows these components; without memory for that, it is noted in a result.
fn is_shown_as(identifier: &ObjectIdentifier, components: &str, came: &mut Text) -> bool {
    let mut shown = Text::with_room(came.allocator());
    shown.push_value(identifier);
    came.out_of_memory = came.out_of_memory || shown.out_of_memory;
    shown.text.as_str() == components
}

// How many bytes are written of components, which are read again as they were.
fn written_length(alloc: Global, written: &Element) -> ASN1Result<usize> {
    let encoding = match encoding_of(alloc, BERMode::Der, written) {
        Ok(encoding) => encoding,
        Err(error) => return Err(error),
    };
    match parse(alloc, BERMode::Der, IDENTIFIER, &encoding) {
        Ok(read) if are_same(read.leaf(), written.leaf()) => Ok(encoding.len()),
        Ok(_) => Err(ASN1Error::new(ASN1ErrorKind::Invalid)),
        Err(error) => Err(error),
    }
}

// Whether both are one object identifier.
fn are_same(one: Option<&Leaf>, other: Option<&Leaf>) -> bool {
    match (one, other) {
        (Some(Leaf::Identifier(one)), Some(Leaf::Identifier(other))) => *one == *other,
        _ => false,
    }
}
