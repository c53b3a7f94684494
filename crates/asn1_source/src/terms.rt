//! The texts of a notation: its type, the type of its values, and the terms of its laws.
ghost use Rattle.std.specs.Prelude.{◌<◌, length};

use crate::forms::Form;
use crate::shapes::{Shape, innermost, shape_of, size_of, tag_shape};
use crate::text::Text;
use asn1_types::model::{Integer, Notation, Tag, TagLayer};

/// Which text of a notation.
#[derive(Clone, Copy)]
pub enum Aspect {
    /// The notation.
    Notation,
    /// The type of its values.
    Value,
    /// The term of its law.
    Law,
    /// The term of its law of writing.
    Written,
    /// The term that says that no encoding is empty.
    NonEmpty,
}

/// What the sources call a type.
#[derive(Drop)]
pub struct TypeName {
    /// Its name in Rust.
    pub name: Vec<u8>,
    /// The file of its crate that holds it.
    pub file: Vec<u8>,
    /// The crate, if it is another one.
    pub origin: Option<Vec<u8>>,
    /// Its name in that crate, if it has another one there.
    pub original: Option<Vec<u8>>,
    /// What the names of its laws begin with.
    pub law: Vec<u8>,
    /// Whether it is an enum of an ENUMERATED.
    pub is_enumeration: bool,
    /// The tags around the notation of such an enum, outermost first.
    pub tags: Vec<TagLayer>,
    /// Whether what BER reads of it is written in DER.
    pub is_canonical: bool,
    /// Whether it is a CHOICE of which an alternative that this version doesn't know is a value.
    pub is_open: bool,
    /// The one tag that its encodings begin with, if it has a tag of its own.
    pub own_tag: Option<Tag>,
    /// The tags of a CHOICE of this crate that has none of its own, if no other tag begins an encoding of it.
    pub choice_tags: Vec<Tag>,
    /// Whether it is such a CHOICE, and a part of a SET.
    pub is_set_part: bool,
    /// Why its parts aren't read, if it is a SET whose elements are as they came.
    pub unread: Option<&'static str>,
}

/// The one of these tags, unless they are those of a type without a tag of its own.
pub fn own_tag(tags: &[Tag], is_untagged: bool) -> Option<Tag> {
    match tags {
        [only] if !is_untagged => Some(*only),
        _ => None,
    }
}

/// The names of all types that a source may hold.
#[derive(Drop)]
pub struct TypeNames {
    /// Those of definitions, in their order.
    pub defined: Vec<TypeName>,
    /// The places of definitions, in the order of their files.
    pub order: Vec<usize>,
    /// Those of other crates, in their order.
    pub imported: Vec<TypeName>,
}

impl TypeNames {
    /// The name of the type that a notation names.
    pub fn named(&self, notation: &Notation) -> Option<&TypeName> {
        match notation {
            Notation::Defined(index) => self.defined.get(*index),
            Notation::Imported(index) => self.imported.get(*index),
            _ => None,
        }
    }
}

/// Appends an integer as a clause writes it.
pub fn put_integer(number: Integer, out: &mut Text) {
    if number.is_negative && number.magnitude > 0 {
        out.say("(negsuc ");
        out.put_number(number.magnitude - 1);
    } else {
        out.say("(pos ");
        out.put_number(number.magnitude);
    }
    out.say(")");
}

// Appends an integer as Rust writes it.
fn put_literal(number: Integer, out: &mut Text) {
    if number.is_negative && number.magnitude > 0 {
        out.say("{ -");
        out.put_number(number.magnitude);
        out.say(" }");
    } else {
        out.put_number(number.magnitude);
    }
}

/// Appends a text with its numbers.
pub fn put_shaped(text: &str, shape: Shape, out: &mut Text) {
    for octet in text.as_bytes() {
        match *octet {
            b'#' => put_literal(shape.first, out),
            b'%' => put_literal(shape.second, out),
            b'^' => put_integer(shape.first, out),
            b'~' => put_integer(shape.second, out),
            other => out.put_octet(other),
        }
    }
}

fn text_of(form: &'static Form, aspect: Aspect) -> &'static str {
    match aspect {
        Aspect::Notation => form.notation,
        Aspect::Value => form.value,
        Aspect::Law => form.law,
        Aspect::Written => form.written,
        Aspect::NonEmpty => form.non_empty,
    }
}

// Appends what is before the inside of a form.
fn put_before(shape: Option<Shape>, aspect: Aspect, out: &mut Text) {
    let Some(shape) = shape else { return };
    let text = text_of(shape.form, aspect);
    match text.split_once('@') {
        Some((before, _)) => put_shaped(before, shape, out),
        None => put_shaped(text, shape, out),
    }
}

// Appends what is after the inside of a form.
fn put_after(shape: Option<Shape>, aspect: Aspect, out: &mut Text) {
    let Some(shape) = shape else { return };
    if let Some((_, after)) = text_of(shape.form, aspect).split_once('@') {
        put_shaped(after, shape, out);
    }
}

// Whether a text of a form holds that of what is inside.
fn has_inside(shape: Option<Shape>, aspect: Aspect) -> bool {
    match (shape, aspect) {
        (Some(shape), Aspect::NonEmpty) => shape.form.non_empty.is_empty(),
        _ => true,
    }
}

// Whether a form is around what is inside.
fn is_around(shape: Option<Shape>) -> bool {
    match shape {
        Some(shape) => shape.form.notation.contains('@'),
        None => false,
    }
}

// Appends a text with the name of a type and of its laws.
fn put_name_in(text: &str, name: &TypeName, out: &mut Text) {
    for octet in text.as_bytes() {
        match *octet {
            b'@' => out.put(name.name.as_slice()),
            b'$' => out.put(name.law.as_slice()),
            other => out.put_octet(other),
        }
    }
}

// Appends a text of an ENUMERATED, within the tags before it.
fn put_enumeration(name: &TypeName, aspect: Aspect, out: &mut Text) {
    let text = match aspect {
        Aspect::Notation => "Named<@>",
        Aspect::Value => "@",
        Aspect::Law => "(named_lawful $_number $_named $_writable)",
        Aspect::Written => "(named_written $_number $_named $_writable)",
        Aspect::NonEmpty => "(λ n w. element_non_empty _ _ _ _)",
    };
    let mut inner = out.another();
    put_name_in(text, name, &mut inner);
    put_under(name.tags.as_slice(), aspect, inner.as_slice(), out);
    if inner.is_cut() {
        out.cut();
    }
}

// Appends a text of a type by its name.
fn put_named(name: &TypeName, aspect: Aspect, out: &mut Text) {
    if name.is_enumeration {
        put_enumeration(name, aspect, out);
        return;
    }
    let text = match aspect {
        Aspect::Notation | Aspect::Value => "@",
        Aspect::Law => "($_law refl)",
        Aspect::Written => "($_written refl)",
        Aspect::NonEmpty => "($_non_empty _)",
    };
    put_name_in(text, name, out);
}

/// Appends a text of a notation. Numbers of one that has a default have at most 64 bits.
pub fn put_notation(
    notation: &Notation,
    aspect: Aspect,
    is_default: bool,
    names: &TypeNames,
    out: &mut Text,
) {
    if let Some(name) = names.named(notation) {
        put_named(name, aspect, out);
        return;
    }
    let size = size_of(notation);
    let shape = shape_of(notation, is_default);
    put_before(size, aspect, out);
    put_before(shape, aspect, out);
    if !has_inside(shape, aspect) {
        return;
    }
    match notation {
        Notation::SequenceOf(inner, _) => put_notation(inner, aspect, is_default, names, out),
        Notation::SetOf(inner, _) => put_notation(inner, aspect, is_default, names, out),
        Notation::Tagged(_, inner) if is_around(shape) => {
            put_notation(inner, aspect, is_default, names, out)
        }
        _ => {}
    }
    put_after(shape, aspect, out);
    put_after(size, aspect, out);
}

/// Whether what BER reads of a notation is written in DER.
pub fn is_canonical(notation: &Notation, names: &TypeNames) -> bool {
    let leaf = innermost(notation);
    if let Some(name) = names.named(leaf) {
        return name.is_canonical;
    }
    match shape_of(leaf, false) {
        Some(shape) => !shape.form.written.is_empty(),
        None => false,
    }
}

/// Appends a text under tags, the outermost first, around the text of what is under them.
pub fn put_under(tags: &[TagLayer], aspect: Aspect, inner: &[u8], out: &mut Text) {
    for tag in tags {
        let shape = Some(tag_shape(*tag));
        put_before(shape, aspect, out);
        if !has_inside(shape, aspect) {
            return;
        }
    }
    out.put(inner);
    for tag in tags.iter().rev() {
        put_after(Some(tag_shape(*tag)), aspect, out);
    }
}
