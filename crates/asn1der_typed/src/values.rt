//! Elements in which no others are, or others of which the module says nothing. Each is appended to the output.
ghost use Rattle.std.specs.Prelude.{◌≡◌, ◌↔◌, ◌<◌, ◌^◌, ℕ, List, [], IsTrue, IfOk, OnOk};
ghost use Rattle.yasna_base.specs.Canonical.{canonical_element};
ghost use Rattle.yasna_base.specs.Grammar.{max_depth};
ghost use Rattle.yasna_base.specs.Header.{definite_end};
ghost use Rattle.yasna_base.specs.Identifier.{identifier};
ghost use Rattle.yasna_base.specs.Text.{IsStringOf};
ghost use Rattle.yasna_base.specs.declared.tag.Tag.{Tag};
ghost use Rattle.yasna_base.specs.declared.mode.BERMode.TheVariants.{Ber, Der};
ghost use Rattle.yasna_base.specs.declared.tag.PCBit.{PCBit};
ghost use Rattle.yasna_base.specs.declared.tag.PCBit.TheVariants.{Primitive, Constructed};
ghost use Rattle.asn1der_convert.specs.Parts.{AppendsParts};
ghost use Rattle.asn1_contents.specs.Contents.{HasContents};
ghost use Rattle.asn1_contents.specs.ContentsType.{type_with};
ghost use Rattle.asn1der_typed.specs.Appending.{
  AppendsUnder,
  AppendsElement,
  AppendsSameTag,
  AppendsValue,
  HasDefault,
  HasDerContents,
  HasDerElements,
  IsBooleanOf,
  StartsWith,
  universal_tag,
};

use crate::bits::{append_bit_segments, append_whole_bits};
use asn1_contents::contents_type::contents_type;
use asn1der_convert::contents_class::{
    ContentsClass, class_of, is_constructed_type, is_primitive_type,
};
use asn1der_convert::conversion::append_elements;
use asn1der_convert::error::ConvertError;
use asn1der_convert::primitives::{append_primitive, append_string, truth_byte};
use asn1der_convert::segments::{StringKind, string_error};
use asn1der_convert::writing::{append_element, enclose_contents};
use asn1show_schema::has_number;
use asn1show_schema::schema::{Number, ValueType};
use std::alloc::{AllocError, Global};
use yasna_base::bytes::identifier::read_identifier;
use yasna_base::error::ASN1ErrorKind;
use yasna_base::mode::BERMode;
use yasna_base::tag::{PCBit, Tag, TagClass};
use yasna_bytes::bytes::cursor::Cursor;
use yasna_bytes::bytes::header::{ContentsEnd, open_constructed, read_primitive_contents};
use yasna_bytes::bytes::segments::octet_string;
use yasna_bytes::bytes::walk::{RawElement, prefix_before};

/// An element of the input, and its place in it.
#[derive(Clone, Copy)]
pub struct Place<'a> {
    /// The offset of its first byte.
    pub offset: usize,
    /// How many elements are around it.
    pub depth: u8,
    /// The element.
    pub element: RawElement<'a>,
}

// Where an element begins.
fn cursor_of(place: Place<'_>) -> Cursor<'_>
    ensures left { result.left.now ≡ place.entry.element.bytes.now }
    ensures mode { result.mode ≡ Ber }
    ensures levels { result.levels ≡ max_depth }
{
    let bytes = place.element.bytes;
    let end = place.offset.saturating_add(bytes.len());
    Cursor::start(bytes, BERMode::Ber).for_element(bytes, end)
}

/// The identifier of an element.
pub fn identifier_of(place: Place<'_>) -> &[u8] {
    let bytes = place.element.bytes;
    match read_identifier(bytes) {
        Ok((_tag, _bit, trailing)) => prefix_before(bytes, trailing),
        Err(_) => &[],
    }
}

// The UNIVERSAL tag of a type.
fn tag_of(value: ValueType) -> Tag
    ensures { result ≡ universal_tag value }
{
    Tag {
        tag_class: TagClass::Universal,
        tag_number: value.universal_number(),
    }
}

// The identifier of a primitive element, by that of a constructed one with the same tag.
fn primitive_identifier(alloc: Global, identifier_bytes: &[u8]) -> Result<Vec<u8>, AllocError>
    ensures { IfOk result (λ i. (t : Tag) → identifier_bytes.now ≡ identifier t Constructed → i.items ≡ identifier t Primitive) }
{
    let mut primitive = Vec::new(alloc);
    let Some((first, others)) = identifier_bytes.split_first() else {
        return Ok(primitive);
    };
    primitive.push(*first % 32 + *first / 64 * 64)?;
    primitive.extend_from_slice(others)?;
    Ok(primitive)
}

// Appends a BOOLEAN of these contents under an identifier (X.690, 8.2 and 11.1).
fn append_boolean(
    cursor: Cursor<'_>,
    identifier_bytes: &[u8],
    contents: &[u8],
    out: &mut Vec<u8>,
) -> Result<(), ConvertError>
    ensures { OnOk result (AppendsUnder (λ c. IsBooleanOf c contents.now) identifier_bytes.now out.old.items out.new.items) }
{
    let [octet] = contents else {
        return Err(ConvertError::at(cursor, ASN1ErrorKind::Invalid));
    };
    append_element(out, identifier_bytes, &[], &[truth_byte(*octet != 0)])?;
    Ok(())
}

// Appends a value whose element is primitive, with the tag and the identifier.
fn append_whole(
    alloc: Global,
    cursor: Cursor<'_>,
    tag: Tag,
    value: ValueType,
    identifier_bytes: &[u8],
    out: &mut Vec<u8>,
) -> Result<(), ConvertError>
    requires mode { cursor.mode ≡ Ber }
    requires levels { cursor.levels ≡ max_depth }
    ensures { OnOk result (AppendsUnder (StartsWith (HasDerContents value tag) cursor.entry.left.now) identifier_bytes.now out.old.items out.new.items) }
{
    let contents = match read_primitive_contents(cursor, tag) {
        Ok((contents, _rest)) => contents,
        Err(rejection) => return Err(ConvertError::at(cursor, rejection.kind)),
    };
    let own = tag_of(value);
    if is_constructed_type(own) {
        return Err(ConvertError::at(cursor, ASN1ErrorKind::Invalid));
    }
    match class_of(own) {
        ContentsClass::Boolean => append_boolean(cursor, identifier_bytes, contents, out),
        ContentsClass::Bits => append_whole_bits(cursor, value, identifier_bytes, contents, out),
        _ => append_primitive(
            alloc,
            cursor,
            contents_type(own),
            identifier_bytes,
            contents,
            out,
        ),
    }
}

// Appends a string of octets in segments under an identifier, in one piece (X.690, 10.2). It has the tag, and begins at the cursor.
fn append_octet_segments(
    alloc: Global,
    cursor: Cursor<'_>,
    tag: Tag,
    value: ValueType,
    identifier_bytes: &[u8],
    out: &mut Vec<u8>,
) -> Result<(), ConvertError>
    requires mode { cursor.mode ≡ Ber }
    requires levels { cursor.levels ≡ max_depth }
    ensures { OnOk result (AppendsUnder (StartsWith (IsStringOf (HasContents (type_with (universal_tag value))) tag Ber max_depth) cursor.entry.left.now) identifier_bytes.now out.old.items out.new.items) }
{
    match octet_string(alloc, cursor, tag) {
        Ok((octets, _rest)) => {
            let own = contents_type(tag_of(value));
            append_string(alloc, cursor, own, identifier_bytes, octets, out)
        }
        Err(rejection) => {
            Err(string_error(alloc, cursor, tag, StringKind::Octets, rejection.kind))
        }
    }
}

// Appends an element with the tag and the identifier, around elements of which the module says nothing.
fn append_parts(
    alloc: Global,
    cursor: Cursor<'_>,
    tag: Tag,
    identifier_bytes: &[u8],
    out: &mut Vec<u8>,
) -> Result<(), ConvertError>
    requires mode { cursor.mode ≡ Ber }
    requires levels { cursor.levels ≡ max_depth }
    ensures { OnOk result (AppendsUnder (StartsWith (HasDerElements tag) cursor.entry.left.now) identifier_bytes.now out.old.items out.new.items) }
{
    let opened = match open_constructed(cursor, tag) {
        Ok(opened) => opened,
        Err(rejection) => return Err(ConvertError::at(cursor, rejection.kind)),
    };
    let start = out.len();
    append_elements(alloc, cursor.inside(&opened), opened.end, out)?;
    enclose_contents(out, start, identifier_bytes)?;
    Ok(())
}

// Appends a value whose element is constructed, with the tag and the identifier.
fn append_constructed(
    alloc: Global,
    cursor: Cursor<'_>,
    tag: Tag,
    value: ValueType,
    identifier_bytes: &[u8],
    out: &mut Vec<u8>,
) -> Result<(), ConvertError>
    requires mode { cursor.mode ≡ Ber }
    requires levels { cursor.levels ≡ max_depth }
    requires bytes { identifier_bytes.now ≡ identifier tag Constructed }
    ensures { OnOk result (AppendsElement value tag cursor.entry.left.now out.old.items out.new.items) }
{
    let own = tag_of(value);
    if is_primitive_type(own) {
        return Err(ConvertError::at(cursor, ASN1ErrorKind::Invalid));
    }
    let primitive = primitive_identifier(alloc, identifier_bytes)?;
    match class_of(own) {
        ContentsClass::Bits => append_bit_segments(alloc, cursor, tag, value, &primitive, out),
        ContentsClass::Octets => append_octet_segments(alloc, cursor, tag, value, &primitive, out),
        ContentsClass::Other => append_parts(alloc, cursor, tag, identifier_bytes, out),
        // No type has the first, and the second has no constructed element.
        ContentsClass::EndOfContents | ContentsClass::Boolean => {
            Err(ConvertError::at(cursor, ASN1ErrorKind::Invalid))
        }
    }
}

// Appends the value of a type that begins at the cursor, whatever its tag is.
fn append_typed(
    alloc: Global,
    cursor: Cursor<'_>,
    value: ValueType,
    out: &mut Vec<u8>,
) -> Result<(), ConvertError>
    requires mode { cursor.mode ≡ Ber }
    requires levels { cursor.levels ≡ max_depth }
    ensures { OnOk result (AppendsSameTag value cursor.entry.left.now out.old.items out.new.items) }
{
    let (tag, bit, trailing) = match read_identifier(cursor.left) {
        Ok(found) => found,
        Err(kind) => return Err(ConvertError::at(cursor, kind)),
    };
    let identifier_bytes = prefix_before(cursor.left, trailing);
    match bit {
        PCBit::Primitive => append_whole(alloc, cursor, tag, value, identifier_bytes, out),
        PCBit::Constructed => append_constructed(alloc, cursor, tag, value, identifier_bytes, out),
    }
}

// Whether an element in DER has the number that its part has if it is absent. Only a primitive one has a number.
fn has_default(value: ValueType, default: Number, element: &[u8]) -> bool
    ensures { (t : Tag) (bit : PCBit) (c : List ℕ) → t.tag_number < 2 ^ 64 → element.now ≡ canonical_element Der t bit c → IsTrue result ↔ HasDefault value default bit c }
{
    let Ok((tag, _bit, _trailing)) = read_identifier(element) else {
        return false;
    };
    match read_primitive_contents(Cursor::start(element, BERMode::Der), tag) {
        Ok((contents, _rest)) => has_number(value, contents, default),
        Err(_) => false,
    }
}

/// Appends an element of which the module says nothing, converted by its tags alone.
pub fn append_untyped(
    alloc: Global,
    place: Place<'_>,
    out: &mut Vec<u8>,
) -> Result<(), ConvertError>
    ensures { OnOk result (AppendsParts max_depth Ber place.entry.element.bytes.now (definite_end []) [] out.old.items out.new.items) }
{
    let end = ContentsEnd::Definite(&[]);
    append_elements(alloc, cursor_of(place), end, out)?;
    Ok(())
}

/// Appends a value of a type, or nothing if it is the number that its part has if it is absent.
pub fn append_value(
    alloc: Global,
    place: Place<'_>,
    value: ValueType,
    default: Option<Number>,
    out: &mut Vec<u8>,
) -> Result<(), ConvertError>
    ensures { OnOk result (AppendsValue default value place.entry.element.bytes.now out.old.items out.new.items) }
{
    let start = out.len();
    append_typed(alloc, cursor_of(place), value, out)?;
    if let Some(number) = default {
        if has_default(value, number, &out.as_slice()[start..]) {
            out.truncate(start);
        }
    }
    Ok(())
}
