//! Elements from BER to DER (X.690, clauses 8, 10 and 11).
//!
//! `convert` begins the walk. `convert_contents` goes from element to element, `convert_element` decides by an element's tag how its
//! contents are read, and `convert_constructed` descends one level. Each appends whole elements in DER to one output. The header of a constructed
//! element is put before its contents once these are there, so that those of a SET OF are put in order before. The contents of a primitive
//! element are turned into those in DER by `primitives`.
ghost use Rattle.std.specs.Prelude.{◌≡◌, ◌≤◌, ℕ, List, IfOk, IfErr, OnOk, MatchOption, length};
ghost use Rattle.yasna_base.specs.Bits.{bits_tag};
ghost use Rattle.yasna_base.specs.Boolean.{boolean_tag};
ghost use Rattle.yasna_base.specs.Grammar.{max_depth};
ghost use Rattle.yasna_base.specs.Header.{OpensAt, EndsBefore};
ghost use Rattle.yasna_bytes.specs.Header.{NoEnd};
ghost use Rattle.yasna_bytes.specs.Opening.{end_found};
ghost use Rattle.asn1der_convert.specs.Conversion.{Converts, EncodesTheSame};
ghost use Rattle.yasna_base.specs.declared.mode.BERMode.TheVariants.{Ber, Der};
ghost use Rattle.yasna_base.specs.Identifier.{BeginsWithTag, identifier};
ghost use Rattle.yasna_base.specs.Raw.{IsRaw, IsJoining};
ghost use Rattle.yasna_base.specs.declared.tag.PCBit.TheVariants.{Primitive, Constructed};
ghost use Rattle.asn1der_convert.specs.Ambiguity.{Encloses, MeetsAt, MeetsTo, AreTheAmbiguities};
ghost use Rattle.asn1der_convert.specs.Parts.{PartAt, PartsAt};
ghost use Rattle.asn1der_convert.specs.declared.error.ConvertError.TheVariants.{Memory};
ghost use Rattle.asn1der_convert.specs.WholeBits.{WholeBitsAt};
ghost use Rattle.asn1der_convert.specs.Tags.{IsOtherTag, IsOtherPrimitive, IsOtherConstructed, IsStringTag};

use crate::ambiguity::Ambiguities;
use crate::contents_class::{ContentsClass, class_of, is_constructed_type, is_primitive_type};
use crate::error::{ConvertError, offset_of};
use crate::primitives::{
    append_bit_string, append_bits, append_primitive, append_string, truth_byte, unused_and_bytes,
};
use crate::segments::{StringKind, string_error};
use crate::set_order::put_in_order;
use crate::writing::{append_element, enclose_contents};
use asn1_contents::contents_type::contents_type;
use std::alloc::{AllocError, Global};
use yasna_base::bytes::identifier::read_identifier;
use yasna_base::error::ASN1ErrorKind;
use yasna_base::mode::BERMode;
use yasna_base::tag::{PCBit, Tag};
use yasna_base::tags::{TAG_BITSTRING, TAG_BOOLEAN};
use yasna_bytes::bytes::contents::read_value;
use yasna_bytes::bytes::cursor::Cursor;
use yasna_bytes::bytes::header::{
    ContentsEnd, Opened, end_of_contents, open_after_identifier, read_primitive_contents,
};
use yasna_bytes::bytes::segments::{bit_string, octet_string, whole_octets};
use yasna_bytes::bytes::walk::prefix_before;

/// An input in DER.
#[derive(Drop)]
pub struct Converted {
    /// The elements, one after the other.
    pub bytes: Vec<u8>,
    /// The ambiguities, which a schema would decide.
    pub ambiguities: Ambiguities,
}

// Appends a BOOLEAN, whose TRUE is 255 (X.690, 11.1).
fn convert_boolean<'a>(
    alloc: Global,
    cursor: Cursor<'a>,
    out: &mut Vec<u8>,
) -> Result<&'a [u8], ConvertError>
    requires { BeginsWithTag boolean_tag cursor.left.now }
    ensures { PartAt cursor.entry.levels cursor.entry.mode cursor.entry.left.now out.old.items out.new.items result }
{
    let (truth, rest) = match read_value::<bool>(alloc, cursor, TAG_BOOLEAN) {
        Ok(taken) => taken,
        Err(rejection) => return Err(ConvertError::at(cursor, rejection.kind)),
    };
    append_element(out, &[1], &[], &[truth_byte(truth)])?;
    Ok(rest)
}

// How many bits are unused in the primitive BIT STRING in BER that begins here, its bytes, and what follows it.
fn whole_bits(cursor: Cursor<'_>) -> Option<((u8, &[u8]), &[u8])>
    ensures { WholeBitsAt cursor.entry.levels cursor.entry.mode cursor.entry.left.now result }
{
    match cursor.mode {
        BERMode::Ber => {}
        BERMode::Der | BERMode::Cer => return None,
    }
    let Ok((contents, rest)) = read_primitive_contents(cursor, TAG_BITSTRING) else {
        return None;
    };
    match unused_and_bytes(contents) {
        Some(found) => Some((found, rest)),
        None => None,
    }
}

// Appends a BIT STRING that may be in segments, in one piece (X.690, 10.2).
fn convert_bit_segments<'a>(
    alloc: Global,
    cursor: Cursor<'a>,
    out: &mut Vec<u8>,
) -> Result<&'a [u8], ConvertError>
    requires { BeginsWithTag bits_tag cursor.left.now }
    ensures { PartAt cursor.entry.levels cursor.entry.mode cursor.entry.left.now out.old.items out.new.items result }
{
    let ((string, count), rest) = match bit_string(alloc, cursor, TAG_BITSTRING) {
        Ok(taken) => taken,
        Err(rejection) => {
            let bits = StringKind::Bits;
            return Err(string_error(alloc, cursor, TAG_BITSTRING, bits, rejection.kind));
        }
    };
    append_bit_string(out, &[3], string, count)?;
    Ok(rest)
}

// Appends a BIT STRING, in one piece, from where it is if it is primitive.
fn convert_bits<'a>(
    alloc: Global,
    cursor: Cursor<'a>,
    out: &mut Vec<u8>,
) -> Result<&'a [u8], ConvertError>
    requires { BeginsWithTag bits_tag cursor.left.now }
    ensures { PartAt cursor.entry.levels cursor.entry.mode cursor.entry.left.now out.old.items out.new.items result }
{
    let Some(((unused, bytes), rest)) = whole_bits(cursor) else {
        return convert_bit_segments(alloc, cursor, out);
    };
    append_bits(out, &[3], unused, bytes)?;
    Ok(rest)
}

// Appends a string of octets that is in segments, in one piece (X.690, 10.2), and in DER's form.
fn convert_segments<'a>(
    alloc: Global,
    cursor: Cursor<'a>,
    tag: Tag,
    out: &mut Vec<u8>,
) -> Result<&'a [u8], ConvertError>
    requires mode { cursor.mode ≡ Ber }
    requires string { IsStringTag tag }
    requires begins { BeginsWithTag tag cursor.left.now }
    ensures { PartAt cursor.entry.levels cursor.entry.mode cursor.entry.left.now out.old.items out.new.items result }
{
    let (octets, rest) = match octet_string(alloc, cursor, tag) {
        Ok(taken) => taken,
        Err(rejection) => {
            let octets = StringKind::Octets;
            return Err(string_error(alloc, cursor, tag, octets, rejection.kind));
        }
    };
    let identifier_bytes = [tag.tag_number as u8];
    match append_string(
        alloc,
        cursor,
        contents_type(tag),
        &identifier_bytes,
        octets,
        out,
    ) {
        Ok(()) => Ok(rest),
        Err(error) => Err(error),
    }
}

// Appends a string of octets in DER's form.
fn convert_octets<'a>(
    alloc: Global,
    cursor: Cursor<'a>,
    tag: Tag,
    out: &mut Vec<u8>,
) -> Result<&'a [u8], ConvertError>
    requires mode { cursor.mode ≡ Ber }
    requires string { IsStringTag tag }
    requires begins { BeginsWithTag tag cursor.left.now }
    ensures { PartAt cursor.entry.levels cursor.entry.mode cursor.entry.left.now out.old.items out.new.items result }
{
    let whole = match whole_octets(cursor, tag) {
        Ok(whole) => whole,
        Err(rejection) => {
            let octets = StringKind::Octets;
            return Err(string_error(alloc, cursor, tag, octets, rejection.kind));
        }
    };
    let Some((octets, rest)) = whole else {
        return convert_segments(alloc, cursor, tag, out);
    };
    match append_primitive(
        alloc,
        cursor,
        contents_type(tag),
        &[tag.tag_number as u8],
        octets,
        out,
    ) {
        Ok(()) => Ok(rest),
        Err(error) => Err(error),
    }
}

/// The bytes after contents, if they end here.
pub fn after_end<'a>(end: ContentsEnd<'a>, left: &'a [u8]) -> Option<&'a [u8]>
    ensures { MatchOption result (NoEnd (end_found end.entry) left.now) (λ after. EndsBefore (end_found end.entry) left.now after.now) }
{
    match end {
        ContentsEnd::Definite(after) => { if left.is_empty() { Some(after) } else { None } }
        ContentsEnd::Indefinite => end_of_contents(left),
    }
}

// Appends a primitive element of another type, whose contents are in DER's form.
fn convert_primitive<'a>(
    alloc: Global,
    cursor: Cursor<'a>,
    tag: Tag,
    identifier_bytes: &[u8],
    opened: &Opened<'a>,
    out: &mut Vec<u8>,
) -> Result<&'a [u8], ConvertError>
    requires mode { cursor.mode ≡ Ber }
    requires level { 1 ≤ cursor.levels }
    requires other { IsOtherPrimitive tag }
    requires bytes { identifier_bytes.now ≡ identifier tag Primitive }
    requires opens { OpensAt cursor.mode tag Primitive cursor.left.now opened.now.contents opened.now.end }
    ensures { PartAt cursor.entry.levels cursor.entry.mode cursor.entry.left.now out.old.items out.new.items result }
{
    let ContentsEnd::Definite(after) = opened.end else {
        // No mode accepts the indefinite form here.
        return Err(ConvertError::at(cursor, ASN1ErrorKind::Invalid));
    };
    match append_primitive(
        alloc,
        cursor,
        contents_type(tag),
        identifier_bytes,
        opened.contents,
        out,
    ) {
        Ok(()) => Ok(after),
        Err(error) => Err(error),
    }
}

// Puts the header of the constructed element with this tag before its elements, which begin at a place of the output. Before, they are put in
// order, and its ambiguities are noted.
fn enclose(
    alloc: Global,
    offset: usize,
    tag: Tag,
    identifier_bytes: &[u8],
    start: usize,
    out: &mut Vec<u8>,
    ambiguities: &mut Ambiguities,
) -> Result<(), AllocError>
    requires within { start ≤ length out.old.items }
    requires bytes { identifier_bytes.now ≡ identifier tag Constructed }
    ensures { OnOk result (Encloses tag start out.old.items out.new.items ambiguities.old ambiguities.new) }
{
    let bytes = out.as_mut_slice();
    put_in_order(alloc, tag, &mut bytes[start..])?;
    let elements = &out.as_slice()[start..];
    ambiguities.note(offset, tag, elements);
    enclose_contents(out, start, identifier_bytes)
}

// Appends the elements up to the end of contents, and returns what follows it.
#[cycle(conversion)]
fn convert_contents<'a>(
    alloc: Global,
    contents: Cursor<'a>,
    end: ContentsEnd<'a>,
    out: &mut Vec<u8>,
    ambiguities: &mut Ambiguities,
) -> Result<&'a [u8], ConvertError>
    requires { contents.mode ≡ Ber }
    ensures parts { PartsAt contents.entry.levels contents.entry.mode contents.entry.left.now (end_found end.entry) out.old.items out.new.items result }
    ensures met { IfOk result (λ r. MeetsTo contents.entry.levels contents.entry.mode contents.entry.left.now
        (end_found end.entry) r.now ambiguities.old ambiguities.new) }
{
    let mut place = contents;
    loop {
        if let Some(after) = after_end(end, place.left) {
            return Ok(after);
        }
        let rest = match convert_element(alloc, place, out, ambiguities) {
            Ok(rest) => rest,
            Err(error) => return Err(error),
        };
        place = place.further(rest);
    }
}

// Appends a constructed element of another type, and notes its ambiguities.
#[cycle(conversion)]
fn convert_constructed<'a>(
    alloc: Global,
    cursor: Cursor<'a>,
    tag: Tag,
    identifier_bytes: &[u8],
    opened: &Opened<'a>,
    out: &mut Vec<u8>,
    ambiguities: &mut Ambiguities,
) -> Result<&'a [u8], ConvertError>
    requires mode { cursor.mode ≡ Ber }
    requires level { 1 ≤ cursor.levels }
    requires other { IsOtherConstructed tag }
    requires bytes { identifier_bytes.now ≡ identifier tag Constructed }
    requires opens { OpensAt cursor.mode tag Constructed cursor.left.now opened.now.contents opened.now.end }
    ensures part { PartAt cursor.entry.levels cursor.entry.mode cursor.entry.left.now out.old.items out.new.items result }
    ensures met { IfOk result (λ r. MeetsAt cursor.entry.levels cursor.entry.mode cursor.entry.left.now r.now ambiguities.old ambiguities.new) }
{
    let start = out.len();
    let contents = cursor.inside(opened);
    let rest = match convert_contents(alloc, contents, opened.end, out, ambiguities) {
        Ok(rest) => rest,
        Err(error) => return Err(error),
    };
    match enclose(
        alloc,
        offset_of(cursor),
        tag,
        identifier_bytes,
        start,
        out,
        ambiguities,
    ) {
        Ok(()) => Ok(rest),
        Err(_) => Err(ConvertError::Memory),
    }
}

// Appends an element of another type.
#[cycle(conversion)]
fn convert_other<'a>(
    alloc: Global,
    cursor: Cursor<'a>,
    tag: Tag,
    identifier_bytes: &[u8],
    opened: &Opened<'a>,
    out: &mut Vec<u8>,
    ambiguities: &mut Ambiguities,
) -> Result<&'a [u8], ConvertError>
    requires mode { cursor.mode ≡ Ber }
    requires level { 1 ≤ cursor.levels }
    requires other { IsOtherTag tag }
    requires bytes { identifier_bytes.now ≡ identifier tag opened.now.bit }
    requires opens { OpensAt cursor.mode tag opened.now.bit cursor.left.now opened.now.contents opened.now.end }
    ensures part { PartAt cursor.entry.levels cursor.entry.mode cursor.entry.left.now out.old.items out.new.items result }
    ensures met { IfOk result (λ r. MeetsAt cursor.entry.levels cursor.entry.mode cursor.entry.left.now r.now ambiguities.old ambiguities.new) }
{
    match opened.bit {
        PCBit::Primitive => {
            if is_constructed_type(tag) {
                return Err(ConvertError::at(cursor, ASN1ErrorKind::Invalid));
            }
            convert_primitive(alloc, cursor, tag, identifier_bytes, opened, out)
        }
        PCBit::Constructed => {
            if is_primitive_type(tag) {
                return Err(ConvertError::at(cursor, ASN1ErrorKind::Invalid));
            }
            convert_constructed(
                alloc,
                cursor,
                tag,
                identifier_bytes,
                opened,
                out,
                ambiguities,
            )
        }
    }
}

// Appends an element, and returns what follows it.
#[cycle(conversion)]
fn convert_element<'a>(
    alloc: Global,
    cursor: Cursor<'a>,
    out: &mut Vec<u8>,
    ambiguities: &mut Ambiguities,
) -> Result<&'a [u8], ConvertError>
    requires { cursor.mode ≡ Ber }
    ensures part { PartAt cursor.entry.levels cursor.entry.mode cursor.entry.left.now out.old.items out.new.items result }
    ensures met { IfOk result (λ r. MeetsAt cursor.entry.levels cursor.entry.mode cursor.entry.left.now r.now ambiguities.old ambiguities.new) }
{
    let (tag, bit, trailing) = match read_identifier(cursor.left) {
        Ok(identifier) => identifier,
        Err(kind) => return Err(ConvertError::at(cursor, kind)),
    };
    match class_of(tag) {
        ContentsClass::EndOfContents => Err(ConvertError::at(cursor, ASN1ErrorKind::Invalid)),
        ContentsClass::Boolean => convert_boolean(alloc, cursor, out),
        ContentsClass::Bits => convert_bits(alloc, cursor, out),
        ContentsClass::Octets => convert_octets(alloc, cursor, tag, out),
        ContentsClass::Other => match open_after_identifier(cursor, bit, trailing) {
            Ok(opened) => {
                let identifier_bytes = prefix_before(cursor.left, trailing);
                convert_other(
                    alloc,
                    cursor,
                    tag,
                    identifier_bytes,
                    &opened,
                    out,
                    ambiguities,
                )
            }
            Err(rejection) => Err(ConvertError::at(cursor, rejection.kind)),
        },
    }
}

/// Appends the elements up to the end of contents, converted from BER to DER, and returns what follows it. Their ambiguities aren't noted.
pub fn append_elements<'a>(
    alloc: Global,
    contents: Cursor<'a>,
    end: ContentsEnd<'a>,
    out: &mut Vec<u8>,
) -> Result<&'a [u8], ConvertError>
    requires { contents.mode ≡ Ber }
    ensures { PartsAt contents.entry.levels contents.entry.mode contents.entry.left.now (end_found end.entry) out.old.items out.new.items result }
{
    let mut ambiguities = Ambiguities::none();
    convert_contents(alloc, contents, end, out, &mut ambiguities)
}

/// Converts elements from BER to DER.
pub fn convert(alloc: Global, input: &[u8]) -> Result<Converted, ConvertError>
    ensures encoding { IfOk result (λ c. Converts input.now c.bytes.items) }
    ensures raw { IfOk result (λ c. IsJoining (IsRaw Der max_depth) c.bytes.items) }
    ensures same { IfOk result (λ c. EncodesTheSame input.now c.bytes.items) }
    ensures again { IfOk result (λ c. Converts c.bytes.items c.bytes.items) }
    ensures one { IfOk result (λ c. (d : List ℕ) → Converts input.now d → d ≡ c.bytes.items) }
    ensures ambiguities { IfOk result (λ c. AreTheAmbiguities input.now c.ambiguities) }
    ensures rejection { IfErr result (λ e. (e ≡ Memory → ⊥) → (d : List ℕ) → Converts input.now d → ⊥) }
{
    let start = Cursor::start(input, BERMode::Ber);
    if input.is_empty() {
        return Err(ConvertError::at(start, ASN1ErrorKind::Eof));
    }
    let mut ambiguities = Ambiguities::none();
    let mut bytes = Vec::with_capacity(alloc, input.len())?;
    let end = ContentsEnd::Definite(&[]);
    match convert_contents(alloc, start, end, &mut bytes, &mut ambiguities) {
        Ok(_rest) => Ok(Converted { bytes, ambiguities }),
        Err(error) => Err(error),
    }
}
