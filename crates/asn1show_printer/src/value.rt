//! The values of primitive elements.
ghost use Rattle.std.specs.Prelude.{◌≡◌, ◌↔◌, ◌∷◌, [], false, IsTrue};
ghost use Rattle.yasna_base.specs.Integer.{IsMinimal};
ghost use Rattle.asn1show_printer.specs.Contents.{AreCharacters, DiagnosesOf, line_is_out_of_memory};
ghost use Rattle.asn1show_printer.specs.Shown.{longest_decimal, HasCharacters, IsCharactersOf, IsShownAsText, IsShownInDecimal};
ghost use Rattle.asn1show_printer.specs.declared.asn_type.AsnType.TheVariants.{Bits, Boolean, GeneralizedTime, Oid, Relative, Text};

mod arcs;
mod number;
mod octets;
mod text;
mod time;

use crate::asn_type::{AsnType, Characters, type_of};
use crate::diagnostic::{Diagnostic, unless};
use crate::line::LineBuffer;
use crate::selection::Selection;
use arcs::{are_components, components_diagnostic, write_oid, write_relative};
use asn1show_names::Names;
use asn1show_schema::Schema;
use asn1show_walk::Item;
use number::write_integer;
pub use octets::write_digits;
use octets::{are_bits, is_padding_clear, write_bits, write_octets};
use std::alloc::Global;
use std::str;
pub use text::write_quoted;
use text::{are_pairs, are_quads, write_utf8, write_wide};
use time::{write_generalized_time, write_utc_time};
use yasna_base::tag::{Tag, TagClass};
use yasna_base::text::{is_ia5, is_numeric, is_printable, is_visible};

/// How an INTEGER or ENUMERATED of more than 8 octets is written.
#[derive(Clone, Copy)]
pub enum Numbers {
    /// In hexadecimal, as its octets.
    Hexadecimal,
    /// In decimal, up to 2048 octets.
    Decimal,
}

impl Numbers {
    // The most octets of a number that is written in decimal. To write a longer one than 2048 octets in decimal would take long.
    fn longest_decimal(self) -> usize
        ensures { result ≡ longest_decimal self }
    {
        match self {
            Numbers::Hexadecimal => 8,
            Numbers::Decimal => 2048,
        }
    }
}

/// How the elements of an input are laid out.
#[derive(Clone, Copy)]
pub enum Layout {
    /// A line for each.
    Lines,
    /// An array of JSON (RFC 8259).
    Json,
    /// A page of HTML.
    Html,
}

/// What is shown of elements, and how.
#[derive(Clone, Copy)]
pub struct View<'n> {
    /// What the first line calls the input.
    pub name: &'n str,
    /// What is shown.
    pub selection: Selection,
    /// How elements are laid out.
    pub layout: Layout,
    /// How long numbers are written.
    pub numbers: Numbers,
    /// The most hexadecimal digits that are written of a value.
    pub width: usize,
    /// Whether the octets of an element are beside its line.
    pub has_dump: bool,
    /// The types of modules that name the elements, if these are given.
    pub schema: Option<&'n Schema>,
}

impl<'n> View<'n> {
    /// Whether lines are written, and not only bytes, JSON or HTML.
    pub fn has_lines(self) -> bool {
        matches!(self.layout, Layout::Lines) && self.selection.has_lines()
    }
}

/// How elements are shown.
#[derive(Clone, Copy)]
pub struct Style<'n> {
    /// The allocator.
    pub alloc: Global,
    /// The names of object identifiers.
    pub names: &'n Names,
    /// What is shown, and how.
    pub view: View<'n>,
}

// Writes a BOOLEAN, and reports what is wrong with it.
fn write_truth(line: &mut LineBuffer, octet: u8) -> Option<Diagnostic>
    ensures { DiagnosesOf Boolean (octet ∷ []) result }
{
    if octet == 0 {
        line.write_str("FALSE");
        return None;
    }
    line.write_str("TRUE");
    unless(octet == 255, Diagnostic::Truth)
}

fn write_boolean(line: &mut LineBuffer, contents: &[u8]) -> Option<Diagnostic>
    ensures { DiagnosesOf Boolean contents.now result }
{
    match contents {
        [octet] => write_truth(line, *octet),
        _ => Some(Diagnostic::Boolean),
    }
}

// Whether contents are those of a number in two's complement (X.690, 8.3.2).
fn are_number(contents: &[u8]) -> bool
    ensures { IsTrue result ↔ IsMinimal contents.now }
{
    match contents {
        [] => false,
        [0, second, ..] => *second >= 128,
        [255, second, ..] => *second < 128,
        _ => true,
    }
}

// Whether octets are a text of these characters.
fn are_characters(characters: Characters, octets: &[u8]) -> bool
    ensures { IsTrue result ↔ AreCharacters characters octets.now }
{
    match characters {
        Characters::Utf8 => str::from_utf8(octets).is_ok(),
        Characters::Numeric => is_numeric(octets),
        Characters::Printable => is_printable(octets),
        Characters::Ia5 => is_ia5(octets),
        Characters::Visible => is_visible(octets),
        Characters::Bmp => are_pairs(octets),
        Characters::Universal => are_quads(octets),
        Characters::Other => true,
    }
}

fn write_text(line: &mut LineBuffer, characters: Characters, octets: &[u8]) -> Option<Diagnostic>
    ensures { DiagnosesOf (Text characters) octets.now result }
{
    match characters {
        Characters::Utf8 => write_utf8(line, octets),
        Characters::Bmp => write_wide(line, octets, 2),
        Characters::Universal => write_wide(line, octets, 4),
        _ => write_quoted(line, octets),
    }
    unless(are_characters(characters, octets), Diagnostic::Characters)
}

fn write_bit_string(line: &mut LineBuffer, style: Style<'_>, contents: &[u8]) -> Option<Diagnostic>
    ensures { DiagnosesOf Bits contents.now result }
{
    write_bits(line, style.alloc, contents, style.view.width);
    if are_bits(contents) {
        return unless(is_padding_clear(contents), Diagnostic::Padding);
    }
    Some(Diagnostic::Bits)
}

// Whether a number with these contents is written in decimal.
fn is_decimal(numbers: Numbers, contents: &[u8]) -> bool
    ensures { IsTrue result ↔ IsShownInDecimal numbers contents.now }
{
    contents.len() <= numbers.longest_decimal()
}

fn write_number(line: &mut LineBuffer, style: Style<'_>, contents: &[u8]) {
    if is_decimal(style.view.numbers, contents) {
        write_integer(line, style.alloc, contents)
    } else {
        write_octets(line, style.alloc, contents, style.view.width)
    }
}

/// Whether the contents of a primitive element with a tag of this class are shown as text, although its type isn't known.
///
/// They are if the class is context-specific, and they are one or more characters of VisibleString.
pub fn is_shown_as_text(class: TagClass, contents: &[u8]) -> bool
    ensures { IsTrue result ↔ IsShownAsText class contents.now }
{
    class == TagClass::ContextSpecific && !contents.is_empty() && is_visible(contents)
}

// Whether the octets of a primitive element with this tag are shown as characters in UTF-8 or ASCII.
fn has_characters(tag: Tag, contents: &[u8]) -> bool
    ensures { IsTrue result ↔ HasCharacters tag contents.now }
{
    type_of(tag).is_utf8() || is_shown_as_text(tag.tag_class, contents)
}

/// The characters of a primitive element, if its octets are characters in UTF-8 or ASCII.
pub fn characters_of<'a>(item: &Item<'a>) -> Option<&'a str>
    ensures { IsCharactersOf item.now.tag item.now.contents.now result }
{
    if has_characters(item.tag, item.contents) {
        str::from_utf8(item.contents).ok()
    } else {
        None
    }
}

// What is wrong with the contents of an OBJECT IDENTIFIER.
fn identifier_diagnostic(contents: &[u8]) -> Option<Diagnostic>
    ensures { DiagnosesOf Oid contents.now result }
{
    unless(are_components(contents), components_diagnostic(contents))
}

// What is wrong with the contents of a RELATIVE-OID.
fn relative_diagnostic(contents: &[u8]) -> Option<Diagnostic>
    ensures { DiagnosesOf Relative contents.now result }
{
    unless(are_components(contents), components_diagnostic(contents))
}

// Writes a time, if there was memory to read it.
fn write_time(line: &mut LineBuffer, alloc: Global, contents: &[u8]) -> Option<Diagnostic>
    ensures { line_is_out_of_memory line.new ≡ false → DiagnosesOf GeneralizedTime contents.now result }
{
    match write_generalized_time(line, alloc, contents) {
        Ok(diagnostic) => diagnostic,
        Err(_) => {
            line.fail_out_of_memory();
            None
        }
    }
}

/// Writes the value of a primitive element of this type, and reports what is wrong with it.
pub fn write_value(
    line: &mut LineBuffer,
    style: Style<'_>,
    kind: AsnType,
    contents: &[u8],
) -> Option<Diagnostic>
    ensures { line_is_out_of_memory line.new ≡ false → DiagnosesOf kind contents.now result }
{
    let Style { alloc, names, view } = style;
    let width = view.width;
    match kind {
        AsnType::Boolean => write_boolean(line, contents),
        AsnType::Integer => {
            write_number(line, style, contents);
            unless(are_number(contents), Diagnostic::Number)
        }
        AsnType::Bits => write_bit_string(line, style, contents),
        AsnType::Null => unless(contents.is_empty(), Diagnostic::Null),
        AsnType::Oid => {
            write_oid(line, alloc, names, contents);
            identifier_diagnostic(contents)
        }
        AsnType::Relative => {
            write_relative(line, alloc, contents);
            relative_diagnostic(contents)
        }
        AsnType::Text(characters) => write_text(line, characters, contents),
        AsnType::Whole(characters) => write_text(line, characters, contents),
        AsnType::UtcTime => write_utc_time(line, contents),
        AsnType::GeneralizedTime => write_time(line, alloc, contents),
        AsnType::Octets | AsnType::Real | AsnType::Unknown => {
            write_octets(line, alloc, contents, width);
            None
        }
        AsnType::Set | AsnType::Parts => {
            write_octets(line, alloc, contents, width);
            Some(Diagnostic::HasNoParts)
        }
    }
}
