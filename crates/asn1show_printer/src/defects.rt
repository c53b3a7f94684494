//! What is wrong with an element by X.690.
ghost use Rattle.std.specs.Prelude.{◌≡◌, ◌↔◌, ◌≤◌, List, IsTrue, IfErr, IfOk};
ghost use Rattle.yasna_base.specs.declared.mode.BERMode.{BERMode};
ghost use Rattle.asn1show_walk.specs.Errors.{IsExternal};
ghost use Rattle.asn1show_walk.specs.Listing.{Line};
ghost use Rattle.asn1show_walk.specs.Reading.{line_of};
ghost use Rattle.asn1show_printer.specs.Contents.{DiagnosesOf};
ghost use Rattle.asn1show_printer.specs.Modes.{HasBody, HasItsBit, HasOrder, HasShortLength, IsCut, Keeps, Pins, spare_each};
ghost use Rattle.asn1show_printer.specs.Segments.{PinsPlace};
ghost use Rattle.asn1show_printer.specs.Types.{is_string, type_with};

use crate::asn_type::AsnType;
use crate::diagnostic::{Diagnostic, unless};
use crate::lengths::is_long;
use crate::line::LineBuffer;
use crate::segments::SegmentPlace;
use crate::sets::{cer_diagnostic, order_of};
use crate::value::{Style, is_shown_as_text, write_quoted, write_value};
use asn1show_walk::{Item, WalkError};
use std::alloc::{AllocError, Global};
use yasna_base::tag::PCBit;

// Writes the value of a primitive element, and reports what is wrong with it. `Err` says that memory ran out.
fn write_primitive(
    line: &mut LineBuffer,
    style: Style<'_>,
    item: &Item<'_>,
    kind: AsnType,
) -> Result<Option<Diagnostic>, WalkError>
    ensures pinned { IfOk result (λ said. DiagnosesOf kind item.now.contents.now said) }
    ensures external { IfErr result IsExternal }
{
    if kind.is_unknown() && is_shown_as_text(item.tag.tag_class, item.contents) {
        write_quoted(line, item.contents);
        return Ok(None);
    }
    let said = write_value(line, style, kind, item.contents);
    match line.text() {
        Ok(_) => Ok(said),
        Err(error) => Err(error),
    }
}

/// Writes the value of a primitive element, and reports what is wrong with it, or with the length of a constructed one. `Err` says that memory ran out.
pub fn write_body(
    line: &mut LineBuffer,
    style: Style<'_>,
    item: &Item<'_>,
    kind: AsnType,
) -> Result<Option<Diagnostic>, WalkError>
    ensures pinned { IfOk result (λ said. Pins (λ m. HasBody m item.now.bit item.now.size kind item.now.contents.now) said) }
    ensures external { IfErr result IsExternal }
{
    match item.bit {
        PCBit::Primitive => write_primitive(line, style, item, kind),
        PCBit::Constructed => Ok(unless(item.size.is_some(), Diagnostic::Indefinite)),
    }
}

// What is wrong with the bit of an element of this type.
fn bit_diagnostic(bit: PCBit, kind: AsnType) -> Option<Diagnostic>
    ensures { Pins (HasItsBit bit kind) result }
{
    match bit {
        PCBit::Primitive => None,
        PCBit::Constructed => kind.constructed_diagnostic(),
    }
}

/// What is wrong with the order of what is in an element of this type. `Err` says that memory ran out.
pub fn order_diagnostic(
    alloc: Global,
    item: &Item<'_>,
    kind: AsnType,
) -> Result<Option<Diagnostic>, AllocError>
    ensures { IfOk result (λ said. Pins (HasOrder item.now.bit kind item.now.contents.now) said) }
{
    match item.bit {
        PCBit::Primitive => Ok(None),
        PCBit::Constructed => {
            if kind.is_set() {
                return order_of(alloc, item.contents);
            }
            Ok(None)
        }
    }
}

// What is wrong with the length of an element.
fn length_diagnostic(item: &Item<'_>) -> Option<Diagnostic>
    ensures { Pins (HasShortLength item.now.tag item.now.bit item.now.header item.now.size) result }
{
    unless(!is_long(item), Diagnostic::LongLength)
}

// What is wrong with an element of this type for CER alone.
fn cut_diagnostic(item: &Item<'_>, kind: AsnType) -> Option<Diagnostic>
    ensures { Pins (IsCut item.now.bit item.now.size (is_string kind) item.now.contents.now) result }
{
    cer_diagnostic(item, kind.is_string())
}

/// All that is wrong with an element of this type by X.690, with what was found of its body, its order and its place.
pub fn defects_of(
    item: &Item<'_>,
    kind: AsnType,
    body: Option<Diagnostic>,
    order: Option<Diagnostic>,
    place: SegmentPlace,
) -> [Option<Diagnostic>; 7]
    ensures { kind ≡ type_with item.now.tag →
        Pins (λ m. HasBody m item.now.bit item.now.size kind item.now.contents.now) body →
        Pins (HasOrder item.now.bit kind item.now.contents.now) order →
        (before : List Line) → PinsPlace before (line_of item.now) place →
        (m : BERMode) → IsTrue (spare_each result m) ↔ Keeps m before (line_of item.now) }
{
    [
        body,
        bit_diagnostic(item.bit, kind),
        order,
        length_diagnostic(item),
        unless(place.is_expected, Diagnostic::Segment),
        unless(place.may_follow, Diagnostic::AfterUnusedBits),
        cut_diagnostic(item, kind),
    ]
}
