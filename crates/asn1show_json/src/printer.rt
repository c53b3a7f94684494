//! The visitor that writes elements as JSON.
ghost use Rattle.std.specs.Prelude.{◌≡◌, [], IfErr, IfOk, None};
ghost use Rattle.asn1show_printer.specs.Reports.{IsReportOf};
ghost use Rattle.asn1show_walk.specs.Errors.{IsExternal};

use crate::element::{element_text, end_text, start_text};
use crate::open_elements::OpenElements;
use asn1show_printer::{Conformance, Label, LineBuffer, Output, Report, Style, characters_of};
use asn1show_walk::{Context, Item, Place, Visitor, WalkError, is_one_element};
use std::alloc::Global;
use std::io::Write;
use std::str;
use yasna_base::tag::PCBit;

/// Writes elements as an array of JSON. The elements that are in one are its member `children`.
#[derive(Drop)]
pub struct JsonPrinter<'w, 'n, W: Write + Drop> {
    output: &'w mut Output<W>,
    report: Report<'n>,
    open: OpenElements,
    alloc: Global,
}

// Writes a text on a line.
fn write_line<W: Write + Drop>(
    output: &mut Output<W>,
    alloc: Global,
    text: &[u8],
) -> Result<(), WalkError>
    ensures { IfErr result IsExternal }
{
    let mut line = LineBuffer::new(alloc);
    line.write_all(text);
    output.write(&mut line)
}

// The value of an element that is shown so, if it is primitive: its characters, if its octets are characters.
fn value_of<'s>(item: &'s Item<'_>, shown: &'s [u8]) -> Option<&'s str> {
    if item.bit == PCBit::Constructed {
        return None;
    }
    if let Some(characters) = characters_of(item) {
        return Some(characters);
    }
    if shown.is_empty() {
        return None;
    }
    str::from_utf8(shown).ok()
}

// The text of a name, if it isn't empty.
fn text_of(name: &[u8]) -> Option<&str> {
    if name.is_empty() {
        return None;
    }
    str::from_utf8(name).ok()
}

impl<'w, 'n, W: Write + Drop> JsonPrinter<'w, 'n, W> {
    /// Begins the array. `Err` says that memory ran out, or that a write failed.
    pub fn begin(
        output: &'w mut Output<W>,
        style: Style<'n>,
    ) -> Result<JsonPrinter<'w, 'n, W>, WalkError>
        ensures report { style.entry.view.schema ≡ None → IfOk result (λ p. IsReportOf p.report []) }
        ensures external { IfErr result IsExternal }
    {
        let text = start_text(style.alloc)?;
        write_line(output, style.alloc, text.as_slice())?;
        Ok(JsonPrinter {
            output,
            report: Report::new(style),
            open: OpenElements::new(),
            alloc: style.alloc,
        })
    }

    // Writes an element that was described.
    fn write_element(&mut self, item: &Item<'_>, label: Label<'_>) -> Result<(), WalkError>
        ensures report { self.new.report ≡ self.old.report }
        ensures external { IfErr result IsExternal }
    {
        let ends = self.open.enter(item.depth);
        let value = value_of(item, self.report.plain_value()?);
        let text = element_text(
            self.alloc,
            ends,
            item,
            text_of(label.part),
            text_of(label.alternative),
            value,
            self.report.diagnostics(),
        )?;
        write_line(self.output, self.alloc, text.as_slice())
    }

    /// Ends the elements that are open and the array, notes the conformance of the elements, and returns it.
    ///
    /// `Err` says that memory ran out, or that a write failed.
    pub fn finish(self) -> Result<Conformance, WalkError>
        ensures conformance { IfOk result (λ c. c ≡ self.entry.report.conformance) }
        ensures external { IfErr result IsExternal }
    {
        let JsonPrinter {
            output,
            report,
            open,
            alloc,
        } = self;
        let conformance = report.conformance();
        report.finish(output);
        let text = end_text(alloc, open.count())?;
        match write_line(output, alloc, text.as_slice()) {
            Ok(()) => Ok(conformance),
            Err(error) => Err(error),
        }
    }
}

impl<'w, 'n, W: Write + Drop> Visitor for JsonPrinter<'w, 'n, W> {
    ghost use Rattle.asn1show_walk.specs.Errors.{IsExternal};
    ghost use Rattle.asn1show_printer.specs.Reports.{IsReportOf};

    ghost visited = { λ p lines. IsReportOf p.report lines };

    ghost rejects = { λ _. IsExternal };

    fn visit(&mut self, item: &Item<'_>) -> Result<(), WalkError> {
        let label = self.report.label(item);
        match self.report.describe(item, label) {
            Ok(()) => {}
            Err(error) => return Err(error),
        }
        if !self.report.count(item) {
            return self.report.discard();
        }
        match self.write_element(item, label) {
            Ok(()) => self.report.discard(),
            Err(error) => Err(error),
        }
    }

    // Descends if the contents are one whole element, and the string isn't a segment.
    fn descends_into(&self, context: Context, string: Place<'_>) -> bool {
        !self.report.is_segment() && is_one_element(context, string)
    }
}
