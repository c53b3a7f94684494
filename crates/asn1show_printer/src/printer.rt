//! The lines.
ghost use Rattle.std.specs.Prelude.{◌≡◌, [], IfErr, IfOk, None};
ghost use Rattle.asn1show_printer.specs.Reports.{IsReportOf};
ghost use Rattle.asn1show_walk.specs.Errors.{IsExternal};

use crate::diagnostic::Conformance;
use crate::dump::write_dump;
use crate::extraction::part_of;
use crate::head::{write_place, write_type};
use crate::line::LineBuffer;
use crate::output::Output;
use crate::report::Report;
use crate::selection::Selection;
use crate::value::Style;
use asn1show_schema::Label;
use asn1show_walk::{Context, Item, Place, Visitor, WalkError, is_one_element};
use std::io::Write;
use yasna_base::mode::BERMode;

/// The bytes whose elements are printed.
#[derive(Clone, Copy)]
pub struct Source<'b> {
    /// The encoding rules by which they are read.
    pub mode: BERMode,
    /// The bytes.
    pub bytes: &'b [u8],
}

/// Prints the lines of elements.
#[derive(Drop)]
pub struct Printer<'w, 'n, W: Write + Drop> {
    output: &'w mut Output<W>,
    report: Report<'n>,
    source: Source<'n>,
    // What is shown, and how.
    style: Style<'n>,
    // The bytes that are extracted.
    extracted: LineBuffer,
}

impl<'w, 'n, W: Write + Drop> Printer<'w, 'n, W> {
    /// Prints to an output, of which the heading is there. In a check it is written before the first line alone.
    ///
    /// `Err` says that memory ran out, or that a write failed.
    pub fn begin(
        output: &'w mut Output<W>,
        style: Style<'n>,
        source: Source<'n>,
    ) -> Result<Printer<'w, 'n, W>, WalkError>
        ensures report { style.entry.view.schema ≡ None → IfOk result (λ p. IsReportOf p.report []) }
        ensures external { IfErr result IsExternal }
    {
        if matches!(style.view.selection, Selection::Elements(_)) {
            output.write_heading()?;
        }
        Ok(Printer {
            output,
            report: Report::new(style),
            source,
            style,
            extracted: LineBuffer::new(style.alloc),
        })
    }

    /// Notes the conformance of the elements, prints their encoding rules, but in a check, and returns the conformance.
    ///
    /// `Err` says that memory ran out, or that a write failed.
    pub fn finish(self) -> Result<Conformance, WalkError>
        ensures conformance { IfOk result (λ c. c ≡ self.entry.report.conformance) }
        ensures external { IfErr result IsExternal }
    {
        let Printer {
            output,
            mut report,
            style,
            extracted,
            ..
        } = self;
        let conformance = report.conformance();
        report.finish(output);
        let written = match style.view.selection {
            Selection::Elements(_) => {
                report.print_conformance();
                output.write(&mut report.line)
            }
            Selection::Defects(_) => Ok(()),
            Selection::Bytes(..) => write_extracted(output, &extracted),
        };
        match written {
            Ok(()) => Ok(conformance),
            Err(error) => Err(error),
        }
    }
}

// Writes the bytes that were extracted.
fn write_extracted<W: Write + Drop>(
    output: &mut Output<W>,
    extracted: &LineBuffer,
) -> Result<(), WalkError>
    ensures { IfErr result IsExternal }
{
    match extracted.text() {
        Ok(bytes) => output.write_bytes(bytes),
        Err(error) => Err(error),
    }
}

// Writes the beginning of an element's line, up to its value.
fn write_head(
    line: &mut LineBuffer,
    style: Style<'_>,
    source: Source<'_>,
    item: &Item<'_>,
    label: Label<'_>,
) {
    write_place(line, item);
    if style.view.has_dump {
        write_dump(line, style.alloc, source.bytes, item);
    }
    write_type(line, item, label)
}

// Takes a part of an element, if it is the one that is asked for.
fn extract(extracted: &mut LineBuffer, style: Style<'_>, source: Source<'_>, item: &Item<'_>) {
    let Selection::Bytes(at, part) = style.view.selection else {
        return;
    };
    if item.offset != at {
        return;
    }
    if let Some(part) = part_of(source.mode, source.bytes, item, part) {
        extracted.write_all(part)
    }
}

impl<'w, 'n, W: Write + Drop> Visitor for Printer<'w, 'n, W> {
    ghost use Rattle.asn1show_walk.specs.Errors.{IsExternal};
    ghost use Rattle.asn1show_printer.specs.Reports.{IsReportOf};

    ghost visited = { λ p lines. IsReportOf p.report lines };

    ghost rejects = { λ _. IsExternal };

    fn visit(&mut self, item: &Item<'_>) -> Result<(), WalkError> {
        let label = self.report.label(item);
        write_head(&mut self.report.line, self.style, self.source, item, label);
        match self.report.describe(item, label) {
            Ok(()) => {}
            Err(error) => return Err(error),
        }
        self.report.print_diagnostics();
        extract(&mut self.extracted, self.style, self.source, item);
        if self.report.count(item) {
            self.output.write(&mut self.report.line)
        } else {
            self.report.discard()
        }
    }

    // Descends if the contents are one whole element, and the string isn't a segment.
    fn descends_into(&self, context: Context, string: Place<'_>) -> bool {
        !self.report.is_segment() && is_one_element(context, string)
    }
}
