//! The visitor that writes elements as HTML.
ghost use Rattle.std.specs.Prelude.{◌≡◌, [], IfErr, IfOk, None};
ghost use Rattle.asn1show_printer.specs.Reports.{IsReportOf};
ghost use Rattle.asn1show_walk.specs.Errors.{IsExternal};

use crate::element::{write_diagnostics, write_ends, write_head, write_octets, write_value};
use asn1show_json::OpenElements;
use asn1show_printer::{Conformance, Label, LineBuffer, Output, Report, Source, Style};
use asn1show_walk::{Context, Item, Place, Visitor, WalkError, is_one_element};
use std::alloc::Global;
use std::io::Write;

/// Writes elements as rows of a page. The elements that are in one can be folded.
#[derive(Drop)]
pub struct HtmlPrinter<'w, 'n, W: Write + Drop> {
    output: &'w mut Output<W>,
    report: Report<'n>,
    source: Source<'n>,
    open: OpenElements,
    alloc: Global,
}

// Writes the value and the diagnostics of an element that was described.
fn write_report(line: &mut LineBuffer, alloc: Global, report: &Report<'_>) -> Result<(), WalkError>
    ensures { IfErr result IsExternal }
{
    write_value(line, alloc, report.value()?);
    write_diagnostics(line, alloc, report.diagnostics());
    Ok(())
}

impl<'w, 'n, W: Write + Drop> HtmlPrinter<'w, 'n, W> {
    /// A printer of the elements of an input.
    pub fn begin(
        output: &'w mut Output<W>,
        style: Style<'n>,
        source: Source<'n>,
    ) -> HtmlPrinter<'w, 'n, W>
        ensures { style.entry.view.schema ≡ None → IsReportOf result.report [] }
    {
        HtmlPrinter {
            output,
            report: Report::new(style),
            source,
            open: OpenElements::new(),
            alloc: style.alloc,
        }
    }

    // Writes the row of an element that was described.
    fn write_element(&mut self, item: &Item<'_>, label: Label<'_>) -> Result<(), WalkError>
        ensures report { self.new.report ≡ self.old.report }
        ensures external { IfErr result IsExternal }
    {
        let mut line = LineBuffer::new(self.alloc);
        write_ends(&mut line, self.open.enter(item.depth));
        write_head(&mut line, self.alloc, item, label);
        write_report(&mut line, self.alloc, &self.report)?;
        write_octets(&mut line, self.alloc, self.source.bytes, item);
        self.output.write(&mut line)
    }

    /// Ends the elements that are open, writes the encoding rules that the elements conform to, and returns these.
    ///
    /// `Err` says that memory ran out, or that a write failed.
    pub fn finish(self, is_whole: bool) -> Result<Conformance, WalkError>
        ensures conformance { IfOk result (λ c. c ≡ self.entry.report.conformance) }
        ensures external { IfErr result IsExternal }
    {
        let HtmlPrinter {
            output,
            report,
            open,
            alloc,
            ..
        } = self;
        let conformance = report.conformance();
        report.finish(output);
        let mut line = LineBuffer::new(alloc);
        write_ends(&mut line, open.count());
        if is_whole {
            let modes = report.modes();
            write!(line, "<p>rules: {modes}</p>");
        }
        match output.write(&mut line) {
            Ok(()) => Ok(conformance),
            Err(error) => Err(error),
        }
    }
}

impl<'w, 'n, W: Write + Drop> Visitor for HtmlPrinter<'w, 'n, W> {
    ghost use Rattle.asn1show_walk.specs.Errors.{IsExternal};
    ghost use Rattle.asn1show_printer.specs.Reports.{IsReportOf};

    ghost visited = { λ p lines. IsReportOf p.report lines };

    ghost rejects = { λ _. IsExternal };

    fn visit(&mut self, item: &Item<'_>) -> Result<(), WalkError> {
        let label = self.report.label(item);
        match self.report.describe(item, label) {
            Ok(()) => {}
            Err(error) => return Err(error),
        }
        if !self.report.count(item) {
            return self.report.discard();
        }
        match self.write_element(item, label) {
            Ok(()) => self.report.discard(),
            Err(error) => Err(error),
        }
    }

    // Descends if the contents are one whole element, and the string isn't a segment.
    fn descends_into(&self, context: Context, string: Place<'_>) -> bool {
        !self.report.is_segment() && is_one_element(context, string)
    }
}
