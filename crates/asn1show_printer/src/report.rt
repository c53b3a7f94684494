//! What is written of an element: its value and its diagnostics.
ghost use Rattle.std.specs.Prelude.{◌≡◌, ◌&&◌, ◌||◌, ◌++◌, [], codes, IfErr, OnOk, None};
ghost use Rattle.yasna_base.specs.declared.mode.BERMode.{BERMode};
ghost use Rattle.asn1show_printer.specs.Conformance.{conforms, AreMet};
ghost use Rattle.asn1show_printer.specs.Lines.{Appends, modes_text};
ghost use Rattle.asn1show_printer.specs.Reports.{IsReportOf, Labels, Describes};
ghost use Rattle.asn1show_printer.specs.Modes.{spare_each};
ghost use Rattle.asn1show_printer.specs.Selection.{is_before, keeps, position_after, start_of};
ghost use Rattle.asn1show_walk.specs.Errors.{IsExternal};

use crate::defects::{defects_of, order_diagnostic, write_body};
use crate::diagnostic::{Conformance, Diagnostic, unless};
use crate::line::LineBuffer;
use crate::module_parts::{
    diagnostic_in, has_list_size, is_default, labelled_type, write_names, write_parts,
};
use crate::notes::Notes;
use crate::output::Output;
use crate::segments::Segments;
use crate::selection::Position;
use crate::value::Style;
use asn1show_schema::{Fields, Label, Schema};
use asn1show_walk::{Item, WalkError};
use std::io::Write;
use yasna_base::tag::PCBit;

/// The value and the diagnostics of an element, and the state after the elements before it.
#[derive(Drop)]
pub struct Report<'n> {
    /// What is written of the element.
    pub(crate) line: LineBuffer,
    // Where the value of the element ends on the line, before what its module says of it.
    value_end: usize,
    // What is noted of the element on the line.
    notes: Notes,
    style: Style<'n>,
    // Where the listing is, relative to the element that is asked for.
    position: Position,
    // The conformance of the elements before.
    conformance: Conformance,
    // The strings around the elements.
    segments: Segments,
    // Which part of a type each element is, if a module is given.
    fields: Option<Fields<'n>>,
}

impl<'n> Report<'n> {
    /// The report of no elements.
    pub fn new(style: Style<'n>) -> Report<'n>
        ensures { style.entry.view.schema ≡ None → IsReportOf result [] }
    {
        Report {
            line: LineBuffer::new(style.alloc),
            value_end: 0,
            notes: Notes::new(style.alloc),
            style,
            position: style.view.selection.start_position(),
            conformance: Conformance::new(),
            segments: Segments::new(),
            fields: fields_of(style),
        }
    }

    /// What an element is in the type of the module. It has no name if no module is given.
    pub fn label(&mut self, item: &Item<'_>) -> Label<'n>
        ensures { Labels self.old self.new result }
    {
        let Some(fields) = &mut self.fields else {
            return Label::unnamed();
        };
        match fields.enter(item.depth, item.tag, item.contents) {
            Ok(label) => label,
            Err(_) => {
                self.line.fail_out_of_memory();
                Label::unnamed()
            }
        }
    }

    /// Appends the value of an element with this label to the line, and notes its diagnostics. `Err` says that memory ran out.
    pub fn describe(&mut self, item: &Item<'_>, label: Label<'_>) -> Result<(), WalkError>
        ensures described { OnOk result (Describes self.old self.new item.now label.entry) }
        ensures external { IfErr result IsExternal }
    {
        let kind = labelled_type(item, label);
        let place = self.segments.enter(item, kind);
        let body = match write_body(&mut self.line, self.style, item, kind) {
            Ok(body) => body,
            Err(error) => return Err(error),
        };
        self.value_end = self.line.len();
        let order = match order_diagnostic(self.style.alloc, item, kind) {
            Ok(order) => order,
            Err(_) => return Err(WalkError::Memory),
        };
        let defects = defects_of(item, kind, body, order, place);
        self.notes.clear();
        match note_all(
            &mut self.notes,
            &mut self.line,
            self.style,
            item,
            label,
            &defects,
        ) {
            Ok(()) => {}
            Err(error) => return Err(error),
        }
        self.notes.end(item.in_string);
        Ok(())
    }

    /// The value of the element, or an error if memory ran out.
    pub fn value(&self) -> Result<&[u8], WalkError>
        ensures { IfErr result IsExternal }
    {
        self.line.text()
    }

    /// The value of a primitive element without the names that its module has for it, or an error if memory ran out.
    pub fn plain_value(&self) -> Result<&[u8], WalkError>
        ensures { IfErr result IsExternal }
    {
        let text = self.line.text()?;
        Ok(text.get(..self.value_end).unwrap_or(text))
    }

    /// The diagnostics of the element that are shown.
    pub fn diagnostics(&self) -> &[Diagnostic]
        ensures { result.now ≡ self.now.notes.shown.items }
    {
        self.notes.shown()
    }

    /// The names that lead to the element in the module, and the indices of elements of lists.
    pub fn path(&self) -> Result<Vec<u8>, WalkError>
        ensures { IfErr result IsExternal }
    {
        let Some(fields) = &self.fields else {
            return Ok(Vec::new(self.style.alloc));
        };
        match fields.path(self.style.alloc) {
            Ok(path) => Ok(path),
            Err(_) => Err(WalkError::Memory),
        }
    }

    /// Whether the element is a segment of a string.
    pub fn is_segment(&self) -> bool
        ensures { result ≡ self.now.segments.is_segment }
    {
        self.segments.is_segment()
    }

    /// Drops the value of the element. `Err` says that memory ran out.
    pub fn discard(&mut self) -> Result<(), WalkError>
        ensures external { IfErr result IsExternal }
        ensures same { self.new ≡ record self.old { line = self.new.line } }
    {
        self.line.discard()
    }

    // Prints the diagnostics of the element after its value.
    pub(crate) fn print_diagnostics(&mut self)
        ensures { self.new ≡ record self.old { line = self.new.line } }
    {
        write_diagnostics(&mut self.line, self.notes.shown())
    }

    /// The conformance of the elements that were counted.
    pub fn conformance(&self) -> Conformance
        ensures { result ≡ self.now.conformance }
    {
        self.conformance
    }

    /// The encoding rules that the elements conform to.
    pub fn modes(&self) -> &'static str
        ensures { result.now ≡ modes_text self.now.conformance }
    {
        self.conformance.modes()
    }

    // Prints the encoding rules that the elements conform to.
    pub(crate) fn print_conformance(&mut self)
        ensures text { Appends self.old.line (codes "rules: " ++ modes_text self.old.conformance) self.new.line }
        ensures same { self.new ≡ record self.old { line = self.new.line } }
    {
        write_modes(&mut self.line, self.conformance)
    }

    /// Counts an element that was described for the conformance of the whole, and returns whether it is shown.
    pub fn count(&mut self, item: &Item<'_>) -> bool
        ensures met { AreMet self.old.conformance self.old.notes.conformance self.new.conformance }
        ensures position { self.new.position ≡ position_after (start_of self.old.style.view.selection) self.old.position item.now.offset item.now.depth }
        ensures shown { result ≡ keeps self.old.style.view.selection self.new.position item.now.depth self.old.notes.conformance }
        ensures same { self.new ≡ record self.old { conformance = self.new.conformance; position = self.new.position } }
    {
        let element = self.notes.conformance();
        self.conformance.meet(element);
        let selection = self.style.view.selection;
        self.position = selection.position_after(self.position, item.offset, item.depth);
        selection.keeps(self.position, item.depth, element)
    }

    /// Counts the elements for the conformance of all that an output shows.
    pub fn finish<W: Write + Drop>(&self, output: &mut Output<W>)
        ensures met { AreMet output.old.conformance self.now.conformance output.new.conformance }
        ensures missing { output.new.is_missing ≡ output.old.is_missing || is_before self.now.position }
    {
        output.meet(self.conformance);
        output.note_position(self.position)
    }
}

// The parts of the type of the module, if one is given.
fn fields_of<'n>(style: Style<'n>) -> Option<Fields<'n>>
    ensures { style.entry.view.schema ≡ None → result ≡ None }
{
    match style.view.schema {
        Some(schema) => Some(Fields::new(style.alloc, schema)),
        None => None,
    }
}

// Writes the encoding rules that elements conform to.
fn write_modes(line: &mut LineBuffer, conformance: Conformance)
    ensures { Appends line.old (codes "rules: " ++ modes_text conformance) line.new }
{
    line.write_str("rules: ");
    line.write_str(conformance.modes())
}

// Writes diagnostics after a value.
fn write_diagnostics(line: &mut LineBuffer, diagnostics: &[Diagnostic]) {
    for diagnostic in diagnostics {
        line.write_str(" -- ");
        line.write_str(diagnostic.text());
    }
}

// What is wrong with the parts of an element by its module, which are written if they aren't there.
fn part_defects(
    line: &mut LineBuffer,
    style: Style<'_>,
    schema: &Schema,
    item: &Item<'_>,
    label: Label<'_>,
) -> [Option<Diagnostic>; 4] {
    let unknown = unless(!label.is_unknown, Diagnostic::NotInModule);
    let (contents, octets) = (label.contents, item.contents);
    match item.bit {
        PCBit::Primitive => {
            write_names(line, schema, label, octets);
            [
                unknown,
                diagnostic_in(schema, label, octets),
                unless(!is_default(item, label), Diagnostic::Default),
                None,
            ]
        }
        PCBit::Constructed => {
            let errors = write_parts(line, style.alloc, schema, contents, octets);
            [
                unknown,
                unless(!errors.is_missing, Diagnostic::Missing),
                unless(!errors.is_repeated, Diagnostic::Repeated),
                unless(has_list_size(contents, octets), Diagnostic::Size),
            ]
        }
    }
}

// Notes what is wrong with an element by itself, and by its module if one is given.
fn note_all(
    notes: &mut Notes,
    line: &mut LineBuffer,
    style: Style<'_>,
    item: &Item<'_>,
    label: Label<'_>,
    defects: &[Option<Diagnostic>],
) -> Result<(), WalkError>
    ensures conformance { OnOk result (style.entry.view.schema ≡ None → (m : BERMode) → conforms notes.new.conformance m ≡ (conforms notes.old.conformance m && spare_each defects.now m)) }
    ensures external { IfErr result IsExternal }
{
    let selection = style.view.selection;
    match notes.note_each(selection, item.in_string, defects) {
        Ok(()) => {}
        Err(error) => return Err(error),
    }
    match style.view.schema {
        Some(schema) => {
            let parts = part_defects(line, style, schema, item, label);
            notes.note_each(selection, item.in_string, &parts)
        }
        None => Ok(()),
    }
}
