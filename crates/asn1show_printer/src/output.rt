//! Where lines are written.
ghost use Rattle.std.specs.Prelude.{◌≡◌, ◌||◌, Some, IfErr};
ghost use Rattle.asn1show_printer.specs.Conformance.{AreMet};
ghost use Rattle.asn1show_printer.specs.Selection.{is_before};
ghost use Rattle.asn1show_walk.specs.Errors.{IsExternal};

use crate::diagnostic::Conformance;
use crate::line::LineBuffer;
use crate::selection::Position;
use asn1show_walk::WalkError;
use std::io;
use std::io::Write;

/// Where lines are written, and the conformance of all elements whose listing has ended.
#[derive(Drop)]
pub struct Output<W: Write + Drop> {
    writer: W,
    // The line that is to be before the next one.
    heading: Option<LineBuffer>,
    conformance: Conformance,
    // Whether the element that is asked for wasn't found.
    is_missing: bool,
}

impl<W: Write + Drop> Output<W> {
    /// An output to `writer`, of no elements.
    pub fn new(writer: W) -> Output<W> {
        Output {
            writer,
            heading: None,
            conformance: Conformance::new(),
            is_missing: false,
        }
    }

    /// What the lines are written to.
    pub fn writer(&self) -> &W
        ensures { result.now ≡ self.now.writer }
    {
        &self.writer
    }

    /// Writes what is buffered.
    pub fn flush(&mut self) -> io::Result<()> {
        self.writer.flush()
    }

    /// The conformance of all elements whose listing has ended.
    pub fn conformance(&self) -> Conformance
        ensures { result ≡ self.now.conformance }
    {
        self.conformance
    }

    /// Whether the element that is asked for wasn't found, in an input or a block of PEM whose listing has ended.
    pub fn is_missing(&self) -> bool
        ensures { result ≡ self.now.is_missing }
    {
        self.is_missing
    }

    /// Notes whether the element that is asked for was found in an input.
    pub(crate) fn note_position(&mut self, position: Position)
        ensures missing { self.new.is_missing ≡ self.old.is_missing || is_before position }
        ensures conformance { self.new.conformance ≡ self.old.conformance }
    {
        self.is_missing = self.is_missing || matches!(position, Position::Before);
    }

    /// Drops the encoding rules that further elements don't conform to.
    pub(crate) fn meet(&mut self, further: Conformance)
        ensures met { AreMet self.old.conformance further self.new.conformance }
        ensures missing { self.new.is_missing ≡ self.old.is_missing }
    {
        self.conformance.meet(further)
    }

    /// Begins an input with a heading, which is written before the next line.
    pub fn begin(&mut self, heading: LineBuffer)
        ensures heading { self.new.heading ≡ Some heading }
        ensures conformance { self.new.conformance ≡ self.old.conformance }
        ensures missing { self.new.is_missing ≡ self.old.is_missing }
    {
        self.heading = Some(heading);
    }

    /// Writes the heading, unless it is written already.
    pub fn write_heading(&mut self) -> Result<(), WalkError>
        ensures external { IfErr result IsExternal }
        ensures conformance { self.new.conformance ≡ self.old.conformance }
        ensures missing { self.new.is_missing ≡ self.old.is_missing }
    {
        match self.heading.take() {
            Some(mut heading) => heading.end(&mut self.writer),
            None => Ok(()),
        }
    }

    /// Writes bytes.
    pub(crate) fn write_bytes(&mut self, bytes: &[u8]) -> Result<(), WalkError>
        ensures external { IfErr result IsExternal }
        ensures conformance { self.new.conformance ≡ self.old.conformance }
        ensures missing { self.new.is_missing ≡ self.old.is_missing }
    {
        match self.writer.write_all(bytes) {
            Ok(()) => Ok(()),
            Err(error) => Err(WalkError::from(error)),
        }
    }

    /// Writes a line after the heading, and begins the next one.
    pub fn write(&mut self, line: &mut LineBuffer) -> Result<(), WalkError>
        ensures external { IfErr result IsExternal }
        ensures conformance { self.new.conformance ≡ self.old.conformance }
        ensures missing { self.new.is_missing ≡ self.old.is_missing }
    {
        self.write_heading()?;
        line.end(&mut self.writer)
    }
}
