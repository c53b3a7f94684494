//! A line as it is made.
ghost use Rattle.std.specs.Prelude.{◌≡◌, true, false, length, IfErr, OnOk};
ghost use Rattle.asn1show_walk.specs.Errors.{IsExternal};
ghost use Rattle.asn1show_printer.specs.Lines.{Appends};

use asn1show_walk::WalkError;
use std::alloc::Global;
use std::fmt::Display;
use std::io::Write;

/// The text of a line, and whether memory ran out, after which nothing is appended. So only the end of a line is checked.
#[derive(Drop)]
pub struct LineBuffer {
    text: Vec<u8>,
    out_of_memory: bool,
}

impl LineBuffer {
    /// An empty line.
    pub fn new(alloc: Global) -> LineBuffer {
        LineBuffer {
            text: Vec::new(alloc),
            out_of_memory: false,
        }
    }

    /// Notes that memory ran out.
    pub fn fail_out_of_memory(&mut self)
        ensures { self.new ≡ record self.old { out_of_memory = true } }
    {
        self.out_of_memory = true;
    }

    /// Appends the text of `write!`.
    pub fn write_fmt<D: Display + Drop>(&mut self, text: D) {
        if !self.out_of_memory && self.text.write_fmt(text).is_err() {
            self.fail_out_of_memory();
        }
    }

    /// Appends octets as they are.
    pub fn write_all(&mut self, octets: &[u8])
        ensures { Appends self.old octets.now self.new }
    {
        if self.out_of_memory {
            return;
        }
        match self.text.extend_from_slice(octets) {
            Ok(()) => {}
            Err(_) => self.fail_out_of_memory(),
        }
    }

    /// Appends a text as it is.
    pub fn write_str(&mut self, text: &str)
        ensures { Appends self.old text.now self.new }
    {
        self.write_all(text.as_bytes())
    }

    /// How many octets the text has so far.
    pub fn len(&self) -> usize
        ensures { result ≡ length self.now.text.items }
    {
        self.text.len()
    }

    /// The text, if there was memory for all of it.
    pub fn text(&self) -> Result<&[u8], WalkError>
        ensures external { IfErr result IsExternal }
        ensures whole { OnOk result (self.now.out_of_memory ≡ false) }
    {
        if self.out_of_memory {
            return Err(WalkError::Memory);
        }
        Ok(self.text.as_slice())
    }

    /// Drops the line, and begins the next one. `Err` says that there was no memory for its text.
    pub fn discard(&mut self) -> Result<(), WalkError>
        ensures { IfErr result IsExternal }
    {
        if self.out_of_memory {
            return Err(WalkError::Memory);
        }
        self.text.clear();
        Ok(())
    }

    /// Writes the line, and begins the next one. `Err` says that there was no memory for its text, or that the write failed.
    pub fn end<W: Write>(&mut self, writer: &mut W) -> Result<(), WalkError>
        ensures { IfErr result IsExternal }
    {
        self.write_str("\n");
        if let Err(error) = writer.write_all(self.text()?) {
            return Err(WalkError::from(error));
        }
        self.text.clear();
        Ok(())
    }
}
