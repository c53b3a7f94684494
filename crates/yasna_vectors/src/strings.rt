//! Classes of text, each by the read and the write of its type.
//!
//! `utf8` is written by write_utf8string, `utf8_string` by write_utf8_string.

use yasna::{
    ASN1Error, ASN1ErrorKind, ASN1Result, BERReader, DERWriter, is_numeric_text, is_printable_text,
    is_visible_text,
};

/// A class of text.
#[derive(Clone, Copy)]
pub enum Class {
    Utf8,
    Utf8String,
    Numeric,
    Printable,
    Ia5,
    Bmp,
    Visible,
}

impl Class {
    /// Reads a text of this class.
    pub fn read(self, reader: BERReader) -> ASN1Result<String> {
        match self {
            Class::Utf8 | Class::Utf8String => reader.read_utf8string(),
            Class::Numeric => reader.read_numeric_string(),
            Class::Printable => reader.read_printable_string(),
            Class::Ia5 => reader.read_ia5_string(),
            Class::Bmp => reader.read_bmp_string(),
            Class::Visible => reader.read_visible_string(),
        }
    }

    /// Writes a text; Err(Invalid) where it isn't of this class.
    pub fn write(self, writer: DERWriter<'_>, text: &str) -> ASN1Result<()> {
        match self {
            Class::Utf8 => writer.write_utf8string(text),
            Class::Utf8String => writer.write_utf8_string(text),
            Class::Numeric if is_numeric_text(text) => writer.write_numeric_string(text),
            Class::Printable if is_printable_text(text) => writer.write_printable_string(text),
            Class::Ia5 if text.is_ascii() => writer.write_ia5_string(text),
            Class::Bmp => writer.write_bmp_string(text),
            Class::Visible if is_visible_text(text) => writer.write_visible_string(text),
            _ => Err(ASN1Error::new(ASN1ErrorKind::Invalid)),
        }
    }
}
