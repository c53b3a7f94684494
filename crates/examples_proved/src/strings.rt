//! Strings: a section of docs/GUIDE.md, which shows this module word for word.
//!
//! It is here and not in `tests_yasna`, which has no mutants: that a text is written untested is one.

use yasna::tags::{TAG_OCTETSTRING, TAG_PRINTABLESTRING};
use yasna::{ASN1Result, BERReader, DERWriter, is_printable_text};

pub fn read_directory_string(reader: BERReader) -> ASN1Result<String> {
    if reader.lookahead_tag()? == TAG_PRINTABLESTRING {
        reader.read_printable_string()
    } else {
        reader.read_utf8string()
    }
}

pub fn write_directory_string(text: &str, writer: DERWriter<'_>) -> ASN1Result<()> {
    if is_printable_text(text) {
        writer.write_printable_string(text)
    } else {
        writer.write_utf8string(text)
    }
}

pub fn read_ldap_string(reader: BERReader) -> ASN1Result<String> {
    reader.read_tagged_implicit(TAG_OCTETSTRING, |text| text.read_utf8string())
}
