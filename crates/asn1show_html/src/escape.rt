//! Texts in HTML.
ghost use Rattle.std.specs.Prelude.{◌≡◌, ◌++◌, IfOk, OnOk};
ghost use Rattle.asn1show_html.specs.Escape.{escaped, reference, IsReadAs};

use asn1show_printer::LineBuffer;
use std::alloc::{AllocError, Global};

// Appends what is written for an octet.
fn push_octet(html: &mut Vec<u8>, octet: u8) -> Result<(), AllocError>
    ensures { OnOk result (html.new.items ≡ html.old.items ++ reference octet) }
{
    match octet {
        b'&' => html.extend_from_slice(b"&amp;"),
        b'<' => html.extend_from_slice(b"&lt;"),
        b'>' => html.extend_from_slice(b"&gt;"),
        b'"' => html.extend_from_slice(b"&quot;"),
        _ => Ok(html.push(octet)?),
    }
}

// Appends a text with references for the characters that mark up.
fn push_octets(html: &mut Vec<u8>, text: &[u8]) -> Result<(), AllocError>
    ensures { OnOk result (html.new.items ≡ html.old.items ++ escaped text.now) }
{
    for octet in text {
        push_octet(html, *octet)?;
    }
    Ok(())
}

// A text with references for the characters that mark up.
fn escaped(alloc: Global, text: &[u8]) -> Result<Vec<u8>, AllocError>
    ensures { IfOk result (λ html. html.items ≡ escaped text.now) }
{
    let mut html = Vec::new(alloc);
    push_octets(&mut html, text)?;
    Ok(html)
}

/// A text as a page has it: it is read as it is, and has no tags and no quotes.
pub fn escape(alloc: Global, text: &[u8]) -> Result<Vec<u8>, AllocError>
    ensures { IfOk result (λ html. IsReadAs html.items text.now) }
{
    escaped(alloc, text)
}

/// Writes a text so that it is read as it is.
pub fn write_text(line: &mut LineBuffer, alloc: Global, text: &[u8]) {
    match escape(alloc, text) {
        Ok(html) => line.write_all(html.as_slice()),
        Err(_) => line.fail_out_of_memory(),
    }
}
