//! Blocks of PEM that are written (RFC 7468).
ghost use Rattle.std.specs.Prelude.{◌≡◌, ◌++◌, OnOk, codes};
ghost use Rattle.base64.specs.Engines.{standard};
ghost use Rattle.base64.specs.GeneralPurpose.{encode_of};
ghost use Rattle.asn1der.specs.Pem.{block, boundary, wrapped};

use base64::engine::general_purpose::STANDARD;
use std::alloc::{AllocError, Global};

// The most characters of a line.
const LINE: usize = 64;

// Appends a text in lines of 64 characters, the last of which may have fewer.
fn push_wrapped(out: &mut Vec<u8>, text: &[u8]) -> Result<(), AllocError>
    ensures { OnOk result (out.new.items ≡ out.old.items ++ wrapped 0 text.now) }
{
    let mut column: usize = 0;
    for octet in text {
        if column == LINE {
            out.push(b'\n')?;
            column = 0;
        }
        out.push(*octet)?;
        column += 1;
    }
    out.push(b'\n')?;
    Ok(())
}

// Appends the line that begins or ends a block.
#[tactic(auto, unfolding(crate::specs::Pem::boundary))]
fn push_boundary(out: &mut Vec<u8>, word: &[u8], label: &[u8]) -> Result<(), AllocError>
    ensures { OnOk result (out.new.items ≡ out.old.items ++ boundary word.now label.now) }
{
    out.extend_from_slice(b"-----")?;
    out.extend_from_slice(word)?;
    out.extend_from_slice(label)?;
    out.extend_from_slice(b"-----\n")
}

/// Appends a block with this label.
pub fn push_block(
    alloc: Global,
    out: &mut Vec<u8>,
    label: &[u8],
    bytes: &[u8],
) -> Result<(), AllocError>
    ensures { OnOk result (out.new.items ≡ out.old.items ++ block label.now bytes.now) }
{
    let digits = STANDARD.encode(alloc, bytes)?;
    push_boundary(out, b"BEGIN ", label)?;
    push_wrapped(out, digits.as_bytes())?;
    push_boundary(out, b"END ", label)
}
