//! Elements that are appended to an output, and headers that are put before contents.
ghost use Rattle.std.specs.Prelude.{◌≡◌, ◌≤◌, ◌-◌, ◌++◌, OnOk, length, drop, take};
ghost use Rattle.yasna_base.specs.BigInteger.{trim_leading};
ghost use Rattle.yasna_base.specs.Length.{shortest_length};

use std::alloc::AllocError;

// Bytes without the zeros in front.
fn without_zeros(bytes: &[u8]) -> &[u8]
    ensures { result.now ≡ trim_leading 0 bytes.now }
{
    let mut rest = bytes;
    while let Some((first, tail)) = rest.split_first() {
        if *first != 0 {
            return rest;
        }
        rest = tail;
    }
    rest
}

// Appends a length in the fewest bytes (X.690, 10.1).
#[tactic(auto, using(yasna_base::proofs::Length::short_length))]
fn push_length(out: &mut Vec<u8>, length: usize) -> Result<(), AllocError>
    ensures { OnOk result (out.new.items ≡ out.old.items ++ shortest_length length) }
{
    if length < 128 {
        out.push(length as u8)?;
        return Ok(());
    }
    let bytes = length.to_be_bytes();
    let digits = without_zeros(&bytes);
    out.push(128 + digits.len() as u8)?;
    out.extend_from_slice(digits)?;
    Ok(())
}

/// Appends an element: this identifier, a length, and contents of two pieces.
pub fn append_element(
    out: &mut Vec<u8>,
    identifier: &[u8],
    prefix: &[u8],
    contents: &[u8],
) -> Result<(), AllocError>
    ensures { OnOk result (out.new.items ≡ out.old.items ++ (identifier.now ++ (shortest_length (length (prefix.now ++ contents.now)) ++ (prefix.now ++ contents.now)))) }
{
    out.extend_from_slice(identifier)?;
    push_length(out, prefix.len() + contents.len())?;
    out.extend_from_slice(prefix)?;
    out.extend_from_slice(contents)
}

/// Puts a header before the contents that begin at a place: this identifier, and their length.
pub fn enclose_contents(
    out: &mut Vec<u8>,
    start: usize,
    identifier: &[u8],
) -> Result<(), AllocError>
    requires { start ≤ length out.old.items }
    ensures { OnOk result (out.new.items ≡ take start out.old.items ++ (identifier.now ++ (shortest_length (length (drop start out.old.items)) ++ drop start out.old.items))) }
{
    let end = out.len();
    out.extend_from_slice(identifier)?;
    push_length(out, end - start)?;
    let header = out.len() - end;
    let bytes = out.as_mut_slice();
    bytes[start..].rotate_right(header);
    Ok(())
}

/// Appends an element: this identifier, a length, and contents, which take over an output of fewer bytes.
pub fn append_contents(
    out: &mut Vec<u8>,
    identifier: &[u8],
    contents: Vec<u8>,
) -> Result<(), AllocError>
    ensures { OnOk result (out.new.items ≡ out.old.items ++ (identifier.now ++ (shortest_length (length contents.items) ++ contents.items))) }
{
    let size = contents.len();
    if size <= out.len() {
        return append_element(out, identifier, &[], &contents);
    }
    let mut all = contents;
    all.extend_from_slice(out)?;
    all.extend_from_slice(identifier)?;
    push_length(&mut all, size)?;
    let before = all.len() - size;
    all.rotate_right(before);
    *out = all;
    Ok(())
}
