//! What is written of an input: of its bytes, of those that its digits say, or of those of each block of PEM.
ghost use Rattle.std.specs.Prelude.{◌≡◌, IfOk, None, Some};
ghost use Rattle.asn1_input.specs.declared.input_format.InputFormat.TheVariants.{Bytes, Hex};
ghost use Rattle.asn1der.specs.Written.{IsOutput, IsOutputOfHex};

use crate::conversion::{REJECTED, written_as};
use crate::options::Options;
use crate::origin::Origin;
use asn1_input::{Block, InputFormat, PemReader, cut_line, decode_hex, format_of, text_of};
use asn1show_schema::Schema;
use asn1show_walk::WalkError;
use program_io::ProgramError;
use std::io::Write;

// What is written of the blocks so far.
#[derive(Drop)]
struct Blocks {
    output: Vec<u8>,
    // How many blocks there are.
    count: usize,
    // The greatest status of one.
    status: u8,
}

// Reports an error of a text, and returns the status.
fn reject_text(rt: &HostRuntime, origin: Origin<'_>, error: &WalkError) -> u8 {
    if error.is_external() {
        return ProgramError::Memory.report(rt);
    }
    let _ = writeln!(rt.stderr(), "{origin}{error}");
    REJECTED
}

// Adds what is written of a block. Else the status is kept.
fn take_block(
    rt: &HostRuntime,
    options: &Options<'_>,
    schema: Option<&Schema>,
    name: Option<&str>,
    blocks: &mut Blocks,
    block: &Block<'_>,
) {
    blocks.count = blocks.count.saturating_add(1);
    let origin = Origin {
        name,
        block: Some(blocks.count),
    };
    let taken = match &block.bytes {
        Ok(bytes) => written_as(rt, options, schema, origin, bytes.as_slice()),
        Err(error) => Err(reject_text(rt, origin, error)),
    };
    let status = match taken {
        Ok(bytes) => match blocks.output.extend_from_slice(bytes.as_slice()) {
            Ok(()) => 0,
            Err(_) => ProgramError::Memory.report(rt),
        },
        Err(status) => status,
    };
    blocks.status = blocks.status.max(status);
}

// Takes a line of PEM, and adds what is written of the block that ends with it, if one does.
fn take_line<'a>(
    rt: &HostRuntime,
    options: &Options<'_>,
    schema: Option<&Schema>,
    name: Option<&str>,
    blocks: &mut Blocks,
    reader: &mut PemReader<'a>,
    line: &'a [u8],
) {
    match reader.push(line) {
        Ok(Some(block)) => take_block(rt, options, schema, name, blocks, &block),
        Ok(None) => {}
        Err(_) => blocks.status = ProgramError::Memory.report(rt),
    }
}

// Adds what is written of each block of PEM.
fn take_blocks(
    rt: &HostRuntime,
    options: &Options<'_>,
    schema: Option<&Schema>,
    name: Option<&str>,
    blocks: &mut Blocks,
    input: &[u8],
) {
    let text = text_of(input);
    let mut reader = PemReader::new(rt.alloc(), input.len() - text.len());
    let mut left = Some(text);
    while let Some(text) = left {
        let (line, after) = cut_line(text);
        take_line(rt, options, schema, name, blocks, &mut reader, line);
        left = after;
    }
    match reader.finish(input.len()) {
        Ok(Some(block)) => take_block(rt, options, schema, name, blocks, &block),
        Ok(None) => {}
        Err(error) => blocks.status = reject_text(rt, Origin { name, block: None }, &error),
    }
}

// What is written of the blocks of PEM. Else the errors are reported, and the exit status is returned.
fn written_of_pem(
    rt: &HostRuntime,
    options: &Options<'_>,
    schema: Option<&Schema>,
    name: Option<&str>,
    input: &[u8],
) -> Result<Vec<u8>, u8> {
    let mut blocks = Blocks {
        output: Vec::new(rt.alloc()),
        count: 0,
        status: 0,
    };
    take_blocks(rt, options, schema, name, &mut blocks, input);
    let Blocks { output, status, .. } = blocks;
    if status == 0 { Ok(output) } else { Err(status) }
}

// What is written of the bytes that hexadecimal digits say. Else the error is reported, and the exit status is returned.
fn written_of_digits(
    rt: &HostRuntime,
    options: &Options<'_>,
    schema: Option<&Schema>,
    name: Option<&str>,
    input: &[u8],
) -> Result<Vec<u8>, u8>
    ensures { schema.entry ≡ None → IfOk result (λ output. IsOutputOfHex options.now.label input.now output.items) }
{
    let text = text_of(input);
    let origin = Origin { name, block: None };
    match decode_hex(rt.alloc(), text, input.len() - text.len()) {
        Ok(bytes) => written_as(rt, options, schema, origin, bytes.as_slice()),
        Err(error) => Err(reject_text(rt, origin, &error)),
    }
}

/// What is written of an input, whose elements are values of a type if it is given. Else the errors are reported, and the exit status is returned.
pub fn written_of(
    rt: &HostRuntime,
    options: &Options<'_>,
    schema: Option<&Schema>,
    name: Option<&str>,
    input: &[u8],
) -> Result<Vec<u8>, u8>
    ensures bytes { schema.entry ≡ None → options.now.input_format ≡ Some Bytes → IfOk result (λ output. IsOutput options.now.label input.now output.items) }
    ensures hex { schema.entry ≡ None → options.now.input_format ≡ Some Hex → IfOk result (λ output. IsOutputOfHex options.now.label input.now output.items) }
{
    let input_format = match options.input_format {
        Some(input_format) => input_format,
        None => format_of(input),
    };
    match input_format {
        InputFormat::Bytes => {
            written_as(rt, options, schema, Origin { name, block: None }, input)
        },
        InputFormat::Hex => written_of_digits(rt, options, schema, name, input),
        InputFormat::Pem => written_of_pem(rt, options, schema, name, input),
    }
}
