//! An input from its text to its lines.
ghost use Rattle.std.specs.Prelude.{◌≡◌, ◌≢◌, ◌⊎◌, ◌≤◌, true, false, length, IfErr, IfOk, OnOk, None, Some};
ghost use Rattle.yasna_base.specs.Grammar.{max_depth};
ghost use Rattle.yasna_base.specs.Raw.{IsRaw, IsJoining};
ghost use Rattle.asn1_input.specs.Input.{IsTakenAs};
ghost use Rattle.asn1show_lines.specs.Conformance.{IsConformanceIn, MeetsLine};
ghost use Rattle.asn1show_lines.specs.Input.{HoldsElements, HoldsNone};
ghost use Rattle.asn1_input.specs.Reader.{has_any, open_lines, BlockFails, BlockHolds, GoesOn, IsFirstError, NeverComes};
ghost use Rattle.asn1_input.specs.declared.input_format.InputFormat.{InputFormat};
ghost use Rattle.asn1_input.specs.declared.input_format.InputFormat.TheVariants.{Bytes, Hex, Pem};
ghost use Rattle.asn1show_printer.specs.Reports.{IsConformanceOf};
ghost use Rattle.asn1show_walk.specs.Errors.{IsExternal, WalkFails};
ghost use Rattle.asn1show_walk.specs.Reading.{NoElements};
ghost use Rattle.asn1show_walk.specs.WellFormed.{AreElements};

use asn1_input::{Block, InputFormat, PemReader, cut_line, decode_hex, format_of, text_of};
use asn1show_html::{HtmlPrinter, write_end, write_error, write_heading, write_start};
use asn1show_json::JsonPrinter;
use asn1show_printer::{
    Conformance, Layout, LineBuffer, Names, Output, Printer, Source, Style, View, write_quoted,
};
use asn1show_walk::{Expected, WalkError, list_input};
use std::alloc::Global;
use std::io::Write;
use yasna_base::mode::BERMode;

// Lists the elements of bytes in lines, prints their encoding rules, and returns these.
fn show_lines<W: Write + Drop>(
    out: &mut Output<W>,
    mode: BERMode,
    style: Style<'_>,
    bytes: &[u8],
) -> Result<Conformance, WalkError>
    ensures raw { OnOk result (IsJoining (IsRaw mode max_depth) bytes.now) }
    ensures some { OnOk result (1 ≤ length bytes.now) }
    ensures elements { OnOk result (AreElements max_depth mode bytes.now) }
    ensures conformance { style.entry.view.schema ≡ None → IfOk result (λ c. IsConformanceOf mode bytes.now c) }
    ensures fails { IfErr result (λ f. WalkFails IsExternal (NoElements max_depth mode bytes.now) f) }
{
    let mut printer = Printer::begin(out, style, Source { mode, bytes })?;
    match list_input(bytes, mode, &mut printer) {
        Ok(()) => printer.finish(),
        Err(error) => Err(error),
    }
}

// Lists the elements of bytes in JSON. The array is ended also if they are malformed.
fn show_json<W: Write + Drop>(
    out: &mut Output<W>,
    mode: BERMode,
    style: Style<'_>,
    bytes: &[u8],
) -> Result<Conformance, WalkError>
    ensures raw { OnOk result (IsJoining (IsRaw mode max_depth) bytes.now) }
    ensures some { OnOk result (1 ≤ length bytes.now) }
    ensures elements { OnOk result (AreElements max_depth mode bytes.now) }
    ensures conformance { style.entry.view.schema ≡ None → IfOk result (λ c. IsConformanceOf mode bytes.now c) }
    ensures fails { IfErr result (λ f. WalkFails IsExternal (NoElements max_depth mode bytes.now) f) }
{
    let mut printer = JsonPrinter::begin(out, style)?;
    let listed = list_input(bytes, mode, &mut printer);
    let conformance = printer.finish()?;
    match listed {
        Ok(()) => Ok(conformance),
        Err(error) => Err(error),
    }
}

// Lists the elements of bytes in HTML. Those that are open are ended also if the bytes are malformed.
fn show_html<W: Write + Drop>(
    out: &mut Output<W>,
    mode: BERMode,
    style: Style<'_>,
    bytes: &[u8],
) -> Result<Conformance, WalkError>
    ensures raw { OnOk result (IsJoining (IsRaw mode max_depth) bytes.now) }
    ensures some { OnOk result (1 ≤ length bytes.now) }
    ensures elements { OnOk result (AreElements max_depth mode bytes.now) }
    ensures conformance { style.entry.view.schema ≡ None → IfOk result (λ c. IsConformanceOf mode bytes.now c) }
    ensures fails { IfErr result (λ f. WalkFails IsExternal (NoElements max_depth mode bytes.now) f) }
{
    let mut page = HtmlPrinter::begin(out, style, Source { mode, bytes });
    match list_input(bytes, mode, &mut page) {
        Ok(()) => page.finish(true),
        Err(error) => match page.finish(false) {
            Ok(_) => Err(error),
            Err(failed) => Err(failed),
        },
    }
}

// Lists the elements of bytes.
fn show_bytes<W: Write + Drop>(
    out: &mut Output<W>,
    mode: BERMode,
    style: Style<'_>,
    bytes: &[u8],
) -> Result<Conformance, WalkError>
    ensures raw { OnOk result (IsJoining (IsRaw mode max_depth) bytes.now) }
    ensures some { OnOk result (1 ≤ length bytes.now) }
    ensures elements { OnOk result (AreElements max_depth mode bytes.now) }
    ensures conformance { style.entry.view.schema ≡ None → IfOk result (λ c. IsConformanceOf mode bytes.now c) }
    ensures fails { IfErr result (λ f. WalkFails IsExternal (NoElements max_depth mode bytes.now) f) }
{
    match style.view.layout {
        Layout::Lines => show_lines(out, mode, style, bytes),
        Layout::Json => show_json(out, mode, style, bytes),
        Layout::Html => show_html(out, mode, style, bytes),
    }
}

// Begins an input with a heading, where elements are laid out in lines or in HTML.
fn begin<W: Write + Drop>(
    out: &mut Output<W>,
    style: Style<'_>,
    heading: LineBuffer,
) -> Result<(), WalkError>
    ensures { IfErr result IsExternal }
{
    match style.view.layout {
        Layout::Lines => {
            out.begin(heading);
            Ok(())
        }
        Layout::Html => write_heading(out, style.alloc, &heading),
        Layout::Json => Ok(()),
    }
}

// Ends a line with the count of bytes, and lists their elements.
fn show_counted<W: Write + Drop>(
    out: &mut Output<W>,
    mode: BERMode,
    style: Style<'_>,
    mut line: LineBuffer,
    bytes: &[u8],
) -> Result<Conformance, WalkError>
    ensures raw { OnOk result (IsJoining (IsRaw mode max_depth) bytes.now) }
    ensures some { OnOk result (1 ≤ length bytes.now) }
    ensures elements { OnOk result (AreElements max_depth mode bytes.now) }
    ensures conformance { style.entry.view.schema ≡ None → IfOk result (λ c. IsConformanceOf mode bytes.now c) }
    ensures fails { IfErr result (λ f. WalkFails IsExternal (NoElements max_depth mode bytes.now) f) }
{
    let count = bytes.len();
    write!(line, "{count} bytes");
    begin(out, style, line)?;
    show_bytes(out, mode, style, bytes)
}

// A line that begins with this text.
fn line_of(alloc: Global, text: &str) -> LineBuffer {
    let mut line = LineBuffer::new(alloc);
    line.write_str(text);
    line
}

// The first line of an input, up to its format.
fn first_line(style: Style<'_>, format: &str) -> LineBuffer {
    let mut line = line_of(style.alloc, style.view.name);
    line.write_str(format);
    line
}

// The line of a block of PEM, up to its label.
fn block_line(style: Style<'_>, label: &[u8]) -> LineBuffer {
    let mut line = first_line(style, ": PEM ");
    write_quoted(&mut line, label);
    line
}

// Lists the elements of a block.
fn show_block<W: Write + Drop>(
    out: &mut Output<W>,
    mode: BERMode,
    style: Style<'_>,
    block: &Block<'_>,
) -> Result<Conformance, WalkError>
    ensures elements { OnOk result (BlockHolds (AreElements max_depth mode) block.now.bytes) }
    ensures conformance { style.entry.view.schema ≡ None → IfOk result (λ c. BlockHolds (λ bytes. IsConformanceOf mode bytes c) block.now.bytes) }
    ensures fails { IfErr result (λ f. WalkFails IsExternal (BlockFails (NoElements max_depth mode) block.now.bytes) f) }
{
    let mut line = block_line(style, block.label);
    match &block.bytes {
        Ok(bytes) => {
            line.write_str(", ");
            show_counted(out, mode, style, line, bytes.as_slice())
        }
        Err(error) => {
            begin(out, style, line)?;
            Err(*error)
        }
    }
}

// The word that a line begins with about a block that isn't listed, or not to its end.
fn defect(error: &WalkError) -> &'static str {
    match error {
        WalkError::Malformed {
            expected: Expected::PlainBlock,
            ..
        } => "encrypted: ",
        _ => "malformed: ",
    }
}

// Prints why a block isn't listed, or not to its end, but in JSON and in a check.
fn show_defect<W: Write + Drop>(
    out: &mut Output<W>,
    style: Style<'_>,
    error: &WalkError,
) -> Result<(), WalkError>
    ensures { IfErr result IsExternal }
{
    let mut line = line_of(style.alloc, defect(error));
    write!(line, "{error}");
    match style.view.layout {
        Layout::Lines if style.view.has_lines() => out.write(&mut line),
        Layout::Html => write_error(out, style.alloc, &line),
        Layout::Lines | Layout::Json => Ok(()),
    }
}

// Lists the elements of a block, and prints after them why it is malformed, if it is.
fn show_whole_block<W: Write + Drop>(
    out: &mut Output<W>,
    mode: BERMode,
    style: Style<'_>,
    block: &Block<'_>,
) -> Result<Conformance, WalkError>
    ensures elements { OnOk result (BlockHolds (AreElements max_depth mode) block.now.bytes) }
    ensures conformance { style.entry.view.schema ≡ None → IfOk result (λ c. BlockHolds (λ bytes. IsConformanceOf mode bytes c) block.now.bytes) }
    ensures fails { IfErr result (λ f. WalkFails IsExternal (BlockFails (NoElements max_depth mode) block.now.bytes) f) }
{
    let shown = show_block(out, mode, style, block);
    if let Err(error) = shown {
        if !error.is_external() {
            show_defect(out, style, &error)?;
        }
    }
    shown
}

// Takes a line of PEM, and lists the elements of the block that ends with it, if one does. The rules that these don't keep are dropped from the
// conformance of the blocks before.
fn show_line<'a, W: Write + Drop>(
    out: &mut Output<W>,
    mode: BERMode,
    style: Style<'_>,
    reader: &mut PemReader<'a>,
    line: &'a [u8],
    conformance: &mut Conformance,
) -> Result<(), WalkError>
    ensures goes_on { OnOk result (GoesOn (AreElements max_depth mode) reader.old line.now reader.new) }
    ensures conformance { style.entry.view.schema ≡ None → OnOk result (MeetsLine mode reader.old line.now reader.new conformance.old conformance.new) }
    ensures fails { IfErr result (λ f. WalkFails IsExternal (λ offset kind. NeverComes (AreElements max_depth mode) reader.old line.now) f) }
{
    let Some(block) = reader.push(line)? else {
        return Ok(());
    };
    match show_whole_block(out, mode, style, &block) {
        Ok(further) => {
            conformance.meet(further);
            Ok(())
        }
        Err(error) => Err(error),
    }
}

// Reports the block that is open at the end of an input of this size, if one is.
fn show_end<W: Write + Drop>(
    out: &mut Output<W>,
    mode: BERMode,
    style: Style<'_>,
    reader: &mut PemReader<'_>,
    size: usize,
) -> Result<(), WalkError>
    ensures ends { OnOk result ((open_lines reader.old ≡ None) × (has_any reader.old ≡ true)) }
    ensures fails { IfErr result (λ f. WalkFails IsExternal (λ offset kind. (open_lines reader.old ≢ None) ⊎ (has_any reader.old ≡ false)) f) }
{
    let Some(block) = reader.finish(size)? else {
        return Ok(());
    };
    match show_whole_block(out, mode, style, &block) {
        Ok(_) => Ok(()),
        Err(error) => Err(error),
    }
}

// The first error of blocks, after a further one was listed with this outcome. An external error is returned.
fn first_error(
    first: Option<WalkError>,
    outcome: Result<(), WalkError>,
) -> Result<Option<WalkError>, WalkError>
    ensures { IsFirstError first outcome result }
{
    match outcome {
        Ok(()) => Ok(first),
        Err(error) if error.is_external() => Err(error),
        Err(error) => Ok(first.or(Some(error))),
    }
}

// Lists each block of PEM, and returns the conformance of all. If one is malformed, it is reported, the next ones are listed, and the first error is
// returned.
fn show_blocks<W: Write + Drop>(
    out: &mut Output<W>,
    mode: BERMode,
    style: Style<'_>,
    input: &[u8],
) -> Result<Conformance, WalkError>
    ensures decodes { OnOk result (HoldsElements mode Pem input.now) }
    ensures conformance { style.entry.view.schema ≡ None → IfOk result (λ c. IsConformanceIn mode Pem input.now c) }
    ensures fails { IfErr result (λ f. WalkFails IsExternal (HoldsNone mode Pem input.now) f) }
{
    let text = text_of(input);
    let mut reader = PemReader::new(style.alloc, input.len() - text.len());
    let mut first = None;
    let mut conformance = Conformance::new();
    let mut left = Some(text);
    while let Some(text) = left {
        let (line, after) = cut_line(text);
        let shown = show_line(out, mode, style, &mut reader, line, &mut conformance);
        first = first_error(first, shown)?;
        left = after;
    }
    let end = show_end(out, mode, style, &mut reader, input.len());
    match first_error(first, end)? {
        Some(error) => Err(error),
        None => Ok(conformance),
    }
}

// Lists the elements of hexadecimal.
fn show_hex<W: Write + Drop>(
    out: &mut Output<W>,
    mode: BERMode,
    style: Style<'_>,
    input: &[u8],
) -> Result<Conformance, WalkError>
    ensures decodes { OnOk result (HoldsElements mode Hex input.now) }
    ensures conformance { style.entry.view.schema ≡ None → IfOk result (λ c. IsConformanceIn mode Hex input.now c) }
    ensures fails { IfErr result (λ f. WalkFails IsExternal (HoldsNone mode Hex input.now) f) }
{
    let text = text_of(input);
    let bytes = decode_hex(style.alloc, text, input.len() - text.len())?;
    let line = first_line(style, ": hexadecimal, ");
    show_counted(out, mode, style, line, bytes.as_slice())
}

// Lists the elements of an input of this format.
fn show_format<W: Write + Drop>(
    out: &mut Output<W>,
    mode: BERMode,
    input_format: InputFormat,
    style: Style<'_>,
    input: &[u8],
) -> Result<Conformance, WalkError>
    ensures raw { OnOk result (input_format ≡ Bytes → IsJoining (IsRaw mode max_depth) input.now) }
    ensures decodes { OnOk result (HoldsElements mode input_format input.now) }
    ensures conformance { style.entry.view.schema ≡ None → IfOk result (λ c. IsConformanceIn mode input_format input.now c) }
    ensures fails { IfErr result (λ f. WalkFails IsExternal (HoldsNone mode input_format input.now) f) }
{
    match input_format {
        InputFormat::Pem => show_blocks(out, mode, style, input),
        InputFormat::Hex => show_hex(out, mode, style, input),
        InputFormat::Bytes => show_counted(out, mode, style, first_line(style, ": "), input),
    }
}

// Lists the elements of an input. If no format is given, it is detected.
fn show_input<W: Write + Drop>(
    out: &mut Output<W>,
    mode: BERMode,
    input_format: Option<InputFormat>,
    style: Style<'_>,
    input: &[u8],
) -> Result<Conformance, WalkError>
    ensures raw { OnOk result (IsTakenAs input_format input.now Bytes → IsJoining (IsRaw mode max_depth) input.now) }
    ensures decodes { (taken : InputFormat) → IsTakenAs input_format input.now taken → OnOk result (HoldsElements mode taken input.now) }
    ensures conformance { style.entry.view.schema ≡ None → (taken : InputFormat) → IsTakenAs input_format input.now taken → IfOk result (λ c. IsConformanceIn mode taken input.now c) }
    ensures fails { (taken : InputFormat) → IsTakenAs input_format input.now taken → IfErr result (λ f. WalkFails IsExternal (HoldsNone mode taken input.now) f) }
{
    match input_format {
        Some(input_format) => show_format(out, mode, input_format, style, input),
        None => show_format(out, mode, format_of(input), style, input),
    }
}

// Writes the first error of an input, after all that was listed of it.
fn show_error<W: Write + Drop>(
    out: &mut Output<W>,
    style: Style<'_>,
    listed: Result<Conformance, WalkError>,
) -> Result<(), WalkError>
    ensures { IfErr result IsExternal }
{
    match listed {
        Err(error) if !error.is_external() => {
            let mut line = line_of(style.alloc, "");
            write!(line, "{error}");
            write_error(out, style.alloc, &line)
        }
        Ok(_) | Err(_) => Ok(()),
    }
}

// Lists the elements of an input in a page of HTML, which is ended also if the input is malformed.
fn show_page<W: Write + Drop>(
    out: &mut Output<W>,
    mode: BERMode,
    input_format: Option<InputFormat>,
    style: Style<'_>,
    input: &[u8],
) -> Result<Conformance, WalkError>
    ensures raw { OnOk result (IsTakenAs input_format input.now Bytes → IsJoining (IsRaw mode max_depth) input.now) }
    ensures decodes { (taken : InputFormat) → IsTakenAs input_format input.now taken → OnOk result (HoldsElements mode taken input.now) }
    ensures conformance { style.entry.view.schema ≡ None → (taken : InputFormat) → IsTakenAs input_format input.now taken → IfOk result (λ c. IsConformanceIn mode taken input.now c) }
    ensures fails { (taken : InputFormat) → IsTakenAs input_format input.now taken → IfErr result (λ f. WalkFails IsExternal (HoldsNone mode taken input.now) f) }
{
    write_start(out, style.alloc)?;
    let listed = show_input(out, mode, input_format, style, input);
    show_error(out, style, listed)?;
    write_end(out, style.alloc)?;
    listed
}

/// Lists the elements of an input in a mode, as a view of them says, and returns their conformance. If no format is given, it is detected.
///
/// Returns Ok only if the input in this format is one or more elements that are well formed, in PEM each of one or more blocks. If an error
/// is neither an I/O error nor out of memory, the input isn't such. Without a module, the conformance is to exactly the modes whose rules each
/// element keeps that is in no string, in PEM each element of each block.
pub fn show<W: Write + Drop>(
    alloc: Global,
    out: &mut Output<W>,
    mode: BERMode,
    input_format: Option<InputFormat>,
    view: View<'_>,
    input: &[u8],
) -> Result<Conformance, WalkError>
    ensures raw { OnOk result (IsTakenAs input_format input.now Bytes → IsJoining (IsRaw mode max_depth) input.now) }
    ensures decodes { (taken : InputFormat) → IsTakenAs input_format input.now taken → OnOk result (HoldsElements mode taken input.now) }
    ensures conformance { view.entry.schema ≡ None → (taken : InputFormat) → IsTakenAs input_format input.now taken → IfOk result (λ c. IsConformanceIn mode taken input.now c) }
    ensures fails { (taken : InputFormat) → IsTakenAs input_format input.now taken → IfErr result (λ f. WalkFails IsExternal (HoldsNone mode taken input.now) f) }
{
    let names = Names::new(alloc)?;
    let style = Style {
        alloc,
        names: &names,
        view,
    };
    match view.layout {
        Layout::Html => show_page(out, mode, input_format, style, input),
        Layout::Lines | Layout::Json => show_input(out, mode, input_format, style, input),
    }
}
