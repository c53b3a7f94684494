//! The messages of an input, which are checked one after the other.

use crate::message_schema::schema_for;
use crate::message_type::MessageType;
use crate::options::Options;
use crate::rejection::{Rejected, rejection_of};
use crate::subject::{ModuleType, Subject};
use crate::tally::{Tally, not_written, out_of_memory};
use asn1_input::{Block, InputFormat, PemReader, Pieces, cut_line, decode_hex, format_of, text_of};
use asn1show_walk::WalkError;
use module_check::check as value_rejection;
use program_io::Input;
use yasna::{ASN1Error, ASN1ErrorKind, ASN1Result, BERMode};

// The outcome of a step: an Err has the status with which the check of an input ends early. Why it ends was reported.
type Step = Result<(), u8>;

/// What an input is checked as, and how.
#[derive(Clone, Copy)]
pub struct Task<'t, 'o> {
    /// The options.
    pub options: &'t Options<'o>,
    /// What each message is, or `None` if its label says it.
    pub subject: Option<Subject<'t>>,
}

// A piece of an input: a message, or none.
#[derive(Clone, Copy)]
struct Piece<'a> {
    mode: BERMode,
    offset: usize,
    bytes: &'a [u8],
}

// Reports why a piece is no message of a type, which `error` says too.
fn reject(
    rt: &HostRuntime,
    tally: &mut Tally<'_>,
    kind: MessageType,
    piece: Piece<'_>,
    error: ASN1Error,
) -> Step {
    let Piece {
        mode,
        offset,
        bytes,
    } = piece;
    if error.kind() == ASN1ErrorKind::OutOfMemory {
        return Err(out_of_memory(rt));
    }
    let Some(located) = kind.located(rt.alloc(), mode, bytes) else {
        tally.reject(rt, &error);
        return Ok(());
    };
    let Ok(schema) = schema_for(rt.alloc(), kind) else {
        return Err(out_of_memory(rt));
    };
    let Some(schema) = schema else {
        tally.reject(rt, &error);
        return Ok(());
    };
    let message = Rejected {
        schema: &schema,
        mode,
        start: offset,
        bytes,
        located,
    };
    match rejection_of(rt.alloc(), message) {
        Ok(rejection) => {
            tally.reject(rt, &rejection);
            Ok(())
        }
        Err(_) => Err(out_of_memory(rt)),
    }
}

// A message of a type in DER, or None if the type has none for what was read by these rules.
fn encoding(rt: &HostRuntime, kind: MessageType, piece: Piece<'_>) -> Option<ASN1Result<Vec<u8>>> {
    match piece.mode {
        BERMode::Der => Some(kind.rewritten(rt.alloc(), piece.bytes)),
        mode => kind.converted(rt.alloc(), mode, piece.bytes),
    }
}

// Encodes a piece.
fn encode(rt: &HostRuntime, tally: &mut Tally<'_>, kind: MessageType, piece: Piece<'_>) -> Step {
    match encoding(rt, kind, piece) {
        Some(Ok(encoding)) => match tally.output.extend_from_slice(encoding.as_slice()) {
            Ok(()) => {
                tally.accept(1);
                Ok(())
            }
            Err(_) => Err(out_of_memory(rt)),
        },
        Some(Err(error)) => reject(rt, tally, kind, piece, error),
        None => Err(not_written(rt)),
    }
}

// Checks that a piece is messages of a type.
fn check(rt: &HostRuntime, tally: &mut Tally<'_>, kind: MessageType, piece: Piece<'_>) -> Step {
    match kind.checked(rt.alloc(), piece.mode, piece.bytes) {
        Ok(count) => {
            tally.accept(count);
            Ok(())
        }
        Err(error) => reject(rt, tally, kind, piece, error),
    }
}

// An error of bytes that begin at an offset.
fn located_at(error: WalkError, start: usize) -> WalkError {
    match error {
        WalkError::Malformed {
            offset,
            kind,
            expected,
        } => WalkError::Malformed {
            offset: start.saturating_add(offset),
            kind,
            expected,
        },
        other => other,
    }
}

// Checks that a piece is a value of a type of a module.
fn check_value(
    rt: &HostRuntime,
    tally: &mut Tally<'_>,
    of: ModuleType<'_>,
    piece: Piece<'_>,
) -> Step {
    let Piece {
        mode,
        offset,
        bytes,
    } = piece;
    match value_rejection(rt.alloc(), of.names, of.schema, mode, offset, bytes) {
        Ok(None) => tally.accept(1),
        Ok(Some(rejection)) => tally.reject(rt, &rejection),
        Err(error) if error.is_external() => return Err(out_of_memory(rt)),
        Err(error) => tally.reject(rt, &located_at(error, offset)),
    }
    Ok(())
}

// Checks or encodes a piece.
fn take_piece(
    rt: &HostRuntime,
    task: Task<'_, '_>,
    tally: &mut Tally<'_>,
    subject: Subject<'_>,
    piece: Piece<'_>,
) -> Step {
    match subject {
        Subject::Message(kind) if task.options.encode => encode(rt, tally, kind, piece),
        Subject::Message(kind) => check(rt, tally, kind, piece),
        Subject::Module(of) => check_value(rt, tally, of, piece),
    }
}

// Checks or encodes bytes piece by piece.
fn take_pieces(
    rt: &HostRuntime,
    task: Task<'_, '_>,
    tally: &mut Tally<'_>,
    subject: Subject<'_>,
    bytes: &[u8],
) -> Step {
    let mode = task.options.mode_of(subject);
    let mut offset: usize = 0;
    for bytes in Pieces::new(bytes) {
        let piece = Piece {
            mode,
            offset,
            bytes,
        };
        take_piece(rt, task, tally, subject, piece)?;
        offset = offset.saturating_add(bytes.len());
    }
    Ok(())
}

// Checks messages of a type. If one of them is rejected, they are checked piece by piece.
fn check_messages(
    rt: &HostRuntime,
    task: Task<'_, '_>,
    tally: &mut Tally<'_>,
    kind: MessageType,
    bytes: &[u8],
) -> Step {
    let subject = Subject::Message(kind);
    match kind.checked(rt.alloc(), task.options.mode_of(subject), bytes) {
        Ok(count) => {
            tally.accept(count);
            Ok(())
        }
        Err(error) if error.kind() == ASN1ErrorKind::OutOfMemory => Err(out_of_memory(rt)),
        Err(_) => take_pieces(rt, task, tally, subject, bytes),
    }
}

// Checks or encodes bytes.
fn take_bytes(
    rt: &HostRuntime,
    task: Task<'_, '_>,
    tally: &mut Tally<'_>,
    subject: Subject<'_>,
    bytes: &[u8],
) -> Step {
    match subject {
        Subject::Message(kind) if !task.options.encode => {
            check_messages(rt, task, tally, kind, bytes)
        }
        _ => take_pieces(rt, task, tally, subject, bytes),
    }
}

// Reports an error of a text, unless it is out of memory.
fn reject_text(rt: &HostRuntime, tally: &mut Tally<'_>, error: &WalkError) -> Step {
    if error.is_external() {
        return Err(out_of_memory(rt));
    }
    tally.reject(rt, error);
    Ok(())
}

// Reports a label that is of another type, or of none.
fn reject_label(rt: &HostRuntime, tally: &mut Tally<'_>, label: &[u8]) -> Step {
    let label = str::from_utf8(label).unwrap_or("?");
    match format!(in rt.alloc(); "its label is {label:?}") {
        Ok(why) => {
            tally.reject(rt, &why);
            Ok(())
        }
        Err(_) => Err(out_of_memory(rt)),
    }
}

// What a block is: a value of a module, or what its label says, which isn't another type than that which is asked for.
fn subject_of<'t>(task: Task<'t, '_>, label: &[u8]) -> Option<Subject<'t>> {
    match task.subject {
        Some(Subject::Module(of)) => Some(Subject::Module(of)),
        Some(Subject::Message(kind)) => {
            if MessageType::labelled(label)? == kind {
                Some(Subject::Message(kind))
            } else {
                None
            }
        }
        None => Some(Subject::Message(MessageType::labelled(label)?)),
    }
}

// Checks or encodes the bytes of a block.
fn take_block(
    rt: &HostRuntime,
    task: Task<'_, '_>,
    tally: &mut Tally<'_>,
    block: &Block<'_>,
) -> Step {
    let bytes = match &block.bytes {
        Ok(bytes) => bytes.as_slice(),
        Err(error) => return reject_text(rt, tally, error),
    };
    match subject_of(task, block.label) {
        Some(subject) => take_bytes(rt, task, tally, subject, bytes),
        None => reject_label(rt, tally, block.label),
    }
}

// Takes a line of PEM, and checks or encodes the block that ends with it, if one does.
fn take_line<'a>(
    rt: &HostRuntime,
    task: Task<'_, '_>,
    tally: &mut Tally<'_>,
    reader: &mut PemReader<'a>,
    line: &'a [u8],
) -> Step {
    match reader.push(line) {
        Ok(Some(block)) => take_block(rt, task, tally, &block),
        Ok(None) => Ok(()),
        Err(_) => Err(out_of_memory(rt)),
    }
}

// Checks or encodes each block of PEM.
fn take_blocks(rt: &HostRuntime, task: Task<'_, '_>, tally: &mut Tally<'_>, input: &[u8]) -> Step {
    let text = text_of(input);
    let mut reader = PemReader::new(rt.alloc(), input.len() - text.len());
    let mut left = Some(text);
    while let Some(text) = left {
        let (line, after) = cut_line(text);
        take_line(rt, task, tally, &mut reader, line)?;
        left = after;
    }
    match reader.finish(input.len()) {
        Ok(Some(block)) => take_block(rt, task, tally, &block),
        Ok(None) => Ok(()),
        Err(error) => reject_text(rt, tally, &error),
    }
}

// Checks or encodes the bytes that an input in hexadecimal has.
fn take_hex(
    rt: &HostRuntime,
    task: Task<'_, '_>,
    tally: &mut Tally<'_>,
    subject: Subject<'_>,
    input: &[u8],
) -> Step {
    let text = text_of(input);
    match decode_hex(rt.alloc(), text, input.len() - text.len()) {
        Ok(bytes) => take_bytes(rt, task, tally, subject, bytes.as_slice()),
        Err(error) => reject_text(rt, tally, &error),
    }
}

// Checks or encodes an input. If only labels name types, it is PEM.
fn take_input(rt: &HostRuntime, task: Task<'_, '_>, tally: &mut Tally<'_>, input: &[u8]) -> Step {
    let Some(subject) = task.subject else {
        return take_blocks(rt, task, tally, input);
    };
    let input_format = match task.options.input_format {
        Some(input_format) => input_format,
        None => format_of(input),
    };
    match input_format {
        InputFormat::Pem => take_blocks(rt, task, tally, input),
        InputFormat::Hex => take_hex(rt, task, tally, subject, input),
        InputFormat::Bytes => take_bytes(rt, task, tally, subject, input),
    }
}

/// Checks or encodes the messages of an input, and returns the status.
pub fn take(rt: &HostRuntime, task: Task<'_, '_>, input: Input<'_>) -> u8 {
    let bytes = match input.read(rt) {
        Ok(bytes) => bytes,
        Err(status) => return status,
    };
    let mut tally = Tally::new(rt, input.name());
    match take_input(rt, task, &mut tally, bytes.as_slice()) {
        Ok(()) if task.options.encode => tally.finish_encoding(rt),
        Ok(()) => tally.finish(rt),
        Err(status) => status,
    }
}
