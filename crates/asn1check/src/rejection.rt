//! Why bytes are no message, and at which of their parts.
ghost use Rattle.asn1show_walk.specs.Errors.{IsExternal};

use asn1show_names::Names;
use asn1show_printer::{Diagnostic, ShownTag};
use asn1show_schema::{Fields, Schema};
use asn1show_walk::{Context, Expected, Item, Place, Visitor, WalkError, list_input};
use module_check::check;
use std::alloc::Global;
use std::{fmt, str};
use yasna::{ASN1ErrorKind, BERMode, Located, Tag};

// The last element that begins at an offset or before it.
#[derive(Drop)]
struct ElementBefore<'m> {
    offset: usize,
    // The names that lead to it.
    fields: Fields<'m>,
    // Whether it begins at the offset itself.
    is_there: bool,
}

impl<'m> Visitor for ElementBefore<'m> {
    ghost rejects = { λ _ e. IsExternal e };

    fn visit(&mut self, item: &Item<'_>) -> Result<(), WalkError> {
        if item.offset <= self.offset {
            self.is_there = item.offset == self.offset;
            self.fields.enter(item.depth, item.tag, item.contents)?;
        }
        Ok(())
    }

    fn descends_into(&self, _context: Context, _string: Place<'_>) -> bool {
        false
    }
}

/// Why bytes are no message.
#[derive(Drop)]
pub enum Rejection {
    /// They aren't elements: what was expected at an offset.
    Malformed {
        /// The offset.
        offset: usize,
        /// The kind of the error.
        kind: ASN1ErrorKind,
        /// What was expected.
        expected: Expected,
    },
    /// An element isn't the one that the type has there, or one is missing.
    Rejected {
        /// The offset where that was found.
        offset: usize,
        /// The kind of the error.
        kind: ASN1ErrorKind,
        /// The names that lead to the last element that begins there or before.
        path: Vec<u8>,
        /// Whether it begins there.
        is_there: bool,
        /// What of it isn't as its module says, and its tag, if that is known.
        found: Option<(Diagnostic, Tag)>,
    },
}

// Writes the names that lead to an element, if there are some.
fn write_path<W: fmt::Write>(
    f: &mut fmt::Formatter<W>,
    path: &[u8],
    is_there: bool,
) -> fmt::Result {
    if path.is_empty() {
        return Ok(());
    }
    f.write_str(if is_there { ", at " } else { ", after " })?;
    f.write_str(str::from_utf8(path).unwrap_or("?"))
}

// Writes what of an element isn't as its module says, if that is known.
fn write_found<W: fmt::Write>(
    f: &mut fmt::Formatter<W>,
    found: Option<(Diagnostic, Tag)>,
) -> fmt::Result {
    let Some((diagnostic, tag)) = found else {
        return Ok(());
    };
    let text = diagnostic.text();
    write!(f, ": {text}")?;
    match diagnostic {
        Diagnostic::NotInModule => {
            let tag = ShownTag(tag);
            write!(f, ": {tag}")
        }
        _ => Ok(()),
    }
}

/// One line: the offset, the names that lead there, the kind of the error, and what was expected.
impl fmt::Display for Rejection {
    fn fmt<W: fmt::Write>(&self, f: &mut fmt::Formatter<W>) -> fmt::Result {
        match self {
            Rejection::Malformed {
                offset,
                kind,
                expected,
            } => write!(f, "offset {offset}: {kind:?}: expected {expected}"),
            Rejection::Rejected {
                offset,
                kind,
                path,
                is_there,
                found,
            } => {
                write!(f, "offset {offset}")?;
                write_path(f, path, *is_there)?;
                write!(f, ": {kind:?}")?;
                write_found(f, *found)
            }
        }
    }
}

// What of the element at an offset isn't as the module of a message says, if that is known.
fn diagnostic_at(
    alloc: Global,
    schema: &Schema,
    mode: BERMode,
    bytes: &[u8],
    offset: usize,
) -> Result<Option<(Diagnostic, Tag)>, WalkError> {
    let names = Names::new(alloc)?;
    match check(alloc, &names, schema, mode, 0, bytes) {
        Ok(Some(rejection)) if rejection.offset == offset => {
            Ok(Some((rejection.diagnostic, rejection.tag)))
        }
        Ok(_) => Ok(None),
        Err(error) if error.is_external() => Err(error),
        Err(_) => Ok(None),
    }
}

/// A message that a reader rejects.
#[derive(Clone, Copy)]
pub struct Rejected<'a> {
    /// The tables of its module.
    pub schema: &'a Schema,
    /// The encoding rules by which it is read.
    pub mode: BERMode,
    /// The offset of the bytes.
    pub start: usize,
    /// The bytes.
    pub bytes: &'a [u8],
    /// Why the reader rejects them, and where.
    pub located: Located,
}

// Why a message is rejected that consists of elements up to the place where the reader found that.
fn rejected_at(
    alloc: Global,
    message: Rejected<'_>,
    element: ElementBefore<'_>,
) -> Result<Rejection, WalkError> {
    let Rejected {
        schema,
        mode,
        start,
        bytes,
        located,
    } = message;
    Ok(Rejection::Rejected {
        offset: start.saturating_add(located.offset),
        kind: located.error.kind(),
        path: element.fields.path(alloc)?,
        is_there: element.is_there,
        found: diagnostic_at(alloc, schema, mode, bytes, located.offset)?,
    })
}

/// Why bytes are rejected as a message. If they aren't elements at that place or before, it is that.
///
/// An error says that memory ran out.
pub fn rejection_of(alloc: Global, message: Rejected<'_>) -> Result<Rejection, WalkError> {
    let Rejected {
        schema,
        mode,
        start,
        bytes,
        located,
    } = message;
    let mut element = ElementBefore {
        offset: located.offset,
        fields: Fields::new(alloc, schema),
        is_there: false,
    };
    match list_input(bytes, mode, &mut element) {
        Ok(()) => rejected_at(alloc, message, element),
        Err(
            WalkError::Malformed {
                offset,
                kind,
                expected,
            },
        ) => {
            if offset > located.offset {
                return rejected_at(alloc, message, element);
            }
            Ok(Rejection::Malformed {
                offset: start.saturating_add(offset),
                kind,
                expected,
            })
        }
        Err(error) => Err(error),
    }
}
