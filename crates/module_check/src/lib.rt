//! Whether bytes are a value of a type of a module: the first element that isn't as the module or the encoding rules say.
//!
//! What an object identifier selects isn't looked at, nor what is in a string.
#![tactic(auto)]

ghost use Rattle.std.specs.Prelude.{◌≡◌, ◌↔◌, IsTrue, IfErr};
ghost use Rattle.asn1show_walk.specs.Errors.{IsExternal};
ghost use Rattle.module_check.specs.Checking.{IsRejected};

use asn1show_printer::{
    Diagnostic, Layout, Names, Numbers, Report, Schema, Selection, ShownTag, Style, View,
};
use asn1show_walk::{Context, Item, Place, Visitor, WalkError, list_input};
use std::alloc::Global;
use std::fmt;
use yasna_base::mode::BERMode;
use yasna_base::tag::Tag;

/// Why bytes are no value of a type.
#[derive(Drop)]
pub struct Rejection {
    /// The offset of the element.
    pub offset: usize,
    /// The names that lead to it, with points between them, and the indices of elements of lists.
    pub path: Vec<u8>,
    /// What is wrong with it.
    pub diagnostic: Diagnostic,
    /// Its tag.
    pub tag: Tag,
}

/// The offset, the path if it isn't empty, and what is wrong there.
impl fmt::Display for Rejection {
    fn fmt<W: fmt::Write>(&self, f: &mut fmt::Formatter<W>) -> fmt::Result {
        let offset = self.offset;
        write!(f, "offset {offset}")?;
        if let Ok(path) = std::str::from_utf8(self.path.as_slice()) {
            if !path.is_empty() {
                write!(f, ", {path}")?;
            }
        }
        let text = self.diagnostic.text();
        write!(f, ": {text}")?;
        match self.diagnostic {
            Diagnostic::NotInModule => {
                let tag = ShownTag(self.tag);
                write!(f, ": {tag}")
            }
            _ => Ok(()),
        }
    }
}

// Whether an element with a diagnostic is rejected.
fn is_rejected(mode: BERMode, diagnostic: Diagnostic) -> bool
    ensures { IsTrue result ↔ IsRejected mode diagnostic }
{
    diagnostic.is_of_module() || diagnostic.excludes(mode)
}

// The first diagnostic for which an element is rejected.
fn first_rejected(mode: BERMode, diagnostics: &[Diagnostic]) -> Option<Diagnostic> {
    for diagnostic in diagnostics {
        if is_rejected(mode, *diagnostic) {
            return Some(*diagnostic);
        }
    }
    None
}

// A visitor that looks for the first element that isn't as it should be.
#[derive(Drop)]
struct Checker<'n> {
    report: Report<'n>,
    mode: BERMode,
    // The offset of the first element.
    start: usize,
    found: Option<Rejection>,
}

impl<'n> Checker<'n> {
    // Notes what is wrong with an element that was described, if something is.
    fn note(&mut self, item: &Item<'_>) -> Result<(), WalkError>
        ensures { IfErr result IsExternal }
    {
        let Some(diagnostic) = first_rejected(self.mode, self.report.diagnostics()) else {
            return Ok(());
        };
        self.found = Some(Rejection {
            offset: self.start.saturating_add(item.offset),
            path: self.report.path()?,
            diagnostic,
            tag: item.tag,
        });
        Ok(())
    }
}

impl<'n> Visitor for Checker<'n> {
    ghost use Rattle.asn1show_walk.specs.Errors.{IsExternal};

    ghost rejects = { λ _. IsExternal };

    fn visit(&mut self, item: &Item<'_>) -> Result<(), WalkError> {
        if self.found.is_some() {
            return Ok(());
        }
        let label = self.report.label(item);
        self.report.describe(item, label)?;
        self.note(item)?;
        self.report.discard()
    }

    fn descends_into(&self, _context: Context, _string: Place<'_>) -> bool {
        false
    }
}

// How elements are looked at.
fn style_of<'n>(alloc: Global, names: &'n Names, schema: &'n Schema, mode: BERMode) -> Style<'n> {
    Style {
        alloc,
        names,
        view: View {
            name: "input",
            selection: Selection::Defects(mode),
            layout: Layout::Lines,
            numbers: Numbers::Hexadecimal,
            width: 0,
            has_dump: false,
            schema: Some(schema),
        },
    }
}

/// Why bytes that begin at an offset are no value of the type of a schema, in these encoding rules, as far as the diagnostics of `asn1show` tell. `None` says that none applies.
///
/// `Err` says that they aren't elements, or that memory ran out.
pub fn check(
    alloc: Global,
    names: &Names,
    schema: &Schema,
    mode: BERMode,
    start: usize,
    bytes: &[u8],
) -> Result<Option<Rejection>, WalkError> {
    let mut checker = Checker {
        report: Report::new(style_of(alloc, names, schema, mode)),
        mode,
        start,
        found: None,
    };
    list_input(bytes, mode, &mut checker)?;
    Ok(checker.found)
}
