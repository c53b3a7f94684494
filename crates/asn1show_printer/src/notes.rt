//! What is noted of an element.
ghost use Rattle.std.specs.Prelude.{◌≡◌, ◌&&◌, ◌||◌, true, IfErr, OnOk};
ghost use Rattle.yasna_base.specs.declared.mode.BERMode.{BERMode};
ghost use Rattle.asn1show_walk.specs.Errors.{IsExternal};
ghost use Rattle.asn1show_printer.specs.Conformance.{conforms, IsDiagnosed};
ghost use Rattle.asn1show_printer.specs.Modes.{spare_each};

use crate::diagnostic::{Conformance, Diagnostic};
use crate::selection::Selection;
use asn1show_walk::WalkError;
use std::alloc::{AllocError, Global};

/// The diagnostics of an element that are shown, and the encoding rules that it conforms to.
#[derive(Drop)]
pub struct Notes {
    shown: Vec<Diagnostic>,
    conformance: Conformance,
}

impl Notes {
    /// The notes of an element of which nothing is said.
    pub fn new(alloc: Global) -> Notes {
        Notes {
            shown: Vec::new(alloc),
            conformance: Conformance::new(),
        }
    }

    /// Forgets what is noted.
    pub fn clear(&mut self)
        ensures { (m : BERMode) → conforms self.new.conformance m ≡ true }
    {
        self.shown.clear();
        self.conformance = Conformance::new();
    }

    /// The diagnostics that are shown.
    pub fn shown(&self) -> &[Diagnostic]
        ensures { result.now ≡ self.now.shown.items }
    {
        self.shown.as_slice()
    }

    /// The encoding rules that the element conforms to.
    pub fn conformance(&self) -> Conformance
        ensures { result ≡ self.now.conformance }
    {
        self.conformance
    }

    // Notes a diagnostic of an element, which may be in a string, if there is one.
    fn note(
        &mut self,
        selection: Selection,
        in_string: bool,
        said: Option<Diagnostic>,
    ) -> Result<(), AllocError>
        ensures { IsDiagnosed self.old.conformance said self.new.conformance }
    {
        let Some(diagnostic) = said else {
            return Ok(());
        };
        self.conformance.note(diagnostic);
        if !selection.shows(in_string, diagnostic) {
            return Ok(());
        }
        match self.shown.push(diagnostic) {
            Ok(()) => Ok(()),
            Err(_) => Err(AllocError),
        }
    }

    /// Notes diagnostics of an element, which may be in a string.
    pub fn note_each(
        &mut self,
        selection: Selection,
        in_string: bool,
        said: &[Option<Diagnostic>],
    ) -> Result<(), WalkError>
        ensures conformance { OnOk result ((m : BERMode) → conforms self.new.conformance m ≡ (conforms self.old.conformance m && spare_each said.now m)) }
        ensures external { IfErr result IsExternal }
    {
        for one in said {
            match self.note(selection, in_string, *one) {
                Ok(()) => {}
                Err(_) => return Err(WalkError::Memory),
            }
        }
        Ok(())
    }

    /// Ends the notes of an element. What is in a string doesn't bear on the encoding rules of the whole.
    pub fn end(&mut self, in_string: bool)
        ensures { (m : BERMode) → conforms self.new.conformance m ≡ (in_string || conforms self.old.conformance m) }
    {
        if in_string {
            self.conformance = Conformance::new();
        }
    }
}
