//! Texts with marks, `@` and a letter, and what the marks of one source represent.

use crate::text::Text;
use std::alloc::Global;

// What a mark represents.
#[derive(Drop)]
struct Fragment {
    mark: u8,
    text: Text,
}

/// What the marks of a source represent.
#[derive(Drop)]
pub struct Fragments {
    alloc: Global,
    rows: Vec<Fragment>,
    is_cut: bool,
}

impl Fragments {
    /// No marks.
    pub fn new(alloc: Global) -> Fragments {
        Fragments {
            alloc,
            rows: Vec::new(alloc),
            is_cut: false,
        }
    }

    /// An empty text.
    pub fn text(&self) -> Text {
        Text::new(self.alloc)
    }

    /// Sets a mark to a text.
    pub fn set(&mut self, mark: u8, text: Text) {
        if self.rows.push(Fragment { mark, text }).is_err() {
            self.is_cut = true;
        }
    }

    /// Sets a mark to octets.
    pub fn set_octets(&mut self, mark: u8, octets: &[u8]) {
        let mut text = Text::new(self.alloc);
        text.put(octets);
        self.set(mark, text);
    }

    /// Sets a mark to a text with marks that were set before.
    pub fn set_filled(&mut self, mark: u8, template: &str) {
        let mut text = Text::new(self.alloc);
        self.fill(template, &mut text);
        self.set(mark, text);
    }

    /// Sets a mark to a term with marks that were set before, in lines that aren't too long.
    pub fn set_term(&mut self, mark: u8, template: &str, start: usize) {
        let mut text = Text::new(self.alloc);
        self.fill(template, &mut text);
        let mut term = Text::new(self.alloc);
        term.put_term(text.as_slice(), start);
        if text.is_cut() {
            term.cut();
        }
        self.set(mark, term);
    }

    /// What a mark represents, or nothing.
    pub fn get(&self, mark: u8) -> &[u8] {
        for row in self.rows.iter() {
            if row.mark == mark {
                return row.text.as_slice();
            }
        }
        b""
    }

    // Whether memory ran out.
    fn is_cut(&self) -> bool {
        for row in self.rows.iter() {
            if row.text.is_cut() {
                return true;
            }
        }
        self.is_cut
    }

    /// Appends a text with what its marks represent.
    pub fn fill(&self, template: &str, out: &mut Text) {
        let mut is_mark = false;
        for octet in template.as_bytes() {
            if is_mark {
                out.put(self.get(*octet));
                is_mark = false;
            } else if *octet == b'@' {
                is_mark = true;
            } else {
                out.put_octet(*octet);
            }
        }
        if self.is_cut() {
            out.cut();
        }
    }
}
