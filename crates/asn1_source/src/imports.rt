//! What a source brings in: the names that are in its text.

use crate::import_table::{CLAUSE_IMPORTS, CODE_IMPORTS};
use crate::text::Text;
use std::alloc::Global;

fn is_word_octet(c: u8) -> bool {
    c.is_ascii_alphanumeric() || c == b'_'
}

/// The words of a text.
#[derive(Drop)]
pub struct Words<'t> {
    words: Vec<&'t [u8]>,
    is_cut: bool,
}

impl<'t> Words<'t> {
    /// The words of this text.
    pub fn of(alloc: Global, text: &'t [u8]) -> Words<'t> {
        let mut words = Vec::new(alloc);
        let mut is_cut = false;
        let mut start = 0usize;
        for place in 0..text.len() {
            if is_word_octet(text[place]) {
                continue;
            }
            if start < place {
                if let Some(word) = text.get(start..place) {
                    is_cut = words.push(word).is_err() || is_cut;
                }
            }
            start = place + 1;
        }
        Words { words, is_cut }
    }

    /// Whether memory ran out.
    pub fn is_cut(&self) -> bool {
        self.is_cut
    }

    /// Whether a word is among them.
    pub fn has(&self, word: &[u8]) -> bool {
        for known in self.words.iter() {
            if *known == word {
                return true;
            }
        }
        false
    }
}

/// How a list of names is brought in.
#[derive(Clone, Copy)]
pub enum Style {
    /// By clauses.
    Clause,
    /// By code.
    Code,
}

// The names of one path.
#[derive(Drop)]
struct Group {
    path: &'static str,
    names: Text,
    count: usize,
}

impl Group {
    fn empty(alloc: Global, path: &'static str) -> Group {
        Group {
            path,
            names: Text::new(alloc),
            count: 0,
        }
    }

    fn put(&mut self, import: Import) {
        if self.count > 0 {
            self.names.say(", ");
        }
        self.names.say(import.name);
        if !import.given.is_empty() {
            self.names.say(" as ");
            self.names.say(import.given);
        }
        self.count = self.count.saturating_add(1);
    }

    // Whether the line is so long that the next name begins a line.
    fn is_full(&self, style: Style) -> bool {
        match style {
            Style::Clause => self.path.len().saturating_add(self.names.as_slice().len()) > 110,
            Style::Code => false,
        }
    }

    // Appends the line that brings the names in.
    fn write(&self, style: Style, out: &mut Text) {
        if self.count == 0 {
            return;
        }
        match style {
            Style::Clause => out.say("ghost use "),
            Style::Code => out.say("use "),
        }
        out.say(self.path);
        match style {
            Style::Clause => out.say(".{"),
            Style::Code if self.count == 1 => out.say("::"),
            Style::Code => out.say("::{"),
        }
        out.put(self.names.as_slice());
        match style {
            Style::Code if self.count == 1 => out.say(";\n"),
            _ => out.say("};\n"),
        }
    }
}

// What a name is called where it is brought in, and the word that brings it in.
#[derive(Clone, Copy)]
struct Import {
    name: &'static str,
    given: &'static str,
    word: &'static str,
    is_common: bool,
}

// A name of a table.
fn import_of(text: &'static str) -> Import {
    if let Some(name) = text.strip_prefix('*') {
        return Import {
            name,
            given: "",
            word: "",
            is_common: true,
        };
    }
    if let Some((name, given)) = text.split_once('=') {
        return Import {
            name,
            given,
            word: given,
            is_common: false,
        };
    }
    let (word, name) = text.split_once('>').unwrap_or((text, text));
    Import {
        name,
        given: "",
        word,
        is_common: false,
    }
}

// Adds the names of a line that are in a text.
fn add_names(
    alloc: Global,
    group: &mut Group,
    names: &'static str,
    style: Style,
    words: &Words<'_>,
    out: &mut Text,
) {
    for text in names.split(' ') {
        let import = import_of(text);
        if !import.is_common && !words.has(import.word.as_bytes()) {
            continue;
        }
        if group.is_full(style) {
            group.write(style, out);
            *group = Group::empty(alloc, group.path);
        }
        group.put(import);
    }
}

// Appends the lines that bring in the names of a table that are in a text.
fn put_table(alloc: Global, table: &'static str, style: Style, words: &Words<'_>, out: &mut Text) {
    let mut group = Group::empty(alloc, "");
    for line in table.lines() {
        let Some((path, names)) = line.split_once(": ") else {
            continue
        };
        if path != group.path {
            group.write(style, out);
            group = Group::empty(alloc, path);
        }
        add_names(alloc, &mut group, names, style, words, out);
    }
    group.write(style, out);
}

/// Appends the names in clauses that all sources have.
pub fn put_clause_table(alloc: Global, words: &Words<'_>, out: &mut Text) {
    put_table(alloc, CLAUSE_IMPORTS, Style::Clause, words, out);
}

/// Appends the names in code that all sources have.
pub fn put_code_table(alloc: Global, words: &Words<'_>, out: &mut Text) {
    put_table(alloc, CODE_IMPORTS, Style::Code, words, out);
}
