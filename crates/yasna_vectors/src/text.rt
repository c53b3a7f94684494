//! Results as text, which is made piece by piece.
ghost use Rattle.std.specs.Prelude.{◌≡◌, ◌++◌, OnOk, string_bytes};
ghost use Rattle.hex.specs.Hex.{encode_lower};

use std::alloc::{AllocError, Global};
use std::fmt::{Debug, Display};
use yasna::{ASN1ErrorKind, ASN1Result};

// Room for most results: with it a text allocates once, where each request is rejected in turn.
const ROOM: usize = 2_000;

/// The text of a result. Where there was no memory for a piece of it, that is known at its end.
#[derive(Drop)]
pub struct Text {
    pub text: String,
    pub out_of_memory: bool,
    /// Whether it says that there is no such call, or no such argument of it.
    pub is_unknown: bool,
}

impl Text {
    /// A text with nothing in it, nor memory for anything.
    pub fn new(alloc: Global) -> Text {
        Text {
            text: String::new(alloc),
            out_of_memory: false,
            is_unknown: false,
        }
    }

    /// A text with nothing in it, and memory for most results.
    pub fn with_room(alloc: Global) -> Text {
        let mut text = Text::new(alloc);
        let made = text.text.reserve(ROOM);
        text.note(made);
        text
    }

    /// Where its memory is from.
    pub fn allocator(&self) -> Global {
        *self.text.allocator()
    }

    // Notes whether there was memory for a piece.
    fn note(&mut self, made: Result<(), AllocError>) {
        if made.is_err() {
            self.out_of_memory = true;
        }
    }

    /// Appends a piece.
    pub fn push(&mut self, piece: &str) {
        let made = self.text.push_str(piece);
        self.note(made);
    }

    /// Appends a text, if there was memory for it.
    pub fn push_text(&mut self, other: &Text) {
        self.push(&other.text);
        self.out_of_memory = self.out_of_memory || other.out_of_memory;
    }

    /// Appends a value as Rust shows it.
    pub fn push_value<T: Display>(&mut self, value: &T) {
        let text = &mut self.text;
        let made = write!(text, "{value}");
        self.note(made);
    }

    /// Appends a value as Rust shows it for errors, with no spaces, no comma after a part that is alone, and a list in round
    /// brackets.
    pub fn push_plain<T: Debug>(value: &T, text: &mut Text) {
        match format!(in text.allocator(); "{value:?}") {
            Ok(shown) => text.push_rewritten(&shown),
            Err(_) => text.out_of_memory = true,
        }
    }

    // Appends what shows a value so.
    fn push_rewritten(&mut self, shown: &str) {
        for character in shown.chars() {
            let character = match character {
                ',' => continue,
                ' ' => ',',
                '[' => '(',
                ']' => ')',
                other => other,
            };
            let made = self.text.push(character);
            self.note(made);
        }
    }

    /// Appends bytes in hexadecimal.
    pub fn push_bytes(&mut self, bytes: &[u8]) {
        let made = push_digits(bytes, &mut self.text);
        self.note(made);
    }

    /// Appends what was written; where the write was rejected, that is the result.
    pub fn push_encoding(&mut self, encoding: ASN1Result<Vec<u8>>) {
        match encoding {
            Ok(encoding) => {
                self.push(if encoding.is_empty() { " -" } else { " " });
                self.push_bytes(&encoding);
            }
            Err(error) => self.reject(error.kind()),
        }
    }

    /// The result is this error.
    pub fn reject(&mut self, kind: ASN1ErrorKind) {
        self.text.clear();
        let text = &mut self.text;
        let made = write!(text, "err {kind:?}");
        self.note(made);
    }
}

// Appends bytes in hexadecimal.
fn push_digits(bytes: &[u8], text: &mut String) -> Result<(), AllocError>
    ensures { OnOk result (string_bytes text.new ≡ string_bytes text.old ++ encode_lower bytes.now) }
{
    let digits = hex::encode(*text.allocator(), bytes)?;
    text.push_str(digits.as_str())
}
