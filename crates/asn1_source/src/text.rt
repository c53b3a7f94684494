//! A text that is written piece by piece, and that knows whether memory ran out.
ghost use Rattle.std.specs.Prelude.{◌≡◌, IfSome, IsSome, IsTrue, false};

use std::alloc::Global;

/// A text. After memory ran out it is cut off, and says so.
#[derive(Drop)]
pub struct Text {
    alloc: Global,
    bytes: Vec<u8>,
    is_cut: bool,
}

impl Text {
    /// An empty text.
    pub fn new(alloc: Global) -> Text {
        Text {
            alloc,
            bytes: Vec::new(alloc),
            is_cut: false,
        }
    }

    /// The allocator.
    pub fn alloc(&self) -> Global {
        self.alloc
    }

    /// Another text, which is empty.
    pub fn another(&self) -> Text {
        Text::new(self.alloc)
    }

    /// Appends octets.
    pub fn put(&mut self, octets: &[u8]) {
        if self.bytes.extend_from_slice(octets).is_err() {
            self.is_cut = true;
        }
    }

    /// Appends an octet.
    pub fn put_octet(&mut self, octet: u8) {
        if self.bytes.push(octet).is_err() {
            self.is_cut = true;
        }
    }

    /// Appends a term of a clause, and begins a line before a parenthesis if the one before is long. `start` is where the term begins in it.
    pub fn put_term(&mut self, term: &[u8], start: usize) {
        let mut column = start;
        for place in 0..term.len() {
            let octet = term[place];
            let is_parenthesis = match term.get(place + 1) {
                Some(next) => *next == b'(',
                None => false,
            };
            if octet == b' ' && is_parenthesis && column > 110 {
                self.say("\n        ");
                column = 8;
            } else {
                self.put_octet(octet);
                column = if octet == b'\n' {
                    0
                } else {
                    column.saturating_add(1)
                };
            }
        }
    }

    /// Appends a text.
    pub fn say(&mut self, text: &str) {
        self.put(text.as_bytes());
    }

    /// Appends a text as often as `count` says.
    pub fn repeat(&mut self, text: &str, count: usize) {
        for _ in 0..count {
            self.say(text);
        }
    }

    /// Appends a number in decimal digits.
    pub fn put_number(&mut self, number: u64) {
        match format!(in self.alloc; "{number}") {
            Ok(digits) => self.say(digits.as_str()),
            Err(_) => self.is_cut = true,
        }
    }

    /// Lets the text be cut off.
    pub fn cut(&mut self)
        ensures { IsTrue self.new.is_cut }
    {
        self.is_cut = true;
    }

    /// Whether it is cut off.
    pub fn is_cut(&self) -> bool {
        self.is_cut
    }

    /// Its octets.
    pub fn as_slice(&self) -> &[u8]
        ensures { result.now ≡ self.now.bytes.items }
    {
        self.bytes.as_slice()
    }

    /// Its octets, or `None` if memory ran out.
    pub fn finish(self) -> Option<Vec<u8>>
        ensures whole { IsSome result → self.is_cut ≡ false }
        ensures octets { IfSome result (λ octets. octets.items ≡ self.bytes.items) }
    {
        let Text { bytes, is_cut, .. } = self;
        if is_cut {
            return None;
        }
        Some(bytes)
    }
}
