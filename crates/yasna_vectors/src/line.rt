//! What a line says.
ghost use Rattle.std.specs.Prelude.{◌≡◌, ◌≢◌, ◌++◌, ◌∷◌, IfSome, IfNone, IfOk, IsErr, codes, [], ◌⊎◌};
ghost use Rattle.std.specs.List.{before_first};
ghost use Rattle.yasna_vectors.specs.Words.{is_space, others, HasNoSpace};
ghost use Rattle.hex.specs.Hex.{decode_of};

use crate::names::named;
use crate::text::Text;
use hex::FromHexError;
use std::alloc::{AllocError, Global};
use yasna::BERMode;

// The rules to read by, by their names.
static MODES: [(&str, Option<BERMode>); 4] = [
    ("ber", Some(BERMode::Ber)),
    ("der", Some(BERMode::Der)),
    ("cer", Some(BERMode::Cer)),
    ("x", None),
];

/// A call, and what it is made on.
#[derive(Clone, Copy)]
pub struct Case<'a> {
    /// The rules to read by; none where nothing is read.
    pub mode: Option<BERMode>,
    pub call: &'a str,
    /// The second call in a SEQUENCE, after a `/`.
    pub second: Option<&'a str>,
    pub arg: &'a str,
    /// Whether the result says if a rejected read consumed something.
    pub marked: bool,
}

/// A call, and the result that is to come.
#[derive(Clone, Copy)]
pub struct VectorLine<'a> {
    pub case: Case<'a>,
    pub expected: &'a str,
}

/// Splits a text at the first space and at the next one.
pub fn three_words(text: &str) -> Option<(&str, &str, &str)>
    ensures words { IfSome result (λ w. text.now ≡ w.0.now ++ (32 ∷ (w.1.now ++ (32 ∷ w.2.now)))) }
    ensures first { IfSome result (λ w. w.0.now ≡ before_first is_space text.now) }
    ensures second { IfSome result (λ w. w.1.now ≡ before_first is_space (others text.now)) }
    ensures none { IfNone result (HasNoSpace text.now ⊎ HasNoSpace (others text.now)) }
{
    let Some((first, others)) = text.split_once(' ') else {
        return None;
    };
    match others.split_once(' ') {
        Some((second, third)) => Some((first, second, third)),
        None => None,
    }
}

impl<'a> Case<'a> {
    /// The case of a line `MODE CALL ARG`.
    pub fn parse(text: &'a str, marked: bool) -> Option<Case<'a>> {
        let Some((mode, name, arg)) = three_words(text) else {
            return None;
        };
        let Some(mode) = named(&MODES, mode) else {
            return None;
        };
        let (call, second) = match name.split_once('/') {
            Some((call, second)) => (call, Some(second)),
            None => (name, None),
        };
        Some(Case {
            mode,
            call,
            second,
            arg,
            marked,
        })
    }

    /// Whether bytes are read, and the argument is these: some calls make the bytes themselves, as many as it says.
    pub fn takes_bytes(self) -> bool {
        self.mode.is_some()
            && !matches!(self.call, "whole" | "cut" | "seqof_many")
            && !self.call.starts_with("thrown:")
            && !self.call.starts_with("refused:")
    }

    /// The word for the rules to read by.
    pub fn mode_name(self) -> &'static str {
        match self.mode {
            Some(BERMode::Ber) => "ber",
            Some(BERMode::Der) => "der",
            Some(BERMode::Cer) => "cer",
            None => "x",
        }
    }

    /// Appends the case, as a line has it.
    pub fn show(self, text: &mut Text) {
        text.push(self.mode_name());
        text.push(" ");
        text.push(self.call);
        text.push(" ");
        text.push(self.arg);
    }

    /// The bytes that the argument represents, if it is such a text: pieces with `+` between them, each in hexadecimal, with
    /// `*` and a number after it where it is so many times. Without memory for them, that is noted in a result.
    pub fn bytes(self, came: &mut Text) -> Option<Vec<u8>> {
        let mut bytes = Vec::new(came.allocator());
        for piece in self.arg.split('+') {
            if !append(&mut bytes, piece, came) {
                return None;
            }
        }
        Some(bytes)
    }
}

// Appends a piece as often as it is, if it is one; without memory for it, that is noted in a result.
fn append(bytes: &mut Vec<u8>, piece: &str, came: &mut Text) -> bool {
    let (text, times) = match piece.split_once('*') {
        Some((text, times)) => (text, times.parse()),
        None => (piece, Ok(1u64)),
    };
    let (Some(piece), Ok(times)) = (octets(text, came), times) else {
        return false;
    };
    for _ in 0..times {
        if bytes.extend_from_slice(&piece).is_err() {
            came.out_of_memory = true;
            return false;
        }
    }
    true
}

impl<'a> VectorLine<'a> {
    /// The line `MODE CALL ARG => ANSWER`.
    pub fn parse(text: &'a str) -> Option<VectorLine<'a>> {
        let Some((call, expected)) = text.split_once(" => ") else {
            return None;
        };
        match Case::parse(call, expected.ends_with("consumed")) {
            Some(case) => Some(VectorLine { case, expected }),
            None => None,
        }
    }
}

/// Whether this came where that is wanted: pieces with `+` between them, with `*` and a number after one that is so many
/// times.
pub fn is_outcome(came: &str, expected: &str) -> bool {
    let mut others = came;
    for piece in expected.split('+') {
        let (text, times) = match piece.split_once('*') {
            Some((text, times)) => (text, times.parse().unwrap_or(0)),
            None => (piece, 1u64),
        };
        for _ in 0..times {
            match others.strip_prefix(text) {
                Some(after) => others = after,
                None => return false,
            }
        }
    }
    others.is_empty()
}

// The bytes that a text in hexadecimal represents, `-` for none.
fn bytes_of(alloc: Global, text: &str) -> Option<Result<Vec<u8>, AllocError>>
    ensures bytes { text.now ≢ codes "-" → IfSome result (λ found. IfOk found (λ bytes. decode_of text.now ≡ Ok bytes.items)) }
    ensures dash { text.now ≡ codes "-" → IfSome result (λ found. IfOk found (λ bytes. bytes.items ≡ [])) }
    ensures none { IfNone result (IsErr (decode_of text.now)) }
{
    if text == "-" {
        return Some(Ok(Vec::new(alloc)));
    }
    match hex::decode(alloc, text) {
        Ok(bytes) => Some(Ok(bytes)),
        Err(FromHexError::OutOfMemory) => Some(Err(AllocError)),
        Err(_) => None,
    }
}

/// The bytes that a text in hexadecimal represents, `-` for none, if it is such a text; without memory for them, that is noted in a
/// result.
pub fn octets(text: &str, came: &mut Text) -> Option<Vec<u8>> {
    match bytes_of(came.allocator(), text) {
        Some(Ok(bytes)) => Some(bytes),
        Some(Err(_)) => {
            came.out_of_memory = true;
            None
        }
        None => None,
    }
}
