//! Strings whose octets encode a value: character strings (X.680, 41; X.690, 8.23).
//!
//! The octets of one primitive element are validated in place. Those of segments are joined first.
ghost use Rattle.std.specs.Prelude.{◌≡◌, ◌≤◌, ◌<◌, ◌+◌, ◌*◌, ℕ, List, [], ◌∷◌, length, IsTrue, ◌↔◌, IfOk, MatchResult, string_bytes};
ghost use Rattle.std.specs.Char.Utf16.{utf16_lossy_chars};
ghost use Rattle.std.specs.Str.{encode_utf8_all};
ghost use Rattle.yasna_base.specs.Text.{characters, units};
ghost use Rattle.yasna_base.specs.declared.error.ASN1ErrorKind.TheVariants.{OutOfMemory};
ghost use Rattle.yasna_base.specs.declared.mode.BERMode.{BERMode};
ghost use Rattle.yasna_bytes.specs.Text.{Judges, JudgedAt, SpellsText, MayHold, Utf8At};

use crate::bytes::cursor::Cursor;
use crate::bytes::header::{Rejection, reject};
use crate::bytes::segments::{octet_string, whole_octets};
use simdutf8::basic::from_utf8;
use std::alloc::{AllocError, Global};
use yasna_base::error::ASN1ErrorKind;
use yasna_base::mode::BERMode;
use yasna_base::tag::Tag;
use yasna_base::text::{is_ia5, is_numeric, is_printable, is_visible};

/// How the octets of a string are validated.
pub trait Judge: Sized + Copy {
    type Value: Drop;

    // What contracts see of such values, and which values octets encode in a mode.
    ghost Seen: { Type 0 };

    ghost view: { Self.Value → Seen };

    ghost encodes: { Self → BERMode → Seen → List ℕ → Type 0 };

    /// The value that these octets encode in this mode.
    fn judge(
        self,
        alloc: Global,
        mode: BERMode,
        octets: &[u8],
    ) -> Result<Self::Value, ASN1ErrorKind>
        ensures { Judges (encodes self mode) view octets.now result };

    /// As `judge`, of octets that were joined from segments, in memory that the value may keep.
    #[inline(always)]
    fn judge_joined(
        self,
        alloc: Global,
        mode: BERMode,
        octets: Vec<u8>,
    ) -> Result<Self::Value, ASN1ErrorKind>
        ensures { Judges (encodes self mode) view octets.items result }
    {
        self.judge(alloc, mode, octets.as_slice())
    }
}

/// Reads a string with this tag, and returns the value of its octets and the rest.
#[inline(always)]
pub fn string_of<'a, J: Judge>(
    alloc: Global,
    cursor: Cursor<'a>,
    tag: Tag,
    judge: J,
) -> Result<(J::Value, &'a [u8]), Rejection>
    ensures { JudgedAt (J.encodes judge) J.view cursor.entry.levels cursor.entry.mode tag cursor.entry.left.now result }
{
    match whole_octets(cursor, tag) {
        Ok(Some((octets, rest))) => match judge.judge(alloc, cursor.mode, octets) {
            Ok(value) => Ok((value, rest)),
            Err(kind) => Err(reject(kind, true)),
        },
        Ok(None) => joined_of(alloc, cursor, tag, judge),
        Err(rejection) => Err(rejection),
    }
}

// As `string_of`, but joins the octets in any case.
#[inline(never)]
fn joined_of<'a, J: Judge>(
    alloc: Global,
    cursor: Cursor<'a>,
    tag: Tag,
    judge: J,
) -> Result<(J::Value, &'a [u8]), Rejection>
    ensures { JudgedAt (J.encodes judge) J.view cursor.entry.levels cursor.entry.mode tag cursor.entry.left.now result }
{
    let (octets, rest) = match octet_string(alloc, cursor, tag) {
        Ok(string) => string,
        Err(rejection) => return Err(rejection),
    };
    match judge.judge_joined(alloc, cursor.mode, octets) {
        Ok(value) => Ok((value, rest)),
        Err(kind) => Err(reject(kind, true)),
    }
}

/// A class of character strings.
#[derive(Clone, Copy, Drop)]
pub enum Class {
    Utf8,
    Numeric,
    Printable,
    Ia5,
    Visible,
    Bmp,
}

impl Class {
    ghost use Rattle.std.specs.Prelude.{IsTrue, ◌↔◌};
    ghost use Rattle.yasna_bytes.specs.Text.{MayHold};

    // Whether the octets, or their number, are what the class requires.
    #[inline(always)]
    fn may_hold(self, octets: &[u8]) -> bool
        ensures { IsTrue result ↔ MayHold self octets.now }
    {
        match self {
            Class::Utf8 => true,
            Class::Numeric => is_numeric(octets),
            Class::Printable => is_printable(octets),
            Class::Ia5 => is_ia5(octets),
            Class::Visible => is_visible(octets),
            Class::Bmp => octets.len() % 2 == 0,
        }
    }
}

// A unit of UTF-16, its high octet first.
#[inline(always)]
fn unit_of(high: u8, low: u8) -> u16
    ensures { result ≡ 256 * high + low }
{
    u16::from(high) * 256 + u16::from(low)
}

// The character at the start of UTF-16, this unit and the octets after it, and the octets after the character.
#[inline(always)]
fn character_of(unit: u16, trailing: &[u8]) -> (char, &[u8])
    ensures spelled { utf16_lossy_chars (unit ∷ units trailing.now) ≡ result.0 ∷ utf16_lossy_chars (units result.1.now) }
    ensures shorter { length result.1.now ≤ length trailing.now }
{
    match char::from_u32(u32::from(unit)) {
        Some(character) => (character, trailing),
        None => character_of_surrogate(unit, trailing),
    }
}

// The character that a surrogate begins: with its partner, or U+FFFD without one; and the octets after it.
#[inline(never)]
fn character_of_surrogate(unit: u16, trailing: &[u8]) -> (char, &[u8])
    requires { (0xD800 ≤ unit) × (unit < 0xE000) }
    ensures spelled { utf16_lossy_chars (unit ∷ units trailing.now) ≡ result.0 ∷ utf16_lossy_chars (units result.1.now) }
    ensures shorter { length result.1.now ≤ length trailing.now }
{
    if let [high, low, rest @ ..] = trailing {
        let partner = unit_of(*high, *low);
        if unit < 0xDC00 && 0xDC00 <= partner && partner < 0xE000 {
            let code = 0x1_0000
                + (u32::from(unit) - 0xD800) * 0x400
                + (u32::from(partner) - 0xDC00);
            return (char::from_u32(code).unwrap_or('\u{FFFD}'), rest);
        }
    }
    ('\u{FFFD}', trailing)
}

// The text in UTF-16, with U+FFFD for each surrogate that has no partner.
fn text_of_units(alloc: Global, octets: &[u8]) -> Result<String, AllocError>
    ensures { IfOk result (λ text. string_bytes text ≡ encode_utf8_all (utf16_lossy_chars (units octets.now))) }
{
    let mut text = String::with_capacity(alloc, octets.len() / 2)?;
    let mut rest = octets;
    while let [high, low, trailing @ ..] = rest {
        let (character, after) = character_of(unit_of(*high, *low), trailing);
        text.push(character)?;
        rest = after;
    }
    Ok(text)
}

// The text in UTF-16, as `text_of_units`, or `OutOfMemory`. An empty text doesn't allocate.
#[inline(never)]
fn utf16_text(alloc: Global, octets: &[u8]) -> Result<String, ASN1ErrorKind>
    ensures { MatchResult result (λ text. characters text ≡ utf16_lossy_chars (units octets.now)) (λ kind. (kind ≡ OutOfMemory) × (octets.now ≡ [] → ⊥)) }
{
    if octets.is_empty() {
        return Ok(String::new(alloc));
    }
    match text_of_units(alloc, octets) {
        Ok(text) => Ok(text),
        Err(_) => Err(ASN1ErrorKind::OutOfMemory),
    }
}

// The text in UTF-8, in a copy of the octets.
#[inline(always)]
fn utf8_text(alloc: Global, octets: &[u8]) -> Result<String, ASN1ErrorKind>
    ensures { Utf8At octets.now result }
{
    if octets.is_empty() {
        return Ok(String::new(alloc));
    }
    let Ok(text) = from_utf8(octets) else {
        return Err(ASN1ErrorKind::Invalid);
    };
    match String::from_str(alloc, text) {
        Ok(text) => Ok(text),
        Err(_) => Err(ASN1ErrorKind::OutOfMemory),
    }
}

// The text in UTF-8, in the octets' own memory.
#[inline(always)]
fn joined_text(octets: Vec<u8>) -> Result<String, ASN1ErrorKind>
    ensures { Utf8At octets.items result }
{
    match String::from_utf8(octets) {
        Ok(text) => Ok(text),
        Err(_) => Err(ASN1ErrorKind::Invalid),
    }
}

impl Judge for Class {
    type Value = String;

    ghost Seen = { List ℕ };

    ghost view = { characters };

    ghost encodes = { SpellsText };

    #[inline(always)]
    fn judge(self, alloc: Global, _mode: BERMode, octets: &[u8]) -> Result<String, ASN1ErrorKind> {
        if !self.may_hold(octets) {
            return Err(ASN1ErrorKind::Invalid);
        }
        match self {
            Class::Bmp => utf16_text(alloc, octets),
            _ => utf8_text(alloc, octets),
        }
    }

    #[inline(always)]
    fn judge_joined(
        self,
        alloc: Global,
        _mode: BERMode,
        octets: Vec<u8>,
    ) -> Result<String, ASN1ErrorKind> {
        if !self.may_hold(octets.as_slice()) {
            return Err(ASN1ErrorKind::Invalid);
        }
        match self {
            Class::Bmp => utf16_text(alloc, octets.as_slice()),
            _ => joined_text(octets),
        }
    }
}
