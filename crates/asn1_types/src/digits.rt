//! Binary and hexadecimal strings (X.680, 12.10 and 12.12).

use asn1_syntax::{Token, TokenKind};
use std::alloc::{AllocError, Global};

/// The bits of digits.
#[derive(Drop)]
pub struct Bits {
    /// Their octets, the first bit of an octet being its highest. The unused bits of the last one are zeros.
    pub octets: Vec<u8>,
    /// How many bits there are.
    pub count: usize,
}

// How digits are written: their base, how many make an octet, and how many bits each is.
#[derive(Clone, Copy)]
struct Base {
    base: u16,
    whole: usize,
    width: usize,
}

const BINARY: Base = Base {
    base: 2,
    whole: 8,
    width: 1,
};

const HEXADECIMAL: Base = Base {
    base: 16,
    whole: 2,
    width: 4,
};

// The number that a digit is.
fn digit(c: u8) -> Option<u16> {
    match c {
        b'0'..=b'9' => Some(u16::from(c - b'0')),
        b'A'..=b'F' => Some(u16::from(c - b'A') + 10),
        _ => None,
    }
}

// The octet of a number of so many digits, and zeros after them.
fn filled(base: Base, number: u16, count: usize) -> u8 {
    let mut octet = number;
    for _ in count..base.whole {
        octet = octet.saturating_mul(base.base);
    }
    (octet & 255) as u8
}

// The bits of digits. White space may be between them.
fn bits_of_digits(alloc: Global, base: Base, digits: &[u8]) -> Result<Bits, AllocError> {
    let mut octets = Vec::new(alloc);
    let mut number = 0u16;
    let mut count = 0usize;
    let mut all = 0usize;
    for c in digits {
        let Some(next) = digit(*c) else { continue };
        number = number.saturating_mul(base.base).saturating_add(next);
        count = count.saturating_add(1);
        all = all.saturating_add(base.width);
        if count == base.whole {
            octets.push((number & 255) as u8)?;
            number = 0;
            count = 0;
        }
    }
    if count > 0 {
        octets.push(filled(base, number, count))?;
    }
    Ok(Bits { octets, count: all })
}

/// The bits of a binary or hexadecimal string. `None` is another lexical item.
pub fn bits_of_item(alloc: Global, item: Token<'_>) -> Result<Option<Bits>, AllocError> {
    match (item.kind, item.text) {
        (TokenKind::BString, [_, digits @ .., _, _]) => {
            Ok(Some(bits_of_digits(alloc, BINARY, digits)?))
        }
        (TokenKind::HString, [_, digits @ .., _, _]) => {
            Ok(Some(bits_of_digits(alloc, HEXADECIMAL, digits)?))
        }
        _ => Ok(None),
    }
}
