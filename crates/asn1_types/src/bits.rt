//! The bits of a BIT STRING after DEFAULT (X.680, 22).

use crate::digits::{Bits, bits_of_item};
use crate::model::{DefaultValue, Size};
use crate::problem::Stop;
use crate::resolver::Resolver;
use crate::tokens::is;
use crate::values::value_through_names;
use asn1_syntax::Token;
use std::alloc::AllocError;

// How many bits the names of a default may be at most.
const MOST_BITS: usize = 1024;

// The position of the bit that has a name. The names of the type have this index.
fn position_of(r: &Resolver<'_>, names: Option<usize>, name: Token<'_>) -> Option<usize> {
    let all = r.named_numbers.get(names?)?;
    let named = all.items.iter().find(|named| is(name, named.name))?;
    match usize::try_from(named.number.magnitude) {
        Ok(position) if position < MOST_BITS && !named.number.is_negative => Some(position),
        _ => None,
    }
}

// Makes the bit at a position a one. Octets that are missing before it are zeros.
fn set_bit(octets: &mut Vec<u8>, position: usize) -> Result<(), AllocError> {
    for _ in octets.len()..=position / 8 {
        octets.push(0)?;
    }
    if let Some(octet) = octets.get_mut(position / 8) {
        *octet |= 128 >> (position % 8);
    }
    Ok(())
}

// The string in which the bits of these names are ones. `None` is any other list.
fn bits_of_names(
    r: &Resolver<'_>,
    names: Option<usize>,
    list: &[Token<'_>],
) -> Result<Option<Bits>, AllocError> {
    let mut octets = Vec::new(r.alloc);
    for (place, token) in list.iter().enumerate() {
        if place % 2 == 1 && is(*token, b",") {
            continue;
        }
        match position_of(r, names, *token) {
            Some(position) if place % 2 == 0 => set_bit(&mut octets, position)?,
            _ => return Ok(None),
        }
    }
    let count = octets.len().saturating_mul(8);
    Ok(Some(Bits { octets, count }))
}

// The bits of a value: a binary or hexadecimal string, or names in braces.
fn bits_of<'a>(
    r: &Resolver<'a>,
    module: usize,
    names: Option<usize>,
    value: &'a [Token<'a>],
) -> Result<Option<Bits>, AllocError> {
    let Some(named) = value_through_names(r.scope, module, value) else {
        return Ok(None);
    };
    match named.value {
        [item] => bits_of_item(r.alloc, *item),
        [open, list @ .., close] if is(*open, b"{") && is(*close, b"}") => {
            bits_of_names(r, names, list)
        }
        _ => Ok(None),
    }
}

// How many bits are left when the zeros at the end are removed.
fn bits_left(bits: &Bits) -> usize {
    let mut left = 0;
    for position in 0..bits.count {
        if let Some(octet) = bits.octets.get(position / 8)
            && octet & (128 >> (position % 8)) != 0
        {
            left = position + 1;
        }
    }
    left
}

/// The value of a BIT STRING without named bits.
pub fn plain_bits<'a>(
    r: &Resolver<'a>,
    module: usize,
    value: &'a [Token<'a>],
) -> Result<Option<DefaultValue<'a>>, Stop> {
    match bits_of(r, module, None, value)? {
        Some(Bits { octets, count }) => Ok(Some(DefaultValue::Bits(octets, count))),
        None => Ok(None),
    }
}

/// The value of a BIT STRING with named bits, whose names have this index. A size may ask for zeros at the end (X.680, 22.7): then there is none.
pub fn named_bits<'a>(
    r: &Resolver<'a>,
    module: usize,
    size: Size,
    names: Option<usize>,
    value: &'a [Token<'a>],
) -> Result<Option<DefaultValue<'a>>, Stop> {
    let Some(bits) = bits_of(r, module, names, value)? else {
        return Ok(None);
    };
    let count = bits_left(&bits);
    if size.low > count as u64 {
        return Ok(None);
    }
    let mut octets = bits.octets;
    octets.truncate(count.div_ceil(8));
    Ok(Some(DefaultValue::Bits(octets, count)))
}
