//! Octets and bits in hexadecimal, as X.680 writes them.
ghost use Rattle.std.specs.Prelude.{◌↔◌, IsTrue};
ghost use Rattle.yasna_base.specs.declared.mode.BERMode.TheVariants.{Ber, Der};
ghost use Rattle.asn1show_printer.specs.Contents.{AreBits};

use crate::line::LineBuffer;
use std::alloc::Global;

// So many octets are turned into text at once.
const PIECE: usize = 64;

/// Writes octets in hexadecimal digits.
pub fn write_digits(line: &mut LineBuffer, alloc: Global, piece: &[u8]) {
    match hex::encode_upper(alloc, piece) {
        Ok(digits) => line.write_str(&digits),
        Err(_) => line.fail_out_of_memory(),
    }
}

/// Writes octets in hexadecimal, cut to a number of digits.
pub fn write_octets(line: &mut LineBuffer, alloc: Global, octets: &[u8], width: usize) {
    let shown = octets.get(..width / 2).unwrap_or(octets);
    line.write_str("'");
    for piece in shown.chunks(PIECE) {
        write_digits(line, alloc, piece);
    }
    line.write_str(if shown.len() < octets.len() {
        "..'H"
    } else {
        "'H"
    })
}

/// Writes the contents of a BIT STRING: its octets, and how many bits of the last are unused.
pub fn write_bits(line: &mut LineBuffer, alloc: Global, contents: &[u8], width: usize) {
    let Some((unused, octets)) = contents.split_first() else {
        return write_octets(line, alloc, contents, width);
    };
    write_octets(line, alloc, octets, width);
    if *unused != 0 {
        write!(line, " less {unused} bits");
    }
}

/// Whether contents are those of a BIT STRING: a count of unused bits, and octets that have as many.
pub fn are_bits(contents: &[u8]) -> bool
    ensures { IsTrue result ↔ AreBits Ber contents.now }
{
    match contents {
        [] => false,
        [unused] => *unused == 0,
        [unused, ..] => *unused < 8,
    }
}

/// Whether the unused bits of a BIT STRING are zeros.
pub fn is_padding_clear(contents: &[u8]) -> bool
    ensures { AreBits Ber contents.now → (IsTrue result ↔ AreBits Der contents.now) }
{
    match contents {
        [unused, .., last] if *unused < 8 => *last % (1 << *unused) == 0,
        _ => true,
    }
}
