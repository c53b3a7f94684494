//! The octets of an element beside its line.
ghost use Rattle.std.specs.Prelude.{◌≡◌, drop, min, take, MatchOption, ⊤};
ghost use Rattle.asn1show_printer.specs.Dump.{longest_dump, own_len};

use crate::line::LineBuffer;
use crate::value::write_digits;
use asn1show_walk::Item;
use std::alloc::Global;
use yasna_base::tag::PCBit;

// The most octets that are beside a line.
const LONGEST: usize = 8;

// The columns of the octets: two digits for each, a space after the header, two dots and a space.
const COLUMNS: usize = 2 * LONGEST + 4;

/// The count of octets of an element that no other line has: those of the header, and of primitive contents.
pub fn own_len(item: &Item<'_>) -> usize
    ensures { result ≡ own_len item.now }
{
    match item.bit {
        PCBit::Primitive => item.header + item.contents.len(),
        PCBit::Constructed => item.header,
    }
}

/// The octets that are beside the line of an element of an input: the first ones of its own.
pub fn octets_of<'a>(input: &'a [u8], item: &Item<'_>) -> Option<&'a [u8]>
    ensures { MatchOption result ⊤ (λ octets. octets.now ≡ take (min longest_dump (own_len item.now)) (drop item.now.offset input.now)) }
{
    let (octets, _) = input
        .get(item.offset..)?
        .split_at_checked(LONGEST.min(own_len(item)))?;
    Some(octets)
}

// Writes octets, with a space after those of the header, and returns the count of columns.
fn write_octets(line: &mut LineBuffer, alloc: Global, octets: &[u8], header: usize) -> usize {
    let Some((head, contents)) = octets.split_at_checked(header) else {
        write_digits(line, alloc, octets);
        return 2 * octets.len().min(LONGEST);
    };
    write_digits(line, alloc, head);
    line.write_str(" ");
    write_digits(line, alloc, contents);
    2 * octets.len().min(LONGEST) + 1
}

/// Writes the octets that are beside the line of an element of an input, and dots if it has more.
pub fn write_dump(line: &mut LineBuffer, alloc: Global, input: &[u8], item: &Item<'_>) {
    let octets = octets_of(input, item).unwrap_or(&[]);
    let count = write_octets(line, alloc, octets, item.header);
    let dots = if octets.len() < own_len(item) {
        ".."
    } else {
        ""
    };
    let columns = COLUMNS.saturating_sub(count);
    write!(line, "{dots:<columns$}");
}
