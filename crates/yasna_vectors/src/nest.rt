//! SEQUENCEs one in the other, around an INTEGER.
//!
//! | Read | How many | Shown |
//! |---|---|---|
//! | by `nestN` | N | the number |
//! | by `rec` | as many as there are: where the next tag is that of a SEQUENCE it goes on inside, and else reads the INTEGER | the number, with a pair of brackets for each |
ghost use Rattle.yasna.specs.reader.State.{IsFresh, part_of};

use crate::text::Text;
use yasna::tags::TAG_SEQUENCE;
use yasna::{ASN1Result, BERReader, DERWriter};

/// How many SEQUENCEs there are, and the number within.
#[derive(Clone, Copy)]
pub struct Nested {
    pub depth: u8,
    pub number: i64,
    /// How many pairs of brackets are shown.
    pub brackets: u8,
}

impl Nested {
    /// Appends the number to a text.
    pub fn show(self, text: &mut Text) {
        for _ in 0..self.brackets {
            text.push("(");
        }
        text.push_value(&self.number);
        for _ in 0..self.brackets {
            text.push(")");
        }
    }
}

/// Reads the number within so many SEQUENCEs.
pub fn read_within(reader: BERReader, depth: u8) -> ASN1Result<i64> {
    match depth.checked_sub(1) {
        None => reader.read_i64(),
        Some(below) => reader.read_sequence(|seq| read_within(seq.next(), below)),
    }
}

/// Reads as many SEQUENCEs as there are.
pub fn read_nests(reader: BERReader) -> ASN1Result<Nested> {
    if reader.lookahead_tag()? != TAG_SEQUENCE {
        let number = reader.read_i64()?;
        return Ok(Nested {
            depth: 0,
            number,
            brackets: 0,
        });
    }
    reader.read_sequence(
        |seq| -> ASN1Result<Nested>
            requires { IsFresh (part_of seq.old) }
        {
            let inner = read_nests(seq.next())?;
            let depth = inner.depth.saturating_add(1);
            Ok(Nested {
                depth,
                number: inner.number,
                brackets: depth,
            })
        },
    )
}

/// Writes so many SEQUENCEs around a number.
pub fn write_within(writer: DERWriter<'_>, depth: u8, number: i64) -> ASN1Result<()> {
    match depth.checked_sub(1) {
        None => writer.write_i64(number),
        Some(below) => writer.write_sequence(|seq| write_within(seq.next(), below, number)),
    }
}
