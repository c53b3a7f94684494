//! The mode that a callback sees.
//!
//! | Call | Returns |
//! |---|---|
//! | `mode` | the mode of the reader that parse_ber_general hands out |
//! | `seq_mode` | the mode of the parts in read_sequence |

use crate::text::Text;
use yasna::{ASN1Result, BERMode, BERReader, BERReaderSeq, parse_ber_general};

/// Appends what a call of this family returns on these bytes.
pub fn append_outcome(mode: BERMode, call: &str, bytes: &[u8], text: &mut Text) {
    let is_alone = call == "mode";
    let parsed = parse_ber_general(
        text.allocator(),
        bytes,
        mode,
        |reader| read(reader, is_alone),
    );
    match parsed {
        Ok(BERMode::Ber) => text.push("ok ber"),
        Ok(BERMode::Der) => text.push("ok der"),
        Ok(BERMode::Cer) => text.push("ok cer"),
        Err(error) => text.reject(error.kind()),
    }
}

// The mode of a reader, or of the parts of a SEQUENCE.
fn read(reader: BERReader, is_alone: bool) -> ASN1Result<BERMode> {
    if is_alone {
        Ok(reader.mode())
    } else {
        reader.read_sequence(mode_of_parts)
    }
}

// The mode of parts.
fn mode_of_parts(seq: &mut BERReaderSeq) -> ASN1Result<BERMode> {
    Ok(seq.mode())
}
