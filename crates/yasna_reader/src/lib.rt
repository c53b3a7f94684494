//! Reading BER, DER and CER.
//!
//! Bytes come in at `parse`. `state` holds the place of a reading, its mode and its sticky error.
//!
//! Names distinguish the layers. Users call `read_..`, which returns a sticky error, and else parses what is next: `parse_..`, or what
//! a string is read as (`octets`, `bits`, `judged`), takes a value from the bytes by `yasna_bytes`, and changes nothing. `commit` then
//! consumes these bytes, or makes the error sticky. An element with parts is entered by `step_in` and left by `leave`. A callback is
//! handed the reading by `hand..`, which takes it back by `take_back`.
//!
//! | Module | Holds |
//! |---|---|
//! | `parse` | parses of whole inputs |
//! | `located` | parses of whole inputs that return the place of an error |
//! | `state` | the state of a reading, and what the calls on it share |
//! | `primitive` | reads of BOOLEAN, NULL, INTEGER, ENUMERATED and OBJECT IDENTIFIER |
//! | `strings` | reads of OCTET STRING, BIT STRING and character strings |
//! | `raw` | reads of raw elements |
//! | `times` | reads of UTCTime and GeneralizedTime |
//! | `sequence` | reads of constructed elements whose contents a callback reads |
//! | `sequence_of` | reads of lists, whose elements a callback reads one by one |
//! | `set_of` | reads of lists whose elements ascend in DER and CER |
//! | `set` | reads of sets, whose elements a callback takes by their tags |
//! | `set_optional` | reads of elements of a set that may be omitted |
//! | `place` | where in the input a reading is |
//! | `callback` | how a reading is handed to a callback and taken back |
//! | `tagged` | reads under explicit and implicit tags |
//! | `optional` | reads of parts that may be omitted |
//! | `buffer` | reads that also return the bytes that they consumed |
//! | `lookahead` | the next tag |
//! | `at_end` | where contents end |
//! | `laws` | laws of the readings that callbacks are handed |
#![tactic(auto)]

mod at_end;
mod buffer;
mod callback;
pub mod laws;
mod located;
mod lookahead;
mod optional;
mod parse;
mod place;
mod primitive;
mod raw;
mod sequence;
mod sequence_of;
mod set;
mod set_of;
mod set_optional;
mod state;
mod strings;
mod tagged;
mod times;

pub use located::{Located, parse_ber_located, parse_cer_located, parse_der_located};
pub use parse::{
    parse_ber, parse_ber_general, parse_cer, parse_der, try_parse_ber, try_parse_cer, try_parse_der,
};
pub use set::{BERReaderSet, Choose, Chosen, SetElement};
pub use state::{BERReader, BERReaderSeq, PartsReader, ReaderState};
