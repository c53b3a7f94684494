//! ASN.1 under BER, DER and CER: reading, writing in DER and CER, and types that do both.
//!
//! `decode_ber`, `decode_der`, `decode_cer`, `encode_der` and `encode_cer` read and write values of a type as a whole. `parse_ber`,
//! `parse_der`, `parse_cer`, `construct_der` and `construct_cer` hand a reader or a writer to a closure, which reads or writes
//! element by element.
//!
//! ```rust
//! use std::alloc::Global;
//! use yasna::{ASN1Result, Tag, construct_der, parse_der};
//!
//! // Report ::= SEQUENCE { readings SEQUENCE OF INTEGER, battery [0] EXPLICIT INTEGER OPTIONAL }
//! #[derive(Drop)]
//! pub struct Report {
//!     pub readings: Vec<i64>,
//!     pub battery: Option<u8>,
//! }
//!
//! pub fn decode_report(alloc: Global, bytes: &[u8]) -> ASN1Result<Report> {
//!     parse_der(alloc, bytes, |reader| {
//!         reader.read_sequence(|parts| {
//!             let readings = parts.next().collect_sequence_of(|item| item.read_i64())?;
//!             let battery = parts.read_optional(|part| {
//!                 part.read_tagged(Tag::context(0), |charge| charge.read_u8())
//!             })?;
//!             Ok(Report { readings, battery })
//!         })
//!     })
//! }
//!
//! pub fn encode_report(alloc: Global, report: &Report) -> ASN1Result<Vec<u8>> {
//!     construct_der(alloc, |writer| {
//!         writer.write_sequence(|parts| {
//!             parts.next().write_sequence_of(|items| -> ASN1Result<()> {
//!                 for reading in &report.readings {
//!                     items.next().write_i64(*reading)?;
//!                 }
//!                 Ok(())
//!             })?;
//!             match report.battery {
//!                 Some(charge) => parts
//!                     .next()
//!                     .write_tagged(Tag::context(0), |part| part.write_u8(charge)),
//!                 None => Ok(()),
//!             }
//!         })
//!     })
//! }
//! ```
//!
//! docs/GUIDE.md has more, by topic.
//!
//! | Module | Holds |
//! |---|---|
//! | `traits` | the traits of types that are read and written as a whole |
//! | `exact` | types of which only DER and CER have one encoding, and their laws |
//! | `shapes` | types that are read and written as another is, as a struct by the tuple of its fields |
//! | `whole` | whole inputs and outputs, and their laws for every type with the traits |
//! | `models` | object identifiers, times and raw elements |
//! | `law_functions` | the laws of the grammar, of the times and of sets |
//! | `sets` | the laws of SET OF values of every type with the traits |
//! | `primitive`, `strings`, `borrowed`, `oid`, `times`, `raw`, `lists`, `tuples` | the types that come with the crate |
#![tactic(auto)]

mod borrowed;
mod exact;
pub mod law_functions;
mod lists;
pub mod models;
mod oid;
mod primitive;
mod raw;
mod sets;
mod shapes;
mod strings;
mod times;
mod traits;
mod tuples;
mod whole;

pub use exact::{DERExact, one_der_encoding};
pub use sets::{set_of_is_read, set_of_is_written, set_of_sets_is_read};
pub use shapes::{EncodeShape, FromShape, Shaped};
pub use traits::{BERDecodable, DERCanonical, DEREncodable};
pub use tuples::{EncodableParts, InSequence, TupleParts};
pub use whole::{
    decode_ber, decode_ber_general, decode_cer, decode_der, encode_cer, encode_der, one_encoding,
    one_encoding_cer,
};
pub use yasna_base::error::{ASN1Error, ASN1ErrorKind, ASN1Result};
pub use yasna_base::mode::BERMode;
pub use yasna_base::tag::{PCBit, Tag, TagClass};
pub use yasna_base::tags;
pub use yasna_base::text::{is_numeric_text, is_printable_text, is_visible_text};
pub use yasna_reader::{
    BERReader, BERReaderSeq, BERReaderSet, Located, parse_ber, parse_ber_general,
    parse_ber_located, parse_cer, parse_cer_located, parse_der, parse_der_located, try_parse_ber,
    try_parse_cer, try_parse_der,
};
pub use yasna_writer::{
    DERWriter, DERWriterSeq, DERWriterSet, PrependBuffer, bigint_len, bitvec_len, bytes_len,
    construct_cer, construct_der, construct_der_seq, constructed_len, generalized_time_len,
    i64_len, oid_len, primitive_len, tagged_der_len, text_len, try_construct_der,
    try_construct_der_seq, u64_len, utctime_len,
};
