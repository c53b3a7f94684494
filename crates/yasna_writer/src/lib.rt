//! Writing by ASN.1's distinguished and canonical encoding rules, DER and CER (X.690, clauses 8 to 11).
//!
//! A writing begins in `construct_der` and its kin, or `construct_cer`, which hand a writer to a closure and return the bytes that it wrote.
//!
//! Names distinguish the layers. Users call `write_..`, which returns a sticky error, and else takes the implicit tag. It calls
//! `append_..` of the writer, which makes `OutOfMemory` sticky, and that `add_..` of its buffer. `push_..` appends bytes to a vector.
//! A header is identifier and length octets (X.690, 8.1.2 and 8.1.3), an indefinite one those of indefinite length (8.1.3.6).
//!
//! | Module | Holds |
//! |---|---|
//! | `construct` | the calls that begin a writing and end it |
//! | `state` | the writer: a buffer, the implicit tag, the sticky error |
//! | `primitive` | the writes of elements without parts |
//! | `strings` | the writes of strings |
//! | `segments` | long strings of CER, cut into segments |
//! | `oid` | the write of an object identifier |
//! | `raw` | the writes of raw elements |
//! | `times` | the writes of times |
//! | `sequence` | the writes of elements with parts |
//! | `set` | the writes of sets, whose parts are put in order |
//! | `ordered_part` | the parts of a SET OF, in the order of their bytes |
//! | `tagged_part` | the parts of a SET, in the order of their tags |
//! | `tagged` | the writes of elements under explicit and implicit tags |
//! | `buffer` | contents, and the headers that aren't among them yet |
//! | `join` | contents and headers joined |
//! | `header` | the header of an element |
//! | `identifier`, `length` | identifier and length octets |
//! | `integer` | the fewest bytes of a number |
//! | `prepend_buffer` | a buffer that grows at its front, into which values are written from their last byte to their first |
//! | `prepend`, `prepend_strings` | the elements that are prepended to it |
//! | `order_parts` | the parts of a SET OF in it, put in order |
//! | `encoded_len` | the length of an encoding, without making it |
#![tactic(auto)]

mod bmp;
mod buffer;
mod construct;
mod encoded_len;
mod header;
mod identifier;
mod integer;
mod join;
mod length;
mod oid;
mod order_parts;
mod ordered_part;
mod prepend;
mod prepend_buffer;
mod prepend_strings;
mod primitive;
mod raw;
mod segments;
mod sequence;
mod set;
mod slots;
mod state;
mod strings;
mod tagged;
mod tagged_part;
mod times;

pub use construct::{
    construct_cer, construct_der, construct_der_seq, try_construct_der, try_construct_der_seq,
};
pub use encoded_len::{
    bigint_len, bitvec_len, bytes_len, constructed_len, generalized_time_len, i64_len, oid_len,
    primitive_len, tagged_der_len, text_len, u64_len, utctime_len,
};
pub use prepend_buffer::PrependBuffer;
pub use sequence::DERWriterSeq;
pub use set::DERWriterSet;
pub use state::{DERWriter, Writer};
