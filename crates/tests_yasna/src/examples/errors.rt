//! Errors.

use yasna::{ASN1Error, ASN1ErrorKind};

pub fn reason(error: ASN1Error) -> &'static str {
    match error.kind() {
        ASN1ErrorKind::Eof => "an element is cut off or missing",
        ASN1ErrorKind::Extra => "bytes are left over",
        ASN1ErrorKind::IntegerOverflow => "a number is too large for its type",
        ASN1ErrorKind::StackOverflow => "elements nest more than 101 deep",
        ASN1ErrorKind::Invalid => "another tag, or an encoding that isn't allowed",
        ASN1ErrorKind::OutOfMemory => "memory ran out",
    }
}
