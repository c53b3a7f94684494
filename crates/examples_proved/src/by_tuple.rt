//! A user's type that is read and written as a tuple.

use yasna::{ASN1Result, DEREncodable, DERWriter, EncodeShape, FromShape, Shaped};

/// A number, and whether it counts: a SEQUENCE of INTEGER and BOOLEAN.
#[derive(Drop)]
pub struct Measurement {
    pub number: i64,
    pub valid: bool,
}

impl Shaped for Measurement {
    type Shape = (i64, bool);

    ghost shape_of = { λ v. (v.number, v.valid) };
}

impl FromShape for Measurement {
    fn from_shape((number, valid): Self::Shape) -> Measurement {
        Measurement { number, valid }
    }
}

impl EncodeShape for Measurement {
    fn encode_shape(&self, writer: DERWriter<'_>) -> ASN1Result<()> {
        (self.number, self.valid).encode_der(writer)
    }
}
