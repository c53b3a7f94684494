//! Numbers, bounds and sizes of a module, as those of the tables.

use asn1_types::model;
use asn1show_schema::schema::{Bounds, Number, Size};

/// A number of a module.
pub fn number_of(number: model::Integer) -> Number {
    Number {
        is_negative: number.is_negative,
        magnitude: number.magnitude,
    }
}

// A bound, if there is one.
fn bound_of(number: Option<model::Integer>) -> Option<Number> {
    match number {
        Some(number) => Some(number_of(number)),
        None => None,
    }
}

/// The bounds of an INTEGER.
pub fn bounds_of(bounds: model::IntegerBounds) -> Bounds {
    Bounds {
        low: bound_of(bounds.low),
        high: bound_of(bounds.high),
    }
}

/// A size.
pub fn size_of(size: model::Size) -> Size {
    Size {
        low: size.low,
        high: size.high,
    }
}

/// A number of 64 bits.
pub fn number_of_i64(number: i64) -> Number {
    Number {
        is_negative: number < 0,
        magnitude: number.unsigned_abs(),
    }
}
