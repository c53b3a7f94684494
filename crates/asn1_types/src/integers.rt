//! The order of integers, and bounds.

use crate::model::{Integer, IntegerBounds, Size};

/// Bounds that hold of each integer.
pub const UNBOUNDED: IntegerBounds = IntegerBounds {
    low: None,
    high: None,
};

/// A size that each value has.
pub const ANY_SIZE: Size = Size { low: 0, high: None };

/// Whether an integer is less than another one.
pub fn is_less(a: Integer, b: Integer) -> bool {
    match (a.is_negative, b.is_negative) {
        (true, false) => true,
        (false, true) => false,
        (false, false) => a.magnitude < b.magnitude,
        (true, true) => b.magnitude < a.magnitude,
    }
}

// The lower of two lower bounds, where `None` is MIN.
fn lower(a: Option<Integer>, b: Option<Integer>) -> Option<Integer> {
    let (a, b) = (a?, b?);
    Some(if is_less(a, b) { a } else { b })
}

// The higher of two upper bounds, where `None` is MAX.
fn higher(a: Option<Integer>, b: Option<Integer>) -> Option<Integer> {
    let (a, b) = (a?, b?);
    Some(if is_less(a, b) { b } else { a })
}

/// The least bounds that hold of all integers that one of two bounds holds of.
pub fn hull(a: IntegerBounds, b: IntegerBounds) -> IntegerBounds {
    IntegerBounds {
        low: lower(a.low, b.low),
        high: higher(a.high, b.high),
    }
}

// The higher of two lower bounds.
fn narrower_low(a: Option<Integer>, b: Option<Integer>) -> Option<Integer> {
    match (a, b) {
        (Some(a), Some(b)) => Some(if is_less(a, b) { b } else { a }),
        (Some(a), None) => Some(a),
        (None, b) => b,
    }
}

// The lower of two upper bounds.
fn narrower_high(a: Option<Integer>, b: Option<Integer>) -> Option<Integer> {
    match (a, b) {
        (Some(a), Some(b)) => Some(if is_less(a, b) { a } else { b }),
        (Some(a), None) => Some(a),
        (None, b) => b,
    }
}

/// The bounds of the integers that two bounds hold of.
pub fn both_bounds(a: IntegerBounds, b: IntegerBounds) -> IntegerBounds {
    IntegerBounds {
        low: narrower_low(a.low, b.low),
        high: narrower_high(a.high, b.high),
    }
}

/// The sizes that two sizes allow.
pub fn both_sizes(a: Size, b: Size) -> Size {
    let high = match (a.high, b.high) {
        (Some(a), Some(b)) => Some(a.min(b)),
        (Some(a), None) => Some(a),
        (None, b) => b,
    };
    Size {
        low: a.low.max(b.low),
        high,
    }
}

// Whether an integer is the next one after another.
fn is_next(a: Integer, b: Integer) -> bool {
    if a.is_negative {
        return if b.is_negative {
            b.magnitude.checked_add(1) == Some(a.magnitude)
        } else {
            a.magnitude == 1 && b.magnitude == 0
        };
    }
    !b.is_negative && a.magnitude.checked_add(1) == Some(b.magnitude)
}

/// Whether the second bounds begin right after the first ones end, or inside them.
pub fn joins(a: IntegerBounds, b: IntegerBounds) -> bool {
    match (a.high, b.low) {
        (Some(high), Some(low)) => is_next(high, low) || !is_less(high, low),
        _ => true,
    }
}

/// The size that bounds of a number allow, if the number is not negative.
pub fn size_of(bounds: IntegerBounds) -> Option<Size> {
    let low = match bounds.low {
        Some(low) if low.is_negative => return None,
        Some(low) => low.magnitude,
        None => 0,
    };
    match bounds.high {
        Some(high) if high.is_negative => None,
        Some(high) => Some(Size {
            low,
            high: Some(high.magnitude),
        }),
        None => Some(Size { low, high: None }),
    }
}
