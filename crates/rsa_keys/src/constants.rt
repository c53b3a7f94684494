//! Named numbers, named bits and values of the modules. An object identifier is its arcs.

/// `two-prime` of `Version`.
pub const VERSION_TWO_PRIME: i64 = 0;

/// `multi` of `Version`.
pub const VERSION_MULTI: i64 = 1;
