//! Both times, and the date-times and offsets that they are made of.
//!
//! | Module | Holds |
//! |---|---|
//! | `utc_time`, `generalized_time` | times, and their texts |
//! | `zone`, `fraction`, `decimal`, `civil` | what both times are made of |

mod civil;
mod decimal;
mod fraction;
pub mod generalized_time;
pub mod utc_time;
mod zone;

pub use generalized_time::GeneralizedTime;
pub use jiff::civil::DateTime;
pub use jiff::tz::Offset;
pub use utc_time::UTCTime;
