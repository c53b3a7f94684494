//! Filters (RFC 4511, 4.5.1.7).
//!
//! ```text
//! Filter ::= CHOICE {
//!     and  [0] SET SIZE (1..MAX) OF filter Filter,
//!     or   [1] SET SIZE (1..MAX) OF filter Filter,
//!     not  [2] Filter,
//!     .. }
//! ```
use crate::filter_item::FilterItem;

/// What entries a search is for.
#[derive(Drop)]
pub enum Filter {
    /// All of these hold.
    And(Vec<Filter>),
    /// One of these holds, or more.
    Or(Vec<Filter>),
    /// This one doesn't hold.
    Not(Box<Filter>),
    /// Any other.
    Item(FilterItem),
}
