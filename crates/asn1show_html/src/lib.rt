//! A visitor that writes elements as a page of HTML.
//!
//! It is part of `asn1show`: `asn1show_lines` hands it the elements of an input. A page needs no other file.
//!
//! | Module | Holds |
//! |---|---|
//! | `escape` | texts in HTML |
//! | `element` | the row of an element, up to the elements in it |
//! | `page` | the beginning and the end of a page, and what is between the elements |
//! | `printer` | the visitor |
#![tactic(auto)]

mod element;
mod escape;
mod page;
mod printer;

pub use page::{write_end, write_error, write_heading, write_start};
pub use printer::HtmlPrinter;
