//! The functions whose contracts state the laws of the grammar, of the times and of sets. They do nothing.

pub use yasna_base::laws::{
    bit_discriminant, class_discriminant, elements, identifiers, lengths, oid_is_read_again,
    orders, raw_elements, raw_orders, sets, sets_of_other_types, sets_written, simple_types,
    strings, universal_tags,
};
pub use yasna_reader::laws::{set_lists, set_reads};
pub use yasna_times::laws::{moments, texts_of_times, time_hashes, time_orders, times};
