//! What messages are checked as.

use crate::message_type::MessageType;
use asn1show_names::Names;
use asn1show_schema::Schema;

/// What messages are checked as.
#[derive(Clone, Copy)]
pub enum Subject<'s> {
    /// A type of messages.
    Message(MessageType),
    /// A type of a module.
    Module(ModuleType<'s>),
}

/// A type of a module.
#[derive(Clone, Copy)]
pub struct ModuleType<'s> {
    /// Its tables.
    pub schema: &'s Schema,
    /// The names of object identifiers.
    pub names: &'s Names,
}
