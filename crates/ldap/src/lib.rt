//! Messages of the Lightweight Directory Access Protocol (RFC 4511): those by which a client binds, searches and unbinds.
//!
//! Each type is a notation itself. `yasna_notation::Encoded` of it has the traits, so `decode_ber` reads an `Encoded<LdapMessage>`.
//! `is_valid` of `yasna_notation_constraints` tests whether a value that was filled from input can be written.
//!
//! The protocol accepts only definite lengths of BER, OCTET STRINGs in one piece, and TRUE as 255 (RFC 4511, 5.1). `encode_der` writes
//! them so, but `decode_ber` reads all of BER.
//!
//! The types of the module are extensible (RFC 4511, 4), so what extensions add is read as it came, and is written again: numbers of an
//! ENUMERATED, as `Other`; components at the end of a SEQUENCE, which a receiver has to ignore, in the field `unknown`; operations and
//! ways to authenticate, as `Unknown`. The first unknown component has none of the tags of the components before it that may be omitted.
//!
//! A filter is closed: unknown alternatives, and components at the end of its assertions, are rejected.
//!
//! What holds unknown elements may be read in one mode and have no encoding in another, as a value that holds an ANY. So it has
//! `DERExact` and no `DERCanonical`. Filters, references and requests to unbind have both.
//!
//! | Module | Holds |
//! |---|---|
//! | `ldap_message`, `protocol_op` | messages, and the operations in them |
//! | `control` | controls |
//! | `ldap_result`, `result_code` | results of operations, and their numbers |
//! | `bind_request`, `authentication`, `sasl_credentials` | requests to bind, and how one shows who they are |
//! | `bind_response`, `unbind_request` | responses to them, and requests to end a session |
//! | `search_request`, `scope`, `deref_aliases` | requests to search, how deep they go, and which aliases they follow |
//! | `filter`, `filter_item` | filters, and those that aren't made of other filters |
//! | `filter_reading`, `filter_writing`, `filter_prepending`, `filter_lengths` | how filters are read and written, and how long they are |
//! | `filter_checking`, `filter_notation` | which filters can be written, and their laws |
//! | `substring`, `substring_filter`, `matching_rule_assertion`, `attribute_value_assertion` | the assertions of filters |
//! | `search_result_entry`, `search_result_done`, `search_result_reference` | what a search returns |
//! | `partial_attribute`, `attribute` | attributes |
#![tactic(auto)]

mod attribute;
mod attribute_value_assertion;
mod authentication;
mod bind_request;
mod bind_response;
mod control;
mod deref_aliases;
mod filter;
mod filter_checking;
mod filter_item;
mod filter_lengths;
mod filter_notation;
mod filter_prepending;
mod filter_reading;
mod filter_writing;
mod ldap_message;
mod ldap_result;
mod matching_rule_assertion;
mod partial_attribute;
mod protocol_op;
mod result_code;
mod sasl_credentials;
mod scope;
mod search_request;
mod search_result_done;
mod search_result_entry;
mod search_result_reference;
mod substring;
mod substring_filter;
mod unbind_request;

pub use attribute::Attribute;
pub use attribute_value_assertion::AttributeValueAssertion;
pub use authentication::AuthenticationChoice;
pub use bind_request::BindRequest;
pub use bind_response::BindResponse;
pub use control::Control;
pub use deref_aliases::DerefAliases;
pub use filter::Filter;
pub use filter_item::FilterItem;
pub use ldap_message::LdapMessage;
pub use ldap_result::LdapResult;
pub use matching_rule_assertion::{MatchingRuleAssertion, Unset};
pub use partial_attribute::PartialAttribute;
pub use protocol_op::ProtocolOp;
pub use result_code::ResultCode;
pub use sasl_credentials::SaslCredentials;
pub use scope::Scope;
pub use search_request::SearchRequest;
pub use search_result_done::SearchResultDone;
pub use search_result_entry::SearchResultEntry;
pub use search_result_reference::SearchResultReference;
pub use substring::Substring;
pub use substring_filter::SubstringFilter;
pub use unbind_request::UnbindRequest;
