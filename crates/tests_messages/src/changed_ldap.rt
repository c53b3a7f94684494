//! Messages of LDAP that were changed after they were read: which of them can be written.

use crate::changed::is_written;
use crate::checks::{bytes_of, finds_none};
use ldap::{Filter, FilterItem, LdapMessage, ProtocolOp, Scope, SearchRequest};
use std::alloc::Global;
use yasna::{ASN1Result, decode_der};
use yasna_notation::Encoded;

// A search for (&(cn=x)(!(objectClass=*))), made by hand.
const SEARCH: &str =
    "30360201026331040464633d610a01020a0100020100020100010100a018a20d870b6f626a656374436c6173\
     73a3070402636e0401783000";

// What is changed of the search.
#[derive(Clone, Copy)]
enum Change {
    Nothing,
    /// The number of the message.
    MessageId(u64),
    /// The most entries that are wanted.
    SizeLimit(u64),
    /// The number of the scope.
    Scope(i64),
    /// The filter: so many negations, of whether an attribute is there.
    Negations(usize),
    /// The filter: so many negations, of an `or` of no filters.
    NegationsOfNone(usize),
    /// The filter: an `and` of two, of which the second is an `or` of no filters.
    AndNone,
}

static ROWS: [(&str, Change, bool); 11] = [
    ("a search", Change::Nothing, true),
    (
        "the largest message number",
        Change::MessageId(2147483647),
        true,
    ),
    (
        "a message number out of range",
        Change::MessageId(2147483648),
        false,
    ),
    ("a limit out of range", Change::SizeLimit(2147483648), false),
    ("a scope without a name", Change::Scope(3), true),
    ("a negative scope", Change::Scope(-1), false),
    ("a negation", Change::Negations(1), true),
    (
        "more negations than a reader has levels",
        Change::Negations(150),
        true,
    ),
    ("an or of no filters", Change::NegationsOfNone(0), false),
    (
        "an or of no filters within negations",
        Change::NegationsOfNone(150),
        false,
    ),
    ("an and of which one can't be", Change::AndNone, false),
];

fn present(alloc: Global) -> Filter {
    Filter::Item(FilterItem::Present(Vec::new(alloc)))
}

fn none(alloc: Global) -> Filter {
    Filter::Or(Vec::new(alloc))
}

// So many negations of a filter, each of the one before.
fn negated(alloc: Global, filter: Filter, count: usize) -> ASN1Result<Filter> {
    let mut outermost = filter;
    for _ in 0..count {
        outermost = Filter::Not(Box::new(alloc, outermost)?);
    }
    Ok(outermost)
}

// One that can be written and one that can't be.
fn both(alloc: Global) -> ASN1Result<Filter> {
    let mut filters = Vec::new(alloc);
    filters.push(present(alloc))?;
    filters.push(none(alloc))?;
    Ok(Filter::And(filters))
}

fn apply(alloc: Global, search: &mut SearchRequest, change: Change) -> ASN1Result<()> {
    match change {
        Change::Nothing | Change::MessageId(_) => {}
        Change::SizeLimit(limit) => search.size_limit = limit,
        Change::Scope(number) => search.scope = Scope::Other(number),
        Change::Negations(count) => search.filter = negated(alloc, present(alloc), count)?,
        Change::NegationsOfNone(count) => search.filter = negated(alloc, none(alloc), count)?,
        Change::AndNone => search.filter = both(alloc)?,
    }
    Ok(())
}

// Whether the search can be written after a change.
fn is_written_after(alloc: Global, change: Change) -> ASN1Result<bool> {
    let bytes = bytes_of(alloc, SEARCH)?;
    let encoded: Encoded<LdapMessage> = decode_der(alloc, bytes.as_slice())?;
    let mut message = encoded.into_value();
    if let Change::MessageId(number) = change {
        message.message_id = number;
    }
    if let ProtocolOp::SearchRequest(search) = &mut message.protocol_op {
        apply(alloc, search, change)?;
    }
    is_written(alloc, message)
}

fn wrong_search(alloc: Global) -> Option<&'static str> {
    for (name, change, valid) in &ROWS {
        if is_written_after(alloc, *change) != Ok(*valid) {
            return Some(*name);
        }
    }
    None
}

#[test]
fn changed_searches_are_tested(rt: HostRuntime) {
    finds_none(&rt, wrong_search(rt.alloc()));
}
