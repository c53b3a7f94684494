//! Calls that write, by each of the calls around a writing.
//!
//! | Call | Around |
//! |---|---|
//! | `w:NAME` | construct_der |
//! | `tw:NAME` | try_construct_der, with an error type of the caller's own |
//! | `ws:NAME` | construct_der_seq |
//! | `tws:NAME` | try_construct_der_seq, with an error type of the caller's own |
//!
//! ARG is the value, as a result shows it. NAME is a call that reads one value, a sequence of them, or one under tags, or:
//!
//! | NAME | Body |
//! |---|---|
//! | `setof` | write_set_of the raw elements that ARG says, with commas between them, each by write_der; `none` is a part that isn't written |
//! | `set` | write_set of such elements |
//! | `nest` | as many sequences one in the other as ARG says, around the INTEGER 10 |
//! | `nothing` | no call; Ok |
//! | `rejected` | write_sequence of write_i64, whose closure then returns Err(Invalid) |
//! | `thrown` | `rejected`, discarded |
//!
//! `ws` and `tws` write parts of a sequence with no header around them. `length` tells further names.

use crate::kind::parsed;
use crate::leaf::Leaf;
use crate::length;
use crate::names::named;
use crate::nest::Nested;
use crate::parts::{Element, Group, write_parts};
use crate::reading::encoding_of;
use crate::reads::{Read, raw_parts};
use crate::rejection::OwnError;
use crate::text::Text;
use std::alloc::Global;
use yasna::{
    ASN1Error, ASN1ErrorKind, ASN1Result, BERMode, construct_der_seq, try_construct_der,
    try_construct_der_seq,
};

/// Appends what a call of this family returns, and says whether there are such a call and argument.
pub fn append_outcome(call: &str, arg: &str, text: &mut Text) -> bool {
    let Some((around, name)) = call.split_once(':') else {
        return false;
    };
    let Some(element) = element(name, arg, text) else {
        return false;
    };
    if let "seqbigint" | "seqlen" | "seqseqlen" = name {
        length::append_written(name, &element, text);
        return true;
    }
    let Some(encoding) = encoding_in(text.allocator(), around, &element) else {
        return false;
    };
    text.push("ok ");
    element.show(text);
    text.push_encoding(encoding);
    true
}

// What is written of an element by this call around the writing.
fn encoding_in(alloc: Global, around: &str, element: &Element) -> Option<ASN1Result<Vec<u8>>> {
    let parts = element.parts.as_slice();
    match (around, element.group) {
        ("w", _) => Some(encoding_of(alloc, BERMode::Der, element)),
        ("tw", _) => Some(tried(try_construct_der(alloc, |writer| { Ok(element.write(writer)?) }))),
        (_, Group::Alone) => None,
        ("ws", _) => Some(construct_der_seq(alloc, |seq| write_parts(seq, parts))),
        _ => Some(tried(try_construct_der_seq(alloc, |seq| { Ok(write_parts(seq, parts)?) }))),
    }
}

// The result of a call with an error type of the caller's own.
fn tried(encoding: Result<Vec<u8>, OwnError>) -> ASN1Result<Vec<u8>> {
    match encoding {
        Ok(encoding) => Ok(encoding),
        Err(OwnError::Writing(error)) => Err(error),
        Err(OwnError::Own) => Err(ASN1Error::new(ASN1ErrorKind::Invalid)),
    }
}

// What a call writes.
#[derive(Clone, Copy)]
enum Body {
    // raw elements
    Raw(Group),
    // a value that has a name here alone
    Small,
    // what `length` makes
    Length,
}

// What these names write, which are none of calls that read.
static BODIES: [(&str, Body); 9] = [
    ("setof", Body::Raw(Group::SetOf)),
    ("set", Body::Raw(Group::Set)),
    ("nothing", Body::Small),
    ("nest", Body::Small),
    ("refused", Body::Small),
    ("thrown", Body::Small),
    ("seqbigint", Body::Length),
    ("seqlen", Body::Length),
    ("seqseqlen", Body::Length),
];

// The element of this name and argument, if there is one; without memory for it, that is noted in a result.
fn element(name: &str, arg: &str, came: &mut Text) -> Option<Element> {
    match named(&BODIES, name) {
        Some(Body::Raw(group)) => raw_parts(group, arg, came),
        Some(Body::Small) => small(name, arg, came),
        Some(Body::Length) => length::element(name, arg, came),
        None => match Read::named(name) {
            Some(read) => read.value(arg, came),
            None => None,
        },
    }
}

// The value that has a name here alone; without memory for it, that is noted in a result.
fn small(name: &str, arg: &str, came: &mut Text) -> Option<Element> {
    let mut is_known = true;
    let leaf = match name {
        "nothing" => Leaf::Nothing,
        "nest" => Leaf::Nested(Nested {
            depth: parsed(arg.parse(), &mut is_known),
            number: 10,
            brackets: 0,
        }),
        "refused" => Leaf::Rejected(parsed(arg.parse(), &mut is_known)),
        _ => Leaf::Discarded(parsed(arg.parse(), &mut is_known)),
    };
    if is_known {
        Element::alone(leaf, came)
    } else {
        None
    }
}
