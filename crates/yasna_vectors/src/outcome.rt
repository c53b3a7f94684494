//! Which family returns a call.

use crate::line::Case;
use crate::names::named;
use crate::text::Text;
use crate::{
    many, mode, oid, reading, rejecting_closures, rejection, sticky_errors, tag, times, whole,
    writing,
};
use std::alloc::Global;
use yasna::BERMode;

/// What the call of a case returns, as text: `unknown` where there is no such call, or no such argument of it.
pub fn outcome(alloc: Global, case: Case) -> Text {
    let mut text = Text::with_room(alloc);
    if !append_outcome(case, &mut text) && !text.out_of_memory {
        text.text.clear();
        text.push("unknown");
        text.is_unknown = true;
    }
    text
}

// Appends what the call of a case returns, and says whether there are such a call and argument.
fn append_outcome(case: Case, text: &mut Text) -> bool {
    let Some(mode) = case.mode else {
        return append_alone(case.call, case.arg, text);
    };
    if case.takes_bytes() {
        return match case.bytes(text) {
            Some(bytes) => append_on(mode, case, &bytes, text),
            None => false,
        };
    }
    if case.call.contains(':') {
        rejecting_closures::append_outcome(mode, case.call, case.arg, text)
    } else {
        many::append_outcome(mode, case.call, case.arg, text)
    }
}

// Appends what it returns on these bytes.
fn append_on(mode: BERMode, case: Case, bytes: &[u8], text: &mut Text) -> bool {
    let call = case.call;
    if let "mode" | "seq_mode" = call {
        mode::append_outcome(mode, call, bytes, text);
        true
    } else if call.starts_with("d:") || call.starts_with("tup") || call == "general" {
        whole::append_outcome(mode, call, bytes, text)
    } else if call.contains(':') {
        sticky_errors::append_outcome(mode, call, bytes, text)
    } else {
        reading::append_outcome(mode, case, bytes, text)
    }
}

// What a call where no bytes are read does.
#[derive(Clone, Copy)]
enum Family {
    Writing,
    Times,
    Identifiers,
    RejectingClosures,
    Rejection,
    Tag,
}

// These families by what is before the colon of a call, or by its name.
static FAMILIES: [(&str, Family); 10] = [
    ("w", Family::Writing),
    ("tw", Family::Writing),
    ("ws", Family::Writing),
    ("tws", Family::Writing),
    ("p", Family::Times),
    ("o", Family::Identifiers),
    ("thrown", Family::RejectingClosures),
    ("refused", Family::RejectingClosures),
    ("text", Family::Rejection),
    ("own", Family::Rejection),
];

// Appends what it returns where no bytes are read.
fn append_alone(call: &str, arg: &str, text: &mut Text) -> bool {
    let name = match call.split_once(':') {
        Some((name, _)) => name,
        None => call,
    };
    match named(&FAMILIES, name).unwrap_or(Family::Tag) {
        Family::Writing => writing::append_outcome(call, arg, text),
        Family::Times => times::append_outcome(call, arg, text),
        Family::Identifiers => oid::append_outcome(call, arg, text),
        Family::RejectingClosures => {
            rejecting_closures::append_outcome(BERMode::Der, call, arg, text)
        }
        Family::Rejection => rejection::append_outcome(call, arg, text),
        Family::Tag => tag::append_outcome(call, arg, text),
    }
}
