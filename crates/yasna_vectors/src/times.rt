//! Times by parses of texts.
//!
//! ARG of `p:utime` and `p:gtime` is a text in hexadecimal, of `p:gtimeoff` the seconds of an offset, a slash and such a text.
//! The result is `none` where the text is no time. After that of `p:gtime` are the digits after the nanosecond, and the
//! nanosecond; `p:gtimeoff` returns `-` in place of the encoding.

use crate::leaf::{Leaf, show_generalized_time};
use crate::line::octets;
use crate::reading::append_leaf;
use crate::text::Text;
use std::alloc::AllocError;
use yasna::BERMode;
use yasna::models::{GeneralizedTime, Offset, UTCTime};

/// Appends what a call on a text returns, and says whether there are such a call and argument.
pub fn append_outcome(call: &str, arg: &str, text: &mut Text) -> bool {
    let (offset, time) = match arg.split_once('/') {
        Some((seconds, time)) => match offset(seconds) {
            Some(offset) => (Some(offset), time),
            None => return false,
        },
        None => (None, arg),
    };
    match octets(time, text) {
        Some(bytes) => append_parsed(call, &bytes, offset, text),
        None => false,
    }
}

// The offset of so many seconds.
fn offset(seconds: &str) -> Option<Offset> {
    Offset::from_seconds(seconds.parse().ok()?).ok()
}

// Appends what parsing these bytes returns.
fn append_parsed(call: &str, bytes: &[u8], offset: Option<Offset>, text: &mut Text) -> bool {
    let alloc = text.allocator();
    match (call, offset) {
        ("p:utime", None) => match UTCTime::parse(bytes) {
            Some(time) => append_leaf(BERMode::Der, Leaf::UtcTime(time), text),
            None => text.push("none"),
        },
        ("p:gtime", None) => append_time(GeneralizedTime::parse(alloc, bytes), false, text),
        ("p:gtimeoff", Some(offset)) => append_time(
            GeneralizedTime::parse_with_offset(alloc, bytes, offset),
            true,
            text,
        ),
        _ => return false,
    }
    true
}

// Appends a time, its encoding and the parts of its fraction; the time alone where it may be local.
fn append_time(
    parsed: Result<Option<GeneralizedTime>, AllocError>,
    may_be_local: bool,
    text: &mut Text,
) {
    match parsed {
        Ok(Some(time)) if may_be_local => {
            text.push("ok ");
            show_generalized_time(&time, text);
            text.push(" -");
        }
        Ok(Some(time)) => {
            let fraction = fraction(&time, text);
            append_leaf(BERMode::Der, Leaf::GeneralizedTime(time), text);
            text.push_text(&fraction);
        }
        Ok(None) => text.push("none"),
        Err(_) => text.out_of_memory = true,
    }
}

// What shows the digits after the nanosecond, and the nanosecond.
fn fraction(time: &GeneralizedTime, text: &Text) -> Text {
    let mut fraction = Text::with_room(text.allocator());
    fraction.push(" sub=");
    if let Ok(digits) = str::from_utf8(time.sub_nano()) {
        fraction.push(digits);
    }
    fraction.push(" ns=");
    fraction.push_value(&time.datetime().subsec_nanosecond());
    fraction
}
