//! Object identifiers: what no contract says of their texts and rejections, components, order and copies.

use crate::checks::{holds, is_same, spelled};
use std::alloc::Global;
use std::cmp::Ordering;
use std::convert::AsSlice;
use yasna::models::ObjectIdentifier;
use yasna::{ASN1Result, decode_der, encode_der};

// A text, and the components that it shows, or none where it is rejected.
static TEXTS: [(&str, &[u64]); 9] = [
    ("1.2.840.113549.1.1", &[1, 2, 840, 113549, 1, 1]),
    ("+1.02", &[1, 2]),
    ("", &[]),
    ("1.2.", &[]),
    ("1.2.840.113549.1.1.", &[]),
    ("1.2.840.113549.1.1x", &[]),
    ("1..2", &[]),
    ("-1", &[]),
    ("18446744073709551616", &[]),
];

// Whether the text shows these components, or is rejected, and not when out of memory.
fn is_text_of(alloc: Global, text: &str, parts: &[u64]) -> ASN1Result<bool> {
    match ObjectIdentifier::from_str(alloc, text) {
        Ok(oid) => Ok(!parts.is_empty() && oid.as_slice() == parts),
        Err(error) => {
            let line = error.to_string(alloc)?;
            Ok(
                parts.is_empty()
                    && !error.is_out_of_memory()
                    && line.as_str() == "Failed to parse OID",
            )
        }
    }
}

// Components, and how they are shown.
static SHOWN: [(&[u64], &str); 2] = [
    (&[1, 2, 840, 113549, 1, 1], "1.2.840.113549.1.1"),
    (&[1, 2], "1.2"),
];

fn is_shown_as(alloc: Global, parts: &[u64], text: &str) -> ASN1Result<bool> {
    let oid = ObjectIdentifier::from_slice(alloc, parts)?;
    Ok(oid.to_string(alloc)?.as_str() == text)
}

// Whether 10,000 parts, each 1, are shown as their text.
fn ones_come_back(alloc: Global) -> ASN1Result<bool> {
    let text = spelled(alloc, ["", "1.", "1", ""], 9999)?;
    match ObjectIdentifier::from_str(alloc, &text) {
        Ok(oid) => {
            let shown = oid.to_string(alloc)?;
            Ok(oid.components().len() == 10000 && shown.as_str() == text.as_str())
        }
        Err(_) => Ok(false),
    }
}

// Whether one of the components 1 and 0 to 999, whose first two make the subidentifier 40, begins so and is read from its encoding.
fn long_one_comes_back(alloc: Global) -> ASN1Result<bool> {
    let mut components = Vec::new(alloc);
    components.push(1)?;
    for number in 0..1000_u64 {
        components.push(number)?;
    }
    let oid = ObjectIdentifier::new(components);
    if !oid.is_encodable() {
        return Ok(false);
    }
    let encoding = encode_der(alloc, &oid)?;
    let read = decode_der::<ObjectIdentifier>(alloc, &encoding)?;
    Ok(encoding.starts_with(&[6, 130, 7, 80, 40, 1, 2]) && read == oid)
}

// Whether one whose components become longer has these, is after the one it was, and is as its copy.
fn is_longer_after(alloc: Global, parts: &[u64]) -> ASN1Result<bool> {
    let short = ObjectIdentifier::from_slice(alloc, &[2, 5])?;
    let mut long = ObjectIdentifier::from(Vec::from_slice(alloc, &[2, 5])?);
    long.components_mut().push(4)?;
    let is_after = short != long
        && short.cmp(&long) == Ordering::Less
        && long.partial_cmp(&short) == Some(Ordering::Greater);
    let is_copied = is_same(&long, &long.clone()?);
    Ok(
        is_after
            && is_copied
            && long.as_slice() == parts
            && long.into_components().as_slice() == parts,
    )
}

// Also that long ones come back from their encodings and texts.
#[test]
fn object_identifiers_round_trip_in_bytes_and_text(rt: HostRuntime) {
    for row in &TEXTS {
        holds(&rt, row.0, is_text_of(rt.alloc(), row.0, row.1));
    }
    for row in &SHOWN {
        holds(&rt, row.1, is_shown_as(rt.alloc(), row.0, row.1));
    }
    holds(&rt, "10,000 parts", ones_come_back(rt.alloc()));
    holds(&rt, "1000 subidentifiers", long_one_comes_back(rt.alloc()));
    holds(
        &rt,
        "components change",
        is_longer_after(rt.alloc(), &[2, 5, 4]),
    );
}
