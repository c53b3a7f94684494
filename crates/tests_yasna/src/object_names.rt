//! The names of object identifiers that `asn1show` prints. Those here are as X.520, RFC 5280 and PKCS #1 name them.

use crate::checks::finds_none;
use asn1show_names::Names;
use std::alloc::{AllocError, Global};

// Object identifiers, and their names.
static NAMED: [(&str, Option<&str>); 5] = [
    ("2.5.4.3", Some("commonName")),
    ("2.5.29.19", Some("basicConstraints")),
    ("1.2.840.113549.1.1.11", Some("sha256WithRSAEncryption")),
    ("2.5.4.3.9", None),
    ("", None),
];

// What is wrong with the names, if something is.
fn wrong_name(alloc: Global) -> Result<Option<&'static str>, AllocError> {
    let names = Names::new(alloc)?;
    if !names.is_sorted() {
        return Ok(Some("the names aren't sorted"));
    }
    for (oid, name) in &NAMED {
        if names.find(oid.as_bytes()) != *name {
            return Ok(Some(*oid));
        }
    }
    Ok(None)
}

#[test]
fn names_are_sorted_and_found(rt: HostRuntime) {
    finds_none(
        &rt,
        wrong_name(rt.alloc()).unwrap_or(Some("memory ran out")),
    );
}
