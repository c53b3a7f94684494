//! The sources of a crate of tests for the types of a crate, and edits of that crate which a prover has to reject.
//!
//! | Mark | Represents |
//! |---|---|
//! | `@K` | the crate of the types |
//! | `@T` | the names of the types that are tested |
//! | `@F` | the file of a type |
//! | `@Q` | the word of tests, which this source doesn't have as an attribute |

use crate::reach::mark_body;
use crate::samples::{Sample, samples_of};
use crate::template::Fragments;
use crate::terms::TypeName;
use crate::text::Text;
use crate::type_source::{CrateSource, Files, SourceFile, has_file};
use std::alloc::{AllocError, Global};

const ROOT: &str = "//! Tests of the types of `@K`.
//!
//! | Module | Holds |
//! |---|---|
//! | `samples` | encodings of each type, which come back as the same bytes |
#![tactic(auto)]

#[cfg(@Q)]
mod samples;
";

const HEAD: &str = "//! Encodings of each type: one with the least that a value has, and a full one.

use @K::{@T};
use std::alloc::Global;
use yasna::{ASN1Result, BERDecodable, DEREncodable, DERExact, decode_der, encode_der};
use yasna_notation::Encoded;

// What the value is written as that is read from these bytes.
fn written<T: BERDecodable + DEREncodable + DERExact>(
    alloc: Global,
    bytes: &[u8],
) -> ASN1Result<Vec<u8>> {
    let value: T = decode_der(alloc, bytes)?;
    encode_der(alloc, &value)
}

// Whether these bytes come back, and are rejected without the last one.
fn comes_back<T: BERDecodable + DEREncodable + DERExact>(alloc: Global, bytes: &[u8]) -> bool {
    let Some((_, shorter)) = bytes.split_last() else {
        return false;
    };
    match written::<T>(alloc, bytes) {
        Ok(again) => again.as_slice() == bytes && decode_der::<T>(alloc, shorter).is_err(),
        Err(_) => false,
    }
}
";

const TEST: &str = "
#[@Q]
fn @F_comes_back(rt: HostRuntime) {
";

const MUTANT: &str = "file: src/@F.rt
old:         <Notated as Notation>::has_tag(tag)
new:         !<Notated as Notation>::has_tag(tag)
";

// Whether a definition is tested: it is a notation that has a file, and has a sample.
fn is_tested(source: &CrateSource<'_, '_>, place: usize, sample: &Sample) -> bool {
    let is_notation = match source.names.defined.get(place) {
        Some(name) => !name.is_enumeration,
        None => false,
    };
    is_notation && has_file(source, place) && !sample.least.is_empty()
}

// Appends the names of the types that are tested.
fn put_tested_names(source: &CrateSource<'_, '_>, samples: &[Sample], out: &mut Text) {
    let mut is_first = true;
    for place in source.names.order.iter() {
        let (Some(name), Some(sample)) = (source.names.defined.get(*place), samples.get(*place))
        else {
            continue
        };
        if !is_tested(source, *place, sample) {
            continue;
        }
        if !is_first {
            out.say(", ");
        }
        is_first = false;
        out.put(name.name.as_slice());
    }
}

// A digit of four bits.
fn digit_of(bits: u8) -> u8 {
    match bits & 15 {
        low @ 0..=9 => b'0' + low,
        high => b'a' + (high - 10),
    }
}

// Appends the line that tests a sample.
fn put_assertion(name: &TypeName, octets: &[u8], out: &mut Text) {
    out.say("    assert!(rt; comes_back::<Encoded<");
    out.put(name.name.as_slice());
    out.say(">>(rt.alloc(), b\"");
    for octet in octets {
        out.say("\\x");
        out.put_octet(digit_of(*octet / 16));
        out.put_octet(digit_of(*octet));
    }
    out.say("\"));\n");
}

// Appends the test of a type.
fn put_test(alloc: Global, name: &TypeName, sample: &Sample, out: &mut Text) {
    let mut fragments = Fragments::new(alloc);
    fragments.set_octets(b'F', name.file.as_slice());
    fragments.set_octets(b'Q', b"test");
    fragments.fill(TEST, out);
    put_assertion(name, sample.least.as_slice(), out);
    if !sample.full.is_empty() && sample.full.as_slice() != sample.least.as_slice() {
        put_assertion(name, sample.full.as_slice(), out);
    }
    out.say("}\n");
}

// Appends the tests of all types, in the order of their files.
fn put_all_tests(alloc: Global, source: &CrateSource<'_, '_>, samples: &[Sample], out: &mut Text) {
    for place in source.names.order.iter() {
        let (Some(name), Some(sample)) = (source.names.defined.get(*place), samples.get(*place))
        else {
            continue
        };
        if is_tested(source, *place, sample) {
            put_test(alloc, name, sample, out);
        }
    }
}

/// The files of a crate of tests, which reads and writes samples of the types of a crate.
pub fn tests_of(
    alloc: Global,
    source: &CrateSource<'_, '_>,
) -> Result<Vec<SourceFile>, AllocError> {
    let samples = samples_of(alloc, source.definitions, source.names)?;
    let mut fragments = Fragments::new(alloc);
    fragments.set_octets(b'K', source.krate);
    fragments.set_octets(b'Q', b"test");
    let mut names = Text::new(alloc);
    put_tested_names(source, samples.as_slice(), &mut names);
    fragments.set(b'T', names);
    let mut root = Text::new(alloc);
    fragments.fill(ROOT, &mut root);
    let mut text = Text::new(alloc);
    fragments.fill(HEAD, &mut text);
    put_all_tests(alloc, source, samples.as_slice(), &mut text);
    let mut files = Files::new(alloc);
    files.add("src/", b"lib", ".rt", root)?;
    files.add("src/", b"samples", ".rt", text)?;
    let Files { files, .. } = files;
    Ok(files)
}

// Which definitions are named by another one.
fn named(alloc: Global, source: &CrateSource<'_, '_>) -> Result<Vec<bool>, AllocError> {
    let mut named = vec![in alloc; false; source.definitions.len()]?;
    for definition in source.definitions {
        mark_body(&definition.body, &mut named);
    }
    Ok(named)
}

// Adds the edit of a type.
fn add_mutant(alloc: Global, name: &TypeName, files: &mut Files) -> Result<(), AllocError> {
    let mut fragments = Fragments::new(alloc);
    fragments.set_octets(b'F', name.file.as_slice());
    let mut text = Text::new(alloc);
    fragments.fill(MUTANT, &mut text);
    files.add(
        "must-fail/",
        name.file.as_slice(),
        "_has_other_tags.edit",
        text,
    )
}

/// An edit of each type that no other one names, after which it has other tags.
pub fn mutants_of(
    alloc: Global,
    source: &CrateSource<'_, '_>,
) -> Result<Vec<SourceFile>, AllocError> {
    let named = named(alloc, source)?;
    let mut files = Files::new(alloc);
    for (place, name) in source.names.defined.iter().enumerate() {
        let is_named = match named.get(place) {
            Some(is_named) => *is_named,
            None => true,
        };
        if !is_named && !name.is_enumeration && has_file(source, place) {
            add_mutant(alloc, name, &mut files)?;
        }
    }
    let Files { files, .. } = files;
    Ok(files)
}
