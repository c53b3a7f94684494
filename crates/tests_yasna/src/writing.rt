//! What vectors can't say of writing: writers that a closure exchanges, and errors of parts that a closure discards.

use crate::checks::{gives, holds, rejects};
use std::alloc::Global;
use std::mem;
use yasna::{ASN1ErrorKind, ASN1Result, DERWriterSeq, construct_der};

// The encoding of a SEQUENCE within which the writer is exchanged for the one around.
fn exchanged(alloc: Global, outer: &mut DERWriterSeq) -> ASN1Result<Vec<u8>> {
    construct_der(alloc, |other| {
        other.write_sequence(|inner| -> ASN1Result<()> {
            mem::swap(outer, inner);
            Ok(())
        })
    })
}

// Each element ends over what the writer holds then, from its own place on: the inner one, which began before all
// bytes, around the BOOLEAN, and the outer one, which began after it, where nothing is left, as `Invalid`.
fn is_exchanged(alloc: Global) -> bool {
    let mut is_inner = false;
    let outer = construct_der(alloc, |writer| {
        writer.write_sequence(|around| {
            around.next().write_bool(true)?;
            around.next().write_sequence(|outer| {
                is_inner = gives(exchanged(alloc, outer), &[0x30, 0x03, 0x01, 0x01, 0xff]);
                Ok(())
            })
        })
    });
    is_inner && rejects(outer, ASN1ErrorKind::Invalid)
}

// Whether the error of a SET whose part is malformed is sticky: the number after it isn't written, and the closure around both discards
// what both return.
fn is_sticky(alloc: Global) -> bool {
    let written = construct_der(alloc, |writer| {
        writer.write_sequence(|parts| -> ASN1Result<()> {
            let _ = parts.next().write_set(|set| set.next().write_der(&[31]));
            let _ = parts.next().write_i64(10);
            Ok(())
        })
    });
    rejects(written, ASN1ErrorKind::Invalid)
}

#[test]
fn elements_end_and_errors_are_sticky(rt: HostRuntime) {
    holds(&rt, "exchanged writers", Ok(is_exchanged(rt.alloc())));
    holds(
        &rt,
        "a broken part stays rejected",
        Ok(is_sticky(rt.alloc())),
    );
}
