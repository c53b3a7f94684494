//! Calls that read and write object identifiers.
ghost use Rattle.yasna.specs.base.Oid.{IsEncodableOid};

use crate::reading::of_parts;
use crate::{REJECTED, length, mixed};
use std::alloc::Global;
use yasna::models::ObjectIdentifier;
use yasna::{ASN1Result, BERReaderSeq, DERWriterSeq, construct_der};

/// The checksum of the counts of components of `count` object identifiers in a SEQUENCE.
#[unsafe(no_mangle)]
pub extern "C" fn yasna_read_identifiers(
    alloc: Global,
    bytes: &[u8],
    count: usize,
    der: bool,
) -> u64 {
    of_parts(alloc, bytes, count, der, identifiers)
}

// The checksum of the counts of components of `count` object identifiers.
fn identifiers(seq: &mut BERReaderSeq, count: usize) -> ASN1Result<u64> {
    let mut checksum = 0;
    for _ in 0..count {
        let identifier = seq.next().read_oid()?;
        checksum = mixed(
            checksum,
            (identifier.components().len() as u64).cast_signed(),
        );
    }
    Ok(checksum)
}

/// The length of a SEQUENCE of `count` times the object identifier with these components.
#[unsafe(no_mangle)]
pub extern "C" fn yasna_write_identifiers(alloc: Global, components: &[u64], count: usize) -> u64 {
    let Ok(identifier) = ObjectIdentifier::from_slice(alloc, components) else {
        return REJECTED;
    };
    if !identifier.is_encodable() {
        return REJECTED;
    }
    length(construct_der(
        alloc,
        |writer| writer.write_sequence(|seq| write_identifiers(seq, &identifier, count)),
    ))
}

// Writes an object identifier `count` times.
fn write_identifiers(
    seq: &mut DERWriterSeq,
    identifier: &ObjectIdentifier,
    count: usize,
) -> ASN1Result<()>
    requires { IsEncodableOid identifier.now }
{
    for _ in 0..count {
        seq.next().write_oid(identifier)?;
    }
    Ok(())
}
