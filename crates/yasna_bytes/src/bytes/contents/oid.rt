//! The contents of OBJECT IDENTIFIER (X.690, 8.19).
ghost use Rattle.std.specs.Prelude.{ℕ, List, ◌≡◌, ◌+◌, ◌*◌, ◌++◌, ◌∷◌, [], MatchResult, IfErr};
ghost use Rattle.yasna_base.specs.declared.error.ASN1ErrorKind.TheVariants.{OutOfMemory};
ghost use Rattle.yasna_base.specs.declared.mode.BERMode.{BERMode};
ghost use Rattle.yasna_base.specs.Base128.{Base128At};
ghost use Rattle.yasna_base.specs.Oid.{AreFirstTwo, AreComponents};
ghost use Rattle.yasna_bytes.specs.Contents.{Decides, MayAllocate};
ghost use Rattle.yasna_bytes.specs.Oid.{AppendsFirst, AppendsNumbers};
ghost use Rattle.yasna_bytes.specs.Rejection.{BlamesBytes};

use crate::bytes::contents::Contents;
use std::alloc::Global;
use yasna_base::bytes::base128::read_base128;
use yasna_base::error::ASN1ErrorKind;
use yasna_base::mode::BERMode;
use yasna_base::models::ObjectIdentifier;

// How many components there are: one for each byte that ends a subidentifier, and one more.
#[inline(always)]
fn count(contents: &[u8]) -> usize {
    let mut count = 1usize;
    for byte in contents {
        count = count.wrapping_add(usize::from(*byte < 128));
    }
    count
}

// The subidentifier at the start, however long (X.690, 8.19.2). It stays a call, so that the case of one byte is short where it
// is inlined.
#[inline(never)]
fn longer(s: &[u8]) -> Result<(u64, &[u8]), ASN1ErrorKind>
    ensures { Base128At s.now result }
{
    read_base128(s)
}

// The subidentifier at the start: most are a single byte, which is read where it is.
#[inline(always)]
fn subidentifier(s: &[u8]) -> Result<(u64, &[u8]), ASN1ErrorKind>
    ensures { Base128At s.now result }
{
    if let Some((byte, after)) = s.split_first()
        && *byte < 128
    {
        return Ok((u64::from(*byte), after));
    }
    longer(s)
}

// The first two components (X.690, 8.19.4).
#[inline(always)]
fn first_two(number: u64) -> (u64, u64)
    ensures two { AreFirstTwo result.0 result.1 }
    ensures number { 40 * result.0 + result.1 ≡ number }
{
    if number < 40 {
        (0, number)
    } else if number < 80 {
        (1, number - 40)
    } else {
        (2, number - 80)
    }
}

// Appends a component.
#[inline(always)]
fn push(components: &mut Vec<u64>, component: u64) -> Result<(), ASN1ErrorKind>
    ensures { MatchResult result (λ _. components.new.items ≡ components.old.items ++ (component ∷ [])) (λ kind. kind ≡ OutOfMemory) }
{
    match components.push(component) {
        Ok(()) => Ok(()),
        Err(_) => Err(ASN1ErrorKind::OutOfMemory),
    }
}

// Appends the first two components.
#[inline(always)]
fn push_first(components: &mut Vec<u64>, number: u64) -> Result<(), ASN1ErrorKind>
    ensures { AppendsFirst number components.old.items components.new.items result }
{
    let (first, second) = first_two(number);
    if let Err(kind) = push(components, first) {
        return Err(kind);
    }
    push(components, second)
}

// Appends a component for each further subidentifier.
#[inline(always)]
fn push_all(components: &mut Vec<u64>, contents: &[u8]) -> Result<(), ASN1ErrorKind>
    ensures { AppendsNumbers contents.now components.old.items components.new.items result }
{
    let mut rest = contents;
    while !rest.is_empty() {
        match subidentifier(rest) {
            Ok((number, after)) => {
                if let Err(kind) = push(components, number) {
                    return Err(kind);
                }
                rest = after;
            }
            Err(kind) => return Err(kind),
        }
    }
    Ok(())
}

// The object identifier that contents represent.
#[inline(always)]
fn read_components(alloc: Global, contents: &[u8]) -> Result<ObjectIdentifier, ASN1ErrorKind>
    ensures { (m : BERMode) → Decides (AreComponents m) (λ v. v) MayAllocate contents.now result }
{
    if contents.is_empty() {
        return Err(ASN1ErrorKind::Invalid);
    }
    let Ok(mut components) = Vec::with_capacity(alloc, count(contents)) else {
        return Err(ASN1ErrorKind::OutOfMemory);
    };
    let (number, rest) = match subidentifier(contents) {
        Ok(first) => first,
        Err(kind) => return Err(kind),
    };
    if let Err(kind) = push_first(&mut components, number) {
        return Err(kind);
    }
    match push_all(&mut components, rest) {
        Ok(()) => Ok(ObjectIdentifier::new(components)),
        Err(kind) => Err(kind),
    }
}

// The kind of an error. Whether the last subidentifier ends is tested first.
#[cold]
#[inline(never)]
fn oid_error(contents: &[u8], kind: ASN1ErrorKind) -> ASN1ErrorKind
    ensures memory { kind ≡ OutOfMemory → result ≡ OutOfMemory }
    ensures blames_bytes { BlamesBytes kind → BlamesBytes result }
{
    match kind {
        ASN1ErrorKind::OutOfMemory => kind,
        _ => match contents {
            [.., last] if *last < 128 => kind,
            _ => ASN1ErrorKind::Invalid,
        },
    }
}

impl Contents for ObjectIdentifier {
    ghost Seen = { List ℕ };

    ghost view = { λ v. v };

    ghost means = { AreComponents };

    ghost may_allocate = { MayAllocate };

    #[inline(always)]
    fn of_contents(
        alloc: Global,
        _mode: BERMode,
        contents: &[u8],
    ) -> Result<ObjectIdentifier, ASN1ErrorKind> {
        match read_components(alloc, contents) {
            Ok(oid) => Ok(oid),
            Err(kind) => Err(oid_error(contents, kind)),
        }
    }
}
