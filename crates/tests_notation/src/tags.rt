//! What the examples of `yasna_notation_types` read and write. The ticket, the name, and the two badges are those of `openssl asn1parse -genconf`; the
//! rows that are rejected are these with some octets changed, and the holder in segments is written by hand.

use crate::checks::{
    Claim, Kind, Row, finds_none, first_failing, holds_of_assigned_canonical, holds_of_canonical,
    holds_of_defined,
};
use crate::examples::badge::Badge;
use crate::examples::principal_name::PrincipalName;
use crate::examples::ticket::Ticket;
use std::alloc::Global;

/// The type of a row.
#[derive(Clone, Copy)]
enum Example {
    Badge,
    PrincipalName,
    Ticket,
}

impl Kind for Example {
    fn is_so(self, alloc: Global, bytes: &[u8], claim: Claim) -> bool {
        match self {
            Example::Badge => holds_of_assigned_canonical::<Badge>(alloc, bytes, claim),
            Example::PrincipalName => holds_of_defined::<PrincipalName>(alloc, bytes, claim),
            Example::Ticket => holds_of_canonical::<Ticket>(alloc, bytes, claim),
        }
    }
}

static ROWS: [Row<Example>; 16] = [
    (
        Example::Ticket,
        Claim::IsEncoding,
        "a ticket",
        "613e303ca003020105a1101b0e415448454e412e4d49542e454455a2233021a003020102a11a30181b066b72627467741b0e415448454e412e4d49542e454455",
    ),
    (
        Example::Ticket,
        Claim::IsRejected,
        "a ticket under another application tag",
        "623e303ca003020105a1101b0e415448454e412e4d49542e454455a2233021a003020102a11a30181b066b72627467741b0e415448454e412e4d49542e454455",
    ),
    (
        Example::Ticket,
        Claim::IsRejected,
        "a ticket with an octet after it",
        "613e303ca003020105a1101b0e415448454e412e4d49542e454455a2233021a003020102a11a30181b066b72627467741b0e415448454e412e4d49542e45445500",
    ),
    (
        Example::Ticket,
        Claim::IsRejected,
        "a ticket without the SEQUENCE in its tag",
        "613ca003020105a1101b0e415448454e412e4d49542e454455a2233021a003020102a11a30181b066b72627467741b0e415448454e412e4d49542e454455",
    ),
    (
        Example::PrincipalName,
        Claim::IsEncoding,
        "the name of a principal",
        "3021a003020102a11a30181b066b72627467741b0e415448454e412e4d49542e454455",
    ),
    (
        Example::PrincipalName,
        Claim::IsRejected,
        "an IA5String in place of a component",
        "3021a003020102a11a301816066b72627467741b0e415448454e412e4d49542e454455",
    ),
    (
        Example::Badge,
        Claim::IsEncoding,
        "a badge",
        "e5160202ff7f1403416461070b6e69676874207368696674",
    ),
    (
        Example::Badge,
        Claim::IsEncoding,
        "a badge without a note",
        "e5090202ff7f1403416461",
    ),
    (
        Example::Badge,
        Claim::Becomes("e5090202ff7f1403416461"),
        "a holder in segments",
        "e50d0202ff7f340704024164040161",
    ),
    (
        Example::Badge,
        Claim::IsEncoding,
        "a badge with a label",
        "e50f0202ff7f14034164611e0400680069",
    ),
    (
        Example::Badge,
        Claim::IsEncoding,
        "a label of a character past 65535",
        "e50f0202ff7f14034164611e04d83dde00",
    ),
    (
        Example::Badge,
        Claim::IsRejected,
        "a label with a surrogate alone",
        "e50d0202ff7f14034164611e02d83d",
    ),
    (
        Example::Badge,
        Claim::IsRejected,
        "a label with U+FFFD",
        "e50d0202ff7f14034164611e02fffd",
    ),
    (
        Example::Badge,
        Claim::IsRejected,
        "a label of three octets",
        "e50e0202ff7f14034164611e03006800",
    ),
    (
        Example::Badge,
        Claim::IsRejected,
        "a badge under a context tag",
        "a5160202ff7f1403416461070b6e69676874207368696674",
    ),
    (
        Example::Badge,
        Claim::IsRejected,
        "a badge under SEQUENCE's tag",
        "30160202ff7f1403416461070b6e69676874207368696674",
    ),
];

#[test]
fn examples_read_and_write(rt: HostRuntime) {
    finds_none(&rt, first_failing(rt.alloc(), &ROWS));
}
