//! What the examples of `yasna_notation_types` read and write. Some rows have the octets of `openssl asn1parse -genconf`, or of `pyasn1` where a SET
//! is in another order, and one those of X.690, 8.6.4.2. The others are written by hand.

use crate::checks::{
    Claim, Kind, Row, finds_none, first_failing, holds_of, holds_of_assigned_canonical,
    holds_of_canonical, holds_of_defined,
};
use crate::examples::entry::Entry;
use crate::examples::header::Header;
use crate::examples::key_info::KeyInfo;
use crate::examples::person::Person;
use crate::examples::profile::Profile;
use crate::examples::reply::Reply;
use crate::examples::shape::Shape;
use crate::examples::usage::Usage;
use std::alloc::Global;

/// The type of a row.
#[derive(Clone, Copy)]
enum Example {
    Entry,
    Header,
    KeyInfo,
    Person,
    Profile,
    Reply,
    Shape,
    Usage,
}

impl Kind for Example {
    fn is_so(self, alloc: Global, bytes: &[u8], claim: Claim) -> bool {
        match self {
            Example::Entry => holds_of_assigned_canonical::<Entry>(alloc, bytes, claim),
            Example::Header => holds_of::<Header>(alloc, bytes, claim),
            Example::KeyInfo => holds_of_assigned_canonical::<KeyInfo>(alloc, bytes, claim),
            Example::Person => holds_of_canonical::<Person>(alloc, bytes, claim),
            Example::Profile => holds_of::<Profile>(alloc, bytes, claim),
            Example::Reply => holds_of_defined::<Reply>(alloc, bytes, claim),
            Example::Shape => holds_of::<Shape>(alloc, bytes, claim),
            Example::Usage => holds_of_assigned_canonical::<Usage>(alloc, bytes, claim),
        }
    }
}

static ROWS: [Row<Example>; 45] = [
    (
        Example::Reply,
        Claim::IsEncoding,
        "two names",
        "30060a0103800133",
    ),
    (
        Example::Reply,
        Claim::IsEncoding,
        "a number without a name",
        "30060a0100800163",
    ),
    (
        Example::Reply,
        Claim::IsEncoding,
        "a negative one",
        "30070a01058002ff7f",
    ),
    (
        Example::Reply,
        Claim::IsRejected,
        "no such status",
        "30060a0104800133",
    ),
    (
        Example::Reply,
        Claim::IsRejected,
        "an INTEGER",
        "3006020103800133",
    ),
    (
        Example::Reply,
        Claim::IsRejected,
        "no octet",
        "30050a00800133",
    ),
    (
        Example::KeyInfo,
        Claim::IsEncoding,
        "bits",
        "3008030300e0ff020101",
    ),
    (
        Example::KeyInfo,
        Claim::IsEncoding,
        "unused bits",
        "3007030205e0020101",
    ),
    (
        Example::KeyInfo,
        Claim::Becomes("3007030205e0020101"),
        "unused bits that are ones",
        "3007030205ff020101",
    ),
    (
        Example::KeyInfo,
        Claim::Becomes("300c0307040a3b5f291cd0020101"),
        "the segments of X.690, 8.6.4.2",
        "308023800303000a3b0305045f291cd000000201010000",
    ),
    (
        Example::KeyInfo,
        Claim::IsRejected,
        "eight unused bits",
        "300703020800020101",
    ),
    (
        Example::Usage,
        Claim::IsEncoding,
        "a bit",
        "300702010181020640",
    ),
    (
        Example::Usage,
        Claim::IsEncoding,
        "two",
        "30080201018103078080",
    ),
    (
        Example::Usage,
        Claim::IsEncoding,
        "no bit",
        "3006020101810100",
    ),
    (
        Example::Usage,
        Claim::Becomes("300702010181020640"),
        "zeros at the end",
        "30080201018103004000",
    ),
    (
        Example::Usage,
        Claim::Becomes("300702010181020640"),
        "a zero at the end",
        "300702010181020540",
    ),
    (
        Example::Usage,
        Claim::Becomes("3006020101810100"),
        "zeros only",
        "30080201018103000000",
    ),
    (
        Example::Usage,
        Claim::IsRejected,
        "an octet too few",
        "30050201018100",
    ),
    (Example::Shape, Claim::IsEncoding, "a number", "020105"),
    (Example::Shape, Claim::IsEncoding, "a flag", "0101ff"),
    (
        Example::Shape,
        Claim::IsEncoding,
        "an unknown element",
        "0c0161",
    ),
    (
        Example::Shape,
        Claim::IsRejected,
        "a flag of two octets",
        "0102ffff",
    ),
    (
        Example::Shape,
        Claim::IsRejected,
        "an unknown element, cut off",
        "0c0261",
    ),
    (
        Example::Entry,
        Claim::IsEncoding,
        "another than the default",
        "31060101ff0201ff",
    ),
    (
        Example::Entry,
        Claim::IsEncoding,
        "the default",
        "31040202012c",
    ),
    (
        Example::Entry,
        Claim::Becomes("31060101ff0201ff"),
        "the module's order",
        "31060201ff010101",
    ),
    (
        Example::Entry,
        Claim::Becomes("31040202012c"),
        "the default, encoded",
        "31070101000202012c",
    ),
    (Example::Entry, Claim::IsRejected, "no number", "31030101ff"),
    (
        Example::Header,
        Claim::IsEncoding,
        "two bits, and two unknown elements",
        "300e0201030303068040850261620500",
    ),
    (
        Example::Header,
        Claim::IsEncoding,
        "no bit, and nothing unknown",
        "3006020103030100",
    ),
    (
        Example::Header,
        Claim::IsRejected,
        "an unknown element, cut off",
        "3009020103030100850261",
    ),
    (
        Example::Person,
        Claim::IsEncoding,
        "all parts",
        "31090101ff80010081012a",
    ),
    (
        Example::Person,
        Claim::IsEncoding,
        "one omitted",
        "31060101ff81012a",
    ),
    (
        Example::Person,
        Claim::Becomes("31090101ff80010081012a"),
        "the module's order",
        "318081012a0101018001000000",
    ),
    (
        Example::Person,
        Claim::IsRejected,
        "one missing",
        "31030101ff",
    ),
    (
        Example::Person,
        Claim::IsRejected,
        "one twice",
        "31090101ff0101ff81012a",
    ),
    (
        Example::Person,
        Claim::IsRejected,
        "an element more",
        "31090101ff02010581012a",
    ),
    (
        Example::Profile,
        Claim::IsEncoding,
        "known parts",
        "30060201058001ff",
    ),
    (
        Example::Profile,
        Claim::IsEncoding,
        "two unknown elements",
        "300f0201058001ff0c0161300405000500",
    ),
    (
        Example::Profile,
        Claim::IsEncoding,
        "one unknown only",
        "30060201050c0161",
    ),
    (
        Example::Profile,
        Claim::IsEncoding,
        "another than the default",
        "30090201050101ff0c0161",
    ),
    (
        Example::Profile,
        Claim::IsEncoding,
        "the number only",
        "3003020105",
    ),
    (
        Example::Profile,
        Claim::IsRejected,
        "a known part twice",
        "30090201058001ff8001ff",
    ),
    (
        Example::Profile,
        Claim::IsRejected,
        "known parts that change places",
        "30090201058001ff0101ff",
    ),
    (
        Example::Profile,
        Claim::IsRejected,
        "an unknown element, cut off",
        "30060201050c0261",
    ),
];

#[test]
fn examples_read_and_write(rt: HostRuntime) {
    finds_none(&rt, first_failing(rt.alloc(), &ROWS));
}
