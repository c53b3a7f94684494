//! What the examples of `yasna_notation_constraints` read and write. The rows are written by hand from X.690.

use crate::checks::{
    Claim, Kind, Row, finds_none, first_failing, holds_of_assigned, holds_of_assigned_canonical,
};
use crate::examples::frame::Frame;
use crate::examples::settings::Settings;
use crate::examples::station::Station;
use std::alloc::Global;

/// The type of a row.
#[derive(Clone, Copy)]
enum Example {
    Frame,
    Settings,
    Station,
}

impl Kind for Example {
    fn is_so(self, alloc: Global, bytes: &[u8], claim: Claim) -> bool {
        match self {
            Example::Frame => holds_of_assigned::<Frame>(alloc, bytes, claim),
            Example::Settings => holds_of_assigned_canonical::<Settings>(alloc, bytes, claim),
            Example::Station => holds_of_assigned_canonical::<Station>(alloc, bytes, claim),
        }
    }
}

static ROWS: [Row<Example>; 41] = [
    (
        Example::Station,
        Claim::IsEncoding,
        "a station",
        "300f1606444b30574359130244450201ca",
    ),
    (
        Example::Station,
        Claim::IsEncoding,
        "a call of eight characters",
        "301116084142434445464748130244450201ca",
    ),
    (
        Example::Station,
        Claim::IsRejected,
        "a call of nine characters",
        "30121609414243444546474849130244450201ca",
    ),
    (
        Example::Station,
        Claim::IsRejected,
        "a call without a character",
        "30091600130244450201ca",
    ),
    (
        Example::Station,
        Claim::IsEncoding,
        "the ends of both ranges of characters",
        "300d1604415a3039130244450201ca",
    ),
    (
        Example::Station,
        Claim::IsRejected,
        "a small letter",
        "300f1606444b30774359130244450201ca",
    ),
    (
        Example::Station,
        Claim::IsRejected,
        "a character before the capitals",
        "300a160140130244450201ca",
    ),
    (
        Example::Station,
        Claim::IsRejected,
        "a character after the capitals",
        "300a16015b130244450201ca",
    ),
    (
        Example::Station,
        Claim::IsRejected,
        "a character after the digits",
        "300a16013a130244450201ca",
    ),
    (
        Example::Station,
        Claim::IsRejected,
        "a country of one character",
        "300e1606444b305743591301440201ca",
    ),
    (
        Example::Station,
        Claim::IsRejected,
        "a country of three characters",
        "30101606444b3057435913034445550201ca",
    ),
    (
        Example::Station,
        Claim::IsEncoding,
        "the least latitude",
        "300f1606444b30574359130244450201a6",
    ),
    (
        Example::Station,
        Claim::IsEncoding,
        "the greatest latitude",
        "300f1606444b305743591302444502015a",
    ),
    (
        Example::Station,
        Claim::IsRejected,
        "a latitude below the least",
        "300f1606444b30574359130244450201a5",
    ),
    (
        Example::Station,
        Claim::IsRejected,
        "a latitude above the greatest",
        "300f1606444b305743591302444502015b",
    ),
    (
        Example::Station,
        Claim::Becomes("300f1606444b30574359130244450201ca"),
        "a call in two segments",
        "301536800403444b3004035743590000130244450201ca",
    ),
    (
        Example::Station,
        Claim::IsRejected,
        "a call of nine characters in two segments",
        "301836800405444b3057430404595959590000130244450201ca",
    ),
    (
        Example::Frame,
        Claim::IsEncoding,
        "a frame",
        "3015030204f0310a040201020404010203040403000102",
    ),
    (
        Example::Frame,
        Claim::IsEncoding,
        "16 flags and a note of three characters",
        "301e030300ffff310a0402010204040102030404030001020c06c3a4c3b6c3bc",
    ),
    (
        Example::Frame,
        Claim::IsRejected,
        "three flags",
        "3015030205e0310a040201020404010203040403000102",
    ),
    (
        Example::Frame,
        Claim::IsRejected,
        "17 flags",
        "3017030407ffff80310a040201020404010203040403000102",
    ),
    (
        Example::Frame,
        Claim::IsRejected,
        "a set without a key",
        "300b030204f031000403000102",
    ),
    (
        Example::Frame,
        Claim::IsRejected,
        "a set of three keys",
        "3017030204f0310c0402010204020102040201020403000102",
    ),
    (
        Example::Frame,
        Claim::IsRejected,
        "a key of one octet",
        "300e030204f031030401010403000102",
    ),
    (
        Example::Frame,
        Claim::IsRejected,
        "a key of five octets",
        "3012030204f03107040501010101010403000102",
    ),
    (
        Example::Frame,
        Claim::IsRejected,
        "a payload of two octets",
        "3014030204f0310a0402010204040102030404020102",
    ),
    (
        Example::Frame,
        Claim::IsEncoding,
        "a payload of 40 octets",
        "303a030204f0310a04020102040401020304042801010101010101010101010101010101010101010101010101010101010101010101010101010101",
    ),
    (
        Example::Frame,
        Claim::IsEncoding,
        "an empty note",
        "3017030204f0310a0402010204040102030404030001020c00",
    ),
    (
        Example::Frame,
        Claim::IsRejected,
        "a note of four characters",
        "301b030204f0310a0402010204040102030404030001020c0461626364",
    ),
    (
        Example::Frame,
        Claim::IsEncoding,
        "a trailer of octets",
        "3018030204f0310a040201020404010203040403000102800161",
    ),
    (
        Example::Frame,
        Claim::IsEncoding,
        "a trailer of an element",
        "301a030204f0310a040201020404010203040403000102a003020105",
    ),
    (
        Example::Frame,
        Claim::IsRejected,
        "a trailer with another tag",
        "3018030204f0310a040201020404010203040403000102810161",
    ),
    (
        Example::Frame,
        Claim::IsRejected,
        "a trailer, cut off",
        "3018030204f0310a040201020404010203040403000102800261",
    ),
    (Example::Settings, Claim::IsEncoding, "the defaults", "3000"),
    (
        Example::Settings,
        Claim::IsEncoding,
        "no default",
        "300901010080010a0a0102",
    ),
    (
        Example::Settings,
        Claim::IsEncoding,
        "the least level",
        "30038001f6",
    ),
    (
        Example::Settings,
        Claim::IsRejected,
        "a level above the greatest",
        "300380010b",
    ),
    (
        Example::Settings,
        Claim::IsRejected,
        "a mode without a name",
        "30030a0103",
    ),
    (
        Example::Settings,
        Claim::Becomes("3000"),
        "TRUE",
        "30030101ff",
    ),
    (
        Example::Settings,
        Claim::Becomes("3003010100"),
        "the level -1 and FALSE",
        "30060101008001ff",
    ),
    (
        Example::Settings,
        Claim::Becomes("3000"),
        "the mode slow",
        "30030a0101",
    ),
];

#[test]
fn examples_read_and_write(rt: HostRuntime) {
    finds_none(&rt, first_failing(rt.alloc(), &ROWS));
}
