//! What the examples of defaults of strings, object identifiers, structs, lists and bits read and write.
//!
//! Rows of openssl are parameters of signatures that `openssl req -x509 -sigopt rsa_padding_mode:pss` made. The others are written by hand from
//! X.690.

use crate::checks::{
    Claim, Kind, Row, finds_none, first_failing, holds_if_valid, holds_of_checked, holds_of_defined,
};
use crate::examples::label::Label;
use crate::examples::outline::{Folder, Outline};
use crate::examples::pss_params::PssParams;
use std::alloc::Global;

/// The type of a row.
#[derive(Clone, Copy)]
enum Example {
    Label,
    PssParams,
    Outline,
    Folder,
}

impl Kind for Example {
    fn is_so(self, alloc: Global, bytes: &[u8], claim: Claim) -> bool {
        match self {
            Example::Label => {
                holds_of_defined::<Label>(alloc, bytes, claim)
                    && holds_if_valid::<Label>(alloc, bytes, claim)
            }
            Example::PssParams => holds_of_checked::<PssParams>(alloc, bytes, claim),
            Example::Outline => holds_of_checked::<Outline>(alloc, bytes, claim),
            Example::Folder => holds_of_checked::<Folder>(alloc, bytes, claim),
        }
    }
}

static ROWS: [Row<Example>; 54] = [
    (
        Example::Label,
        Claim::IsEncoding,
        "a label of defaults",
        "3000",
    ),
    (
        Example::Label,
        Claim::IsEncoding,
        "another kind",
        "30050603883702",
    ),
    (
        Example::Label,
        Claim::Becomes("3000"),
        "the kind 2.999.1",
        "30050603883701",
    ),
    (
        Example::Label,
        Claim::IsEncoding,
        "a kind below 2.999.1",
        "3006060488370101",
    ),
    (
        Example::Label,
        Claim::IsEncoding,
        "the kind above 2.999.1",
        "300406028837",
    ),
    (
        Example::Label,
        Claim::IsEncoding,
        "another text",
        "30058003626167",
    ),
    (
        Example::Label,
        Claim::Becomes("3000"),
        "the text box",
        "30058003626f78",
    ),
    (
        Example::Label,
        Claim::Becomes("3000"),
        "the text box in two segments",
        "3009a00704016204026f78",
    ),
    (
        Example::Label,
        Claim::IsEncoding,
        "a text that begins with box",
        "30078005626f786573",
    ),
    (
        Example::Label,
        Claim::IsRejected,
        "an empty text",
        "30028000",
    ),
    (
        Example::Label,
        Claim::IsRejected,
        "a text of nine characters",
        "300b8009616161616161616161",
    ),
    (
        Example::Label,
        Claim::IsEncoding,
        "another key",
        "3003040107",
    ),
    (
        Example::Label,
        Claim::Becomes("3000"),
        "the key 0102",
        "300404020102",
    ),
    (
        Example::Label,
        Claim::IsEncoding,
        "an empty key",
        "30020400",
    ),
    (
        Example::Label,
        Claim::IsEncoding,
        "another side",
        "3005a103130153",
    ),
    (
        Example::Label,
        Claim::Becomes("3000"),
        "the side N",
        "3005a10313014e",
    ),
    (
        Example::Label,
        Claim::IsRejected,
        "a side with an asterisk",
        "3005a10313012a",
    ),
    (
        Example::Label,
        Claim::IsEncoding,
        "four other parts",
        "301206038837028003626167040107a103130153",
    ),
    (
        Example::Label,
        Claim::Becomes("3003040107"),
        "a default before another key",
        "30080603883701040107",
    ),
    (
        Example::Label,
        Claim::IsRejected,
        "a key before a text",
        "30080401078003626167",
    ),
    (
        Example::Label,
        Claim::IsRejected,
        "a key after the side",
        "3008a103130153040107",
    ),
    (
        Example::PssParams,
        Claim::IsEncoding,
        "SHA-1 and 20 octets of salt, of openssl",
        "3000",
    ),
    (
        Example::PssParams,
        Claim::IsEncoding,
        "SHA-1 and 32 octets of salt, of openssl",
        "3005a203020120",
    ),
    (
        Example::PssParams,
        Claim::IsEncoding,
        "SHA-256 and 32 octets of salt, of openssl",
        "3034a00f300d06096086480165030402010500a11c301a06092a864886f70d010108300d06096086480165030402010500a203020120",
    ),
    (
        Example::PssParams,
        Claim::IsEncoding,
        "SHA-256 and 20 octets of salt, of openssl",
        "302fa00f300d06096086480165030402010500a11c301a06092a864886f70d010108300d06096086480165030402010500",
    ),
    (
        Example::PssParams,
        Claim::IsEncoding,
        "SHA-1 without parameters",
        "300ba009300706052b0e03021a",
    ),
    (
        Example::PssParams,
        Claim::IsEncoding,
        "SHA-1 with an OCTET STRING as parameters",
        "300da00b300906052b0e03021a0400",
    ),
    (
        Example::PssParams,
        Claim::Becomes("3000"),
        "SHA-1",
        "300da00b300906052b0e03021a0500",
    ),
    (
        Example::PssParams,
        Claim::Becomes("3000"),
        "MGF1 with SHA-1",
        "301aa118301606092a864886f70d010108300906052b0e03021a0500",
    ),
    (
        Example::PssParams,
        Claim::Becomes("3000"),
        "20 octets of salt",
        "3005a203020114",
    ),
    (
        Example::PssParams,
        Claim::Becomes("3000"),
        "the trailer field 1",
        "3005a303020101",
    ),
    (
        Example::PssParams,
        Claim::Becomes("3000"),
        "each default",
        "3031a00b300906052b0e03021a0500a118301606092a864886f70d010108300906052b0e03021a0500a203020114a303020101",
    ),
    (
        Example::PssParams,
        Claim::IsRejected,
        "an algorithm without an element of its own",
        "3009a00706052b0e03021a",
    ),
    (
        Example::PssParams,
        Claim::IsRejected,
        "a salt before an algorithm",
        "3010a203020120a009300706052b0e03021a",
    ),
    (
        Example::Outline,
        Claim::IsEncoding,
        "an outline of defaults",
        "3000",
    ),
    (
        Example::Outline,
        Claim::Becomes("3000"),
        "no heights, encoded",
        "30023000",
    ),
    (
        Example::Outline,
        Claim::IsEncoding,
        "a height",
        "30053003020101",
    ),
    (
        Example::Outline,
        Claim::Becomes("3000"),
        "no marks, encoded",
        "3002a000",
    ),
    (
        Example::Outline,
        Claim::IsEncoding,
        "a mark",
        "3005a0030c0161",
    ),
    (
        Example::Outline,
        Claim::Becomes("3000"),
        "the inner bits 0110",
        "300481020460",
    ),
    (
        Example::Outline,
        Claim::IsEncoding,
        "the inner bits 01100",
        "300481020360",
    ),
    (
        Example::Outline,
        Claim::IsEncoding,
        "no inner bit",
        "3003810100",
    ),
    (
        Example::Outline,
        Claim::Becomes("3000"),
        "the back is shown",
        "300482020640",
    ),
    (
        Example::Outline,
        Claim::IsEncoding,
        "the front is shown",
        "300482020780",
    ),
    (
        Example::Outline,
        Claim::IsRejected,
        "a mark before a height",
        "300aa0030c01613003020101",
    ),
    (
        Example::Folder,
        Claim::IsEncoding,
        "a folder of defaults",
        "3103020105",
    ),
    (
        Example::Folder,
        Claim::Becomes("3103020105"),
        "no heights in a folder, encoded",
        "31050201053000",
    ),
    (
        Example::Folder,
        Claim::IsEncoding,
        "a folder with a height",
        "31080201053003020101",
    ),
    (
        Example::Folder,
        Claim::Becomes("31080201053003020101"),
        "a height before the folder's number",
        "31083003020101020105",
    ),
    (
        Example::Folder,
        Claim::Becomes("3103020105"),
        "the folder's inner bits 0110",
        "310702010581020460",
    ),
    (
        Example::Folder,
        Claim::IsEncoding,
        "other inner bits of a folder",
        "310702010581020360",
    ),
    (
        Example::Folder,
        Claim::Becomes("3103020105"),
        "both defaults of a folder before its number",
        "3109810204603000020105",
    ),
    (
        Example::Folder,
        Claim::IsRejected,
        "a folder without a number",
        "31023000",
    ),
    (
        Example::Folder,
        Claim::IsRejected,
        "no heights in a folder, twice",
        "310702010530003000",
    ),
];

#[test]
fn examples_read_and_write(rt: HostRuntime) {
    finds_none(&rt, first_failing(rt.alloc(), &ROWS));
}
