//! Types that keep an element of any type as it came: DER reads them from one encoding alone.
ghost use Rattle.std.specs.Prelude.{◌≡◌, ℕ, IfOk};

use crate::checks::finds_none;
use crate::pieces::Outcome::{Rejected, Same};
use crate::pieces::{Piece, Row, bytes_if, expected, first_other};
use std::alloc::Global;
use yasna::ASN1ErrorKind::Invalid;
use yasna::BERMode::{Ber, Cer, Der};
use yasna::models::TaggedDerValue;
use yasna::tags::{TAG_INTEGER, TAG_OCTETSTRING, TAG_UTF8STRING};
use yasna::{
    ASN1Result, BERMode, DERExact, PCBit, Tag, TagClass, decode_ber, decode_der, encode_cer,
    encode_der, one_der_encoding,
};

// What DER read is written again as the same bytes.
fn written_again<T: DERExact>(alloc: Global, bytes: &[u8]) -> ASN1Result<Vec<u8>>
    ensures { IfOk result (λ out. out.items ≡ bytes.now) }
{
    one_der_encoding::<T>();
    let value: T = decode_der(alloc, bytes)?;
    encode_der(alloc, &value)
}

// What is read, and what is to be read.
#[derive(Clone, Copy)]
enum RawCase {
    Elements,
    /// So many elements, which aren't written.
    Count(usize),
    /// An element of this tag and these contents, primitive or constructed.
    Element(Tag, PCBit, &'static [u8]),
}

// It is written in CER for CER, and else in DER. Its copy is equal to it.
fn element_rewritten(
    alloc: Global,
    mode: BERMode,
    bytes: &[u8],
    element: (Tag, PCBit, &[u8]),
) -> ASN1Result<Vec<u8>> {
    let read = decode_der::<TaggedDerValue>(alloc, bytes)?;
    expected(read.tag() == element.0 && read.pcbit() == element.1 && read.value() == element.2)?;
    let copy = read.clone()?;
    expected(copy == read)?;
    match mode {
        BERMode::Cer => encode_cer(alloc, &read),
        _ => encode_der(alloc, &read),
    }
}

impl Piece for RawCase {
    fn rewritten(self, alloc: Global, mode: BERMode, bytes: &[u8]) -> ASN1Result<Vec<u8>> {
        match self {
            RawCase::Elements => written_again::<Vec<TaggedDerValue>>(alloc, bytes),
            RawCase::Count(count) => {
                let elements = decode_ber::<Vec<TaggedDerValue>>(alloc, bytes)?;
                bytes_if(alloc, elements.len() == count, bytes)
            }
            RawCase::Element(tag, pcbit, value) => {
                element_rewritten(alloc, mode, bytes, (tag, pcbit, value))
            }
        }
    }
}

const CONTEXT_0: Tag = Tag {
    tag_class: TagClass::ContextSpecific,
    tag_number: 0,
};

static ROWS: [Row<RawCase>; 7] = [
    (
        "elements",
        RawCase::Elements,
        Der,
        "3009020107A0040C02C3A9",
        Same,
    ),
    (
        "a long length is rejected",
        RawCase::Elements,
        Der,
        "300402810107",
        Rejected(Invalid),
    ),
    (
        "two elements",
        RawCase::Count(2),
        Ber,
        "30050500020107",
        Same,
    ),
    (
        "a tagged element",
        RawCase::Element(CONTEXT_0, PCBit::Constructed, &[0x02, 0x01, 0x07]),
        Der,
        "A003020107",
        Same,
    ),
    (
        "a number in CER",
        RawCase::Element(TAG_INTEGER, PCBit::Primitive, &[7]),
        Cer,
        "020107",
        Same,
    ),
    (
        "a text",
        RawCase::Element(TAG_UTF8STRING, PCBit::Primitive, &[65]),
        Der,
        "0C0141",
        Same,
    ),
    (
        "octets",
        RawCase::Element(TAG_OCTETSTRING, PCBit::Primitive, b"Hello!"),
        Der,
        "040648656C6C6F21",
        Same,
    ),
];

#[test]
fn elements_are_written_as_they_came(rt: HostRuntime) {
    finds_none(&rt, first_other(rt.alloc(), &ROWS));
}
