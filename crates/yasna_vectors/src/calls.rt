//! The calls that read, by their names.
//!
//! A read of one value is the read of its kind. The others are made of such reads: `reads` says what each body reads, `steps` how
//! the parts of a SEQUENCE and the elements of a SET are asked for. `nestN`, which is in no table, reads N SEQUENCEs one in
//! the other around an INTEGER.

use crate::kind::ElementType;
use crate::parts::{Frame, Group, Piece};
use crate::reads::{Body, Read, Then};
use crate::steps::{Ask, Choice, SetAsk, Step};
use crate::strings::Class;
use yasna::tags::{TAG_BOOLEAN, TAG_INTEGER, TAG_NULL, TAG_SEQUENCE};
use yasna::{ASN1ErrorKind, Tag, TagClass};

const INTEGER: Piece = Piece(Frame::Plain, ElementType::I64);

const BOOLEAN: Piece = Piece(Frame::Plain, ElementType::Bool);

const OCTETS: Piece = Piece(Frame::Plain, ElementType::Bytes);

const AROUND: Piece = Piece(Frame::Plain, ElementType::Around);

const WITHIN: Piece = Piece(Frame::Plain, ElementType::Within);

/// An element as it is.
pub const RAW: Piece = Piece(Frame::Plain, ElementType::Raw);

const IDLE: Piece = Piece(Frame::Plain, ElementType::Idle);

const WITHOUT_MEMORY: Piece = Piece(
    Frame::Plain,
    ElementType::Rejected(ASN1ErrorKind::OutOfMemory),
);

/// `bytes`.
pub const BYTES: Read = Read(Then::Shown, Body::Alone(OCTETS));

/// `oid`.
pub const IDENTIFIER: Read = Read(
    Then::Shown,
    Body::Alone(Piece(Frame::Plain, ElementType::Identifier)),
);

/// A SEQUENCE of a big INTEGER.
pub const BIG_NUMBER: Read = Read(
    Then::Shown,
    Body::Sequence(&[Step(Ask::Next, Piece(Frame::Plain, ElementType::BigInteger))]),
);

/// `seqof_i64`.
pub const NUMBERS: Read = Read(Then::Shown, Body::List(Group::SequenceOf, INTEGER));

// Tags of the context.
const C0: Tag = Tag {
    tag_class: TagClass::ContextSpecific,
    tag_number: 0,
};

/// Context 3.
pub const C3: Tag = Tag {
    tag_class: TagClass::ContextSpecific,
    tag_number: 3,
};

const C4: Tag = Tag {
    tag_class: TagClass::ContextSpecific,
    tag_number: 4,
};

const C27: Tag = Tag {
    tag_class: TagClass::ContextSpecific,
    tag_number: 27,
};

const C28: Tag = Tag {
    tag_class: TagClass::ContextSpecific,
    tag_number: 28,
};

const C31: Tag = Tag {
    tag_class: TagClass::ContextSpecific,
    tag_number: 31,
};

const C345677: Tag = Tag {
    tag_class: TagClass::ContextSpecific,
    tag_number: 345_677,
};

const C345678: Tag = Tag {
    tag_class: TagClass::ContextSpecific,
    tag_number: 345_678,
};

const P1000: Tag = Tag {
    tag_class: TagClass::Private,
    tag_number: 1000,
};

/// Reads of one value.
pub static KINDS: [(&str, ElementType); 26] = [
    ("bool", ElementType::Bool),
    ("null", ElementType::Null),
    ("enum", ElementType::Enum),
    ("i64", ElementType::I64),
    ("i32", ElementType::I32),
    ("i16", ElementType::I16),
    ("i8", ElementType::I8),
    ("u64", ElementType::U64),
    ("u32", ElementType::U32),
    ("u16", ElementType::U16),
    ("u8", ElementType::U8),
    ("bigint", ElementType::BigInteger),
    ("bytes", ElementType::Bytes),
    ("bits", ElementType::Bits),
    ("utf8", ElementType::Text(Class::Utf8)),
    ("utf8_string", ElementType::Text(Class::Utf8String)),
    ("numeric", ElementType::Text(Class::Numeric)),
    ("printable", ElementType::Text(Class::Printable)),
    ("ia5", ElementType::Text(Class::Ia5)),
    ("bmp", ElementType::Text(Class::Bmp)),
    ("visible", ElementType::Text(Class::Visible)),
    ("oid", ElementType::Identifier),
    ("utctime", ElementType::UtcTime),
    ("gtime", ElementType::GeneralizedTime),
    ("der", ElementType::Raw),
    ("tdv", ElementType::Tagged),
];

/// Reads of several values, or of none.
pub static CALLS: [(&str, Read); 67] = [
    // SEQUENCE, read and written part by part
    (
        "seq_ib",
        Read(
            Then::Shown,
            Body::Sequence(&[Step(Ask::Next, INTEGER), Step(Ask::Next, BOOLEAN)]),
        ),
    ),
    (
        "seq_i",
        Read(Then::Shown, Body::Sequence(&[Step(Ask::Next, INTEGER)])),
    ),
    (
        "seq_sb",
        Read(
            Then::Shown,
            Body::Sequence(&[Step(Ask::Next, AROUND), Step(Ask::Next, BOOLEAN)]),
        ),
    ),
    ("seq_empty", Read(Then::Shown, Body::Sequence(&[]))),
    // with parts that may be absent (X.690, 8.9.3 and 11.5)
    (
        "seq_opt",
        Read(
            Then::Shown,
            Body::Sequence(&[Step(Ask::Optional, INTEGER), Step(Ask::Next, BOOLEAN)]),
        ),
    ),
    (
        "seq_def",
        Read(
            Then::Shown,
            Body::Sequence(&[Step(Ask::Ten, INTEGER), Step(Ask::Next, BOOLEAN)]),
        ),
    ),
    (
        "seq_opts",
        Read(
            Then::Shown,
            Body::Sequence(&[
                Step(Ask::Optional, OCTETS),
                Step(Ask::Optional, AROUND),
                Step(Ask::Optional, Piece(Frame::Explicit(C0), ElementType::Null)),
            ]),
        ),
    ),
    (
        "opt_err",
        Read(
            Then::Shown,
            Body::Sequence(&[
                Step(
                    Ask::Optional,
                    Piece(Frame::Plain, ElementType::Rejected(ASN1ErrorKind::Invalid)),
                ),
                Step(Ask::Next, INTEGER),
            ]),
        ),
    ),
    (
        "opt_memory",
        Read(
            Then::Shown,
            Body::Sequence(&[
                Step(Ask::OptionalDiscarded, WITHOUT_MEMORY),
                Step(Ask::Next, INTEGER),
            ]),
        ),
    ),
    (
        "swallow1",
        Read(
            Then::Shown,
            Body::Sequence(&[
                Step(Ask::Optional, BOOLEAN),
                Step(Ask::Discarded, OCTETS),
                Step(Ask::Next, INTEGER),
            ]),
        ),
    ),
    // with the bytes that were taken
    (
        "buf",
        Read(
            Then::Shown,
            Body::Sequence(&[
                Step(Ask::Buffered, INTEGER),
                Step(Ask::Next, Piece(Frame::Plain, ElementType::Null)),
            ]),
        ),
    ),
    ("buf2", Read(Then::Shown, Body::Buffered(OCTETS))),
    (
        "buf3",
        Read(
            Then::Shown,
            Body::Sequence(&[
                Step(
                    Ask::NextBuffered,
                    Piece(Frame::Implicit(C3), ElementType::Bytes),
                ),
                Step(Ask::Next, Piece(Frame::Plain, ElementType::Null)),
            ]),
        ),
    ),
    // SEQUENCE OF, read item by item (X.690, 8.10)
    (
        "seqof_i64",
        Read(Then::Shown, Body::List(Group::SequenceOf, INTEGER)),
    ),
    (
        "seqof_der",
        Read(Then::Shown, Body::List(Group::SequenceOf, RAW)),
    ),
    (
        "seqof_choice",
        Read(
            Then::Shown,
            Body::List(Group::SequenceOf, Piece(Frame::Plain, ElementType::Choice)),
        ),
    ),
    (
        "seqof_sum",
        Read(Then::Shown, Body::Each(Group::SequenceOf, ElementType::I64)),
    ),
    (
        "idle",
        Read(Then::Null, Body::Each(Group::SequenceOf, ElementType::Idle)),
    ),
    // SET OF, written in the order of DER (X.690, 8.12 and 11.6)
    (
        "setof_i64",
        Read(Then::Shown, Body::List(Group::SetOf, INTEGER)),
    ),
    (
        "setof_bytes",
        Read(Then::Shown, Body::List(Group::SetOf, OCTETS)),
    ),
    (
        "setof_der",
        Read(Then::Shown, Body::List(Group::SetOf, RAW)),
    ),
    (
        "setof_sum",
        Read(Then::Shown, Body::Each(Group::SetOf, ElementType::I64)),
    ),
    (
        "setof_idle",
        Read(Then::Null, Body::Each(Group::SetOf, ElementType::Idle)),
    ),
    // SET, whose elements are asked for by their tags (X.690, 8.11, 10.3 and 11.5)
    (
        "set_ib",
        Read(
            Then::Shown,
            Body::Set(&[
                Choice(SetAsk::Next, &[TAG_INTEGER], INTEGER),
                Choice(SetAsk::Next, &[TAG_BOOLEAN], BOOLEAN),
            ]),
        ),
    ),
    (
        "set_ii",
        Read(
            Then::Shown,
            Body::Set(&[
                Choice(SetAsk::Next, &[TAG_INTEGER], INTEGER),
                Choice(SetAsk::Next, &[TAG_INTEGER], INTEGER),
            ]),
        ),
    ),
    (
        "set_abcd",
        Read(
            Then::Shown,
            Body::Set(&[
                Choice(
                    SetAsk::Next,
                    &[C28],
                    Piece(Frame::Implicit(C28), ElementType::I64),
                ),
                Choice(
                    SetAsk::Next,
                    &[C345678],
                    Piece(Frame::Explicit(C345678), ElementType::Bytes),
                ),
                Choice(
                    SetAsk::Next,
                    &[C27],
                    Piece(Frame::Explicit(C27), ElementType::I64),
                ),
                Choice(
                    SetAsk::Next,
                    &[C345677],
                    Piece(Frame::Explicit(C345677), ElementType::Bytes),
                ),
            ]),
        ),
    ),
    (
        "set_seqel",
        Read(
            Then::Shown,
            Body::Set(&[Choice(
                SetAsk::Next,
                &[TAG_SEQUENCE],
                Piece(Frame::Plain, ElementType::Nests),
            )]),
        ),
    ),
    (
        "set_der",
        Read(
            Then::Shown,
            Body::Set(&[Choice(SetAsk::Next, &[TAG_SEQUENCE], RAW)]),
        ),
    ),
    (
        "set_again",
        Read(
            Then::Shown,
            Body::Set(&[
                Choice(SetAsk::AskedInVain, &[TAG_BOOLEAN], IDLE),
                Choice(SetAsk::Next, &[TAG_INTEGER], INTEGER),
            ]),
        ),
    ),
    ("set_empty", Read(Then::Shown, Body::Set(&[]))),
    (
        "set_opt",
        Read(
            Then::Shown,
            Body::Set(&[
                Choice(SetAsk::Optional, &[TAG_INTEGER], INTEGER),
                Choice(SetAsk::Default(false), &[TAG_BOOLEAN], BOOLEAN),
            ]),
        ),
    ),
    (
        "set_bi",
        Read(
            Then::Shown,
            Body::Set(&[
                Choice(SetAsk::Next, &[TAG_BOOLEAN], BOOLEAN),
                Choice(SetAsk::Next, &[TAG_NULL, TAG_INTEGER], INTEGER),
            ]),
        ),
    ),
    (
        "set_def",
        Read(
            Then::Shown,
            Body::Set(&[
                Choice(SetAsk::Optional, &[TAG_INTEGER], INTEGER),
                Choice(SetAsk::Default(true), &[TAG_BOOLEAN], BOOLEAN),
            ]),
        ),
    ),
    (
        "set_past",
        Read(
            Then::Shown,
            Body::Set(&[
                Choice(SetAsk::DefaultDiscarded(true), &[TAG_BOOLEAN], BOOLEAN),
                Choice(SetAsk::Next, &[TAG_INTEGER], INTEGER),
            ]),
        ),
    ),
    (
        "set_other",
        Read(
            Then::Shown,
            Body::Set(&[Choice(SetAsk::Optional, &[TAG_INTEGER], BOOLEAN)]),
        ),
    ),
    (
        "set_memory",
        Read(
            Then::Shown,
            Body::Set(&[Choice(SetAsk::Optional, &[TAG_INTEGER], WITHOUT_MEMORY)]),
        ),
    ),
    (
        "swallow_set",
        Read(
            Then::Discarded,
            Body::Set(&[Choice(SetAsk::OptionalDiscarded, &[TAG_INTEGER], WITHOUT_MEMORY)]),
        ),
    ),
    (
        "set_any",
        Read(Then::Shown, Body::Set(&[Choice(SetAsk::Any, &[], RAW)])),
    ),
    // under tags of the caller's (X.690, 8.14)
    (
        "tag3_i64",
        Read(
            Then::Shown,
            Body::Alone(Piece(Frame::Explicit(C3), ElementType::I64)),
        ),
    ),
    (
        "tag31_null",
        Read(
            Then::Shown,
            Body::Alone(Piece(Frame::Explicit(C31), ElementType::Null)),
        ),
    ),
    (
        "tag345678_bytes",
        Read(
            Then::Shown,
            Body::Alone(Piece(Frame::Explicit(C345678), ElementType::Bytes)),
        ),
    ),
    (
        "itag3_i64",
        Read(
            Then::Shown,
            Body::Alone(Piece(Frame::Implicit(C3), ElementType::I64)),
        ),
    ),
    (
        "itag3_again",
        Read(
            Then::Shown,
            Body::Alone(Piece(Frame::Implicit(C3), ElementType::Again)),
        ),
    ),
    (
        "itag3_bytes",
        Read(
            Then::Shown,
            Body::Alone(Piece(Frame::Implicit(C3), ElementType::Bytes)),
        ),
    ),
    (
        "itag3_bits",
        Read(
            Then::Shown,
            Body::Alone(Piece(Frame::Implicit(C3), ElementType::Bits)),
        ),
    ),
    (
        "itag3_utf8",
        Read(
            Then::Shown,
            Body::Alone(Piece(Frame::Implicit(C3), ElementType::Text(Class::Utf8))),
        ),
    ),
    (
        "itag3_tag4",
        Read(
            Then::Under(C3),
            Body::Alone(Piece(Frame::Explicit(C4), ElementType::I64)),
        ),
    ),
    (
        "itag3_itag4",
        Read(
            Then::Under(C3),
            Body::Alone(Piece(Frame::Implicit(C4), ElementType::I64)),
        ),
    ),
    (
        "itag31_seq",
        Read(
            Then::Under(P1000),
            Body::Sequence(&[Step(Ask::Next, INTEGER), Step(Ask::Next, BOOLEAN)]),
        ),
    ),
    (
        "lookder",
        Read(
            Then::Shown,
            Body::Alone(Piece(Frame::LookedAt, ElementType::Raw)),
        ),
    ),
    (
        "rec",
        Read(
            Then::Shown,
            Body::Alone(Piece(Frame::Plain, ElementType::Nests)),
        ),
    ),
    ("tree", Read(Then::Shown, Body::Tree)),
    // of which something else is shown
    (
        "idle_collect",
        Read(Then::Null, Body::List(Group::SequenceOf, IDLE)),
    ),
    (
        "setof_idle_collect",
        Read(Then::Null, Body::List(Group::SetOf, IDLE)),
    ),
    (
        "set_drop",
        Read(
            Then::Null,
            Body::Set(&[Choice(SetAsk::Asked, &[TAG_INTEGER], IDLE)]),
        ),
    ),
    (
        "set_optidle",
        Read(
            Then::Last,
            Body::Set(&[Choice(SetAsk::Optional, &[TAG_INTEGER], IDLE)]),
        ),
    ),
    // whose callbacks throw errors away, or make them
    (
        "seq_err",
        Read(
            Then::Shown,
            Body::Sequence(&[Step(Ask::Rejected(ASN1ErrorKind::Invalid), IDLE)]),
        ),
    ),
    (
        "seq_drop",
        Read(Then::Null, Body::Sequence(&[Step(Ask::Discarded, INTEGER)])),
    ),
    (
        "seq_replace",
        Read(
            Then::Shown,
            Body::Sequence(&[
                Step(Ask::Discarded, BOOLEAN),
                Step(Ask::Rejected(ASN1ErrorKind::Eof), IDLE),
            ]),
        ),
    ),
    ("swallow2", Read(Then::Discarded, Body::Alone(WITHIN))),
    (
        "swallow3",
        Read(
            Then::Last,
            Body::Sequence(&[Step(Ask::Discarded, WITHIN), Step(Ask::Next, INTEGER)]),
        ),
    ),
    (
        "swallow4",
        Read(
            Then::Last,
            Body::Sequence(&[Step(Ask::Discarded, INTEGER), Step(Ask::Next, WITHIN)]),
        ),
    ),
    (
        "swallow_err",
        Read(
            Then::Discarded,
            Body::Sequence(&[Step(Ask::Rejected(ASN1ErrorKind::Invalid), IDLE)]),
        ),
    ),
    (
        "swallow_drop",
        Read(
            Then::Discarded,
            Body::Sequence(&[Step(Ask::Discarded, INTEGER)]),
        ),
    ),
    (
        "swallow_deep",
        Read(
            Then::Discarded,
            Body::Alone(Piece(Frame::Plain, ElementType::Nest(101))),
        ),
    ),
    ("replace_bool", Read(Then::Replaced, Body::Alone(BOOLEAN))),
    (
        "replace_i8",
        Read(
            Then::Replaced,
            Body::Alone(Piece(Frame::Plain, ElementType::I8)),
        ),
    ),
];
