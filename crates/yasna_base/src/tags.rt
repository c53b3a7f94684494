//! The universal tags (X.680, 8.6), by name.

use crate::tag::{Tag, TagClass};

/// End of contents.
pub const TAG_EOC: Tag = Tag {
    tag_class: TagClass::Universal,
    tag_number: 0,
};

/// BOOLEAN.
pub const TAG_BOOLEAN: Tag = Tag {
    tag_class: TagClass::Universal,
    tag_number: 1,
};

/// INTEGER.
pub const TAG_INTEGER: Tag = Tag {
    tag_class: TagClass::Universal,
    tag_number: 2,
};

/// BIT STRING.
pub const TAG_BITSTRING: Tag = Tag {
    tag_class: TagClass::Universal,
    tag_number: 3,
};

/// OCTET STRING.
pub const TAG_OCTETSTRING: Tag = Tag {
    tag_class: TagClass::Universal,
    tag_number: 4,
};

/// NULL.
pub const TAG_NULL: Tag = Tag {
    tag_class: TagClass::Universal,
    tag_number: 5,
};

/// OBJECT IDENTIFIER.
pub const TAG_OID: Tag = Tag {
    tag_class: TagClass::Universal,
    tag_number: 6,
};

/// ObjectDescriptor.
pub const TAG_OBJECT_DESCRIPTOR: Tag = Tag {
    tag_class: TagClass::Universal,
    tag_number: 7,
};

/// EXTERNAL, and INSTANCE OF.
pub const TAG_EXT: Tag = Tag {
    tag_class: TagClass::Universal,
    tag_number: 8,
};

/// REAL.
pub const TAG_REAL: Tag = Tag {
    tag_class: TagClass::Universal,
    tag_number: 9,
};

/// ENUMERATED.
pub const TAG_ENUM: Tag = Tag {
    tag_class: TagClass::Universal,
    tag_number: 10,
};

/// EMBEDDED PDV.
pub const TAG_EMBEDDED_PDV: Tag = Tag {
    tag_class: TagClass::Universal,
    tag_number: 11,
};

/// UTF8String.
pub const TAG_UTF8STRING: Tag = Tag {
    tag_class: TagClass::Universal,
    tag_number: 12,
};

/// RELATIVE-OID.
pub const TAG_RELATIVE_OID: Tag = Tag {
    tag_class: TagClass::Universal,
    tag_number: 13,
};

/// TIME.
pub const TAG_TIME: Tag = Tag {
    tag_class: TagClass::Universal,
    tag_number: 14,
};

/// SEQUENCE, and SEQUENCE OF.
pub const TAG_SEQUENCE: Tag = Tag {
    tag_class: TagClass::Universal,
    tag_number: 16,
};

/// SET, and SET OF.
pub const TAG_SET: Tag = Tag {
    tag_class: TagClass::Universal,
    tag_number: 17,
};

/// NumericString.
pub const TAG_NUMERICSTRING: Tag = Tag {
    tag_class: TagClass::Universal,
    tag_number: 18,
};

/// PrintableString.
pub const TAG_PRINTABLESTRING: Tag = Tag {
    tag_class: TagClass::Universal,
    tag_number: 19,
};

/// TeletexString.
pub const TAG_TELETEXSTRING: Tag = Tag {
    tag_class: TagClass::Universal,
    tag_number: 20,
};

/// VideotexString.
pub const TAG_VIDEOTEXSTRING: Tag = Tag {
    tag_class: TagClass::Universal,
    tag_number: 21,
};

/// IA5String.
pub const TAG_IA5STRING: Tag = Tag {
    tag_class: TagClass::Universal,
    tag_number: 22,
};

/// UTCTime.
pub const TAG_UTCTIME: Tag = Tag {
    tag_class: TagClass::Universal,
    tag_number: 23,
};

/// GeneralizedTime.
pub const TAG_GENERALIZEDTIME: Tag = Tag {
    tag_class: TagClass::Universal,
    tag_number: 24,
};

/// GraphicString.
pub const TAG_GRAPHICSTRING: Tag = Tag {
    tag_class: TagClass::Universal,
    tag_number: 25,
};

/// VisibleString.
pub const TAG_VISIBLESTRING: Tag = Tag {
    tag_class: TagClass::Universal,
    tag_number: 26,
};

/// GeneralString.
pub const TAG_GENERALSTRING: Tag = Tag {
    tag_class: TagClass::Universal,
    tag_number: 27,
};

/// UniversalString.
pub const TAG_UNIVERSALSTRING: Tag = Tag {
    tag_class: TagClass::Universal,
    tag_number: 28,
};

/// BMPString.
pub const TAG_BMPSTRING: Tag = Tag {
    tag_class: TagClass::Universal,
    tag_number: 30,
};

/// DATE.
pub const TAG_DATE: Tag = Tag {
    tag_class: TagClass::Universal,
    tag_number: 31,
};

/// TIME-OF-DAY.
pub const TAG_TIME_OF_DAY: Tag = Tag {
    tag_class: TagClass::Universal,
    tag_number: 32,
};

/// DATE-TIME.
pub const TAG_DATE_TIME: Tag = Tag {
    tag_class: TagClass::Universal,
    tag_number: 33,
};

/// DURATION.
pub const TAG_DURATION: Tag = Tag {
    tag_class: TagClass::Universal,
    tag_number: 34,
};

/// OID-IRI.
pub const TAG_OID_INTL_RESID: Tag = Tag {
    tag_class: TagClass::Universal,
    tag_number: 35,
};

/// RELATIVE-OID-IRI.
pub const TAG_RELATIVE_OID_INTL_RESID: Tag = Tag {
    tag_class: TagClass::Universal,
    tag_number: 36,
};
