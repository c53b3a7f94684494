//! Tags: their numbers by name, and their order.
//!
//! A tag is shown as the letter of its class (`u` universal, `a` application, `c` context, `p` private) and its number.
//!
//! | Call | Returns |
//! |---|---|
//! | `tag NAME` | the constant of this name in `tags` |
//! | `tag_of TAG` | the tag that its class's function makes |
//! | `order TAG,TAG` | how the two compare |
//! | `order_class`, `order_bit` | the same of classes by letter, and of `primitive` and `constructed` |

use crate::names::named;
use crate::text::Text;
use std::cmp::Ordering;
use yasna::{PCBit, Tag, TagClass, tags};

// The constants by their names.
static TAGS: [(&str, Tag); 35] = [
    ("TAG_EOC", tags::TAG_EOC),
    ("TAG_BOOLEAN", tags::TAG_BOOLEAN),
    ("TAG_INTEGER", tags::TAG_INTEGER),
    ("TAG_BITSTRING", tags::TAG_BITSTRING),
    ("TAG_OCTETSTRING", tags::TAG_OCTETSTRING),
    ("TAG_NULL", tags::TAG_NULL),
    ("TAG_OID", tags::TAG_OID),
    ("TAG_OBJECT_DESCRIPTOR", tags::TAG_OBJECT_DESCRIPTOR),
    ("TAG_EXT", tags::TAG_EXT),
    ("TAG_REAL", tags::TAG_REAL),
    ("TAG_ENUM", tags::TAG_ENUM),
    ("TAG_EMBEDDED_PDV", tags::TAG_EMBEDDED_PDV),
    ("TAG_UTF8STRING", tags::TAG_UTF8STRING),
    ("TAG_RELATIVE_OID", tags::TAG_RELATIVE_OID),
    ("TAG_TIME", tags::TAG_TIME),
    ("TAG_SEQUENCE", tags::TAG_SEQUENCE),
    ("TAG_SET", tags::TAG_SET),
    ("TAG_NUMERICSTRING", tags::TAG_NUMERICSTRING),
    ("TAG_PRINTABLESTRING", tags::TAG_PRINTABLESTRING),
    ("TAG_TELETEXSTRING", tags::TAG_TELETEXSTRING),
    ("TAG_VIDEOTEXSTRING", tags::TAG_VIDEOTEXSTRING),
    ("TAG_IA5STRING", tags::TAG_IA5STRING),
    ("TAG_UTCTIME", tags::TAG_UTCTIME),
    ("TAG_GENERALIZEDTIME", tags::TAG_GENERALIZEDTIME),
    ("TAG_GRAPHICSTRING", tags::TAG_GRAPHICSTRING),
    ("TAG_VISIBLESTRING", tags::TAG_VISIBLESTRING),
    ("TAG_GENERALSTRING", tags::TAG_GENERALSTRING),
    ("TAG_UNIVERSALSTRING", tags::TAG_UNIVERSALSTRING),
    ("TAG_BMPSTRING", tags::TAG_BMPSTRING),
    ("TAG_DATE", tags::TAG_DATE),
    ("TAG_TIME_OF_DAY", tags::TAG_TIME_OF_DAY),
    ("TAG_DATE_TIME", tags::TAG_DATE_TIME),
    ("TAG_DURATION", tags::TAG_DURATION),
    ("TAG_OID_INTL_RESID", tags::TAG_OID_INTL_RESID),
    (
        "TAG_RELATIVE_OID_INTL_RESID",
        tags::TAG_RELATIVE_OID_INTL_RESID,
    ),
];

// The classes by their letters.
static CLASSES: [(&str, TagClass); 4] = [
    ("u", TagClass::Universal),
    ("a", TagClass::Application),
    ("c", TagClass::ContextSpecific),
    ("p", TagClass::Private),
];

// The bits by their names.
static BITS: [(&str, PCBit); 2] = [
    ("primitive", PCBit::Primitive),
    ("constructed", PCBit::Constructed),
];

/// Appends what a call of this family returns, and says whether there are such a call and argument.
pub fn append_outcome(call: &str, arg: &str, text: &mut Text) -> bool {
    let tag = match call {
        "tag" => named(&TAGS, arg),
        "tag_of" => parsed(arg),
        _ => return append_order(call, arg, text),
    };
    let Some(tag) = tag else {
        return false;
    };
    text.push("ok ");
    show_tag(tag, text);
    true
}

/// Shows a tag.
pub fn show_tag(tag: Tag, text: &mut Text) {
    text.push(match tag.tag_class {
        TagClass::Universal => "u",
        TagClass::Application => "a",
        TagClass::ContextSpecific => "c",
        TagClass::Private => "p",
    });
    text.push_value(&tag.tag_number);
}

// Appends how the two that a text names compare by this call, and says whether there are such a call and text.
fn append_order(call: &str, arg: &str, text: &mut Text) -> bool {
    let Some((left, right)) = arg.split_once(',') else {
        return false;
    };
    let order = match call {
        "order" => compared(parsed(left), parsed(right)),
        "order_class" => compared(named(&CLASSES, left), named(&CLASSES, right)),
        "order_bit" => compared(named(&BITS, left), named(&BITS, right)),
        _ => None,
    };
    text.push(match order {
        Some(Ordering::Less) => "ok Less",
        Some(Ordering::Equal) => "ok Equal",
        Some(Ordering::Greater) => "ok Greater",
        None => return false,
    });
    true
}

// How two values compare.
fn compared<T: Ord + Copy>(left: Option<T>, right: Option<T>) -> Option<Ordering> {
    match (left, right) {
        (Some(left), Some(right)) => Some(left.cmp(&right)),
        _ => None,
    }
}

// The tag of this text.
fn parsed(text: &str) -> Option<Tag> {
    let Some((letter, number)) = text.split_at_checked(1) else {
        return None;
    };
    let (Some(class), Ok(tag_number)) = (named(&CLASSES, letter), number.parse()) else {
        return None;
    };
    Some(match class {
        TagClass::Universal => Tag {
            tag_class: TagClass::Universal,
            tag_number,
        },
        TagClass::Application => Tag::application(tag_number),
        TagClass::ContextSpecific => Tag::context(tag_number),
        TagClass::Private => Tag::private(tag_number),
    })
}
