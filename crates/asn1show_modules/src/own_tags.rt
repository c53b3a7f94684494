//! The tags of types that have one by themselves (X.680, 8.4).
ghost use Rattle.std.specs.Prelude.{◌≡◌};
ghost use Rattle.yasna_base.specs.Identifier.{universal};
ghost use Rattle.asn1show_modules.specs.Tags.{element_class, element_tag};

use asn1_types::model::{Notation, TagClass as Class, TagLayer, TextKind};
use yasna_base::tag::{Tag, TagClass};

/// A tag of the class UNIVERSAL.
pub fn universal(tag_number: u64) -> Tag
    ensures { result ≡ universal tag_number }
{
    Tag {
        tag_class: TagClass::Universal,
        tag_number,
    }
}

fn class_of(class: Class) -> TagClass
    ensures { result ≡ element_class «class» }
{
    match class {
        Class::Universal => TagClass::Universal,
        Class::Application => TagClass::Application,
        Class::ContextSpecific => TagClass::ContextSpecific,
        Class::Private => TagClass::Private,
    }
}

/// The tag of a layer.
pub fn layer_tag(layer: TagLayer) -> Tag
    ensures { result ≡ element_tag layer }
{
    Tag {
        tag_class: class_of(layer.class),
        tag_number: layer.number,
    }
}

/// The number of the UNIVERSAL tag of a string of characters.
pub fn text_number(kind: TextKind) -> u64 {
    match kind {
        TextKind::Utf8 => 12,
        TextKind::Numeric => 18,
        TextKind::Printable => 19,
        TextKind::Ia5 => 22,
        TextKind::Visible => 26,
        TextKind::Bmp => 30,
    }
}

/// The tag of a type in which no other type is, or `None` of any tag.
pub fn simple_tag(notation: &Notation) -> Option<Tag> {
    let number = match notation {
        Notation::Boolean => 1,
        Notation::Integer(_, _) => 2,
        Notation::BitString(_) | Notation::NamedBits(_, _) => 3,
        Notation::OctetString(_) => 4,
        Notation::Null => 5,
        Notation::ObjectIdentifier => 6,
        Notation::Text(kind, _) => text_number(*kind),
        Notation::UtcTime => 23,
        Notation::GeneralizedTime => 24,
        Notation::OctetsUnder(number) | Notation::ElementsUnder(number) => *number,
        _ => return None,
    };
    Some(universal(number))
}
