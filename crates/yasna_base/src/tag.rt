//! Identifiers (X.690, 8.1.2).

/// Whether an element's contents are a value's bytes or further elements (X.690, 8.1.2.5).
#[derive(Clone, Copy, PartialEq, Eq, PartialOrd, Ord, Hash, Debug)]
pub enum PCBit {
    /// The contents are the value's own bytes.
    Primitive = 0,
    /// The contents are elements, one after the other.
    Constructed = 1,
}

/// The class of a tag (X.690, 8.1.2.2).
#[derive(Clone, Copy, PartialEq, Eq, PartialOrd, Ord, Hash, Debug)]
pub enum TagClass {
    /// The types of ASN.1 itself.
    Universal = 0,
    /// Types of one application.
    Application,
    /// Types distinguished by their place.
    ContextSpecific,
    /// Types of one enterprise.
    Private,
}

/// A tag: the type of an element.
///
/// Tags are ordered by class, then by number.
#[derive(Clone, Copy, PartialEq, Eq, PartialOrd, Ord, Hash, Debug)]
pub struct Tag {
    /// The class.
    pub tag_class: TagClass,
    /// The number within the class.
    pub tag_number: u64,
}

impl Tag {
    ghost use Rattle.std.specs.Prelude.{◌≡◌};
    ghost use Rattle.yasna_base.specs.declared.tag.TagClass.TheVariants.{Application, ContextSpecific, Private};

    /// The tag of class Application with this number.
    pub const fn application(tag_number: u64) -> Tag
        ensures { result ≡ record { tag_class = Application; tag_number = tag_number } }
    {
        Tag {
            tag_class: TagClass::Application,
            tag_number,
        }
    }

    /// The tag of class ContextSpecific with this number.
    pub const fn context(tag_number: u64) -> Tag
        ensures { result ≡ record { tag_class = ContextSpecific; tag_number = tag_number } }
    {
        Tag {
            tag_class: TagClass::ContextSpecific,
            tag_number,
        }
    }

    /// The tag of class Private with this number.
    pub const fn private(tag_number: u64) -> Tag
        ensures { result ≡ record { tag_class = Private; tag_number = tag_number } }
    {
        Tag {
            tag_class: TagClass::Private,
            tag_number,
        }
    }
}
