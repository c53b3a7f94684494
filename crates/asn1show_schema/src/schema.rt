//! Types of modules as tables. A number in one of them is a row of another one.
ghost use Rattle.std.specs.Prelude.{◌≡◌, []};
ghost use Rattle.asn1show_schema.specs.Values.{universal_number};

use yasna_base::tag::Tag;

/// A name: where it begins in the text of names, and where it ends.
#[derive(Clone, Copy)]
pub struct Name {
    /// Where it begins.
    pub start: usize,
    /// Where it ends.
    pub end: usize,
}

/// Rows of a table, one after the other.
#[derive(Clone, Copy)]
pub struct Rows {
    /// The first row.
    pub first: usize,
    /// The number after that of the last row.
    pub end: usize,
}

/// A number of at most 64 bits and a sign. Zero is not negative.
#[derive(Clone, Copy, PartialEq)]
pub struct Number {
    /// Whether it is below zero.
    pub is_negative: bool,
    /// How far it is from zero.
    pub magnitude: u64,
}

/// The bounds of a number, both inclusive (X.680, 51.4).
#[derive(Clone, Copy)]
pub struct Bounds {
    /// The least number, if there is one.
    pub low: Option<Number>,
    /// The greatest number, if there is one.
    pub high: Option<Number>,
}

/// The bounds of a size, both inclusive (X.680, 51.5).
#[derive(Clone, Copy)]
pub struct Size {
    /// The least size.
    pub low: u64,
    /// The greatest size, if there is one.
    pub high: Option<u64>,
}

/// A number or a bit that has a name.
#[derive(Clone, Copy)]
pub struct NamedNumber {
    /// The name.
    pub name: Name,
    /// The number, or the position of the bit (X.680, 22.3).
    pub number: Number,
}

/// The type of a value in which no elements of the module are. Names are rows of `Schema::named_numbers`.
#[derive(Clone, Copy)]
pub enum ValueType {
    /// INTEGER, with the names of its numbers.
    Integer(Bounds, Rows),
    /// ENUMERATED: its items, and whether there may be others.
    Enumerated(Rows, bool),
    /// BIT STRING. The size is in bits.
    BitString(Size),
    /// BIT STRING with names of bits: zeros at its end mean nothing, so it has no size (X.680, 22.7).
    NamedBits(Rows),
    /// OCTET STRING. The size is in octets.
    OctetString(Size),
    /// The string of characters with this UNIVERSAL tag. The size is in characters.
    Text(u64, Size),
    /// Another type with this UNIVERSAL tag.
    Other(u64),
}

/// The places of parts, one after the other.
#[derive(Clone, Copy)]
pub struct Parts {
    /// The first place.
    pub first: usize,
    /// The number after that of the last place.
    pub end: usize,
    /// The place before which a later version may add elements, if `...` is there (X.680, 25.1).
    pub extension: Option<usize>,
}

/// What is in an element.
#[derive(Clone, Copy)]
pub enum Contents {
    /// Elements or a value of which the module says nothing.
    Any,
    /// A value of a type.
    Value(ValueType),
    /// One element, that of a place: what is under an EXPLICIT tag.
    One(usize),
    /// Elements of a place, as many as this: what is in a SEQUENCE OF.
    SequenceOf(usize, Size),
    /// Elements of a place, as many as this: what is in a SET OF.
    SetOf(usize, Size),
    /// The element of a place, or another one: what is where an object identifier selects a type.
    Selected(usize),
    /// Elements of these places in their order: what is in a SEQUENCE.
    InOrder(Parts),
    /// Elements of these places in any order: what is in a SET.
    InAnyOrder(Parts),
}

/// A place where an element may be.
#[derive(Clone, Copy)]
pub struct Place {
    /// The name of the part, which is empty if the place has none.
    pub name: Name,
    /// Whether it may be absent, as it is OPTIONAL or has a DEFAULT.
    pub may_be_absent: bool,
    /// The value that it has if it is absent, as a module writes it, which is empty if there is none or it isn't known.
    pub default: Name,
    /// The number of that value, if it is one: 0 of FALSE and 1 of TRUE.
    pub default_number: Option<Number>,
    /// The first way in which its element may begin.
    pub first: usize,
    /// The number after that of the last way.
    pub end: usize,
}

/// A way in which the element of a place may begin, and what is in an element that does.
#[derive(Clone, Copy)]
pub struct Beginning {
    /// The tag. `None` is any tag.
    pub tag: Option<Tag>,
    /// The name of the alternative of a CHOICE, or an empty one.
    pub alternative: Name,
    /// What is in it.
    pub contents: Contents,
}

/// The types of modules.
#[derive(Drop)]
pub struct Schema {
    /// The names.
    pub text: Vec<u8>,
    /// The places.
    pub places: Vec<Place>,
    /// How elements begin.
    pub beginnings: Vec<Beginning>,
    /// The names of numbers and bits.
    pub named_numbers: Vec<NamedNumber>,
    /// The types that object identifiers select.
    pub selections: Vec<SelectedType>,
    /// The place of a whole value.
    pub start: usize,
}

/// A type that an object identifier selects for what is beside it.
#[derive(Clone, Copy)]
pub struct SelectedType {
    /// The contents of the object identifier, as a name.
    pub identifier: Name,
    /// The place of values of the type.
    pub place: usize,
}

impl ValueType {
    /// The number of the UNIVERSAL tag of the type.
    pub fn universal_number(self) -> u64
        ensures { result ≡ universal_number self }
    {
        match self {
            ValueType::Integer(..) => 2,
            ValueType::Enumerated(..) => 10,
            ValueType::BitString(_) | ValueType::NamedBits(_) => 3,
            ValueType::OctetString(_) => 4,
            ValueType::Text(number, _) | ValueType::Other(number) => number,
        }
    }
}

impl Schema {
    /// These types, without those that object identifiers select.
    pub fn without_selections(self) -> Schema
        ensures places { result.places ≡ self.places }
        ensures beginnings { result.beginnings ≡ self.beginnings }
        ensures start { result.start ≡ self.start }
        ensures none { result.selections.items ≡ [] }
    {
        let mut schema = self;
        schema.selections.clear();
        schema
    }

    /// A name.
    pub fn name(&self, name: Name) -> &[u8] {
        match self.text.get(name.start..name.end) {
            Some(text) => text,
            None => b"",
        }
    }
}
