//! Resolved types: what the types of modules mean, with names, tags, values and bounds resolved (X.680).
//!
//! A name is the octets of its source. A place is an offset in the source of a module.

use crate::problem::Problem;
use crate::tags_of_types::TagSet;

/// A place in the source of a module.
#[derive(Clone, Copy)]
pub struct Place {
    /// The index of the module in the list that was resolved.
    pub module: usize,
    /// The offset in its source, in octets.
    pub offset: usize,
}

/// The modules of a list, resolved.
#[derive(Drop)]
pub struct Resolved<'a> {
    /// The types that are declared, each after those that it names.
    pub definitions: Vec<Definition<'a>>,
    /// The values that have a name, in the order of their modules.
    pub constants: Vec<Constant<'a>>,
    /// Of each definition, the tags that its encodings begin with.
    pub tag_sets: Vec<TagSet>,
    /// The names in the braces of each INTEGER and BIT STRING that has some.
    pub named_numbers: Vec<NamedNumbers<'a>>,
    /// Why types are rejected. The list of definitions has none of these types.
    pub problems: Vec<Problem>,
}

/// A type that is declared: an assignment's type, or a SEQUENCE, SET, CHOICE or ENUMERATED inside one.
#[derive(Drop)]
pub struct Definition<'a> {
    /// Where the type is. Its module is the one that assigns it.
    pub place: Place,
    /// The index of the assignment in its module.
    pub assignment: usize,
    /// The assigned name. For a type inside it, the names of the components that lead to it follow; `item` is that of a list's element.
    pub path: Vec<&'a [u8]>,
    /// Whether the module exports it (X.680, 13.12). A type inside another one is not exported.
    pub is_exported: bool,
    /// The tags around the body, outermost first. `Body::Value` and `Body::Alias` have none, since their notation has them.
    pub tags: Vec<TagLayer>,
    /// What it is.
    pub body: Body<'a>,
    /// Where the notation accepts more than the module says.
    pub looser: Vec<Looser>,
}

/// What a declared type is.
#[derive(Drop)]
pub enum Body<'a> {
    /// A SEQUENCE (X.680, 25).
    Sequence(Components<'a>),
    /// A SET (X.680, 27). Its parts are in the order of the module.
    Set(Components<'a>),
    /// A CHOICE (X.680, 29).
    Choice(Alternatives<'a>),
    /// An ENUMERATED (X.680, 20).
    Enumerated(Enumeration<'a>),
    /// A type that holds one value of a notation, as a SEQUENCE OF with a name.
    Value(Notation),
    /// A name for a notation, as of an INTEGER or a string. Where the name is used, the notation is.
    Alias(Notation),
}

/// The parts of a SEQUENCE or a SET, with those of COMPONENTS OF among them.
#[derive(Drop)]
pub struct Components<'a> {
    /// The parts: those before `...`, then the additions, then those after a second `...`.
    pub parts: Vec<Part<'a>>,
    /// How many parts are before the elements that a later version may add. `None` without `...`.
    pub extension: Option<usize>,
}

/// A part of a SEQUENCE or a SET.
#[derive(Drop)]
pub struct Part<'a> {
    /// Where its name is.
    pub place: Place,
    /// The name.
    pub name: &'a [u8],
    /// The type.
    pub notation: Notation,
    /// Whether it may be absent.
    pub presence: Presence<'a>,
    /// Whether it is an addition after `...`, which earlier versions leave out.
    pub is_addition: bool,
}

/// Whether a part may be absent (X.680, 25.5).
#[derive(Drop)]
pub enum Presence<'a> {
    /// It is always there.
    Required,
    /// OPTIONAL, or a DEFAULT that is no `DefaultValue`, of which a `Looser` says so.
    Optional,
    /// DEFAULT, and a value.
    Default(DefaultValue<'a>),
}

/// The value of a part that is absent.
#[derive(Drop)]
pub enum DefaultValue<'a> {
    /// TRUE or FALSE.
    Boolean(bool),
    /// A number of an INTEGER.
    Integer(Integer),
    /// An item of an ENUMERATED: its name and its number.
    Enumerated(&'a [u8], i64),
    /// An OBJECT IDENTIFIER: its arcs.
    ObjectIdentifier(Vec<u64>),
    /// The octets of an OCTET STRING.
    Octets(Vec<u8>),
    /// The bits of a BIT STRING: their octets, and how many bits there are. The first bit of an octet is its highest, and unused bits are
    /// zeros. With named bits the last one is a one.
    Bits(Vec<u8>, usize),
    /// A SEQUENCE OF without elements.
    EmptySequenceOf,
    /// A SET OF without elements.
    EmptySetOf,
    /// A string of printable characters of ASCII, as its source writes it between quotation marks. None of them is a quotation mark.
    Text(&'a [u8]),
}

/// The alternatives of a CHOICE.
#[derive(Drop)]
pub struct Alternatives<'a> {
    /// The alternatives, in the order of the module.
    pub alternatives: Vec<Alternative<'a>>,
    /// Whether `...` is there.
    pub is_extensible: bool,
}

/// An alternative of a CHOICE.
#[derive(Drop)]
pub struct Alternative<'a> {
    /// Where its name is.
    pub place: Place,
    /// The name.
    pub name: &'a [u8],
    /// The type.
    pub notation: Notation,
    /// Whether it is an addition after `...`.
    pub is_addition: bool,
}

/// The items of an ENUMERATED.
#[derive(Drop)]
pub struct Enumeration<'a> {
    /// The items, in the order of the module. Each number is there once.
    pub items: Vec<EnumerationItem<'a>>,
    /// Whether `...` is there.
    pub is_extensible: bool,
}

/// An item of an ENUMERATED.
#[derive(Clone, Copy)]
pub struct EnumerationItem<'a> {
    /// The name.
    pub name: &'a [u8],
    /// The number, as the module says or as X.680, 20.3 to 20.6, assign it.
    pub number: i64,
    /// Whether it is an addition after `...`.
    pub is_addition: bool,
}

/// The names in the braces of an INTEGER or a BIT STRING.
#[derive(Drop)]
pub struct NamedNumbers<'a> {
    /// Where the first of them is.
    pub place: Place,
    /// The names whose numbers are known, in the order of the module.
    pub items: Vec<NamedNumber<'a>>,
}

/// A named number, or a named bit with its position.
#[derive(Clone, Copy)]
pub struct NamedNumber<'a> {
    /// The name.
    pub name: &'a [u8],
    /// The number.
    pub number: Integer,
}

/// A type as it is used in another one.
#[derive(Drop)]
pub enum Notation {
    /// BOOLEAN.
    Boolean,
    /// NULL.
    Null,
    /// An INTEGER, of all numbers or of those within bounds, and the index of its names in `Resolved::named_numbers`.
    Integer(IntegerBounds, Option<usize>),
    /// OBJECT IDENTIFIER.
    ObjectIdentifier,
    /// OCTET STRING, its size in octets.
    OctetString(Size),
    /// BIT STRING without named bits, its size in bits.
    BitString(Size),
    /// BIT STRING with named bits: zeros at its end mean nothing (X.680, 22.7). The size is in bits, and the index is that of its names in
    /// `Resolved::named_numbers`.
    NamedBits(Size, Option<usize>),
    /// A string of characters, its size in characters.
    Text(TextKind, Size),
    /// UTCTime.
    UtcTime,
    /// GeneralizedTime.
    GeneralizedTime,
    /// Any element: ANY of X.208, an open type, or a type that is kept as it came.
    Any,
    /// A type that no module gives: any element. Under an IMPLICIT tag it is any element with that tag, since its own tag isn't known. Only
    /// `resolve_incomplete` has it.
    Missing,
    /// The contents as octets under this UNIVERSAL tag: strings whose characters are not read, and REAL.
    OctetsUnder(u64),
    /// Elements that are kept as they came, under this UNIVERSAL tag: EXTERNAL, and a SEQUENCE or SET inside itself.
    ElementsUnder(u64),
    /// The type of a definition, by its index in `Resolved::definitions`.
    Defined(usize),
    /// A type of another crate, by its index in the list of known types that was passed.
    Imported(usize),
    /// SEQUENCE OF, its size in elements.
    SequenceOf(Box<Notation>, Size),
    /// SET OF, its size in elements.
    SetOf(Box<Notation>, Size),
    /// A type under a tag.
    Tagged(TagLayer, Box<Notation>),
}

/// A string of characters that `yasna_notation` reads as a `String` (X.680, 41).
#[derive(Clone, Copy)]
pub enum TextKind {
    /// UTF8String.
    Utf8,
    /// NumericString.
    Numeric,
    /// PrintableString.
    Printable,
    /// IA5String.
    Ia5,
    /// VisibleString or ISO646String.
    Visible,
    /// BMPString.
    Bmp,
}

/// An integer of at most 64 bits and a sign. Zero is not negative.
#[derive(Clone, Copy)]
pub struct Integer {
    /// Whether it is below zero.
    pub is_negative: bool,
    /// How far it is from zero.
    pub magnitude: u64,
}

/// The bounds of an INTEGER, both inclusive (X.680, 51.4).
#[derive(Clone, Copy)]
pub struct IntegerBounds {
    /// The least number, or `None` if MIN is.
    pub low: Option<Integer>,
    /// The greatest number, or `None` if MAX is.
    pub high: Option<Integer>,
}

/// A size (X.680, 51.5).
#[derive(Clone, Copy)]
pub struct Size {
    /// The least size.
    pub low: u64,
    /// The greatest size, or `None` if there is none.
    pub high: Option<u64>,
}

/// The class of a tag (X.680, 8.1).
#[derive(Clone, Copy, PartialEq)]
pub enum TagClass {
    /// UNIVERSAL.
    Universal,
    /// APPLICATION.
    Application,
    /// No class is written.
    ContextSpecific,
    /// PRIVATE.
    Private,
}

/// A tag.
#[derive(Clone, Copy)]
pub struct Tag {
    /// The class.
    pub class: TagClass,
    /// The number.
    pub number: u64,
}

/// How a tag relates to the tags of the type under it (X.680, 31.2.7).
#[derive(Clone, Copy, PartialEq)]
pub enum TagMode {
    /// It is outside of them.
    Explicit,
    /// It replaces the outermost of them.
    Implicit,
}

/// A tag, as X.680 resolves it.
#[derive(Clone, Copy)]
pub struct TagLayer {
    /// The class.
    pub class: TagClass,
    /// The number.
    pub number: u64,
    /// IMPLICIT only of a type that has a tag of its own (X.680, 31.2.9), or of one that no module gives.
    pub mode: TagMode,
}

/// A value that has a name.
#[derive(Drop)]
pub struct Constant<'a> {
    /// Where its name is.
    pub place: Place,
    /// Of a named number or bit, and the name of its type; of an assigned value, `None`.
    pub of: Option<&'a [u8]>,
    /// The name.
    pub name: &'a [u8],
    /// The value.
    pub value: Value<'a>,
}

/// A value.
#[derive(Drop)]
pub enum Value<'a> {
    /// A BOOLEAN.
    Boolean(bool),
    /// An INTEGER, or the number of a named number.
    Integer(Integer),
    /// The position of a named bit (X.680, 22.3).
    Bit(u64),
    /// An OBJECT IDENTIFIER: its arcs.
    ObjectIdentifier(Vec<u64>),
    /// A string of characters, as its source writes it between quotation marks.
    Text(&'a [u8]),
}

/// A type of another crate, which a module may import.
#[derive(Clone, Copy)]
pub struct KnownType<'a> {
    /// The name of its module.
    pub module: &'a [u8],
    /// The name of the type.
    pub name: &'a [u8],
    /// The tags that its encodings begin with.
    pub tags: &'a [Tag],
    /// Whether it is a CHOICE without a tag of its own.
    pub is_untagged: bool,
}

/// A place where a notation accepts more than the module says, and why.
#[derive(Clone, Copy)]
pub struct Looser {
    /// The place.
    pub place: Place,
    /// Why.
    pub what: Loosening,
}

/// What of a module a notation leaves out.
#[derive(Clone, Copy)]
pub enum Loosening {
    /// A constraint that is not tested.
    Constraint,
    /// WITH COMPONENTS or WITH COMPONENT (X.680, 51.8).
    InnerConstraint,
    /// CONTAINING or ENCODED BY, and constraints of users (X.682).
    Contents,
    /// An open type of X.681, which is any element.
    OpenType,
    /// A parameter, which is any type.
    Parameter,
    /// A type that no module gives, which is any element.
    Missing,
    /// An addition that may be absent though a later one is there, or another one of its `[[ ]]`. In its version it is always there.
    Additions,
    /// A DEFAULT without a `DefaultValue`: that it is omitted is not tested.
    Default,
    /// A type inside itself, whose elements are kept as they came.
    Recursion,
    /// Characters of a string that are not read.
    Characters,
    /// REAL, EXTERNAL, EMBEDDED PDV or CHARACTER STRING, whose contents are not read.
    Contained,
}
