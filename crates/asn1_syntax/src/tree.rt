//! The tree of a module (X.680, 13 to 31, X.681 and X.683).
//!
//! A list of lexical items in a tree is what is between two brackets, or a value. Brackets, separators and reserved words that the tree's form
//! implies are no part of it.

use crate::token::Token;

/// A type in which no other type is, as BOOLEAN, OCTET STRING, ENUMERATED or a reference.
#[derive(Drop)]
pub struct PlainType<'a> {
    /// The words, as `OCTET` and `STRING`, or as `ANY`, `DEFINED`, `BY` and a name. Those of an external reference have `.` between them, and a
    /// field of a class has `.` and `&` before it.
    pub words: Vec<Token<'a>>,
    /// What is in braces after them: named numbers, named bits, or the arguments of a reference.
    pub braces: Option<Vec<Token<'a>>>,
}

/// A tag (X.680, 31.2).
#[derive(Drop)]
pub struct TagNotation<'a> {
    /// UNIVERSAL, APPLICATION or PRIVATE. Without one, the class is context-specific.
    pub class: Option<Token<'a>>,
    /// The number, or the name of a value.
    pub number: Token<'a>,
    /// IMPLICIT or EXPLICIT. Without one, the module's default holds.
    pub mode: Option<Token<'a>>,
}

/// The constraint of a list before OF (X.680, 51).
#[derive(Drop)]
pub enum ListSize<'a> {
    /// There is none.
    Any,
    /// SIZE, and a constraint.
    Size(Vec<Token<'a>>),
    /// A constraint in parentheses.
    Constraint(Vec<Token<'a>>),
}

/// What is before the type of a list's elements (X.680, 26 and 28).
#[derive(Drop)]
pub struct ListHead<'a> {
    /// SEQUENCE or SET.
    pub word: Token<'a>,
    /// The constraint before OF.
    pub size: ListSize<'a>,
    /// The name of the elements.
    pub element: Option<Token<'a>>,
}

/// Whether a component may be absent (X.680, 25.5).
#[derive(Drop)]
pub enum Presence<'a> {
    /// It is always there.
    Required,
    /// OPTIONAL.
    Optional,
    /// DEFAULT, and a value.
    Default(Vec<Token<'a>>),
}

/// A part of what is in the braces of a SEQUENCE, a SET or a CHOICE, over types `T`.
#[derive(Drop)]
pub enum Part<'a, T> {
    /// A component or an alternative: its name, its type, and whether it may be absent.
    Named(Token<'a>, T, Presence<'a>),
    /// COMPONENTS OF a type.
    ComponentsOf(T),
    /// `...`, and an exception after `!`.
    Extension(Option<Vec<Token<'a>>>),
    /// `[[`, and a version number before `:`.
    GroupStart(Option<Token<'a>>),
    /// `]]`.
    GroupEnd,
}

/// A part, and whether a comma is before it.
#[derive(Drop)]
pub struct Component<'a, T> {
    /// Whether a comma is before it.
    pub comma: bool,
    /// The part.
    pub part: Part<'a, T>,
}

/// A type (X.680, 17).
#[derive(Drop)]
pub enum TypeNotation<'a> {
    /// A type in which no other type is.
    Plain(PlainType<'a>),
    /// A type under a tag.
    Tagged(TagNotation<'a>, Box<TypeNotation<'a>>),
    /// An alternative of a CHOICE, by its name (X.680, 30).
    Selected(Token<'a>, Box<TypeNotation<'a>>),
    /// A SEQUENCE OF or a SET OF.
    ListOf(ListHead<'a>, Box<TypeNotation<'a>>),
    /// A SEQUENCE, a SET or a CHOICE: that word, and the parts in braces.
    Constructed(Token<'a>, Vec<Component<'a, TypeNotation<'a>>>),
    /// A type and constraints in parentheses (X.680, 49.6).
    Constrained(Box<TypeNotation<'a>>, Vec<Vec<Token<'a>>>),
}

/// An information object class (X.681, 9.3).
#[derive(Drop)]
pub struct ClassNotation<'a> {
    /// What is in the braces after CLASS, its fields.
    pub fields: Vec<Token<'a>>,
    /// What is in the braces after WITH SYNTAX.
    pub syntax: Option<Vec<Token<'a>>>,
}

/// An assignment (X.680, 16).
#[derive(Drop)]
pub enum Assignment<'a> {
    /// A name and a type.
    Type(Token<'a>, TypeNotation<'a>),
    /// A name, a type or a class, and a value, an object, or a set of these.
    Value(Token<'a>, TypeNotation<'a>, Vec<Token<'a>>),
    /// A name, what is in braces after it, its parameters, and a type (X.683, 8.2).
    ParameterizedType(Token<'a>, Vec<Token<'a>>, TypeNotation<'a>),
    /// A name, its parameters, a type or a class, and a value, an object, or a set of these (X.683, 8.2).
    ParameterizedValue(Token<'a>, Vec<Token<'a>>, TypeNotation<'a>, Vec<Token<'a>>),
    /// A name, its parameters if it has some, and an information object class.
    Class(Token<'a>, Option<Vec<Token<'a>>>, ClassNotation<'a>),
}

/// The tags of a module (X.680, 13.2).
#[derive(Clone, Copy, Debug, PartialEq, Eq)]
pub enum TagDefault {
    /// Nothing is said, which means EXPLICIT TAGS.
    Omitted,
    /// EXPLICIT TAGS.
    Explicit,
    /// IMPLICIT TAGS.
    Implicit,
    /// AUTOMATIC TAGS.
    Automatic,
}

/// What a module imports from another one (X.680, 13.16).
#[derive(Drop)]
pub struct Import<'a> {
    /// The first name.
    pub first: Token<'a>,
    /// The other names. After a name, the first one too, there may be `{` and `}`, two symbols: its definition has parameters (X.683, 9.1).
    pub others: Vec<Token<'a>>,
    /// The name of the other module.
    pub module: Token<'a>,
    /// What is in braces after it, its object identifier.
    pub identifier: Option<Vec<Token<'a>>>,
    /// The name of a value after it, its object identifier.
    pub value: Option<Token<'a>>,
    /// SUCCESSORS or DESCENDANTS, after WITH.
    pub selection: Option<Token<'a>>,
}

/// A module (X.680, 13).
#[derive(Drop)]
pub struct Module<'a> {
    /// The name.
    pub name: Token<'a>,
    /// What is in braces after it, its object identifier.
    pub identifier: Option<Vec<Token<'a>>>,
    /// The character string after that, its internationalized resource identifier.
    pub iri: Option<Token<'a>>,
    /// The tags.
    pub tags: TagDefault,
    /// Whether EXTENSIBILITY IMPLIED is there.
    pub extensible: bool,
    /// What is between EXPORTS and `;`.
    pub exports: Option<Vec<Token<'a>>>,
    /// What is between IMPORTS and `;`.
    pub imports: Option<Vec<Import<'a>>>,
    /// The assignments.
    pub assignments: Vec<Assignment<'a>>,
}
