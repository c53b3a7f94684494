//! Names of Rust for the names of a module: `CertificationRequestInfo`, and `subject_pk_info` for `subjectPKInfo`.
ghost use Rattle.std.specs.Prelude.{◌<◌, length};

use crate::text::Text;

// Words that Rust or Rattle reserves.
static RESERVED: [&str; 69] = [
    "abstract", "as", "async", "await", "become", "box", "break", "const", "continue", "crate",
    "data", "do", "dyn", "else", "ensures", "enum", "extern", "false", "final", "fn", "for", "gen",
    "ghost", "if", "impl", "in", "let", "loop", "macro", "main", "match", "mod", "move", "mut",
    "open", "override", "priv", "pub", "record", "ref", "requires", "return", "rule", "ruleset",
    "self", "static", "std", "core", "struct", "super", "trait", "true", "try", "type", "typeof",
    "union", "unsafe", "unsized", "use", "virtual", "where", "while", "yield", "lib", "yasna", "u",
    "m", "v", "tt",
];

// More words that clauses reserve.
static RESERVED_IN_CLAUSES: [&str; 18] = [
    "abbrev",
    "axiom",
    "coe",
    "com",
    "deriving",
    "elim",
    "fcoe",
    "hcom",
    "infix",
    "infixl",
    "infixr",
    "module",
    "mutual",
    "package",
    "tcoe",
    "unfold",
    "unfoldable",
    "unfolding",
];

// Names that the sources themselves use.
static TAKEN: [&str; 124] = [
    "ASN1Result",
    "Alternatives",
    "Any",
    "AnyUnder",
    "Application",
    "AtMost",
    "BERMode",
    "BERReader",
    "BERReaderSeq",
    "BERReaderSet",
    "BigInteger",
    "BitString",
    "BitsValue",
    "BmpString",
    "Bound",
    "Bounded",
    "Box",
    "CanonicalAlternatives",
    "CanonicalNotation",
    "CanonicalParts",
    "Checked",
    "CheckedBy",
    "Choice",
    "Clone",
    "Context",
    "Copy",
    "DERWriter",
    "DERWriterSeq",
    "Default",
    "DefaultValue",
    "DefinedType",
    "Drop",
    "Each",
    "Either",
    "EmptyList",
    "Encoded",
    "Enumerated",
    "Eq",
    "Err",
    "Exactly",
    "Explicit",
    "False",
    "Fields",
    "First",
    "FromTo",
    "FromZero",
    "GeneralizedTime",
    "Global",
    "HostRuntime",
    "Ia5String",
    "IdentifierValue",
    "Implicit",
    "Inner",
    "IntegerFrom",
    "IntegerFromTo",
    "IntegerUpTo",
    "IsTrue",
    "Iterator",
    "Known",
    "Last",
    "List",
    "Message",
    "Named",
    "NamedBits",
    "Natural",
    "None",
    "NotEmpty",
    "Notated",
    "Notation",
    "Number",
    "Numbered",
    "NumericString",
    "ObjectIdentifier",
    "OctetsValue",
    "Ok",
    "Omitted",
    "OpenChoice",
    "Option",
    "Optional",
    "OrDefault",
    "Others",
    "PartialEq",
    "Parts",
    "PartsBy",
    "Possible",
    "PossibleDefault",
    "PrependBuffer",
    "PrintableString",
    "Private",
    "Represents",
    "Rest",
    "Result",
    "Second",
    "Self",
    "Sequence",
    "SequenceOf",
    "Set",
    "SetOf",
    "SetPart",
    "SetParts",
    "Sides",
    "Signed",
    "SizeFrom",
    "SizeFromTo",
    "SizeIs",
    "Some",
    "String",
    "Tag",
    "TagClass",
    "TaggedDerValue",
    "TestedBits",
    "TestedDefault",
    "TestedIdentifier",
    "TestedOctets",
    "TestedText",
    "TextValue",
    "True",
    "Type",
    "Types",
    "UTCTime",
    "Universal",
    "Unset",
    "Vec",
    "VisibleString",
];

// Names in the specs of an ENUMERATED that a variant or the type may have.
static SPECS_NAMES: [&str; 6] = [
    "Bool",
    "DetectsDefault",
    "FitsSigned",
    "List",
    "Type",
    "Unit",
];

// Whether a text is in a list.
fn is_among(list: &[&str], text: &[u8]) -> bool {
    for word in list {
        if word.as_bytes() == text {
            return true;
        }
    }
    false
}

// How many capitals and digits are at the start of a text.
fn capitals(text: &[u8]) -> usize {
    let mut count = 0usize;
    for c in text {
        if !c.is_ascii_uppercase() && !c.is_ascii_digit() {
            break;
        }
        count = count.saturating_add(1);
    }
    count
}

// Whether a word is one small letter and capitals, as in `dNSName` and `iPAddress`.
fn begins_small(text: &[u8]) -> bool {
    match text {
        [first, rest @ ..] => {
            let count = capitals(rest);
            first.is_ascii_lowercase() && (count > 1 || (count == 1 && rest.len() == 1))
        }
        [] => false,
    }
}

// Whether a new word begins at a place, which isn't the first.
fn begins_word(name: &[u8], place: usize) -> bool
    requires { 0 < place × place < length name.now }
{
    if !name[place].is_ascii_uppercase() {
        return false;
    }
    if !name[place - 1].is_ascii_uppercase() {
        return place != 1 || !begins_small(name);
    }
    match name.get(place + 1) {
        Some(next) => next.is_ascii_lowercase(),
        None => false,
    }
}

// Whether a word of the name begins at a place.
fn is_start(name: &[u8], place: usize) -> bool
    requires { place < length name.now }
{
    if place == 0 {
        return true;
    }
    let before = name[place - 1];
    before == b'-' || before == b'_' || begins_word(name, place)
}

/// Appends a name with a capital at the start of each word, and no hyphens.
pub fn put_camel(name: &[u8], out: &mut Text) {
    for place in 0..name.len() {
        let c = name[place];
        if c == b'-' || c == b'_' {
            continue;
        }
        if is_start(name, place) {
            out.put_octet(c.to_ascii_uppercase());
        } else {
            out.put_octet(c.to_ascii_lowercase());
        }
    }
}

/// Appends a name in small letters, with `_` between words that begin with a letter.
pub fn put_snake(name: &[u8], out: &mut Text) {
    for place in 0..name.len() {
        let c = name[place];
        if c == b'-' || c == b'_' {
            continue;
        }
        if place > 0 && is_start(name, place) && !c.is_ascii_digit() {
            out.put_octet(b'_');
        }
        out.put_octet(c.to_ascii_lowercase());
    }
}

/// Whether Rust or Rattle reserves a word.
pub fn is_reserved(word: &[u8]) -> bool {
    is_among(RESERVED.as_slice(), word) || is_among(RESERVED_IN_CLAUSES.as_slice(), word)
}

/// Whether no field has the name. `result` is what a function returns, so none of its parameters is called that.
pub fn is_reserved_in_fields(word: &[u8]) -> bool {
    is_reserved(word) || word == b"result".as_slice()
}

/// Whether the sources themselves use the name of a type.
pub fn is_taken(name: &[u8]) -> bool {
    is_among(TAKEN.as_slice(), name)
}

/// Whether the specs of an ENUMERATED bring in something of this name.
pub fn is_specs_name(name: &[u8]) -> bool {
    is_among(SPECS_NAMES.as_slice(), name)
}

/// Appends the name of a variant where a clause brings it in. `Type` is reserved there.
pub fn put_imported_variant(name: &[u8], out: &mut Text) {
    if name == b"Type".as_slice() {
        out.say("«Type»");
    } else {
        out.put(name);
    }
}
