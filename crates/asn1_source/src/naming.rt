//! The names of types, files, fields and variants: those of the module, and different from all others beside them.
ghost use Rattle.std.specs.Prelude.{◌≡◌, ◌++◌, ◌∷◌, [], IfOk, IsOk, false};
ghost use Rattle.std.specs.Bool.{OnFalse};
ghost use Rattle.asn1_source.specs.Names.{is_used, octets_of};

use crate::terms::{TypeName, is_canonical};
use crate::text::Text;
use crate::words::{
    is_reserved, is_reserved_in_fields, is_specs_name, is_taken, put_camel, put_snake,
};
use asn1_types::model::{Alternative, Body, Definition, Part};
use std::alloc::{AllocError, Global};

/// Whether a name is in a list.
pub fn is_used(names: &[Vec<u8>], name: &[u8]) -> bool
    ensures { result ≡ is_used names.now name.now }
{
    names.iter().any(|known| known.as_slice() == name)
}

/// A name with an ending after it, as often as it takes to differ from those before it.
pub fn with_ending(names: &[Vec<u8>], mut name: Text, ending: &str) -> Text
    ensures { OnFalse result.is_cut (is_used names.now result.bytes.items ≡ false) }
{
    for _ in 0..names.len() {
        if !is_used(names, name.as_slice()) {
            return name;
        }
        name.say(ending);
    }
    if is_used(names, name.as_slice()) {
        name.cut();
    }
    name
}

// A name with 2 after it, as often as it takes to differ from those before it.
fn distinct(names: &[Vec<u8>], name: Text) -> Text
    ensures { OnFalse result.is_cut (is_used names.now result.bytes.items ≡ false) }
{
    with_ending(names, name, "2")
}

// A name of a type with 2 after it, as often as it takes to differ from those before it. A name with a number after `Parts` or `Types` may be that of
// a piece, so such a name has `Type` after it.
fn distinct_type(names: &[Vec<u8>], name: Text) -> Text
    ensures { OnFalse result.is_cut (is_used names.now result.bytes.items ≡ false) }
{
    let text = name.as_slice();
    let ending = if text.ends_with(b"Parts") || text.ends_with(b"Types") {
        "Type"
    } else {
        "2"
    };
    with_ending(names, name, ending)
}

// As `distinct_type`, of a name of a file.
fn distinct_file(names: &[Vec<u8>], name: Text) -> Text
    ensures { OnFalse result.is_cut (is_used names.now result.bytes.items ≡ false) }
{
    let text = name.as_slice();
    let ending = if text.ends_with(b"_parts") || text.ends_with(b"_types") {
        "_type"
    } else {
        "2"
    };
    with_ending(names, name, ending)
}

/// What a clause calls a variant, if something else has its name there.
pub fn clause_name(variants: &[Vec<u8>], name: &[u8], alloc: Global) -> Text
    ensures { OnFalse result.is_cut (is_used variants.now result.bytes.items ≡ false) }
{
    let mut text = Text::new(alloc);
    text.put(name);
    text.say("Variant");
    distinct(variants, text)
}

// Whether a word with a digit after it is in a text.
fn has_numbered(text: &[u8], word: &str) -> bool {
    for start in 0..text.len() {
        let Some(rest) = text.get(start..) else { break };
        let Some(after) = rest.get(word.len()..) else {
            break
        };
        if rest.starts_with(word.as_bytes())
            && matches!(after, [digit, ..] if digit.is_ascii_digit())
        {
            return true;
        }
    }
    false
}

// Whether a name may be that of what another type has in a file of its own: what is under its tags, or parts or alternatives after the first ones.
fn is_piece(name: &[u8], untagged: &str, parts: &str, types: &str) -> bool {
    name.ends_with(untagged.as_bytes()) || has_numbered(name, parts) || has_numbered(name, types)
}

// Whether a name may be that of the type of a default, or of its value in a clause.
fn is_default_name(name: &[u8]) -> bool {
    name.ends_with(b"Default") || name.ends_with(b"DefaultValue")
}

// Whether a type can't have a name: the sources have it.
fn is_type_taken(name: &[u8]) -> bool {
    is_taken(name) || is_default_name(name) || is_piece(name, "Untagged", "Parts", "Types")
}

// Whether the specs of an ENUMERATED can't have a name: their list has it, or what they bring in.
fn is_specs_taken(name: &[u8]) -> bool {
    name == b"Lib".as_slice() || is_specs_name(name)
}

// The name of a type: that of the module, as Rust writes names of types.
fn type_text(alloc: Global, definition: &Definition<'_>) -> Text {
    let mut text = Text::new(alloc);
    for name in definition.path.iter() {
        put_camel(*name, &mut text);
    }
    let name = text.as_slice();
    if is_type_taken(name) || is_enumeration(&definition.body) && is_specs_taken(name) {
        text.say("Type");
    }
    text
}

// The name of a type of another crate: that in its crate.
fn imported_text(alloc: Global, name: &[u8]) -> Text {
    let mut text = Text::new(alloc);
    text.put(name);
    if is_type_taken(name) {
        text.say("Type");
    }
    text
}

// What the names of the laws of a type of another crate begin with: the names of the crate and of its file.
fn law_text(alloc: Global, origin: &str, file: &[u8]) -> Text {
    let mut text = Text::new(alloc);
    text.say(origin);
    text.say("_");
    text.put(file);
    if is_file_taken(text.as_slice()) {
        text.say("_type");
    }
    text
}

// The name of a file: that of the module, as Rust writes names of modules.
fn file_text(alloc: Global, path: &[&[u8]]) -> Text {
    let mut text = Text::new(alloc);
    for name in path {
        if !text.as_slice().is_empty() {
            text.say("_");
        }
        put_snake(*name, &mut text);
    }
    if is_file_taken(text.as_slice())
        || is_piece(text.as_slice(), "_untagged", "_parts", "_types")
    {
        text.say("_type");
    }
    text
}

// What the names of laws of the library begin with.
static LAW_NAMES: [&str; 48] = [
    "alternative",
    "any",
    "at_most",
    "big",
    "bits",
    "bmp",
    "bound",
    "bounded",
    "constants",
    "default",
    "detects",
    "element",
    "enumerated",
    "explicit",
    "explicit_application",
    "explicit_private",
    "flag",
    "general",
    "ia5",
    "int32",
    "int64",
    "list_sized",
    "named",
    "named_bits",
    "no",
    "no_part",
    "non_empty_list",
    "non_empty_set",
    "null",
    "number",
    "number32",
    "numeric",
    "octets",
    "octets_sized",
    "oid",
    "optional",
    "part",
    "printable",
    "raw",
    "represented",
    "same",
    "sequence",
    "sequence_of",
    "set_of",
    "set_sized",
    "text",
    "utc",
    "visible",
];

// Whether a file can't have a name: words and libraries have it.
fn is_file_taken(name: &[u8]) -> bool {
    for word in LAW_NAMES.as_slice() {
        if word.as_bytes() == name {
            return true;
        }
    }
    is_reserved(name) || name.starts_with(b"yasna_")
}

fn is_enumeration(body: &Body<'_>) -> bool {
    match body {
        Body::Enumerated(_) => true,
        _ => false,
    }
}

/// The names that types have got.
#[derive(Drop)]
pub struct UsedNames {
    alloc: Global,
    types: Vec<Vec<u8>>,
    files: Vec<Vec<u8>>,
}

impl UsedNames {
    /// No names.
    pub fn new(alloc: Global) -> UsedNames {
        UsedNames {
            alloc,
            types: Vec::new(alloc),
            files: Vec::new(alloc),
        }
    }

    /// Reserves the name of the crate, which no file in it may have.
    pub fn keep_crate(&mut self, krate: &[u8]) -> Result<(), AllocError> {
        let name = Vec::from_slice(self.alloc, krate)?;
        match self.files.push(name) {
            Ok(()) => Ok(()),
            Err(_) => Err(AllocError),
        }
    }

    /// Reserves the names of types of other crates, and of these crates. A file may bring them in beside those of definitions.
    pub fn keep_imported(&mut self, imported: &[TypeName]) -> Result<(), AllocError> {
        for name in imported {
            let own = Vec::from_slice(self.alloc, name.name.as_slice())?;
            let law = Vec::from_slice(self.alloc, name.law.as_slice())?;
            let origin = match &name.origin {
                Some(origin) => origin.as_slice(),
                None => b"",
            };
            let origin = Vec::from_slice(self.alloc, origin)?;
            if self.types.push(own).is_err()
                || self.files.push(law).is_err()
                || self.files.push(origin).is_err()
            {
                return Err(AllocError);
            }
        }
        Ok(())
    }

    // Takes a name for a type.
    fn take_type(&mut self, definition: &Definition<'_>) -> Result<Vec<u8>, AllocError> {
        let text = distinct_type(self.types.as_slice(), type_text(self.alloc, definition));
        keep(&mut self.types, self.alloc, text)
    }

    // Takes a name for a file.
    fn take_file(&mut self, path: &[&[u8]]) -> Result<Vec<u8>, AllocError> {
        let text = distinct_file(self.files.as_slice(), file_text(self.alloc, path));
        keep(&mut self.files, self.alloc, text)
    }

    /// Takes a name for a type of another crate: that in its crate, unless the sources or a type before it have it.
    pub fn take_imported(&mut self, name: &[u8]) -> Result<Vec<u8>, AllocError>
        ensures { IfOk result (λ name. is_used self.old.types.items name.items ≡ false) }
    {
        let text = distinct_type(self.types.as_slice(), imported_text(self.alloc, name));
        keep(&mut self.types, self.alloc, text)
    }

    /// Takes what the names of the laws of a type of another crate begin with, by its crate and its file.
    pub fn take_law(&mut self, origin: &str, file: &[u8]) -> Result<Vec<u8>, AllocError>
        ensures { IfOk result (λ name. is_used self.old.files.items name.items ≡ false) }
    {
        let text = distinct(self.files.as_slice(), law_text(self.alloc, origin, file));
        keep(&mut self.files, self.alloc, text)
    }

    /// The names of a definition.
    pub fn name(&mut self, definition: &Definition<'_>) -> Result<TypeName, AllocError> {
        let name = self.take_type(definition)?;
        let file = self.take_file(definition.path.as_slice())?;
        let law = Vec::from_slice(self.alloc, file.as_slice())?;
        let tags = Vec::from_slice(self.alloc, definition.tags.as_slice())?;
        Ok(TypeName {
            name,
            file,
            origin: None,
            original: None,
            law,
            is_enumeration: is_enumeration(&definition.body),
            tags,
            is_canonical: false,
            is_open: false,
            own_tag: None,
            choice_tags: Vec::new(self.alloc),
            is_set_part: false,
            unread: None,
        })
    }
}

/// Keeps a name, and returns it.
pub fn keep(names: &mut Vec<Vec<u8>>, alloc: Global, text: Text) -> Result<Vec<u8>, AllocError>
    ensures name { IfOk result (λ name. name.items ≡ text.bytes.items) }
    ensures whole { IsOk result → text.is_cut ≡ false }
    ensures listed { IfOk result (λ name. octets_of names.new.items ≡ octets_of names.old.items ++ name.items ∷ []) }
{
    let Some(name) = text.finish() else {
        return Err(AllocError);
    };
    let copy = Vec::from_slice(alloc, name.as_slice())?;
    match names.push(copy) {
        Ok(()) => Ok(name),
        Err(_) => Err(AllocError),
    }
}

// The name of a field: that of the component, as Rust writes names of fields.
fn field_text(alloc: Global, name: &[u8]) -> Text {
    let mut text = Text::new(alloc);
    put_snake(name, &mut text);
    if !is_reserved_in_fields(text.as_slice()) {
        return text;
    }
    let mut other = Text::new(alloc);
    other.say("the_");
    other.put(text.as_slice());
    other
}

/// The names of the fields of parts, and `unknown` and `others` after them.
pub fn field_names(alloc: Global, parts: &[Part<'_>]) -> Result<Vec<Vec<u8>>, AllocError> {
    let mut names = Vec::new(alloc);
    for part in parts {
        let text = distinct(names.as_slice(), field_text(alloc, part.name));
        keep(&mut names, alloc, text)?;
    }
    let text = distinct(names.as_slice(), field_text(alloc, b"unknown"));
    keep(&mut names, alloc, text)?;
    let text = distinct(names.as_slice(), field_text(alloc, b"others"));
    keep(&mut names, alloc, text)?;
    Ok(names)
}

// The name of a variant: that of the alternative, as Rust writes names of variants.
fn variant_text(alloc: Global, name: &[u8]) -> Text {
    let mut text = Text::new(alloc);
    put_camel(name, &mut text);
    if text.as_slice() == b"Self".as_slice() {
        text.say("Variant");
    }
    text
}

/// The names of the variants of alternatives, and `Unknown` of an open CHOICE.
pub fn variant_names(
    alloc: Global,
    alternatives: &[Alternative<'_>],
    is_open: bool,
) -> Result<Vec<Vec<u8>>, AllocError> {
    let mut names = Vec::new(alloc);
    for alternative in alternatives {
        let text = distinct(names.as_slice(), variant_text(alloc, alternative.name));
        keep(&mut names, alloc, text)?;
    }
    if is_open {
        let text = distinct(names.as_slice(), variant_text(alloc, b"unknown"));
        keep(&mut names, alloc, text)?;
    }
    Ok(names)
}

/// The names of the variants of an ENUMERATED, and `Other` if it is extensible.
pub fn item_names(
    alloc: Global,
    items: &[asn1_types::model::EnumerationItem<'_>],
    is_extensible: bool,
) -> Result<Vec<Vec<u8>>, AllocError> {
    let mut names = Vec::new(alloc);
    for item in items {
        let text = distinct(names.as_slice(), variant_text(alloc, item.name));
        keep(&mut names, alloc, text)?;
    }
    if is_extensible {
        let text = distinct(names.as_slice(), variant_text(alloc, b"other"));
        keep(&mut names, alloc, text)?;
    }
    Ok(names)
}
