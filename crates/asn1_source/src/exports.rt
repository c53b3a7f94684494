//! The file `exports` of a crate: the types that modules of other crates may import.
//!
//! Each type is a line of words: its module, its name there, its file, its name in Rust, and the tags that its encodings begin with. More words may
//! follow.
//!
//! | Word | Says |
//! |---|---|
//! | `choice` | it is a CHOICE without a tag of its own |
//! | `canonical` | what BER reads of it is written in DER |
//! | `open` | an alternative that this version doesn't know is a value of it |
//! | `enumeration` | it is an ENUMERATED |

use crate::terms::TypeName;
use crate::text::Text;
use crate::type_source::{CrateSource, has_file};
use asn1_syntax::tree::{Import, Module};
use asn1_types::TagSet;
use asn1_types::model::{Definition, Tag, TagClass};
use std::alloc::{AllocError, Global};

/// A type that a crate exports.
#[derive(Drop)]
pub struct Export<'t> {
    /// The crate.
    pub origin: &'t str,
    /// The module.
    pub module: &'t [u8],
    /// Its name in the module.
    pub name: &'t [u8],
    /// The file of the crate that holds it.
    pub file: &'t [u8],
    /// Its name in Rust.
    pub rust: &'t [u8],
    /// The tags that its encodings begin with.
    pub tags: Vec<Tag>,
    /// Whether it is a CHOICE without a tag of its own.
    pub is_untagged: bool,
    /// Whether what BER reads of it is written in DER.
    pub is_canonical: bool,
    /// Whether an alternative that this version doesn't know is a value of it.
    pub is_open: bool,
    /// Whether it is an ENUMERATED.
    pub is_enumeration: bool,
}

/// Why the types that a crate exports can't be told.
#[derive(Clone, Copy)]
pub enum ExportsError {
    /// A line is malformed.
    Malformed,
    /// Memory ran out.
    Memory,
}

// The letter of a class.
fn letter_of(class: TagClass) -> u8 {
    match class {
        TagClass::Universal => b'U',
        TagClass::Application => b'A',
        TagClass::ContextSpecific => b'C',
        TagClass::Private => b'P',
    }
}

// The class of a letter.
fn class_of(letter: u8) -> Option<TagClass> {
    match letter {
        b'U' => Some(TagClass::Universal),
        b'A' => Some(TagClass::Application),
        b'C' => Some(TagClass::ContextSpecific),
        b'P' => Some(TagClass::Private),
        _ => None,
    }
}

// The tag of a word: a letter for the class, and the number.
fn tag_of(word: &str) -> Option<Tag> {
    let class = class_of(*word.as_bytes().first()?)?;
    let number = word.get(1..)?.parse::<u64>().ok()?;
    Some(Tag { class, number })
}

// The tags of words with commas between them.
fn tags_of(alloc: Global, words: &str) -> Result<Vec<Tag>, ExportsError> {
    let mut tags = Vec::new(alloc);
    for word in words.split(',') {
        let Some(tag) = tag_of(word) else {
            return Err(ExportsError::Malformed);
        };
        if tags.push(tag).is_err() {
            return Err(ExportsError::Memory);
        }
    }
    Ok(tags)
}

// Whether a word is among those of a line.
fn has_word(line: &str, word: &str) -> bool {
    for one in line.split(' ') {
        if one == word {
            return true;
        }
    }
    false
}

// The type of a line.
fn export_of<'t>(
    alloc: Global,
    origin: &'t str,
    line: &'t str,
) -> Result<Export<'t>, ExportsError> {
    let mut words = line.split(' ');
    let (Some(module), Some(name), Some(file), Some(rust), Some(tags)) = (
        words.next(),
        words.next(),
        words.next(),
        words.next(),
        words.next(),
    ) else {
        return Err(ExportsError::Malformed);
    };
    Ok(Export {
        origin,
        module: module.as_bytes(),
        name: name.as_bytes(),
        file: file.as_bytes(),
        rust: rust.as_bytes(),
        tags: tags_of(alloc, tags)?,
        is_untagged: has_word(line, "choice"),
        is_canonical: has_word(line, "canonical"),
        is_open: has_word(line, "open"),
        is_enumeration: has_word(line, "enumeration"),
    })
}

// Whether a name is among those of an import.
fn is_symbol(import: &Import<'_>, name: &[u8]) -> bool {
    if import.first.text == name {
        return true;
    }
    for other in import.others.iter() {
        if other.text == name {
            return true;
        }
    }
    false
}

// Whether a module imports a type.
fn imports(module: &Module<'_>, export: &Export<'_>) -> bool {
    let Some(list) = &module.imports else {
        return false
    };
    for import in list.iter() {
        if import.module.text == export.module && is_symbol(import, export.name) {
            return true;
        }
    }
    false
}

fn is_imported(modules: &[Module<'_>], export: &Export<'_>) -> bool {
    for module in modules {
        if imports(module, export) {
            return true;
        }
    }
    false
}

/// Adds the types of a crate's file `exports` that modules import.
pub fn add_exports<'t>(
    alloc: Global,
    origin: &'t str,
    text: &'t str,
    modules: &[Module<'_>],
    exports: &mut Vec<Export<'t>>,
) -> Result<(), ExportsError> {
    for line in text.lines() {
        let export = export_of(alloc, origin, line)?;
        if is_imported(modules, &export) && exports.push(export).is_err() {
            return Err(ExportsError::Memory);
        }
    }
    Ok(())
}

// Appends the tags of a type.
fn put_tags(tags: &[Tag], out: &mut Text) {
    let mut is_first = true;
    for tag in tags {
        if !is_first {
            out.say(",");
        }
        is_first = false;
        out.put_octet(letter_of(tag.class));
        out.put_number(tag.number);
    }
}

// Appends the module of a definition and its name there, and returns whether other modules may import it by that name.
fn put_exported_name(
    source: &CrateSource<'_, '_>,
    definition: &Definition<'_>,
    out: &mut Text,
) -> bool {
    let Some(module) = source.modules.get(definition.place.module) else {
        return false;
    };
    match definition.path.as_slice() {
        [name] if definition.is_exported => {
            let tree = module.tree;
            out.put(tree.name.text);
            out.say(" ");
            out.put(*name);
            true
        }
        _ => false,
    }
}

// Appends the words of a type after its names in its module.
fn put_words(name: &TypeName, set: &TagSet, out: &mut Text) {
    out.say(" ");
    out.put(name.file.as_slice());
    out.say(" ");
    out.put(name.name.as_slice());
    out.say(" ");
    put_tags(set.tags.as_slice(), out);
    if set.is_untagged {
        out.say(" choice");
    }
    if name.is_canonical {
        out.say(" canonical");
    }
    if name.is_open {
        out.say(" open");
    }
    if name.is_enumeration {
        out.say(" enumeration");
    }
    out.say("\n");
}

// Appends the line of a definition, if its type is exported. An ENUMERATED with tags before it is not, nor a type of any tag.
fn put_export(source: &CrateSource<'_, '_>, place: usize, out: &mut Text) {
    let (Some(definition), Some(name), Some(set)) = (
        source.definitions.get(place),
        source.names.defined.get(place),
        source.tag_sets.get(place),
    ) else {
        return;
    };
    if !name.tags.is_empty() && name.is_enumeration || set.is_any || !has_file(source, place) {
        return;
    }
    if put_exported_name(source, definition, out) {
        put_words(name, set, out);
    }
}

/// The lines of the types of a crate that modules of other crates may import, in the order of their files.
pub fn exports_of(alloc: Global, source: &CrateSource<'_, '_>) -> Text {
    let mut out = Text::new(alloc);
    for place in source.names.order.iter() {
        put_export(source, *place, &mut out);
    }
    out
}
