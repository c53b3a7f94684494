//! The sources of a crate.

use crate::canonical::is_body_canonical;
use crate::constants::add_constants;
use crate::differences::{Difference, differences_of, large_numbers, rejects_additions};
use crate::exports::exports_of;
use crate::head::{ModuleSource, put_differences, put_path};
use crate::imports::Words;
use crate::naming::UsedNames;
use crate::open_choices::open_choices;
use crate::order::Order;
use crate::sets::{mark_choices, unread};
use crate::terms::{TypeName, TypeNames, own_tag};
use crate::text::Text;
use crate::type_source::{CrateSource, Files, SourceFile, add_definition, has_file};
use asn1_types::TagSet;
use asn1_types::model::{Definition, Tag};
use std::alloc::{AllocError, Global};

// The tag of its own of the definition at a place.
fn tag_at(tag_sets: &[TagSet], place: usize) -> Option<Tag> {
    let set = tag_sets.get(place)?;
    own_tag(set.tags.as_slice(), set.is_untagged || set.is_any)
}

// The tags of the CHOICE at a place, if it has none of its own and no other tag begins an encoding of it.
fn choice_tags_at(
    alloc: Global,
    tag_sets: &[TagSet],
    place: usize,
) -> Result<Vec<Tag>, AllocError> {
    match tag_sets.get(place) {
        Some(set) if set.is_untagged && !set.is_any => {
            Vec::from_slice(alloc, set.tags.as_slice())
        }
        _ => Ok(Vec::new(alloc)),
    }
}

/// The names of definitions in a crate, what tags they have, and which of them are canonical.
pub fn names_of(
    alloc: Global,
    krate: &[u8],
    definitions: &[Definition<'_>],
    tag_sets: &[TagSet],
    imported: Vec<TypeName>,
) -> Result<TypeNames, AllocError> {
    let mut used = UsedNames::new(alloc);
    used.keep_crate(krate)?;
    used.keep_imported(imported.as_slice())?;
    let mut names = TypeNames {
        defined: Vec::new(alloc),
        order: Vec::new(alloc),
        imported,
    };
    let open = open_choices(alloc, definitions)?;
    for (place, definition) in definitions.iter().enumerate() {
        let mut name = used.name(definition)?;
        name.is_open = match open.get(place) {
            Some(is_open) => *is_open,
            None => false,
        };
        name.own_tag = tag_at(tag_sets, place);
        name.choice_tags = choice_tags_at(alloc, tag_sets, place)?;
        name.unread = unread(&definition.body, &names);
        name.is_canonical = is_body_canonical(&definition.body, &name, &names);
        if name.unread.is_none() {
            mark_choices(&definition.body, &mut names);
        }
        if names.defined.push(name).is_err() {
            return Err(AllocError);
        }
    }
    let order = order_of(alloc, names.defined.as_slice())?;
    names.order = order;
    Ok(names)
}

// The places of types in the order of their files.
fn order_of(alloc: Global, names: &[TypeName]) -> Result<Vec<usize>, AllocError> {
    let mut order = Order::new(alloc);
    for (place, name) in names.iter().enumerate() {
        order.add(name.file.as_slice(), place)?;
    }
    let Order { places, .. } = order;
    Ok(places)
}

// The places of files in the order of their modules.
fn file_order(alloc: Global, files: &[SourceFile]) -> Result<Vec<usize>, AllocError> {
    let mut order = Order::new(alloc);
    for (place, file) in files.iter().enumerate() {
        if let Some(name) = module_name(file) {
            order.add(name, place)?;
        }
    }
    let Order { places, .. } = order;
    Ok(places)
}

// The crates of this repository that sources may need.
static LIBRARIES: [&str; 6] = [
    "yasna_base",
    "yasna_bytes",
    "yasna",
    "yasna_notation",
    "yasna_notation_constraints",
    "yasna_notation_types",
];

// Whether a file has a word.
fn has_word(alloc: Global, files: &[SourceFile], word: &[u8]) -> bool {
    for file in files {
        if Words::of(alloc, file.text.as_slice()).has(word) {
            return true;
        }
    }
    false
}

// Whether a name before this one is of the same crate.
fn is_repeated(names: &[TypeName], origin: &[u8]) -> bool {
    for name in names {
        if let Some(other) = &name.origin {
            if other.as_slice() == origin {
                return true;
            }
        }
    }
    false
}

/// The line of crates.txt.
pub fn crate_line(alloc: Global, source: &CrateSource<'_, '_>, files: &[SourceFile]) -> Text {
    let mut line = Text::new(alloc);
    line.put(source.krate);
    line.say(":");
    for library in LIBRARIES.as_slice() {
        if has_word(alloc, files, library.as_bytes()) {
            line.say(" ");
            line.say(library);
        }
    }
    let imported = source.names.imported.as_slice();
    for (place, name) in imported.iter().enumerate() {
        let Some(origin) = &name.origin else { continue };
        let before = match imported.get(..place) {
            Some(before) => before,
            None => imported,
        };
        if !is_repeated(before, origin.as_slice()) && has_word(alloc, files, origin.as_slice()) {
            line.say(" ");
            line.put(origin.as_slice());
        }
    }
    line
}

// The name of a file in src/, without its ending.
fn module_name(file: &SourceFile) -> Option<&[u8]> {
    match file.path.as_slice() {
        [b's', b'r', b'c', b'/', rest @ .., b'.', b'r', b't'] => Some(rest),
        _ => None,
    }
}

// Appends the lines that name the modules of a crate.
fn put_modules(files: &[SourceFile], order: &[usize], out: &mut Text) {
    for place in order {
        let Some(file) = files.get(*place) else {
            continue
        };
        if let Some(name) = module_name(file) {
            out.say(if name == b"constants".as_slice() {
                "pub mod "
            } else {
                "mod "
            });
            out.put(name);
            out.say(";\n");
        }
    }
}

// Appends the lines of the table of types, or those that export them.
fn put_types(
    source: &CrateSource<'_, '_>,
    before: &str,
    between: &str,
    after: &str,
    out: &mut Text,
) {
    for place in source.names.order.iter() {
        let Some(name) = source.names.defined.get(*place) else {
            continue
        };
        if !has_file(source, *place) {
            continue;
        }
        out.say(before);
        out.put(name.file.as_slice());
        out.say(between);
        out.put(name.name.as_slice());
        out.say(after);
    }
}

// The root of a crate.
fn root_of(
    alloc: Global,
    source: &CrateSource<'_, '_>,
    files: &[SourceFile],
    order: &[usize],
    has_constants: bool,
) -> Text {
    let mut out = Text::new(alloc);
    out.say("//! Types of ");
    out.say(if source.modules.len() == 1 {
        "the module"
    } else {
        "the modules"
    });
    for (place, module) in source.modules.iter().enumerate() {
        out.say(if place == 0 { " " } else { ", " });
        let tree = module.tree;
        out.put(tree.name.text);
    }
    out.say(
        ".\n//!\n//! Each type is a notation itself. `yasna_notation::Encoded` of it has the traits, so `decode_der` reads an `Encoded` of it.\n",
    );
    out.say(
        "//! `is_valid` of `yasna_notation_constraints` tests whether a value that was filled from input can be written.\n//!\n",
    );
    out.say("//! | Module | Holds |\n//! |---|---|\n");
    put_types(source, "//! | `", "` | `", "` |\n", &mut out);
    if has_constants {
        out.say("//! | `constants` | named numbers, named bits and values |\n");
    }
    out.say("#![tactic(auto)]\n\n");
    put_modules(files, order, &mut out);
    out.say("\n");
    put_types(source, "pub use ", "::", ";\n", &mut out);
    out
}

// The list of the specs of a crate, if it has any.
fn specs_of(alloc: Global, source: &CrateSource<'_, '_>) -> Option<Text> {
    let mut out = Text::new(alloc);
    for (place, name) in source.names.defined.iter().enumerate() {
        if name.is_enumeration && has_file(source, place) {
            out.say("pub mod ");
            out.put(name.name.as_slice());
            out.say("\n");
        }
    }
    if out.as_slice().is_empty() {
        None
    } else {
        Some(out)
    }
}

/// The files of a crate.
pub fn sources_of(
    alloc: Global,
    source: &CrateSource<'_, '_>,
) -> Result<Vec<SourceFile>, AllocError> {
    let mut files = Files::new(alloc);
    for (place, definition) in source.definitions.iter().enumerate() {
        let Some(name) = source.names.defined.get(place) else {
            continue
        };
        if has_file(source, place) {
            add_definition(alloc, source, definition, name, &mut files)?;
        }
    }
    let has_constants = add_constants(alloc, source, &mut files)?;
    let order = file_order(alloc, files.files.as_slice())?;
    let root = root_of(
        alloc,
        source,
        files.files.as_slice(),
        order.as_slice(),
        has_constants,
    );
    files.add("src/", b"lib", ".rt", root)?;
    if let Some(specs) = specs_of(alloc, source) {
        files.add("specs/", b"Lib", ".antt", specs)?;
    }
    let exports = exports_of(alloc, source);
    if !exports.as_slice().is_empty() {
        files.add("", b"exports", "", exports)?;
    }
    let Files { files, .. } = files;
    Ok(files)
}

// Appends the words that hold of a type.
fn put_judged(words: &[(bool, &'static str)], out: &mut Text) {
    let mut separator = ": ";
    for (holds, word) in words {
        if *holds {
            out.say(separator);
            out.say(word);
            separator = ", ";
        }
    }
    out.say("\n");
}

// Appends what the list says of a type, after its path: what it accepts and rejects, and each reason why it accepts more or rejects numbers.
fn put_judgement(
    alloc: Global,
    modules: &[ModuleSource<'_>],
    definition: &Definition<'_>,
    differences: &[Difference],
    name: &TypeName,
    out: &mut Text,
) {
    let body = &definition.body;
    let Ok(large) = large_numbers(alloc, definition, name) else {
        out.cut();
        return;
    };
    let accepts_more = !differences.is_empty();
    let is_closed = rejects_additions(body, name.is_open);
    let rejects_numbers = !large.is_empty();
    let words = [
        (!(accepts_more || is_closed || rejects_numbers), "exact"),
        (accepts_more, "accepts more"),
        (is_closed, "rejects additions"),
        (rejects_numbers, "rejects large numbers"),
        (name.is_canonical, "canonical"),
    ];
    put_judged(&words, out);
    put_differences(alloc, modules, body, differences, "    ", "\n", out);
    put_differences(alloc, modules, body, large.as_slice(), "    ", "\n", out);
}

/// A line for each type: its name, whether it accepts exactly what the module says, more, or neither what a later version adds nor numbers past 64
/// bits, and whether what BER reads is written in DER. Below it is a line for each reason why it accepts more, and for each part with such numbers.
pub fn list_of(alloc: Global, source: &CrateSource<'_, '_>) -> Text {
    let mut out = Text::new(alloc);
    for (place, name) in source.names.defined.iter().enumerate() {
        let Some(definition) = source.definitions.get(place) else {
            continue
        };
        if !has_file(source, place) {
            continue;
        }
        put_path(definition.path.as_slice(), &mut out);
        match differences_of(alloc, definition, name) {
            Ok(all) => put_judgement(
                alloc,
                source.modules,
                definition,
                all.as_slice(),
                name,
                &mut out,
            ),
            Err(_) => out.cut(),
        }
    }
    out
}
