//! The sources of a type.

use crate::alternatives::{ChoiceSource, choice_of};
use crate::alternatives_source;
use crate::alternatives_source::{add_runs, set_second_file};
use crate::choice_source::{run_size, set_choice, variants_of};
use crate::enumeration_source::{enumeration_of, set_enumeration, specs_of};
use crate::extension::tail_of;
use crate::head::{ModuleSource, put_head, put_path};
use crate::imports::{Words, put_clause_table, put_code_table};
use crate::item_defaults::set_default_types;
use crate::naming::{field_names, item_names, variant_names};
use crate::parts::Fields;
use crate::parts_source::{first_run, put_rests};
use crate::sequence_source::set_sequence;
use crate::sets::{Listed, in_order, in_tag_order, put_choice_tags};
use crate::template::Fragments;
use crate::templates::{CANONICAL_IMPL, CHECKED_IMPL, ENUMERATION, IMPLS, SET_PART_IMPL};
use crate::terms::{TypeName, TypeNames};
use crate::text::Text;
use crate::type_imports::{put_all_laws, put_all_types};
use crate::value_source::{set_tagged, set_value};
use asn1_types::TagSet;
use asn1_types::model::{
    Alternatives, Body, Components, Constant, Definition, Enumeration, Notation, TagLayer,
};
use std::alloc::{AllocError, Global};

/// A file of a crate.
#[derive(Drop)]
pub struct SourceFile {
    /// Its path in the folder of the crate.
    pub path: Vec<u8>,
    /// Its text.
    pub text: Vec<u8>,
}

/// The files of a crate.
#[derive(Drop)]
pub struct Files {
    alloc: Global,
    /// The files.
    pub files: Vec<SourceFile>,
}

impl Files {
    /// No files.
    pub fn new(alloc: Global) -> Files {
        Files {
            alloc,
            files: Vec::new(alloc),
        }
    }

    /// Adds a file in a folder.
    pub fn add(
        &mut self,
        folder: &str,
        name: &[u8],
        ending: &str,
        text: Text,
    ) -> Result<(), AllocError> {
        let mut path = Text::new(self.alloc);
        path.say(folder);
        path.put(name);
        path.say(ending);
        let (Some(path), Some(text)) = (path.finish(), text.finish()) else {
            return Err(AllocError);
        };
        match self.files.push(SourceFile { path, text }) {
            Ok(()) => Ok(()),
            Err(_) => Err(AllocError),
        }
    }
}

/// What the sources of a crate are made of.
#[derive(Clone, Copy)]
pub struct CrateSource<'p, 'a> {
    /// The name of the crate.
    pub krate: &'p [u8],
    /// The modules.
    pub modules: &'p [ModuleSource<'a>],
    /// The definitions.
    pub definitions: &'p [Definition<'a>],
    /// The tags that the encodings of each begin with.
    pub tag_sets: &'p [TagSet],
    /// The names of all types.
    pub names: &'p TypeNames,
    /// Which definitions are wanted.
    pub wanted: &'p [bool],
    /// The values that have a name.
    pub constants: &'p [Constant<'a>],
}

/// What the sources of a crate of this name are made of.
pub fn source_of<'p, 'a>(
    krate: &'p [u8],
    modules: &'p [ModuleSource<'a>],
    definitions: &'p [Definition<'a>],
    tag_sets: &'p [TagSet],
    names: &'p TypeNames,
    wanted: &'p [bool],
    constants: &'p [Constant<'a>],
) -> CrateSource<'p, 'a> {
    CrateSource {
        krate,
        modules,
        definitions,
        tag_sets,
        names,
        wanted,
        constants,
    }
}

/// Whether a definition has a file: it is wanted, and no other name for a notation.
pub fn has_file(source: &CrateSource<'_, '_>, place: usize) -> bool {
    let is_wanted = match source.wanted.get(place) {
        Some(wanted) => *wanted,
        None => false,
    };
    match source.definitions.get(place) {
        Some(definition) => is_wanted && !matches!(&definition.body, Body::Alias(_)),
        None => false,
    }
}

// The fragments that all types have.
fn begun(
    alloc: Global,
    source: &CrateSource<'_, '_>,
    name: &TypeName,
    path: &[&[u8]],
) -> Fragments {
    let mut fragments = Fragments::new(alloc);
    fragments.set_octets(b'N', name.name.as_slice());
    fragments.set_octets(b'K', source.krate);
    let mut text = Text::new(alloc);
    put_path(path, &mut text);
    fragments.set(b'a', text);
    fragments
}

// The source of a type after what it brings in.
fn body_of(fragments: &mut Fragments, is_canonical: bool) -> Text {
    fragments.set_term(b'7', "@L", 100);
    fragments.set_term(b'8', "@C", 100);
    fragments.set_term(b'9', "@M", 25);
    let mut body = fragments.text();
    fragments.fill("@A/// `@a`.\n@S", &mut body);
    fragments.fill(IMPLS, &mut body);
    if is_canonical {
        fragments.fill(CANONICAL_IMPL, &mut body);
    }
    fragments.fill(CHECKED_IMPL, &mut body);
    body.put(fragments.get(b'd'));
    body
}

/// Appends what a source brings in, and the source. `clauses` and `code` are lines that it brings in beside all others.
pub fn put_source(
    alloc: Global,
    source: &CrateSource<'_, '_>,
    own: &[u8],
    clauses: &[u8],
    code: &[u8],
    body: &Text,
    out: &mut Text,
) {
    let words = Words::of(alloc, body.as_slice());
    put_clause_table(alloc, &words, out);
    put_all_laws(alloc, source.krate, own, source.names, &words, out);
    out.put(clauses);
    out.say("\n");
    out.put(code);
    put_all_types(own, source, &words, out);
    put_code_table(alloc, &words, out);
    out.say("\n");
    out.put(body.as_slice());
    if body.is_cut() || words.is_cut() {
        out.cut();
    }
}

// Adds the file of a type.
fn add_type(
    alloc: Global,
    source: &CrateSource<'_, '_>,
    definition: &Definition<'_>,
    name: &TypeName,
    fragments: &mut Fragments,
    clauses: &str,
    code: &str,
    files: &mut Files,
) -> Result<(), AllocError> {
    let body = body_of(fragments, name.is_canonical);
    let mut text = Text::new(alloc);
    put_head(alloc, source.modules, definition, name, &mut text);
    let mut more = Text::new(alloc);
    fragments.fill(clauses, &mut more);
    let mut lines = Text::new(alloc);
    fragments.fill(code, &mut lines);
    put_source(
        alloc,
        source,
        name.name.as_slice(),
        more.as_slice(),
        lines.as_slice(),
        &body,
        &mut text,
    );
    files.add("src/", name.file.as_slice(), ".rt", text)
}

// What a SEQUENCE brings in of the parts that have a name of their own.
const REST_CLAUSES: &str =
    "ghost use Rattle.@K.specs.contracts.@y.@YParts.TheImpl.Laws.{laws-law as @y_parts};\n";

const REST_WRITTEN_CLAUSES: &str =
    "ghost use Rattle.@K.specs.contracts.@y.@YParts.TheImpl.Laws.{laws-law as @y_parts};\nghost use Rattle.@K.specs.contracts.@y.@YCanonicalParts.TheImpl.Laws.{written-law as @y_written};\n";

/// The line that brings in the law of the parts of a SET that follow others, by `@y` and `@Y`.
pub fn set_clauses(has_rest: bool) -> &'static str {
    if has_rest {
        "ghost use Rattle.@K.specs.contracts.@y.@YSetParts.TheImpl.Laws.{set_laws-law as @y_set};\n"
    } else {
        ""
    }
}

/// The lines that bring in the parts that follow others, by `@y` and `@Y`.
pub fn rest_clauses(has_rest: bool, is_canonical: bool) -> &'static str {
    if !has_rest {
        ""
    } else if is_canonical {
        REST_WRITTEN_CLAUSES
    } else {
        REST_CLAUSES
    }
}

// A SEQUENCE or a SET: its parts, the order of their notations, and the tags around it.
#[derive(Clone, Copy)]
struct Constructed<'p, 'a> {
    components: &'p Components<'a>,
    order: &'p [Listed],
    tags: &'p [TagLayer],
    is_set: bool,
}

// Adds the files of a SEQUENCE or a SET.
fn add_constructed(
    alloc: Global,
    source: &CrateSource<'_, '_>,
    definition: &Definition<'_>,
    name: &TypeName,
    of: Constructed<'_, '_>,
    files: &mut Files,
) -> Result<(), AllocError> {
    let parts = of.components.parts.as_slice();
    let field_names = field_names(alloc, parts)?;
    let declared = in_order(alloc, parts)?;
    let fields = Fields {
        parts,
        names: field_names.as_slice(),
        order: of.order,
        declared: declared.as_slice(),
        tail: tail_of(of.components),
        is_tagged: !of.tags.is_empty(),
        is_set: of.is_set,
    };
    let mut fragments = begun(alloc, source, name, definition.path.as_slice());
    let rest = put_rests(alloc, source, name, &fields, files)?;
    let has_rest = !rest.name.is_empty();
    fragments.set_octets(b'y', rest.file.as_slice());
    fragments.set_octets(b'Y', rest.name.as_slice());
    fragments.set_octets(b'g', rest.lines.as_slice());
    let names = source.names;
    let count = first_run(&fields, names);
    set_sequence(alloc, &mut fragments, count, &rest, &fields, of.tags, names);
    set_default_types(alloc, &mut fragments, source, &fields.first(count))?;
    fragments.set_filled(b'1', set_clauses(has_rest && of.is_set));
    fragments.set_filled(b'e', rest_clauses(has_rest, name.is_canonical));
    add_type(
        alloc,
        source,
        definition,
        name,
        &mut fragments,
        "@e@1@j",
        "@g",
        files,
    )
}

// What a CHOICE brings in.
const VARIANT_CLAUSES: &str =
    "ghost use Rattle.std.specs.Prelude.{[]};\nghost use Rattle.@K.specs.declared.@F.@N.TheVariants.{@G};\n";

// Sets `d` to the impl by which a CHOICE is a part of a SET, if it is one.
fn set_part_impl(fragments: &mut Fragments, name: &TypeName) {
    if !name.is_set_part {
        return;
    }
    let mut tags = fragments.text();
    put_choice_tags(name, &mut tags);
    fragments.set(b'k', tags);
    fragments.set_filled(b'd', SET_PART_IMPL);
}

// Adds the files of a CHOICE whose source is this.
fn add_choice_source(
    alloc: Global,
    source: &CrateSource<'_, '_>,
    definition: &Definition<'_>,
    name: &TypeName,
    choice: &ChoiceSource<'_, '_>,
    files: &mut Files,
) -> Result<(), AllocError> {
    let mut fragments = begun(alloc, source, name, definition.path.as_slice());
    fragments.set_octets(b'F', name.file.as_slice());
    let count = choice.alternatives.len();
    let size = run_size(count, name.is_open);
    set_second_file(&mut fragments, name, choice, size);
    set_choice(&mut fragments, choice, size, source.names);
    add_runs(alloc, source, name, choice, size, files)?;
    let has_rest = count > size;
    fragments.set_filled(b's', VARIANT_CLAUSES);
    set_part_impl(&mut fragments, name);
    fragments.set_filled(
        b'e',
        alternatives_source::rest_clauses(has_rest, name.is_canonical),
    );
    add_type(
        alloc,
        source,
        definition,
        name,
        &mut fragments,
        "@s@e",
        alternatives_source::rest_code(has_rest),
        files,
    )
}

// Adds the files of a CHOICE.
fn add_choice(
    alloc: Global,
    source: &CrateSource<'_, '_>,
    definition: &Definition<'_>,
    name: &TypeName,
    choice: &Alternatives<'_>,
    files: &mut Files,
) -> Result<(), AllocError> {
    let alternatives = choice.alternatives.as_slice();
    let found = variant_names(alloc, alternatives, name.is_open)?;
    let variants = variants_of(alloc, found.as_slice(), name.name.as_slice(), source.names)?;
    let of = choice_of(
        alternatives,
        variants.as_slice(),
        name.name.as_slice(),
        name.is_open,
    );
    add_choice_source(alloc, source, definition, name, &of, files)
}

// Adds the file of a type that holds one value.
fn add_value(
    alloc: Global,
    source: &CrateSource<'_, '_>,
    definition: &Definition<'_>,
    name: &TypeName,
    notation: &Notation,
    files: &mut Files,
) -> Result<(), AllocError> {
    let mut fragments = begun(alloc, source, name, definition.path.as_slice());
    set_value(&mut fragments, notation, source.names);
    add_type(
        alloc,
        source,
        definition,
        name,
        &mut fragments,
        "",
        "",
        files,
    )
}

const NUMBER_CLAUSES: &str =
    "ghost use Rattle.std.specs.Ordering.{on, int_eq};\nghost use Rattle.std.specs.Cmp.{partial_equiv_from_equiv};\nghost use Rattle.std.proofs.lemmas.Cmp.{on_equiv, int_eq_equiv};\nghost use Rattle.@K.specs.@N.{@P_number, @P_named, @P_allowed, @P_writable};\n\n";

// Adds the file of an ENUMERATED, and that of its specs.
fn add_enumeration(
    alloc: Global,
    source: &CrateSource<'_, '_>,
    definition: &Definition<'_>,
    name: &TypeName,
    enumeration: &Enumeration<'_>,
    files: &mut Files,
) -> Result<(), AllocError> {
    let variants = item_names(
        alloc,
        enumeration.items.as_slice(),
        enumeration.is_extensible,
    )?;
    let mut fragments = begun(alloc, source, name, definition.path.as_slice());
    let of = enumeration_of(
        enumeration.items.as_slice(),
        enumeration.is_extensible,
        variants.as_slice(),
        name.name.as_slice(),
        name.law.as_slice(),
    );
    fragments.set_octets(b'F', name.file.as_slice());
    set_enumeration(&mut fragments, &of);
    let mut text = Text::new(alloc);
    put_head(alloc, source.modules, definition, name, &mut text);
    fragments.fill(NUMBER_CLAUSES, &mut text);
    fragments.fill(ENUMERATION, &mut text);
    files.add("src/", name.file.as_slice(), ".rt", text)?;
    let mut specs = Text::new(alloc);
    fragments.fill(specs_of(enumeration), &mut specs);
    files.add("specs/", name.name.as_slice(), ".antt", specs)
}

// What a type under tags brings in of the type that they are around.
const TAGGED_CLAUSES: &str =
    "ghost use Rattle.@K.specs.contracts.@J.@BNotation.TheImpl.Laws.{lawful-law as @J_law, non_empty-law as @J_non_empty};\n";

const TAGGED_WRITTEN_CLAUSES: &str =
    "ghost use Rattle.@K.specs.contracts.@J.@BNotation.TheImpl.Laws.{lawful-law as @J_law, non_empty-law as @J_non_empty};\nghost use Rattle.@K.specs.contracts.@J.@BCanonicalNotation.TheImpl.Laws.{written-law as @J_written};\n";

// Adds the file of a type that is another one under tags.
fn add_tagged(
    alloc: Global,
    source: &CrateSource<'_, '_>,
    definition: &Definition<'_>,
    name: &TypeName,
    inner: &TypeName,
    files: &mut Files,
) -> Result<(), AllocError> {
    let mut fragments = begun(alloc, source, name, definition.path.as_slice());
    fragments.set_octets(b'B', inner.name.as_slice());
    fragments.set_octets(b'J', inner.law.as_slice());
    set_tagged(&mut fragments, definition.tags.as_slice());
    let clauses = if name.is_canonical {
        TAGGED_WRITTEN_CLAUSES
    } else {
        TAGGED_CLAUSES
    };
    add_type(
        alloc,
        source,
        definition,
        name,
        &mut fragments,
        clauses,
        "use crate::@J::@B;\n",
        files,
    )
}

// The name of what is under the tags of a type.
fn untagged_name(alloc: Global, name: &TypeName) -> Result<TypeName, AllocError> {
    let mut text = Text::new(alloc);
    text.put(name.name.as_slice());
    text.say("Untagged");
    let mut file = Text::new(alloc);
    file.put(name.file.as_slice());
    file.say("_untagged");
    let law = Vec::from_slice(alloc, file.as_slice())?;
    match (text.finish(), file.finish()) {
        (Some(text), Some(file)) => Ok(TypeName {
            name: text,
            file,
            origin: None,
            original: None,
            law,
            is_enumeration: false,
            tags: Vec::new(alloc),
            is_canonical: name.is_canonical,
            is_open: name.is_open,
            own_tag: None,
            choice_tags: Vec::new(alloc),
            is_set_part: false,
            unread: name.unread,
        }),
        _ => Err(AllocError),
    }
}

// The number of the tag of a SET.
const SET_NUMBER: u64 = 17;

// Adds the files of a SET.
fn add_set(
    alloc: Global,
    source: &CrateSource<'_, '_>,
    definition: &Definition<'_>,
    name: &TypeName,
    components: &Components<'_>,
    files: &mut Files,
) -> Result<(), AllocError> {
    if name.unread.is_some() {
        let elements = Notation::ElementsUnder(SET_NUMBER);
        return add_value(alloc, source, definition, name, &elements, files);
    }
    let order = in_tag_order(alloc, components, source.names)?;
    let of = Constructed {
        components,
        order: order.as_slice(),
        tags: &[],
        is_set: true,
    };
    add_constructed(alloc, source, definition, name, of, files)
}

// Adds the files of a SEQUENCE.
fn add_sequence(
    alloc: Global,
    source: &CrateSource<'_, '_>,
    definition: &Definition<'_>,
    name: &TypeName,
    components: &Components<'_>,
    tags: &[TagLayer],
    files: &mut Files,
) -> Result<(), AllocError> {
    let order = in_order(alloc, components.parts.as_slice())?;
    let of = Constructed {
        components,
        order: order.as_slice(),
        tags,
        is_set: false,
    };
    add_constructed(alloc, source, definition, name, of, files)
}

// Adds the files of what a definition is under these tags.
fn add_body(
    alloc: Global,
    source: &CrateSource<'_, '_>,
    definition: &Definition<'_>,
    name: &TypeName,
    tags: &[TagLayer],
    files: &mut Files,
) -> Result<(), AllocError> {
    match &definition.body {
        Body::Sequence(components) => add_sequence(
            alloc, source, definition, name, components, tags, files,
        ),
        Body::Set(components) => add_set(alloc, source, definition, name, components, files),
        Body::Choice(choice) => add_choice(alloc, source, definition, name, choice, files),
        Body::Enumerated(enumeration) => add_enumeration(
            alloc,
            source,
            definition,
            name,
            enumeration,
            files,
        ),
        Body::Value(notation) => add_value(alloc, source, definition, name, notation, files),
        Body::Alias(_) => Ok(()),
    }
}

/// Whether tags are around a type in a file of its own: around a CHOICE or a SET, and two of them around a SEQUENCE.
pub fn is_cut(definition: &Definition<'_>) -> bool {
    match &definition.body {
        Body::Choice(_) | Body::Set(_) => !definition.tags.is_empty(),
        Body::Sequence(_) => definition.tags.len() > 1,
        Body::Enumerated(_) | Body::Value(_) | Body::Alias(_) => false,
    }
}

/// Adds the files of a definition.
pub fn add_definition(
    alloc: Global,
    source: &CrateSource<'_, '_>,
    definition: &Definition<'_>,
    name: &TypeName,
    files: &mut Files,
) -> Result<(), AllocError> {
    if !is_cut(definition) {
        return add_body(
            alloc,
            source,
            definition,
            name,
            definition.tags.as_slice(),
            files,
        );
    }
    let inner = untagged_name(alloc, name)?;
    add_body(alloc, source, definition, &inner, &[], files)?;
    add_tagged(alloc, source, definition, name, &inner, files)
}
