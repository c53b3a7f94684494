//! What `asn1_source` calls types of other crates.

use crate::sources::is_written;
use asn1_source::{Export, ExportsError, add_exports};
use asn1_syntax::parse;
use asn1_syntax::tree::Module;
use std::alloc::Global;
use std::process::Abort;

/// A crate, and its file `exports`.
type Exported = (&'static str, &'static str);

/// Crates, a module that imports from them, a file of the crate that is written for it, and lines in that file.
type Row = (
    &'static [Exported],
    &'static [u8],
    &'static str,
    &'static str,
);

const NAMES: [Exported; 2] = [
    ("a", "A Name name Name U16 canonical\n"),
    ("b", "B Name name Name U16 canonical\n"),
];

const PAIR: &[u8] =
    b"M DEFINITIONS ::= BEGIN IMPORTS Name FROM A Name FROM B; Pair ::= SEQUENCE { first A.Name, second B.Name } END";

const LISTED: &[u8] =
    b"M DEFINITIONS ::= BEGIN IMPORTS List FROM A; Holder ::= SEQUENCE { list List } END";

static ROWS: [Row; 8] = [
    (
        &NAMES,
        PAIR,
        "src/pair.rt",
        "use a::Name;\nuse b::Name as Name2;\n",
    ),
    (
        &NAMES,
        PAIR,
        "src/pair.rt",
        "    pub first: Name,\n    pub second: Name2,\n",
    ),
    (
        &NAMES,
        PAIR,
        "src/pair.rt",
        "ghost use Rattle.b.specs.contracts.name.NameCanonicalNotation.TheImpl.Laws.{written-law as b_name_written};\n",
    ),
    (
        &NAMES,
        b"M DEFINITIONS ::= BEGIN IMPORTS Name FROM A; First ::= SEQUENCE { name Name } END N DEFINITIONS ::= BEGIN IMPORTS Name FROM B; Second ::= SEQUENCE { name Name } END",
        "src/second.rt",
        "use b::Name as Name2;\n",
    ),
    (
        &NAMES,
        b"L DEFINITIONS ::= BEGIN Name ::= SEQUENCE { a NULL } END M DEFINITIONS ::= BEGIN IMPORTS Name FROM A Name FROM B; Pair ::= SEQUENCE { first A.Name, second B.Name } END",
        "src/name.rt",
        "pub struct Name22 {\n",
    ),
    (
        &[
            ("a", "A Kind kind Kind U10 canonical enumeration\n"),
            ("b", "B Kind kind Kind U10 canonical enumeration\n"),
        ],
        b"M DEFINITIONS ::= BEGIN IMPORTS Kind FROM A Kind FROM B; Pair ::= SEQUENCE { first A.Kind, second B.Kind } END",
        "src/pair.rt",
        "ghost use Rattle.b.specs.Kind.{kind_number as b_kind_number};\n",
    ),
    (
        &[
            ("a", "A First b_name First U16 canonical\n"),
            ("a_b", "B Second name Second U16 canonical\n"),
        ],
        b"M DEFINITIONS ::= BEGIN IMPORTS First FROM A Second FROM B; Pair ::= SEQUENCE { first First, second Second } END",
        "src/pair.rt",
        "ghost use Rattle.a_b.specs.contracts.name.SecondNotation.TheImpl.Laws.{lawful-law as a_b_name2_law};\n",
    ),
    (
        &[("a", "A List list List U16 canonical\n")],
        LISTED,
        "src/holder.rt",
        "use a::List as ListType;\n",
    ),
];

// The types that crates export to modules.
fn exports_of(
    alloc: Global,
    crates: &'static [Exported],
    modules: &[Module<'_>],
) -> Result<Vec<Export<'static>>, ExportsError> {
    let mut exports = Vec::new(alloc);
    for (krate, text) in crates {
        add_exports(alloc, *krate, *text, modules, &mut exports)?;
    }
    Ok(exports)
}

// Whether a file of the crate of a module has some lines. Modules and exports are never freed, since they are lent for as long as they are.
fn is_so(alloc: Global, row: &'static Row) -> bool {
    let (crates, source, file, lines) = *row;
    let Ok(modules) = parse(alloc, source) else {
        return false;
    };
    match exports_of(alloc, crates, modules.as_slice()) {
        Ok(exports) => is_written(alloc, source, modules.leak(), exports.leak(), file, lines),
        Err(_) => false,
    }
}

// The lines of the first row that aren't in its file.
fn first_missing(alloc: Global) -> Option<&'static str> {
    for row in ROWS.iter() {
        if !is_so(alloc, row) {
            return Some(row.3);
        }
    }
    None
}

#[test]
fn imported_types_have_names_of_their_own(rt: HostRuntime) {
    assert!(rt; first_missing(rt.alloc()).is_none());
}
