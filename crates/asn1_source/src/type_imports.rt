//! What a source brings in of the types of its crate, and of other crates.
//!
//! | Mark | Represents |
//! |---|---|
//! | `@K` | the crate of the type |
//! | `@F` | its file |
//! | `@N` | its name |
//! | `@O` | its name in its crate |
//! | `@P` | what the names of its laws begin with |
//! | `@S` | the file of specs that has the numbers of its items |

use crate::imports::Words;
use crate::terms::{TypeName, TypeNames};
use crate::text::Text;
use crate::type_source::{CrateSource, has_file};
use std::alloc::Global;

// A line that a source needs where a word is in its text.
struct Line {
    // What the word has after what the names of the laws begin with.
    ending: &'static str,
    text: &'static str,
}

static LAW_LINES: [Line; 3] = [
    Line {
        ending: "_law",
        text: "ghost use Rattle.@K.specs.contracts.@F.@ONotation.TheImpl.Laws.{lawful-law as @P_law};\n",
    },
    Line {
        ending: "_non_empty",
        text: "ghost use Rattle.@K.specs.contracts.@F.@ONotation.TheImpl.Laws.{non_empty-law as @P_non_empty};\n",
    },
    Line {
        ending: "_written",
        text: "ghost use Rattle.@K.specs.contracts.@F.@OCanonicalNotation.TheImpl.Laws.{written-law as @P_written};\n",
    },
];

static NUMBER_LINES: [Line; 4] = [
    Line {
        ending: "_detects",
        text: "ghost use Rattle.@K.specs.@O.{@P_detects};\n",
    },
    Line {
        ending: "_number",
        text: "ghost use Rattle.@K.specs.@O.{@P_number};\n",
    },
    Line {
        ending: "_named",
        text: "ghost use Rattle.@K.specs.@O.{@P_named};\n",
    },
    Line {
        ending: "_writable",
        text: "ghost use Rattle.@K.specs.@O.{@P_writable};\n",
    },
];

// Those of an ENUMERATED of another crate, whose specs have the name of its file.
static OTHER_NUMBER_LINES: [Line; 4] = [
    Line {
        ending: "_detects",
        text: "ghost use Rattle.@K.specs.@O.{@F_detects as @P_detects};\n",
    },
    Line {
        ending: "_number",
        text: "ghost use Rattle.@K.specs.@O.{@F_number as @P_number};\n",
    },
    Line {
        ending: "_named",
        text: "ghost use Rattle.@K.specs.@O.{@F_named as @P_named};\n",
    },
    Line {
        ending: "_writable",
        text: "ghost use Rattle.@K.specs.@O.{@F_writable as @P_writable};\n",
    },
];

// The lines for the laws of a type.
fn lines_of(name: &TypeName) -> &'static [Line] {
    if !name.is_enumeration {
        LAW_LINES.as_slice()
    } else if name.origin.is_none() {
        NUMBER_LINES.as_slice()
    } else {
        OTHER_NUMBER_LINES.as_slice()
    }
}

// The name of a type in its crate.
fn original_of(name: &TypeName) -> &[u8] {
    match &name.original {
        Some(original) => original.as_slice(),
        None => name.name.as_slice(),
    }
}

/// Appends a text with what its marks represent.
pub fn put_type_line(text: &str, krate: &[u8], name: &TypeName, out: &mut Text) {
    let mut is_mark = false;
    for octet in text.as_bytes() {
        if is_mark {
            match *octet {
                b'K' => out.put(krate),
                b'F' => out.put(name.file.as_slice()),
                b'N' => out.put(name.name.as_slice()),
                b'O' => out.put(original_of(name)),
                _ => out.put(name.law.as_slice()),
            }
            is_mark = false;
        } else if *octet == b'@' {
            is_mark = true;
        } else {
            out.put_octet(*octet);
        }
    }
}

fn crate_of<'t>(name: &'t TypeName, krate: &'t [u8]) -> &'t [u8] {
    match &name.origin {
        Some(origin) => origin.as_slice(),
        None => krate,
    }
}

// Appends the lines of a table whose words are in a text.
fn put_lines(
    alloc: Global,
    lines: &[Line],
    krate: &[u8],
    name: &TypeName,
    words: &Words<'_>,
    out: &mut Text,
) {
    for line in lines {
        let mut word = Text::new(alloc);
        word.put(name.law.as_slice());
        word.say(line.ending);
        if words.has(word.as_slice()) {
            put_type_line(line.text, crate_of(&*name, &*krate), name, out);
        }
    }
}

/// Appends the lines for the laws of a type that a text names.
pub fn put_laws(alloc: Global, krate: &[u8], name: &TypeName, words: &Words<'_>, out: &mut Text) {
    put_lines(alloc, lines_of(name), krate, name, words, out);
}

/// Appends the line for a type that a text names.
pub fn put_type(name: &TypeName, words: &Words<'_>, out: &mut Text) {
    if !words.has(name.name.as_slice()) {
        return;
    }
    match &name.origin {
        Some(origin) if name.original.is_some() => {
            put_type_line("use @K::@O as @N;\n", origin.as_slice(), name, out)
        }
        Some(origin) => put_type_line("use @K::@N;\n", origin.as_slice(), name, out),
        None => put_type_line("use crate::@F::@N;\n", b"crate", name, out),
    }
}

/// Appends the lines for the laws of all types that a text names, but for one of these names.
pub fn put_all_laws(
    alloc: Global,
    krate: &[u8],
    own: &[u8],
    names: &TypeNames,
    words: &Words<'_>,
    out: &mut Text,
) {
    for place in names.order.iter() {
        let Some(name) = names.defined.get(*place) else {
            continue
        };
        if name.name.as_slice() != own {
            put_laws(alloc, krate, name, words, out);
        }
    }
    for name in names.imported.iter() {
        put_laws(alloc, krate, name, words, out);
    }
}

/// Appends the lines for all types that a text names, but for one of these names. A type without a file isn't there: its name is that of a variant.
pub fn put_all_types(own: &[u8], source: &CrateSource<'_, '_>, words: &Words<'_>, out: &mut Text) {
    let names = source.names;
    for place in names.order.iter() {
        let Some(name) = names.defined.get(*place) else {
            continue
        };
        if name.name.as_slice() != own && has_file(source, *place) {
            put_type(name, words, out);
        }
    }
    for name in names.imported.iter() {
        put_type(name, words, out);
    }
}
