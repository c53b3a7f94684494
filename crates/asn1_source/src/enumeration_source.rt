//! The source of an ENUMERATED, and its specs.

use crate::naming::clause_name;
use crate::template::Fragments;
use crate::templates::{ENUMERATION, ENUMERATION_SPECS, OPEN_ENUMERATION_SPECS};
use crate::terms::put_integer;
use crate::text::Text;
use crate::words::{is_specs_name, put_imported_variant};
use asn1_types::model::{Enumeration, EnumerationItem, Integer};

// Texts for each item, in which `@v` is its variant, and `@g` in clauses, `@n` its number, and `@z` in clauses, `@N` the enum and `@P` its specs.
struct ItemLine {
    named: &'static str,
    other: &'static str,
    end: &'static str,
}

static VARIANT_LINES: ItemLine = ItemLine {
    named: "    @v,\n",
    other: "    /// A number that the module doesn't name.\n    @v(i64),\n",
    end: "",
};

static NUMBER_ARMS: ItemLine = ItemLine {
    named: "            @N::@v => @n,\n",
    other: "            @N::@v(number) => *number,\n",
    end: "",
};

static VALUE_ARMS: ItemLine = ItemLine {
    named: "            @n => Some(@N::@v),\n",
    other: "            _ => Some(@N::@v(number)),\n",
    end: "            _ => None,\n",
};

static NUMBER_LINES: ItemLine = ItemLine {
    named: "@P_number @g = @z\n",
    other: "@P_number (@g n) = n\n",
    end: "",
};

static WRITABLE_LINES: ItemLine = ItemLine {
    named: "@P_writable @g = (λ u. (omega arith, refl), λ x. tt)\n",
    other: "",
    end: "",
};

static LISTED_NUMBERS: ItemLine = ItemLine {
    named: "@z ∷ ",
    other: "",
    end: "",
};

// An item, and the names in its texts.
#[derive(Clone, Copy)]
struct Item<'p> {
    variant: &'p [u8],
    variants: &'p [Vec<u8>],
    number: i64,
    name: &'p [u8],
    law: &'p [u8],
}

fn integer(number: i64) -> Integer {
    Integer {
        is_negative: number < 0,
        magnitude: number.unsigned_abs(),
    }
}

// Appends a number in code.
fn put_signed(number: i64, out: &mut Text) {
    if number < 0 {
        out.say("-");
    }
    out.put_number(number.unsigned_abs());
}

// Whether the specs need another name for a variant: theirs have it, or the enum has.
fn clashes(variant: &[u8], name: &[u8]) -> bool {
    is_specs_name(variant) || variant == name
}

// Appends the name of a variant in clauses.
fn put_ghost(variant: &[u8], variants: &[Vec<u8>], name: &[u8], out: &mut Text) {
    if !clashes(variant, name) {
        out.put(variant);
        return;
    }
    let text = clause_name(variants, variant, out.alloc());
    out.put(text.as_slice());
    if text.is_cut() {
        out.cut();
    }
}

fn put_mark(mark: u8, item: Item<'_>, out: &mut Text) {
    match mark {
        b'v' => out.put(item.variant),
        b'g' => put_ghost(item.variant, item.variants, item.name, out),
        b'n' => put_signed(item.number, out),
        b'z' => put_integer(integer(item.number), out),
        b'N' => out.put(item.name),
        _ => out.put(item.law),
    }
}

// Appends the text of an item.
fn put_item(text: &str, item: Item<'_>, out: &mut Text) {
    let mut is_mark = false;
    for octet in text.as_bytes() {
        if is_mark {
            put_mark(*octet, item, out);
            is_mark = false;
        } else if *octet == b'@' {
            is_mark = true;
        } else {
            out.put_octet(*octet);
        }
    }
}

/// An ENUMERATED, the names of its variants, and its own.
#[derive(Clone, Copy)]
pub struct EnumerationSource<'p, 'a> {
    /// The items.
    pub items: &'p [EnumerationItem<'a>],
    /// Whether `...` is there.
    pub is_extensible: bool,
    /// The names of their variants, and that of other numbers.
    pub variants: &'p [Vec<u8>],
    /// Its name.
    pub name: &'p [u8],
    /// What the names of its specs begin with.
    pub law: &'p [u8],
}

/// An ENUMERATED with these names.
pub fn enumeration_of<'p, 'a>(
    items: &'p [EnumerationItem<'a>],
    is_extensible: bool,
    variants: &'p [Vec<u8>],
    name: &'p [u8],
    law: &'p [u8],
) -> EnumerationSource<'p, 'a> {
    EnumerationSource {
        items,
        is_extensible,
        variants,
        name,
        law,
    }
}

// Appends the texts of all items.
fn put_items(line: &'static ItemLine, source: &EnumerationSource<'_, '_>, out: &mut Text) {
    let items = source.items;
    let mut place = 0usize;
    for variant in source.variants {
        let number = match items.get(place) {
            Some(item) => item.number,
            None => 0,
        };
        let item = Item {
            variant: variant.as_slice(),
            variants: source.variants,
            number,
            name: source.name,
            law: source.law,
        };
        put_item(
            if place < items.len() {
                line.named
            } else {
                line.other
            },
            item,
            out,
        );
        place = place.saturating_add(1);
    }
    if !source.is_extensible {
        out.say(line.end);
    }
}

fn set_items(
    fragments: &mut Fragments,
    mark: u8,
    line: &'static ItemLine,
    source: &EnumerationSource<'_, '_>,
) {
    let mut text = fragments.text();
    put_items(line, source, &mut text);
    fragments.set(mark, text);
}

// Sets `G` to the names of the variants, and to those in clauses where they are others.
fn set_names(fragments: &mut Fragments, source: &EnumerationSource<'_, '_>) {
    let mut text = fragments.text();
    let mut is_first = true;
    for variant in source.variants {
        if !is_first {
            text.say(", ");
        }
        is_first = false;
        put_imported_variant(variant.as_slice(), &mut text);
        if clashes(variant.as_slice(), source.name) {
            text.say(" as ");
            put_ghost(variant.as_slice(), source.variants, source.name, &mut text);
        }
    }
    fragments.set(b'G', text);
}

/// Sets the marks of a source and of its specs to those of an ENUMERATED.
pub fn set_enumeration(fragments: &mut Fragments, source: &EnumerationSource<'_, '_>) {
    fragments.set_octets(b'P', source.law);
    set_items(fragments, b'I', &VARIANT_LINES, source);
    set_items(fragments, b'1', &NUMBER_ARMS, source);
    set_items(fragments, b'2', &VALUE_ARMS, source);
    set_names(fragments, source);
    set_items(fragments, b'3', &NUMBER_LINES, source);
    set_items(fragments, b'4', &WRITABLE_LINES, source);
    set_items(fragments, b'5', &LISTED_NUMBERS, source);
}

/// The specs of an ENUMERATED, with marks.
pub fn specs_of(enumeration: &Enumeration<'_>) -> &'static str {
    if enumeration.is_extensible {
        OPEN_ENUMERATION_SPECS
    } else {
        ENUMERATION_SPECS
    }
}
