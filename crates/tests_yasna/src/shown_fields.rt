//! Lines, JSON and HTML with the names of a module, as `asn1show_modules` makes its tables.

use crate::checks::finds_none;
use crate::lines::Expectation::Listed;
use crate::lines::{ALL, Row, is_viewed};
use crate::shown_html::is_body;
use asn1show_lines::{Layout, Schema, View};
use asn1show_schema::schema::{Beginning, Contents, Name, Parts, Place};
use std::alloc::{AllocError, Global};
use yasna::BERMode::Ber;
use yasna_base::tag::Tag;
use yasna_base::tags::{TAG_INTEGER, TAG_NULL, TAG_SEQUENCE};

// An element of the type A ::= SEQUENCE { a INTEGER, b CHOICE { c NULL } OPTIONAL }, and one element more.
static NAMED: Row = (
    "3007 020105 0500 0500",
    None,
    Ber,
    Listed(
        "input: hexadecimal, 9 bytes
      0  2+7        SEQUENCE
      2  2+1          a INTEGER 5
      5  2+0          b.c NULL
      7  2+0          NULL -- not in the module
rules: BER, DER
",
        "",
    ),
);

static NAMED_IN_JSON: Row = (
    "3007 020105 0500 0500",
    None,
    Ber,
    Listed(
        "[
{\"offset\":0,\"header\":2,\"length\":7,\"class\":\"universal\",\"tag\":16,\"constructed\":true,\"value\":null,\"diagnostics\":[],\"children\":[
{\"offset\":2,\"header\":2,\"length\":1,\"class\":\"universal\",\"tag\":2,\"constructed\":false,\"field\":\"a\",\"value\":\"5\",\"diagnostics\":[],\"children\":[
]},{\"offset\":5,\"header\":2,\"length\":0,\"class\":\"universal\",\"tag\":5,\"constructed\":false,\"field\":\"b\",\"alternative\":\"c\",\"value\":null,\"diagnostics\":[],\"children\":[
]},{\"offset\":7,\"header\":2,\"length\":0,\"class\":\"universal\",\"tag\":5,\"constructed\":false,\"value\":null,\"diagnostics\":[\"not in the module\"],\"children\":[
]}]}]
",
        "",
    ),
);

// The page of these elements.
const NAMED_IN_HTML: &str = "<h2>input: hexadecimal, 9 bytes</h2>
<details open class=\"constructed\"><summary><i>0</i> <i>2+7</i> <b>SEQUENCE</b> <code>3007</code></summary>
<details open class=\"primitive\"><summary><i>2</i> <i>2+1</i> <u>a</u> <b>INTEGER</b> <span>5</span> <code>020105</code></summary>
</details><details open class=\"primitive\"><summary><i>5</i> <i>2+0</i> <u>b</u> <u>c</u> <b>NULL</b> <code>0500</code></summary>
</details><details open class=\"primitive\"><summary><i>7</i> <i>2+0</i> <b>NULL</b> <em>not in the module</em> <code>0500</code></summary>
</details></details><p>rules: BER, DER</p>
";

// A name of one letter in the text of names.
fn letter(start: usize) -> Name {
    Name {
        start,
        end: start.saturating_add(1),
    }
}

fn beginning(tag: Tag, alternative: Name, contents: Contents) -> Beginning {
    Beginning {
        tag: Some(tag),
        alternative,
        contents,
    }
}

// A place whose element begins as the row with its number.
fn place(name: Name, may_be_absent: bool, row: usize) -> Place {
    Place {
        name,
        may_be_absent,
        default: Name { start: 0, end: 0 },
        default_number: None,
        first: row,
        end: row.saturating_add(1),
    }
}

// The tables of that type.
fn schema(alloc: Global) -> Result<Schema, AllocError> {
    let mut text = Vec::new(alloc);
    text.extend_from_slice(b"abc")?;
    let none = Name { start: 0, end: 0 };
    let mut beginnings = Vec::new(alloc);
    beginnings.push(beginning(TAG_INTEGER, none, Contents::Any))?;
    beginnings.push(beginning(TAG_NULL, letter(2), Contents::Any))?;
    let parts = Parts {
        first: 0,
        end: 2,
        extension: None,
    };
    beginnings.push(beginning(TAG_SEQUENCE, none, Contents::InOrder(parts)))?;
    let mut places = Vec::new(alloc);
    places.push(place(letter(0), false, 0))?;
    places.push(place(letter(1), true, 1))?;
    places.push(place(none, false, 2))?;
    Ok(Schema {
        text,
        places,
        beginnings,
        named_numbers: Vec::new(alloc),
        selections: Vec::new(alloc),
        start: 2,
    })
}

// The layout that hasn't the names.
fn first_unnamed(alloc: Global) -> Option<&'static str> {
    let Ok(schema) = schema(alloc) else {
        return Some("the tables");
    };
    let lines = View {
        schema: Some(&schema),
        ..ALL
    };
    let json = View {
        layout: Layout::Json,
        ..lines
    };
    if !matches!(is_viewed(alloc, &NAMED, lines, true), Ok(true)) {
        return Some("lines");
    }
    if !matches!(is_viewed(alloc, &NAMED_IN_JSON, json, true), Ok(true)) {
        return Some("JSON");
    }
    let html = View {
        layout: Layout::Html,
        ..lines
    };
    if !is_body(alloc, NAMED.0, html, NAMED_IN_HTML) {
        return Some("HTML");
    }
    None
}

#[test]
fn elements_have_names_of_a_module(rt: HostRuntime) {
    finds_none(&rt, first_unnamed(rt.alloc()));
}
