//! The JSON of elements. That it is JSON was also seen by `jq`, which lists the same offsets and values.

use crate::checks::finds_none;
use crate::lines::Expectation::Listed;
use crate::lines::{ALL, Row, is_viewed};
use asn1show_lines::Selection::Elements;
use asn1show_lines::{Extent, Layout, View};
use std::alloc::Global;
use yasna::BERMode::{Ber, Der};

const JSON: View<'static> = View {
    layout: Layout::Json,
    ..ALL
};

// Inputs, and the JSON of them.
static IN_JSON: [Row; 4] = [
    (
        "3080 020105 0C034122 0A 0603550403 010101 0500 8201C3 0000",
        None,
        Ber,
        Listed(
            "[
{\"offset\":0,\"header\":2,\"length\":null,\"class\":\"universal\",\"tag\":16,\"constructed\":true,\"value\":null,\"diagnostics\":[\"not DER: indefinite length\"],\"children\":[
{\"offset\":2,\"header\":2,\"length\":1,\"class\":\"universal\",\"tag\":2,\"constructed\":false,\"value\":\"5\",\"diagnostics\":[],\"children\":[
]},{\"offset\":5,\"header\":2,\"length\":3,\"class\":\"universal\",\"tag\":12,\"constructed\":false,\"value\":\"A\\\"\\n\",\"diagnostics\":[],\"children\":[
]},{\"offset\":10,\"header\":2,\"length\":3,\"class\":\"universal\",\"tag\":6,\"constructed\":false,\"value\":\"2.5.4.3 commonName\",\"diagnostics\":[],\"children\":[
]},{\"offset\":15,\"header\":2,\"length\":1,\"class\":\"universal\",\"tag\":1,\"constructed\":false,\"value\":\"TRUE\",\"diagnostics\":[\"not DER: TRUE isn't FF\"],\"children\":[
]},{\"offset\":18,\"header\":2,\"length\":0,\"class\":\"universal\",\"tag\":5,\"constructed\":false,\"value\":null,\"diagnostics\":[],\"children\":[
]},{\"offset\":20,\"header\":2,\"length\":1,\"class\":\"context-specific\",\"tag\":2,\"constructed\":false,\"value\":\"'C3'H\",\"diagnostics\":[],\"children\":[
]}]}]
",
            "",
        ),
    ),
    (
        "3006 020105 0405 41",
        None,
        Der,
        Listed(
            "[
{\"offset\":0,\"header\":2,\"length\":6,\"class\":\"universal\",\"tag\":16,\"constructed\":true,\"value\":null,\"diagnostics\":[],\"children\":[
{\"offset\":2,\"header\":2,\"length\":1,\"class\":\"universal\",\"tag\":2,\"constructed\":false,\"value\":\"5\",\"diagnostics\":[],\"children\":[
]}]}]
",
            "offset 5: Eof: expected 5 octets of contents, of which 1 are there",
        ),
    ),
    (
        "-----BEGIN X-----\nAgEF\n-----END X-----\n-----BEGIN Y-----\nAgEG\n-----END Y-----\n",
        None,
        Ber,
        Listed(
            "[
{\"offset\":0,\"header\":2,\"length\":1,\"class\":\"universal\",\"tag\":2,\"constructed\":false,\"value\":\"5\",\"diagnostics\":[],\"children\":[
]}]
[
{\"offset\":0,\"header\":2,\"length\":1,\"class\":\"universal\",\"tag\":2,\"constructed\":false,\"value\":\"6\",\"diagnostics\":[],\"children\":[
]}]
",
            "",
        ),
    ),
    (
        "0403 020105",
        None,
        Ber,
        Listed(
            "[
{\"offset\":0,\"header\":2,\"length\":3,\"class\":\"universal\",\"tag\":4,\"constructed\":false,\"value\":\"'020105'H\",\"diagnostics\":[],\"children\":[
{\"offset\":2,\"header\":2,\"length\":1,\"class\":\"universal\",\"tag\":2,\"constructed\":false,\"value\":\"5\",\"diagnostics\":[],\"children\":[
]}]}]
",
            "",
        ),
    ),
];

// The elements at an offset down to a depth, in an input that goes on after them.
const NESTED_IN_JSON: Row = (
    "300C 3003 020101 3005 A003 020102",
    None,
    Ber,
    Listed(
        "[
{\"offset\":7,\"header\":2,\"length\":5,\"class\":\"universal\",\"tag\":16,\"constructed\":true,\"value\":null,\"diagnostics\":[],\"children\":[
{\"offset\":9,\"header\":2,\"length\":3,\"class\":\"context-specific\",\"tag\":0,\"constructed\":true,\"value\":null,\"diagnostics\":[],\"children\":[
]}]}]
",
        "",
    ),
);

fn first_other_in_json(alloc: Global) -> Option<&'static str> {
    for row in &IN_JSON {
        if !matches!(is_viewed(alloc, row, JSON, true), Ok(true)) {
            return Some(row.0);
        }
    }
    let part = View {
        selection: Elements(Extent {
            at: Some(7),
            depth: 1,
        }),
        ..JSON
    };
    if matches!(is_viewed(alloc, &NESTED_IN_JSON, part, true), Ok(true)) {
        return None;
    }
    Some(NESTED_IN_JSON.0)
}

#[test]
fn elements_are_an_array_of_json(rt: HostRuntime) {
    finds_none(&rt, first_other_in_json(rt.alloc()));
}
