//! The HTML of elements. `ci/html_pictures.sh` shows pages in a browser.

use crate::checks::finds_none;
use crate::lines::ALL;
use asn1show_lines::{Layout, Output, View, show};
use std::alloc::Global;
use yasna::BERMode::Ber;

const HTML: View<'static> = View {
    layout: Layout::Html,
    ..ALL
};

// Inputs, and what is between the beginning and the end of their pages.
static IN_HTML: [(&str, &str); 3] = [
    (
        "3009 010101 0C043C26223E",
        "<h2>input: hexadecimal, 11 bytes</h2>
<details open class=\"constructed\"><summary><i>0</i> <i>2+9</i> <b>SEQUENCE</b> <code>3009</code></summary>
<details open class=\"primitive\"><summary><i>2</i> <i>2+1</i> <b>BOOLEAN</b> <span>TRUE</span> <em>not DER: TRUE isn't FF</em> <code>010101</code></summary>
</details><details open class=\"primitive\"><summary><i>5</i> <i>2+4</i> <b>UTF8String</b> <span>&quot;&lt;&amp;\\&quot;&gt;&quot;</span> <code>0C043C26223E</code></summary>
</details></details><p>rules: BER</p>
",
    ),
    (
        "3080 0403 020105 0000",
        "<h2>input: hexadecimal, 9 bytes</h2>
<details open class=\"constructed\"><summary><i>0</i> <i>2+indef</i> <b>SEQUENCE</b> <em>not DER: indefinite length</em> <code>3080</code></summary>
<details open class=\"primitive\"><summary><i>2</i> <i>2+3</i> <b>OCTET STRING</b> <span>'020105'H</span> <code>0403020105</code></summary>
<details open class=\"primitive\"><summary><i>4</i> <i>2+1</i> &gt; <b>INTEGER</b> <span>5</span> <code>020105</code></summary>
</details></details></details><p>rules: BER, CER</p>
",
    ),
    (
        "3006 020105 0405 41",
        "<h2>input: hexadecimal, 8 bytes</h2>
<details open class=\"constructed\"><summary><i>0</i> <i>2+6</i> <b>SEQUENCE</b> <code>3006</code></summary>
<details open class=\"primitive\"><summary><i>2</i> <i>2+1</i> <b>INTEGER</b> <span>5</span> <code>020105</code></summary>
</details></details>
<p class=\"error\">offset 5: Eof: expected 5 octets of contents, of which 1 are there</p>
",
    ),
];

/// Whether this is between the beginning and the end of the page of an input.
pub(crate) fn is_body(alloc: Global, input: &str, view: View<'_>, body: &str) -> bool {
    let mut output = Output::new(Vec::new(alloc));
    let _outcome = show(alloc, &mut output, Ber, None, view, input.as_bytes());
    let page = std::str::from_utf8(output.writer().as_slice()).unwrap_or("");
    let Some((_, after)) = page.split_once("<body>\n") else {
        return false;
    };
    matches!(after.split_once("<script>"), Some((shown, _)) if shown == body)
}

fn first_other_body(alloc: Global) -> Option<&'static str> {
    for (input, body) in &IN_HTML {
        if !is_body(alloc, input, HTML, body) {
            return Some(*input);
        }
    }
    None
}

#[test]
fn elements_are_rows_of_a_page(rt: HostRuntime) {
    finds_none(&rt, first_other_body(rt.alloc()));
}
