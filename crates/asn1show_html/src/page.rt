//! The beginning and the end of a page, and what is between the elements.
ghost use Rattle.std.specs.Prelude.{IfErr};
ghost use Rattle.asn1show_walk.specs.Errors.{IsExternal};

use crate::escape::write_text;
use asn1show_printer::{LineBuffer, Output};
use asn1show_walk::WalkError;
use std::alloc::Global;
use std::io::Write;

// Rows are folded by `details`, so a page can be read without its script. Octets are at the right.
const START: &str = "<!DOCTYPE html>
<html lang=\"en\">
<head>
<meta charset=\"utf-8\">
<title>asn1show</title>
<style>
body { font: 14px/1.5 system-ui, sans-serif; margin: 1em 2em; }
details details { margin-left: 1.5em; }
summary { display: flex; gap: 0.7em; cursor: pointer; }
.primitive > summary { cursor: default; }
i { color: #767676; font-style: normal; min-width: 3em; text-align: right; }
u { font-style: italic; text-decoration: none; }
b::before { content: \"\\25be \"; color: #767676; }
details:not([open]) > summary b::before { content: \"\\25b8 \"; }
.primitive > summary b::before { content: \"\\2002\\2002\"; }
span { overflow-wrap: anywhere; }
em { color: #b00020; font-style: normal; }
code { margin-left: auto; padding: 0 0.3em; }
.lit > summary { background: #eef4ff; }
.lit code { background: #ffe9a8; }
.error { color: #b00020; font-weight: bold; }
</style>
</head>
<body>";

// An element under the pointer is lit up, with the octets of all that is in it.
const END: &str = "<script>
document.addEventListener('mouseover', event => {
  document.querySelectorAll('.lit').forEach(lit => lit.classList.remove('lit'));
  const element = event.target.closest('details');
  if (element) element.classList.add('lit');
});
</script>
</body>
</html>";

// Writes a text of HTML on a line.
fn write_line<W: Write + Drop>(
    output: &mut Output<W>,
    alloc: Global,
    html: &str,
) -> Result<(), WalkError>
    ensures { IfErr result IsExternal }
{
    let mut line = LineBuffer::new(alloc);
    line.write_str(html);
    output.write(&mut line)
}

/// Begins a page. `Err` says that memory ran out, or that a write failed.
pub fn write_start<W: Write + Drop>(output: &mut Output<W>, alloc: Global) -> Result<(), WalkError>
    ensures { IfErr result IsExternal }
{
    write_line(output, alloc, START)
}

/// Ends a page. `Err` says that memory ran out, or that a write failed.
pub fn write_end<W: Write + Drop>(output: &mut Output<W>, alloc: Global) -> Result<(), WalkError>
    ensures { IfErr result IsExternal }
{
    write_line(output, alloc, END)
}

/// Writes the heading of an input. `Err` says that memory ran out, or that a write failed.
pub fn write_heading<W: Write + Drop>(
    output: &mut Output<W>,
    alloc: Global,
    heading: &LineBuffer,
) -> Result<(), WalkError>
    ensures { IfErr result IsExternal }
{
    let mut line = LineBuffer::new(alloc);
    line.write_str("<h2>");
    write_text(&mut line, alloc, heading.text()?);
    line.write_str("</h2>");
    output.write(&mut line)
}

/// Writes why an input is malformed, after its elements. `Err` says that memory ran out, or that a write failed.
pub fn write_error<W: Write + Drop>(
    output: &mut Output<W>,
    alloc: Global,
    error: &LineBuffer,
) -> Result<(), WalkError>
    ensures { IfErr result IsExternal }
{
    let mut line = LineBuffer::new(alloc);
    line.write_str("<p class=\"error\">");
    write_text(&mut line, alloc, error.text()?);
    line.write_str("</p>");
    output.write(&mut line)
}
