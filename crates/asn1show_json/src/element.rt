//! The JSON of an element, up to the elements in it.
ghost use Rattle.std.specs.Prelude.{◌≡◌, List, ℕ, [], ◌∷◌, ◌++◌, length, map, codes, decimal, IfOk, OnOk};
ghost use Rattle.json.specs.Token.{begin_array, boolean, end_array, key, number, string};
ghost use Rattle.asn1show_json.specs.Json.{class_name, diagnostic_tokens, element_tokens, end_tokens, is_constructed, length_token, member_tokens, name_tokens, place_tokens, tag_tokens, value_token, IsElementJson, IsJson};

use asn1show_printer::Diagnostic;
use asn1show_walk::Item;
use json::Writer;
use std::alloc::{AllocError, Global};
use yasna_base::tag::{PCBit, TagClass};

fn class_name(class: TagClass) -> &'static str
    ensures { result.now ≡ class_name class }
{
    match class {
        TagClass::Universal => "universal",
        TagClass::Application => "application",
        TagClass::ContextSpecific => "context-specific",
        TagClass::Private => "private",
    }
}

fn is_constructed(bit: PCBit) -> bool
    ensures { result ≡ is_constructed bit }
{
    match bit {
        PCBit::Primitive => false,
        PCBit::Constructed => true,
    }
}

// Writes a member whose value is a number.
fn write_number(json: &mut Writer, name: &str, value: u64) -> Result<(), AllocError>
    ensures before { json.new.before ≡ json.old.before }
    ensures tokens { OnOk result (json.new.tokens ≡ json.old.tokens ++ (key name.now ∷ number (decimal value) ∷ [])) }
{
    json.key(name)?;
    json.u64(value)
}

// Writes a member whose value is a string.
fn write_text(json: &mut Writer, name: &str, text: &str) -> Result<(), AllocError>
    ensures before { json.new.before ≡ json.old.before }
    ensures tokens { OnOk result (json.new.tokens ≡ json.old.tokens ++ (key name.now ∷ string text.now ∷ [])) }
{
    json.key(name)?;
    json.string(text)
}

// Writes a member whose value is true or false.
fn write_flag(json: &mut Writer, name: &str, flag: bool) -> Result<(), AllocError>
    ensures before { json.new.before ≡ json.old.before }
    ensures tokens { OnOk result (json.new.tokens ≡ json.old.tokens ++ (key name.now ∷ boolean flag ∷ [])) }
{
    json.key(name)?;
    json.boolean(flag)
}

// Writes the member for a length.
fn write_length(json: &mut Writer, size: Option<usize>) -> Result<(), AllocError>
    ensures before { json.new.before ≡ json.old.before }
    ensures tokens { OnOk result (json.new.tokens ≡ json.old.tokens ++ (key (codes "length") ∷ length_token size ∷ [])) }
{
    json.key("length")?;
    match size {
        Some(size) => json.u64(size as u64),
        None => json.null(),
    }
}

// Writes the members for the place and the lengths of an element.
fn write_place(json: &mut Writer, item: &Item<'_>) -> Result<(), AllocError>
    ensures before { json.new.before ≡ json.old.before }
    ensures tokens { OnOk result (json.new.tokens ≡ json.old.tokens ++ place_tokens item.now) }
{
    write_number(json, "offset", item.offset as u64)?;
    write_number(json, "header", item.header as u64)?;
    write_length(json, item.size)
}

// Writes the members for the tag of an element.
fn write_tag(json: &mut Writer, item: &Item<'_>) -> Result<(), AllocError>
    ensures before { json.new.before ≡ json.old.before }
    ensures tokens { OnOk result (json.new.tokens ≡ json.old.tokens ++ tag_tokens item.now) }
{
    write_text(json, "class", class_name(item.tag.tag_class))?;
    write_number(json, "tag", item.tag.tag_number)?;
    write_flag(json, "constructed", is_constructed(item.bit))
}

// Writes the member for a value.
fn write_value(json: &mut Writer, value: Option<&str>) -> Result<(), AllocError>
    ensures before { json.new.before ≡ json.old.before }
    ensures tokens { OnOk result (json.new.tokens ≡ json.old.tokens ++ (key (codes "value") ∷ value_token value.entry ∷ [])) }
{
    json.key("value")?;
    match value {
        Some(text) => json.string(text),
        None => json.null(),
    }
}

// Writes the member for a name, if there is one.
fn write_name(json: &mut Writer, member: &str, name: Option<&str>) -> Result<(), AllocError>
    ensures before { json.new.before ≡ json.old.before }
    ensures tokens { OnOk result (json.new.tokens ≡ json.old.tokens ++ name_tokens member.now name.entry) }
{
    match name {
        Some(name) => write_text(json, member, name),
        None => Ok(()),
    }
}

// Writes the members of an element before its diagnostics.
fn write_members(
    json: &mut Writer,
    item: &Item<'_>,
    part: Option<&str>,
    alternative: Option<&str>,
    value: Option<&str>,
) -> Result<(), AllocError>
    ensures before { json.new.before ≡ json.old.before }
    ensures tokens { OnOk result (json.new.tokens ≡ json.old.tokens ++ member_tokens item.now part.entry alternative.entry value.entry) }
{
    write_place(json, item)?;
    write_tag(json, item)?;
    write_name(json, "field", part)?;
    write_name(json, "alternative", alternative)?;
    write_value(json, value)
}

// Writes the texts of diagnostics.
fn write_texts(json: &mut Writer, diagnostics: &[Diagnostic]) -> Result<(), AllocError>
    ensures before { json.new.before ≡ json.old.before }
    ensures tokens { OnOk result ((texts : List (List ℕ)) × (length texts ≡ length diagnostics.now) × (json.new.tokens ≡ json.old.tokens ++ map string texts)) }
{
    for diagnostic in diagnostics {
        json.string(diagnostic.text())?;
    }
    Ok(())
}

// Writes the member for diagnostics.
fn write_diagnostics(json: &mut Writer, diagnostics: &[Diagnostic]) -> Result<(), AllocError>
    ensures before { json.new.before ≡ json.old.before }
    ensures tokens { OnOk result ((texts : List (List ℕ)) × (length texts ≡ length diagnostics.now)
        × (json.new.tokens ≡ json.old.tokens ++ diagnostic_tokens texts)) }
{
    json.key("diagnostics")?;
    json.begin_array()?;
    write_texts(json, diagnostics)?;
    json.end_array()
}

// Writes an element up to the elements in it.
fn write_element(
    json: &mut Writer,
    item: &Item<'_>,
    part: Option<&str>,
    alternative: Option<&str>,
    value: Option<&str>,
    diagnostics: &[Diagnostic],
) -> Result<(), AllocError>
    ensures before { json.new.before ≡ json.old.before }
    ensures tokens { OnOk result ((texts : List (List ℕ)) × (length texts ≡ length diagnostics.now)
        × (json.new.tokens ≡ json.old.tokens ++ element_tokens item.now part.entry alternative.entry value.entry texts)) }
{
    json.begin_object()?;
    write_members(json, item, part, alternative, value)?;
    write_diagnostics(json, diagnostics)?;
    json.key("children")?;
    json.begin_array()
}

// Writes the ends of elements.
fn write_ends(json: &mut Writer, ends: u8) -> Result<(), AllocError>
    ensures before { json.new.before ≡ json.old.before }
    ensures tokens { OnOk result (json.new.tokens ≡ json.old.tokens ++ end_tokens ends) }
{
    let mut left = ends;
    while left > 0 {
        json.end_array()?;
        json.end_object()?;
        left -= 1;
    }
    Ok(())
}

/// The JSON of the ends of elements, and of the next element up to the elements in it.
pub fn element_text(
    alloc: Global,
    ends: u8,
    item: &Item<'_>,
    part: Option<&str>,
    alternative: Option<&str>,
    value: Option<&str>,
    diagnostics: &[Diagnostic],
) -> Result<Vec<u8>, AllocError>
    ensures { IfOk result (λ text. IsElementJson ends item.now part.entry alternative.entry value.entry (length diagnostics.now) text.items) }
{
    let mut json = Writer::new(Vec::new(alloc));
    write_ends(&mut json, ends)?;
    write_element(&mut json, item, part, alternative, value, diagnostics)?;
    Ok(json.into_inner())
}

/// The JSON before the first element.
pub fn start_text(alloc: Global) -> Result<Vec<u8>, AllocError>
    ensures { IfOk result (λ text. IsJson text.items (begin_array ∷ [])) }
{
    let mut json = Writer::new(Vec::new(alloc));
    json.begin_array()?;
    Ok(json.into_inner())
}

/// The JSON of the ends of elements after the last one.
pub fn end_text(alloc: Global, ends: u8) -> Result<Vec<u8>, AllocError>
    ensures { IfOk result (λ text. IsJson text.items (end_tokens ends ++ (end_array ∷ []))) }
{
    let mut json = Writer::new(Vec::new(alloc));
    write_ends(&mut json, ends)?;
    json.end_array()?;
    Ok(json.into_inner())
}
