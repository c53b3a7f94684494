//! The lexical items of modules.
ghost use Rattle.std.specs.Prelude.{◌≡◌, ◌∷◌, [], codes, map, IfOk, OnOk};
ghost use Rattle.asn1_syntax.specs.Printing.{prepended};
ghost use Rattle.asn1_syntax.specs.Tree.{assignment_then, assignments_then, class_then, comma_then, exports_then, extensible_then, import_list_then, import_then, imports_then, is_name, module_then, modules_then, names_then, selection_then, syntax_then, tags_then, texts_then, type_then};

use crate::prepended::Prepended;
use crate::printed_types::{comma, type_notation};
use crate::token::{Token, TokenKind};
use crate::tree::{Assignment, ClassNotation, Import, Module, TagDefault, TypeNotation};
use std::alloc::{AllocError, Global};

// Prepends the default of a module's tags.
fn tag_default(out: &mut Prepended<'_>, tags: TagDefault) -> Result<(), AllocError>
    ensures { OnOk result (prepended out.new ≡ tags_then tags (prepended out.old)) }
{
    let word = match tags {
        TagDefault::Omitted => return Ok(()),
        TagDefault::Explicit => "EXPLICIT",
        TagDefault::Implicit => "IMPLICIT",
        TagDefault::Automatic => "AUTOMATIC",
    };
    out.word("TAGS")?;
    out.word(word)
}

// Prepends EXTENSIBILITY IMPLIED, if it is there.
fn extensible(out: &mut Prepended<'_>, extensible: bool) -> Result<(), AllocError>
    ensures { OnOk result (prepended out.new ≡ extensible_then extensible (prepended out.old)) }
{
    if !extensible {
        return Ok(());
    }
    out.word("IMPLIED")?;
    out.word("EXTENSIBILITY")
}

// Prepends what is exported.
fn exports<'a>(out: &mut Prepended<'a>, exports: &Option<Vec<Token<'a>>>) -> Result<(), AllocError>
    ensures { OnOk result (prepended out.new ≡ exports_then exports.now (prepended out.old)) }
{
    match exports {
        Some(tokens) => {
            out.word(";")?;
            out.tokens(tokens.as_slice())?;
            out.word("EXPORTS")
        }
        None => Ok(()),
    }
}

// Whether a lexical item is a name.
fn is_name(kind: TokenKind) -> bool
    ensures { result ≡ is_name kind }
{
    matches!(kind, TokenKind::TypeReference | TokenKind::Identifier)
}

// Prepends a name and the comma before it, or a brace.
fn name<'a>(out: &mut Prepended<'a>, name: &Token<'a>) -> Result<(), AllocError>
    ensures { OnOk result (prepended out.new ≡ comma_then (is_name name.now.kind) (name.now.text.now ∷ prepended out.old)) }
{
    out.text(name.text)?;
    comma(out, is_name(name.kind))
}

// Prepends names, each after a comma, and braces after names.
fn names<'a>(out: &mut Prepended<'a>, names: &[Token<'a>]) -> Result<(), AllocError>
    ensures { OnOk result (prepended out.new ≡ names_then names.now (prepended out.old)) }
{
    let mut left = names.len();
    while left > 0 {
        left -= 1;
        name(out, &names[left])?;
    }
    Ok(())
}

// Prepends the word after WITH, if there is one.
fn selection<'a>(out: &mut Prepended<'a>, word: &Option<Token<'a>>) -> Result<(), AllocError>
    ensures { OnOk result (prepended out.new ≡ selection_then word.now (prepended out.old)) }
{
    match word {
        Some(word) => {
            out.text(word.text)?;
            out.word("WITH")
        }
        None => Ok(()),
    }
}

// Prepends what is imported from one module.
fn import<'a>(out: &mut Prepended<'a>, import: &Import<'a>) -> Result<(), AllocError>
    ensures { OnOk result (prepended out.new ≡ import_then import.now (prepended out.old)) }
{
    selection(out, &import.selection)?;
    out.optional(&import.value)?;
    out.braces(&import.identifier)?;
    out.text(import.module.text)?;
    out.word("FROM")?;
    names(out, import.others.as_slice())?;
    out.text(import.first.text)
}

// Prepends what is imported from several modules.
fn import_list<'a>(out: &mut Prepended<'a>, imports: &[Import<'a>]) -> Result<(), AllocError>
    ensures { OnOk result (prepended out.new ≡ import_list_then imports.now (prepended out.old)) }
{
    let mut left = imports.len();
    while left > 0 {
        left -= 1;
        import(out, &imports[left])?;
    }
    Ok(())
}

// Prepends what is imported, if IMPORTS is there.
fn imports<'a>(out: &mut Prepended<'a>, imports: &Option<Vec<Import<'a>>>) -> Result<(), AllocError>
    ensures { OnOk result (prepended out.new ≡ imports_then imports.now (prepended out.old)) }
{
    match imports {
        Some(imports) => {
            out.word(";")?;
            import_list(out, imports.as_slice())?;
            out.word("IMPORTS")
        }
        None => Ok(()),
    }
}

// Prepends WITH SYNTAX and its braces, if they are there.
fn syntax<'a>(out: &mut Prepended<'a>, syntax: &Option<Vec<Token<'a>>>) -> Result<(), AllocError>
    ensures { OnOk result (prepended out.new ≡ syntax_then syntax.now (prepended out.old)) }
{
    match syntax {
        Some(tokens) => {
            out.braced(tokens.as_slice())?;
            out.word("SYNTAX")?;
            out.word("WITH")
        }
        None => Ok(()),
    }
}

// Prepends an information object class.
fn class<'a>(out: &mut Prepended<'a>, class: &ClassNotation<'a>) -> Result<(), AllocError>
    ensures { OnOk result (prepended out.new ≡ class_then class.now (prepended out.old)) }
{
    syntax(out, &class.syntax)?;
    out.braced(class.fields.as_slice())?;
    out.word("CLASS")
}

// Prepends `::=`, a value, and the type before them.
fn typed_value<'a>(
    out: &mut Prepended<'a>,
    notation: &TypeNotation<'a>,
    value: &[Token<'a>],
) -> Result<(), AllocError>
    ensures { OnOk result (prepended out.new ≡ type_then notation.now (codes "::=" ∷ texts_then value.now (prepended out.old))) }
{
    out.tokens(value)?;
    out.word("::=")?;
    type_notation(out, notation)
}

// Prepends `::=` and the type after it.
fn defined_type<'a>(out: &mut Prepended<'a>, notation: &TypeNotation<'a>) -> Result<(), AllocError>
    ensures { OnOk result (prepended out.new ≡ codes "::=" ∷ type_then notation.now (prepended out.old)) }
{
    type_notation(out, notation)?;
    out.word("::=")
}

// Prepends an assignment.
fn assignment<'a>(out: &mut Prepended<'a>, assignment: &Assignment<'a>) -> Result<(), AllocError>
    ensures { OnOk result (prepended out.new ≡ assignment_then assignment.now (prepended out.old)) }
{
    match assignment {
        Assignment::Type(name, notation) => {
            defined_type(out, notation)?;
            out.text(name.text)
        }
        Assignment::Value(name, notation, value) => {
            typed_value(out, notation, value.as_slice())?;
            out.text(name.text)
        }
        Assignment::ParameterizedType(name, parameters, notation) => {
            defined_type(out, notation)?;
            out.braced(parameters.as_slice())?;
            out.text(name.text)
        }
        Assignment::ParameterizedValue(name, parameters, notation, value) => {
            typed_value(out, notation, value.as_slice())?;
            out.braced(parameters.as_slice())?;
            out.text(name.text)
        }
        Assignment::Class(name, parameters, notation) => {
            class(out, notation)?;
            out.word("::=")?;
            out.braces(parameters)?;
            out.text(name.text)
        }
    }
}

// Prepends assignments.
fn assignments<'a>(
    out: &mut Prepended<'a>,
    assignments: &[Assignment<'a>],
) -> Result<(), AllocError>
    ensures { OnOk result (prepended out.new ≡ assignments_then assignments.now (prepended out.old)) }
{
    let mut left = assignments.len();
    while left > 0 {
        left -= 1;
        assignment(out, &assignments[left])?;
    }
    Ok(())
}

// Prepends what is between BEGIN and END.
fn module_body<'a>(out: &mut Prepended<'a>, tree: &Module<'a>) -> Result<(), AllocError>
    ensures { OnOk result (prepended out.new ≡ exports_then tree.now.exports (imports_then tree.now.imports
        (assignments_then tree.now.assignments.items (prepended out.old)))) }
{
    assignments(out, tree.assignments.as_slice())?;
    imports(out, &tree.imports)?;
    exports(out, &tree.exports)
}

// Prepends a module.
fn module<'a>(out: &mut Prepended<'a>, tree: &Module<'a>) -> Result<(), AllocError>
    ensures { OnOk result (prepended out.new ≡ module_then tree.now (prepended out.old)) }
{
    out.word("END")?;
    module_body(out, tree)?;
    out.word("BEGIN")?;
    out.word("::=")?;
    extensible(out, tree.extensible)?;
    tag_default(out, tree.tags)?;
    out.word("DEFINITIONS")?;
    out.optional(&tree.iri)?;
    out.braces(&tree.identifier)?;
    out.text(tree.name.text)
}

// Prepends modules.
fn modules<'a>(out: &mut Prepended<'a>, modules: &[Module<'a>]) -> Result<(), AllocError>
    ensures { OnOk result (prepended out.new ≡ modules_then modules.now (prepended out.old)) }
{
    let mut left = modules.len();
    while left > 0 {
        left -= 1;
        module(out, &modules[left])?;
    }
    Ok(())
}

/// The texts of the lexical items of modules, in their order.
///
/// Of what `parse` returned they are those of the source. An error is that memory ran out.
pub fn print<'a>(alloc: Global, trees: &[Module<'a>]) -> Result<Vec<&'a [u8]>, AllocError>
    ensures { IfOk result (λ texts. map (λ text. text.now) texts.items ≡ modules_then trees.now []) }
{
    let mut out = Prepended::new(alloc);
    modules(&mut out, trees)?;
    Ok(out.into_texts())
}
