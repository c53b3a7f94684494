//! Types that a module leaves open: parameters (X.683), fields of classes (X.681), and those that no module gives.
ghost use Rattle.std.specs.Prelude.{◌≡◌, IfOk, IfSome, true};
ghost use Rattle.asn1_types.specs.Context.{IsUnchanged};
ghost use Rattle.asn1_types.specs.Notations.{IsOfField, IsOpenType};

use crate::builtins::{Builtin, builtin_of};
use crate::cores::{TypeAt, assigned_type, place_of};
use crate::integers::UNBOUNDED;
use crate::model::{Loosening, Notation};
use crate::problem::{ProblemKind, Stop};
use crate::resolver::{Resolver, note};
use crate::scope::{Meaning, Scope, assignment_at, meaning_of};
use crate::tokens::{has_text, is};
use asn1_syntax::Token;
use asn1_syntax::tree::{Assignment, PlainType};

// The lexical items in the braces of a class.
fn class_fields<'a>(scope: Scope<'a>, module: usize, class: Token<'a>) -> &'a [Token<'a>] {
    match meaning_of(scope, module, class) {
        Ok(Meaning::Assigned(place)) => match assignment_at(scope.modules, place) {
            Some(Assignment::Class(_, _, notation)) => notation.fields.as_slice(),
            _ => &[],
        },
        _ => &[],
    }
}

// The word after the name of a field.
fn word_after<'a>(fields: &'a [Token<'a>], field: &[u8]) -> Option<Token<'a>> {
    let index = fields.iter().position(|token| is(*token, field))?;
    fields.get(index.checked_add(1)?).copied()
}

// The type of a field: that of the class, if it has a word of its own. That of `id` is OBJECT IDENTIFIER, as in TYPE-IDENTIFIER.
fn field_notation<'a>(
    scope: Scope<'a>,
    module: usize,
    class: Token<'a>,
    field: Token<'a>,
) -> Notation
    ensures { IsOfField result }
{
    match word_after(class_fields(scope, module, class), field.text) {
        Some(word) => match builtin_of(word.text) {
            Some(Builtin::ObjectIdentifier) => Notation::ObjectIdentifier,
            Some(Builtin::Integer) => Notation::Integer(UNBOUNDED, None),
            Some(Builtin::Boolean) => Notation::Boolean,
            _ => Notation::Any,
        },
        None if is(field, b"id") => Notation::ObjectIdentifier,
        None => Notation::Any,
    }
}

// The type of the field that words name: a class, a dot, `&` and a field. A path of several fields is any element.
fn named_field<'a>(scope: Scope<'a>, module: usize, words: &[Token<'a>]) -> Notation
    ensures { IsOfField result }
{
    match words {
        [class, _, _, field] => field_notation(scope, module, *class, *field),
        _ => Notation::Any,
    }
}

// Whether a name is a parameter, and not the governor of one.
fn is_parameter(parameters: &[Token<'_>], name: &[u8]) -> bool {
    let Some(index) = parameters.iter().position(|token| is(*token, name)) else {
        return false;
    };
    let (_, rest) = parameters.split_at(index);
    !matches!(rest, [_, colon, ..] if is(*colon, b":"))
}

// Whether a name with this problem is one that no module gives.
fn is_not_given(kind: ProblemKind) -> bool {
    matches!(
        kind,
        ProblemKind::NotDefined | ProblemKind::ModuleMissing | ProblemKind::NotExported
    )
}

// Whether no module gives a type for a name.
fn names_no_type<'a>(scope: Scope<'a>, module: usize, name: Token<'a>) -> bool {
    match meaning_of(scope, module, name) {
        Ok(Meaning::Known(_)) => false,
        Ok(Meaning::Assigned(place)) => assigned_type(scope, place).is_none(),
        Err(problem) => is_not_given(problem.kind),
    }
}

// Whether a name is that of a type that no module gives. Where all modules are given, there is none.
fn is_missing<'a>(r: &Resolver<'a>, module: usize, name: Token<'a>) -> bool
    ensures { result ≡ true → r.now.is_incomplete ≡ true }
{
    r.is_incomplete && names_no_type(r.scope, module, name)
}

/// The notation of a parameter, of a field of a class, or of a type that no module gives. `None` is another type.
pub fn open_notation<'a>(
    r: &mut Resolver<'a>,
    at: TypeAt<'a>,
    plain: &'a PlainType<'a>,
) -> Result<Option<Notation>, Stop>
    ensures unchanged { IsUnchanged r.old r.new }
    ensures left_open { IfOk result (λ found. IfSome found (IsOpenType r.new.is_incomplete plain.now.words.items)) }
{
    match plain.words.as_slice() {
        [name] if is_parameter(r.work.parameters, name.text) => {
            note(r, place_of(at), Loosening::Parameter)?;
            Ok(Some(Notation::Any))
        }
        words if has_text(words, b"&") => {
            let notation = named_field(r.scope, at.module, words);
            if matches!(notation, Notation::Any) {
                note(r, place_of(at), Loosening::OpenType)?;
            }
            Ok(Some(notation))
        }
        [name] if is_missing(r, at.module, *name) => {
            note(r, place_of(at), Loosening::Missing)?;
            Ok(Some(Notation::Missing))
        }
        _ => Ok(None),
    }
}
