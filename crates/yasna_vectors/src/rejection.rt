//! Errors: their texts, and those of a caller's own.
//!
//! | Call | Returns |
//! |---|---|
//! | `text KIND` | the text of an error of this kind |
//! | `own N` | what try_construct_der returns where the closure writes N in a sequence and returns an error of its own |

use crate::names::named;
use crate::text::Text;
use yasna::{ASN1Error, ASN1ErrorKind, try_construct_der};

// The kinds of errors by their names.
static KINDS: [(&str, ASN1ErrorKind); 6] = [
    ("Eof", ASN1ErrorKind::Eof),
    ("Extra", ASN1ErrorKind::Extra),
    ("IntegerOverflow", ASN1ErrorKind::IntegerOverflow),
    ("StackOverflow", ASN1ErrorKind::StackOverflow),
    ("Invalid", ASN1ErrorKind::Invalid),
    ("OutOfMemory", ASN1ErrorKind::OutOfMemory),
];

/// Appends what a call of this family returns, and says whether there is such an argument.
pub fn append_outcome(call: &str, arg: &str, text: &mut Text) -> bool {
    if call == "own" {
        let Ok(number) = arg.parse() else {
            return false;
        };
        append_own(number, text);
        return true;
    }
    let kind = match named(&KINDS, arg) {
        Some(kind) if call == "text" => kind,
        _ => return false,
    };
    let error = ASN1Error::new(kind);
    if error.kind() == kind {
        text.push("ok ");
        text.push_value(&error);
    } else {
        text.push("a refusal of another kind");
    }
    true
}

/// The error type of a caller that has an error of its own.
#[derive(Drop)]
pub enum OwnError {
    Writing(ASN1Error),
    Own,
}

impl From<ASN1Error> for OwnError {
    ghost use Rattle.std.specs.Prelude.{◌≡◌};
    ghost use Rattle.yasna_vectors.specs.declared.rejection.OwnError.TheVariants.{Writing};

    ghost from_gives = { λ error own_error. own_error ≡ Writing error };

    fn from(error: ASN1Error) -> OwnError {
        OwnError::Writing(error)
    }
}

// Appends which error comes back.
fn append_own(number: i64, text: &mut Text) {
    let made = try_construct_der::<OwnError, _>(
        text.allocator(),
        |writer| writer.write_sequence(|seq| {
            seq.next().write_i64(number)?;
            Err(OwnError::Own)
        }),
    );
    match made {
        Ok(_) => text.push("ok"),
        Err(OwnError::Own) => text.push("own"),
        Err(OwnError::Writing(error)) => text.reject(error.kind()),
    }
}
