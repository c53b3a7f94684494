//! A list of a CHOICE, which is read by the next tag.
ghost use Rattle.std.specs.Prelude.{◌≡◌, ℤ, List, Option, true, false, IfOk, MatchResult};
ghost use Rattle.yasna.specs.Words.{Der, OutOfMemory, kind_of, max_depth, Decodes, IsFresh};
ghost use Rattle.examples_proved.specs.Items.{EncodesItem, AnyItem, EncodesItems, AnyItems};

use std::alloc::Global;
use yasna::tags::TAG_NULL;
use yasna::{ASN1Result, BERReader, parse_der};

// An INTEGER, or None for a NULL.
fn number_or_null(item: BERReader) -> ASN1Result<Option<i64>>
    requires { IsFresh item.old }
    ensures { Decodes false EncodesItem AnyItem item.old result item.new }
{
    match item.lookahead_tag() {
        Ok(tag) => {
            if tag == TAG_NULL {
                match item.read_null() {
                    Ok(()) => Ok(None),
                    Err(error) => Err(error),
                }
            } else {
                match item.read_i64() {
                    Ok(number) => Ok(Some(number)),
                    Err(error) => Err(error),
                }
            }
        }
        Err(error) => Err(error),
    }
}

/// The items whose DER encoding as a SEQUENCE OF a CHOICE of INTEGER and NULL these bytes are, in order: None for a NULL.
///
/// Rejects exactly the bytes that aren't the encoding of such a list, unless memory runs out.
pub fn parsed_items(alloc: Global, buf: &[u8]) -> ASN1Result<Vec<Option<i64>>>
    ensures items { IfOk result (λ v. EncodesItems Der max_depth v.items buf.now) }
    ensures exactly { (vs : List (Option ℤ)) → EncodesItems Der max_depth vs buf.now → MatchResult result (λ v. v.items ≡ vs) (λ e. kind_of e ≡ OutOfMemory) }
{
    parse_der(
        alloc,
        buf,
        |reader| -> ASN1Result<Vec<Option<i64>>>
            requires { IsFresh reader.old }
            ensures { Decodes true (λ m n v b. EncodesItems m n v.items b) AnyItems reader.old result reader.new }
        { reader.collect_sequence_of(number_or_null) },
    )
}
