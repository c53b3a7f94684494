//! Values within each bound, and beyond it. A row has its name, a value, and whether the value can be written.

use crate::checks::{bytes_of, finds_none};
use std::alloc::Global;
use yasna_base::models::ObjectIdentifier;
use yasna_notation::{
    AtMost, BigInteger, BitString, Bounded, Choice, Context, Default, Either, Explicit, False,
    FromTo, Ia5String, Last, NotEmpty, Number, NumericString, Optional, PrintableString, Sequence,
    SequenceOf, SetOf, Size, VisibleString,
};
use yasna_notation_constraints::Checked;

type Count = Bounded<u64, AtMost<7>>;

type Ends = (
    Default<bool, False>,
    (
        Default<Explicit<Context<1>, Count>, Number<9>>,
        Last<ObjectIdentifier>,
    ),
);

type Parts = Sequence<
    (
        Count,
        (Optional<Explicit<Context<0>, PrintableString>>, Ends),
    ),
>;

type EndFields = (bool, (u64, Option<ObjectIdentifier>));

type Fields = (u64, (Option<String>, EndFields));

type Types = Choice<(Count, (Bounded<Vec<u8>, Size<2>>,))>;

/// A notation of texts.
#[derive(Clone, Copy)]
enum Letters {
    Any,
    Printable,
    Ia5,
    Numeric,
    Visible,
}

/// A notation of lists of numbers up to 7.
#[derive(Clone, Copy)]
enum List {
    SequenceOf,
    NotEmpty,
    SetOf,
}

/// A value, and the notation that tests it. Octets are in hexadecimal.
#[derive(Clone, Copy)]
enum Value {
    /// The components of an object identifier.
    Oid(&'static [u64]),
    /// The octets of an integer of any size, and whether it isn't negative.
    Integer(&'static str, bool),
    /// The octets of a BIT STRING, and how many bits there are.
    Bits(&'static str, usize),
    Text(Letters, &'static str),
    /// A number up to 7.
    Count(u64),
    /// A number from 2 to 5.
    FromTwo(u64),
    List(List, &'static [u64]),
    /// A number up to 7, as the first type of a CHOICE.
    First(u64),
    /// Two octets, as the second one.
    Second(&'static str),
    /// The first, second, fourth and last part of a SEQUENCE.
    Parts(u64, Option<&'static str>, u64, Option<&'static [u64]>),
}

static ROWS: [(&str, Value, bool); 59] = [
    ("no component", Value::Oid(&[]), false),
    ("one component", Value::Oid(&[1]), false),
    ("two components", Value::Oid(&[1, 39]), true),
    ("an arc beyond the first root", Value::Oid(&[0, 40]), false),
    ("an arc beyond the second root", Value::Oid(&[1, 40]), false),
    ("a fourth root", Value::Oid(&[3, 1]), false),
    (
        "the last arc of the third root",
        Value::Oid(&[2, 18446744073709551535]),
        true,
    ),
    (
        "an arc beyond 64 bits with its root",
        Value::Oid(&[2, 18446744073709551536]),
        false,
    ),
    (
        "the last component",
        Value::Oid(&[2, 5, 18446744073709551615]),
        true,
    ),
    ("no octet", Value::Integer("", true), false),
    ("zero", Value::Integer("00", true), true),
    ("zero of the wrong sign", Value::Integer("00", false), false),
    ("a number below zero", Value::Integer("80", false), true),
    (
        "a number below zero of the wrong sign",
        Value::Integer("80", true),
        false,
    ),
    (
        "a zero octet that is needed",
        Value::Integer("0080", true),
        true,
    ),
    (
        "a zero octet that isn't",
        Value::Integer("007f", true),
        false,
    ),
    (
        "an octet of ones that is needed",
        Value::Integer("ff7f", false),
        true,
    ),
    (
        "an octet of ones that isn't",
        Value::Integer("ff80", false),
        false,
    ),
    ("no bit", Value::Bits("", 0), true),
    ("an octet without a bit", Value::Bits("00", 0), false),
    ("one bit", Value::Bits("80", 1), true),
    ("eight bits", Value::Bits("ff", 8), true),
    ("nine bits in one octet", Value::Bits("ff", 9), false),
    ("eight bits in two octets", Value::Bits("ff00", 8), false),
    (
        "more bits than any octets hold",
        Value::Bits("ff", 18446744073709551615),
        false,
    ),
    ("any text", Value::Text(Letters::Any, "\u{e9}\n"), true),
    (
        "a printable text",
        Value::Text(Letters::Printable, "Test-1 (a)"),
        true,
    ),
    ("an at sign", Value::Text(Letters::Printable, "a@b"), false),
    ("an asterisk", Value::Text(Letters::Printable, "*"), false),
    ("an address", Value::Text(Letters::Ia5, "a@b"), true),
    (
        "a letter beyond ASCII",
        Value::Text(Letters::Ia5, "\u{e9}"),
        false,
    ),
    ("digits", Value::Text(Letters::Numeric, "0 9"), true),
    ("a letter", Value::Text(Letters::Numeric, "0a"), false),
    (
        "visible characters",
        Value::Text(Letters::Visible, " ~"),
        true,
    ),
    ("a tab", Value::Text(Letters::Visible, "\t"), false),
    ("a bound", Value::Count(7), true),
    ("beyond it", Value::Count(8), false),
    ("a lower end", Value::FromTwo(2), true),
    ("below it", Value::FromTwo(1), false),
    (
        "a SEQUENCE OF without a number",
        Value::List(List::SequenceOf, &[]),
        true,
    ),
    (
        "a SEQUENCE OF of numbers",
        Value::List(List::SequenceOf, &[0, 7]),
        true,
    ),
    (
        "a SEQUENCE OF with a number beyond its bound",
        Value::List(List::SequenceOf, &[0, 8]),
        false,
    ),
    (
        "a SEQUENCE OF one or more, without a number",
        Value::List(List::NotEmpty, &[]),
        false,
    ),
    (
        "a SEQUENCE OF one or more numbers",
        Value::List(List::NotEmpty, &[0, 7]),
        true,
    ),
    (
        "a SEQUENCE OF one or more, with a number beyond its bound",
        Value::List(List::NotEmpty, &[0, 8]),
        false,
    ),
    (
        "a SET OF without a number",
        Value::List(List::SetOf, &[]),
        true,
    ),
    (
        "a SET OF of numbers",
        Value::List(List::SetOf, &[0, 7]),
        true,
    ),
    (
        "a SET OF with a number beyond its bound",
        Value::List(List::SetOf, &[0, 8]),
        false,
    ),
    ("two octets", Value::Second("0102"), true),
    ("three octets", Value::Second("010203"), false),
    ("the first type", Value::First(7), true),
    ("the first type beyond its bound", Value::First(8), false),
    (
        "all parts",
        Value::Parts(7, Some("a"), 7, Some(&[1, 2])),
        true,
    ),
    ("no optional part", Value::Parts(0, None, 0, None), true),
    (
        "the first part beyond its bound",
        Value::Parts(8, None, 0, None),
        false,
    ),
    (
        "a part that isn't printable",
        Value::Parts(7, Some("@"), 0, None),
        false,
    ),
    (
        "a default, beyond its bound",
        Value::Parts(7, None, 9, None),
        true,
    ),
    (
        "no default, beyond its bound",
        Value::Parts(7, None, 8, None),
        false,
    ),
    (
        "a part of one component",
        Value::Parts(7, None, 9, Some(&[1])),
        false,
    ),
];

fn text_of(alloc: Global, text: &str) -> Option<String> {
    String::from_str(alloc, text).ok()
}

fn numbers_of(alloc: Global, numbers: &[u64]) -> Option<Vec<u64>> {
    Vec::from_slice(alloc, numbers).ok()
}

fn accepts_text(letters: Letters, text: &String) -> bool {
    match letters {
        Letters::Any => <String as Checked>::accepts(text),
        Letters::Printable => PrintableString::accepts(text),
        Letters::Ia5 => Ia5String::accepts(text),
        Letters::Numeric => NumericString::accepts(text),
        Letters::Visible => VisibleString::accepts(text),
    }
}

fn accepts_list(list: List, numbers: &Vec<u64>) -> bool {
    match list {
        List::SequenceOf => SequenceOf::<Count>::accepts(numbers),
        List::NotEmpty => Bounded::<SequenceOf<Count>, NotEmpty>::accepts(numbers),
        List::SetOf => SetOf::<Count>::accepts(numbers),
    }
}

fn accepts_parts(
    alloc: Global,
    count: u64,
    text: Option<&str>,
    default: u64,
    oid: Option<&[u64]>,
) -> Option<bool> {
    let text = match text {
        Some(text) => Some(text_of(alloc, text)?),
        None => None,
    };
    let oid = match oid {
        Some(components) => Some(ObjectIdentifier::new(numbers_of(alloc, components)?)),
        None => None,
    };
    let fields: Fields = (count, (text, (true, (default, oid))));
    Some(Parts::accepts(&fields))
}

// Whether the value can be written, if there is memory for it.
fn accepts(alloc: Global, value: Value) -> Option<bool> {
    Some(match value {
        Value::Oid(components) => {
            ObjectIdentifier::accepts(&ObjectIdentifier::new(numbers_of(alloc, components)?))
        }
        Value::Integer(octets, positive) => {
            BigInteger::accepts(&(bytes_of(alloc, octets)?, positive))
        }
        Value::Bits(octets, count) => BitString::accepts(&(bytes_of(alloc, octets)?, count)),
        Value::Text(letters, text) => accepts_text(letters, &text_of(alloc, text)?),
        Value::Count(number) => Count::accepts(&number),
        Value::FromTwo(number) => Bounded::<u64, FromTo<2, 5>>::accepts(&number),
        Value::List(list, numbers) => accepts_list(list, &numbers_of(alloc, numbers)?),
        Value::First(number) => Types::accepts(&Either::First(number)),
        Value::Second(octets) => Types::accepts(&Either::Second(bytes_of(alloc, octets)?)),
        Value::Parts(count, text, default, oid) => {
            accepts_parts(alloc, count, text, default, oid)?
        }
    })
}

fn first_failing(alloc: Global) -> Option<&'static str> {
    for (name, value, can_be_written) in &ROWS {
        if accepts(alloc, *value) != Some(*can_be_written) {
            return Some(*name);
        }
    }
    None
}

#[test]
fn values_are_tested(rt: HostRuntime) {
    finds_none(&rt, first_failing(rt.alloc()));
}
