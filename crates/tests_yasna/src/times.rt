//! Both times: what no contract says of their texts, orders, hashes and copies.

use crate::checks::{holds, is_same};
use examples_proved::{
    as_generalized_time, remade_utc_time, with_tenths_of_a_picosecond, without_leap_second,
};
use std::alloc::Global;
use std::cmp::Ordering;
use yasna::models::{DateTime, GeneralizedTime, Offset, UTCTime};
use yasna::{ASN1Error, ASN1ErrorKind, ASN1Result};

const EVENING: &str = "19851106210627.3Z";

const DIGITS: &str = "19851106210627.300000000001Z";

const SIXTY: &str = "19981231235960.1Z";

fn general(alloc: Global, text: &str) -> ASN1Result<GeneralizedTime> {
    GeneralizedTime::parse(alloc, text.as_bytes())?.ok_or(ASN1Error::new(ASN1ErrorKind::Invalid))
}

fn noon() -> ASN1Result<UTCTime> {
    UTCTime::parse(b"8201020700-0500").ok_or(ASN1Error::new(ASN1ErrorKind::Invalid))
}

// Whether the time is shown as the text.
fn is_shown_as(alloc: Global, time: &GeneralizedTime, text: &str) -> ASN1Result<bool> {
    let shown = time.to_string(alloc)?;
    let bytes = time.to_bytes(alloc)?;
    Ok(shown.as_str() == text && bytes.as_slice() == text.as_bytes())
}

// Whether these digits after the nanosecond of the evening leave these, and the time is shown as the text; or no time is made of
// them, where that is empty.
fn is_of_digits(alloc: Global, digits: &[u8], left: &[u8], text: &str) -> ASN1Result<bool> {
    let local = *general(alloc, EVENING)?.datetime();
    match GeneralizedTime::from_datetime_and_sub_nano_opt(alloc, local, Offset::UTC, digits)? {
        Some(made) => Ok(made.sub_nano() == left && is_shown_as(alloc, &made, text)?),
        None => Ok(text.is_empty()),
    }
}

fn is_copied(alloc: Global, text: &str) -> ASN1Result<bool> {
    let made = general(alloc, text)?;
    let copy = made.clone()?;
    Ok(is_same(&made, &copy) && is_shown_as(alloc, &copy, text)?)
}

// Whether the evening with ten tenths of a picosecond after the nanosecond is shown as the text.
fn is_counted_finer(alloc: Global, text: &str) -> ASN1Result<bool> {
    let made = with_tenths_of_a_picosecond(alloc, &general(alloc, EVENING)?, 10)?;
    is_shown_as(alloc, &made, text)
}

// Names, two times, and how the first is to the second. One is later by a picosecond. Second 60 shows as 59, so 60.1 comes before
// 59.5, but after 59.1.
static ORDERS: [(&str, &str, &str, Ordering); 3] = [
    ("a picosecond is later", EVENING, DIGITS, Ordering::Less),
    (
        "60.1 is before 59.5",
        SIXTY,
        "19981231235959.5Z",
        Ordering::Less,
    ),
    (
        "60.1 is behind 59.1",
        SIXTY,
        "19981231235959.1Z",
        Ordering::Greater,
    ),
];

fn is_ordered(alloc: Global, one: &str, other: &str, order: Ordering) -> ASN1Result<bool> {
    let one = general(alloc, one)?;
    Ok(one.cmp(&general(alloc, other)?) == order)
}

fn has_second(alloc: Global, text: &str, second: i8) -> ASN1Result<bool> {
    Ok(general(alloc, text)?.datetime().second() == second)
}

// Ten tenths are shown as the digits 0010: twelve digits of a second, of which the last three are after the nanosecond.
#[test]
fn digits_after_the_nanosecond_are_sticky(rt: HostRuntime) {
    let alloc = rt.alloc();
    let tenths = is_of_digits(alloc, b"0010", b"001", DIGITS);
    holds(&rt, "ten tenths of a picosecond", tenths);
    let letter = is_of_digits(alloc, b"0a", b"", "");
    holds(&rt, "a letter is no digit", letter);
    holds(&rt, "a time is its copy", is_copied(alloc, DIGITS));
    holds(
        &rt,
        "ten tenths are counted",
        is_counted_finer(alloc, DIGITS),
    );
    holds(&rt, "second 60 shows as 59", has_second(alloc, SIXTY, 59));
    for row in &ORDERS {
        holds(&rt, row.0, is_ordered(alloc, row.1, row.2, row.3));
    }
}

// A name, a date, a time, a nanosecond, the seconds that they are ahead of UTC, and how the time is shown, or nothing where there is
// none: half an hour before the year 10000, an hour after UTC, is past the last year.
static MADE: [(&str, (i16, i8, i8), (i8, i8, i8), i32, i32, &str); 5] = [
    (
        "the evening",
        (1985, 11, 6),
        (21, 6, 27),
        300_000_000,
        0,
        EVENING,
    ),
    (
        "noon in a zone an hour ahead",
        (1982, 1, 2),
        (12, 0, 0),
        0,
        3600,
        "19820102110000Z",
    ),
    (
        "the year 10000 is none",
        (9999, 12, 31),
        (23, 30, 0),
        0,
        -3600,
        "",
    ),
    (
        "the year 0 is one",
        (0, 1, 1),
        (0, 0, 0),
        0,
        0,
        "00000101000000Z",
    ),
    (
        "a time before the year 0 is none",
        (0, 1, 1),
        (0, 0, 0),
        0,
        1,
        "",
    ),
];

// The date and time, of which no test asks for one that is none.
fn date_time(date: (i16, i8, i8), time: (i8, i8, i8), nanosecond: i32) -> ASN1Result<DateTime> {
    let (year, month, day) = date;
    let (hour, minute, second) = time;
    match DateTime::new(year, month, day, hour, minute, second, nanosecond) {
        Ok(local) => Ok(local),
        Err(_) => Err(ASN1Error::new(ASN1ErrorKind::Invalid)),
    }
}

fn offset(ahead: i32) -> ASN1Result<Offset> {
    match Offset::from_seconds(ahead) {
        Ok(offset) => Ok(offset),
        Err(_) => Err(ASN1Error::new(ASN1ErrorKind::Invalid)),
    }
}

fn is_made(alloc: Global, local: ASN1Result<DateTime>, ahead: i32, text: &str) -> ASN1Result<bool> {
    match GeneralizedTime::from_datetime_opt(alloc, local?, offset(ahead)?) {
        Some(made) if !text.is_empty() => {
            Ok(is_same(&made, &general(alloc, text)?) && is_shown_as(alloc, &made, text)?)
        }
        Some(_) => Ok(false),
        None => Ok(text.is_empty()),
    }
}

// Whether noon's date and time, so many seconds ahead of UTC, is a time that is so to noon, and is shown as the text.
fn is_noon_at(alloc: Global, ahead: i32, order: Ordering, text: &str) -> ASN1Result<bool> {
    let noon = noon()?;
    match UTCTime::from_datetime_opt(*noon.datetime(), offset(ahead)?) {
        Some(made) => {
            let shown = made.to_string(alloc)?;
            let bytes = made.to_bytes(alloc)?;
            Ok(
                made.cmp(&noon) == order
                    && is_same(&made, &noon) == (order == Ordering::Equal)
                    && shown.as_str() == text
                    && bytes.as_slice() == text.as_bytes(),
            )
        }
        None => Ok(false),
    }
}

// Whether the time without its second 60 is the other, and is shown as it.
fn is_without_second_60(alloc: Global, time: &str, other: &str) -> ASN1Result<bool> {
    let made = without_leap_second(alloc, &general(alloc, time)?)?;
    Ok(is_same(&made, &general(alloc, other)?) && is_shown_as(alloc, &made, other)?)
}

// Whether a UTCTime without seconds is noon.
fn is_noon_without_seconds() -> ASN1Result<bool> {
    let local = date_time((1982, 1, 2), (12, 0, 0), 0)?;
    match UTCTime::parse(b"8201021200Z") {
        Some(time) => Ok(*time.datetime() == local),
        None => Ok(false),
    }
}

// A time that is made of the parts of another says the same, but for a second 60.
#[test]
fn times_are_made_of_parts(rt: HostRuntime) {
    let alloc = rt.alloc();
    for row in &MADE {
        let local = date_time(row.1, row.2, row.3);
        holds(&rt, row.0, is_made(alloc, local, row.4, row.5));
    }
    let same = is_noon_at(alloc, 0, Ordering::Equal, "820102120000Z");
    holds(&rt, "noon is made of its parts", same);
    let earlier = is_noon_at(alloc, 3600, Ordering::Less, "820102110000Z");
    holds(&rt, "noon an hour ahead is earlier", earlier);
    holds(&rt, "noon without seconds", is_noon_without_seconds());
    let certain = is_without_second_60(alloc, DIGITS, DIGITS);
    holds(&rt, "a time without second 60 is the same", certain);
    let later = "19981231235959.1234567891Z";
    let other = is_without_second_60(alloc, "19981231235960.1234567891Z", later);
    holds(&rt, "second 60 becomes 59", other);
}

// What noon is as: its copy, what it is remade as, or a time of the other type.
#[derive(Clone, Copy)]
enum Again {
    Copied,
    Remade,
    Generalized,
}

static NOONS: [(&str, Again); 3] = [
    ("noon is its copy", Again::Copied),
    ("noon is remade", Again::Remade),
    ("noon is shown as a GeneralizedTime", Again::Generalized),
];

fn is_noon(alloc: Global, again: Again) -> ASN1Result<bool> {
    let noon = noon()?;
    match again {
        Again::Copied => Ok(is_same(&noon.clone()?, &noon)),
        Again::Remade => Ok(remade_utc_time(&noon) == noon),
        Again::Generalized => {
            let time = as_generalized_time(alloc, &noon);
            is_shown_as(alloc, &time, "19820102120000Z")
        }
    }
}

#[test]
fn noon_is_the_same_again(rt: HostRuntime) {
    for row in &NOONS {
        holds(&rt, row.0, is_noon(rt.alloc(), row.1));
    }
}
