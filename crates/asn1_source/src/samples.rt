//! Samples: for each type, encodings in DER of two of its values. Tests read and write them.

use crate::defaults::has_tested_default;
use crate::sample_octets::{put_element, put_number, put_primitive, put_retagged};
use crate::sets::{Listed, in_order, in_tag_order, unread};
use crate::terms::TypeNames;
use crate::text::Text;
use asn1_types::model::{
    Alternatives, Body, Components, DefaultValue, Definition, Enumeration, Integer, IntegerBounds,
    Notation, Part, Presence, Size, Tag, TagClass, TagLayer, TagMode, TextKind,
};
use std::alloc::{AllocError, Global};

/// How much of a type a sample has.
#[derive(Clone, Copy, PartialEq)]
pub enum Extent {
    /// What is always there.
    Least,
    /// Also what is OPTIONAL, and an item of each list.
    Full,
}

/// The samples of a type. A sample that can't be made is empty.
#[derive(Drop)]
pub struct Sample {
    /// That with the least.
    pub least: Vec<u8>,
    /// The full one.
    pub full: Vec<u8>,
}

impl Sample {
    /// The sample of an extent.
    pub fn of(&self, extent: Extent) -> &[u8] {
        match extent {
            Extent::Least => self.least.as_slice(),
            Extent::Full => self.full.as_slice(),
        }
    }
}

// The most octets of a sample, and the most items or characters in it.
const MOST_OCTETS: usize = 4000;

const MOST_ITEMS: u64 = 300;

// The arcs of the sample of an OBJECT IDENTIFIER.
static SAMPLE_ARCS: [u64; 3] = [1, 2, 3];

// What samples are made of: those of the definitions before.
#[derive(Clone, Copy)]
struct Sampler<'p> {
    alloc: Global,
    samples: &'p [Sample],
    names: &'p TypeNames,
    extent: Extent,
}

// A number within bounds.
fn number_in(bounds: &IntegerBounds) -> Integer {
    match (bounds.low, bounds.high) {
        (Some(low), _) => low,
        (None, Some(high)) => high,
        (None, None) => Integer {
            is_negative: false,
            magnitude: 0,
        },
    }
}

// How many items or characters a sample has, or `None` if it needs too many.
fn count_in(extent: Extent, size: &Size) -> Option<u64> {
    let least = match (extent, size.high) {
        (Extent::Least, _) | (_, Some(0)) => 0,
        (Extent::Full, _) => 1,
    };
    let count = size.low.max(least);
    if count > MOST_ITEMS {
        None
    } else {
        Some(count)
    }
}

// The number of the tag of a string of characters, and one of its characters.
fn character_of(kind: TextKind) -> (u64, &'static [u8]) {
    match kind {
        TextKind::Utf8 => (12, b"a"),
        TextKind::Numeric => (18, b"1"),
        TextKind::Printable => (19, b"a"),
        TextKind::Ia5 => (22, b"a"),
        TextKind::Visible => (26, b"a"),
        TextKind::Bmp => (30, b"\0a"),
    }
}

impl Sampler<'_> {
    // Appends a primitive element whose contents are some octets, as often as the size asks for.
    fn put_repeated(&self, number: u64, octets: &[u8], size: &Size, out: &mut Text) -> bool {
        let Some(count) = count_in(self.extent, size) else {
            return false;
        };
        let mut contents = Text::new(self.alloc);
        for _ in 0..count {
            contents.put(octets);
        }
        put_primitive(number, contents.as_slice(), out);
        true
    }

    // Appends a BIT STRING of zeros.
    fn put_bits(&self, size: &Size, out: &mut Text) -> bool {
        let Some(count) = count_in(self.extent, size) else {
            return false;
        };
        let unused = (8 - (count & 7)) & 7;
        let mut contents = Text::new(self.alloc);
        contents.put_octet((unused & 7) as u8);
        for place in 0..count {
            if place & 7 == 0 {
                contents.put_octet(0);
            }
        }
        put_primitive(3, contents.as_slice(), out);
        true
    }

    // Appends a sample of a type that is known by its index.
    fn put_defined(&self, index: usize, out: &mut Text) -> bool {
        match self.samples.get(index) {
            Some(sample) => {
                let octets = sample.of(self.extent);
                out.put(octets);
                !octets.is_empty()
            }
            None => false,
        }
    }

    // Appends a sample of a type in which no other type is, and returns whether there is one.
    fn put_simple(&self, notation: &Notation, out: &mut Text) -> bool {
        match notation {
            Notation::Boolean => put_primitive(1, &[255], out),
            Notation::Null | Notation::Any | Notation::Missing => put_primitive(5, &[], out),
            Notation::Integer(bounds, _) => put_number(2, number_in(bounds), self.alloc, out),
            Notation::ObjectIdentifier => put_primitive(6, &[42, 3], out),
            Notation::NamedBits(_, _) => put_primitive(3, &[7, 128], out),
            Notation::UtcTime => put_primitive(23, b"260101000000Z", out),
            Notation::GeneralizedTime => put_primitive(24, b"20260101000000Z", out),
            Notation::OctetsUnder(number) => put_primitive(*number, b"a", out),
            Notation::ElementsUnder(number) => put_element(universal(*number), true, &[], out),
            Notation::OctetString(size) => return self.put_repeated(4, b"a", size, out),
            Notation::BitString(size) => return self.put_bits(size, out),
            Notation::Text(kind, size) => {
                let (number, character) = character_of(*kind);
                return self.put_repeated(number, character, size, out);
            }
            Notation::Defined(index) => return self.put_defined(*index, out),
            _ => return false,
        }
        true
    }

    // Appends a list of the same element, as often as the size asks for.
    fn put_list(&self, number: u64, item: &[u8], size: &Size, out: &mut Text) -> bool {
        let Some(count) = count_in(self.extent, size) else {
            return false;
        };
        if count > 0 && item.is_empty() {
            return false;
        }
        let mut contents = Text::new(self.alloc);
        for _ in 0..count {
            contents.put(item);
        }
        put_element(universal(number), true, contents.as_slice(), out);
        true
    }

    // Appends a sample of a type around another one, of which this is a sample.
    fn put_around(&self, notation: &Notation, inner: &[u8], out: &mut Text) -> bool {
        match notation {
            Notation::SequenceOf(_, size) => self.put_list(16, inner, size, out),
            Notation::SetOf(_, size) => self.put_list(17, inner, size, out),
            Notation::Tagged(layer, _) if !inner.is_empty() => {
                put_layer(*layer, inner, out);
                true
            }
            Notation::Tagged(_, _) => false,
            _ => self.put_simple(notation, out),
        }
    }

    // A sample of a notation, or an empty text.
    fn sample(&self, notation: &Notation) -> Result<Text, AllocError> {
        let all = nested(self.alloc, notation)?;
        let mut inner = Text::new(self.alloc);
        for one in all.as_slice().iter().rev() {
            let mut outer = Text::new(self.alloc);
            if !self.put_around(*one, inner.as_slice(), &mut outer) {
                outer = Text::new(self.alloc);
            }
            inner = outer;
        }
        Ok(inner)
    }

    // The samples of parts, one after the other, or `None` if one has none.
    fn contents_of(
        &self,
        components: &Components<'_>,
        order: &[Listed],
    ) -> Result<Option<Text>, AllocError> {
        let mut contents = Text::new(self.alloc);
        for listed in order {
            let Some(part) = components.parts.get(listed.place) else {
                continue
            };
            let is_full = self.extent == Extent::Full;
            let is_there = match &part.presence {
                Presence::Required => !part.is_addition || is_full,
                Presence::Optional => is_full,
                Presence::Default(_) => is_full && has_tested_default(part),
            };
            if !is_there {
                continue;
            }
            let sample = self.sample(&part.notation)?;
            if may_be_default(part, sample.as_slice()) {
                continue;
            }
            if !sample.as_slice().is_empty() {
                contents.put(sample.as_slice());
            } else if matches!(&part.presence, Presence::Required) {
                return Ok(None);
            }
        }
        Ok(Some(contents))
    }

    // A sample of a SEQUENCE or a SET whose parts are in this order, or an empty text.
    fn constructed(
        &self,
        number: u64,
        components: &Components<'_>,
        order: &[Listed],
    ) -> Result<Text, AllocError> {
        let mut out = Text::new(self.alloc);
        if let Some(contents) = self.contents_of(components, order)? {
            put_element(universal(number), true, contents.as_slice(), &mut out);
        }
        Ok(out)
    }

    fn sequence(&self, components: &Components<'_>) -> Result<Text, AllocError> {
        let order = in_order(self.alloc, components.parts.as_slice())?;
        self.constructed(16, components, order.as_slice())
    }

    fn set(&self, body: &Body<'_>, components: &Components<'_>) -> Result<Text, AllocError> {
        let order = if unread(body, self.names).is_none() {
            in_tag_order(self.alloc, components, self.names)?
        } else {
            in_order(self.alloc, components.parts.as_slice())?
        };
        self.constructed(17, components, order.as_slice())
    }

    // A sample of a CHOICE: of the first alternative that has one, or of the last one for the full sample.
    fn chosen(&self, choice: &Alternatives<'_>) -> Result<Text, AllocError> {
        let mut found = Text::new(self.alloc);
        for alternative in choice.alternatives.iter() {
            let sample = self.sample(&alternative.notation)?;
            if sample.as_slice().is_empty() {
                continue;
            }
            found = sample;
            if self.extent == Extent::Least {
                break;
            }
        }
        Ok(found)
    }

    // A sample of an ENUMERATED: its first item.
    fn item(&self, enumeration: &Enumeration<'_>) -> Text {
        let mut out = Text::new(self.alloc);
        if let Some(item) = enumeration.items.first() {
            let number = Integer {
                is_negative: item.number < 0,
                magnitude: item.number.unsigned_abs(),
            };
            put_number(10, number, self.alloc, &mut out);
        }
        out
    }

    fn body(&self, body: &Body<'_>) -> Result<Text, AllocError> {
        match body {
            Body::Sequence(components) => self.sequence(components),
            Body::Set(components) => self.set(body, components),
            Body::Choice(choice) => self.chosen(choice),
            Body::Enumerated(enumeration) => Ok(self.item(enumeration)),
            Body::Value(notation) | Body::Alias(notation) => self.sample(notation),
        }
    }

    // The sample of a definition, or an empty one.
    fn definition(&self, definition: &Definition<'_>) -> Result<Vec<u8>, AllocError> {
        let mut inner = self.body(&definition.body)?;
        for layer in definition.tags.iter().rev() {
            let mut outer = Text::new(self.alloc);
            if !inner.as_slice().is_empty() {
                put_layer(*layer, inner.as_slice(), &mut outer);
            }
            inner = outer;
        }
        if inner.as_slice().len() > MOST_OCTETS {
            return Ok(Vec::new(self.alloc));
        }
        match inner.finish() {
            Some(octets) => Ok(octets),
            None => Err(AllocError),
        }
    }
}

// Whether the sample of a part may be its default, which DER omits.
fn may_be_default(part: &Part<'_>, sample: &[u8]) -> bool {
    let Presence::Default(value) = &part.presence else {
        return false;
    };
    match value {
        DefaultValue::ObjectIdentifier(arcs) => arcs.as_slice() == SAMPLE_ARCS.as_slice(),
        DefaultValue::Octets(octets) => sample.ends_with(octets.as_slice()),
        DefaultValue::Text(text) => sample.ends_with(*text),
        DefaultValue::Bits(octets, count) => ends_in_bits(sample, octets.as_slice(), *count),
        DefaultValue::EmptySequenceOf => is_without_contents(sample),
        DefaultValue::EmptySetOf => is_without_contents(sample),
        _ => true,
    }
}

// Whether a sample ends in a BIT STRING of so many bits in these octets, whatever its tag is.
fn ends_in_bits(sample: &[u8], octets: &[u8], count: usize) -> bool {
    let Some(before) = sample.strip_suffix(octets) else {
        return false;
    };
    let unused = (8 - (count & 7)) & 7;
    match before {
        [.., size, last] => {
            usize::from(*last) == unused && usize::from(*size) == octets.len().saturating_add(1)
        }
        _ => false,
    }
}

// Whether a sample is an element without contents, or has only such a one in it.
fn is_without_contents(sample: &[u8]) -> bool {
    let mut rest = sample;
    for _ in 0..sample.len() {
        match rest {
            [_, size, contents @ ..] if usize::from(*size) == contents.len() => rest = contents,
            _ => return rest.is_empty(),
        }
    }
    rest.is_empty()
}

// A tag of the class UNIVERSAL.
fn universal(number: u64) -> Tag {
    Tag {
        class: TagClass::Universal,
        number,
    }
}

// Appends an element under a tag.
fn put_layer(layer: TagLayer, inner: &[u8], out: &mut Text) {
    let tag = Tag {
        class: layer.class,
        number: layer.number,
    };
    match layer.mode {
        TagMode::Explicit => put_element(tag, true, inner, out),
        TagMode::Implicit => put_retagged(tag, inner, out),
    }
}

// The types in one another, the outermost first.
fn nested<'n>(alloc: Global, notation: &'n Notation) -> Result<Vec<&'n Notation>, AllocError> {
    let mut all = Vec::new(alloc);
    let mut current = notation;
    loop {
        if all.push(current).is_err() {
            return Err(AllocError);
        }
        current = match current {
            Notation::SequenceOf(inner, _) => &**inner,
            Notation::SetOf(inner, _) => &**inner,
            Notation::Tagged(_, inner) => &**inner,
            _ => return Ok(all),
        };
    }
}

// A sample of a definition after these.
fn sample_after(
    alloc: Global,
    samples: &[Sample],
    names: &TypeNames,
    definition: &Definition<'_>,
    extent: Extent,
) -> Result<Vec<u8>, AllocError> {
    let sampler = Sampler {
        alloc,
        samples,
        names,
        extent,
    };
    sampler.definition(definition)
}

/// The samples of definitions, each of which is after those that it names.
pub fn samples_of(
    alloc: Global,
    definitions: &[Definition<'_>],
    names: &TypeNames,
) -> Result<Vec<Sample>, AllocError> {
    let mut samples = Vec::new(alloc);
    for definition in definitions {
        let before = samples.as_slice();
        let least = sample_after(alloc, before, names, definition, Extent::Least)?;
        let full = sample_after(alloc, before, names, definition, Extent::Full)?;
        if samples.push(Sample { least, full }).is_err() {
            return Err(AllocError);
        }
    }
    Ok(samples)
}
