//! Ambiguities: where the DER encoding depends on a schema.
ghost use Rattle.std.specs.Prelude.{◌≡◌, ◌↔◌, IsTrue, List, None};
ghost use Rattle.asn1der_convert.specs.Ambiguity.{MayBeSegments, IsCertain, Notes, first_place};
ghost use Rattle.asn1der_convert.specs.declared.ambiguity.Ambiguity.{Ambiguity};
ghost use Rattle.yasna_base.specs.Set.{SetPart};
ghost use Rattle.asn1der_convert.specs.Rows.{AreElements};

use crate::elements::all_have_tag;
use crate::set_order::{SetOrder, are_in_order, ascend_by_tags};
use std::fmt;
use yasna_base::tag::{Tag, TagClass};
use yasna_base::tags::{TAG_BITSTRING, TAG_OCTETSTRING, TAG_SET};

/// A kind of ambiguity, which a schema would decide.
#[derive(Clone, Copy, PartialEq, Eq, Debug)]
pub enum Ambiguity {
    /// A constructed element whose tag isn't universal may be a string, if its elements are OCTET STRINGs or BIT STRINGs (X.690, 8.14.3
    /// and 10.2).
    Segments,
    /// A constructed element whose tag isn't universal may be a SET OF, if its elements are out of order (X.690, 8.14.3 and 11.6).
    ImplicitSetOf,
    /// A SET is ordered by tags, none of which is twice, but a SET OF by octets: the elements are in neither order, and the two differ
    /// (X.690, 10.3 and 11.6; X.680, 27.3).
    Order,
}

impl fmt::Display for Ambiguity {
    fn fmt<W: fmt::Write>(&self, f: &mut fmt::Formatter<W>) -> fmt::Result {
        match self {
            Ambiguity::Segments => f.write_str("it may be a string in segments"),
            Ambiguity::ImplicitSetOf => f.write_str("it may be a SET OF that is out of order"),
            Ambiguity::Order => {
                f.write_str("it is out of order as a SET and as a SET OF, and these orders differ")
            }
        }
    }
}

// Whether these may be the segments of a string (X.690, 8.6.4 and 8.7.3).
fn are_segments(elements: &[u8]) -> bool
    ensures { (ps : List SetPart) → AreElements ps elements.now → IsTrue result ↔ MayBeSegments ps }
{
    all_have_tag(elements, TAG_OCTETSTRING) || all_have_tag(elements, TAG_BITSTRING)
}

// Whether the constructed element with this tag around these has no such ambiguity.
fn is_certain(ambiguity: Ambiguity, tag: Tag, elements: &[u8]) -> bool
    ensures { (ps : List SetPart) → AreElements ps elements.now → IsTrue result ↔ IsCertain ambiguity tag ps }
{
    match ambiguity {
        Ambiguity::Segments => tag.tag_class == TagClass::Universal || !are_segments(elements),
        Ambiguity::ImplicitSetOf => {
            tag.tag_class == TagClass::Universal || are_in_order(SetOrder::Octets, elements)
        }
        Ambiguity::Order => {
            tag != TAG_SET || are_in_order(SetOrder::Octets, elements) || ascend_by_tags(elements)
        }
    }
}

// The first place after one more element: elements within another are met before it ends.
fn noted(known: Option<usize>, offset: usize, is_certain: bool) -> Option<usize>
    ensures { Notes known result offset (IsTrue is_certain) }
{
    if is_certain {
        return known;
    }
    match known {
        Some(place) if place < offset => known,
        _ => Some(offset),
    }
}

/// The offset of the first ambiguity of each kind.
#[derive(Clone, Copy, PartialEq, Eq, Debug)]
pub struct Ambiguities {
    segments: Option<usize>,
    implicit_set_of: Option<usize>,
    order: Option<usize>,
}

impl Ambiguities {
    /// No ambiguity.
    pub fn none() -> Ambiguities
        ensures { (a : Ambiguity) → first_place a result ≡ None }
    {
        Ambiguities {
            segments: None,
            implicit_set_of: None,
            order: None,
        }
    }

    /// The offset of the first ambiguity of this kind.
    pub fn first(&self, ambiguity: Ambiguity) -> Option<usize>
        ensures { result ≡ first_place ambiguity self.now }
    {
        match ambiguity {
            Ambiguity::Segments => self.segments,
            Ambiguity::ImplicitSetOf => self.implicit_set_of,
            Ambiguity::Order => self.order,
        }
    }

    /// Whether there is an ambiguity.
    pub fn are_any(&self) -> bool
        ensures { IsTrue result ↔ ((self.now.segments ≡ None) × (self.now.implicit_set_of ≡ None) × (self.now.order ≡ None) → ⊥) }
    {
        self.segments.is_some() || self.implicit_set_of.is_some() || self.order.is_some()
    }

    /// Notes the ambiguities of the constructed element that begins here, has this tag and is around these.
    pub fn note(&mut self, offset: usize, tag: Tag, elements: &[u8])
        ensures { (ps : List SetPart) → AreElements ps elements.now → (a : Ambiguity) → Notes (first_place a self.old) (first_place a self.new) offset (IsCertain a tag ps) }
    {
        let segments = is_certain(Ambiguity::Segments, tag, elements);
        let implicit = is_certain(Ambiguity::ImplicitSetOf, tag, elements);
        let order = is_certain(Ambiguity::Order, tag, elements);
        self.segments = noted(self.segments, offset, segments);
        self.implicit_set_of = noted(self.implicit_set_of, offset, implicit);
        self.order = noted(self.order, offset, order);
    }
}
