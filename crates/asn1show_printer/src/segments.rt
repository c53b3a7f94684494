//! Segments of strings: their tags, and where unused bits may be (X.690, 8.6.4, 8.7.3 and 8.23).
ghost use Rattle.std.specs.Prelude.{◌≡◌, ◌↔◌, ◌∷◌, ◌<◌, ◌≤◌, [], ℕ, List, IsTrue, MatchOption, ⊤, get_or, if◌then◌else◌, ◌==◌};
ghost use Rattle.asn1show_walk.specs.Listing.{Line};
ghost use Rattle.asn1show_walk.specs.Reading.{line_of};
ghost use Rattle.asn1show_printer.specs.Segments.{segment_tag, segments_in, segments_of, wanted_tag, HasUnusedBits, Tracks, Enters};
ghost use Rattle.asn1show_printer.specs.Types.{type_with};
ghost use Rattle.asn1show_printer.specs.declared.segments.SegmentKind.TheVariants.{Absent};

use crate::asn_type::AsnType;
use asn1show_walk::Item;
use yasna_base::tag::{PCBit, Tag};
use yasna_base::tags::{TAG_BITSTRING, TAG_OCTETSTRING};

// The segments of an element.
#[derive(Clone, Copy)]
enum SegmentKind {
    // It has none.
    Absent,
    // BIT STRINGs.
    OfBits,
    // OCTET STRINGs.
    OfOctets,
}

impl SegmentKind {
    // Their tag.
    fn tag(self) -> Option<Tag>
        ensures { result ≡ segment_tag self }
    {
        match self {
            SegmentKind::Absent => None,
            SegmentKind::OfBits => Some(TAG_BITSTRING),
            SegmentKind::OfOctets => Some(TAG_OCTETSTRING),
        }
    }
}

// The segments of a constructed element of this type.
fn segments_in(kind: AsnType) -> SegmentKind
    ensures { result ≡ segments_in kind }
{
    match kind {
        AsnType::Bits => SegmentKind::OfBits,
        AsnType::Octets | AsnType::Text(_) | AsnType::UtcTime | AsnType::GeneralizedTime =>
            SegmentKind::OfOctets,
        AsnType::Boolean
        | AsnType::Integer
        | AsnType::Null
        | AsnType::Oid
        | AsnType::Relative
        | AsnType::Real
        | AsnType::Whole(_)
        | AsnType::Set
        | AsnType::Parts
        | AsnType::Unknown => SegmentKind::Absent,
    }
}

// The segments of an element of this type.
fn segments_of(bit: PCBit, kind: AsnType) -> SegmentKind
    ensures { result ≡ segments_of bit kind }
{
    match bit {
        PCBit::Primitive => SegmentKind::Absent,
        PCBit::Constructed => segments_in(kind),
    }
}

// Whether contents begin with a count of unused bits that isn't 0.
fn begins_unused(contents: &[u8]) -> bool
    ensures { IsTrue result ↔ 1 ≤ get_or contents.now 0 0 }
{
    match contents {
        [unused, ..] => *unused != 0,
        [] => false,
    }
}

// Whether an element is a piece of a BIT STRING with unused bits.
fn has_unused_bits(item: &Item<'_>) -> bool
    ensures { IsTrue result ↔ HasUnusedBits item.now.tag item.now.bit item.now.contents.now }
{
    item.tag == TAG_BITSTRING && item.bit == PCBit::Primitive && begins_unused(item.contents)
}

// Whether a tag is the one that is wanted, if one is.
fn is_wanted(wanted: Option<Tag>, tag: Tag) -> bool
    ensures { IsTrue result ↔ MatchOption wanted ⊤ (λ t. tag ≡ t) }
{
    match wanted {
        Some(wanted) => tag == wanted,
        None => true,
    }
}

/// What an element is as a segment.
#[derive(Clone, Copy)]
pub struct SegmentPlace {
    /// Whether it has the tag of a segment, if it is one.
    pub is_expected: bool,
    /// Whether it may be here: after unused bits no segment may follow (X.690, 8.6.4).
    pub may_follow: bool,
}

/// The strings around the elements of a listing.
#[derive(Clone, Copy)]
pub struct Segments {
    // For each depth the segments of the last element there.
    around: [SegmentKind; 256],
    // Whether the last element is a segment.
    is_segment: bool,
    // Whether the last element is a segment, and it or one before it in the same string has unused bits.
    has_unused_bits: bool,
}

impl Segments {
    /// The strings around no elements.
    pub fn new() -> Segments
        ensures { Tracks result [] }
    {
        Segments {
            around: [SegmentKind::Absent; 256],
            is_segment: false,
            has_unused_bits: false,
        }
    }

    /// Whether the last element is a segment.
    pub fn is_segment(&self) -> bool
        ensures { result ≡ self.now.is_segment }
    {
        self.is_segment
    }

    // The tag that an element at a depth has, if it is a segment.
    fn wanted(&self, depth: u8) -> Option<Tag>
        ensures { (before : List Line) → Tracks self.now before → result ≡ wanted_tag depth before }
    {
        if depth == 0 {
            return None;
        }
        self.around[usize::from(depth - 1)].tag()
    }

    /// Goes on to the next element, of this type.
    pub fn enter(&mut self, item: &Item<'_>, kind: AsnType) -> SegmentPlace
        ensures { kind ≡ type_with item.now.tag → (before : List Line) → Tracks self.old before → Enters self.old self.new (line_of item.now) result before }
    {
        let wanted = self.wanted(item.depth);
        let is_segment = wanted.is_some();
        let is_after = is_segment && self.has_unused_bits;
        let has_unused = is_segment && has_unused_bits(item);
        self.around[usize::from(item.depth)] = segments_of(item.bit, kind);
        self.is_segment = is_segment;
        self.has_unused_bits = is_after || has_unused;
        SegmentPlace {
            is_expected: is_wanted(wanted, item.tag),
            may_follow: !is_after,
        }
    }
}
