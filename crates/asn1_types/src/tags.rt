//! Tags as X.680 resolves them (24.7 to 24.9, 28.2 to 28.5, and 30).
ghost use Rattle.std.specs.Prelude.{◌≡◌, ◌↔◌, ◌≤◌, IsTrue, count_by, length, not};
ghost use Rattle.asn1_types.specs.declared.model.TagClass.TheVariants.{ContextSpecific};
ghost use Rattle.asn1_types.specs.declared.model.TagMode.TheVariants.{Explicit};
ghost use Rattle.asn1_types.specs.Tags.{IsExplicitOrEmpty, SpecifiesExplicit, IsTaggedAutomatically, automatic_number};

use crate::model::{Tag, TagClass, TagLayer, TagMode};
use asn1_syntax::tree::TagDefault;

// Whether a tag without a word after it is EXPLICIT in a module with these tags (X.680, 30.6 b).
fn is_explicit_default(environment: TagDefault) -> bool
    ensures { IsTrue result ↔ IsExplicitOrEmpty environment }
{
    match environment {
        TagDefault::Explicit | TagDefault::Omitted => true,
        TagDefault::Implicit | TagDefault::Automatic => false,
    }
}

/// The mode of a tag (X.680, 30.6 and 30.7), of the module's tags, the word that is written, and whether the type under the tag is an untagged
/// CHOICE or an untagged open type.
///
/// IMPLICIT of such a type, which 30.8 forbids, is EXPLICIT.
pub fn tag_mode(environment: TagDefault, written: Option<TagMode>, is_untagged: bool) -> TagMode
    ensures { (result ≡ Explicit) ↔ SpecifiesExplicit environment written is_untagged }
{
    if is_untagged {
        return TagMode::Explicit;
    }
    match written {
        Some(mode) => mode,
        None => {
            if is_explicit_default(environment) {
                TagMode::Explicit
            } else {
                TagMode::Implicit
            }
        }
    }
}

/// Whether the parts of a SEQUENCE, SET or CHOICE are tagged automatically (X.680, 24.2 and 24.3, and 28.2 and 28.3): of the module's tags, and
/// whether each part that is written in the braces is written with a tag.
pub fn is_tagged_automatically(environment: TagDefault, has_tag: &[bool]) -> bool
    ensures { IsTrue result ↔ IsTaggedAutomatically environment has_tag.now }
{
    matches!(environment, TagDefault::Automatic) && !has_tag.contains(&true)
}

// How many parts are additions.
fn count_additions(is_addition: &[bool]) -> usize
    ensures count { result ≡ count_by (λ b. b) is_addition.now }
    ensures bound { result ≤ length is_addition.now }
{
    is_addition.iter().filter(|b| **b).count()
}

// How many parts are no additions.
fn count_roots(is_addition: &[bool]) -> usize
    ensures count { result ≡ count_by not is_addition.now }
    ensures bound { result ≤ length is_addition.now }
{
    is_addition.iter().filter(|b| !**b).count()
}

/// The number of the automatic tag of a part (X.680, 24.7 and 24.8), of which parts are additions: those before it, all of them, and itself.
/// Those of the root are numbered from zero, then the additions, each in its order.
pub fn automatic_number(before: &[bool], all: &[bool], is_addition: bool) -> usize
    ensures { result ≡ automatic_number before.now all.now is_addition }
{
    if is_addition {
        count_roots(all) + count_additions(before)
    } else {
        count_roots(before)
    }
}

/// The layer of a tag.
pub fn tag_layer(
    environment: TagDefault,
    tag: Tag,
    written: Option<TagMode>,
    is_untagged: bool,
) -> TagLayer
    ensures mode { (result.mode ≡ Explicit) ↔ SpecifiesExplicit environment written is_untagged }
    ensures class { result.class ≡ tag.class }
    ensures number { result.number ≡ tag.number }
{
    TagLayer {
        class: tag.class,
        number: tag.number,
        mode: tag_mode(environment, written, is_untagged),
    }
}

/// The layer of the automatic tag of a part (X.680, 24.9): context-specific, and IMPLICIT unless the part is untagged.
pub fn automatic_layer(number: u64, is_untagged: bool) -> TagLayer
    ensures mode { (result.mode ≡ Explicit) ↔ IsTrue is_untagged }
    ensures class { result.class ≡ ContextSpecific }
    ensures number { result.number ≡ number }
{
    TagLayer {
        class: TagClass::ContextSpecific,
        number,
        mode: tag_mode(TagDefault::Automatic, None, is_untagged),
    }
}
