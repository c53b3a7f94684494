//! The tags that a module writes (X.680, 31), as types.
ghost use Rattle.std.specs.Prelude.{◌≡◌, ◌<◌, ◌^◌};
ghost use Rattle.std.proofs.Common.{rules};
ghost use Rattle.yasna_base.specs.declared.tag.Tag.{Tag};
ghost use Rattle.yasna_base.specs.Identifier.{context, end_tag};
ghost use Rattle.yasna_base.proofs.ExplicitTags.{context_not_end};
ghost use Rattle.yasna_notation.specs.Laws.{application, application_not_end};

use yasna_base::Tag;

/// A tag that a module writes.
pub trait TagName {
    // The tag.
    ghost tag: { Tag };

    /// The tag.
    fn tag() -> Tag
        ensures { result ≡ tag };

    // Its number has at most 64 bits, and it isn't the tag of the end of contents.
    ghost in_range: { tag.tag_number < 2 ^ 64 };

    ghost not_end: { tag ≡ end_tag → ⊥ };
}

/// The tag that a module writes as `[N]`.
pub struct Context<const N: u64>;

impl<const N: u64> TagName for Context<N> {
    ghost tag = { context N };

    #[inline(always)]
    fn tag() -> Tag {
        Tag::context(N)
    }

    ghost in_range = { Prim.search rules };

    ghost not_end = { context_not_end N };
}

/// The tag that a module writes as `[APPLICATION N]`.
pub struct Application<const N: u64>;

impl<const N: u64> TagName for Application<N> {
    ghost tag = { application N };

    #[inline(always)]
    fn tag() -> Tag {
        Tag::application(N)
    }

    ghost in_range = { Prim.search rules };

    ghost not_end = { application_not_end N };
}
