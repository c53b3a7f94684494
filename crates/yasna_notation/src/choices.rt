//! CHOICE (X.690, 8.13): the next tag determines which of the types is there.
ghost use Rattle.std.specs.Prelude.{◌≡◌, ◌++◌, ◌||◌, ◌&&◌, [], Bool, List, Option, None, true, false};
ghost use Rattle.std.specs.List.{list_any};
ghost use Rattle.yasna_base.specs.declared.mode.BERMode.{BERMode};
ghost use Rattle.yasna_base.specs.declared.tag.Tag.{Tag};
ghost use Rattle.yasna_base.specs.Beginnings.{is_tag, share_none};
ghost use Rattle.yasna_base.specs.Choice.{EitherOf, AnyEither, SameEither, either_encoding, either_depth, either_can, either_fits};
ghost use Rattle.yasna_base.specs.Exact.{Fitting};
ghost use Rattle.yasna_base.specs.Grammar.{Grammar, Members, Encoding, Depth};
ghost use Rattle.yasna_writer.specs.Prepend.{Prepends, KnownLength};
ghost use Rattle.yasna_writer.specs.View.{Writes};
ghost use Rattle.yasna_notation.specs.Notation.{IsNotation};
ghost use Rattle.yasna_notation.specs.Choices.{ReadsFound, sides, last_laws, either_laws, either_non_empty};
ghost use Rattle.yasna_notation.specs.Laws.{never_retagged};

use crate::notation::Notation;
use std::marker::PhantomData;
use yasna_base::{ASN1Result, BERMode, Tag};
use yasna_reader::BERReader;
use yasna_writer::{DERWriter, PrependBuffer};

/// A value of the first of two types, or of the second.
#[derive(Drop)]
pub enum Either<A, B> {
    /// A value of the first type.
    First(A),
    /// A value of the second type.
    Second(B),
}

/// The types of a CHOICE, as pairs that end in a tuple of one type: `(i64, (bool, ((),)))` of an INTEGER, a BOOLEAN and a NULL.
pub trait Alternatives {
    /// Its values in Rust.
    type Value;

    /// The types of values inside its own, which that type doesn't name: bounds name them.
    type Inner;

    // The tags that encodings begin with.
    ghost tags: { List Tag };

    // Whether tags distinguish the types, and what has to be unambiguous inside them.
    ghost unambiguous: { Bool };

    // Which bytes encode a value, in a mode within a number of levels.
    ghost encodes: { Grammar Self.Value };

    // Which bytes encode some value.
    ghost elements: { Members };

    // Whether reading a value may allocate.
    ghost may_allocate: { Bool };

    // Which values are equal.
    ghost same: { Self.Value → Self.Value → Type 0 };

    // The encoding of a value in a canonical mode, where this tag is in place of the next.
    ghost encoding_under: { Option Tag → Encoding Self.Value };

    ghost depth: { Depth Self.Value };

    ghost can: { Self.Value → Type 0 };

    ghost fits: { Fitting Self.Value };

    /// Whether this is one of the tags by which encodings begin.
    fn has_tag(tag: Tag) -> bool
        ensures { result ≡ list_any (is_tag tag) tags };

    /// Reads a value that begins with this tag.
    fn read_found(tag: Tag, reader: BERReader) -> ASN1Result<Self::Value>
        requires { unambiguous ≡ true }
        ensures { ReadsFound tags may_allocate encodes elements tag reader.old result reader.new };

    /// Writes a value.
    fn write(value: &Self::Value, writer: DERWriter<'_>) -> ASN1Result<()>
        requires { can value.now }
        ensures { Writes (encoding_under writer.old.tag writer.old.mode value.now) writer.old writer.new result };

    /// Prepends a value to a buffer, as `Notation::prepend`.
    fn prepend(value: &Self::Value, under: Option<Tag>, out: &mut PrependBuffer) -> ASN1Result<()>
        requires { can value.now }
        ensures { Prepends (encoding_under under out.old.mode value.now) out.old out.new result }
    {
        let mut writer = out.writer_under(under);
        let written = Self::write(value, &mut writer);
        out.prepend_written(writer, written)
    }

    /// The length of the encoding, if it is known, as `Notation::encoded_len`.
    fn encoded_len(value: &Self::Value, under: Option<Tag>, mode: BERMode) -> Option<usize>
        requires { can value.now }
        ensures { KnownLength (encoding_under under mode value.now) result }
    {
        let _ = value;
        let _ = under;
        let _ = mode;
        None
    }

    // The laws of reading and of a canonical mode.
    ghost laws: { unambiguous ≡ true → IsNotation true tags same encodes elements (encoding_under None) fits can };

    // No encoding is empty.
    ghost non_empty: { (u : Option Tag) (m : BERMode) (v : Self.Value) → encoding_under u m v ≡ [] → ⊥ };
}

impl<A: Notation> Alternatives for (A,) {
    type Value = A::Value;

    type Inner = A::Inner;

    ghost tags = { A.means.tags };

    ghost unambiguous = { (A.means.tags_known && A.unambiguous) };

    ghost encodes = { A.means.under None };

    ghost elements = { A.means.any_under None };

    ghost may_allocate = { A.means.may_allocate };

    ghost same = { A.means.same };

    ghost encoding_under = { A.means.encoding_under };

    ghost depth = { A.means.depth };

    ghost can = { A.means.can };

    ghost fits = { A.means.fits };

    #[inline(always)]
    fn has_tag(tag: Tag) -> bool {
        A::has_tag(tag)
    }

    #[inline(always)]
    fn read_found(_tag: Tag, reader: BERReader) -> ASN1Result<A::Value> {
        A::read(reader)
    }

    #[inline(always)]
    fn write(value: &A::Value, writer: DERWriter<'_>) -> ASN1Result<()> {
        A::write(value, writer)
    }

    #[inline(always)]
    fn prepend(value: &A::Value, under: Option<Tag>, out: &mut PrependBuffer) -> ASN1Result<()> {
        A::prepend(value, under, out)
    }

    #[inline(always)]
    fn encoded_len(value: &A::Value, under: Option<Tag>, mode: BERMode) -> Option<usize> {
        A::encoded_len(value, under, mode)
    }

    ghost laws = { λ a. last_laws (λ b. (A.lawful b).own) a };

    ghost non_empty = { A.non_empty };
}

impl<A: Notation, W: Alternatives> Alternatives for (A, W) {
    type Value = Either<A::Value, W::Value>;

    type Inner = (A::Inner, W::Inner);

    ghost tags = { A.means.tags ++ W.tags };

    ghost unambiguous = { (A.means.tags_known && (share_none A.means.tags W.tags && (A.unambiguous && W.unambiguous))) };

    ghost encodes = { λ m n v b. EitherOf (A.means.under None) W.encodes m n (sides v) b };

    ghost elements = { AnyEither (A.means.any_under None) W.elements };

    ghost may_allocate = { (A.means.may_allocate || W.may_allocate) };

    ghost same = { λ v w. SameEither A.means.same W.same (sides v) (sides w) };

    ghost encoding_under = { λ u m v. either_encoding (A.means.encoding_under u) (W.encoding_under u) m (sides v) };

    ghost depth = { λ m v. either_depth A.means.depth W.depth m (sides v) };

    ghost can = { λ v. either_can A.means.can W.can (sides v) };

    ghost fits = { λ m n v. either_fits A.means.fits W.fits m n (sides v) };

    #[inline(always)]
    fn has_tag(tag: Tag) -> bool {
        A::has_tag(tag) || W::has_tag(tag)
    }

    #[inline(always)]
    fn read_found(tag: Tag, reader: BERReader) -> ASN1Result<Either<A::Value, W::Value>> {
        if A::has_tag(tag) {
            let value = A::read(reader)?;
            return Ok(Either::First(value));
        }
        let other = W::read_found(tag, reader)?;
        Ok(Either::Second(other))
    }

    #[inline(always)]
    fn write(value: &Either<A::Value, W::Value>, writer: DERWriter<'_>) -> ASN1Result<()> {
        match value {
            Either::First(first) => A::write(first, writer),
            Either::Second(second) => W::write(second, writer),
        }
    }

    #[inline(always)]
    fn prepend(
        value: &Either<A::Value, W::Value>,
        under: Option<Tag>,
        out: &mut PrependBuffer,
    ) -> ASN1Result<()> {
        match value {
            Either::First(first) => A::prepend(first, under, out),
            Either::Second(second) => W::prepend(second, under, out),
        }
    }

    #[inline(always)]
    fn encoded_len(
        value: &Either<A::Value, W::Value>,
        under: Option<Tag>,
        mode: BERMode,
    ) -> Option<usize> {
        match value {
            Either::First(first) => A::encoded_len(first, under, mode),
            Either::Second(second) => W::encoded_len(second, under, mode),
        }
    }

    ghost laws = { λ a. either_laws (λ b. (A.lawful b).own) W.laws a };

    ghost non_empty = { λ u m v. either_non_empty (A.means.encoding_under u) (W.encoding_under u) m (A.non_empty u m) (W.non_empty u m) v };
}

/// `CHOICE { A }`, as `Choice<(i64, (bool, ((),)))>`. No other tag is in place of its own.
pub struct Choice<A> {
    of: PhantomData<A>,
}

impl<A: Alternatives> Notation for Choice<A>
where
    A::Value: Drop,
{
    type Value = A::Value;

    type Inner = A::Inner;

    ghost means = { record {
      tags_known = true;
      tags = A.tags;
      retagged = false;
      under = λ u. A.encodes;
      any_under = λ u. A.elements;
      may_allocate = A.may_allocate;
      same = A.same;
      encoding_under = A.encoding_under;
      depth = A.depth;
      can = A.can;
      fits = A.fits;
    } };

    ghost unambiguous = { A.unambiguous };

    #[inline(always)]
    fn has_tag(tag: Tag) -> bool {
        A::has_tag(tag)
    }

    #[inline(always)]
    fn read(reader: BERReader) -> ASN1Result<A::Value> {
        let tag = reader.lookahead_tag()?;
        A::read_found(tag, reader)
    }

    #[inline(always)]
    fn write(value: &A::Value, writer: DERWriter<'_>) -> ASN1Result<()> {
        A::write(value, writer)
    }

    #[inline(always)]
    fn prepend(value: &A::Value, under: Option<Tag>, out: &mut PrependBuffer) -> ASN1Result<()> {
        A::prepend(value, under, out)
    }

    #[inline(always)]
    fn encoded_len(value: &A::Value, under: Option<Tag>, mode: BERMode) -> Option<usize> {
        A::encoded_len(value, under, mode)
    }

    ghost lawful = { λ a. record { own = A.laws a; others = λ e. never_retagged e } };

    ghost non_empty = { A.non_empty };
}
