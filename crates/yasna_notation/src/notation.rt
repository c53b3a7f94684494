//! Notations: which bytes encode which values, how they are read and written, and the laws of both.
ghost use Rattle.std.specs.Prelude.{◌≡◌, Bool, List, [], Option, None, true};
ghost use Rattle.std.specs.List.{list_any};
ghost use Rattle.yasna_base.specs.declared.mode.BERMode.{BERMode};
ghost use Rattle.yasna_base.specs.declared.tag.Tag.{Tag};
ghost use Rattle.yasna_base.specs.Beginnings.{is_tag};
ghost use Rattle.yasna_base.specs.Exact.{Fitting};
ghost use Rattle.yasna_base.specs.Grammar.{Grammar, Members, Encoding, Depth};
ghost use Rattle.yasna_writer.specs.Prepend.{Prepends, KnownLength};
ghost use Rattle.yasna_writer.specs.View.{Writes};
ghost use Rattle.yasna_notation.specs.Notation.{Meaning, MeaningKeepsLaws, IsNonEmptyEncoding, ReadsMeaning};

use yasna_base::{ASN1Result, BERMode, Tag};
use yasna_reader::BERReader;
use yasna_writer::{DERWriter, PrependBuffer};

/// A type as the notation of ASN.1 writes it (X.680).
///
/// It has no values itself: it says how those of a type of Rust are read and written. An implicit tag that waits is in place of the
/// notation's own, if it has one.
pub trait Notation {
    /// Its values in Rust.
    type Value: Drop;

    /// The types of values inside its own, which that type doesn't name: bounds name them.
    type Inner;

    // Its meaning: which bytes encode which values, and what else the laws are about.
    ghost means: { Meaning Self.Value };

    // Whether tags make unambiguous what has to be inside it.
    ghost unambiguous: { Bool } = { true };

    /// Whether this is one of the tags by which encodings begin.
    fn has_tag(tag: Tag) -> bool
        ensures { result ≡ list_any (is_tag tag) means.tags };

    /// Reads a value.
    fn read(reader: BERReader) -> ASN1Result<Self::Value>
        requires { unambiguous ≡ true }
        ensures { ReadsMeaning means reader.old result reader.new };

    /// Writes a value.
    fn write(value: &Self::Value, writer: DERWriter<'_>) -> ASN1Result<()>
        requires { means.can value.now }
        ensures { Writes (means.encoding_under writer.old.tag writer.old.mode value.now) writer.old writer.new result };

    /// Prepends a value to a buffer, in its mode: the bytes that `write` appends, if the implicit tag `under` waits.
    ///
    /// `Err` is `OutOfMemory`. A notation without a body of its own is written by `write` separately.
    fn prepend(value: &Self::Value, under: Option<Tag>, out: &mut PrependBuffer) -> ASN1Result<()>
        requires { means.can value.now }
        ensures { Prepends (means.encoding_under under out.old.mode value.now) out.old out.new result }
    {
        let mut writer = out.writer_under(under);
        let written = Self::write(value, &mut writer);
        out.prepend_written(writer, written)
    }

    /// The length of the encoding in a canonical mode, if it is known.
    ///
    /// A notation that returns `Some` has a body of its own for `prepend` too.
    fn encoded_len(value: &Self::Value, under: Option<Tag>, mode: BERMode) -> Option<usize>
        requires { means.can value.now }
        ensures { KnownLength (means.encoding_under under mode value.now) result }
    {
        let _ = value;
        let _ = under;
        let _ = mode;
        None
    }

    // The laws of reading and of a canonical mode, under the type's own tag and under others.
    ghost lawful: { unambiguous ≡ true → MeaningKeepsLaws means };

    // No encoding is empty.
    ghost non_empty: { IsNonEmptyEncoding means };
}
