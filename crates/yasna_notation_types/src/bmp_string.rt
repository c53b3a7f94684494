//! BMPString, as `yasna` reads it: a text in UTF-16 (X.690, 8.23.8).
ghost use Rattle.std.specs.Prelude.{◌≡◌, ◌↔◌, ◌∷◌, [], IsTrue, not, nat_eq, true};
ghost use Rattle.std.specs.List.{list_all};
ghost use Rattle.std.specs.Str.{chars};
ghost use Rattle.std.proofs.Common.{arith};
ghost use Rattle.yasna_base.specs.Coding.{Any};
ghost use Rattle.yasna_base.specs.Exact.{written_fits};
ghost use Rattle.yasna_base.specs.Identifier.{tag_or};
ghost use Rattle.yasna_base.specs.Text.{bmp_tag, bmp_encoding, bmp_depth, characters};
ghost use Rattle.yasna_base.proofs.Identifier.{not_end};
ghost use Rattle.yasna_notation.specs.Bounded.{Within};
ghost use Rattle.yasna_notation.specs.Canonical.{element_written};
ghost use Rattle.yasna_notation.specs.Laws.{element_lawful};
ghost use Rattle.yasna_notation_types.specs.Bmp.{EncodesBmp, is_known, has_known, bmp_laws, bmp_begins, bmp_under, bmp_non_empty, bmp_elements};

use yasna_base::tags::TAG_BMPSTRING;
use yasna_base::{ASN1Error, ASN1ErrorKind, ASN1Result, Tag};
use yasna_notation::{CanonicalNotation, Notation};
use yasna_notation_constraints::Checked;
use yasna_reader::BERReader;
use yasna_writer::DERWriter;

/// BMPString (X.680, 41): a text, of which each character past 65535 is two surrogates.
///
/// A text with U+FFFD is `Invalid`: `yasna` reads each surrogate without its partner as this character.
pub struct BmpString;

impl Notation for BmpString {
    type Value = String;

    type Inner = ();

    ghost means = { record {
      tags_known = true;
      tags = bmp_tag ∷ [];
      retagged = true;
      under = λ u. Within has_known (EncodesBmp (tag_or u bmp_tag));
      any_under = λ u. Any (Within has_known (EncodesBmp (tag_or u bmp_tag)));
      may_allocate = true;
      same = λ v w. characters v ≡ characters w;
      encoding_under = λ u m v. bmp_encoding (tag_or u bmp_tag) m (characters v);
      depth = λ m v. bmp_depth m (characters v);
      can = λ v. has_known v ≡ true;
      fits = written_fits (λ m v. bmp_depth m (characters v)) (λ v. has_known v ≡ true);
    } };

    #[inline(always)]
    fn has_tag(tag: Tag) -> bool {
        tag == TAG_BMPSTRING
    }

    #[inline(always)]
    fn read(reader: BERReader) -> ASN1Result<String> {
        let text = reader.read_bmp_string()?;
        if !is_known(text.as_str()) {
            return Err(ASN1Error::new(ASN1ErrorKind::Invalid));
        }
        Ok(text)
    }

    #[inline(always)]
    fn write(value: &String, writer: DERWriter<'_>) -> ASN1Result<()> {
        writer.write_bmp_string(value.as_str())
    }

    ghost lawful = { λ _. element_lawful bmp_tag bmp_laws bmp_begins bmp_elements (not_end 30 (λ e. omega arith)) (omega arith) };

    ghost non_empty = { λ u m v. bmp_non_empty (tag_or u bmp_tag) m (characters v) };
}

impl CanonicalNotation for BmpString {
    ghost written = { λ _. element_written bmp_tag bmp_under (not_end 30 (λ e. omega arith)) (omega arith) };
}

impl Checked for BmpString {
    #[inline(always)]
    fn accepts(value: &String) -> bool {
        is_known(value.as_str())
    }
}

// Whether no character of a text is U+FFFD.
fn is_known(text: &str) -> bool
    ensures { result ≡ list_all is_known (chars text.now) }
{
    text.chars().all(|character| character != '\u{FFFD}')
}
