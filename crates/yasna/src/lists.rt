//! Lists: a SEQUENCE OF their items (X.690, 8.10).
//!
//! `Vec<u8>` is an OCTET STRING: `u8` itself doesn't have the traits.
ghost use Rattle.std.specs.Prelude.{◌≡◌, None, true};
ghost use Rattle.std.specs.List.{AllByRecursion};
ghost use Rattle.yasna_base.specs.Canonical.{enclosed_encoding, enclosed_depth};
ghost use Rattle.yasna_base.specs.Pieces.{Each};
ghost use Rattle.yasna_base.specs.Sequence.{sequence_tag};
ghost use Rattle.yasna_base.specs.SequenceOf.{IsListOf, AnyListOf, elements_encoding, elements_depth};
ghost use Rattle.yasna_base.proofs.SequenceOf.{list_along, list_written};
ghost use Rattle.yasna_writer.specs.Prepend.{Prepends, KnownLength};
ghost use Rattle.yasna_writer.specs.View.{Writes, WroteParts};

use crate::traits::{BERDecodable, DERCanonical, DEREncodable};
use yasna_base::error::ASN1Result;
use yasna_base::mode::BERMode;
use yasna_base::tags::TAG_SEQUENCE;
use yasna_reader::BERReader;
use yasna_writer::{DERWriter, DERWriterSeq, PrependBuffer, constructed_len};

impl<T: BERDecodable> BERDecodable for Vec<T> {
    ghost encodes = { λ m n v b. IsListOf T.encodes sequence_tag m n v.items b };

    ghost elements = { AnyListOf T.elements sequence_tag };

    ghost may_allocate = { true };

    ghost same = { λ v w. Each T.same v.items w.items };

    fn decode_ber(reader: BERReader) -> ASN1Result<Vec<T>> {
        reader.collect_sequence_of(|item| T::decode_ber(item))
    }

    ghost coding = { list_along (λ v. v.items) T.coding };
}

impl<T: DEREncodable> DEREncodable for Vec<T> {
    ghost encoding = { λ m v. enclosed_encoding (elements_encoding T.encoding) sequence_tag m v.items };

    ghost depth = { λ m v. enclosed_depth (elements_depth T.depth) m v.items };

    ghost encodable = { λ v. AllByRecursion T.encodable v.items };

    fn encode_der(&self, writer: DERWriter<'_>) -> ASN1Result<()> {
        write_list(self.as_slice(), writer)
    }

    fn prepend_der(&self, out: &mut PrependBuffer) -> ASN1Result<()> {
        prepend_list(self.as_slice(), out)
    }

    #[inline(always)]
    fn encoded_len(&self, mode: BERMode) -> Option<usize> {
        list_len(self.as_slice(), mode)
    }
}

impl<T: DERCanonical> DERCanonical for Vec<T> {
    ghost written = { list_written (λ v. v.items) T.written };
}

impl<'a, T: DEREncodable> DEREncodable for &'a [T] {
    ghost encoding = { λ m v. enclosed_encoding (elements_encoding T.encoding) sequence_tag m v.now };

    ghost depth = { λ m v. enclosed_depth (elements_depth T.depth) m v.now };

    ghost encodable = { λ v. AllByRecursion T.encodable v.now };

    fn encode_der(&self, writer: DERWriter<'_>) -> ASN1Result<()> {
        write_list(*self, writer)
    }

    fn prepend_der(&self, out: &mut PrependBuffer) -> ASN1Result<()> {
        prepend_list(*self, out)
    }

    #[inline(always)]
    fn encoded_len(&self, mode: BERMode) -> Option<usize> {
        list_len(*self, mode)
    }
}

// Writes a SEQUENCE OF these items.
fn write_list<T: DEREncodable>(items: &[T], writer: DERWriter<'_>) -> ASN1Result<()>
    requires can { AllByRecursion T.encodable items.now }
    requires untagged { writer.old.tag ≡ None }
    ensures { Writes (enclosed_encoding (elements_encoding T.encoding) sequence_tag writer.old.mode items.now) writer.old writer.new result }
{
    writer.write_sequence_of(|seq| write_items(items, seq))
}

// Prepends a SEQUENCE OF these items.
fn prepend_list<T: DEREncodable>(items: &[T], out: &mut PrependBuffer) -> ASN1Result<()>
    requires { AllByRecursion T.encodable items.now }
    ensures { Prepends (enclosed_encoding (elements_encoding T.encoding) sequence_tag out.old.mode items.now) out.old out.new result }
{
    let after = out.begin_contents()?;
    prepend_items(items, out)?;
    out.enclose(TAG_SEQUENCE, after)
}

// The length of that.
fn list_len<T: DEREncodable>(items: &[T], mode: BERMode) -> Option<usize>
    requires { AllByRecursion T.encodable items.now }
    ensures { KnownLength (enclosed_encoding (elements_encoding T.encoding) sequence_tag mode items.now) result }
{
    constructed_len(mode, TAG_SEQUENCE, items_len(items, mode)?)
}

// Prepends items, from the last to the first.
fn prepend_items<T: DEREncodable>(items: &[T], out: &mut PrependBuffer) -> ASN1Result<()>
    requires { AllByRecursion T.encodable items.now }
    ensures { Prepends (elements_encoding T.encoding out.old.mode items.now) out.old out.new result }
{
    let mut rest = items;
    while let Some((last, others)) = rest.split_last() {
        last.prepend_der(out)?;
        rest = others;
    }
    Ok(())
}

// The length of items, one after the other.
fn items_len<T: DEREncodable>(items: &[T], mode: BERMode) -> Option<usize>
    requires { AllByRecursion T.encodable items.now }
    ensures { KnownLength (elements_encoding T.encoding mode items.now) result }
{
    let mut total: usize = 0;
    for item in items {
        total = total.checked_add(item.encoded_len(mode)?)?;
    }
    Some(total)
}

// Writes items, one after the other.
fn write_items<T: DEREncodable>(items: &[T], seq: &mut DERWriterSeq) -> ASN1Result<()>
    requires { AllByRecursion T.encodable items.now }
    ensures { WroteParts (elements_encoding T.encoding seq.old.mode items.now) seq.old seq.new result }
{
    for item in items {
        item.encode_der(seq.next())?;
    }
    Ok(())
}
