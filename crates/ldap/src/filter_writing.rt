//! How filters are written (RFC 4511, 4.5.1.7).
ghost use Rattle.std.specs.Prelude.{◌≡◌, [], None};
ghost use Rattle.std.specs.List.{AllByRecursion};
ghost use Rattle.yasna_base.specs.AnyOrder.{sorted_set_of_encoding};
ghost use Rattle.yasna_base.specs.Canonical.{enclosed_encoding};
ghost use Rattle.yasna_base.specs.Identifier.{context, tag_or};
ghost use Rattle.yasna_base.specs.Set.{set_tag};
ghost use Rattle.yasna_base.specs.SetWriting.{encodings};
ghost use Rattle.yasna_writer.specs.Parts.{begun_set};
ghost use Rattle.yasna_writer.specs.View.{Writes};
ghost use Rattle.yasna_notation.specs.Sets.{FailsOnlyOutOfMemory, WroteElement, WroteElements};
ghost use Rattle.ldap.specs.Filters.{the_filter};
ghost use Rattle.ldap.specs.Writing.{TakesEach, WritesEach};

use crate::filter::Filter;
use crate::filter_item::FilterItem;
use yasna::{ASN1Result, DERWriter, DERWriterSet, Tag};
use yasna_notation::Notation;

// Writes filters as the parts of a set: a closure writes each.
fn write_elements<F>(items: &[Filter], set: &mut DERWriterSet, f: F) -> ASN1Result<()>
where
    F: FnMut(&Filter, DERWriter) -> ASN1Result<()> + Drop,
    requires takes { TakesEach F.FnMut items.now }
    requires writes { WritesEach F.FnMut (the_filter.encoding_under None) }
    requires begins { set.old ≡ begun_set set.old.mode }
    ensures { WroteElements (encodings (the_filter.encoding_under None) set.old.mode items.now) set.new result }
{
    let mut write = f;
    for item in items {
        write(item, set.next())?;
    }
    Ok(())
}

// Writes a SET OF them.
fn write_list<F>(items: &[Filter], writer: DERWriter, f: F) -> ASN1Result<()>
where
    F: FnMut(&Filter, DERWriter) -> ASN1Result<()> + Drop,
    requires takes { TakesEach F.FnMut items.now }
    requires writes { WritesEach F.FnMut (the_filter.encoding_under None) }
    ensures { Writes (sorted_set_of_encoding (the_filter.encoding_under None) (tag_or writer.old.tag set_tag) writer.old.mode items.now)
        writer.old writer.new result }
{
    writer.write_set_of(|set| write_elements(items, set, f))
}

// Writes it where the tag [number] is in place of its own.
fn write_group<F>(number: u64, items: &[Filter], writer: DERWriter, f: F) -> ASN1Result<()>
where
    F: FnMut(&Filter, DERWriter) -> ASN1Result<()> + Drop,
    requires takes { TakesEach F.FnMut items.now }
    requires writes { WritesEach F.FnMut (the_filter.encoding_under None) }
    ensures { Writes (sorted_set_of_encoding (the_filter.encoding_under None) (tag_or writer.old.tag (context number)) writer.old.mode items.now)
        writer.old writer.new result }
{
    writer.write_tagged_implicit(Tag::context(number), |inner| write_list(items, inner, f))
}

// Writes a filter as a part that begins. A set rejects an empty part: where there is no memory and that isn't sticky, a NULL is left, so
// that `OutOfMemory` is what is returned.
#[cycle(filter_writing)]
fn write_element(item: &Filter, writer: DERWriter) -> ASN1Result<()>
    requires can { the_filter.can item.now }
    requires begins { (writer.old.bytes ≡ []) × (writer.old.tag ≡ None) }
    requires failed { FailsOnlyOutOfMemory writer.old.failed }
    ensures { WroteElement (the_filter.encoding_under None writer.old.mode item.now) writer.old writer.new result }
{
    match write_filter(item, writer) {
        Ok(()) => Ok(()),
        Err(error) => {
            writer.write_null()?;
            Err(error)
        }
    }
}

// Writes filters as a group under the tag [number].
#[cycle(filter_writing)]
fn write_filters(number: u64, filters: &[Filter], writer: DERWriter) -> ASN1Result<()>
    requires { AllByRecursion the_filter.can filters.now }
    ensures { Writes (sorted_set_of_encoding (the_filter.encoding_under None) (tag_or writer.old.tag (context number)) writer.old.mode filters.now)
        writer.old writer.new result }
{
    write_group(
        number,
        filters,
        writer,
        |item, part| -> ASN1Result<()>
            requires can { the_filter.can item.now }
            requires begins { (part.old.bytes ≡ []) × (part.old.tag ≡ None) }
            requires failed { FailsOnlyOutOfMemory part.old.failed }
            ensures { WroteElement (the_filter.encoding_under None part.old.mode item.now) part.old part.new result }
        { write_element(item, part) },
    )
}

// Writes a filter that another turns.
#[cycle(filter_writing)]
fn write_negated(negated: &Filter, writer: DERWriter) -> ASN1Result<()>
    requires { the_filter.can negated.now }
    ensures { Writes (enclosed_encoding (the_filter.encoding_under None) (tag_or writer.old.tag (context 2)) writer.old.mode negated.now)
        writer.old writer.new result }
{
    writer.write_tagged(
        Tag::context(2),
        |inner| -> ASN1Result<()>
            requires can { the_filter.can negated.now }
            requires untagged { inner.old.tag ≡ None }
            ensures { Writes (the_filter.encoding_under None inner.old.mode negated.entry.now) inner.old inner.new result }
        { write_filter(negated, inner) },
    )
}

/// Writes a filter.
#[cycle(filter_writing)]
pub(crate) fn write_filter(value: &Filter, writer: DERWriter) -> ASN1Result<()>
    requires { the_filter.can value.now }
    ensures { Writes (the_filter.encoding_under writer.old.tag writer.old.mode value.now) writer.old writer.new result }
{
    match value {
        Filter::And(filters) => write_filters(0, filters.as_slice(), writer),
        Filter::Or(filters) => write_filters(1, filters.as_slice(), writer),
        Filter::Not(negated) => write_negated(negated, writer),
        Filter::Item(item) => <FilterItem as Notation>::write(item, writer),
    }
}
