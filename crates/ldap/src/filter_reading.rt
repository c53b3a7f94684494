//! How filters are read (RFC 4511, 4.5.1.7): a closure reads the filters within one.
ghost use Rattle.std.specs.Prelude.{◌≡◌, ◌∷◌, [], suc, MatchResult};
ghost use Rattle.std.specs.List.{list_any};
ghost use Rattle.yasna_base.specs.Beginnings.{is_tag};
ghost use Rattle.yasna_base.specs.Identifier.{context};
ghost use Rattle.yasna_base.specs.Error.{kind_of};
ghost use Rattle.yasna_base.specs.Set.{set_tag};
ghost use Rattle.yasna_base.specs.declared.error.ASN1ErrorKind.TheVariants.{OutOfMemory};
ghost use Rattle.yasna_notation.specs.Notation.{ReadsMeaning};
ghost use Rattle.ldap.specs.Filters.{the_filter, boxed_means, list_means, group_means, negated_means, whole, after_and, after_or, Found, parted_of};
ghost use Rattle.ldap.specs.Reading.{TakesFewer, ReadsAll};

use crate::filter::Filter;
use crate::filter_item::FilterItem;
use std::alloc::Global;
use yasna::{ASN1Error, ASN1ErrorKind, ASN1Result, BERReader, Tag};
use yasna_notation::{Either, Notation};

// What a filter is made of.
pub(crate) type Parted = Either<Vec<Filter>, AfterAnd>;

type AfterAnd = Either<Vec<Filter>, AfterOr>;

type AfterOr = Either<Box<Filter>, FilterItem>;

// Reads filters, one or more, as a SET OF them.
fn read_items<F>(reader: BERReader, f: F) -> ASN1Result<Vec<Filter>>
where
    F: FnMut(BERReader) -> ASN1Result<Filter> + Drop,
    requires takes { TakesFewer F.FnMut reader.old.levels }
    requires reads { ReadsAll F.FnMut the_filter }
    ensures { ReadsMeaning (list_means set_tag the_filter) reader.old result reader.new }
{
    match reader.collect_set_of(f) {
        Ok(items) => {
            if items.is_empty() {
                Err(ASN1Error::new(ASN1ErrorKind::Invalid))
            } else {
                Ok(items)
            }
        }
        Err(error) => Err(error),
    }
}

// Reads them where the tag [number] is in place of that of the SET OF.
fn read_group<F>(number: u64, reader: BERReader, f: F) -> ASN1Result<Vec<Filter>>
where
    F: FnMut(BERReader) -> ASN1Result<Filter> + Drop,
    requires takes { TakesFewer F.FnMut reader.old.levels }
    requires reads { ReadsAll F.FnMut the_filter }
    ensures { ReadsMeaning (group_means number the_filter) reader.old result reader.new }
{
    reader.read_tagged_implicit(Tag::context(number), |inner| read_items(inner, f))
}

// What allocates the parts of an item.
fn allocator_of_item(item: &FilterItem) -> Global {
    match item {
        FilterItem::EqualityMatch(chosen) => *chosen.attribute_desc.allocator(),
        FilterItem::Substrings(chosen) => *chosen.attribute_type.allocator(),
        FilterItem::GreaterOrEqual(chosen) => *chosen.attribute_desc.allocator(),
        FilterItem::LessOrEqual(chosen) => *chosen.attribute_desc.allocator(),
        FilterItem::Present(chosen) => *chosen.allocator(),
        FilterItem::ApproxMatch(chosen) => *chosen.attribute_desc.allocator(),
        FilterItem::ExtensibleMatch(chosen) => *chosen.match_value.allocator(),
    }
}

// What allocates the parts of a filter.
fn allocator_of(filter: &Filter) -> Global {
    match filter {
        Filter::And(filters) => *filters.allocator(),
        Filter::Or(filters) => *filters.allocator(),
        Filter::Not(negated) => *Box::allocator(negated),
        Filter::Item(item) => allocator_of_item(item),
    }
}

// Puts a filter into a box.
fn boxed(filter: Filter) -> ASN1Result<Box<Filter>>
    ensures { MatchResult result (λ b. b.value ≡ filter) (λ e. kind_of e ≡ OutOfMemory) }
{
    let alloc = allocator_of(&filter);
    match Box::new(alloc, filter) {
        Ok(room) => Ok(room),
        Err(_) => Err(ASN1Error::new(ASN1ErrorKind::OutOfMemory)),
    }
}

// Reads a filter into a box.
fn read_boxed<F>(reader: BERReader, f: F) -> ASN1Result<Box<Filter>>
where
    F: FnMut(BERReader) -> ASN1Result<Filter> + Drop,
    requires takes { TakesFewer F.FnMut (suc reader.old.levels) }
    requires reads { ReadsAll F.FnMut the_filter }
    ensures { ReadsMeaning (boxed_means the_filter) reader.old result reader.new }
{
    let mut read = f;
    match read(reader) {
        Ok(filter) => boxed(filter),
        Err(error) => Err(error),
    }
}

// Reads a filter that another turns.
fn read_negated<F>(reader: BERReader, f: F) -> ASN1Result<Box<Filter>>
where
    F: FnMut(BERReader) -> ASN1Result<Filter> + Drop,
    requires takes { TakesFewer F.FnMut reader.old.levels }
    requires reads { ReadsAll F.FnMut the_filter }
    ensures { ReadsMeaning (negated_means the_filter) reader.old result reader.new }
{
    reader.read_tagged(Tag::context(2), |inner| read_boxed(inner, f))
}

// Whether this tag is [number].
pub(crate) fn is_context(tag: Tag, number: u64) -> bool
    ensures { result ≡ list_any (is_tag tag) (context number ∷ []) }
{
    tag == Tag::context(number)
}

// Reads what is after `or` in the CHOICE, of which this tag was found.
fn read_after_or<F>(tag: Tag, reader: BERReader, f: F) -> ASN1Result<AfterOr>
where
    F: FnMut(BERReader) -> ASN1Result<Filter> + Drop,
    requires takes { TakesFewer F.FnMut reader.old.levels }
    requires reads { ReadsAll F.FnMut the_filter }
    ensures { Found after_or tag reader.old result reader.new }
{
    if is_context(tag, 2) {
        read_negated(reader, f).map(Either::First)
    } else {
        <FilterItem as Notation>::read(reader).map(Either::Second)
    }
}

// Reads what is after `and`.
fn read_after_and<F>(tag: Tag, reader: BERReader, f: F) -> ASN1Result<AfterAnd>
where
    F: FnMut(BERReader) -> ASN1Result<Filter> + Drop,
    requires takes { TakesFewer F.FnMut reader.old.levels }
    requires reads { ReadsAll F.FnMut the_filter }
    ensures { Found after_and tag reader.old result reader.new }
{
    if is_context(tag, 1) {
        read_group(1, reader, f).map(Either::First)
    } else {
        read_after_or(tag, reader, f).map(Either::Second)
    }
}

// Reads any.
fn read_found<F>(tag: Tag, reader: BERReader, f: F) -> ASN1Result<Parted>
where
    F: FnMut(BERReader) -> ASN1Result<Filter> + Drop,
    requires takes { TakesFewer F.FnMut reader.old.levels }
    requires reads { ReadsAll F.FnMut the_filter }
    ensures { Found whole tag reader.old result reader.new }
{
    if is_context(tag, 0) {
        read_group(0, reader, f).map(Either::First)
    } else {
        read_after_and(tag, reader, f).map(Either::Second)
    }
}

// Reads what a filter is made of.
fn read_parted<F>(reader: BERReader, f: F) -> ASN1Result<Parted>
where
    F: FnMut(BERReader) -> ASN1Result<Filter> + Drop,
    requires takes { TakesFewer F.FnMut reader.old.levels }
    requires reads { ReadsAll F.FnMut the_filter }
    ensures { ReadsMeaning whole reader.old result reader.new }
{
    match reader.lookahead_tag() {
        Ok(tag) => read_found(tag, reader, f),
        Err(error) => Err(error),
    }
}

// Makes a filter of it.
fn from_parts(parts: Parted) -> Filter
    ensures { parted_of result ≡ parts }
{
    let others = match parts {
        Either::First(filters) => return Filter::And(filters),
        Either::Second(others) => others,
    };
    let others = match others {
        Either::First(filters) => return Filter::Or(filters),
        Either::Second(others) => others,
    };
    match others {
        Either::First(negated) => Filter::Not(negated),
        Either::Second(item) => Filter::Item(item),
    }
}

/// Reads a filter.
pub(crate) fn read_filter(reader: BERReader) -> ASN1Result<Filter>
    ensures { ReadsMeaning the_filter reader.old result reader.new }
{
    match read_parted(
        reader,
        |item| -> ASN1Result<Filter>
            ensures { ReadsMeaning the_filter item.old result item.new }
        { read_filter(item) },
    ) {
        Ok(parts) => Ok(from_parts(parts)),
        Err(error) => Err(error),
    }
}
