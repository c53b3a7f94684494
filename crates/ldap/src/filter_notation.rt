//! Filters as a notation of their own (RFC 4511, 4.5.1.7). Within one level less are the filters within one.
ghost use Rattle.std.specs.Prelude.{◌≡◌, ◌↔◌, IsTrue, refl};
ghost use Rattle.ldap.specs.Filters.{the_filter};
ghost use Rattle.ldap.specs.TheFilter.{the_filter_lawful, the_filter_non_empty, the_filter_written};

use crate::filter::Filter;
use crate::filter_checking::accepts_filter;
use crate::filter_item::FilterItem;
use crate::filter_lengths::filter_len;
use crate::filter_prepending::prepend_filter;
use crate::filter_reading::{is_context, read_filter};
use crate::filter_writing::write_filter;
use yasna::{ASN1Result, BERMode, BERReader, DERWriter, PrependBuffer, Tag};
use yasna_notation::{CanonicalNotation, Message, Notation};
use yasna_notation_constraints::Checked;

impl Notation for Filter {
    type Value = Filter;

    type Inner = ();

    ghost means = { the_filter };

    fn has_tag(tag: Tag) -> bool {
        is_context(tag, 0)
            || is_context(tag, 1)
            || is_context(tag, 2)
            || <FilterItem as Notation>::has_tag(tag)
    }

    fn read(reader: BERReader) -> ASN1Result<Filter> {
        read_filter(reader)
    }

    fn write(value: &Filter, writer: DERWriter<'_>) -> ASN1Result<()> {
        write_filter(value, writer)
    }

    fn prepend(value: &Filter, under: Option<Tag>, out: &mut PrependBuffer) -> ASN1Result<()> {
        prepend_filter(value, under, out)
    }

    fn encoded_len(value: &Filter, under: Option<Tag>, mode: BERMode) -> Option<usize> {
        filter_len(value, under, mode)
    }

    ghost lawful = { λ _. the_filter_lawful };

    ghost non_empty = { the_filter_non_empty };
}

impl Message for Filter {
    ghost is_unambiguous = { refl };
}

impl CanonicalNotation for Filter {
    ghost written = { λ _. the_filter_written };
}

impl Checked for Filter {
    fn accepts(value: &Filter) -> bool {
        accepts_filter(value)
    }
}
