//! `SEQUENCE { numbers SET OF INTEGER }`, by the notation of its module.
ghost use Rattle.std.specs.Prelude.{◌≡◌, refl};

use yasna::{ASN1Result, BERMode, DERWriter, PrependBuffer, Tag};
use yasna_notation::{DefinedType, Sequence, SetOf};

type Parts = (SetOf<i64>, ());

/// Numbers of a SET OF, in a SEQUENCE of their own.
#[derive(Drop)]
pub struct Numbers {
    numbers: Vec<i64>,
}

impl DefinedType for Numbers {
    type Notation = Sequence<Parts>;

    ghost value_of = { λ v. (v.numbers, tt) };

    fn from_value((numbers, ()): (Vec<i64>, ())) -> Numbers {
        Numbers { numbers }
    }

    fn write_value(&self, writer: DERWriter<'_>) -> ASN1Result<()> {
        Sequence::<Parts>::write_fields((&self.numbers, ()), writer)
    }

    fn prepend_value(&self, under: Option<Tag>, out: &mut PrependBuffer) -> ASN1Result<()> {
        Sequence::<Parts>::prepend_fields((&self.numbers, ()), under, out)
    }

    fn value_len(&self, under: Option<Tag>, mode: BERMode) -> Option<usize> {
        Sequence::<Parts>::fields_len((&self.numbers, ()), under, mode)
    }

    ghost unambiguous = { refl };
}
