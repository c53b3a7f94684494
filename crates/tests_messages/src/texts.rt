//! A type of a text of each class, and a number: the notations that no message has.
ghost use Rattle.std.specs.Prelude.{◌≡◌, refl};

use crate::checks::{Claim, finds_none};
use crate::kinds::{Kind, Row, first_failing};
use yasna::{ASN1Result, BERMode, DERWriter, PrependBuffer, Tag};
use yasna_notation::{
    DefinedType, Ia5String, NumericString, PrintableString, Sequence, VisibleString,
};

type Parts = (
    PrintableString,
    (
        Ia5String,
        (NumericString, (VisibleString, (String, (i32, ())))),
    ),
);

type Fields = (String, (String, (String, (String, (String, (i32, ()))))));

/// A text of each class, and a number.
#[derive(Drop)]
pub struct Texts {
    printable: String,
    ia5: String,
    numeric: String,
    visible: String,
    utf8: String,
    number: i32,
}

impl DefinedType for Texts {
    type Notation = Sequence<Parts>;

    ghost value_of = { λ v. (v.printable, (v.ia5, (v.numeric, (v.visible, (v.utf8, (v.number, tt)))))) };

    fn from_value((printable, (ia5, (numeric, others))): Fields) -> Texts {
        let (visible, (utf8, (number, ()))) = others;
        Texts {
            printable,
            ia5,
            numeric,
            visible,
            utf8,
            number,
        }
    }

    fn write_value(&self, writer: DERWriter<'_>) -> ASN1Result<()> {
        let ends = (&self.visible, (&self.utf8, (&self.number, ())));
        Sequence::<Parts>::write_fields(
            (&self.printable, (&self.ia5, (&self.numeric, ends))),
            writer,
        )
    }

    fn prepend_value(&self, under: Option<Tag>, out: &mut PrependBuffer) -> ASN1Result<()> {
        let ends = (&self.visible, (&self.utf8, (&self.number, ())));
        Sequence::<Parts>::prepend_fields(
            (&self.printable, (&self.ia5, (&self.numeric, ends))),
            under,
            out,
        )
    }

    fn value_len(&self, under: Option<Tag>, mode: BERMode) -> Option<usize> {
        let ends = (&self.visible, (&self.utf8, (&self.number, ())));
        Sequence::<Parts>::fields_len(
            (&self.printable, (&self.ia5, (&self.numeric, ends))),
            under,
            mode,
        )
    }

    ghost unambiguous = { refl };
}

static ROWS: [Row; 2] = [
    (
        Kind::Texts,
        Claim::IsEncoding,
        "texts in DER",
        "30181302612e160161120230371a017e0c04f09f98800202ff7f",
    ),
    (
        Kind::Texts,
        Claim::IsCerEncoding,
        "texts in CER",
        "30801302612e160161120230371a017e0c04f09f98800202ff7f0000",
    ),
];

#[test]
fn texts_come_back(rt: HostRuntime) {
    finds_none(&rt, first_failing(rt.alloc(), &ROWS));
}
