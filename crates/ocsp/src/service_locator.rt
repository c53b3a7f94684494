//! `ServiceLocator` of the module OCSP.
//!
//! ```text
//! ServiceLocator ::= SEQUENCE {
//!     issuer   Name,
//!     locator  AuthorityInfoAccessSyntax }
//! ```
ghost use Rattle.std.specs.Prelude.{◌≡◌, ◌↔◌, IsTrue, refl};
ghost use Rattle.yasna_notation.specs.Laws.{element_non_empty, represented_lawful};
ghost use Rattle.yasna_notation.specs.Making.{in_sequence, part};
ghost use Rattle.yasna_notation.specs.Notation.{represented_by};
ghost use Rattle.yasna_notation.specs.Parts.{no_parts};
ghost use Rattle.x509.specs.contracts.name.NameNotation.TheImpl.Laws.{lawful-law as x509_name_law};
ghost use Rattle.pkix_implicit.specs.contracts.authority_info_access_syntax.AuthorityInfoAccessSyntaxNotation.TheImpl.Laws.{lawful-law as pkix_implicit_authority_info_access_syntax_law};

use pkix_implicit::AuthorityInfoAccessSyntax;
use x509::Name;
use yasna::{ASN1Result, BERMode, BERReader, DERWriter, PrependBuffer, Tag};
use yasna_notation::{Message, Notation, Represents, Sequence, read_as};
use yasna_notation_constraints::{Checked, accepts_fields};

type Parts = (Name, (AuthorityInfoAccessSyntax, ()));

type Fields = (Name, (AuthorityInfoAccessSyntax, ()));

type Notated = Sequence<Parts>;

/// `ServiceLocator`.
#[derive(Drop)]
pub struct ServiceLocator {
    pub issuer: Name,
    pub locator: AuthorityInfoAccessSyntax,
}

impl Represents<Fields> for ServiceLocator {
    ghost value_of = { λ v. (v.issuer, (v.locator, tt)) };

    fn from_value((issuer, (locator, ())): Fields) -> ServiceLocator {
        ServiceLocator { issuer, locator }
    }
}

impl Notation for ServiceLocator {
    type Value = ServiceLocator;

    type Inner = ();

    ghost means = { represented_by ⟦<ServiceLocator as Represents<Fields>>⟧.value_of ⟦<Notated as Notation>⟧.means };

    fn has_tag(tag: Tag) -> bool {
        <Notated as Notation>::has_tag(tag)
    }

    fn read(reader: BERReader) -> ASN1Result<ServiceLocator> {
        read_as::<Notated, ServiceLocator>(reader)
    }

    fn write(value: &ServiceLocator, writer: DERWriter<'_>) -> ASN1Result<()> {
        Sequence::<Parts>::write_fields((&value.issuer, (&value.locator, ())), writer)
    }

    fn prepend(
        value: &ServiceLocator,
        under: Option<Tag>,
        out: &mut PrependBuffer,
    ) -> ASN1Result<()> {
        Sequence::<Parts>::prepend_fields((&value.issuer, (&value.locator, ())), under, out)
    }

    fn encoded_len(value: &ServiceLocator, under: Option<Tag>, mode: BERMode) -> Option<usize> {
        Sequence::<Parts>::fields_len((&value.issuer, (&value.locator, ())), under, mode)
    }

    ghost lawful = { λ _. represented_lawful ⟦<ServiceLocator as Represents<Fields>>⟧.value_of (in_sequence
        (part (x509_name_law refl).own (part (pkix_implicit_authority_info_access_syntax_law refl).own no_parts))) };

    ghost non_empty = { λ u m v. element_non_empty _ _ _ _ };
}

impl Message for ServiceLocator {
    ghost is_unambiguous = { refl };
}

impl Checked for ServiceLocator {
    fn accepts(value: &ServiceLocator) -> bool {
        accepts_fields::<Parts, _>((&value.issuer, (&value.locator, ())))
    }
}
