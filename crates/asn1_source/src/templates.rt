//! The texts of sources, with marks.
//!
//! | Mark | Represents |
//! |---|---|
//! | `@N` | the name of the type |
//! | `@V` | the type that its values represent |
//! | `@v` | the value that one represents |
//! | `@P`, `@f` | a pattern of that value, and what is made of it |
//! | `@w`, `@p`, `@l`, `@c` | how it is written and prepended, its length, and whether it can be written |
//! | `@7`, `@8`, `@9` | the terms of its law, of its law of writing, and that no encoding is empty |
//! | `@R` | references to the fields |
//! | `@t` | the tag of a SEQUENCE |

/// The impls of a type.
pub static IMPLS: &str = "
impl Represents<@V> for @N {
    ghost value_of = { @v };

    fn from_value(@P: @V) -> @N {
        @f
    }
}

impl Notation for @N {
    type Value = @N;

    type Inner = ();

    ghost means = { represented_by ⟦<@N as Represents<@V>>⟧.value_of ⟦<Notated as Notation>⟧.means };

    fn has_tag(tag: Tag) -> bool {
        <Notated as Notation>::has_tag(tag)
    }

    fn read(reader: BERReader) -> ASN1Result<@N> {
        read_as::<Notated, @N>(reader)
    }

    fn write(value: &@N, writer: DERWriter<'_>) -> ASN1Result<()> {
        @w
    }

    fn prepend(value: &@N, under: Option<Tag>, out: &mut PrependBuffer) -> ASN1Result<()> {
        @p
    }

    fn encoded_len(value: &@N, under: Option<Tag>, mode: BERMode) -> Option<usize> {
        @l
    }

    ghost lawful = { λ _. represented_lawful ⟦<@N as Represents<@V>>⟧.value_of @7 };

    ghost non_empty = { @9 };
}

impl Message for @N {
    ghost is_unambiguous = { refl };
}
";

/// The impl of a type of which what BER reads is written in DER.
pub static CANONICAL_IMPL: &str = "
impl CanonicalNotation for @N {
    ghost written = { λ _. represented_written ⟦<@N as Represents<@V>>⟧.value_of @8 };
}
";

/// The impl that tests whether a value can be written.
pub static CHECKED_IMPL: &str = "
impl Checked for @N {
    fn accepts(value: &@N) -> bool {
        @c
    }
}
";

/// The impl by which a CHOICE is a part of a SET. `@k` is its tags.
pub static SET_PART_IMPL: &str = "
impl SetPart for @N {
    fn read_chosen(set: &mut BERReaderSet) -> ASN1Result<Option<@N>> {
        read_part::<@N>(&[@k], set)
    }

    ghost is_known = { refl };
}
";

/// How something is written, prepended, measured and tested.
pub struct Bodies {
    /// How it is written.
    pub write: &'static str,
    /// How it is prepended.
    pub prepend: &'static str,
    /// How long it is.
    pub len: &'static str,
    /// Whether it can be written.
    pub accepts: &'static str,
}

/// Those of a SEQUENCE.
pub static SEQUENCE_BODIES: Bodies = Bodies {
    write: "Sequence::<Parts>::write_fields(@R, writer)",
    prepend: "Sequence::<Parts>::prepend_fields(@R, under, out)",
    len: "Sequence::<Parts>::fields_len(@R, under, mode)",
    accepts: "accepts_fields::<Parts, _>(@R)",
};

/// Those of a SET.
pub static SET_BODIES: Bodies = Bodies {
    write: "Set::<Parts>::write_fields(@R, writer)",
    prepend: "Set::<Parts>::prepend_fields(@R, under, out)",
    len: "Set::<Parts>::fields_len(@R, under, mode)",
    accepts: "accepts_fields::<Parts, _>(@R)",
};

/// Those of a SEQUENCE under an IMPLICIT tag.
pub static IMPLICIT_BODIES: Bodies = Bodies {
    write: "write_implicit_fields::<@t, Parts, _>(@R, writer)",
    prepend: "prepend_implicit_fields::<@t, Parts, _>(@R, under, out)",
    len: "implicit_fields_len::<@t, Parts, _>(@R, under, mode)",
    accepts: "accepts_fields::<Parts, _>(@R)",
};

/// Those of a SEQUENCE under an EXPLICIT tag.
pub static EXPLICIT_BODIES: Bodies = Bodies {
    write: "write_explicit_fields::<@t, Parts, _>(@R, writer)",
    prepend: "prepend_explicit_fields::<@t, Parts, _>(@R, under, out)",
    len: "explicit_fields_len::<@t, Parts, _>(@R, under, mode)",
    accepts: "accepts_fields::<Parts, _>(@R)",
};

/// Those of a type that holds one value.
pub static VALUE_BODIES: Bodies = Bodies {
    write: "<Notated as Notation>::write(&value.@F, writer)",
    prepend: "<Notated as Notation>::prepend(&value.@F, under, out)",
    len: "<Notated as Notation>::encoded_len(&value.@F, under, mode)",
    accepts: "<Notated as Checked>::accepts(&value.@F)",
};

/// Parts of a SEQUENCE by one name. `@R` is their name, `@O` that of the whole, `@H` the values of its fields, `@E` references to these, and `@B`
/// those to fields of their own.
pub static PARTS_IMPLS: &str = "
/// These parts, and what holds their values.
#[derive(Drop)]
pub struct @R {
@D}

impl Represents<Fields> for @R {
    ghost value_of = { λ v. @o };

    fn from_value(@P: Fields) -> @R {
        @R { @n}
    }
}

impl Parts for @R {
    type Values = @R;

    type Inner = ();

    ghost tags_known = { ⟦<Each as Parts>⟧.tags_known };

    ghost tags = { ⟦<Each as Parts>⟧.tags };

    ghost unambiguous = { ⟦<Each as Parts>⟧.unambiguous };

    ghost parts = { λ m n v c. ⟦<Each as Parts>⟧.parts m n (⟦<@R as Represents<Fields>>⟧.value_of v) c };

    ghost any_parts = { ⟦<Each as Parts>⟧.any_parts };

    ghost may_allocate = { ⟦<Each as Parts>⟧.may_allocate };

    ghost same = { λ v w. ⟦<Each as Parts>⟧.same (⟦<@R as Represents<Fields>>⟧.value_of v) (⟦<@R as Represents<Fields>>⟧.value_of w) };

    ghost encoding = { λ m v. ⟦<Each as Parts>⟧.encoding m (⟦<@R as Represents<Fields>>⟧.value_of v) };

    ghost depth = { λ m v. ⟦<Each as Parts>⟧.depth m (⟦<@R as Represents<Fields>>⟧.value_of v) };

    ghost can = { λ v. ⟦<Each as Parts>⟧.can (⟦<@R as Represents<Fields>>⟧.value_of v) };

    ghost fits = { λ m n v. ⟦<Each as Parts>⟧.fits m n (⟦<@R as Represents<Fields>>⟧.value_of v) };

    #[inline(always)]
    fn read_parts(seq: &mut BERReaderSeq) -> ASN1Result<@R> {
        read_parts_as::<Each, @R>(seq)
    }

    #[inline(always)]
    fn write_parts(value: &@R, seq: &mut DERWriterSeq) -> ASN1Result<()> {
        let fields = @B;
        Each::write_each(&fields, seq)
    }

    ghost laws = { λ _. represented_parts ⟦<@R as Represents<Fields>>⟧.value_of @7 };
}

impl<'a> PartsBy<&'a @O> for @R {
    type Held = @R;

    ghost held = { λ r. @H };

    ghost encoding_by = { ⟦<@R as Parts>⟧.encoding };

    ghost can_by = { ⟦<@R as Parts>⟧.can };

    #[inline(always)]
    fn write_each(value: &&'a @O, seq: &mut DERWriterSeq) -> ASN1Result<()> {
        let fields = @E;
        Each::write_each(&fields, seq)
    }

    #[inline(always)]
    fn prepend_each(value: &&'a @O, out: &mut PrependBuffer) -> ASN1Result<()> {
        let fields = @E;
        Each::prepend_each(&fields, out)
    }

    #[inline(always)]
    fn each_len(value: &&'a @O, mode: BERMode) -> Option<usize> {
        let fields = @E;
        Each::each_len(&fields, mode)
    }
}

impl<'a> CheckedBy<&'a @O> for @R {
    type Held = @R;

    ghost held = { λ r. @H };

    ghost can_by = { ⟦<@R as Parts>⟧.can };

    #[inline(always)]
    fn accept_each(value: &&'a @O) -> bool {
        let fields = @E;
        Each::accept_each(&fields)
    }
}
";

/// How parts that follow others that follow are written, by a reference to their own struct.
pub static INNER_PARTS_IMPL: &str = "
impl<'a> PartsBy<&'a @R> for @R {
    type Held = @R;

    ghost held = { λ r. r.now };

    ghost encoding_by = { ⟦<@R as Parts>⟧.encoding };

    ghost can_by = { ⟦<@R as Parts>⟧.can };

    #[inline(always)]
    fn write_each(value: &&'a @R, seq: &mut DERWriterSeq) -> ASN1Result<()> {
        <@R as Parts>::write_parts(*value, seq)
    }
}
";

/// The impl of parts of a SET. `@6` is the term of their law.
pub static SET_PARTS_IMPL: &str = "
impl SetParts for @R {
    ghost set_tags = { ⟦<Each as SetParts>⟧.set_tags };

    ghost members = { ⟦<Each as SetParts>⟧.members };

    ghost picks = { λ m n v ps. ⟦<Each as SetParts>⟧.picks m n (⟦<@R as Represents<Fields>>⟧.value_of v) ps };

    ghost set_unambiguous = { ⟦<Each as SetParts>⟧.set_unambiguous };

    #[inline(always)]
    fn read_set_parts(set: &mut BERReaderSet) -> ASN1Result<@R> {
        read_set_parts_as::<Each, @R>(set)
    }

    ghost set_laws = { λ _. represented_set_parts ⟦<@R as Represents<Fields>>⟧.value_of @6 };
}
";

/// The impl of parts of which what BER reads is written in DER.
pub static CANONICAL_PARTS_IMPL: &str = "
impl CanonicalParts for @R {
    ghost written = { λ _. written_along ⟦<@R as Represents<Fields>>⟧.value_of @8 };
}
";

/// Alternatives of a CHOICE by one name. `@R` is their name, `@U` the sides of their values.
pub static ALTERNATIVES_IMPLS: &str = "
/// The values of these alternatives.
pub type @RSides = @U;

/// These alternatives.
pub struct @R;

impl Alternatives for @R {
    type Value = @RSides;

    type Inner = ();

    ghost tags = { ⟦<Each as Alternatives>⟧.tags };

    ghost unambiguous = { ⟦<Each as Alternatives>⟧.unambiguous };

    ghost encodes = { ⟦<Each as Alternatives>⟧.encodes };

    ghost elements = { ⟦<Each as Alternatives>⟧.elements };

    ghost may_allocate = { ⟦<Each as Alternatives>⟧.may_allocate };

    ghost same = { ⟦<Each as Alternatives>⟧.same };

    ghost encoding_under = { ⟦<Each as Alternatives>⟧.encoding_under };

    ghost depth = { ⟦<Each as Alternatives>⟧.depth };

    ghost can = { ⟦<Each as Alternatives>⟧.can };

    ghost fits = { ⟦<Each as Alternatives>⟧.fits };

    #[inline(always)]
    fn has_tag(tag: Tag) -> bool {
        <Each as Alternatives>::has_tag(tag)
    }

    #[inline(always)]
    fn read_found(tag: Tag, reader: BERReader) -> ASN1Result<@RSides> {
        <Each as Alternatives>::read_found(tag, reader)
    }

    #[inline(always)]
    fn write(value: &@RSides, writer: DERWriter<'_>) -> ASN1Result<()> {
        <Each as Alternatives>::write(value, writer)
    }

    #[inline(always)]
    fn prepend(value: &@RSides, under: Option<Tag>, out: &mut PrependBuffer) -> ASN1Result<()> {
        <Each as Alternatives>::prepend(value, under, out)
    }

    #[inline(always)]
    fn encoded_len(value: &@RSides, under: Option<Tag>, mode: BERMode) -> Option<usize> {
        <Each as Alternatives>::encoded_len(value, under, mode)
    }

    ghost laws = { λ _. @7 };

    ghost non_empty = { @9 };
}
";

/// The impl of alternatives of which what BER reads is written in DER.
pub static CANONICAL_ALTERNATIVES_IMPL: &str = "
impl CanonicalAlternatives for @R {
    ghost written = { λ _. @8 };
}
";

/// An enum of an ENUMERATED. `@I` is its variants, `@1` and `@2` the arms of its two functions, `@P` what the names of its specs begin with.
pub static ENUMERATION: &str = "use yasna_notation_types::Numbered;

/// `@a`.
#[derive(Clone, Copy)]
pub enum @N {
@I}

impl Numbered for @N {
    ghost number_of = { @P_number };

    ghost named = { @P_named };

    ghost allowed = { @P_allowed };

    fn number(&self) -> i64 {
        match self {
@1        }
    }

    fn from_number(number: i64) -> Option<@N> {
        match number {
@2        }
    }

    ghost writable = { @P_writable };
}

impl PartialEq for @N {
    ghost eq = { on @P_number int_eq };

    ghost laws = { partial_equiv_from_equiv (on_equiv @P_number int_eq_equiv) };

    fn eq(&self, other: &@N) -> bool {
        self.number() == other.number()
    }
}

impl Eq for @N {
    ghost laws = { on_equiv @P_number int_eq_equiv };
}
";

/// The type of a default of an ENUMERATED. `@i` is the item, `@X` the type, `@B` the notation, `@C` the enum, `@v` the variant, `@P` what the names of
/// the specs begin with, `@n` the number in clauses.
pub static ITEM_DEFAULT: &str = "
/// `DEFAULT @i`.
pub struct @X;

impl DefaultValue<@B> for @X {
    ghost default = { @XValue };

    ghost is = { λ v. int_eq (@P_number v) @n };

    fn default() -> @C {
        @C::@v
    }

    ghost detects = { @P_detects @XValue };

    ghost tests = { λ v. refl };
}
";

/// What the source of such a default brings in. `@V` is the variant where a clause brings it in.
pub static ITEM_CLAUSES: &str =
    "ghost use Rattle.@K.specs.declared.@F.@C.TheVariants.{@V as @XValue};\n";

/// The value of a default of an OBJECT IDENTIFIER. `@X` is its type, `@f` the field, `@n` the arcs in clauses, `@r` in Rust.
pub static IDENTIFIER_DEFAULT: &str = "
/// The default of `@f`.
pub struct @X;

impl IdentifierValue for @X {
    ghost components = { @n };

    fn components() -> &'static [u64] {
        &[@r]
    }
}
";

/// That of an OCTET STRING, with the octets in place of the arcs.
pub static OCTETS_DEFAULT: &str = "
/// The default of `@f`.
pub struct @X;

impl OctetsValue for @X {
    ghost octets = { @n };

    fn octets() -> &'static [u8] {
        &[@r]
    }
}
";

/// That of a string of characters.
pub static TEXT_DEFAULT: &str = "
/// The default of `@f`.
pub struct @X;

impl TextValue for @X {
    ghost text = { @n };

    fn text() -> &'static str {
        \"@r\"
    }
}
";

/// That of a BIT STRING, with how many bits there are as `@c`.
pub static BITS_DEFAULT: &str = "
/// The default of `@f`.
pub struct @X;

impl BitsValue for @X {
    ghost bits = { record { bytes = @n; count = @c } };

    fn octets() -> &'static [u8] {
        &[@r]
    }

    fn count() -> usize {
        @c
    }
}
";

/// The default of a list with the name `@B`, if it is an empty one. `@n` is its word in the name of the term.
pub static EMPTY_DEFAULT: &str = "
/// The default of `@f`.
pub struct @X;

impl TestedDefault<@B> for @X {
    ghost is = { λ v. is_empty_list v.items.items };

    fn is_default(value: &@B) -> bool {
        has_no_items(value.items.as_slice())
    }

    ghost one = { one_empty_@n _ (λ v. v.items.items) };
}
";

/// What the source of such a default brings in.
pub static LIST_CLAUSES: &str = "ghost use Rattle.std.specs.Prelude.{◌∷◌, []};\n";

/// The specs of an enum. `@K` is its crate, `@F` its file, `@G` its variants, `@3` and `@4` the lines of a clause for each, `@5` its numbers.
pub static ENUMERATION_SPECS: &str = "-- The numbers of `@a`.
use Rattle.std.proofs.Common.{◌≡◌, ◌∷◌, [], ℤ, List, Bool, true, pos, negsuc, refl, FitsSigned, arith}
use Rattle.std.specs.Prelude.{◌↔◌}
use Rattle.std.specs.Int.{w64}
use Rattle.std.specs.List.{list_any}
use Rattle.std.specs.Ordering.{int_eq}
use Rattle.std.proofs.lemmas.Bool.Decides.{Decides-int_eq}
use Rattle.yasna_base.specs.Default.{DetectsDefault}
use Rattle.@K.specs.declared.@F.@N.{@N}
use Rattle.@K.specs.declared.@F.@N.TheVariants.{@G}

-- the number of each
abbrev pub @P_number : @N → ℤ
@3
-- it is one of these numbers
abbrev pub @P_named : ℤ → Bool
@P_named z = list_any (int_eq z) (@5[])

-- each value can be written
abbrev pub @P_allowed : @N → Type 0
@P_allowed v = Unit {0}

pub @P_writable : (v : @N) → @P_allowed v ↔ (FitsSigned w64 (@P_number v) × (@P_named (@P_number v) ≡ true))
@4
-- values with the number of a value are equal to it
pub @P_detects : (d : @N) → DetectsDefault (λ v w. @P_number v ≡ @P_number w) (λ v. int_eq (@P_number v) (@P_number d)) d
@P_detects d v = Decides-int_eq (@P_number v) (@P_number d)
";

/// The specs of an extensible enum, whose last variant has any other number.
pub static OPEN_ENUMERATION_SPECS: &str = "-- The numbers of `@a`.
use Rattle.std.proofs.Common.{◌≡◌, ℤ, Bool, true, pos, negsuc, refl, FitsSigned}
use Rattle.std.specs.Prelude.{◌↔◌}
use Rattle.std.specs.Int.{w64}
use Rattle.std.specs.Ordering.{int_eq}
use Rattle.std.proofs.lemmas.Bool.Decides.{Decides-int_eq}
use Rattle.yasna_base.specs.Default.{DetectsDefault}
use Rattle.@K.specs.declared.@F.@N.{@N}
use Rattle.@K.specs.declared.@F.@N.TheVariants.{@G}

-- the number of each; one that the module doesn't name holds its number
abbrev pub @P_number : @N → ℤ
@3
-- each number is that of a value
abbrev pub @P_named : ℤ → Bool
@P_named z = true

abbrev pub @P_allowed : @N → Type 0
@P_allowed v = FitsSigned w64 (@P_number v)

pub @P_writable : (v : @N) → @P_allowed v ↔ (FitsSigned w64 (@P_number v) × (@P_named (@P_number v) ≡ true))
@P_writable v = (λ f. (f, refl), λ x. x.0)

-- values with the number of a value are equal to it
pub @P_detects : (d : @N) → DetectsDefault (λ v w. @P_number v ≡ @P_number w) (λ v. int_eq (@P_number v) (@P_number d)) d
@P_detects d v = Decides-int_eq (@P_number v) (@P_number d)
";
