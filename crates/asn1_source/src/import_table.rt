//! The names that sources bring in: a path and its names in each line.
//!
//! A name is brought in where its word is in a source. The word is the name, or what the name gets after `=`, or what is before `>`. After
//! `*` it is brought in by all sources.

/// The names in clauses.
pub static CLAUSE_IMPORTS: &str = "\
Rattle.std.specs.Prelude: *◌≡◌ *◌↔◌ *IsTrue Some int_le length nat_eq negsuc not pos false true refl
Rattle.std.specs.Ordering: int_eq
Rattle.std.specs.Str: bytes_eq chars
Rattle.std.proofs.Common: ap arith
Rattle.yasna_base.specs.Integer: twos
Rattle.yasna_base.specs.Text: characters
Rattle.yasna_base.proofs.Canonical: written_along
Rattle.yasna_base.proofs.Coding: equal_same
Rattle.yasna_base.proofs.Default: default_alike default_written
Rattle.yasna_bytes.specs.Contents: big_integer_in
Rattle.yasna_bytes.specs.Segments: bits_in
Rattle.yasna_notation.specs.Bounded: passes_alike within_lawful
Rattle.yasna_notation.specs.Canonical: bounded_written choice_written_as last_part_writes represented_written
Rattle.yasna_notation.specs.Laws: element_non_empty octets_of raw_non_empty represented_lawful
Rattle.yasna_notation.specs.Making: alternative at_most default_part exactly from_to in_application in_bound in_choice
Rattle.yasna_notation.specs.Making: in_explicit in_implicit in_sequence in_sequence_of in_set_of list_sized not_empty octets_sized
Rattle.yasna_notation.specs.Making: application context optional_part part set_not_empty set_sized tag_or
Rattle.yasna_base.specs.Identifier: universal
Rattle.yasna_notation_types.specs.Tags: private
Rattle.yasna_notation.specs.Notation: represented_by
Rattle.yasna_notation.specs.Parts: detects_false detects_number last_part_laws no_parts represented_parts
Rattle.yasna_notation.specs.Writing: alternative_written at_most_written bound_written explicit_written list_sized_written no_part_written
Rattle.yasna_notation.specs.Writing: non_empty_list_written non_empty_set_written octets_sized_written optional_written part_written
Rattle.yasna_notation.specs.Writing: sequence_of_written sequence_written set_of_written set_sized_written under_application under_context
Rattle.yasna_notation.specs.declared.choices.Either.TheVariants: First Second
Rattle.yasna_notation_constraints.specs.Defaults: detects_integer detects_true
Rattle.yasna_notation_constraints.specs.Numbers: between same_number
Rattle.yasna_notation_constraints.specs.OrDefault: or_default_laws or_default_writes
Rattle.yasna_notation_constraints.specs.Sizes: bit_sizes from_on
Rattle.yasna_notation_constraints.specs.TestedDefaults: one_list one_seen
Rattle.yasna_notation_types.specs.AnyUnder: any_under_lawful
Rattle.yasna_notation_types.specs.EmptyLists: is_empty_list one_empty_sequence one_empty_set
Rattle.yasna_notation_types.specs.Making: explicit_application explicit_application_written explicit_private explicit_private_written
Rattle.yasna_notation_types.specs.Making: in_private in_universal under_private under_universal
Rattle.yasna_notation_types.specs.Named: named_lawful named_written
Rattle.yasna_notation_types.specs.OpenChoice: any_lawful open_lawful
Rattle.yasna_notation_types.specs.Others: other_may others_laws others_within possible possible_default possible_default_begins possible_may
Rattle.yasna_notation_types.specs.Others: possible_within
Rattle.yasna_notation_types.specs.Rest: rest_laws
Rattle.yasna_notation_types.specs.TestedBits: is_bit_string one_bits
Rattle.yasna_notation_types.specs.SetParts: no_set_parts represented_set_parts set_lawful set_option set_or_default set_part set_with_default set_writes
Rattle.yasna_notation.specs.contracts.simple.BoolNotation.TheImpl.Laws: lawful-law=flag_law non_empty-law=flag_non_empty
Rattle.yasna_notation.specs.contracts.canonical.BoolCanonicalNotation.TheImpl.Laws: written-law=flag_written
Rattle.yasna_notation.specs.contracts.simple.UnitNotation.TheImpl.Laws: lawful-law=null_law non_empty-law=null_non_empty
Rattle.yasna_notation.specs.contracts.canonical.UnitCanonicalNotation.TheImpl.Laws: written-law=null_written
Rattle.yasna_notation.specs.contracts.simple.I64Notation.TheImpl.Laws: lawful-law=int64_law non_empty-law=int64_non_empty
Rattle.yasna_notation.specs.contracts.canonical.I64CanonicalNotation.TheImpl.Laws: written-law=int64_written
Rattle.yasna_notation.specs.contracts.simple.I32Notation.TheImpl.Laws: lawful-law=int32_law non_empty-law=int32_non_empty
Rattle.yasna_notation.specs.contracts.canonical.I32CanonicalNotation.TheImpl.Laws: written-law=int32_written
Rattle.yasna_notation.specs.contracts.simple.U64Notation.TheImpl.Laws: lawful-law=number_law non_empty-law=number_non_empty
Rattle.yasna_notation.specs.contracts.canonical.U64CanonicalNotation.TheImpl.Laws: written-law=number_written
Rattle.yasna_notation.specs.contracts.simple.U32Notation.TheImpl.Laws: lawful-law=number32_law non_empty-law=number32_non_empty
Rattle.yasna_notation.specs.contracts.canonical.U32CanonicalNotation.TheImpl.Laws: written-law=number32_written
Rattle.yasna_notation.specs.contracts.simple.BigIntegerNotation.TheImpl.Laws: lawful-law=big_law non_empty-law=big_non_empty
Rattle.yasna_notation.specs.contracts.canonical.BigIntegerCanonicalNotation.TheImpl.Laws: written-law=big_written
Rattle.yasna_notation.specs.contracts.simple.EnumeratedNotation.TheImpl.Laws: lawful-law=enumerated_law non_empty-law=enumerated_non_empty
Rattle.yasna_notation.specs.contracts.canonical.EnumeratedCanonicalNotation.TheImpl.Laws: written-law=enumerated_written
Rattle.yasna_notation.specs.contracts.simple.ObjectIdentifierNotation.TheImpl.Laws: lawful-law=oid_law non_empty-law=oid_non_empty
Rattle.yasna_notation.specs.contracts.canonical.ObjectIdentifierCanonicalNotation.TheImpl.Laws: written-law=oid_written
Rattle.yasna_notation.specs.contracts.strings.VecU8Notation.TheImpl.Laws: lawful-law=octets_law non_empty-law=octets_non_empty
Rattle.yasna_notation.specs.contracts.canonical.VecU8CanonicalNotation.TheImpl.Laws: written-law=octets_written
Rattle.yasna_notation.specs.contracts.strings.BitStringNotation.TheImpl.Laws: lawful-law=bits_law non_empty-law=bits_non_empty
Rattle.yasna_notation.specs.contracts.strings.StringNotation.TheImpl.Laws: lawful-law=text_law non_empty-law=text_non_empty
Rattle.yasna_notation.specs.contracts.canonical.StringCanonicalNotation.TheImpl.Laws: written-law=text_written
Rattle.yasna_notation.specs.contracts.strings.PrintableStringNotation.TheImpl.Laws: lawful-law=printable_law
Rattle.yasna_notation.specs.contracts.strings.PrintableStringNotation.TheImpl.Laws: non_empty-law=printable_non_empty
Rattle.yasna_notation.specs.contracts.canonical.PrintableStringCanonicalNotation.TheImpl.Laws: written-law=printable_written
Rattle.yasna_notation.specs.contracts.strings.Ia5StringNotation.TheImpl.Laws: lawful-law=ia5_law non_empty-law=ia5_non_empty
Rattle.yasna_notation.specs.contracts.canonical.Ia5StringCanonicalNotation.TheImpl.Laws: written-law=ia5_written
Rattle.yasna_notation.specs.contracts.strings.NumericStringNotation.TheImpl.Laws: lawful-law=numeric_law non_empty-law=numeric_non_empty
Rattle.yasna_notation.specs.contracts.canonical.NumericStringCanonicalNotation.TheImpl.Laws: written-law=numeric_written
Rattle.yasna_notation.specs.contracts.strings.VisibleStringNotation.TheImpl.Laws: lawful-law=visible_law non_empty-law=visible_non_empty
Rattle.yasna_notation.specs.contracts.canonical.VisibleStringCanonicalNotation.TheImpl.Laws: written-law=visible_written
Rattle.yasna_notation.specs.contracts.times.UTCTimeNotation.TheImpl.Laws: lawful-law=utc_law non_empty-law=utc_non_empty
Rattle.yasna_notation.specs.contracts.canonical.UTCTimeCanonicalNotation.TheImpl.Laws: written-law=utc_written
Rattle.yasna_notation.specs.contracts.times.GeneralizedTimeNotation.TheImpl.Laws: lawful-law=general_law non_empty-law=general_non_empty
Rattle.yasna_notation.specs.contracts.canonical.GeneralizedTimeCanonicalNotation.TheImpl.Laws: written-law=general_written
Rattle.yasna_notation.specs.contracts.any.TaggedDerValueNotation.TheImpl.Laws: lawful-law=any_law non_empty-law=any_non_empty
Rattle.yasna_notation_types.specs.contracts.named_bits.NamedBitsNotation.TheImpl.Laws: lawful-law=named_bits_law
Rattle.yasna_notation_types.specs.contracts.named_bits.NamedBitsNotation.TheImpl.Laws: non_empty-law=named_bits_non_empty
Rattle.yasna_notation_types.specs.contracts.bmp_string.BmpStringNotation.TheImpl.Laws: lawful-law=bmp_law non_empty-law=bmp_non_empty
Rattle.yasna_notation_types.specs.contracts.bmp_string.BmpStringCanonicalNotation.TheImpl.Laws: written-law=bmp_written
";

/// The names in code.
pub static CODE_IMPORTS: &str = "\
yasna::models: GeneralizedTime ObjectIdentifier TaggedDerValue UTCTime
yasna: ASN1Result BERMode BERReader BERReaderSeq BERReaderSet DERWriter DERWriterSeq PrependBuffer Tag TagClass
yasna_notation::Either: First Second
yasna_notation: Alternatives Application AtMost BigInteger BitString Bounded CanonicalAlternatives CanonicalNotation CanonicalParts Choice Context Default DefaultValue Either
yasna_notation: Enumerated Exactly Explicit False FromTo Ia5String Implicit Last Message NotEmpty Notation NumericString Optional
yasna_notation: PartsBy>Parts PartsBy PrintableString Represents Sequence SequenceOf SetOf VisibleString read_as read_parts_as
yasna_notation_constraints: Checked CheckedBy Identifier=TestedIdentifier IdentifierValue IntegerFrom IntegerFromTo IntegerUpTo Natural
yasna_notation_constraints: Octets=TestedOctets OctetsValue OrDefault Signed SizeFrom SizeFromTo SizeIs TestedDefault Text=TestedText TextValue True Unset
yasna_notation_constraints: accepts_fields
yasna_notation_types: AnyUnder Bits=TestedBits BitsValue BmpString EmptyList Named NamedBits Numbered OpenChoice Others Possible PossibleDefault Private
yasna_notation_types: Rest Set SetPart SetParts Universal has_no_items
yasna_notation_types: explicit_fields_len implicit_fields_len prepend_explicit_fields prepend_implicit_fields read_part read_set_parts_as write_explicit_fields
yasna_notation_types: write_implicit_fields
";
