//! What each notation is called, and how the terms of its laws are made: texts with marks.
//!
//! | Mark | Represents |
//! |---|---|
//! | `@` | the text of what is inside the notation |
//! | `#`, `%` | the first number and the second, as Rust writes them |
//! | `^`, `~` | the same as integers of a clause |

/// How a notation is written, around what is inside it.
pub struct Form {
    /// The notation.
    pub notation: &'static str,
    /// The type of its values.
    pub value: &'static str,
    /// The term of its law.
    pub law: &'static str,
    /// The term of its law of writing, or nothing without one.
    pub written: &'static str,
    /// The term that says that no encoding is empty, or nothing if it is that of what is inside.
    pub non_empty: &'static str,
}

// What says that an element isn't empty.
const ELEMENT: &str = "(λ n w. element_non_empty _ _ _ _)";

/// BOOLEAN.
pub static BOOLEAN: Form = Form {
    notation: "bool",
    value: "bool",
    law: "(flag_law refl)",
    written: "(flag_written refl)",
    non_empty: "(flag_non_empty _)",
};

/// NULL.
pub static NULL: Form = Form {
    notation: "()",
    value: "()",
    law: "(null_law refl)",
    written: "(null_written refl)",
    non_empty: "(null_non_empty _)",
};

/// INTEGER of any size.
pub static BIG_INTEGER: Form = Form {
    notation: "BigInteger",
    value: "(Vec<u8>, bool)",
    law: "(big_law refl)",
    written: "(big_written refl)",
    non_empty: "(big_non_empty _)",
};

/// INTEGER of 64 bits with a sign.
pub static INT64: Form = Form {
    notation: "i64",
    value: "i64",
    law: "(int64_law refl)",
    written: "(int64_written refl)",
    non_empty: "(int64_non_empty _)",
};

/// INTEGER of 32 bits with a sign.
pub static INT32: Form = Form {
    notation: "i32",
    value: "i32",
    law: "(int32_law refl)",
    written: "(int32_written refl)",
    non_empty: "(int32_non_empty _)",
};

/// INTEGER of 64 bits that is not negative.
pub static NUMBER64: Form = Form {
    notation: "u64",
    value: "u64",
    law: "(number_law refl)",
    written: "(number_written refl)",
    non_empty: "(number_non_empty _)",
};

/// INTEGER of 32 bits that is not negative.
pub static NUMBER32: Form = Form {
    notation: "u32",
    value: "u32",
    law: "(number32_law refl)",
    written: "(number32_written refl)",
    non_empty: "(number32_non_empty _)",
};

/// OBJECT IDENTIFIER.
pub static OBJECT_IDENTIFIER: Form = Form {
    notation: "ObjectIdentifier",
    value: "ObjectIdentifier",
    law: "(oid_law refl)",
    written: "(oid_written refl)",
    non_empty: "(oid_non_empty _)",
};

/// OCTET STRING.
pub static OCTETS: Form = Form {
    notation: "Vec<u8>",
    value: "Vec<u8>",
    law: "(octets_law refl)",
    written: "(octets_written refl)",
    non_empty: "(octets_non_empty _)",
};

/// BIT STRING.
pub static BITS: Form = Form {
    notation: "BitString",
    value: "(Vec<u8>, usize)",
    law: "(bits_law refl)",
    written: "",
    non_empty: "(bits_non_empty _)",
};

/// BIT STRING with named bits.
pub static NAMED_BITS: Form = Form {
    notation: "NamedBits",
    value: "(Vec<u8>, usize)",
    law: "(named_bits_law refl)",
    written: "",
    non_empty: "(named_bits_non_empty _)",
};

/// UTF8String.
pub static UTF8: Form = Form {
    notation: "String",
    value: "String",
    law: "(text_law refl)",
    written: "(text_written refl)",
    non_empty: "(text_non_empty _)",
};

/// NumericString.
pub static NUMERIC: Form = Form {
    notation: "NumericString",
    value: "String",
    law: "(numeric_law refl)",
    written: "(numeric_written refl)",
    non_empty: "(numeric_non_empty _)",
};

/// PrintableString.
pub static PRINTABLE: Form = Form {
    notation: "PrintableString",
    value: "String",
    law: "(printable_law refl)",
    written: "(printable_written refl)",
    non_empty: "(printable_non_empty _)",
};

/// IA5String.
pub static IA5: Form = Form {
    notation: "Ia5String",
    value: "String",
    law: "(ia5_law refl)",
    written: "(ia5_written refl)",
    non_empty: "(ia5_non_empty _)",
};

/// VisibleString.
pub static VISIBLE: Form = Form {
    notation: "VisibleString",
    value: "String",
    law: "(visible_law refl)",
    written: "(visible_written refl)",
    non_empty: "(visible_non_empty _)",
};

/// BMPString.
pub static BMP: Form = Form {
    notation: "BmpString",
    value: "String",
    law: "(bmp_law refl)",
    written: "(bmp_written refl)",
    non_empty: "(bmp_non_empty _)",
};

/// UTCTime.
pub static UTC_TIME: Form = Form {
    notation: "UTCTime",
    value: "UTCTime",
    law: "(utc_law refl)",
    written: "(utc_written refl)",
    non_empty: "(utc_non_empty _)",
};

/// GeneralizedTime.
pub static GENERALIZED_TIME: Form = Form {
    notation: "GeneralizedTime",
    value: "GeneralizedTime",
    law: "(general_law refl)",
    written: "(general_written refl)",
    non_empty: "(general_non_empty _)",
};

/// Any element.
pub static ANY: Form = Form {
    notation: "TaggedDerValue",
    value: "TaggedDerValue",
    law: "(any_law refl)",
    written: "",
    non_empty: "(any_non_empty _)",
};

/// Any element with a tag that no class is written before.
pub static ANY_UNDER_CONTEXT: Form = Form {
    notation: "AnyUnder<Context<#>>",
    value: "TaggedDerValue",
    law: "(any_under_lawful (context #))",
    written: "",
    non_empty: "(any_non_empty _)",
};

/// Any element with a tag of the class APPLICATION.
pub static ANY_UNDER_APPLICATION: Form = Form {
    notation: "AnyUnder<Application<#>>",
    value: "TaggedDerValue",
    law: "(any_under_lawful (application #))",
    written: "",
    non_empty: "(any_non_empty _)",
};

/// Any element with a tag of the class PRIVATE.
pub static ANY_UNDER_PRIVATE: Form = Form {
    notation: "AnyUnder<Private<#>>",
    value: "TaggedDerValue",
    law: "(any_under_lawful (private #))",
    written: "",
    non_empty: "(any_non_empty _)",
};

/// Any element with a tag of the class UNIVERSAL.
pub static ANY_UNDER_UNIVERSAL: Form = Form {
    notation: "AnyUnder<Universal<#>>",
    value: "TaggedDerValue",
    law: "(any_under_lawful (universal #))",
    written: "",
    non_empty: "(any_non_empty _)",
};

/// INTEGER from 0 to the second number.
pub static AT_MOST: Form = Form {
    notation: "Bounded<u64, AtMost<%>>",
    value: "u64",
    law: "(at_most % (number_law refl))",
    written: "(at_most_written % (number_written refl))",
    non_empty: "(number_non_empty _)",
};

/// INTEGER between two numbers that are not negative.
pub static NUMBER_FROM_TO: Form = Form {
    notation: "Bounded<u64, FromTo<#, %>>",
    value: "u64",
    law: "(in_bound (from_to # %) (number_law refl))",
    written: "(bound_written (from_to # %) (number_written refl))",
    non_empty: "(number_non_empty _)",
};

/// INTEGER of one number.
pub static EXACT_NUMBER: Form = Form {
    notation: "Bounded<u64, Exactly<#>>",
    value: "u64",
    law: "(in_bound (exactly #) (number_law refl))",
    written: "(bound_written (exactly #) (number_written refl))",
    non_empty: "(number_non_empty _)",
};

/// INTEGER between two numbers of 64 bits.
pub static SIGNED_FROM_TO: Form = Form {
    notation: "Bounded<i64, IntegerFromTo<#, %>>",
    value: "i64",
    law: "(in_bound (between ^ ~) (int64_law refl))",
    written: "(bound_written (between ^ ~) (int64_written refl))",
    non_empty: "(int64_non_empty _)",
};

/// INTEGER from a number on.
pub static INTEGER_FROM: Form = Form {
    notation: "Bounded<BigInteger, IntegerFrom<#>>",
    value: "(Vec<u8>, bool)",
    law: "(within_lawful (λ v. int_le ^ (twos v.0.items)) (λ v w e. passes_alike (int_le ^) (same_number (big_integer_in v) (big_integer_in w) e)) (big_law refl))",
    written: "(bounded_written (λ v. int_le ^ (twos v.0.items)) (λ v w e. passes_alike (int_le ^) (same_number (big_integer_in v) (big_integer_in w) e)) (big_written refl))",
    non_empty: "(big_non_empty _)",
};

/// INTEGER up to a number.
pub static INTEGER_UP_TO: Form = Form {
    notation: "Bounded<BigInteger, IntegerUpTo<%>>",
    value: "(Vec<u8>, bool)",
    law: "(within_lawful (λ v. int_le (twos v.0.items) ~) (λ v w e. passes_alike (λ z. int_le z ~) (same_number (big_integer_in v) (big_integer_in w) e)) (big_law refl))",
    written: "(bounded_written (λ v. int_le (twos v.0.items) ~) (λ v w e. passes_alike (λ z. int_le z ~) (same_number (big_integer_in v) (big_integer_in w) e)) (big_written refl))",
    non_empty: "(big_non_empty _)",
};

/// A type under a tag of the class without a name, EXPLICIT.
pub static EXPLICIT_CONTEXT: Form = Form {
    notation: "Explicit<Context<#>, @>",
    value: "@",
    law: "(in_explicit # (omega arith) @.own)",
    written: "(explicit_written @.own # (omega arith))",
    non_empty: ELEMENT,
};

/// A type under a tag of the class APPLICATION, EXPLICIT.
pub static EXPLICIT_APPLICATION: Form = Form {
    notation: "Explicit<Application<#>, @>",
    value: "@",
    law: "(explicit_application # (omega arith) @.own)",
    written: "(explicit_application_written @.own # (omega arith))",
    non_empty: ELEMENT,
};

/// A type under a tag of the class PRIVATE, EXPLICIT.
pub static EXPLICIT_PRIVATE: Form = Form {
    notation: "Explicit<Private<#>, @>",
    value: "@",
    law: "(explicit_private # (omega arith) @.own)",
    written: "(explicit_private_written @.own # (omega arith))",
    non_empty: ELEMENT,
};

/// A type under a tag of the class without a name, IMPLICIT.
pub static IMPLICIT_CONTEXT: Form = Form {
    notation: "Implicit<Context<#>, @>",
    value: "@",
    law: "(in_implicit # (omega arith) @)",
    written: "(under_context # (omega arith) @)",
    non_empty: "",
};

/// A type under a tag of the class APPLICATION, IMPLICIT.
pub static IMPLICIT_APPLICATION: Form = Form {
    notation: "Implicit<Application<#>, @>",
    value: "@",
    law: "(in_application # (omega arith) @)",
    written: "(under_application # (omega arith) @)",
    non_empty: "",
};

/// A type under a tag of the class PRIVATE, IMPLICIT.
pub static IMPLICIT_PRIVATE: Form = Form {
    notation: "Implicit<Private<#>, @>",
    value: "@",
    law: "(in_private # (omega arith) @)",
    written: "(under_private # (omega arith) @)",
    non_empty: "",
};

/// A type under a tag of the class UNIVERSAL, IMPLICIT.
pub static IMPLICIT_UNIVERSAL: Form = Form {
    notation: "Implicit<Universal<#>, @>",
    value: "@",
    law: "(in_universal # (λ e. omega arith) (omega arith) @)",
    written: "(under_universal # (λ e. omega arith) (omega arith) @)",
    non_empty: "",
};

/// Octets under a tag of the class UNIVERSAL.
pub static OCTETS_UNDER: Form = Form {
    notation: "Implicit<Universal<#>, Vec<u8>>",
    value: "Vec<u8>",
    law: "(in_universal # (λ e. omega arith) (omega arith) (octets_law refl))",
    written: "(under_universal # (λ e. omega arith) (omega arith) (octets_written refl))",
    non_empty: "(octets_non_empty _)",
};

/// Elements under a tag of the class UNIVERSAL.
pub static ELEMENTS_UNDER: Form = Form {
    notation: "Implicit<Universal<#>, SequenceOf<TaggedDerValue>>",
    value: "Vec<TaggedDerValue>",
    law: "(in_universal # (λ e. omega arith) (omega arith) (in_sequence_of (any_law refl).own))",
    written: "",
    non_empty: ELEMENT,
};

/// SEQUENCE OF.
pub static SEQUENCE_OF: Form = Form {
    notation: "SequenceOf<@>",
    value: "Vec<@>",
    law: "(in_sequence_of @.own)",
    written: "(sequence_of_written @.own)",
    non_empty: ELEMENT,
};

/// SET OF.
pub static SET_OF: Form = Form {
    notation: "SetOf<@>",
    value: "Vec<@>",
    law: "(in_set_of @.own)",
    written: "(set_of_written @.own)",
    non_empty: ELEMENT,
};

/// A SEQUENCE OF with an item.
pub static NOT_EMPTY: Form = Form {
    notation: "Bounded<@, NotEmpty>",
    value: "@",
    law: "(not_empty @)",
    written: "(non_empty_list_written @)",
    non_empty: "",
};

/// A SET OF with an item.
pub static SET_NOT_EMPTY: Form = Form {
    notation: "Bounded<@, NotEmpty>",
    value: "@",
    law: "(set_not_empty @)",
    written: "(non_empty_set_written @)",
    non_empty: "",
};

/// SEQUENCE OF of one size.
pub static LIST_SIZE_IS: Form = Form {
    notation: "Bounded<@, SizeIs<#>>",
    value: "@",
    law: "(list_sized (exactly #) @)",
    written: "(list_sized_written (exactly #) @)",
    non_empty: "",
};

/// SEQUENCE OF of a size or more.
pub static LIST_SIZE_FROM: Form = Form {
    notation: "Bounded<@, SizeFrom<#>>",
    value: "@",
    law: "(list_sized (from_on #) @)",
    written: "(list_sized_written (from_on #) @)",
    non_empty: "",
};

/// SEQUENCE OF of a size between two others.
pub static LIST_SIZE_FROM_TO: Form = Form {
    notation: "Bounded<@, SizeFromTo<#, %>>",
    value: "@",
    law: "(list_sized (from_to # %) @)",
    written: "(list_sized_written (from_to # %) @)",
    non_empty: "",
};

/// SET OF of one size.
pub static SET_SIZE_IS: Form = Form {
    notation: "Bounded<@, SizeIs<#>>",
    value: "@",
    law: "(set_sized (exactly #) @)",
    written: "(set_sized_written (exactly #) @)",
    non_empty: "",
};

/// SET OF of a size or more.
pub static SET_SIZE_FROM: Form = Form {
    notation: "Bounded<@, SizeFrom<#>>",
    value: "@",
    law: "(set_sized (from_on #) @)",
    written: "(set_sized_written (from_on #) @)",
    non_empty: "",
};

/// SET OF of a size between two others.
pub static SET_SIZE_FROM_TO: Form = Form {
    notation: "Bounded<@, SizeFromTo<#, %>>",
    value: "@",
    law: "(set_sized (from_to # %) @)",
    written: "(set_sized_written (from_to # %) @)",
    non_empty: "",
};

/// OCTET STRING of one size.
pub static OCTETS_SIZE_IS: Form = Form {
    notation: "Bounded<@, SizeIs<#>>",
    value: "@",
    law: "(octets_sized (exactly #) @)",
    written: "(octets_sized_written (exactly #) @)",
    non_empty: "",
};

/// OCTET STRING of a size or more.
pub static OCTETS_SIZE_FROM: Form = Form {
    notation: "Bounded<@, SizeFrom<#>>",
    value: "@",
    law: "(octets_sized (from_on #) @)",
    written: "(octets_sized_written (from_on #) @)",
    non_empty: "",
};

/// OCTET STRING of a size between two others.
pub static OCTETS_SIZE_FROM_TO: Form = Form {
    notation: "Bounded<@, SizeFromTo<#, %>>",
    value: "@",
    law: "(octets_sized (from_to # %) @)",
    written: "(octets_sized_written (from_to # %) @)",
    non_empty: "",
};

/// BIT STRING of one size.
pub static BITS_SIZE_IS: Form = Form {
    notation: "Bounded<@, SizeIs<#>>",
    value: "@",
    law: "(within_lawful (λ v. exactly # v.1) (λ v w e. passes_alike (exactly #) (bit_sizes (bits_in v) (bits_in w) e)) @)",
    written: "",
    non_empty: "",
};

/// BIT STRING of a size or more.
pub static BITS_SIZE_FROM: Form = Form {
    notation: "Bounded<@, SizeFrom<#>>",
    value: "@",
    law: "(within_lawful (λ v. from_on # v.1) (λ v w e. passes_alike (from_on #) (bit_sizes (bits_in v) (bits_in w) e)) @)",
    written: "",
    non_empty: "",
};

/// BIT STRING of a size between two others.
pub static BITS_SIZE_FROM_TO: Form = Form {
    notation: "Bounded<@, SizeFromTo<#, %>>",
    value: "@",
    law: "(within_lawful (λ v. from_to # % v.1) (λ v w e. passes_alike (from_to # %) (bit_sizes (bits_in v) (bits_in w) e)) @)",
    written: "",
    non_empty: "",
};

/// A string of one size.
pub static TEXT_SIZE_IS: Form = Form {
    notation: "Bounded<@, SizeIs<#>>",
    value: "@",
    law: "(within_lawful (λ v. exactly # (length (characters v))) (λ v w e. passes_alike (exactly #) (ap length e)) @)",
    written: "(bounded_written (λ v. exactly # (length (characters v))) (λ v w e. passes_alike (exactly #) (ap length e)) @)",
    non_empty: "",
};

/// A string of a size or more.
pub static TEXT_SIZE_FROM: Form = Form {
    notation: "Bounded<@, SizeFrom<#>>",
    value: "@",
    law: "(within_lawful (λ v. from_on # (length (characters v))) (λ v w e. passes_alike (from_on #) (ap length e)) @)",
    written: "(bounded_written (λ v. from_on # (length (characters v))) (λ v w e. passes_alike (from_on #) (ap length e)) @)",
    non_empty: "",
};

/// A string of a size between two others.
pub static TEXT_SIZE_FROM_TO: Form = Form {
    notation: "Bounded<@, SizeFromTo<#, %>>",
    value: "@",
    law: "(within_lawful (λ v. from_to # % (length (characters v))) (λ v w e. passes_alike (from_to # %) (ap length e)) @)",
    written: "(bounded_written (λ v. from_to # % (length (characters v))) (λ v w e. passes_alike (from_to # %) (ap length e)) @)",
    non_empty: "",
};
