//! What `asn1_source` writes for the types of modules.

use asn1_source::{
    Export, ModuleSource, SourceFile, known_names, known_types, list_of, mutants_of, names_of,
    reached, source_of, sources_of, tests_of,
};
use asn1_syntax::parse;
use asn1_syntax::tree::Module;
use asn1_types::model::Resolved;
use asn1_types::resolve_incomplete;
use std::alloc::{AllocError, Global};
use std::process::Abort;

/// A module, a file of its crate, and lines in that file. The file `list` is a line for each type.
type Row = (&'static [u8], &'static str, &'static str);

// A CHOICE: why no encoding of an alternative that is EXPLICIT or a list is empty. An alternative has the name of a type without a file.
static CHOICES: [Row; 2] = [
    (
        b"M DEFINITIONS IMPLICIT TAGS ::= BEGIN Pick ::= CHOICE { flag [0] EXPLICIT BOOLEAN, names SEQUENCE OF UTF8String, size [1] INTEGER, none NULL } END",
        "src/pick.rt",
        "      | Flag x ↦ element_non_empty _ _ _ _\n      | Names x ↦ element_non_empty _ _ _ _\n      | Size x ↦ (big_non_empty (Some (tag_or u (context 1)))) m x\n      | NoneVariant ↦ (null_non_empty u) m tt\n    ] };\n",
    ),
    (
        b"M DEFINITIONS ::= BEGIN Count ::= INTEGER Pick ::= CHOICE { count Count, name UTF8String } END",
        "src/pick.rt",
        "\n\nuse yasna::{ASN1Result",
    ),
];

// Names that others have: that of what another type has in a file of its own, and those of specs.
static NAMES: [Row; 9] = [
    (
        b"M DEFINITIONS AUTOMATIC TAGS ::= BEGIN Foo ::= SEQUENCE { a NULL, b NULL, c NULL, d NULL, e NULL, f NULL, g NULL } Foo-Parts2 ::= SEQUENCE { a NULL } END",
        "src/foo_parts2_type.rt",
        "pub struct FooParts2Type {\n",
    ),
    (
        b"M DEFINITIONS ::= BEGIN Foo ::= [1] CHOICE { a NULL } FooUntagged ::= SEQUENCE { a NULL } END",
        "src/lib.rt",
        "mod foo;\nmod foo_untagged;\nmod foo_untagged_type;\n",
    ),
    (
        b"M DEFINITIONS ::= BEGIN Kind ::= ENUMERATED { a } Box ::= SEQUENCE { kind Kind DEFAULT a, more KindDefault } KindDefault ::= SEQUENCE { a NULL } END",
        "src/box_type.rt",
        "    pub more: KindDefaultType,\n",
    ),
    (
        b"M DEFINITIONS ::= BEGIN Yasna-Notation ::= SEQUENCE { a NULL } END",
        "src/yasna_notation_type.rt",
        "pub struct YasnaNotation {\n",
    ),
    (
        b"M DEFINITIONS ::= BEGIN Kind ::= ENUMERATED { kind, list, other } END",
        "specs/Kind.antt",
        "TheVariants.{Kind as KindVariant, List as ListVariant, Other}\n",
    ),
    (
        b"M DEFINITIONS ::= BEGIN Kind ::= ENUMERATED { kind, list, other } END",
        "specs/Kind.antt",
        "kind_number KindVariant = (pos 0)\nkind_number ListVariant = (pos 1)\nkind_number Other = (pos 2)\n",
    ),
    (
        b"M DEFINITIONS ::= BEGIN Pick ::= CHOICE { type NULL, name UTF8String } END",
        "src/pick.rt",
        "TheVariants.{«Type» as TypeVariant, Name};\n",
    ),
    (
        b"M DEFINITIONS ::= BEGIN Package ::= SEQUENCE { module NULL } END",
        "src/package_type.rt",
        "pub struct Package {\n    pub the_module: (),\n}\n",
    ),
    (
        b"M DEFINITIONS ::= BEGIN Answer ::= SEQUENCE { result NULL, gen NULL } END",
        "src/answer.rt",
        "pub struct Answer {\n    pub the_result: (),\n    pub the_gen: (),\n}\n",
    ),
];

// Names that the sources or specs bring in, that of the crate, and those that a number would make the name of what another type has in a file.
static TAKEN_NAMES: [Row; 8] = [
    (
        b"M DEFINITIONS ::= BEGIN Size-Is ::= SEQUENCE { a NULL } True ::= SEQUENCE { a NULL } Unset ::= SEQUENCE { a NULL } END",
        "src/lib.rt",
        "pub use size_is::SizeIsType;\npub use true_type::TrueType;\npub use unset::UnsetType;\n",
    ),
    (
        b"M DEFINITIONS ::= BEGIN Visible-String ::= SEQUENCE { a VisibleString } Host-Runtime ::= SEQUENCE { a NULL } Kind-DefaultValue ::= SEQUENCE { a NULL } END",
        "src/lib.rt",
        "pub use host_runtime::HostRuntimeType;\npub use kind_default_value::KindDefaultValueType;\npub use visible_string::VisibleStringType;\n",
    ),
    (
        b"M DEFINITIONS ::= BEGIN NonEmptyList ::= SEQUENCE { a NULL } Visible ::= SEQUENCE { a NULL } END",
        "src/lib.rt",
        "mod non_empty_list_type;\nmod visible_type;\n",
    ),
    (
        b"M DEFINITIONS ::= BEGIN Bool ::= ENUMERATED { a } Lib ::= ENUMERATED { a } Unit ::= ENUMERATED { a } END",
        "specs/Lib.antt",
        "pub mod BoolType\npub mod LibType\npub mod UnitType\n",
    ),
    (
        b"M DEFINITIONS ::= BEGIN Sample ::= SEQUENCE { a NULL } END",
        "src/lib.rt",
        "mod sample2;\n\npub use sample2::Sample;\n",
    ),
    (
        b"M DEFINITIONS ::= BEGIN Foo-Parts ::= SEQUENCE { a NULL } FooParts ::= SEQUENCE { a NULL } END",
        "src/lib.rt",
        "pub use foo_parts::FooParts;\npub use foo_parts_type::FooPartsType;\n",
    ),
    (
        b"M DEFINITIONS ::= BEGIN Pick ::= CHOICE { list NULL, listVariant BOOLEAN } END",
        "src/pick.rt",
        "TheVariants.{List as ListVariant2, ListVariant};\n",
    ),
    (
        b"M DEFINITIONS ::= BEGIN Kind ::= ENUMERATED { list, listVariant } END",
        "specs/Kind.antt",
        "kind_number ListVariant2 = (pos 0)\nkind_number ListVariant = (pos 1)\n",
    ),
];

// Constants that Rust writes in another way than the module: quotation marks, ends of lines, and a number that no `i64` holds.
static CONSTANTS: [Row; 2] = [
    (
        b"M DEFINITIONS ::= BEGIN text UTF8String ::= \" a\"\"b\\c  \n  d \" END",
        "src/constants.rt",
        "pub const TEXT: &str = \" a\\\"b\\\\cd \";\n",
    ),
    (
        b"M DEFINITIONS ::= BEGIN low INTEGER ::= -9223372036854775808 lower INTEGER ::= -9223372036854775809 END",
        "src/constants.rt",
        "pub const LOW: i64 = -9223372036854775808;\n\n/// `lower`.\npub const LOWER: i128 = -9223372036854775809;\n",
    ),
];

// Constants with one name in Rust: of a value and a named number, and of the values of three modules.
static SHARED_CONSTANTS: [Row; 2] = [
    (
        b"M DEFINITIONS ::= BEGIN a-b INTEGER ::= 1 A ::= INTEGER { b(7), c(8) } END",
        "src/constants.rt",
        "\n/// `a-b`.\npub const A_B: i64 = 1;\n\n/// `b` of `A` of the module `M`.\npub const A_B_2: i64 = 7;\n\n/// `c` of `A`.\npub const A_C: i64 = 8;\n",
    ),
    (
        b"L DEFINITIONS ::= BEGIN id INTEGER ::= 1 END M DEFINITIONS ::= BEGIN id OBJECT IDENTIFIER ::= { 2 1 } END N DEFINITIONS ::= BEGIN id INTEGER ::= 3 END",
        "src/constants.rt",
        "\n/// `id`.\npub const ID: i64 = 1;\n\n/// `id` of the module `M`.\npub static ID_2: [u64; 2] = [2, 1];\n\n/// `id` of the module `N`.\npub const ID_2_2: i64 = 3;\n",
    ),
];

// An extensible CHOICE: open, but not where tags have to distinguish it from what follows.
static OPEN_CHOICES: [Row; 3] = [
    (
        b"M DEFINITIONS ::= BEGIN Shape ::= CHOICE { number INTEGER, ..., flag BOOLEAN } Box ::= SEQUENCE { shape Shape } END",
        "src/shape.rt",
        "type Types = (BigInteger, (bool,));\n\ntype Sides = Either<Either<(Vec<u8>, bool), bool>, TaggedDerValue>;\n\ntype Notated = OpenChoice<Types>;\n",
    ),
    (
        b"M DEFINITIONS ::= BEGIN Shape ::= CHOICE { number INTEGER, ... } END",
        "src/shape.rt",
        "            First(value) => Shape::Number(value),\n            Second(value) => Shape::Unknown(value),\n",
    ),
    (
        b"M DEFINITIONS ::= BEGIN Shape ::= CHOICE { number INTEGER, ... } Box ::= SEQUENCE { shape Shape OPTIONAL, label UTF8String } END",
        "src/shape.rt",
        "//! An alternative that a later version may add is rejected.\n",
    ),
];

// A CHOICE of ten alternatives, of which the last three are in a file of their own.
static LONG_CHOICES: [Row; 3] = [
    (
        b"M DEFINITIONS AUTOMATIC TAGS ::= BEGIN Long ::= CHOICE { a NULL, b NULL, c NULL, d NULL, e NULL, f NULL, g NULL, h BOOLEAN, i NULL, j NULL } END",
        "src/long.rt",
        "            Second(Second(Second(Second(Second(Second(Second(rest))))))) => match rest {\n            First(value) => Long::H(value),\n",
    ),
    (
        b"M DEFINITIONS AUTOMATIC TAGS ::= BEGIN Long ::= CHOICE { a NULL, b NULL, c NULL, d NULL, e NULL, f NULL, g NULL, h BOOLEAN, i NULL, j NULL } END",
        "src/long_types2.rt",
        "type Each = (Implicit<Context<7>, bool>, (Implicit<Context<8>, ()>, (Implicit<Context<9>, ()>,)));\n",
    ),
    (
        b"M DEFINITIONS AUTOMATIC TAGS ::= BEGIN Nine ::= CHOICE { a NULL, b NULL, c NULL, d NULL, e NULL, f NULL, g NULL, h BOOLEAN, i NULL } END",
        "src/nine.rt",
        "            Second(Second(Second(Second(Second(Second(Second(Second(())))))))) => Nine::I,\n",
    ),
];

const FIFTEEN: &[u8] =
    b"M DEFINITIONS AUTOMATIC TAGS ::= BEGIN Fifteen ::= SEQUENCE { a1 NULL, a2 NULL, a3 NULL, a4 NULL, a5 NULL, a6 NULL, a7 NULL, a8 NULL, a9 NULL, b1 NULL, b2 NULL, b3 NULL, b4 NULL, b5 NULL, b6 NULL } END";

// An extensible SEQUENCE: elements after mandatory parts, after others, and between parts. A long one, which is cut.
static SEQUENCES: [Row; 9] = [
    (
        b"M DEFINITIONS ::= BEGIN Head ::= SEQUENCE { version INTEGER (0..9), ... } END",
        "src/head.rt",
        "type Parts = (Bounded<u64, AtMost<9>>, Rest<TaggedDerValue>);\n",
    ),
    (
        b"M DEFINITIONS IMPLICIT TAGS ::= BEGIN Head ::= SEQUENCE { id NULL, flag BOOLEAN DEFAULT FALSE, ..., [[ name [0] UTF8String ]] } END",
        "src/head.rt",
        "type Omitted = Choice<(bool, (Implicit<Context<0>, String>,))>;\n\ntype Parts = ((), PossibleDefault<bool, False, Possible<Implicit<Context<0>, String>, Others<Omitted>>>);\n",
    ),
    (
        b"M DEFINITIONS ::= BEGIN Head ::= SEQUENCE { id NULL, ..., ..., name UTF8String } END",
        "src/head.rt",
        "//! An element that a later version may add is rejected.\n",
    ),
    (
        b"M DEFINITIONS ::= BEGIN Address ::= SEQUENCE { p [0] OCTET STRING OPTIONAL, s [1] OCTET STRING OPTIONAL, t [2] OCTET STRING OPTIONAL, n [3] SET SIZE (1..MAX) OF OCTET STRING } END",
        "src/address_parts2.rt",
        "type Each = (Explicit<Context<3>, Bounded<SetOf<Vec<u8>>, NotEmpty>>, ());\n",
    ),
    (
        b"M DEFINITIONS ::= BEGIN Address ::= SEQUENCE { p [0] OCTET STRING OPTIONAL, s [1] OCTET STRING OPTIONAL, t [2] OCTET STRING OPTIONAL, n [3] OCTET STRING } END",
        "src/address.rt",
        "(Optional<Explicit<Context<2>, Vec<u8>>>, (Explicit<Context<3>, Vec<u8>>, ()))));\n",
    ),
    (
        FIFTEEN,
        "src/fifteen.rt",
        "(a5, (a6, FifteenParts2 { a7, a8, a9, b1, b2, b3, others: FifteenParts3 { b4, b5, b6 } }))",
    ),
    (
        FIFTEEN,
        "src/fifteen.rt",
        "(v.a5, (v.a6, record { a7 = v.a7; a8 = v.a8; a9 = v.a9; b1 = v.b1; b2 = v.b2; b3 = v.b3; others = record { b4 = v.b4; b5 = v.b5; b6 = v.b6 } }))",
    ),
    (
        FIFTEEN,
        "src/fifteen_parts2.rt",
        "    ghost held = { λ r. record { a7 = r.now.a7; a8 = r.now.a8; a9 = r.now.a9; b1 = r.now.b1; b2 = r.now.b2; b3 = r.now.b3; others = record { b4 = r.now.b4; b5 = r.now.b5; b6 = r.now.b6 } } };\n",
    ),
    (
        FIFTEEN,
        "src/fifteen_parts2.rt",
        "type Fields = ((), ((), ((), ((), ((), ((), FifteenParts3))))));\n",
    ),
];

const BADGE: &[u8] =
    b"M DEFINITIONS ::= BEGIN Badge ::= SET { number INTEGER, name [0] IMPLICIT UTF8String OPTIONAL, flag BOOLEAN DEFAULT FALSE, point Point } Point ::= [APPLICATION 1] SEQUENCE { x INTEGER } END";

// A SET: its parts in the order of their tags, its fields in that of the module, and why the parts of some aren't read.
static SETS: [Row; 9] = [
    (
        b"M DEFINITIONS IMPLICIT TAGS ::= BEGIN Badge ::= [APPLICATION 2] SET { flag BOOLEAN } END",
        "src/badge.rt",
        "(badge_untagged_non_empty (Some (tag_or u (application 2))))",
    ),
    (
        BADGE,
        "src/badge.rt",
        "type Parts = (Default<Implicit<Universal<1>, bool>, Unset>, (Implicit<Universal<2>, BigInteger>, (Implicit<Application<1>, Point>, (Optional<Implicit<Context<0>, String>>, ()))));\n",
    ),
    (
        BADGE,
        "src/badge.rt",
        "    pub number: (Vec<u8>, bool),\n    pub name: Option<String>,\n    pub flag: bool,\n    pub point: Point,\n",
    ),
    (BADGE, "src/badge.rt", "type Notated = Set<Parts>;\n"),
    (
        BADGE,
        "list",
        "Point: exact, canonical\nBadge: exact, canonical\n",
    ),
    (
        b"M DEFINITIONS AUTOMATIC TAGS ::= BEGIN Long ::= SET { a NULL, b NULL, c NULL, d NULL, e NULL, f NULL, g NULL } END",
        "src/long_parts2.rt",
        "impl SetParts for LongParts2 {\n",
    ),
    (
        b"M DEFINITIONS IMPLICIT TAGS ::= BEGIN Pick ::= CHOICE { a [PRIVATE 1] NULL, b [2] NULL } Box ::= SET { pick Pick } END",
        "src/pick.rt",
        "        read_part::<Pick>(&[Tag { tag_class: TagClass::Private, tag_number: 1 }, Tag { tag_class: TagClass::ContextSpecific, tag_number: 2 }], set)\n",
    ),
    (
        b"M DEFINITIONS ::= BEGIN Badge ::= SET { number INTEGER, ... } END",
        "src/badge.rt",
        "//! Its elements are as they came: the components of a SET with `...` aren't read.\n",
    ),
    (
        b"M DEFINITIONS ::= BEGIN Badge ::= SET { any ANY } END",
        "list",
        "Badge: accepts more\n    the components of a SET with a part that may be any element aren't read\n",
    ),
];

// An ENUMERATED: its tags, a DEFAULT, and the size of a BMPString, which isn't tested.
static VALUES: [Row; 5] = [
    (
        b"L DEFINITIONS ::= BEGIN END M DEFINITIONS ::= BEGIN Speed ::= ENUMERATED { off, slow } END",
        "src/speed.rt",
        "//! Speed ::= ENUMERATED { off, slow }\n//! ```\n",
    ),
    (
        b"M DEFINITIONS ::= BEGIN Speed ::= [APPLICATION 1] IMPLICIT ENUMERATED { off, slow } Motor ::= SEQUENCE { speed Speed } END",
        "src/motor.rt",
        "type Parts = (Implicit<Application<1>, Named<Speed>>, ());\n",
    ),
    (
        b"M DEFINITIONS ::= BEGIN Speed ::= ENUMERATED { off, slow } Motor ::= SEQUENCE { speed Speed DEFAULT slow } END",
        "src/motor.rt",
        "type Parts = (Default<Named<Speed>, SpeedDefault>, ());\n",
    ),
    (
        b"M DEFINITIONS ::= BEGIN Speed ::= ENUMERATED { off, slow } Motor ::= SEQUENCE { speed Speed DEFAULT slow } END",
        "src/motor.rt",
        "    fn default() -> Speed {\n        Speed::Slow\n    }\n",
    ),
    (
        b"M DEFINITIONS ::= BEGIN Name ::= SEQUENCE { text BMPString (SIZE (1..8)) } END",
        "list",
        "Name: accepts more, canonical\n    `text`: a constraint isn't tested\n",
    ),
];

const LABEL: &[u8] =
    b"M DEFINITIONS IMPLICIT TAGS ::= BEGIN Label ::= SEQUENCE { kind OBJECT IDENTIFIER DEFAULT id, flag BOOLEAN OPTIONAL, key [0] EXPLICIT OCTET STRING DEFAULT '0102'H, text IA5String (SIZE (1..8)) DEFAULT \"a\\b\" } id OBJECT IDENTIFIER ::= { 2 999 1 } END";

// Defaults that are tested, and never made: an object identifier, octets and a string.
static TESTED: [Row; 6] = [
    (
        LABEL,
        "src/label.rt",
        "type Parts = OrDefault<ObjectIdentifier, TestedIdentifier<KindDefault>, (Optional<bool>, OrDefault<Explicit<Context<0>, Vec<u8>>, TestedOctets<KeyDefault>, LabelParts2>)>;\n",
    ),
    (
        LABEL,
        "src/label_parts2.rt",
        "type Each = OrDefault<Bounded<Ia5String, SizeFromTo<1, 8>>, TestedText<TextDefault>, ()>;\n",
    ),
    (
        LABEL,
        "src/label.rt",
        "    ghost components = { 2 ∷ 999 ∷ 1 ∷ [] };\n\n    fn components() -> &'static [u64] {\n        &[2, 999, 1]\n    }\n",
    ),
    (
        LABEL,
        "src/label_parts2.rt",
        "    ghost text = { 97 ∷ 92 ∷ 98 ∷ [] };\n\n    fn text() -> &'static str {\n        \"a\\\\b\"\n    }\n",
    ),
    (LABEL, "list", "Label: exact, canonical\n"),
    (
        b"M DEFINITIONS ::= BEGIN Label ::= SEQUENCE { id NULL, text UTF8String DEFAULT \"a\", ... } Badge ::= SET { text UTF8String DEFAULT \"a\" } END",
        "list",
        "Label: accepts more\n    `text`: a part with a default may be encoded though it is the default\nBadge: exact, canonical\n",
    ),
];

const GROUP: &[u8] =
    b"M DEFINITIONS IMPLICIT TAGS ::= BEGIN Rows ::= [1] SEQUENCE OF NULL Group ::= SEQUENCE { rows Rows DEFAULT {}, kinds [0] EXPLICIT SET (SIZE (0..4)) OF INTEGER (0..9) DEFAULT {}, flags BIT STRING { first(0), last(9) } DEFAULT { last }, mask [2] BIT STRING DEFAULT '101'B } END";

const FOLDER: &[u8] =
    b"M DEFINITIONS IMPLICIT TAGS ::= BEGIN Rows ::= [1] SEQUENCE OF NULL Folder ::= SET { rows Rows DEFAULT {}, heights SEQUENCE OF NULL DEFAULT {}, text UTF8String DEFAULT \"a\", number INTEGER } END";

// Defaults of lists and bits, and those of a SET.
static TESTED_LISTS: [Row; 7] = [
    (
        GROUP,
        "src/group.rt",
        "type Parts = OrDefault<Rows, RowsDefault, OrDefault<Explicit<Context<0>, Bounded<SetOf<Bounded<u64, AtMost<9>>>, SizeFromTo<0, 4>>>, EmptyList, OrDefault<NamedBits, TestedBits<FlagsDefault>, GroupParts2>>>;\n",
    ),
    (
        GROUP,
        "src/group.rt",
        "impl TestedDefault<Rows> for RowsDefault {\n    ghost is = { λ v. is_empty_list v.items.items };\n\n    fn is_default(value: &Rows) -> bool {\n        has_no_items(value.items.as_slice())\n    }\n\n    ghost one = { one_empty_sequence _ (λ v. v.items.items) };\n}\n",
    ),
    (
        GROUP,
        "src/group.rt",
        "    ghost bits = { record { bytes = 0 ∷ 64 ∷ []; count = 10 } };\n\n    fn octets() -> &'static [u8] {\n        &[0, 64]\n    }\n\n    fn count() -> usize {\n        10\n    }\n",
    ),
    (GROUP, "list", "Rows: exact, canonical\nGroup: exact\n"),
    (
        b"M DEFINITIONS ::= BEGIN Group ::= SEQUENCE { id NULL, rows SEQUENCE OF NULL DEFAULT {}, ... } Badge ::= SET { rows SEQUENCE OF NULL DEFAULT {}, flags BIT STRING DEFAULT ''B } END",
        "list",
        "Group: accepts more\n    `rows`: a part with a default may be encoded though it is the default\nBadge: exact\n",
    ),
    (
        FOLDER,
        "src/folder.rt",
        "type Parts = (Implicit<Universal<2>, BigInteger>, OrDefault<Implicit<Universal<12>, String>, TestedText<TextDefault>, OrDefault<Implicit<Universal<16>, SequenceOf<()>>, EmptyList, OrDefault<Implicit<Context<1>, Rows>, RowsDefault, ()>>>);\n",
    ),
    (
        FOLDER,
        "list",
        "Rows: exact, canonical\nFolder: exact, canonical\n",
    ),
];

const HEADS: &[u8] =
    b"M DEFINITIONS ::= BEGIN Head ::= SEQUENCE { id NULL, ..., ..., name UTF8String } Tail ::= SEQUENCE { id NULL, ... } END";

// The lines of types that accept more than the module says, and of those that reject numbers or what a later version adds.
static LISTED: [Row; 17] = [
    (
        b"M DEFINITIONS ::= BEGIN Name ::= CHOICE { text BMPString (SIZE (1..8)), id NULL, other [0] BMPString (SIZE (9)) } END",
        "list",
        "Name: accepts more, canonical\n    `text`: a constraint isn't tested\n    `other`: a constraint isn't tested\n",
    ),
    (
        b"M DEFINITIONS ::= BEGIN Name ::= CHOICE { text BMPString (SIZE (1..8)), id NULL } END",
        "src/name.rt",
        "//! It accepts more than the module says:\n//!\n//! - `text`: a constraint isn't tested.\n",
    ),
    (
        b"M DEFINITIONS ::= BEGIN Badge ::= [1] SET { number INTEGER, ... } END",
        "list",
        "Badge: accepts more\n    the components of a SET with `...` aren't read\n",
    ),
    (
        b"M DEFINITIONS ::= BEGIN Shape ::= CHOICE { number INTEGER, ... } Box ::= SEQUENCE { shape Shape OPTIONAL, label UTF8String } END",
        "list",
        "Shape: rejects additions, canonical\nBox: exact, canonical\n",
    ),
    (
        b"M DEFINITIONS ::= BEGIN Shape ::= CHOICE { number INTEGER, ... } Box ::= SEQUENCE { shape Shape } END",
        "list",
        "Shape: exact\nBox: exact\n",
    ),
    (
        HEADS,
        "list",
        "Head: rejects additions, canonical\nTail: exact\n",
    ),
    (
        b"M DEFINITIONS ::= BEGIN Name ::= SEQUENCE { text BMPString (SIZE (1..8)), ..., ..., id NULL } END",
        "list",
        "Name: accepts more, rejects additions, canonical\n    `text`: a constraint isn't tested\n",
    ),
    (
        b"M DEFINITIONS ::= BEGIN Name ::= SEQUENCE { text Text, id NULL } Text ::= BMPString (SIZE (1..8)) END",
        "list",
        "Name: accepts more, canonical\n    a constraint isn't tested\n",
    ),
    (
        b"M DEFINITIONS ::= BEGIN Late ::= SEQUENCE { id NULL, ..., name UTF8String, count INTEGER OPTIONAL } END",
        "list",
        "Late: accepts more\n    `name`: a mandatory addition may be absent though a later one, or another one of its group, is there\n",
    ),
    (
        b"M DEFINITIONS ::= BEGIN Group ::= SEQUENCE { id NULL, ..., [[ name UTF8String OPTIONAL, count INTEGER ]] } END",
        "list",
        "Group: accepts more\n    `count`: a mandatory addition",
    ),
    (
        b"M DEFINITIONS ::= BEGIN Last ::= SEQUENCE { id NULL, ..., [[ name UTF8String OPTIONAL ]], [[ count INTEGER ]] } END",
        "list",
        "Last: exact\n",
    ),
    (
        b"M DEFINITIONS ::= BEGIN Root ::= SEQUENCE { id NULL, ..., name UTF8String, ..., flag BOOLEAN, count INTEGER } END",
        "list",
        "Root: rejects additions, canonical\n",
    ),
    (
        b"M DEFINITIONS ::= BEGIN Shape ::= CHOICE { number INTEGER, ..., flag BOOLEAN, name UTF8String } END",
        "list",
        "Shape: exact\n",
    ),
    (
        b"M DEFINITIONS ::= BEGIN Salt ::= SEQUENCE { size INTEGER DEFAULT 20, count [0] INTEGER (0..9) DEFAULT 1 } END",
        "list",
        "Salt: rejects large numbers, canonical\n    `size`: a number past 64 bits is rejected\n",
    ),
    (
        b"M DEFINITIONS ::= BEGIN Salt ::= SET { size INTEGER (0..MAX) DEFAULT 20 } END",
        "src/salt.rt",
        "//! It rejects numbers that the module allows:\n//!\n//! - `size`: a number past 64 bits is rejected.\n",
    ),
    (
        b"M DEFINITIONS ::= BEGIN Salt ::= SEQUENCE { size INTEGER (-1..18446744073709551615) DEFAULT 3 } END",
        "src/salt.rt",
        "type Parts = (Default<Bounded<i64, IntegerFromTo<{ -1 }, 9223372036854775807>>, Signed<3>>, ());\n",
    ),
    (
        b"M DEFINITIONS ::= BEGIN Rows ::= SEQUENCE { rows SEQUENCE OF INTEGER DEFAULT {} } END",
        "src/rows.rt",
        "type Parts = OrDefault<SequenceOf<BigInteger>, EmptyList, ()>;\n",
    ),
];

// Types that no module gives: any element, and under an IMPLICIT or automatic tag any element with that tag.
static MISSING: [Row; 5] = [
    (
        b"M DEFINITIONS IMPLICIT TAGS ::= BEGIN Rec ::= SEQUENCE { a [0] Other, b [1] EXPLICIT Third, d Third, c [2] Foo OPTIONAL } Foo ::= [3] Other END",
        "src/rec.rt",
        "type Parts = (AnyUnder<Context<0>>, (Explicit<Context<1>, TaggedDerValue>, (TaggedDerValue, (Optional<AnyUnder<Context<2>>>, ()))));\n",
    ),
    (
        b"M DEFINITIONS IMPLICIT TAGS ::= BEGIN Pick ::= CHOICE { x [APPLICATION 5] Other, none NULL } END",
        "src/pick.rt",
        "      | X x ↦ (any_non_empty u) m x\n",
    ),
    (
        b"M DEFINITIONS IMPLICIT TAGS ::= BEGIN Bag ::= SET { z [PRIVATE 7] Third OPTIONAL, x [0] Other } END",
        "src/bag.rt",
        "type Parts = (AnyUnder<Context<0>>, (Optional<AnyUnder<Private<7>>>, ()));\n",
    ),
    (
        b"M DEFINITIONS AUTOMATIC TAGS ::= BEGIN Rec ::= SEQUENCE { a Other, b BOOLEAN } END",
        "src/rec.rt",
        "type Parts = (AnyUnder<Context<0>>, (Implicit<Context<1>, bool>, ()));\n",
    ),
    (
        b"M DEFINITIONS AUTOMATIC TAGS ::= BEGIN Rec ::= SEQUENCE { a Other, b BOOLEAN } END",
        "list",
        "Rec: accepts more\n    `a`: a type that no module gives is any element\n",
    ),
];

const LEVEL: &[u8] =
    b"M DEFINITIONS ::= BEGIN Level ::= [APPLICATION 40] SEQUENCE { number INTEGER (5..9), name [1] IMPLICIT UTF8String OPTIONAL } END";

// What is written beside the sources of a crate: the types that it exports, its tests, and edits that are wrong.
static OTHER_FILES: [Row; 7] = [
    (
        BADGE,
        "src/samples.rt",
        "Badge>>(rt.alloc(), b\"\\x31\\x0a\\x02\\x01\\x00\\x61\\x05\\x30\\x03\\x02\\x01\\x00\"));\n",
    ),
    (
        b"M DEFINITIONS ::= BEGIN Pick ::= CHOICE { flag [0] BOOLEAN, size INTEGER } END",
        "exports",
        "M Pick pick Pick C0,U2 choice canonical\n",
    ),
    (
        LEVEL,
        "src/samples.rt",
        "    assert!(rt; comes_back::<Encoded<Level>>(rt.alloc(), b\"\\x7f\\x28\\x05\\x30\\x03\\x02\\x01\\x05\"));\n",
    ),
    (
        LEVEL,
        "src/samples.rt",
        "(rt.alloc(), b\"\\x7f\\x28\\x08\\x30\\x06\\x02\\x01\\x05\\x81\\x01\\x61\"));\n",
    ),
    (
        LEVEL,
        "must-fail/level_has_other_tags.edit",
        "new:         !<Notated as Notation>::has_tag(tag)\n",
    ),
    (
        b"M DEFINITIONS IMPLICIT TAGS ::= BEGIN Pdu ::= SEQUENCE { number INTEGER } Get ::= [0] Pdu END",
        "src/get.rt",
        "    ghost non_empty = { λ u m v. (pdu_non_empty (Some (tag_or u (context 0)))) m v.value };\n",
    ),
    (
        b"M DEFINITIONS IMPLICIT TAGS ::= BEGIN Pdu ::= SEQUENCE { number INTEGER } Get ::= [APPLICATION 3] [1] Pdu END",
        "src/get.rt",
        "    ghost non_empty = { λ u m v. (pdu_non_empty (Some (tag_or (Some (tag_or u (application 3))) (context 1)))) m v.value };\n",
    ),
];

// Whether a text is in another one.
fn holds(text: &[u8], part: &[u8]) -> bool {
    for start in 0..text.len() {
        match text.get(start..) {
            Some(rest) if rest.starts_with(part) => return true,
            _ => {}
        }
    }
    false
}

// Whether the file of this path has some lines.
fn holds_in(files: &[SourceFile], path: &str, lines: &str) -> bool {
    for one in files {
        if one.path.as_slice() == path.as_bytes() && holds(one.text.as_slice(), lines.as_bytes()) {
            return true;
        }
    }
    false
}

// Whether a file of the crate of resolved modules, or one that tests it, has some lines.
fn has_lines<'a>(
    alloc: Global,
    source: &'a [u8],
    modules: &'a [Module<'a>],
    exports: &[Export<'_>],
    resolved: &Resolved<'a>,
    file: &str,
    lines: &str,
) -> Result<bool, AllocError> {
    let definitions = resolved.definitions.as_slice();
    let tags = resolved.tag_sets.as_slice();
    let imported = known_names(alloc, exports)?;
    let names = names_of(alloc, b"sample", definitions, tags, imported)?;
    let wanted = reached(alloc, definitions, None)?;
    let mut sources = Vec::new(alloc);
    for tree in modules {
        sources.push(ModuleSource { source, tree })?;
    }
    let of = source_of(
        b"sample",
        sources.as_slice(),
        definitions,
        resolved.tag_sets.as_slice(),
        &names,
        wanted.as_slice(),
        resolved.constants.as_slice(),
    );
    if file == "list" {
        return Ok(holds(list_of(alloc, &of).as_slice(), lines.as_bytes()));
    }
    Ok(
        holds_in(sources_of(alloc, &of)?.as_slice(), file, lines)
            || holds_in(tests_of(alloc, &of)?.as_slice(), file, lines)
            || holds_in(mutants_of(alloc, &of)?.as_slice(), file, lines),
    )
}

/// Whether a file of the crate of modules, or one that tests it, has some lines, where other crates export these types.
pub(crate) fn is_written<'a>(
    alloc: Global,
    source: &'a [u8],
    modules: &'a [Module<'a>],
    exports: &'a [Export<'a>],
    file: &str,
    lines: &str,
) -> bool {
    let Ok(known) = known_types(alloc, exports) else {
        return false;
    };
    match resolve_incomplete(alloc, modules, known.leak()) {
        Ok(resolved) => {
            has_lines(alloc, source, modules, exports, &resolved, file, lines).unwrap_or(false)
        }
        Err(_) => false,
    }
}

// The lines of the first row that aren't in its file. Modules are never freed, since they are lent for as long as they are.
fn first_missing(
    alloc: Global,
    rows: &'static [Row],
    exports: &'static [Export<'static>],
) -> Option<&'static str> {
    for row in rows {
        let is_so = match parse(alloc, row.0) {
            Ok(modules) => is_written(alloc, row.0, modules.leak(), exports, row.1, row.2),
            Err(_) => false,
        };
        if !is_so {
            return Some(row.2);
        }
    }
    None
}

#[test]
fn choices_are_written(rt: HostRuntime) {
    assert!(rt; first_missing(rt.alloc(), &CHOICES, &[]).is_none());
    assert!(rt; first_missing(rt.alloc(), &OPEN_CHOICES, &[]).is_none());
    assert!(rt; first_missing(rt.alloc(), &LONG_CHOICES, &[]).is_none());
}

#[test]
fn names_are_written(rt: HostRuntime) {
    assert!(rt; first_missing(rt.alloc(), &NAMES, &[]).is_none());
    assert!(rt; first_missing(rt.alloc(), &TAKEN_NAMES, &[]).is_none());
    assert!(rt; first_missing(rt.alloc(), &CONSTANTS, &[]).is_none());
    assert!(rt; first_missing(rt.alloc(), &SHARED_CONSTANTS, &[]).is_none());
}

#[test]
fn sequences_are_written(rt: HostRuntime) {
    assert!(rt; first_missing(rt.alloc(), &SEQUENCES, &[]).is_none());
    assert!(rt; first_missing(rt.alloc(), &MISSING, &[]).is_none());
}

#[test]
fn sets_are_written(rt: HostRuntime) {
    assert!(rt; first_missing(rt.alloc(), &SETS, &[]).is_none());
}

#[test]
fn enumerations_are_written(rt: HostRuntime) {
    assert!(rt; first_missing(rt.alloc(), &VALUES, &[]).is_none());
}

#[test]
fn tested_defaults_are_written(rt: HostRuntime) {
    assert!(rt; first_missing(rt.alloc(), &TESTED, &[]).is_none());
    assert!(rt; first_missing(rt.alloc(), &TESTED_LISTS, &[]).is_none());
}

#[test]
fn types_are_listed(rt: HostRuntime) {
    assert!(rt; first_missing(rt.alloc(), &LISTED, &[]).is_none());
}

#[test]
fn other_files_are_written(rt: HostRuntime) {
    assert!(rt; first_missing(rt.alloc(), &OTHER_FILES, &[]).is_none());
}
