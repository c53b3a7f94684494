//! What the types of modules are resolved to. The modules are written by hand; the clauses of X.680 are named beside them.

use crate::described::described;
use asn1_syntax::parse;
use asn1_syntax::tree::Module;
use asn1_types::model::{KnownType, Resolved, Tag, TagClass};
use asn1_types::{resolve, resolve_incomplete};
use std::alloc::{AllocError, Global};
use std::process::Abort;

/// A source, and a line for each definition, constant and problem.
type Row = (&'static [u8], &'static str);

// Tags: the environment (30.6), IMPLICIT of an untagged CHOICE (30.8), and tags of all classes.
static TAGS: [Row; 4] = [
    (
        b"M DEFINITIONS ::= BEGIN A ::= SEQUENCE { a [0] INTEGER, b [1] IMPLICIT NULL, c [2] EXPLICIT NULL } END",
        "A. SEQUENCE a [0 E] INTEGER, b [1 I] NULL, c [2 E] NULL,\n",
    ),
    (
        b"M DEFINITIONS IMPLICIT TAGS ::= BEGIN A ::= [APPLICATION 3] SEQUENCE { a [0] NULL, b [1] EXPLICIT NULL, c [2] C, d [3] IMPLICIT C, e [4] ANY } C ::= CHOICE { f NULL, g [PRIVATE 1] NULL } END",
        "C. CHOICE f NULL, g [P1 I] NULL,\nA. [A3 I] SEQUENCE a [0 I] NULL, b [1 E] NULL, c [2 E] #0, d [3 E] #0, e [4 E] ANY,\n",
    ),
    (
        b"M DEFINITIONS IMPLICIT TAGS ::= BEGIN A ::= [1] [2] CHOICE { b NULL } C ::= [3] A D ::= [4] INTEGER n INTEGER ::= 6 E ::= [n] SEQUENCE OF D END",
        "A. [1 I] [2 E] CHOICE b NULL,\nC. of [3 I] #0\nD. = [4 I] INTEGER\nE. of [6 I] SEQUENCE OF [4 I] INTEGER\nn = 6\n",
    ),
    (
        b"M DEFINITIONS ::= BEGIN A ::= CHOICE { a NULL, b B } B ::= CHOICE { c BOOLEAN, d NULL } C ::= SEQUENCE { e NULL OPTIONAL, f B } D ::= SEQUENCE { g ANY OPTIONAL, h NULL } END",
        "B. CHOICE c BOOLEAN, d NULL,\n0:47: this part has the tag of another one at 39\n0:122: this part has the tag of another one at 105\n0:161: no tag distinguishes this part from another one at 145\n",
    ),
];

// Automatic tags: without a tag (24.2 and 28.2), with one, through COMPONENTS OF (24.4), and after `...` (24.7).
static AUTOMATIC_TAGS: [Row; 3] = [
    (
        b"M DEFINITIONS AUTOMATIC TAGS ::= BEGIN A ::= SEQUENCE { a NULL, b C, c SEQUENCE { d NULL } } C ::= CHOICE { e NULL, f NULL } END",
        "C. CHOICE e [0 I] NULL, f [1 I] NULL,\nA.c. private SEQUENCE d [0 I] NULL,\nA. SEQUENCE a [0 I] NULL, b [1 E] #0, c [2 I] #1,\n",
    ),
    (
        b"M DEFINITIONS AUTOMATIC TAGS ::= BEGIN A ::= SEQUENCE { a [5] NULL, b BOOLEAN } B ::= CHOICE { c NULL, d [6] NULL } END",
        "A. SEQUENCE a [5 I] NULL, b BOOLEAN,\nB. CHOICE c NULL, d [6 I] NULL,\n",
    ),
    (
        b"M DEFINITIONS AUTOMATIC TAGS ::= BEGIN A ::= SEQUENCE { a NULL, ..., b NULL, [[ c NULL ]], ..., COMPONENTS OF D } D ::= SEQUENCE { e [9] NULL, ..., f NULL } END",
        "A. SEQUENCE a [0 I] NULL, +b [2 I] NULL, +c [3 I] NULL, e [1 I] [9 I] NULL, ...3 !additions\nD. SEQUENCE e [9 I] NULL, +f NULL, ...2\n",
    ),
];

// Values: defaults (24.10), named numbers, ENUMERATED (20.3 to 20.6), and object identifiers (31).
static VALUES: [Row; 6] = [
    (
        b"M DEFINITIONS AUTOMATIC TAGS ::= BEGIN A ::= SEQUENCE { a B DEFAULT b1, c BOOLEAN DEFAULT TRUE, d INTEGER DEFAULT -3, e E DEFAULT g, h INTEGER DEFAULT i, j OCTET STRING DEFAULT ''H } B ::= INTEGER { b1(7) } E ::= ENUMERATED { f, g } i INTEGER ::= k k INTEGER ::= 12 END",
        "B. = INTEGER\nE. ENUMERATED f 0, g 1,\nA. SEQUENCE a [0 I] INTEGER DEFAULT 7, c [1 I] BOOLEAN DEFAULT TRUE, d [2 I] INTEGER DEFAULT -3, e [3 I] #1 DEFAULT g 1, h [4 I] INTEGER DEFAULT 12, j [5 I] OCTETS DEFAULT octets,\nB.b1 = 7\ni = 12\nk = 12\n",
    ),
    (
        b"M DEFINITIONS AUTOMATIC TAGS ::= BEGIN A ::= SEQUENCE { a OBJECT IDENTIFIER DEFAULT { d 2 }, b OCTET STRING DEFAULT '0 F'H, c UTF8String DEFAULT e, f OCTET STRING DEFAULT '000000011'B, g IA5String DEFAULT \"a\"\"b\", h BMPString DEFAULT \"a\", i OBJECT IDENTIFIER DEFAULT j, k OCTET STRING DEFAULT '0000 0011'B } d OBJECT IDENTIFIER ::= { iso 2 } e UTF8String ::= \"a b\" END",
        "A. SEQUENCE a [0 I] OID DEFAULT .1.2.2, b [1 I] OCTETS DEFAULT octets 15, c [2 I] UTF8 DEFAULT \"a b\", f [3 I] OCTETS OPTIONAL, g [4 I] IA5 OPTIONAL, h [5 I] BMP OPTIONAL, i [6 I] OID OPTIONAL, k [7 I] OCTETS DEFAULT octets 3, !default !default !default !default\nd = .1.2\ne = a b\n",
    ),
    (
        b"M DEFINITIONS AUTOMATIC TAGS ::= BEGIN A ::= SEQUENCE { a SEQUENCE OF NULL DEFAULT {}, b B DEFAULT c, d SET SIZE (0..4) OF NULL DEFAULT c, e B DEFAULT { NULL }, f C DEFAULT {} } B ::= [APPLICATION 3] SET OF NULL c B ::= {} C ::= SEQUENCE { h NULL OPTIONAL } END",
        "B. of [A3 I] SET OF NULL\nC. SEQUENCE h [0 I] NULL OPTIONAL,\nA. SEQUENCE a [0 I] SEQUENCE OF NULL DEFAULT {}, b [1 I] #0 DEFAULT {}, d [2 I] SET(0..4) OF NULL DEFAULT {}, e [3 I] #0 OPTIONAL, f [4 I] #1 OPTIONAL, !default !default\n",
    ),
    (
        b"M DEFINITIONS IMPLICIT TAGS ::= BEGIN A ::= SEQUENCE { a B DEFAULT {}, b [0] B DEFAULT { d, c }, c [1] EXPLICIT BIT STRING DEFAULT '0110 1'B, d [2] B DEFAULT 'A040'H, e [3] B (SIZE (4..MAX)) DEFAULT { c }, f [4] B DEFAULT { e }, g [5] BIT STRING DEFAULT {}, h [6] B DEFAULT { c d }, i [7] BIT STRING DEFAULT j, k [8] B (SIZE (1..4)) DEFAULT { c }, m [9] B DEFAULT { l } } B ::= BIT STRING { c(0), d(9), l(1024) } j BIT STRING ::= 'F7A'H END",
        "B. = NAMED BITS\nA. SEQUENCE a NAMED BITS DEFAULT 0 bits in octets, b [0 I] NAMED BITS DEFAULT 10 bits in octets 128 64, c [1 E] BITS DEFAULT 5 bits in octets 104, d [2 I] NAMED BITS DEFAULT 10 bits in octets 160 64, e [3 I] NAMED BITS(4..) OPTIONAL, f [4 I] NAMED BITS OPTIONAL, g [5 I] BITS DEFAULT 0 bits in octets, h [6 I] NAMED BITS OPTIONAL, i [7 I] BITS DEFAULT 12 bits in octets 247 160, k [8 I] NAMED BITS(1..4) DEFAULT 1 bits in octets 128, m [9 I] NAMED BITS OPTIONAL, !constraint !default !default !default !constraint !default\nB.c = bit 0\nB.d = bit 9\nB.l = bit 1024\n",
    ),
    (
        b"M DEFINITIONS ::= BEGIN A ::= ENUMERATED { a, b(0), c, ..., d, e(9), f } B ::= BIT STRING { g(0), h(5) } C ::= ENUMERATED { i(1), j(1) } END",
        "A. ENUMERATED a 1, b 0, c 2, +d 3, +e 9, +f 10, ...\nB. = NAMED BITS\nB.g = bit 0\nB.h = bit 5\n0:130: this number is that of another item at 124\n",
    ),
    (
        b"M DEFINITIONS ::= BEGIN a OBJECT IDENTIFIER ::= { iso(1) member-body(2) 840 } b OBJECT IDENTIFIER ::= { a rsadsi(113549) n } n INTEGER ::= 1 c OBJECT IDENTIFIER ::= { joint-iso-itu-t ds(5) } t BOOLEAN ::= TRUE s UTF8String ::= \"x\" END",
        "a = .1.2.840\nb = .1.2.840.113549.1\nn = 1\nc = .2.5\nt = TRUE\ns = x\n",
    ),
];

// Constraints (49 to 52): sizes, ranges, unions, and those that are omitted.
static CONSTRAINTS: [Row; 2] = [
    (
        b"M DEFINITIONS ::= BEGIN A ::= SEQUENCE SIZE (1..MAX) OF OCTET STRING (SIZE (4)) B ::= IA5String (SIZE (1..ub)) ub INTEGER ::= 64 C ::= INTEGER (MIN..-1) D ::= INTEGER (0 | 1 | 2..5) E ::= INTEGER (0..9, ...) F ::= C (-9..3) END",
        "A. of SEQUENCE(1..) OF OCTETS(4..4)\nB. = IA5(1..64)\nC. = INTEGER(..-1)\nD. = INTEGER(0..5)\nE. = INTEGER\nF. = INTEGER(-9..-1)\nub = 64\n",
    ),
    (
        b"M DEFINITIONS ::= BEGIN A ::= INTEGER (0 | 5) B ::= PrintableString (FROM (\"a\")) C ::= D (WITH COMPONENTS { ..., e ABSENT }) D ::= SEQUENCE { e NULL OPTIONAL } F ::= OCTET STRING (CONTAINING D) G ::= GeneralString H ::= EXTERNAL END",
        "A. = INTEGER(0..5) !constraint\nB. = PRINTABLE !constraint\nD. SEQUENCE e NULL OPTIONAL,\nC. = #2 !inner\nF. = OCTETS !contents\nG. = OCTETS UNDER 27 !characters\nH. = ELEMENTS UNDER 8 !contained\n",
    ),
];

// Names: imports and exports (13), types inside themselves, selections (29), and names that mean nothing.
static NAMES: [Row; 4] = [
    (
        b"M DEFINITIONS ::= BEGIN IMPORTS A FROM N B FROM O; C ::= SEQUENCE { a A, b B, d O.A } END N DEFINITIONS ::= BEGIN EXPORTS A; A ::= SEQUENCE OF B B ::= NULL END O DEFINITIONS ::= BEGIN A ::= BOOLEAN B ::= SET OF A END",
        "B. private = NULL\nA. of SEQUENCE OF NULL\nA. = BOOLEAN\nB. of SET OF BOOLEAN\nC. SEQUENCE a #1, b #3, d BOOLEAN,\n",
    ),
    (
        b"M DEFINITIONS ::= BEGIN IMPORTS B FROM N; A ::= SEQUENCE { b B } C ::= D E ::= F F ::= E G ::= NULL G ::= NULL H ::= SEQUENCE { a A } END N DEFINITIONS ::= BEGIN EXPORTS ; B ::= NULL END",
        "G. = NULL\nG. = NULL\nB. private = NULL\n0:61: this name is not exported by its module\n0:71: this name is neither assigned nor imported\n0:79: this name is defined by itself\n0:79: this type is rejected\n0:100: this name is assigned twice at 89\n0:130: this type is rejected\n",
    ),
    (
        b"M DEFINITIONS ::= BEGIN A ::= SEQUENCE { a A OPTIONAL, b [0] IMPLICIT B OPTIONAL } B ::= [APPLICATION 1] SET { c B OPTIONAL } D ::= CHOICE { e SEQUENCE OF D } END",
        "B. [A1 E] SET c [A1 I] ELEMENTS UNDER 16 OPTIONAL, !recursion\nA. SEQUENCE a ELEMENTS UNDER 16 OPTIONAL, b [0 I] #0 OPTIONAL, !recursion\nD. CHOICE e SEQUENCE OF ANY, !recursion\n",
    ),
    (
        b"M DEFINITIONS ::= BEGIN A ::= SEQUENCE { a b < C } C ::= CHOICE { b UTCTime, d NULL } E ::= e < C F ::= SEQUENCE { f NULL, f BOOLEAN } G ::= CHOICE { } H ::= SEQUENCE { COMPONENTS OF C } END",
        "A. SEQUENCE a UTC,\nC. CHOICE b UTC, d NULL,\n0:92: an alternative of a CHOICE is expected\n0:123: this name is that of another part at 115\n0:141: at least one alternative or item is expected\n0:183: a SEQUENCE or a SET is expected\n",
    ),
];

// Open types (X.681, 14) and parameters (X.683).
static OPEN: [Row; 3] = [
    (
        b"M DEFINITIONS AUTOMATIC TAGS ::= BEGIN C ::= CLASS { &id OBJECT IDENTIFIER UNIQUE, &Type OPTIONAL } WITH SYNTAX { ID &id } A { C:Set } ::= SEQUENCE { a C.&id ({Set}), b C.&Type ({Set}{@a}) OPTIONAL } B ::= SEQUENCE { c A {{d}} } e C ::= { ID {1 2 3} } END",
        "A. SEQUENCE a [0 I] OID, b [1 E] ANY OPTIONAL, !constraint !open !constraint\nB. SEQUENCE c [0 I] #0,\n",
    ),
    (
        b"M DEFINITIONS ::= BEGIN SIGNED { ToBeSigned, INTEGER:n } ::= SEQUENCE { a ToBeSigned, b INTEGER (0..n) } B ::= SIGNED { C, 3 } C ::= NULL END",
        "SIGNED. SEQUENCE a ANY, b INTEGER, !parameter !constraint\nB. = #0\nC. = NULL\n",
    ),
    (
        b"M DEFINITIONS ::= BEGIN A {X} ::= X B ::= X C {X} ::= SEQUENCE { a X, b B, c A {X} } D ::= SEQUENCE { d A {NULL} } X ::= INTEGER END",
        "A. = ANY !parameter\nX. = INTEGER\nB. = INTEGER\nC. SEQUENCE a ANY, b INTEGER, c ANY, !parameter !parameter\nD. SEQUENCE d ANY, !parameter\n",
    ),
];

const NAMING: &[u8] =
    b"M DEFINITIONS ::= BEGIN IMPORTS B FROM N C FROM O; A ::= SEQUENCE { a Foo, b B, c [0] C, d D } E ::= Foo D ::= CLASS { &x INTEGER } F ::= SEQUENCE { f E OPTIONAL } END O DEFINITIONS ::= BEGIN EXPORTS ; C ::= NULL END";

// Types that have parts, or an alternative, of a type that is rejected, and types that no module gives.
static REJECTED: [Row; 2] = [
    (
        b"M DEFINITIONS ::= BEGIN IMPORTS F FROM N; A ::= SEQUENCE { COMPONENTS OF B, a NULL } B ::= SEQUENCE { b Foo } C ::= CHOICE { c Foo, d NULL } D ::= c < C E ::= d < C G ::= SEQUENCE { COMPONENTS OF F } END N DEFINITIONS ::= BEGIN F ::= SEQUENCE { f Foo } END",
        "E. = NULL\n0:42: this type is rejected\n0:104: this name is neither assigned nor imported\n0:127: this name is neither assigned nor imported\n0:141: this type is rejected\n0:165: this type is rejected\n1:247: this name is neither assigned nor imported\n",
    ),
    (
        NAMING,
        "C. private = NULL\n0:70: this name is neither assigned nor imported\n0:101: this name is neither assigned nor imported\n0:151: this type is rejected\n",
    ),
];

// Types that no module gives, and where they are rejected: after COMPONENTS OF, in a selection, and after the name of a module. A tag before one is
// IMPLICIT where it is before a type with a tag.
static INCOMPLETE: [Row; 4] = [
    (
        NAMING,
        "A. SEQUENCE a MISSING, b MISSING, c [0 E] MISSING, d MISSING, !missing !missing !missing !missing\nE. = MISSING !missing\nF. SEQUENCE f MISSING OPTIONAL, !missing\nC. private = NULL\n",
    ),
    (
        b"M DEFINITIONS IMPLICIT TAGS ::= BEGIN A ::= SEQUENCE { a [0] Foo } B ::= [1] EXPLICIT Foo C ::= SEQUENCE { c [2] B, d [3] SEQUENCE OF Foo } D ::= CHOICE { e [4] E } E ::= Foo F ::= SEQUENCE { f Foo, g [5] ANY } END N DEFINITIONS AUTOMATIC TAGS ::= BEGIN A ::= SEQUENCE { a Foo } B ::= SEQUENCE { b [0] EXPLICIT Foo } END",
        "A. SEQUENCE a [0 I] MISSING, !missing\nB. = [1 E] MISSING !missing\nC. SEQUENCE c [2 I] [1 E] MISSING, d [3 I] SEQUENCE OF MISSING, !missing !missing\nE. = MISSING !missing\nD. CHOICE e [4 I] MISSING, !missing\nF. SEQUENCE f MISSING, g [5 E] ANY, !missing\nA. SEQUENCE a [0 I] MISSING, !missing\nB. SEQUENCE b [0 E] MISSING, !missing\n",
    ),
    (
        b"M DEFINITIONS ::= BEGIN A {X} ::= SEQUENCE { a X } B ::= A {NULL} C ::= Foo {NULL} D ::= SEQUENCE { COMPONENTS OF Foo } E ::= e < Foo F ::= SEQUENCE { f N.Foo } END",
        "A. SEQUENCE a ANY, !parameter\nB. = #0\nC. = MISSING !missing\n0:114: this name is neither assigned nor imported\n0:130: this name is neither assigned nor imported\n0:155: this name is of a module that is not given\n",
    ),
    (
        b"M DEFINITIONS ::= BEGIN A ::= SEQUENCE { a [0] IMPLICIT B, b [1] B OPTIONAL } B ::= Foo C ::= [2] IMPLICIT Foo D ::= C (SIZE (1)) E ::= SET { c C, d [3] EXPLICIT Foo } F ::= SEQUENCE { e B OPTIONAL, f NULL } END N DEFINITIONS AUTOMATIC TAGS ::= BEGIN A ::= SEQUENCE { a NULL, b Foo OPTIONAL, c INTEGER } B ::= CHOICE { d NULL, e Foo } END",
        "B. = MISSING !missing\nA. SEQUENCE a [0 I] MISSING, b [1 E] MISSING OPTIONAL, !missing !missing\nC. = [2 I] MISSING !missing\nD. = [2 I] MISSING !missing !constraint\nE. SET c [2 I] MISSING, d [3 E] MISSING, !missing !missing\nA. SEQUENCE a [0 I] NULL, b [1 I] MISSING OPTIONAL, c [2 I] INTEGER, !missing\nB. CHOICE d [0 I] NULL, e [1 I] MISSING, !missing\n0:199: no tag distinguishes this part from another one at 185\n",
    ),
];

// Whether all modules are given.
#[derive(Clone, Copy)]
enum Given {
    All,
    Part,
}

// The types of modules.
fn resolved<'a>(
    alloc: Global,
    modules: &'a [Module<'a>],
    known: &'a [KnownType<'a>],
    given: Given,
) -> Result<Resolved<'a>, AllocError> {
    match given {
        Given::All => resolve(alloc, modules, known),
        Given::Part => resolve_incomplete(alloc, modules, known),
    }
}

// Whether modules are resolved to these lines, over the known types.
fn are_resolved_to<'a>(
    alloc: Global,
    modules: &'a [Module<'a>],
    known: &'a [KnownType<'a>],
    given: Given,
    lines: &str,
) -> bool {
    match resolved(alloc, modules, known, given) {
        Ok(resolved) => described(alloc, &resolved).text.as_str() == lines,
        Err(_) => false,
    }
}

// Whether a source is resolved to these lines, over the known types. Its modules are never freed, since they are lent for as long as it is.
fn is_resolved_to<'a>(
    alloc: Global,
    source: &'a [u8],
    known: &'a [KnownType<'a>],
    given: Given,
    lines: &str,
) -> bool {
    match parse(alloc, source) {
        Ok(modules) => are_resolved_to(alloc, modules.leak(), known, given, lines),
        Err(_) => false,
    }
}

// The first source of rows that isn't resolved to its lines.
fn first_other(
    alloc: Global,
    rows: &'static [Row],
    known: &'static [KnownType<'static>],
    given: Given,
) -> Option<&'static [u8]> {
    for (source, lines) in rows {
        if !is_resolved_to(alloc, source, known, given, lines) {
            return Some(source);
        }
    }
    None
}

#[test]
fn tags_are_resolved(rt: HostRuntime) {
    assert!(rt; first_other(rt.alloc(), &TAGS, &[], Given::All).is_none());
    assert!(rt; first_other(rt.alloc(), &AUTOMATIC_TAGS, &[], Given::All).is_none());
}

#[test]
fn values_and_constraints_are_resolved(rt: HostRuntime) {
    assert!(rt; first_other(rt.alloc(), &VALUES, &[], Given::All).is_none());
    assert!(rt; first_other(rt.alloc(), &CONSTRAINTS, &[], Given::All).is_none());
}

#[test]
fn names_are_resolved(rt: HostRuntime) {
    assert!(rt; first_other(rt.alloc(), &NAMES, &[], Given::All).is_none());
    assert!(rt; first_other(rt.alloc(), &OPEN, &[], Given::All).is_none());
    assert!(rt; first_other(rt.alloc(), &REJECTED, &[], Given::All).is_none());
    assert!(rt; first_other(rt.alloc(), &INCOMPLETE, &[], Given::Part).is_none());
}

static KNOWN: [KnownType<'static>; 1] = [KnownType {
    module: b"Times",
    name: b"Time",
    tags: &[
        Tag {
            class: TagClass::Universal,
            number: 23,
        },
        Tag {
            class: TagClass::Universal,
            number: 24,
        },
    ],
    is_untagged: true,
}];

// Types that are imported from a known module.
static IMPORTED: [Row; 3] = [
    (
        b"M DEFINITIONS IMPLICIT TAGS ::= BEGIN IMPORTS Time FROM Times; A ::= SEQUENCE { a [0] Time, b Time OPTIONAL, c Other.Time } END",
        "0:117: this name is of a module that is not given\n",
    ),
    (
        b"M DEFINITIONS IMPLICIT TAGS ::= BEGIN IMPORTS Time FROM Times; A ::= SEQUENCE { a [0] Time, b Time OPTIONAL, c Times.Time } END",
        "0:109: this part has the tag of another one at 92\n",
    ),
    (
        b"M DEFINITIONS IMPLICIT TAGS ::= BEGIN IMPORTS Time FROM Times; A ::= SEQUENCE { a [0] Time, b Time OPTIONAL } END",
        "A. SEQUENCE a [0 E] @0, b @0 OPTIONAL,\n",
    ),
];

#[test]
fn known_types_are_imported(rt: HostRuntime) {
    assert!(rt; first_other(rt.alloc(), &IMPORTED, &KNOWN, Given::All).is_none());
}
