//! The tags of the classes UNIVERSAL and PRIVATE that a module writes (X.680, 31), as types.
ghost use Rattle.std.specs.Prelude.{◌≡◌, ◌<◌, ◌^◌};
ghost use Rattle.std.proofs.Common.{arith, rules};
ghost use Rattle.yasna_base.specs.declared.tag.Tag.{Tag};
ghost use Rattle.yasna_base.specs.Identifier.{universal, end_tag};
ghost use Rattle.yasna_base.proofs.Identifier.{not_end};
ghost use Rattle.yasna_notation_types.specs.Tags.{private, private_not_end};

use yasna_base::tags::{
    TAG_BITSTRING, TAG_BMPSTRING, TAG_BOOLEAN, TAG_EMBEDDED_PDV, TAG_ENUM, TAG_EXT,
    TAG_GENERALIZEDTIME, TAG_GENERALSTRING, TAG_GRAPHICSTRING, TAG_IA5STRING, TAG_INTEGER,
    TAG_NULL, TAG_NUMERICSTRING, TAG_OBJECT_DESCRIPTOR, TAG_OCTETSTRING, TAG_OID,
    TAG_PRINTABLESTRING, TAG_REAL, TAG_RELATIVE_OID, TAG_SEQUENCE, TAG_SET, TAG_TELETEXSTRING,
    TAG_UNIVERSALSTRING, TAG_UTCTIME, TAG_UTF8STRING, TAG_VIDEOTEXSTRING, TAG_VISIBLESTRING,
};
use yasna_base::{Tag, TagClass};
use yasna_notation::TagName;

/// The tag that a module writes as `[PRIVATE N]`.
pub struct Private<const N: u64>;

impl<const N: u64> TagName for Private<N> {
    ghost tag = { private N };

    #[inline(always)]
    fn tag() -> Tag {
        Tag::private(N)
    }

    ghost in_range = { Prim.search rules };

    ghost not_end = { private_not_end N };
}

// The tag of a CHARACTER STRING (X.680, 44).
const TAG_CHARACTER_STRING: Tag = Tag {
    tag_class: TagClass::Universal,
    tag_number: 29,
};

/// The tag that X.680 writes as `[UNIVERSAL N]`, of a type that has no notation of its own, of elements as they came, or of a part of a SET that has
/// no other tag. A number that is of no type is no `TagName`, nor is 14, of TIME.
pub struct Universal<const N: u64>;

impl TagName for Universal<1> {
    ghost tag = { universal 1 };

    #[inline(always)]
    fn tag() -> Tag {
        TAG_BOOLEAN
    }

    ghost in_range = { omega arith };

    ghost not_end = { not_end 1 (λ e. omega arith) };
}

impl TagName for Universal<2> {
    ghost tag = { universal 2 };

    #[inline(always)]
    fn tag() -> Tag {
        TAG_INTEGER
    }

    ghost in_range = { omega arith };

    ghost not_end = { not_end 2 (λ e. omega arith) };
}

impl TagName for Universal<3> {
    ghost tag = { universal 3 };

    #[inline(always)]
    fn tag() -> Tag {
        TAG_BITSTRING
    }

    ghost in_range = { omega arith };

    ghost not_end = { not_end 3 (λ e. omega arith) };
}

impl TagName for Universal<4> {
    ghost tag = { universal 4 };

    #[inline(always)]
    fn tag() -> Tag {
        TAG_OCTETSTRING
    }

    ghost in_range = { omega arith };

    ghost not_end = { not_end 4 (λ e. omega arith) };
}

impl TagName for Universal<5> {
    ghost tag = { universal 5 };

    #[inline(always)]
    fn tag() -> Tag {
        TAG_NULL
    }

    ghost in_range = { omega arith };

    ghost not_end = { not_end 5 (λ e. omega arith) };
}

impl TagName for Universal<6> {
    ghost tag = { universal 6 };

    #[inline(always)]
    fn tag() -> Tag {
        TAG_OID
    }

    ghost in_range = { omega arith };

    ghost not_end = { not_end 6 (λ e. omega arith) };
}

impl TagName for Universal<7> {
    ghost tag = { universal 7 };

    #[inline(always)]
    fn tag() -> Tag {
        TAG_OBJECT_DESCRIPTOR
    }

    ghost in_range = { omega arith };

    ghost not_end = { not_end 7 (λ e. omega arith) };
}

impl TagName for Universal<8> {
    ghost tag = { universal 8 };

    #[inline(always)]
    fn tag() -> Tag {
        TAG_EXT
    }

    ghost in_range = { omega arith };

    ghost not_end = { not_end 8 (λ e. omega arith) };
}

impl TagName for Universal<9> {
    ghost tag = { universal 9 };

    #[inline(always)]
    fn tag() -> Tag {
        TAG_REAL
    }

    ghost in_range = { omega arith };

    ghost not_end = { not_end 9 (λ e. omega arith) };
}

impl TagName for Universal<10> {
    ghost tag = { universal 10 };

    #[inline(always)]
    fn tag() -> Tag {
        TAG_ENUM
    }

    ghost in_range = { omega arith };

    ghost not_end = { not_end 10 (λ e. omega arith) };
}

impl TagName for Universal<11> {
    ghost tag = { universal 11 };

    #[inline(always)]
    fn tag() -> Tag {
        TAG_EMBEDDED_PDV
    }

    ghost in_range = { omega arith };

    ghost not_end = { not_end 11 (λ e. omega arith) };
}

impl TagName for Universal<12> {
    ghost tag = { universal 12 };

    #[inline(always)]
    fn tag() -> Tag {
        TAG_UTF8STRING
    }

    ghost in_range = { omega arith };

    ghost not_end = { not_end 12 (λ e. omega arith) };
}

impl TagName for Universal<13> {
    ghost tag = { universal 13 };

    #[inline(always)]
    fn tag() -> Tag {
        TAG_RELATIVE_OID
    }

    ghost in_range = { omega arith };

    ghost not_end = { not_end 13 (λ e. omega arith) };
}

impl TagName for Universal<16> {
    ghost tag = { universal 16 };

    #[inline(always)]
    fn tag() -> Tag {
        TAG_SEQUENCE
    }

    ghost in_range = { omega arith };

    ghost not_end = { not_end 16 (λ e. omega arith) };
}

impl TagName for Universal<17> {
    ghost tag = { universal 17 };

    #[inline(always)]
    fn tag() -> Tag {
        TAG_SET
    }

    ghost in_range = { omega arith };

    ghost not_end = { not_end 17 (λ e. omega arith) };
}

impl TagName for Universal<18> {
    ghost tag = { universal 18 };

    #[inline(always)]
    fn tag() -> Tag {
        TAG_NUMERICSTRING
    }

    ghost in_range = { omega arith };

    ghost not_end = { not_end 18 (λ e. omega arith) };
}

impl TagName for Universal<19> {
    ghost tag = { universal 19 };

    #[inline(always)]
    fn tag() -> Tag {
        TAG_PRINTABLESTRING
    }

    ghost in_range = { omega arith };

    ghost not_end = { not_end 19 (λ e. omega arith) };
}

impl TagName for Universal<20> {
    ghost tag = { universal 20 };

    #[inline(always)]
    fn tag() -> Tag {
        TAG_TELETEXSTRING
    }

    ghost in_range = { omega arith };

    ghost not_end = { not_end 20 (λ e. omega arith) };
}

impl TagName for Universal<21> {
    ghost tag = { universal 21 };

    #[inline(always)]
    fn tag() -> Tag {
        TAG_VIDEOTEXSTRING
    }

    ghost in_range = { omega arith };

    ghost not_end = { not_end 21 (λ e. omega arith) };
}

impl TagName for Universal<22> {
    ghost tag = { universal 22 };

    #[inline(always)]
    fn tag() -> Tag {
        TAG_IA5STRING
    }

    ghost in_range = { omega arith };

    ghost not_end = { not_end 22 (λ e. omega arith) };
}

impl TagName for Universal<23> {
    ghost tag = { universal 23 };

    #[inline(always)]
    fn tag() -> Tag {
        TAG_UTCTIME
    }

    ghost in_range = { omega arith };

    ghost not_end = { not_end 23 (λ e. omega arith) };
}

impl TagName for Universal<24> {
    ghost tag = { universal 24 };

    #[inline(always)]
    fn tag() -> Tag {
        TAG_GENERALIZEDTIME
    }

    ghost in_range = { omega arith };

    ghost not_end = { not_end 24 (λ e. omega arith) };
}

impl TagName for Universal<25> {
    ghost tag = { universal 25 };

    #[inline(always)]
    fn tag() -> Tag {
        TAG_GRAPHICSTRING
    }

    ghost in_range = { omega arith };

    ghost not_end = { not_end 25 (λ e. omega arith) };
}

impl TagName for Universal<26> {
    ghost tag = { universal 26 };

    #[inline(always)]
    fn tag() -> Tag {
        TAG_VISIBLESTRING
    }

    ghost in_range = { omega arith };

    ghost not_end = { not_end 26 (λ e. omega arith) };
}

impl TagName for Universal<27> {
    ghost tag = { universal 27 };

    #[inline(always)]
    fn tag() -> Tag {
        TAG_GENERALSTRING
    }

    ghost in_range = { omega arith };

    ghost not_end = { not_end 27 (λ e. omega arith) };
}

impl TagName for Universal<28> {
    ghost tag = { universal 28 };

    #[inline(always)]
    fn tag() -> Tag {
        TAG_UNIVERSALSTRING
    }

    ghost in_range = { omega arith };

    ghost not_end = { not_end 28 (λ e. omega arith) };
}

impl TagName for Universal<29> {
    ghost tag = { universal 29 };

    #[inline(always)]
    fn tag() -> Tag {
        TAG_CHARACTER_STRING
    }

    ghost in_range = { omega arith };

    ghost not_end = { not_end 29 (λ e. omega arith) };
}

impl TagName for Universal<30> {
    ghost tag = { universal 30 };

    #[inline(always)]
    fn tag() -> Tag {
        TAG_BMPSTRING
    }

    ghost in_range = { omega arith };

    ghost not_end = { not_end 30 (λ e. omega arith) };
}
