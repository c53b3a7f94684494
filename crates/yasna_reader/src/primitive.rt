//! Reads of types of one primitive element: BOOLEAN, NULL, INTEGER, ENUMERATED and OBJECT IDENTIFIER (X.690, 8.2 to 8.4,
//! 8.8 and 8.19). Users call them on a reader.
ghost use Rattle.yasna_base.specs.Boolean.{boolean_tag};
ghost use Rattle.yasna_base.specs.Enumerated.{enumerated_tag};
ghost use Rattle.yasna_base.specs.Integer.{integer_tag};
ghost use Rattle.yasna_base.specs.Null.{null_tag};
ghost use Rattle.yasna_base.specs.Oid.{oid_tag};

use crate::state::ReaderState;
use yasna_base::error::ASN1Result;
use yasna_base::models::ObjectIdentifier;
use yasna_base::tag::Tag;
use yasna_base::tags::{TAG_BOOLEAN, TAG_ENUM, TAG_INTEGER, TAG_NULL, TAG_OID};
use yasna_bytes::bytes::contents::{Contents, read_value};
use yasna_bytes::bytes::header::Rejection;

impl<'a> ReaderState<'a> {
    ghost use Rattle.std.specs.Int.{w64, w32, w16, w8};
    ghost use Rattle.yasna_base.specs.Element.{Primitively};
    ghost use Rattle.yasna_base.specs.BigInteger.{IsBigInteger};
    ghost use Rattle.yasna_base.specs.Boolean.{IsBoolean};
    ghost use Rattle.yasna_base.specs.Null.{IsNull};
    ghost use Rattle.yasna_base.specs.Oid.{AreComponents};
    ghost use Rattle.yasna_base.specs.Integer.{IsSigned, IsUnsigned};
    ghost use Rattle.yasna_bytes.specs.Contents.{big_integer_in, NeverAllocates, MayAllocate};
    ghost use Rattle.yasna_reader.specs.Primitive.{Reads, ReadsSeen, ParsesAs, NoLevel};

    /// Reads BOOLEAN (X.690, 8.2): 0 is false, and any other byte true in BER.
    ///
    /// In DER and CER only 255 is true (11.1). Other contents are `Invalid`.
    #[inline(always)]
    pub fn read_bool(&mut self) -> ASN1Result<bool>
        ensures { Reads (Primitively IsBoolean) NoLevel NeverAllocates boolean_tag self.old result self.new }
    {
        self.read_primitive::<bool>(TAG_BOOLEAN)
    }

    /// Reads NULL (X.690, 8.8). It has no contents: any are `Invalid`.
    #[inline(always)]
    pub fn read_null(&mut self) -> ASN1Result<()>
        ensures { Reads (Primitively IsNull) NoLevel NeverAllocates null_tag self.old result self.new }
    {
        self.read_primitive::<()>(TAG_NULL)
    }

    /// Reads ENUMERATED (X.690, 8.4): its number, as `read_i64` reads that of an INTEGER.
    #[inline(always)]
    pub fn read_enum(&mut self) -> ASN1Result<i64>
        ensures { Reads (Primitively (IsSigned w64)) NoLevel NeverAllocates enumerated_tag self.old result self.new }
    {
        self.read_primitive::<i64>(TAG_ENUM)
    }

    /// Reads INTEGER (X.690, 8.3).
    ///
    /// Contents that aren't the fewest bytes of a number are `Invalid`, and a number outside the type is `IntegerOverflow`.
    #[inline(always)]
    pub fn read_i64(&mut self) -> ASN1Result<i64>
        ensures { Reads (Primitively (IsSigned w64)) NoLevel NeverAllocates integer_tag self.old result self.new }
    {
        self.read_primitive::<i64>(TAG_INTEGER)
    }

    /// Reads INTEGER (X.690, 8.3), as `read_i64` does: a number outside the type is `IntegerOverflow`.
    #[inline(always)]
    pub fn read_i32(&mut self) -> ASN1Result<i32>
        ensures { Reads (Primitively (IsSigned w32)) NoLevel NeverAllocates integer_tag self.old result self.new }
    {
        self.read_primitive::<i32>(TAG_INTEGER)
    }

    /// Reads INTEGER (X.690, 8.3), as `read_i64` does: a number outside the type is `IntegerOverflow`.
    #[inline(always)]
    pub fn read_i16(&mut self) -> ASN1Result<i16>
        ensures { Reads (Primitively (IsSigned w16)) NoLevel NeverAllocates integer_tag self.old result self.new }
    {
        self.read_primitive::<i16>(TAG_INTEGER)
    }

    /// Reads INTEGER (X.690, 8.3), as `read_i64` does: a number outside the type is `IntegerOverflow`.
    #[inline(always)]
    pub fn read_i8(&mut self) -> ASN1Result<i8>
        ensures { Reads (Primitively (IsSigned w8)) NoLevel NeverAllocates integer_tag self.old result self.new }
    {
        self.read_primitive::<i8>(TAG_INTEGER)
    }

    /// Reads INTEGER (X.690, 8.3), as `read_i64` does: a number outside the type is `IntegerOverflow`.
    #[inline(always)]
    pub fn read_u64(&mut self) -> ASN1Result<u64>
        ensures { Reads (Primitively (IsUnsigned 64)) NoLevel NeverAllocates integer_tag self.old result self.new }
    {
        self.read_primitive::<u64>(TAG_INTEGER)
    }

    /// Reads INTEGER (X.690, 8.3), as `read_i64` does: a number outside the type is `IntegerOverflow`.
    #[inline(always)]
    pub fn read_u32(&mut self) -> ASN1Result<u32>
        ensures { Reads (Primitively (IsUnsigned 32)) NoLevel NeverAllocates integer_tag self.old result self.new }
    {
        self.read_primitive::<u32>(TAG_INTEGER)
    }

    /// Reads INTEGER (X.690, 8.3), as `read_i64` does: a number outside the type is `IntegerOverflow`.
    #[inline(always)]
    pub fn read_u16(&mut self) -> ASN1Result<u16>
        ensures { Reads (Primitively (IsUnsigned 16)) NoLevel NeverAllocates integer_tag self.old result self.new }
    {
        self.read_primitive::<u16>(TAG_INTEGER)
    }

    /// Reads INTEGER (X.690, 8.3), as `read_i64` does: a number outside the type is `IntegerOverflow`.
    #[inline(always)]
    pub fn read_u8(&mut self) -> ASN1Result<u8>
        ensures { Reads (Primitively (IsUnsigned 8)) NoLevel NeverAllocates integer_tag self.old result self.new }
    {
        self.read_primitive::<u8>(TAG_INTEGER)
    }

    /// Reads INTEGER of any size (X.690, 8.3): its contents, highest byte first in two's complement, and true where it isn't negative.
    ///
    /// Contents that aren't the fewest bytes of a number are `Invalid`.
    #[inline(always)]
    pub fn read_bigint_bytes(&mut self) -> ASN1Result<(Vec<u8>, bool)>
        ensures { ReadsSeen (Primitively IsBigInteger) big_integer_in NoLevel MayAllocate integer_tag self.old result self.new }
    {
        self.read_primitive::<(Vec<u8>, bool)>(TAG_INTEGER)
    }

    /// Reads OBJECT IDENTIFIER (X.690, 8.19).
    ///
    /// A subidentifier past 2^64-1 is `IntegerOverflow`. One that begins with 128 or has no end is `Invalid`, and so are empty contents.
    #[inline(always)]
    pub fn read_oid(&mut self) -> ASN1Result<ObjectIdentifier>
        ensures { Reads (Primitively AreComponents) NoLevel MayAllocate oid_tag self.old result self.new }
    {
        self.read_primitive::<ObjectIdentifier>(TAG_OID)
    }

    // Parses the next element as one of a primitive type.
    #[inline(always)]
    fn parse_primitive<T: Contents>(&self, tag: Tag) -> Result<(T, &'a [u8]), Rejection>
        ensures { ParsesAs (Primitively T.means) T.view NoLevel T.may_allocate tag self.now result }
    {
        read_value(self.alloc, self.cursor, self.expected(tag))
    }

    // Reads an element of one primitive type.
    #[inline(always)]
    #[tactic(auto, using(crate::proofs::Primitives::reads_prefix, crate::proofs::Primitives::reads_sticky))]
    fn read_primitive<T: Contents + Drop>(&mut self, tag: Tag) -> ASN1Result<T>
        ensures { ReadsSeen (Primitively T.means) T.view NoLevel T.may_allocate tag self.old result self.new }
    {
        if let Some(error) = self.failed {
            return Err(error);
        }
        let parsed = self.parse_primitive::<T>(tag);
        self.commit(parsed)
    }
}
