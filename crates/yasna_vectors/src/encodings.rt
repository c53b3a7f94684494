//! Parses by the mode, and what is written of a value that was read: in CER where it was read in CER, else in DER.
ghost use Rattle.std.specs.Fn.{FnOnceTakesAtMut};
ghost use Rattle.yasna.specs.base.declared.mode.BERMode.TheVariants.{Cer};
ghost use Rattle.yasna.specs.reader.State.{starts};
ghost use Rattle.yasna.specs.writer.View.{begun, empty_writing};

use std::alloc::Global;
use yasna::{
    ASN1Result, BERMode, BERReader, DEREncodable, DERWriter, construct_cer, construct_der,
    encode_cer, encode_der, parse_ber, parse_cer, parse_der,
};

/// What a callback reads by the parse of this mode.
pub fn parse_in<'a, T: Drop, F>(
    alloc: Global,
    mode: BERMode,
    bytes: &'a [u8],
    callback: F,
) -> ASN1Result<T>
where
    F: for<'b> FnOnce(BERReader<'a, 'b>) -> ASN1Result<T>,
    requires { FnOnceTakesAtMut F.FnOnce callback (starts bytes.now mode) }
{
    match mode {
        BERMode::Ber => parse_ber(alloc, bytes, callback),
        BERMode::Der => parse_der(alloc, bytes, callback),
        BERMode::Cer => parse_cer(alloc, bytes, callback),
    }
}

/// What a closure writes of what was read in this mode.
pub fn construct_in<F: FnOnce(DERWriter<'_>) -> ASN1Result<()>>(
    alloc: Global,
    mode: BERMode,
    f: F,
) -> ASN1Result<Vec<u8>>
    requires der { FnOnceTakesAtMut F.FnOnce f empty_writing }
    requires cer { FnOnceTakesAtMut F.FnOnce f (begun Cer) }
{
    match mode {
        BERMode::Cer => construct_cer(alloc, f),
        BERMode::Ber | BERMode::Der => construct_der(alloc, f),
    }
}

/// What encoding a value returns that was read in this mode.
pub fn encode_in<T: DEREncodable>(alloc: Global, mode: BERMode, value: &T) -> ASN1Result<Vec<u8>>
    requires { T.encodable value.now }
{
    match mode {
        BERMode::Cer => encode_cer(alloc, value),
        BERMode::Ber | BERMode::Der => encode_der(alloc, value),
    }
}
