//! Certificates and revocation lists, each with the bytes that its signature is over (RFC 5280, 4.1.1.3 and 5.1.1.3).
ghost use Rattle.std.specs.Prelude.{None, true};
ghost use Rattle.std.specs.Result.{IfOk};
ghost use Rattle.yasna.specs.Words.{AnyPart, IsFresh, part_of};
ghost use Rattle.yasna_notation.specs.FirstBytes.{PartsWithFirst, BeginsByPart};
ghost use Rattle.yasna_notation.specs.Notation.{ReadsMeaning, represented_by};
ghost use Rattle.yasna_notation.specs.Parts.{ReadsContents};

use crate::algorithm::AlgorithmIdentifier;
use crate::certificate::Certificate;
use crate::certificate_list::CertificateList;
use crate::tbs_cert_list::TbsCertList;
use crate::tbs_certificate::TbsCertificate;
use yasna::{ASN1Result, BERReader, BERReaderSeq};
use yasna_notation::{BitString, Notation, Parts, Represents, WithFirst, read_parts_with_first};

// What is after the part that is signed.
type Signature = (AlgorithmIdentifier, (BitString, ()));

// Its values.
type SignatureFields = (AlgorithmIdentifier, ((Vec<u8>, usize), ()));

/// A certificate or a revocation list, with the bytes that its signature is over.
#[derive(Drop)]
pub struct Signed<'a, T> {
    /// The certificate or the list.
    pub value: T,
    /// The bytes that are signed: the input's own.
    pub signed_bytes: &'a [u8],
}

// Reads the parts of a certificate, and returns the bytes of the first.
fn read_certificate_parts<'a>(
    seq: &mut BERReaderSeq<'a, '_>,
) -> ASN1Result<WithFirst<'a, TbsCertificate, SignatureFields>>
    requires { IsFresh (part_of seq.old) }
    ensures { ReadsContents true (PartsWithFirst (⟦<TbsCertificate as Notation>⟧.means.under None) ⟦<Signature as Parts>⟧.parts)
        (AnyPart (⟦<TbsCertificate as Notation>⟧.means.any_under None) ⟦<Signature as Parts>⟧.any_parts) (part_of seq.old) result (part_of seq.new) }
{
    read_parts_with_first::<TbsCertificate, Signature>(seq)
}

/// Reads a certificate as `Certificate` says, and returns the bytes of its `tbsCertificate` too.
pub fn read_signed_certificate<'a>(reader: BERReader<'a, '_>) -> ASN1Result<Signed<'a, Certificate>>
    ensures reads { ReadsMeaning (represented_by (λ v. v.value) ⟦<Certificate as Notation>⟧.means) reader.old result reader.new }
    ensures bytes { IfOk result (λ v. BeginsByPart (⟦<TbsCertificate as Notation>⟧.means.under None) reader.old v.value.tbs_certificate
        v.signed_bytes.now reader.new) }
{
    match reader.read_sequence(read_certificate_parts) {
        Ok(certificate) => Ok(Signed {
            value: Certificate::from_value((certificate.first, certificate.others)),
            signed_bytes: certificate.first_bytes,
        }),
        Err(error) => Err(error),
    }
}

// Reads the parts of a revocation list, and returns the bytes of the first.
fn read_list_parts<'a>(
    seq: &mut BERReaderSeq<'a, '_>,
) -> ASN1Result<WithFirst<'a, TbsCertList, SignatureFields>>
    requires { IsFresh (part_of seq.old) }
    ensures { ReadsContents true (PartsWithFirst (⟦<TbsCertList as Notation>⟧.means.under None) ⟦<Signature as Parts>⟧.parts)
        (AnyPart (⟦<TbsCertList as Notation>⟧.means.any_under None) ⟦<Signature as Parts>⟧.any_parts) (part_of seq.old) result (part_of seq.new) }
{
    read_parts_with_first::<TbsCertList, Signature>(seq)
}

/// Reads a revocation list as `CertificateList` says, and returns the bytes of its `tbsCertList` too.
pub fn read_signed_list<'a>(reader: BERReader<'a, '_>) -> ASN1Result<Signed<'a, CertificateList>>
    ensures reads { ReadsMeaning (represented_by (λ v. v.value) ⟦<CertificateList as Notation>⟧.means) reader.old result reader.new }
    ensures bytes { IfOk result (λ v. BeginsByPart (⟦<TbsCertList as Notation>⟧.means.under None) reader.old v.value.tbs_cert_list
        v.signed_bytes.now reader.new) }
{
    match reader.read_sequence(read_list_parts) {
        Ok(list) => Ok(Signed {
            value: CertificateList::from_value((list.first, list.others)),
            signed_bytes: list.first_bytes,
        }),
        Err(error) => Err(error),
    }
}
