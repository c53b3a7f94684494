//! Types of three, five and seven parts, each read and written as the tuple of them.

use crate::by_tuple::Measurement;
use yasna::models::{ObjectIdentifier, UTCTime};
use yasna::{ASN1Result, DEREncodable, DERWriter, EncodeShape, FromShape, Shaped};

/// The domain parameters of DSA (RFC 3279, 2.3.2), of at most 64 bits each.
#[derive(Drop)]
pub struct DomainParameters {
    pub prime: u64,
    pub subprime: u64,
    pub base: u64,
}

impl Shaped for DomainParameters {
    type Shape = (u64, u64, u64);

    ghost shape_of = { λ v. (v.prime, v.subprime, v.base) };
}

impl FromShape for DomainParameters {
    fn from_shape((prime, subprime, base): Self::Shape) -> DomainParameters {
        DomainParameters {
            prime,
            subprime,
            base,
        }
    }
}

impl EncodeShape for DomainParameters {
    fn encode_shape(&self, writer: DERWriter<'_>) -> ASN1Result<()> {
        (self.prime, self.subprime, self.base).encode_der(writer)
    }
}

/// The head of a request in the manner of SNMP (RFC 1157, 4): its version, its community, its number, and what went wrong
/// at which of its variables.
#[derive(Drop)]
pub struct RequestHeader {
    pub version: i64,
    pub community: Vec<u8>,
    pub request: i32,
    pub status: u16,
    pub index: u32,
}

impl Shaped for RequestHeader {
    type Shape = (i64, Vec<u8>, i32, u16, u32);

    ghost shape_of = { λ v. (v.version, v.community, v.request, v.status, v.index) };
}

impl FromShape for RequestHeader {
    fn from_shape((version, community, request, status, index): Self::Shape) -> RequestHeader {
        RequestHeader {
            version,
            community,
            request,
            status,
            index,
        }
    }
}

impl EncodeShape for RequestHeader {
    fn encode_shape(&self, writer: DERWriter<'_>) -> ASN1Result<()> {
        (
            self.version,
            &self.community,
            self.request,
            self.status,
            self.index,
        )
            .encode_der(writer)
    }
}

/// An entry of a directory: its name, its class, when it was made, its versions, a picture, the last measurement, and
/// whether it is in use.
#[derive(Drop)]
pub struct DirectoryEntry {
    pub name: String,
    pub class: ObjectIdentifier,
    pub made: UTCTime,
    pub versions: Vec<i64>,
    pub picture: Vec<u8>,
    pub measurement: Measurement,
    pub in_use: bool,
}

impl Shaped for DirectoryEntry {
    type Shape = (
        String,
        ObjectIdentifier,
        UTCTime,
        Vec<i64>,
        Vec<u8>,
        Measurement,
        bool,
    );

    ghost shape_of = { λ v. (v.name, v.class, v.made, v.versions, v.picture, v.measurement, v.in_use) };
}

impl FromShape for DirectoryEntry {
    fn from_shape(
        (name, class, made, versions, picture, measurement, in_use): Self::Shape,
    ) -> DirectoryEntry {
        DirectoryEntry {
            name,
            class,
            made,
            versions,
            picture,
            measurement,
            in_use,
        }
    }
}

impl EncodeShape for DirectoryEntry {
    fn encode_shape(&self, writer: DERWriter<'_>) -> ASN1Result<()> {
        (
            &self.name,
            &self.class,
            &self.made,
            &self.versions,
            &self.picture,
            &self.measurement,
            self.in_use,
        )
            .encode_der(writer)
    }
}
