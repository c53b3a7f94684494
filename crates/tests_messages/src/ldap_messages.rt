//! Messages of LDAP (RFC 4511), made by hand where no program is named.

use crate::checks::{Claim, Fields, Looks, finds_none};
use crate::kinds::{Kind, Row, first_failing};
use ldap::{
    Control, DerefAliases, Filter, FilterItem, LdapMessage, PartialAttribute, ProtocolOp,
    ResultCode, Scope,
};
use yasna::BERMode::Ber;

static ROWS: [Row; 77] = [
    // messages in DER
    (
        Kind::LdapMessage,
        Claim::IsEncoding,
        "bind request, simple password",
        "301a02010160150201030408636e3d61646d696e8006736563726574",
    ),
    (
        Kind::LdapMessage,
        Claim::IsEncoding,
        "bind request of nobody",
        "300c020101600702010304008000",
    ),
    (
        Kind::LdapMessage,
        Claim::IsEncoding,
        "bind request, SASL PLAIN with credentials",
        "301d02010160180201030400a3110405504c41494e04080075736572007077",
    ),
    (
        Kind::LdapMessage,
        Claim::IsEncoding,
        "bind request, SASL EXTERNAL without credentials",
        "301902047fffffff601102017f0400a30a040845585445524e414c",
    ),
    (
        Kind::LdapMessage,
        Claim::IsEncoding,
        "bind response, success",
        "300c02010161070a010004000400",
    ),
    (
        Kind::LdapMessage,
        Claim::IsEncoding,
        "bind response, referral (10) to two servers, SASL credentials",
        "3031020101612c0a010a040464633d610405676f206f6ea31604096c6461703a2f2f612f04096c6461703a2f\
         2f622f87020102",
    ),
    (
        Kind::LdapMessage,
        Claim::IsEncoding,
        "bind response with SASL credentials alone",
        "3011020101610c0a010e040004008703723d31",
    ),
    (
        Kind::LdapMessage,
        Claim::IsEncoding,
        "unbind request",
        "30050201034200",
    ),
    (
        Kind::LdapMessage,
        Claim::IsEncoding,
        "search result entry, two attributes, one with no values",
        "3023020102641e0404636e3d613016300c0402636e310604016104016230060402736e3100",
    ),
    (
        Kind::LdapMessage,
        Claim::IsEncoding,
        "search result entry, no attributes",
        "300d02010264080404636e3d613000",
    ),
    (
        Kind::LdapMessage,
        Claim::IsEncoding,
        "search result done, success",
        "300c02010265070a010004000400",
    ),
    (
        Kind::LdapMessage,
        Claim::IsEncoding,
        "search result done, noSuchObject (32)",
        "3014020102650f0a0120040464633d6104046e6f6e65",
    ),
    (
        Kind::LdapMessage,
        Claim::IsEncoding,
        "search result reference",
        "3014020102730f040d6c6461703a2f2f612f64633d61",
    ),
    (
        Kind::LdapMessage,
        Claim::IsEncoding,
        "search result done with a critical control and one that has no value",
        "303d02010265070a010004000400a02f30240416312e322e3834302e3131333535362e312e342e3331390101\
         ff04073005020100040030070405312e322e33",
    ),
    (
        Kind::LdapMessage,
        Claim::IsEncoding,
        "notice with message number 0",
        "300e02010065070a010004000400a000",
    ),
    (
        Kind::LdapMessage,
        Claim::IsEncoding,
        "search request, (objectClass=*)",
        "30290201026324040464633d610a01020a0100020100020100010100870b6f626a656374436c6173733000",
    ),
    (
        Kind::LdapMessage,
        Claim::IsEncoding,
        "search request, (cn=x), one level, limits, attributes",
        "3030020102632b040464633d610a01010a010302047fffffff02011e0101ffa3070402636e04017830080402\
         636e0402736e",
    ),
    (
        Kind::LdapMessage,
        Claim::IsEncoding,
        "search request, (&(cn=x)(!(objectClass=*)))",
        "30360201026331040464633d610a01020a0100020100020100010100a018a20d870b6f626a656374436c6173\
         73a3070402636e0401783000",
    ),
    (
        Kind::LdapMessage,
        Claim::IsEncoding,
        "search request, (|(cn=a*b*c)(sn>=m)(sn<=n)(cn~=y))",
        "304a0201026345040464633d610a01020a0100020100020100010100a12ca40f0402636e3009800161810162\
         820163a5070402736e04016da6070402736e04016ea8070402636e0401793000",
    ),
    (
        Kind::LdapMessage,
        Claim::IsEncoding,
        "search request, (cn:dn:2.5.13.5:=v)",
        "3032020102632d040464633d610a01020a0100020100020100010100a9148108322e352e31332e358202636e\
         8301768401ff3000",
    ),
    (
        Kind::LdapMessage,
        Claim::IsEncoding,
        "search request, (&(|(!(!(cn=x)))(objectClass=*))(cn=x))",
        "3043020102633e040464633d610a01020a0100020100020100010100a025a11a870b6f626a656374436c6173\
         73a20ba209a3070402636e040178a3070402636e0401783000",
    ),
    (
        Kind::LdapMessage,
        Claim::IsEncoding,
        "search request, a filter turned 97 times",
        "308201100201026382010904000a01020a0100020100020100010100a281f3a281f0a281eda281eaa281e7a2\
         81e4a281e1a281dea281dba281d8a281d5a281d2a281cfa281cca281c9a281c6a281c3a281c0a281bda281ba\
         a281b7a281b4a281b1a281aea281aba281a8a281a5a281a2a2819fa2819ca28199a28196a28193a28190a281\
         8da2818aa28187a28184a28181a27fa27da27ba279a277a275a273a271a26fa26da26ba269a267a265a263a2\
         61a25fa25da25ba259a257a255a253a251a24fa24da24ba249a247a245a243a241a23fa23da23ba239a237a2\
         35a233a231a22fa22da22ba229a227a225a223a221a21fa21da21ba219a217a215a213a211a20fa20d870b6f\
         626a656374436c6173733000",
    ),
    (
        Kind::LdapMessage,
        Claim::IsEncoding,
        "search request, scope 3, as `ldapsearch -s children -b dc=a` sends it",
        "30290201026324040464633d610a01030a0100020100020100010100870b6f626a656374636c6173733000",
    ),
    (
        Kind::LdapMessage,
        Claim::IsEncoding,
        "search request, derefAliases 4",
        "30290201026324040464633d610a01020a0104020100020100010100870b6f626a656374436c6173733000",
    ),
    (
        Kind::LdapMessage,
        Claim::IsEncoding,
        "search result done, code 123, which the module doesn't name",
        "300c02010265070a017b04000400",
    ),
    // components and alternatives that the module doesn't name
    (
        Kind::LdapMessage,
        Claim::IsEncoding,
        "bind request, authentication [1]",
        "300d02010160080201030400810161",
    ),
    (
        Kind::LdapMessage,
        Claim::IsEncoding,
        "request for TLS, an ExtendedRequest, as `openssl s_client -starttls ldap` sends it",
        "301d02010177188016312e332e362e312e342e312e313436362e3230303337",
    ),
    (
        Kind::LdapMessage,
        Claim::IsEncoding,
        "response to it",
        "300c02010178070a010004000400",
    ),
    (
        Kind::LdapMessage,
        Claim::IsEncoding,
        "modify request",
        "301d0201026618040464633d613010300e0a010230090402736e310304016d",
    ),
    (
        Kind::LdapMessage,
        Claim::IsEncoding,
        "unbind request with an unknown component after it",
        "30070201034200a100",
    ),
    (
        Kind::LdapMessage,
        Claim::IsEncoding,
        "unknown component, and what would be controls before it",
        "30090201034200a100a000",
    ),
    (
        Kind::LdapMessage,
        Claim::IsEncoding,
        "search result done, unknown [5]",
        "300f020102650a0a010004000400850178",
    ),
    (
        Kind::LdapMessage,
        Claim::IsEncoding,
        "search result done, unknown NULL",
        "300e02010265090a0100040004000500",
    ),
    (
        Kind::LdapMessage,
        Claim::IsEncoding,
        "bind response, SASL credentials and unknown [8]",
        "3014020101610f0a0100040004008703723d31880178",
    ),
    (
        Kind::LdapMessage,
        Claim::IsEncoding,
        "bind response, unknown [8]",
        "300f020101610a0a010004000400880178",
    ),
    (
        Kind::LdapMessage,
        Claim::IsEncoding,
        "bind request, unknown [1] after the authentication",
        "300f020101600a02010304008000810178",
    ),
    (
        Kind::LdapMessage,
        Claim::IsEncoding,
        "bind request, unknown INTEGER after SASL credentials",
        "301c02010160170201030400a3100405504c41494e040400750070020105",
    ),
    (
        Kind::LdapMessage,
        Claim::IsEncoding,
        "search request, unknown [0]",
        "302c0201026327040464633d610a01020a0100020100020100010100870b6f626a656374436c6173733000800178",
    ),
    (
        Kind::LdapMessage,
        Claim::IsEncoding,
        "search result entry, unknown [1], and unknown [0] in an attribute",
        "301e02010264190404636e3d61300e300c0402636e3103040161800179810178",
    ),
    (
        Kind::LdapMessage,
        Claim::IsEncoding,
        "control, unknown [0]",
        "302002010265070a010004000400a01230100405312e322e330101ff040176800178",
    ),
    (
        Kind::LdapMessage,
        Claim::Says(Ber, Fields::Unknown),
        "operation of unknown tag, which is a length longer than its shortest",
        "30090201026b81030a0100",
    ),
    (
        Kind::LdapMessage,
        Claim::Says(Ber, Fields::Unknown),
        "that a component is unknown",
        "30070201034200a100",
    ),
    (
        Kind::LdapMessage,
        Claim::Says(Ber, Fields::Numbers),
        "that the scope is 3",
        "30290201026324040464633d610a01030a0100020100020100010100870b6f626a656374636c6173733000",
    ),
    (
        Kind::LdapMessage,
        Claim::Says(Ber, Fields::Numbers),
        "that there is noSuchObject",
        "3014020102650f0a0120040464633d6104046e6f6e65",
    ),
    (
        Kind::LdapMessage,
        Claim::IsRejected(Ber),
        "controls twice",
        "30090201034200a000a000",
    ),
    (
        Kind::LdapMessage,
        Claim::IsRejected(Ber),
        "referral twice",
        "302602010265210a010004000400a30b04096c6461703a2f2f612fa30b04096c6461703a2f2f612f",
    ),
    (
        Kind::LdapMessage,
        Claim::IsRejected(Ber),
        "control with two values",
        "301d02010265070a010004000400a00f300d0405312e322e33040176040177",
    ),
    // no messages in any encoding rules
    (
        Kind::LdapMessage,
        Claim::IsRejected(Ber),
        "version 0",
        "300c020101600702010004008000",
    ),
    (
        Kind::LdapMessage,
        Claim::IsRejected(Ber),
        "version 128",
        "300d02010160080202008004008000",
    ),
    (
        Kind::LdapMessage,
        Claim::IsRejected(Ber),
        "message number -1",
        "30050201ff4200",
    ),
    (
        Kind::LdapMessage,
        Claim::IsRejected(Ber),
        "message number 2^31",
        "3009020500800000004200",
    ),
    (
        Kind::LdapMessage,
        Claim::IsRejected(Ber),
        "reference to no server",
        "30050201027300",
    ),
    (
        Kind::LdapMessage,
        Claim::IsRejected(Ber),
        "referral to no server",
        "300e02010161090a010004000400a300",
    ),
    (
        Kind::LdapMessage,
        Claim::IsRejected(Ber),
        "result code -1",
        "300c02010265070a01ff04000400",
    ),
    (
        Kind::LdapMessage,
        Claim::IsRejected(Ber),
        "no operation of this tag",
        "30050201024500",
    ),
    (
        Kind::LdapMessage,
        Claim::IsRejected(Ber),
        "search request, (&), which is a filter of none",
        "301e0201026319040464633d610a01020a0100020100020100010100a0003000",
    ),
    (
        Kind::LdapMessage,
        Claim::IsRejected(Ber),
        "search request, (|)",
        "301e0201026319040464633d610a01020a0100020100020100010100a1003000",
    ),
    (
        Kind::LdapMessage,
        Claim::IsRejected(Ber),
        "search request, not of none",
        "301e0201026319040464633d610a01020a0100020100020100010100a2003000",
    ),
    (
        Kind::LdapMessage,
        Claim::IsRejected(Ber),
        "search request, not of two",
        "3034020102632f040464633d610a01020a0100020100020100010100a216a3070402636e040178870b6f626a\
         656374436c6173733000",
    ),
    (
        Kind::LdapMessage,
        Claim::IsRejected(Ber),
        "search request, no part of a string",
        "3024020102631f040464633d610a01020a0100020100020100010100a4060402636e30003000",
    ),
    (
        Kind::LdapMessage,
        Claim::IsRejected(Ber),
        "search request, scope -1",
        "30290201026324040464633d610a01ff0a0100020100020100010100870b6f626a656374436c6173733000",
    ),
    (
        Kind::LdapMessage,
        Claim::IsRejected(Ber),
        "search request, sizeLimit 2^31",
        "302d0201026328040464633d610a01020a010002050080000000020100010100870b6f626a656374436c6173\
         733000",
    ),
    (
        Kind::LdapMessage,
        Claim::IsRejected(Ber),
        "search request, filter [10]",
        "301f020102631a040464633d610a01020a01000201000201000101008a01783000",
    ),
    // messages in BER that are no DER encodings
    (
        Kind::LdapMessage,
        Claim::Says(Ber, Fields::All),
        "unbind request, indefinite length",
        "308002010342000000",
    ),
    (
        Kind::LdapMessage,
        Claim::IsNoEncoding,
        "no DER encoding: unbind request, indefinite length",
        "308002010342000000",
    ),
    (
        Kind::LdapMessage,
        Claim::Says(Ber, Fields::All),
        "criticality FALSE written out",
        "301a02010265070a010004000400a00c300a0405312e322e33010100",
    ),
    (
        Kind::LdapMessage,
        Claim::IsNoEncoding,
        "no DER encoding: criticality FALSE written out",
        "301a02010265070a010004000400a00c300a0405312e322e33010100",
    ),
    (
        Kind::LdapMessage,
        Claim::Says(Ber, Fields::All),
        "values in another order",
        "301b02010264160404636e3d61300e300c0402636e3106040162040161",
    ),
    (
        Kind::LdapMessage,
        Claim::IsNoEncoding,
        "no DER encoding: values in another order",
        "301b02010264160404636e3d61300e300c0402636e3106040162040161",
    ),
    // filters in BER, and their DER encodings, which come back
    (
        Kind::LdapFilter,
        Claim::Becomes("a016870b6f626a656374436c617373a3070402636e040178"),
        "filters in another order",
        "a016a3070402636e040178870b6f626a656374436c617373",
    ),
    (
        Kind::LdapFilter,
        Claim::IsEncoding,
        "DER encoding of: filters in another order",
        "a016870b6f626a656374436c617373a3070402636e040178",
    ),
    (
        Kind::LdapFilter,
        Claim::Becomes("a903830176"),
        "dnAttributes FALSE written out",
        "a906830176840100",
    ),
    (
        Kind::LdapFilter,
        Claim::IsEncoding,
        "DER encoding of: dnAttributes FALSE written out",
        "a903830176",
    ),
    // the DER encodings of these messages
    (
        Kind::LdapMessage,
        Claim::IsEncoding,
        "DER encoding of: unbind request, indefinite length",
        "30050201034200",
    ),
    (
        Kind::LdapMessage,
        Claim::IsEncoding,
        "DER encoding of: criticality FALSE written out",
        "301702010265070a010004000400a00930070405312e322e33",
    ),
    (
        Kind::LdapMessage,
        Claim::IsEncoding,
        "DER encoding of: values in another order",
        "301b02010264160404636e3d61300e300c0402636e3106040161040162",
    ),
    // what a search asks
    (
        Kind::LdapMessage,
        Claim::Says(Ber, Fields::All),
        "what (&(cn=x)(!(objectClass=*))) asks",
        "30360201026331040464633d610a01020a0100020100020100010100a018a20d870b6f626a656374436c6173\
     73a3070402636e0401783000",
    ),
];

impl Looks for LdapMessage {
    fn has(&self, fields: Fields) -> bool {
        match fields {
            Fields::Numbers => has_numbers(&self.protocol_op),
            Fields::Unknown => is_unknown(self),
            _ => is_whole(self),
        }
    }
}

// Whether its numbers are those that the rows speak of.
fn has_numbers(operation: &ProtocolOp) -> bool {
    match operation {
        ProtocolOp::SearchRequest(request) => {
            request.scope == Scope::Other(3)
                && request.deref_aliases == DerefAliases::NeverDerefAliases
        }
        ProtocolOp::SearchResultDone(done) => done.result.result_code == ResultCode::NoSuchObject,
        _ => false,
    }
}

// Whether the operation is unknown, or one component is.
fn is_unknown(message: &LdapMessage) -> bool {
    match &message.protocol_op {
        ProtocolOp::Unknown(_) => message.unknown.is_empty(),
        _ => message.unknown.len() == 1,
    }
}

// Whether it asks for what isn't one thing and equals another, has an attribute with two values, one control, or asks to unbind.
fn is_whole(message: &LdapMessage) -> bool {
    match &message.protocol_op {
        ProtocolOp::SearchRequest(request) => has_both(&request.filter),
        ProtocolOp::SearchResultEntry(entry) => has_two_values(&entry.attributes),
        ProtocolOp::SearchResultDone(_) => has_control(&message.controls),
        ProtocolOp::UnbindRequest(_) => true,
        _ => false,
    }
}

fn has_two_values(attributes: &[PartialAttribute]) -> bool {
    match attributes {
        [attribute] => attribute.vals.len() == 2,
        _ => false,
    }
}

// Whether there is one control, which isn't critical.
fn has_control(controls: &Option<Vec<Control>>) -> bool {
    match controls {
        Some(controls) => match controls.as_slice() {
            [control] => !control.criticality,
            _ => false,
        },
        None => false,
    }
}

fn has_both(filter: &Filter) -> bool {
    match filter {
        Filter::And(filters) => matches!(
            filters.as_slice(),
            [Filter::Not(_), Filter::Item(FilterItem::EqualityMatch(_))]
        ),
        _ => false,
    }
}

// They come back, others are rejected, what BER reads is written anew, and what a search asks.
#[test]
fn messages_round_trip_or_are_rejected(rt: HostRuntime) {
    finds_none(&rt, first_failing(rt.alloc(), &ROWS));
}
