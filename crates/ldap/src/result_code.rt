//! What became of an operation, as a number (RFC 4511, 4.1.9 and appendix A).
//!
//! ```text
//! ENUMERATED {
//!     success(0), operationsError(1), protocolError(2), timeLimitExceeded(3),
//!     sizeLimitExceeded(4), compareFalse(5), compareTrue(6), authMethodNotSupported(7),
//!     strongerAuthRequired(8), referral(10), adminLimitExceeded(11),
//!     unavailableCriticalExtension(12), confidentialityRequired(13), saslBindInProgress(14),
//!     noSuchAttribute(16), undefinedAttributeType(17), inappropriateMatching(18),
//!     constraintViolation(19), attributeOrValueExists(20), invalidAttributeSyntax(21),
//!     noSuchObject(32), aliasProblem(33), invalidDNSyntax(34), aliasDereferencingProblem(36),
//!     inappropriateAuthentication(48), invalidCredentials(49), insufficientAccessRights(50),
//!     busy(51), unavailable(52), unwillingToPerform(53), loopDetect(54), namingViolation(64),
//!     objectClassViolation(65), notAllowedOnNonLeaf(66), notAllowedOnRDN(67),
//!     entryAlreadyExists(68), objectClassModsProhibited(69), affectsMultipleDSAs(71),
//!     other(80), ... }
//! ```
ghost use Rattle.yasna_notation.specs.Bounded.{from_zero};
ghost use Rattle.ldap.specs.ResultCodes.{code_number, code_allowed, code_writable};

use yasna_notation_types::Numbered;

/// What became of an operation.
///
/// `Other` of a number that has a name is equal to the variant of this name, and is written and read as it.
#[derive(Clone, Copy, Debug, PartialEq, Eq)]
pub enum ResultCode {
    Success,
    /// The operation isn't in its place among others.
    OperationsError,
    /// The request doesn't have the syntax, or the structure, of the protocol.
    ProtocolError,
    TimeLimitExceeded,
    SizeLimitExceeded,
    CompareFalse,
    CompareTrue,
    AuthMethodNotSupported,
    StrongerAuthRequired,
    /// Other servers, which the result names, have to do it.
    Referral,
    AdminLimitExceeded,
    /// A critical control isn't recognized.
    UnavailableCriticalExtension,
    ConfidentialityRequired,
    /// The client has to send another request to bind.
    SaslBindInProgress,
    NoSuchAttribute,
    UndefinedAttributeType,
    InappropriateMatching,
    ConstraintViolation,
    AttributeOrValueExists,
    InvalidAttributeSyntax,
    NoSuchObject,
    AliasProblem,
    InvalidDnSyntax,
    AliasDereferencingProblem,
    InappropriateAuthentication,
    InvalidCredentials,
    InsufficientAccessRights,
    Busy,
    Unavailable,
    UnwillingToPerform,
    LoopDetect,
    NamingViolation,
    ObjectClassViolation,
    NotAllowedOnNonLeaf,
    NotAllowedOnRdn,
    EntryAlreadyExists,
    ObjectClassModsProhibited,
    AffectsMultipleDsas,
    /// `other`: an internal error.
    OtherError,
    /// A number that the module doesn't name, never negative.
    Other(i64),
}

impl Numbered for ResultCode {
    ghost number_of = { code_number };

    ghost named = { from_zero };

    ghost allowed = { code_allowed };

    fn number(&self) -> i64 {
        match self {
            ResultCode::Success => 0,
            ResultCode::OperationsError => 1,
            ResultCode::ProtocolError => 2,
            ResultCode::TimeLimitExceeded => 3,
            ResultCode::SizeLimitExceeded => 4,
            ResultCode::CompareFalse => 5,
            ResultCode::CompareTrue => 6,
            ResultCode::AuthMethodNotSupported => 7,
            ResultCode::StrongerAuthRequired => 8,
            ResultCode::Referral => 10,
            ResultCode::AdminLimitExceeded => 11,
            ResultCode::UnavailableCriticalExtension => 12,
            ResultCode::ConfidentialityRequired => 13,
            ResultCode::SaslBindInProgress => 14,
            ResultCode::NoSuchAttribute => 16,
            ResultCode::UndefinedAttributeType => 17,
            ResultCode::InappropriateMatching => 18,
            ResultCode::ConstraintViolation => 19,
            ResultCode::AttributeOrValueExists => 20,
            ResultCode::InvalidAttributeSyntax => 21,
            ResultCode::NoSuchObject => 32,
            ResultCode::AliasProblem => 33,
            ResultCode::InvalidDnSyntax => 34,
            ResultCode::AliasDereferencingProblem => 36,
            ResultCode::InappropriateAuthentication => 48,
            ResultCode::InvalidCredentials => 49,
            ResultCode::InsufficientAccessRights => 50,
            ResultCode::Busy => 51,
            ResultCode::Unavailable => 52,
            ResultCode::UnwillingToPerform => 53,
            ResultCode::LoopDetect => 54,
            ResultCode::NamingViolation => 64,
            ResultCode::ObjectClassViolation => 65,
            ResultCode::NotAllowedOnNonLeaf => 66,
            ResultCode::NotAllowedOnRdn => 67,
            ResultCode::EntryAlreadyExists => 68,
            ResultCode::ObjectClassModsProhibited => 69,
            ResultCode::AffectsMultipleDsas => 71,
            ResultCode::OtherError => 80,
            ResultCode::Other(number) => *number,
        }
    }

    fn from_number(number: i64) -> Option<ResultCode> {
        match number {
            0 => Some(ResultCode::Success),
            1 => Some(ResultCode::OperationsError),
            2 => Some(ResultCode::ProtocolError),
            3 => Some(ResultCode::TimeLimitExceeded),
            4 => Some(ResultCode::SizeLimitExceeded),
            5 => Some(ResultCode::CompareFalse),
            6 => Some(ResultCode::CompareTrue),
            7 => Some(ResultCode::AuthMethodNotSupported),
            8 => Some(ResultCode::StrongerAuthRequired),
            10 => Some(ResultCode::Referral),
            11 => Some(ResultCode::AdminLimitExceeded),
            12 => Some(ResultCode::UnavailableCriticalExtension),
            13 => Some(ResultCode::ConfidentialityRequired),
            14 => Some(ResultCode::SaslBindInProgress),
            16 => Some(ResultCode::NoSuchAttribute),
            17 => Some(ResultCode::UndefinedAttributeType),
            18 => Some(ResultCode::InappropriateMatching),
            19 => Some(ResultCode::ConstraintViolation),
            20 => Some(ResultCode::AttributeOrValueExists),
            21 => Some(ResultCode::InvalidAttributeSyntax),
            32 => Some(ResultCode::NoSuchObject),
            33 => Some(ResultCode::AliasProblem),
            34 => Some(ResultCode::InvalidDnSyntax),
            36 => Some(ResultCode::AliasDereferencingProblem),
            48 => Some(ResultCode::InappropriateAuthentication),
            49 => Some(ResultCode::InvalidCredentials),
            50 => Some(ResultCode::InsufficientAccessRights),
            51 => Some(ResultCode::Busy),
            52 => Some(ResultCode::Unavailable),
            53 => Some(ResultCode::UnwillingToPerform),
            54 => Some(ResultCode::LoopDetect),
            64 => Some(ResultCode::NamingViolation),
            65 => Some(ResultCode::ObjectClassViolation),
            66 => Some(ResultCode::NotAllowedOnNonLeaf),
            67 => Some(ResultCode::NotAllowedOnRdn),
            68 => Some(ResultCode::EntryAlreadyExists),
            69 => Some(ResultCode::ObjectClassModsProhibited),
            71 => Some(ResultCode::AffectsMultipleDsas),
            80 => Some(ResultCode::OtherError),
            _ if number >= 0 => Some(ResultCode::Other(number)),
            _ => None,
        }
    }

    ghost writable = { code_writable };
}
