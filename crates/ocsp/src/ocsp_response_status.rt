//! `OCSPResponseStatus` of the module OCSP.
//!
//! ```text
//! OCSPResponseStatus ::= ENUMERATED {
//!     successful        (0),
//!     malformedRequest  (1),
//!     internalError     (2),
//!     tryLater          (3),
//!     sigRequired       (5),
//!     unauthorized      (6) }
//! ```
ghost use Rattle.std.specs.Ordering.{on, int_eq};
ghost use Rattle.std.specs.Cmp.{partial_equiv_from_equiv};
ghost use Rattle.std.proofs.lemmas.Cmp.{on_equiv, int_eq_equiv};
ghost use Rattle.ocsp.specs.OcspResponseStatus.{ocsp_response_status_number, ocsp_response_status_named, ocsp_response_status_allowed, ocsp_response_status_writable};

use yasna_notation_types::Numbered;

/// `OCSPResponseStatus`.
#[derive(Clone, Copy)]
pub enum OcspResponseStatus {
    Successful,
    MalformedRequest,
    InternalError,
    TryLater,
    SigRequired,
    Unauthorized,
}

impl Numbered for OcspResponseStatus {
    ghost number_of = { ocsp_response_status_number };

    ghost named = { ocsp_response_status_named };

    ghost allowed = { ocsp_response_status_allowed };

    fn number(&self) -> i64 {
        match self {
            OcspResponseStatus::Successful => 0,
            OcspResponseStatus::MalformedRequest => 1,
            OcspResponseStatus::InternalError => 2,
            OcspResponseStatus::TryLater => 3,
            OcspResponseStatus::SigRequired => 5,
            OcspResponseStatus::Unauthorized => 6,
        }
    }

    fn from_number(number: i64) -> Option<OcspResponseStatus> {
        match number {
            0 => Some(OcspResponseStatus::Successful),
            1 => Some(OcspResponseStatus::MalformedRequest),
            2 => Some(OcspResponseStatus::InternalError),
            3 => Some(OcspResponseStatus::TryLater),
            5 => Some(OcspResponseStatus::SigRequired),
            6 => Some(OcspResponseStatus::Unauthorized),
            _ => None,
        }
    }

    ghost writable = { ocsp_response_status_writable };
}

impl PartialEq for OcspResponseStatus {
    ghost eq = { on ocsp_response_status_number int_eq };

    ghost laws = { partial_equiv_from_equiv (on_equiv ocsp_response_status_number int_eq_equiv) };

    fn eq(&self, other: &OcspResponseStatus) -> bool {
        self.number() == other.number()
    }
}

impl Eq for OcspResponseStatus {
    ghost laws = { on_equiv ocsp_response_status_number int_eq_equiv };
}
