//! Examples of `Numbered`: two enums.
ghost use Rattle.yasna_base.specs.Canonical.{Always};
ghost use Rattle.yasna_notation_types.specs.Statuses.{response_number, is_status, response_writable, result_number, any_code, result_allowed, result_writable};

use crate::named::Numbered;

/// `ENUMERATED { successful (0), malformedRequest (1), tryLater (3), sigRequired (5) }`
#[derive(Clone, Copy)]
pub enum ResponseStatus {
    Successful,
    MalformedRequest,
    TryLater,
    SigRequired,
}

impl Numbered for ResponseStatus {
    ghost number_of = { response_number };

    ghost named = { is_status };

    ghost allowed = { Always };

    fn number(&self) -> i64 {
        match self {
            ResponseStatus::Successful => 0,
            ResponseStatus::MalformedRequest => 1,
            ResponseStatus::TryLater => 3,
            ResponseStatus::SigRequired => 5,
        }
    }

    fn from_number(number: i64) -> Option<ResponseStatus> {
        match number {
            0 => Some(ResponseStatus::Successful),
            1 => Some(ResponseStatus::MalformedRequest),
            3 => Some(ResponseStatus::TryLater),
            5 => Some(ResponseStatus::SigRequired),
            _ => None,
        }
    }

    ghost writable = { response_writable };
}

/// `ENUMERATED { success (0), busy (51), ... }`
#[derive(Clone, Copy)]
pub enum ResultCode {
    Success,
    Busy,
    /// A number that the module doesn't name.
    Other(i64),
}

impl Numbered for ResultCode {
    ghost number_of = { result_number };

    ghost named = { any_code };

    ghost allowed = { result_allowed };

    fn number(&self) -> i64 {
        match self {
            ResultCode::Success => 0,
            ResultCode::Busy => 51,
            ResultCode::Other(number) => *number,
        }
    }

    fn from_number(number: i64) -> Option<ResultCode> {
        match number {
            0 => Some(ResultCode::Success),
            51 => Some(ResultCode::Busy),
            _ => Some(ResultCode::Other(number)),
        }
    }

    ghost writable = { result_writable };
}
