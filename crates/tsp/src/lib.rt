//! Types of the module PKIXTSP.
//!
//! Each type is a notation itself. `yasna_notation::Encoded` of it has the traits, so `decode_der` reads an `Encoded` of it.
//! `is_valid` of `yasna_notation_constraints` tests whether a value that was filled from input can be written.
//!
//! | Module | Holds |
//! |---|---|
//! | `accuracy` | `Accuracy` |
//! | `content_info` | `ContentInfo` |
//! | `message_imprint` | `MessageImprint` |
//! | `pki_free_text` | `PkiFreeText` |
//! | `pki_status_info` | `PkiStatusInfo` |
//! | `time_stamp_req` | `TimeStampReq` |
//! | `time_stamp_resp` | `TimeStampResp` |
//! | `tst_info` | `TstInfo` |
//! | `constants` | named numbers, named bits and values |
#![tactic(auto)]

mod accuracy;
pub mod constants;
mod content_info;
mod message_imprint;
mod pki_free_text;
mod pki_status_info;
mod time_stamp_req;
mod time_stamp_req_parts2;
mod time_stamp_resp;
mod tst_info;
mod tst_info_parts2;
mod tst_info_parts3;

pub use accuracy::Accuracy;
pub use content_info::ContentInfo;
pub use message_imprint::MessageImprint;
pub use pki_free_text::PkiFreeText;
pub use pki_status_info::PkiStatusInfo;
pub use time_stamp_req::TimeStampReq;
pub use time_stamp_resp::TimeStampResp;
pub use tst_info::TstInfo;
