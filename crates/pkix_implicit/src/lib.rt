//! Types of the module PKIX1Implicit88.
//!
//! Each type is a notation itself. `yasna_notation::Encoded` of it has the traits, so `decode_der` reads an `Encoded` of it.
//! `is_valid` of `yasna_notation_constraints` tests whether a value that was filled from input can be written.
//!
//! | Module | Holds |
//! |---|---|
//! | `access_description` | `AccessDescription` |
//! | `another_name` | `AnotherName` |
//! | `authority_info_access_syntax` | `AuthorityInfoAccessSyntax` |
//! | `authority_key_identifier` | `AuthorityKeyIdentifier` |
//! | `basic_constraints` | `BasicConstraints` |
//! | `certificate_policies` | `CertificatePolicies` |
//! | `crl_distribution_points` | `CrlDistributionPoints` |
//! | `crl_reason` | `CrlReason` |
//! | `directory_string` | `DirectoryString` |
//! | `display_text` | `DisplayText` |
//! | `distribution_point` | `DistributionPoint` |
//! | `distribution_point_name` | `DistributionPointName` |
//! | `edi_party_name` | `EdiPartyName` |
//! | `ext_key_usage_syntax` | `ExtKeyUsageSyntax` |
//! | `general_name` | `GeneralName` |
//! | `general_names` | `GeneralNames` |
//! | `general_subtree` | `GeneralSubtree` |
//! | `general_subtrees` | `GeneralSubtrees` |
//! | `issuing_distribution_point` | `IssuingDistributionPoint` |
//! | `name_constraints` | `NameConstraints` |
//! | `notice_reference` | `NoticeReference` |
//! | `or_address` | `OrAddress` |
//! | `policy_constraints` | `PolicyConstraints` |
//! | `policy_information` | `PolicyInformation` |
//! | `policy_mappings` | `PolicyMappings` |
//! | `policy_mappings_item` | `PolicyMappingsItem` |
//! | `policy_qualifier_info` | `PolicyQualifierInfo` |
//! | `private_key_usage_period` | `PrivateKeyUsagePeriod` |
//! | `subject_directory_attributes` | `SubjectDirectoryAttributes` |
//! | `subject_info_access_syntax` | `SubjectInfoAccessSyntax` |
//! | `user_notice` | `UserNotice` |
//! | `constants` | named numbers, named bits and values |
#![tactic(auto)]

mod access_description;
mod another_name;
mod authority_info_access_syntax;
mod authority_key_identifier;
mod basic_constraints;
mod certificate_policies;
pub mod constants;
mod crl_distribution_points;
mod crl_reason;
mod directory_string;
mod display_text;
mod distribution_point;
mod distribution_point_name;
mod edi_party_name;
mod ext_key_usage_syntax;
mod general_name;
mod general_names;
mod general_subtree;
mod general_subtrees;
mod issuing_distribution_point;
mod issuing_distribution_point_parts2;
mod name_constraints;
mod notice_reference;
mod or_address;
mod policy_constraints;
mod policy_information;
mod policy_mappings;
mod policy_mappings_item;
mod policy_qualifier_info;
mod private_key_usage_period;
mod subject_directory_attributes;
mod subject_info_access_syntax;
mod user_notice;

pub use access_description::AccessDescription;
pub use another_name::AnotherName;
pub use authority_info_access_syntax::AuthorityInfoAccessSyntax;
pub use authority_key_identifier::AuthorityKeyIdentifier;
pub use basic_constraints::BasicConstraints;
pub use certificate_policies::CertificatePolicies;
pub use crl_distribution_points::CrlDistributionPoints;
pub use crl_reason::CrlReason;
pub use directory_string::DirectoryString;
pub use display_text::DisplayText;
pub use distribution_point::DistributionPoint;
pub use distribution_point_name::DistributionPointName;
pub use edi_party_name::EdiPartyName;
pub use ext_key_usage_syntax::ExtKeyUsageSyntax;
pub use general_name::GeneralName;
pub use general_names::GeneralNames;
pub use general_subtree::GeneralSubtree;
pub use general_subtrees::GeneralSubtrees;
pub use issuing_distribution_point::IssuingDistributionPoint;
pub use name_constraints::NameConstraints;
pub use notice_reference::NoticeReference;
pub use or_address::OrAddress;
pub use policy_constraints::PolicyConstraints;
pub use policy_information::PolicyInformation;
pub use policy_mappings::PolicyMappings;
pub use policy_mappings_item::PolicyMappingsItem;
pub use policy_qualifier_info::PolicyQualifierInfo;
pub use private_key_usage_period::PrivateKeyUsagePeriod;
pub use subject_directory_attributes::SubjectDirectoryAttributes;
pub use subject_info_access_syntax::SubjectInfoAccessSyntax;
pub use user_notice::UserNotice;
