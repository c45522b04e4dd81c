//! What a server asks a zone and what it gets: the handler's trait, the control flow of a chain of handlers, and answers and
//! transfers that lend their records in order. The options of a client, the errors of a lookup and the query for an NSEC3
//! denial are those of `lookup_types`, and are re-exported here.
//!
//! No call of this crate takes memory: answers keep what they are handed, and reading them lends it. Contracts see an answer as
//! the list of records that it gives a reader.
#![tactic(auto)]

mod auth_lookup;
mod auth_lookup_iter;
mod axfr_policy;
mod axfr_records;
mod axfr_records_iter;
mod control_flow;
mod dnssec_handler;
mod handler;
mod key_error;
mod lookup_records;
mod lookup_records_iter;
mod request;
mod request_info;
mod sets_iter;
mod tsig_response_context;
mod zone_transfer;
mod zone_transfer_iter;
mod zone_type;

pub use auth_lookup::AuthLookup;
pub use auth_lookup_iter::AuthLookupIter;
pub use axfr_policy::AxfrPolicy;
pub use axfr_records::AxfrRecords;
pub use axfr_records_iter::AxfrRecordsIter;
pub use control_flow::LookupControlFlow;
pub use dnssec_handler::DnssecZoneHandler;
pub use handler::ZoneHandler;
pub use key_error::KeyError;
pub use lookup_records::LookupRecords;
pub use lookup_records_iter::LookupRecordsIter;
pub use lookup_types::{
    LookupError, LookupOptions, NetError, NoRecords, Nsec3QueryInfo, SecureError,
};
pub use request::Request;
pub use request_info::RequestInfo;
pub use sets_iter::SetsIter;
pub use tsig_response_context::TSigResponseContext;
pub use zone_transfer::ZoneTransfer;
pub use zone_transfer_iter::ZoneTransferIter;
pub use zone_type::ZoneType;
