//! The zone of an authoritative DNS server, in memory: what a program that serves zones depends on. It is built on the crates
//! below it, re-exports what a user needs of them, and has no code of its own.
//!
//! - [`InMemoryZoneHandler`] is a zone. It is made by `empty` or `new`, changed by `upsert`, `put_set`, `remove_set` and
//!   `clear`, and signed by `add_zone_signing_key` and `secure_zone` (RFC 4035 section 2). It answers `search` and `lookup`
//!   (RFC 1034 section 4.3.2), `nsec_records` (RFC 4035 section 3.1.3), `nsec3_records` (RFC 5155 section 7.2) and
//!   `zone_transfer` (RFC 5936), which are calls of the traits `ZoneHandler` and `DnssecZoneHandler` of `zone_handler`.
//!   [`PutRefused`] says why a set was not stored.
//! - [`InnerInMemory`] is what a zone lends for reading: its record sets by name and type, and its signers. [`Found`] is a set
//!   that was found, and [`ZoneError`] says why there is none. [`DenialOwners`] lends the owners of its sets of denial. A
//!   [`Counter`] counts what is searched ([`Searches`]) and what is read ([`Reads`]). [`NoSigner`] is the signer of zones that
//!   nobody signs.
//! - [`program`] has the command language of `zonectl` over any reader and writer, with the signer and the hash of its
//!   demonstrations.
//! - [`laws`] has laws of the definitions: contracts of functions that do nothing. What the contracts of all these
//!   calls cite is under `specs` here too.
//!
//! Names, records, sets, signers and hashes are those of `zone_proto`. An insertion that answers false, and any call that is
//! refused, leaves the zone as it was.
#![tactic(auto)]

/// The program `zonectl`, and what it signs and hashes with.
pub mod program {
    pub use zonectl_session::{DemoSigner, Sha1Hash, run};
}

pub use zone_in_memory::{InMemoryZoneHandler, PutRefused, laws};
pub use zone_lookup::{Found, InnerInMemory, NoSigner, Searches, ZoneError};
pub use zone_map::{Counter, DenialOwners, Reads, SetMap, SetRange};
