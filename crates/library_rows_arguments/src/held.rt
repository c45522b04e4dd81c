//! The sets that the rows of a file share.

use crate::arguments::Sets;
use std::alloc::Global;
use std::collections::BTreeMap;
use zone_proto::RecordSet;

/// The current set, one that is kept beside it, and the sets that are collected for the next zone.
#[derive(Drop)]
pub struct Held {
    pub set: Option<RecordSet>,
    pub kept: Option<RecordSet>,
    pub collected: Sets,
}

impl Held {
    /// No sets. It doesn't allocate.
    pub fn new(alloc: Global) -> Held {
        Held {
            set: None,
            kept: None,
            collected: BTreeMap::new(alloc),
        }
    }
}
