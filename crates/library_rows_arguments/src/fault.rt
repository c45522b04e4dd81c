//! What can't be read of a row is kept here, and told once all is read: so no reader has an early exit, at which a proof takes
//! apart all that is owned there. What is put is of any type for the same reason.

use line_text::TextError;
use std::collections::BTreeMap;
use zone_proto::ProtoError;

/// Why a row can't be read, if something was wrong with it so far.
#[derive(Drop)]
pub struct Fault {
    found: Option<TextError>,
}

impl Fault {
    /// Nothing was wrong yet.
    pub fn new() -> Fault {
        Fault { found: None }
    }

    /// Keeps that something is wrong.
    pub fn keep(&mut self, error: TextError) {
        self.found = Some(error);
    }

    /// Puts what was read into its place.
    pub fn put<T: Drop>(&mut self, place: &mut T, read: Result<T, TextError>) {
        match read {
            Ok(value) => *place = value,
            Err(error) => self.keep(error),
        }
    }

    /// Puts what was read at the end of a list.
    pub fn push<T: Drop>(&mut self, list: &mut Vec<T>, read: Result<T, TextError>) {
        match read {
            Ok(value) => {
                if list.push(value).is_err() {
                    self.keep(TextError::Memory);
                }
            }
            Err(error) => self.keep(error),
        }
    }

    /// Puts the copies of a key and of what is under it into a map.
    pub fn insert<K: Ord + Drop, V: Drop>(
        &mut self,
        map: &mut BTreeMap<K, V>,
        key: Result<K, ProtoError>,
        value: Result<V, ProtoError>,
    ) {
        match (key, value) {
            (Ok(key), Ok(value)) => {
                if map.insert(key, value).is_err() {
                    self.keep(TextError::Memory);
                }
            }
            _ => self.keep(TextError::Memory),
        }
    }

    /// The answer to a row, or why it can't be read.
    pub fn answer<T: Drop>(&self, read: T) -> Result<T, TextError> {
        match self.found {
            None => Ok(read),
            Some(error) => Err(error),
        }
    }
}
