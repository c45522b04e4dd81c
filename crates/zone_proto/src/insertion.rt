//! How a record is put among the records of a set.
ghost use Rattle.std.specs.Prelude.{◌≡◌, ◌++◌, ◌∷◌, []};
ghost use Rattle.zone_proto.specs.Sets.{is_single, stores};
ghost use Rattle.zone_proto.specs.Insertion.{is_refused, records_with};
ghost use Rattle.zone_proto.specs.Results.{IsChange};

use crate::error::ProtoError;
use crate::rdata::RData;
use crate::record::Record;
use crate::serials::{first_serial, soa_serial};
use crate::type_kinds::is_single;

/// Whether these data are refused beside the stored records.
pub(crate) fn is_refused(records: &[Record], new: &RData) -> bool
    ensures { result ≡ is_refused records.now new.now }
{
    if let Some(serial) = soa_serial(new) {
        return match first_serial(records) {
            Some(old) => serial <= old,
            None => false,
        };
    }
    !is_single(new.record_type()) && stores(records, new)
}

fn stores(records: &[Record], new: &RData) -> bool
    ensures { result ≡ stores records.now new.now }
{
    records.iter().any(|stored| stored.rdata == *new)
}

/// Puts a record in place of all others where the type has at most one, else behind them.
pub(crate) fn put_record(records: &mut Vec<Record>, new: Record) -> Result<(), ProtoError>
    ensures { IsChange records.old.items (records_with records.old.items new) result
        records.new.items }
{
    if is_single(new.record_type()) {
        put_alone(records, new)
    } else {
        put_last(records, new)
    }
}

/// Puts a record in place of all others.
fn put_alone(records: &mut Vec<Record>, new: Record) -> Result<(), ProtoError>
    ensures { IsChange records.old.items (new ∷ []) result records.new.items }
{
    if records.is_empty() {
        return put_last(records, new);
    }
    records.truncate(1);
    records[0] = new;
    Ok(())
}

/// Appends a record; a list of one has room for one.
pub(crate) fn put_last(records: &mut Vec<Record>, new: Record) -> Result<(), ProtoError>
    ensures { IsChange records.old.items (records.old.items ++ new ∷ []) result records.new.items }
{
    if records.is_empty() {
        records.reserve_exact(1)?;
    }
    records.push(new)?;
    Ok(())
}
