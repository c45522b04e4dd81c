//! Laws of the definitions that the calls of this crate are proved to meet. Each is an empty function whose contract is the
//! law, for every value, so a program has no need to call one.
ghost use Rattle.std.specs.Prelude.{◌≡◌, List, Some};
ghost use Rattle.zone_proto.specs.Names.{Name};
ghost use Rattle.zone_proto.specs.declared.record.Record.{Record};
ghost use Rattle.zone_file.specs.Zones.{zone_of};
ghost use Rattle.zone_file_writer.specs.Laws.{ArePrintable, records_of};
ghost use Rattle.zone_file_writer.specs.Printing.{lines_text};

/// What is printed of records of class IN, each on a line of its own, is read in a zone file with any origin as these records,
/// in their order, including their TTLs and the case of their names: records with data of each type, if no timer of an SOA is
/// below zero, no TTL above 2^31 - 1 (the minimum of an SOA included), no key, signature or hash empty, no salt or hash longer
/// than 255 octets, and no NSEC without types; if covered and listed types are types of records, the latter in ascending order,
/// and octets of other types have the form of their type; and if neither the data nor the entry is longer than a zone file may
/// have (`IsPrintable`).
pub fn printed_records_are_read()
    ensures { (origin : Name) (rs : List Record) → ArePrintable rs
        → records_of (zone_of origin (lines_text rs)) ≡ Some rs }
{}
