//! Laws of the definitions of types, data and record sets; each is proved, and no call does anything.
ghost use Rattle.std.specs.Prelude.{◌≡◌, ◌<◌, ℕ, [], ◌≢◌, Some, false, true};
ghost use Rattle.std.specs.Cmp.{IsEquivalence};
ghost use Rattle.zone_proto.specs.Names.{same_name};
ghost use Rattle.zone_proto.specs.Data.{same_data, type_of};
ghost use Rattle.zone_proto.specs.Records.{same_record};
ghost use Rattle.zone_proto.specs.Sets.{RRset, IsSet, same_set, appended, inserted, is_single, stores};
ghost use Rattle.zone_proto.specs.TypeText.{type_text, type_of_text};
ghost use Rattle.zone_proto.specs.declared.record.Record.{Record};

/// The equality of data is an equivalence.
pub fn equality_of_data()
    ensures { IsEquivalence same_data }
{}

/// The equality of records is an equivalence.
pub fn equality_of_records()
    ensures { IsEquivalence same_record }
{}

/// The equality of record sets is an equivalence.
pub fn equality_of_sets()
    ensures { IsEquivalence same_set }
{}

/// An insertion that accepts a record keeps the set's owner and type, leaves at least one record, and leaves a set.
pub fn insertion_keeps_the_set()
    ensures owner { (s t : RRset) (r : Record) (serial : ℕ) → inserted s r serial ≡ Some t
        → t.owner ≡ s.owner }
    ensures kind { (s t : RRset) (r : Record) (serial : ℕ) → inserted s r serial ≡ Some t
        → t.record_type ≡ s.record_type }
    ensures some { (s t : RRset) (r : Record) (serial : ℕ) → inserted s r serial ≡ Some t
        → t.records ≢ [] }
    ensures rule { (s t : RRset) (r : Record) (serial : ℕ)
        → same_name r.name s.owner ≡ true
        → type_of r.rdata ≡ s.record_type
        → IsSet s.owner s.record_type s.records
        → inserted s r serial ≡ Some t
        → IsSet t.owner t.record_type t.records }
{}

/// If a set may have several records, one whose data it doesn't have is appended.
pub fn new_data_stand_last()
    ensures { (s : RRset) (r : Record) (serial : ℕ)
        → is_single (type_of r.rdata) ≡ false
        → stores s.records r.rdata ≡ false
        → inserted s r serial ≡ Some (appended s r serial) }
{}

/// A type is read from the text that is printed of it.
pub fn printed_types_are_read()
    ensures { (t : ℕ) → t < 65536 → type_of_text (type_text t) ≡ Some t }
{}
