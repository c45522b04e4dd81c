//! Laws of the definitions that the calls of this crate are proved to meet. Each is an empty function whose contract is
//! the law, for every value, so a program has no need to call one.
ghost use Rattle.std.specs.Prelude.{◌≡◌, ◌↔◌, ℕ, List, [], Some};
ghost use Rattle.zone_proto.specs.Names.{Name, IsName};
ghost use Rattle.zone_proto.specs.TextForm.{IsNameText};
ghost use Rattle.zone_proto.specs.declared.rdata.RData.{RData};
ghost use Rattle.zone_proto.specs.declared.record.Record.{Record};
ghost use Rattle.zone_proto.specs.Data.{type_of};
ghost use Rattle.line_text.specs.Words.{words};
ghost use Rattle.line_text.specs.Reading.{name_of_word};
ghost use Rattle.line_text.specs.Data.{data_text, next_data, IsReadableData};
ghost use Rattle.line_text.specs.Records.{next_record, record_text, without_class, IsReadable};

/// A word is read as a name exactly if it has that name's text form (RFC 1035 section 5.1).
pub fn names_are_read_by_their_form()
    ensures { (w : List ℕ) (n : Name) → (name_of_word w ≡ Some n) ↔ (IsNameText w n × IsName n) }
{}

/// What is printed of data is read as these data, including the case of their names, if they have a form that is read.
pub fn printed_data_are_read()
    ensures { (d : RData) → IsReadableData d
        → next_data (type_of d) (words (data_text d)) ≡ Some (d, []) }
{}

/// What is printed of a record of class IN is read as that record, including its TTL and the case of its names, if its data
/// have a form that is read. The word of the class is printed and not read.
pub fn printed_records_are_read()
    ensures { (r : Record) → IsReadable r
        → next_record (without_class (words (record_text r))) ≡ Some (r, []) }
{}
