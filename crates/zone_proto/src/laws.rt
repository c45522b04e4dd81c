//! Laws of the definitions that the calls of this crate are proved to meet. Each is an empty function whose contract is
//! the law, for every value, so a program has no need to call one.
ghost use Rattle.std.specs.Prelude.{◌≡◌, ◌↔◌, ◌⊎◌, ℕ, List, [], length, Some, None, IsTrue, IsFalse};
ghost use Rattle.std.specs.declared.cmp.Ordering.TheVariants.{Less, Equal};
ghost use Rattle.std.specs.Cmp.{IsTotalOrder};
ghost use Rattle.std.specs.List.{AllByRecursion};
ghost use Rattle.std.specs.Ordering.{nat_cmp};
ghost use Rattle.zone_proto.specs.Base32.{base32_text};
ghost use Rattle.zone_proto.specs.Before.{IsBefore};
ghost use Rattle.zone_proto.specs.Names.{Name, octets_cmp, name_cmp, caseless_cmp, lower, is_above, is_at_or_above, IsAbove, IsAtOrAbove, IsName};
ghost use Rattle.zone_proto.specs.Order.{greatest, is_before, least, IsGreatest, IsLeast};
ghost use Rattle.zone_proto.specs.Ranges.{IsOctet};
ghost use Rattle.zone_proto.specs.Faults.{IsTextFault};
ghost use Rattle.zone_proto.specs.Text.{name_text};
ghost use Rattle.zone_proto.specs.TextForm.{IsNameText};
ghost use Rattle.zone_proto.specs.HashedOwners.{hashed_owner};
ghost use Rattle.zone_proto.specs.Keys.{key, first_key, key_cmp};
ghost use Rattle.zone_proto.specs.declared.error.ProtoError.{ProtoError};
ghost use Rattle.zone_proto.specs.declared.rr_key.RrKey.{RrKey};

/// The orders of names in lower case, of any names and of keys are total: of two values exactly one is before the other, or
/// they are equal; and a value before a second one that is before a third is before the third.
pub fn orders_are_total()
    ensures lower_names { IsTotalOrder name_cmp }
    ensures names { IsTotalOrder caseless_cmp }
    ensures keys { IsTotalOrder key_cmp }
{}

/// The orders of this crate's types: `Name` is ordered without regard to case, `LowerName` and `RrKey` as they are, and keys by
/// name and then by the number of the type.
pub fn orders_are_these()
    ensures names { (n m : Name) → ⟦<crate::Name as Ord>⟧.cmp n m ≡ caseless_cmp n m }
    ensures lower_names { (n m : Name) → ⟦<crate::LowerName as Ord>⟧.cmp n m ≡ name_cmp n m }
    ensures keys { (j k : RrKey) → ⟦<crate::RrKey as Ord>⟧.cmp j k ≡ key_cmp j k }
{}

/// The order of names in lower case is that of the standard's words (RFC 4034 section 6.1).
pub fn order_is_canonical()
    ensures { (n m : Name) → (name_cmp n m ≡ Less) ↔ IsBefore n m }
{}

/// The order of names ignores the case of ASCII letters: it is that of the names in lower case, and names are equal in it
/// exactly if they are the same in lower case (RFC 4034 section 6.1, RFC 4343).
pub fn order_ignores_case()
    ensures lowered { (n m : Name) → caseless_cmp n m ≡ name_cmp (lower n) (lower m) }
    ensures equal { (n m : Name) → (caseless_cmp n m ≡ Equal) ↔ (lower n ≡ lower m) }
{}

/// Names in lower case that are equal in the order are identical.
pub fn equal_is_identical()
    ensures { (n m : Name) → (name_cmp n m ≡ Equal) ↔ (n ≡ m) }
{}

/// A name comes before each name below it.
pub fn ancestor_is_first()
    ensures { (a n : Name) → IsAbove a n → name_cmp a n ≡ Less }
{}

/// No key of a name, or of a name below it, comes before the first key of the name.
pub fn first_key_is_first()
    ensures { (a n : Name) (t : ℕ) → IsAtOrAbove a n
        → IsFalse (is_before key_cmp (key n t) (first_key a)) }
{}

/// A name and the names below it are adjacent in the order: a name between two of them is one of them.
pub fn descendants_are_together()
    ensures { (a l x r : Name) → IsAtOrAbove a l → IsAtOrAbove a r → IsBefore l x → IsBefore x r
        → IsAtOrAbove a x }
{}

/// The tests whether a name is at or above another, or above it, hold exactly if it is.
pub fn tests_of_the_tree_are_exact()
    ensures at_or_above { (a n : Name) → IsTrue (is_at_or_above a n) ↔ IsAtOrAbove a n }
    ensures above { (a n : Name) → IsTrue (is_above a n) ↔ IsAbove a n }
{}

/// The greatest of names in lower case or of types is the one with none after it, and it exists exactly if the list isn't
/// empty.
pub fn greatest_stands_last()
    ensures name { (ns : List Name) (n : Name)
        → (greatest name_cmp ns ≡ Some n) ↔ IsGreatest name_cmp ns n }
    ensures no_name { (ns : List Name) → (greatest name_cmp ns ≡ None) ↔ (ns ≡ []) }
    ensures number { (ts : List ℕ) (t : ℕ)
        → (greatest nat_cmp ts ≡ Some t) ↔ IsGreatest nat_cmp ts t }
    ensures no_number { (ts : List ℕ) → (greatest nat_cmp ts ≡ None) ↔ (ts ≡ []) }
{}

/// The least of names in lower case or of types is the one with none before it, and it exists exactly if the list isn't empty.
pub fn least_stands_first()
    ensures name { (ns : List Name) (n : Name)
        → (least name_cmp ns ≡ Some n) ↔ IsLeast name_cmp ns n }
    ensures no_name { (ns : List Name) → (least name_cmp ns ≡ None) ↔ (ns ≡ []) }
    ensures number { (ts : List ℕ) (t : ℕ) → (least nat_cmp ts ≡ Some t) ↔ IsLeast nat_cmp ts t }
    ensures no_number { (ts : List ℕ) → (least nat_cmp ts ≡ None) ↔ (ts ≡ []) }
{}

/// A text is the text form of at most one list of labels (RFC 1035 section 5.1). Either these are a name, which `parse` reads,
/// or the text has a fault, with which `parse` refuses it; never both, and never two faults.
pub fn text_is_read_or_refused()
    ensures one_name { (s : List ℕ) (n m : Name) → IsNameText s n → IsNameText s m → n ≡ m }
    ensures either { (s : List ℕ)
        → ((n : Name) × IsNameText s n × IsName n) ⊎ ((e : ProtoError) × IsTextFault s e) }
    ensures not_both { (s : List ℕ) (n : Name) (e : ProtoError) → IsNameText s n → IsName n
        → ¬ IsTextFault s e }
    ensures one_fault { (s : List ℕ) (d e : ProtoError) → IsTextFault s d → IsTextFault s e
        → d ≡ e }
{}

/// What is printed of a name is that name's text form and no other's, and has no fault, so `parse` accepts it.
pub fn printed_is_read()
    ensures read { (n m : Name) → IsName n → (IsNameText (name_text n) m ↔ (m ≡ n)) }
    ensures accepted { (n : Name) (e : ProtoError) → IsName n → ¬ IsTextFault (name_text n) e }
{}

/// For digests of one length, the texts in base32hex are ordered like the digests, and so are the owners of NSEC3 sets in one
/// zone (RFC 4648 section 7, RFC 5155 section 3).
pub fn texts_sort_as_digests()
    ensures texts { (d e : List ℕ) → length d ≡ length e → AllByRecursion IsOctet d
        → AllByRecursion IsOctet e → octets_cmp (base32_text d) (base32_text e) ≡ octets_cmp d e }
    ensures owners { (zone : Name) (d e : List ℕ) → length d ≡ length e → AllByRecursion IsOctet d
        → AllByRecursion IsOctet e
        → name_cmp (hashed_owner zone d) (hashed_owner zone e) ≡ octets_cmp d e }
{}
