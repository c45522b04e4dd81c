//! Tests of names, as the definitions have them.
ghost use Rattle.std.specs.Prelude.{◌≡◌, true, IsTrue};
ghost use Rattle.std.specs.List.{list_any};
ghost use Rattle.zone_map.specs.Walks.{IsChild};
ghost use Rattle.zone_proto.specs.Names.{name_eq, is_at_or_above};

use zone_proto::LowerName;

/// Whether two names are the same.
pub(crate) fn same_name(a: &LowerName, b: &LowerName) -> bool
    ensures { result ≡ name_eq a.now b.now }
{
    b == a
}

/// Whether a name is this one or below it.
pub(crate) fn is_at_or_above(top: &LowerName, name: &LowerName) -> bool
    ensures { result ≡ is_at_or_above top.now name.now }
{
    top.zone_of(name)
}

/// Whether a name that is another one or below it is one label below it.
pub(crate) fn is_child(top: &LowerName, name: &LowerName) -> bool
    requires { is_at_or_above top.now name.now ≡ true }
    ensures { IsTrue result → IsChild name.now top.now }
{
    name.num_labels().saturating_sub(top.num_labels()) == 1
}

/// Whether a list has a name.
pub(crate) fn has_name(names: &[LowerName], name: &LowerName) -> bool
    ensures { result ≡ list_any (name_eq name.now) names.now }
{
    names.contains(name)
}
