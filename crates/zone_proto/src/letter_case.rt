//! Labels put into lower case, in place.
ghost use Rattle.std.specs.Prelude.{◌≡◌, map};
ghost use Rattle.std.specs.Char.{to_ascii_lowercase};
ghost use Rattle.zone_proto.specs.Names.{lower};
ghost use Rattle.zone_proto.specs.Vectors.{octets_of};

/// Puts the letters among octets into lower case.
pub(crate) fn lower_octets(octets: &mut [u8])
    ensures { octets.new ≡ map to_ascii_lowercase octets.old }
{
    for octet in octets.iter_mut() {
        octet.make_ascii_lowercase();
    }
}

/// Puts the letters of each label into lower case.
pub(crate) fn lower_all(labels: &mut Vec<Vec<u8>>)
    ensures { octets_of labels.new.items ≡ lower (octets_of labels.old.items) }
{
    for i in 0..labels.len() {
        lower_octets(&mut labels[i]);
    }
}
