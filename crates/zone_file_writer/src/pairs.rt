//! Octets printed with a sign between them: in decimal with dots, in hex with hyphens, and in groups of hex with colons.
ghost use Rattle.std.specs.Prelude.{Some, [], ◌∷◌};
ghost use Rattle.line_text.specs.Addresses.{ipv6_text};
ghost use Rattle.zone_file_writer.specs.Rows.{further_pairs, pairs_text};

use line_text::HexText;
use std::fmt;

/// Octets in hex, with hyphens between them.
#[derive(Drop)]
pub(crate) struct PairsText<'r>(pub &'r [u8]);

impl fmt::Display for PairsText<'_> {
    ghost output = { λ o. Some (pairs_text o.0.now) };

    fn fmt<W: fmt::Write>(&self, f: &mut fmt::Formatter<W>) -> fmt::Result {
        match self.0 {
            [] => Ok(()),
            [first, others @ ..] => write!(f, "{}{}", HexText(&[*first]), FurtherPairs(others)),
        }
    }
}

/// Octets in hex, each behind a hyphen.
#[derive(Drop)]
struct FurtherPairs<'r>(&'r [u8]);

impl fmt::Display for FurtherPairs<'_> {
    ghost output = { λ o. Some (further_pairs o.0.now) };

    fn fmt<W: fmt::Write>(&self, f: &mut fmt::Formatter<W>) -> fmt::Result {
        for octet in self.0 {
            write!(f, "-{}", HexText(&[*octet]))?;
        }
        Ok(())
    }
}

/// Four octets as two groups of hex, with a colon between them.
#[derive(Drop)]
pub(crate) struct GroupsText(pub u8, pub u8, pub u8, pub u8);

impl fmt::Display for GroupsText {
    ghost output = { λ g. Some (ipv6_text (g.0 ∷ g.1 ∷ g.2 ∷ g.3 ∷ [])) };

    fn fmt<W: fmt::Write>(&self, f: &mut fmt::Formatter<W>) -> fmt::Result {
        let (high, low) = ([self.0, self.1], [self.2, self.3]);
        write!(f, "{}:{}", HexText(&high), HexText(&low))
    }
}
