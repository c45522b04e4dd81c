//! A name and its ancestors, without memory.
ghost use Rattle.std.specs.Prelude.{◌≡◌};
ghost use Rattle.zone_proto.specs.Names.{suffixes};
ghost use Rattle.zone_proto.specs.Suffixes.{suffixes_left};

use crate::labels_iter::Labels;

/// Lends the labels of a name and of each of its ancestors, from the whole name down to the root, which has no label.
#[derive(Drop)]
pub struct Suffixes<'n> {
    rest: Option<Labels<'n>>,
}

impl<'n> Suffixes<'n> {
    /// Begins with all the labels.
    pub(crate) fn of(labels: Labels<'n>) -> Suffixes<'n>
        ensures { suffixes_left result ≡ suffixes labels.entry }
    {
        Suffixes { rest: Some(labels) }
    }
}

impl<'n> Iterator for Suffixes<'n> {
    type Item = Labels<'n>;

    ghost use Rattle.std.specs.Iterator.{YieldsFirstBy, item_count};
    ghost use Rattle.zone_proto.specs.Suffixes.{suffixes_left};

    ghost next_gives = { YieldsFirstBy (λ x. x) suffixes_left };

    ghost remaining = { item_count suffixes_left };

    fn next(&mut self) -> Option<Labels<'n>> {
        let labels = self.rest.take()?;
        let mut base = labels.clone();
        if base.next().is_some() {
            self.rest = Some(base);
        }
        Some(labels)
    }
}
