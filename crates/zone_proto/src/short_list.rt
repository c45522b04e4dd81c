//! Lists of items that are in the value itself.
ghost use Rattle.std.specs.Prelude.{◌≡◌, ◌≤◌, ◌↔◌, IsSome, IfSome, length};

use std::marker::Model;

/// A list of at most `N` items, each in a place of its own; contracts see it as the list of its items.
#[derive(Drop)]
pub struct ShortList<T, const N: usize> {
    length: u8,
    places: [T; N],
}

impl<T, const N: usize> Model for ShortList<T, N> {
    ghost use Rattle.std.specs.Prelude.{◌≡◌, ◌≤◌, List, length as length_of, take};
    ghost use Rattle.std.specs.Coded.{coded_list};

    ghost Value = { List T };

    ghost coded = { coded_list T.code };

    ghost view = { λ s. take s.length s.places };

    ghost invariant = { λ s. (s.length ≤ N) × (length_of s.places ≡ N) };
}

impl<T: Copy, const N: usize> ShortList<T, N> {
    /// The list of these items, where there is a place for each of them; the places behind them hold the blank.
    pub(crate) fn of(items: &[T], blank: T) -> Option<ShortList<T, N>>
        requires { N ≤ 255 }
        ensures room { IsSome result ↔ length items.now ≤ N }
        ensures items { IfSome result (λ short. short ≡ items.now) }
    {
        let length = items.len();
        if length > N {
            return None;
        }
        let mut places = [blank; N];
        places[..length].copy_from_slice(items);
        Some(ShortList {
            length: length as u8,
            places,
        })
    }

    /// The items in order.
    pub(crate) fn as_slice(&self) -> &[T]
        ensures { result.now ≡ self.now }
    {
        &self.places[..self.length as usize]
    }

    /// A copy of the list.
    pub(crate) fn clone(&self) -> ShortList<T, N>
        ensures { result ≡ self.now }
    {
        ShortList {
            length: self.length,
            places: self.places,
        }
    }
}
