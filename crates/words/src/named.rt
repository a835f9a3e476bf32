//! What has a name.
ghost use Rattle.std.specs.Prelude.{◌≡◌, ℕ, ◌<◌, List, map, length, IfSome};
ghost use Rattle.std.specs.List.{position};
ghost use Rattle.std.specs.Str.{bytes_eq};
ghost use Rattle.words.specs.Names.{among};
ghost use Rattle.words.specs.Named.{name_bytes};

use crate::name::Name;

/// What has a name.
pub trait Named {
    ghost label: { Self → List ℕ };

    fn name(&self) -> &Name
        ensures { name_bytes result.now ≡ label self.now };
}

/// The place of a text among names, from 0; none just where it does not stand there.
pub fn place_of<T: Named>(text: &[u8], items: &[T]) -> Option<usize>
    ensures value { result ≡ position (λ n. bytes_eq text.now n) (map T.Named.label items.now) }
    ensures bound { IfSome result (λ i. i < length items.now) }
{
    items.iter().position(|item| text == item.name().as_bytes())
}

/// Whether a text stands among names.
pub fn is_among<T: Named>(text: &[u8], items: &[T]) -> bool
    ensures { result ≡ among text.now (map T.Named.label items.now) }
{
    items.iter().any(|item| text == item.name().as_bytes())
}
