//! One pass over the parts in use.
ghost use Rattle.std.specs.Prelude.{◌*◌, ◌≤◌, length};
ghost use Rattle.parts.specs.Places.{Grown};
ghost use Rattle.parts.specs.Tables.{SameLoan, parts_in};
ghost use Rattle.progression.specs.Passes.{Imaged};

use crate::rewrite::Rewrite;
use parts::Lent;

/// Rewrites every part in use, operands before their users; `images` then has the place of what became of each.
// By their places, and not pushed to a `Vec`: any memory will do that is long enough.
pub fn rewrite_all<R: Rewrite>(lent: &mut Lent<'_>, by: &R, images: &mut [u16])
    requires few { length (parts_in lent.old) ≤ 256 }
    requires images { length (parts_in lent.old) ≤ length images.old }
    ensures loan { SameLoan lent.old lent.new }
    ensures grown { Grown (2 * length (parts_in lent.old)) (parts_in lent.old) (parts_in lent.new) }
    ensures imaged { Imaged (R.to by.now) (parts_in lent.new) images.new (length (parts_in lent.old)) }
{
    for at in 0..*lent.used {
        let image = by.image(lent, at as u16, images);
        images[at] = image;
    }
}
