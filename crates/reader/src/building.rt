//! Formulas made in a table that has room for them.
ghost use Rattle.std.specs.Prelude.{◌≡◌, ◌+◌, ◌<◌, length};
ghost use Rattle.parts.specs.Places.{Made, formula, room};
ghost use Rattle.parts.specs.Tables.{parts_of};
ghost use Rattle.grammar.specs.Grammar.{leaf as leaf_of, level as level_of};
ghost use Rattle.grammar.specs.Machine.{connectˢ};

use parts::{Binary, Junction, Table, Unary};
use words::{Connective, Leaf};

/// How tight a word between two formulas binds.
// Written out: the levels are the grammar's, and as an order or as numbers of `Connective`, in `words`, no contract would say them.
pub(crate) fn level(by: Connective) -> u8
    ensures { result ≡ level_of by }
{
    match by {
        Connective::Implies => 0,
        Connective::Or => 1,
        Connective::And => 2,
        Connective::Until => 3,
    }
}

/// The place of a leaf.
pub(crate) fn put_leaf(table: &mut Table, leaf: Leaf) -> u16
    requires { length (parts_of table.old) < room }
    ensures { Made 1 (parts_of table.old) (parts_of table.new) (leaf_of leaf) result }
{
    let place = match leaf {
        Leaf::Const(value) => table.constant(value),
        Leaf::Signal(p) => table.signal(p),
    };
    place.unwrap()
}

/// The place of a word between the parts at `x` and `y`, shortened.
pub(crate) fn put_connective(table: &mut Table, by: Connective, x: u16, y: u16) -> u16
    requires room { length (parts_of table.old) + 1 < room }
    requires x { x < length (parts_of table.old) }
    requires y { y < length (parts_of table.old) }
    ensures { Made 2 (parts_of table.old) (parts_of table.new) (connectˢ by (formula (parts_of table.old) x) (formula (parts_of table.old) y)) result }
{
    match by {
        Connective::Implies => {
            let not_x = table.unary(Unary::Not, x).unwrap();
            table.binary(Binary::Join(Junction::Or), not_x, y).unwrap()
        }
        Connective::Or => table.binary(Binary::Join(Junction::Or), x, y).unwrap(),
        Connective::And => table.binary(Binary::Join(Junction::And), x, y).unwrap(),
        Connective::Until => table.binary(Binary::Until, x, y).unwrap(),
    }
}
