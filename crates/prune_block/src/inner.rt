// One part of the block after another.
ghost use Rattle.std.specs.Prelude.{◌≡◌, length};
ghost use Rattle.base.specs.Lists.{Under};
ghost use Rattle.move_row.specs.Tables.{number};
ghost use Rattle.pair_table.specs.Answers.{Decides};
ghost use Rattle.pruning_table.specs.Block.{AllBelow, AllFilled, Missing, SomeMissing, Refilled};
ghost use Rattle.pruning_table.specs.Check.{prune_number, rows, part, Blocks};

use move_row::MoveTable;
use pair_table::inner::all_below;
use prune_tables::get_table;
use pruning_table::{PruneTable, move_begins};

// Whether the entries of move table t are below its count.
fn table_below(t: MoveTable, moves: &[u16]) -> bool
    requires { length moves.now ≡ 891780 }
    ensures { Decides (Under (rows (number t)) (part (number t) moves.now)) result }
{
    let at = move_begins(t);
    let len = t.rows() * t.columns();
    all_below(&moves[at..at + len], t.rows())
}

// Whether those of all six are.
pub(crate) fn tables_below(moves: &[u16]) -> bool
    requires { length moves.now ≡ 891780 }
    ensures { Decides (AllBelow moves.now) result }
{
    for t in MoveTable::ALL {
        if !table_below(t, moves) {
            return false;
        }
    }
    true
}

// Pruning table t in its part of the block; whether some pair is out of reach.
fn fill_part(t: PruneTable, moves: &[u16], prunes: &mut [u8]) -> bool
    requires { Blocks moves.now prunes.old × AllBelow moves.now }
    ensures refilled { Refilled moves.now (prune_number t) prunes.old prunes.new }
    ensures decides { Decides (Missing (prune_number t) prunes.new) result }
{
    let (a, b) = (t.first(), t.second());
    let k = a.columns();
    let (n1, n2) = (a.rows(), b.rows());
    let (at1, at2) = (move_begins(a), move_begins(b));
    let at = t.begins();
    let first = &moves[at1..at1 + n1 * k];
    let second = &moves[at2..at2 + n2 * k];
    // the lengths and the scan rule out the other two errors
    get_table(t, first, second, &mut prunes[at..at + n1 * n2]).is_err()
}

// All four, one after the other; whether some pair is out of reach.
pub(crate) fn fill_all(moves: &[u16], prunes: &mut [u8]) -> bool
    requires { Blocks moves.now prunes.old × AllBelow moves.now }
    ensures prunes_len_unchanged { length prunes.new ≡ length prunes.old }
    ensures all_filled { AllFilled moves.now prunes.new }
    ensures decides { Decides (SomeMissing prunes.new) result }
{
    let mut missing = false;
    for t in PruneTable::ALL {
        if fill_part(t, moves, prunes) {
            missing = true;
        }
    }
    missing
}
