// The rule of the check at any counts, which the check of all ten calls, and the loops under it.
ghost use Rattle.std.specs.Prelude.{◌≡◌, List, ℕ, ◌*◌, ◌≤◌, ◌<◌, length};
ghost use Rattle.move_row.specs.Tables.{number};
ghost use Rattle.pruning_table.specs.Check.{prune_number, entries, Blocks};
ghost use Rattle.table_check.specs.Check.{MoveFine, PruneFine, ChecksIn, told};
ghost use Rattle.pair_check.specs.Rule.{Tells};

use crate::CheckError;
use move_row::MoveTable;
use pair_check::inner::first_bad;
use pair_table::Pairs;
use pruning_table::{PruneTable, move_begins};

// The lowest entry of move table t that isn't true.
fn check_move_table(t: MoveTable, moves: &[u16]) -> Option<usize>
    requires { length moves.now ≡ 891780 }
    ensures { Tells (MoveFine moves.now (number t)) (entries (number t)) result }
{
    let at = move_begins(t);
    let len = t.rows() * t.columns();
    move_table::inner::first_bad(t, &moves[at..at + len])
}

// The lowest entry of pruning table t at which the rule fails, by the lent move tables.
fn check_prune_table(t: PruneTable, moves: &[u16], prunes: &[u8]) -> Option<usize>
    requires { Blocks moves.now prunes.now }
    ensures { Tells (PruneFine moves.now prunes.now (prune_number t)) (entries (prune_number t)) result }
{
    let (a, b) = (t.first(), t.second());
    let k = a.columns();
    let (n1, n2) = (a.rows(), b.rows());
    let (i, j) = (move_begins(a), move_begins(b));
    let p = t.begins();
    let pairs = Pairs {
        first: &moves[i..i + n1 * k],
        second: &moves[j..j + n2 * k],
        rows1: n1,
        rows2: n2,
        moves: k,
    };
    first_bad(&pairs, &prunes[p..p + n1 * n2])
}

// What the check of a table says, by its lowest bad entry.
fn tell(table: u8, bad: Option<usize>) -> Result<(), CheckError>
    ensures { result ≡ told table bad }
{
    match bad {
        None => Ok(()),
        Some(entry) => Err(CheckError::Bad { table, entry }),
    }
}

// The six move tables. (Six tables and four have a loop each: the compiler then knows the counts of each pruning table.)
pub(crate) fn check_move_tables(moves: &[u16]) -> Result<(), CheckError>
    requires { length moves.now ≡ 891780 }
    ensures { (p : List ℕ) → ChecksIn 0 6 moves.now p result }
{
    for t in MoveTable::ALL {
        tell(t.number(), check_move_table(t, moves))?;
    }
    Ok(())
}

// The four pruning tables, by the lent move tables.
pub(crate) fn check_prune_tables(moves: &[u16], prunes: &[u8]) -> Result<(), CheckError>
    requires { Blocks moves.now prunes.now }
    ensures { ChecksIn 6 10 moves.now prunes.now result }
{
    for t in PruneTable::ALL {
        tell(t.number(), check_prune_table(t, moves, prunes))?;
    }
    Ok(())
}
