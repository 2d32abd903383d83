// What the table check and the builders share: the loops over rows and columns.
ghost use Rattle.std.specs.Prelude.{◌≡◌, ◌+◌, ◌≤◌, ◌<◌, length, nat_eq, not, position};
ghost use Rattle.std.specs.List.{zip};
ghost use Rattle.std.proofs.Math.Seq.{paste};
ghost use Rattle.move_row.specs.Tables.{number, table_at, columns, size, true_row, true_table, off_place, move_cubes};

use crate::E_EP_TABLE;
use cubie::CubieCube;
use move_after::inner::entry_after;
use move_row::MoveTable;
use move_row::inner::{column_move, move_cubes, row_places};

// ---- the builder

// Row i of table t.
fn fill_row(t: MoveTable, i: u16, cubes: &[CubieCube; 18], row: &mut [u16])
    requires { (i < (table_at (number t)).kind.count) × (cubes.now ≡ move_cubes) × (length row.old ≡ columns (table_at (number t))) }
    ensures { row.new ≡ true_row (table_at (number t)) i }
{
    let a = row_places(t, i);
    let n = t.places();
    for (j, entry) in row.iter_mut().enumerate() {
        *entry = entry_after(t, &a[..n], cubes, column_move(t, j));
    }
}

// Table t, row after row.
pub fn fill(t: MoveTable, table: &mut [u16])
    requires { length table.old ≡ size (table_at (number t)) }
    ensures { table.new ≡ true_table (table_at (number t)) }
{
    let cubes = move_cubes();
    let columns = t.columns();
    // by index: of a slice that `chunks_exact_mut` lent, a proof knows the length alone
    for i in 0..t.rows() {
        let at = i * columns;
        fill_row(t, i as u16, &cubes, &mut table[at..at + columns]);
    }
}

// Table t in its part of a block.
pub fn fill_part(t: MoveTable, block: &mut [u16], at: usize)
    requires { at + size (table_at (number t)) ≤ length block.old }
    ensures { block.new ≡ paste block.old at (true_table (table_at (number t))) (size (table_at (number t))) }
{
    fill(t, &mut block[at..at + t.rows() * t.columns()]);
}

// ---- the check

// The first column of row i whose entry isn't true.
fn bad_in_row(t: MoveTable, i: u16, cubes: &[CubieCube; 18], row: &[u16]) -> Option<usize>
    requires { (i < (table_at (number t)).kind.count) × (cubes.now ≡ move_cubes) × (length row.now ≡ columns (table_at (number t))) }
    ensures { result ≡ off_place (true_row (table_at (number t)) i) row.now }
{
    let a = row_places(t, i);
    let n = t.places();
    // a loop: under `position` the proof of what `entry_after` asks for at each column did not close
    for (j, entry) in row.iter().enumerate() {
        if *entry != entry_after(t, &a[..n], cubes, column_move(t, j)) {
            return Some(j);
        }
    }
    None
}

// The lowest place at which two lists differ.
fn first_difference(whole: &[u16], table: &[u16]) -> Option<usize>
    ensures { result ≡ position (λ p. not (nat_eq p.0 p.1)) (zip whole.now table.now) }
{
    whole
        .iter()
        .zip(table)
        .position(|(right, entry)| right != entry)
}

// The lowest entry of table t that isn't true.
pub fn first_bad(t: MoveTable, table: &[u16]) -> Option<usize>
    requires { length table.now ≡ size (table_at (number t)) }
    ensures { result ≡ off_place (true_table (table_at (number t))) table.now }
{
    if t == MoveTable::EEp {
        return first_difference(&E_EP_TABLE, table);
    }
    let cubes = move_cubes();
    let columns = t.columns();
    // by index, as in `fill`: the place of a row is asked for too
    for i in 0..t.rows() {
        let at = i * columns;
        if let Some(j) = bad_in_row(t, i as u16, &cubes, &table[at..at + columns]) {
            return Some(at + j);
        }
    }
    None
}
