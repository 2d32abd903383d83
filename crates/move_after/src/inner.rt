// One coordinate after one move, by the cubes of the 18 moves.
ghost use Rattle.std.specs.Prelude.{◌≡◌, ◌<◌};
ghost use Rattle.move_row.specs.Tables.{number, table_at, Domain, moved, move_cubes};

use cubie::CubieCube;
use move_row::MoveTable;
use numbering::inner::e_combo_to_index;
use orientation::inner::{co_to_index, eo_to_index};
use permutation::inner::{cp_to_index, e_ep_to_index, ud_ep_to_index};
use turning::inner::{permute_row, twist_row};

// The coordinate of table t after move m of an arrangement.
pub fn entry_after(t: MoveTable, a: &[u8], cubes: &[CubieCube; 18], m: usize) -> u16
    requires { Domain (table_at (number t)).kind a.now × (cubes.now ≡ move_cubes) × (m < 18) }
    ensures { result ≡ moved (table_at (number t)).kind a.now m }
{
    let c = &cubes[m];
    match t {
        MoveTable::Co => co_to_index(twist_row(a, &c.cp, &c.co, 3)).0,
        MoveTable::Eo => eo_to_index(twist_row(a, &c.ep, &c.eo, 2)).0,
        MoveTable::ECombo => e_combo_to_index(permute_row(a, &c.ep)).0,
        MoveTable::Cp => cp_to_index(permute_row(a, &c.cp)).0,
        MoveTable::UdEp => ud_ep_to_index(permute_row(a, &c.ep)).0,
        MoveTable::EEp => e_ep_to_index(permute_row(a, &c.ep)).0,
    }
}
