// One move table by its name, and all six in their block.
#![tactic(auto)]

ghost use Rattle.std.specs.Prelude.{◌≡◌};
ghost use Rattle.move_table.specs.Layout.{move_block, sized_verdict, built};
ghost use Rattle.move_row.specs.Tables.{number, table_at, size, true_table};

use move_row::MoveTable;
use move_table::inner::{fill, fill_part};
use move_table::{CO_AT, CP_AT, E_COMBO_AT, E_EP_AT, EO_AT, MOVES_LEN, UD_EP_AT};
use refusal::Refusal;

// The coordinate of each row after the move of each column.
pub fn get_move_table(t: MoveTable, table: &mut [u16]) -> Result<(), Refusal>
    ensures value { result ≡ sized_verdict (size (table_at (number t))) table.old }
    ensures table_after { table.new ≡ built (size (table_at (number t))) (true_table (table_at (number t))) table.old }
{
    if table.len() != t.rows() * t.columns() {
        return Err(Refusal::Length);
    }
    fill(t, table);
    Ok(())
}

// All six, one after the other in one block.
pub fn get_move_tables(block: &mut [u16]) -> Result<(), Refusal>
    ensures value { result ≡ sized_verdict 891780 block.old }
    ensures block_after { block.new ≡ built 891780 move_block block.old }
{
    if block.len() != MOVES_LEN {
        return Err(Refusal::Length);
    }
    fill_part(MoveTable::Co, block, CO_AT);
    fill_part(MoveTable::Eo, block, EO_AT);
    fill_part(MoveTable::ECombo, block, E_COMBO_AT);
    fill_part(MoveTable::Cp, block, CP_AT);
    fill_part(MoveTable::UdEp, block, UD_EP_AT);
    fill_part(MoveTable::EEp, block, E_EP_AT);
    Ok(())
}
