// The pruning tables: kewb's src/two_phase/pruning.rs.
#![tactic(auto)]

ghost use Rattle.std.specs.Prelude.{◌≡◌, ◌≤◌, ◌<◌, MatchOption};
ghost use Rattle.move_row.specs.Tables.{number};
ghost use Rattle.pruning_table.specs.Check.{begins_at, prune_number, first_of, second_of, Blocks};

use move_row::MoveTable;
use move_table::{CO_AT, CP_AT, E_COMBO_AT, E_EP_AT, EO_AT, UD_EP_AT};

// The block of the four tables: where each begins, and its length.
pub const CO_E_AT: usize = 0;

pub const EO_E_AT: usize = 1082565;

pub const CP_E_AT: usize = 2096325;

pub const EP_E_AT: usize = 3064005;

pub const PRUNES_LEN: usize = 4031685;

// The two blocks that a search reads, each of its length: the six move tables and the four pruning tables.
#[derive(Clone, Copy)]
pub struct Tables<'a> {
    pub moves: &'a [u16],
    pub prunes: &'a [u8],
    pub ghost blocks: { Blocks moves.now prunes.now },
}

// The four pruning tables, each by the two coordinates of its pairs.
#[derive(Clone, Copy, Debug, PartialEq, Eq)]
pub enum PruneTable {
    CoE = 6,
    EoE = 7,
    CpE = 8,
    EpE = 9,
}

impl PruneTable {
    // All four, in the order of their numbers and of their block.
    pub const ALL: [PruneTable; 4] = [
        PruneTable::CoE,
        PruneTable::EoE,
        PruneTable::CpE,
        PruneTable::EpE,
    ];

    // The table of a number, 6 to 9.
    pub fn from_number(t: u8) -> Option<PruneTable>
        ensures { MatchOption result (t < 10 → 6 ≤ t → ⊥) (λ table. prune_number table ≡ t) }
    {
        match t {
            6 => Some(PruneTable::CoE),
            7 => Some(PruneTable::EoE),
            8 => Some(PruneTable::CpE),
            9 => Some(PruneTable::EpE),
            _ => None,
        }
    }

    pub fn number(self) -> u8
        ensures { result ≡ prune_number self }
    {
        self as u8
    }

    // Where the table begins in its block.
    pub fn begins(self) -> usize
        ensures { result ≡ begins_at (prune_number self) }
    {
        match self {
            PruneTable::CoE => CO_E_AT,
            PruneTable::EoE => EO_E_AT,
            PruneTable::CpE => CP_E_AT,
            PruneTable::EpE => EP_E_AT,
        }
    }

    // The move table of the first coordinate, and of the second.
    pub fn first(self) -> MoveTable
        ensures { number result ≡ first_of (prune_number self) }
    {
        match self {
            PruneTable::CoE => MoveTable::Co,
            PruneTable::EoE => MoveTable::Eo,
            PruneTable::CpE => MoveTable::Cp,
            PruneTable::EpE => MoveTable::UdEp,
        }
    }

    pub fn second(self) -> MoveTable
        ensures { number result ≡ second_of (prune_number self) }
    {
        match self {
            PruneTable::CoE | PruneTable::EoE => MoveTable::ECombo,
            PruneTable::CpE | PruneTable::EpE => MoveTable::EEp,
        }
    }
}

// Where a move table begins in the block of the six.
pub fn move_begins(t: MoveTable) -> usize
    ensures { result ≡ begins_at (number t) }
{
    match t {
        MoveTable::Co => CO_AT,
        MoveTable::Eo => EO_AT,
        MoveTable::ECombo => E_COMBO_AT,
        MoveTable::Cp => CP_AT,
        MoveTable::UdEp => UD_EP_AT,
        MoveTable::EEp => E_EP_AT,
    }
}
