// What a row of a move table is made from: part of kewb's src/two_phase/moves.rs.
#![tactic(auto)]

ghost use Rattle.std.specs.Prelude.{◌≡◌, ◌≤◌, MatchOption};
ghost use Rattle.move_row.specs.Tables.{number, table_at, columns};

pub mod inner;

// The six move tables, each by the coordinate that it follows.
#[derive(Clone, Copy, Debug, PartialEq, Eq)]
pub enum MoveTable {
    Co,
    Eo,
    ECombo,
    Cp,
    UdEp,
    EEp,
}

impl MoveTable {
    // All six, in the order of their numbers and of their block.
    pub const ALL: [MoveTable; 6] = [
        MoveTable::Co,
        MoveTable::Eo,
        MoveTable::ECombo,
        MoveTable::Cp,
        MoveTable::UdEp,
        MoveTable::EEp,
    ];

    // The table of a number, 0 to 5.
    pub fn from_number(t: u8) -> Option<MoveTable>
        ensures { MatchOption result (6 ≤ t) (λ table. number table ≡ t) }
    {
        match t {
            0 => Some(MoveTable::Co),
            1 => Some(MoveTable::Eo),
            2 => Some(MoveTable::ECombo),
            3 => Some(MoveTable::Cp),
            4 => Some(MoveTable::UdEp),
            5 => Some(MoveTable::EEp),
            _ => None,
        }
    }

    pub fn number(self) -> u8
        ensures { result ≡ number self }
    {
        self as u8
    }

    // How many columns the table has, how many rows, and how many places an arrangement of its coordinate.
    pub fn columns(self) -> usize
        ensures { result ≡ columns (table_at (number self)) }
    {
        match self {
            MoveTable::Co | MoveTable::Eo | MoveTable::ECombo => 18,
            MoveTable::Cp | MoveTable::UdEp | MoveTable::EEp => 10,
        }
    }

    pub fn rows(self) -> usize
        ensures { result ≡ (table_at (number self)).kind.count }
    {
        match self {
            MoveTable::Co => 2187,
            MoveTable::Eo => 2048,
            MoveTable::ECombo => 495,
            MoveTable::Cp | MoveTable::UdEp => 40320,
            MoveTable::EEp => 24,
        }
    }

    pub fn places(self) -> usize
        ensures { result ≡ (table_at (number self)).kind.places }
    {
        match self {
            MoveTable::Co | MoveTable::Cp => 8,
            MoveTable::Eo | MoveTable::ECombo | MoveTable::UdEp | MoveTable::EEp => 12,
        }
    }
}
