// The four ways to access an item, and which of them conflict.
ghost use Rattle.std.specs.Prelude.{◌≡◌};
ghost use Rattle.items.specs.Modes.{row_of, conflicting, Even};

#[derive(Clone, Copy, Debug, PartialEq)]
pub enum Mode {
    Look,
    Set,
    Add,
    Raise,
}

// Rows and columns in the order look, set, add, raise; true where the two modes conflict. One constant table is the form
// that this project gives to the rule.
const CONFLICTS: [[bool; 4]; 4] = [
    [false, true, true, true],
    [true, true, true, true],
    [true, true, false, true],
    [true, true, true, false],
];

impl Mode {
    // The row, and the column, of a mode in the conflict table.
    fn row(self) -> usize
        ensures { result ≡ row_of self }
    {
        self as usize
    }

    // Whether an access in this mode conflicts with one in the other mode on an overlapping item.
    pub fn conflicts(self, other: Mode) -> bool
        ensures { result ≡ conflicting self other }
    {
        CONFLICTS[self.row()][other.row()]
    }
}

// The table is its own mirror image across the diagonal: a conflict is mutual.
pub fn conflict_table_is_even() -> usize
    ensures { Even CONFLICTS }
{
    CONFLICTS.len()
}
