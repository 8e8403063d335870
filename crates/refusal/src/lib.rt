// Refusals: what a call hands back where it can't answer.
//
// Holds: the one enum for 01's table "Numbers handed back", which is the error of every `Result`, and in specs/Paper.antt the
// one definition that gives the paper's number and values of each case. Contracts of every crate speak through that
// definition.
// Ports: the role of src/error.rs (35 lines), which has no numbers, and of the crate's panics.
// Adds: all of it.
#![tactic(auto)]

ghost use Rattle.std.specs.Prelude.{◌≡◌};
ghost use Rattle.refusal.specs.Paper.{number_of};

// A case for each row of the table. In rows 7 and 8 the audit carries more than a look-up, so each has two cases.
#[derive(Clone, Copy, Debug, PartialEq, Eq)]
pub enum Refusal {
    // 1: kind above 1
    Kind,
    // 2: square above 63, rank or file above 7, name unreadable, least square of the empty set
    Square,
    // 3: table and marks differ in length
    LengthsDiffer,
    // 4: no room
    NoRoom { block: usize },
    // 5: budget spent, none passed
    Spent { block: usize },
    // 6: lent multiplier collides
    Collides { block: usize },
    // 7: index at or past the table's length, in a look-up
    Index,
    // 7: the same, in an audit
    IndexAt { block: usize, subset: usize },
    // 8: shift outside 52 to 59, in a look-up
    Shift,
    // 8: mask or shift wrong, in an audit
    RecordAt { block: usize },
    // 9: multiplier list not 128 long, PEXT table not 107,648
    Length,
    // 10: budget above 16,777,216
    Budget,
    // 11: slot value wrong
    SlotAt { block: usize, subset: usize },
}

impl Refusal {
    // The paper's number. A method and not a `From`: a refusal has values besides, and the name says which part is meant.
    pub fn number(self) -> u8
        ensures { result ≡ number_of self }
    {
        match self {
            Refusal::Kind => 1,
            Refusal::Square => 2,
            Refusal::LengthsDiffer => 3,
            Refusal::NoRoom { .. } => 4,
            Refusal::Spent { .. } => 5,
            Refusal::Collides { .. } => 6,
            Refusal::Index | Refusal::IndexAt { .. } => 7,
            Refusal::Shift | Refusal::RecordAt { .. } => 8,
            Refusal::Length => 9,
            Refusal::Budget => 10,
            Refusal::SlotAt { .. } => 11,
        }
    }
}
