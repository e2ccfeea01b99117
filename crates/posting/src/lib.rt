// The plan board itself: the line that is shown of an operation, and the last eight lines, newest first.
#![tactic(auto)]

ghost use Rattle.std.specs.Prelude.{◌≡◌};
ghost use Rattle.posting.specs.Posting.{is_unplanned, done_shown, operation_shown, no_board, rows_of, row_in, post_of, leaves};

use state::Operation;
use values::Value;

// The line of the board: a plan that is final; a call that is open; a call that ended without a plan; no call that brought anything; or nothing, as the
// recording is refused or unfinished.
#[derive(Clone, Copy)]
pub enum Shown {
    Final(u32),
    Wait,
    NoPlan,
    None,
    Unjudged,
}

// A row of the board.
#[derive(Clone, Copy)]
pub struct Row {
    pub shown: Shown,
}

// The last lines, the newest in row 0; the first `count` rows have one.
// Kept: a count beside an array, since there is no heap, and definitions name both fields.
#[derive(Clone, Copy)]
pub struct Board {
    pub count: u8,
    pub at: [Row; Board::ROWS],
}

// What a showing tells: its line; 3, where the operation is not there; or that the configuration can't be used, as the judge says it.
#[derive(Clone, Copy)]
pub enum Told {
    Line(Shown),
    Refused(u8),
    Configuration(usize, u8),
    TooLong,
}

// A showing: what it tells, and the board after it.
#[derive(Clone, Copy)]
pub struct Posted {
    pub told: Told,
    pub board: Board,
}

// What is shown of a result. A plan that did not come in time is none.
#[tactic(auto, unfolding(crate::specs::Posting::done_shown))]
fn done_shown(v: Value) -> Shown
    ensures { result ≡ done_shown v }
{
    if v.kind == Value::NUMBER {
        return Shown::Final(v.number);
    }
    if is_unplanned(v) {
        return Shown::NoPlan;
    }
    Shown::None
}

#[tactic(auto, unfolding(crate::specs::Posting::is_unplanned))]
fn is_unplanned(v: Value) -> bool
    ensures { result ≡ is_unplanned v }
{
    v.kind == Value::TIMEOUT.kind || v.kind == Value::SERVER_ERR.kind
}

// What is shown of an operation.
#[tactic(auto, unfolding(crate::specs::Posting::operation_shown))]
pub fn operation_shown(x: Operation) -> Shown
    ensures { result ≡ operation_shown x }
{
    if x.calling {
        return Shown::Wait;
    }
    done_shown(x.done)
}

impl Board {
    pub const ROWS: usize = 8;

    // A board that has shown nothing.
    #[tactic(auto, unfolding(crate::specs::Posting::no_board))]
    pub fn none() -> Board
        ensures { result ≡ no_board }
    {
        Board {
            count: 0,
            at: [Row {
                shown: Shown::Unjudged,
            }; Board::ROWS],
        }
    }

    // How many rows have a line.
    #[tactic(auto, unfolding(crate::specs::Posting::rows_of))]
    pub fn rows(self) -> usize
        ensures { result ≡ rows_of self }
    {
        usize::from(self.count).min(Board::ROWS)
    }

    // The line in row i.
    #[tactic(auto, unfolding(crate::specs::Posting::row_in))]
    pub fn row(self, i: usize) -> Shown
        ensures { result ≡ row_in self i }
    {
        self.at.get(i).map_or(Shown::Unjudged, |row| row.shown)
    }

    // One line more, in front.
    pub fn post(self, x: Shown) -> Board
        ensures { result ≡ post_of self x }
    {
        let mut at = self.at;
        at.rotate_right(1);
        at[0] = Row { shown: x };
        Board {
            count: self.count.min(Board::ROWS as u8 - 1) + 1,
            at,
        }
    }
}

// Something else than a line is told, and the board stays as it was.
pub fn leaves(board: Board, told: Told) -> Posted
    ensures { result ≡ leaves board told }
{
    Posted { told, board }
}
