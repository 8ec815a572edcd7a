// What is promised of a whole board.
ghost use Rattle.runs.specs.Example.{ExampleStands};
ghost use Rattle.runs.specs.Board.{BoardNeverLate, BoardOneAtATime, SomeBoardRun};

// Where a plan is for the accepted reservations, and the demand of each processor fits, no instance is late.
pub fn board_never_late() -> u8
    ensures { BoardNeverLate }
{
    0
}

// Where no part stands twice, no instance is served by two processors at once.
pub fn board_one_at_a_time() -> u8
    ensures { BoardOneAtATime }
{
    0
}

// Every plan has a run, for every pattern.
pub fn some_board_run() -> u8
    ensures { SomeBoardRun }
{
    0
}

// A plan with a split reservation meets every condition.
pub fn example_stands() -> u8
    ensures { ExampleStands }
{
    0
}
