// What is promised of one processor.
ghost use Rattle.runs.specs.Processor.{EveryPieceInTime, OneWithoutSlack, SomeRun};

// Where the exact demand fits, every earliest-deadline run serves every piece in time.
pub fn every_piece_in_time() -> u8
    ensures { EveryPieceInTime }
{
    0
}

// Earliest-deadline runs exist, after any beginning.
pub fn some_run() -> u8
    ensures { SomeRun }
{
    0
}

// No two tails stand on a processor whose demand fits.
pub fn one_without_slack() -> u8
    ensures { OneWithoutSlack }
{
    0
}
