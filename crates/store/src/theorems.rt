// What holds of stored plans, each stated as the contract of a function.
ghost use Rattle.store.specs.Theorems.{OneRowStored, SavedLoads, SavedAgain, LoadedAgain, SayableLoads, SayableAgain, SayableReloads};

use model::judge::Judge;

// The worked example of docs/stored-plan.md.
pub fn one_row_stored() -> u8
    ensures { OneRowStored }
{
    0
}

// A saved plan loads as the plan that was saved, on any board of equal processor count and judge.
pub fn saved_loads<J: Judge>(judge: &J) -> u8
    ensures computed { SavedLoads (J.Judge.accepts judge.now) }
    ensures rules { SayableLoads (J.Judge.accepts judge.now) }
{
    0
}

// Saving after loading what save wrote gives the same bytes.
pub fn saved_again<J: Judge>(judge: &J) -> u8
    ensures computed { SavedAgain (J.Judge.accepts judge.now) }
    ensures rules { SayableAgain (J.Judge.accepts judge.now) }
{
    0
}

// An image that loads, saved and loaded again, gives the same plan.
pub fn loaded_again<J: Judge>(judge: &J) -> u8
    ensures computed { LoadedAgain (J.Judge.accepts judge.now) }
    ensures rules { SayableReloads (J.Judge.accepts judge.now) }
{
    0
}
