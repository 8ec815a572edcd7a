// What a line asks for by its first word and its number of fields. A line too long is told first, then an unknown word, then a wrong count.
ghost use Rattle.std.specs.Prelude.{◌≡◌, ◌<◌, ◌≤◌, min, length, IfOk};
ghost use Rattle.lines.specs.Fields.{fields};
ghost use Rattle.benchlines.specs.Tasks.{blank, counted, rows_after, task_of, FewRows};

use lines::command::is_blank_within;
use lines::fields::{field, has_field, has_fields};
use model::fault::LineFault;

// A line may have this many bytes, its newline not counted.
pub const LONGEST_LINE: usize = 12_000;

// A line may have this many rows. A count of them is a number and no type: definitions of tasks would have to carry a proof.
pub const MOST_ROWS: usize = 40;

// More fields than any line may have.
const MANY_FIELDS: usize = 127;

#[derive(Clone, Copy)]
pub enum Task {
    Blank,
    Admit,
    Leave,
    Load,
    Save,
    Look,
    // With so many rows.
    Judge(usize),
    Allow(usize),
}

impl Task {
    pub fn read(line: &[u8]) -> Result<Task, LineFault>
        ensures task { result ≡ task_of line.now }
        ensures few { IfOk result FewRows }
    {
        if line.len() > LONGEST_LINE {
            return Err(LineFault::Long);
        }
        if !has_field(line, 0) {
            return Ok(Task::Blank);
        }
        match field(line, 0) {
            b"admit" => counted(line, 5, Task::Admit),
            b"leave" => counted(line, 2, Task::Leave),
            b"load" => counted(line, 2, Task::Load),
            b"save" => counted(line, 1, Task::Save),
            b"look" => counted(line, 3, Task::Look),
            b"judge" => Ok(Task::Judge(rows_after(1, count_fields(line))?)),
            b"allow" => Ok(Task::Allow(rows_after(3, count_fields(line))?)),
            _ => Err(LineFault::Word),
        }
    }
}

// Whether a line asks for nothing. One that is too long is not blank, whatever it holds.
pub fn is_blank(line: &[u8]) -> bool
    ensures { result ≡ blank line.now }
{
    is_blank_within(line, LONGEST_LINE)
}

// The task, if the line has just so many fields.
fn counted(line: &[u8], wanted: usize, task: Task) -> Result<Task, LineFault>
    requires { (0 < wanted) × (FewRows task) }
    ensures task { result ≡ counted (length (fields line.now)) wanted task }
    ensures few { IfOk result FewRows }
{
    if !has_fields(line, wanted) {
        return Err(LineFault::Fields);
    }
    Ok(task)
}

// How many rows of three fields stand behind the first fields.
fn rows_after(first: usize, count: usize) -> Result<usize, LineFault>
    ensures rows { result ≡ rows_after first count }
    ensures few { IfOk result (λ rows. rows ≤ 40) }
{
    if count >= first && (count - first) % 3 == 0 && (count - first) / 3 <= MOST_ROWS {
        return Ok((count - first) / 3);
    }
    Err(LineFault::Fields)
}

// How many fields a line has; 127 stands for any more.
pub fn count_fields(line: &[u8]) -> usize
    ensures { result ≡ min 127 (length (fields line.now)) }
{
    lines::fields::count_fields(line).min(MANY_FIELDS)
}
