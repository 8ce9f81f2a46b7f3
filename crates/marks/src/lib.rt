// A mark for each slot of the node table, one byte at column 81.
#![tactic(auto)]

ghost use Rattle.std.specs.Prelude.{◌≡◌, ◌+◌, ◌*◌, ◌≤◌, length};
ghost use Rattle.graph.specs.Links.{Starts};
ghost use Rattle.graph.specs.Table.{slot_width, Slot};
ghost use Rattle.marks.specs.Marks.{is_marked, Stands, MarkSet, Unmarked, StartMarked, StartsMarked};

use graph::{ABSENT, MARK_COLUMN, SLOT_WIDTH, previous_of, source_of};

pub fn marked(work: &[u8], i: usize) -> bool
    requires { Slot work.now i }
    ensures { result ≡ is_marked work.now i }
{
    work[SLOT_WIDTH * i + MARK_COLUMN] == 1
}

pub fn set_mark(work: &mut [u8], i: usize, mark: bool)
    requires { Slot work.old i }
    ensures { MarkSet work.old work.new i mark }
{
    if mark {
        work[SLOT_WIDTH * i + MARK_COLUMN] = 1;
        return;
    }
    work[SLOT_WIDTH * i + MARK_COLUMN] = 0;
}

// Takes the marks off the first n slots.
pub fn clear_marks(work: &mut [u8], n: usize)
    requires { slot_width * n ≤ length work.old }
    ensures { Unmarked work.old work.new n }
{
    for i in 0..n {
        set_mark(work, i, false);
    }
}

// Marks where an edge starts, if there is such an edge.
fn mark_start(work: &mut [u8], start: u16)
    requires { Stands work.old start }
    ensures { StartMarked work.old work.new start }
{
    if start == ABSENT {
        return;
    }
    let from = start as usize;
    set_mark(work, from, true);
}

// Marks the slots where the edges into a slot start.
pub fn mark_starts(work: &mut [u8], i: usize)
    requires { Starts work.old i }
    ensures { StartsMarked work.old work.new i }
{
    let previous = previous_of(work, i);
    let source = source_of(work, i);
    mark_start(work, previous);
    mark_start(work, source);
}
