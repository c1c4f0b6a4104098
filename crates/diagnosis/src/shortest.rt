// The shortest cycle of a table that repeats no entry. Each place is passed once: those on the way of an earlier one are marked.
ghost use Rattle.std.specs.Prelude.{◌≡◌, ◌+◌, ◌<◌, length};
ghost use Rattle.completions.specs.Completion.{Injective};
ghost use Rattle.completions.specs.Finding.{cycle_length, Shortest};
ghost use Rattle.diagnosis.specs.Marks.{entry_of, IsTable, marks_along, Tried};

use tsc::TABLE_SIZE;

// Where a cycle starts, and how often the table is followed till it returns.
#[derive(Clone, Copy)]
pub struct Found {
    pub start: usize,
    pub steps: usize,
}

// The table followed from x until it returns, as often as it has entries at most: how often, with a mark at each place on the way. Callers hand over a place of the table.
pub fn mark_cycle(table: &[u8], x: usize, marks: &mut [bool; TABLE_SIZE]) -> usize
    requires { IsTable table.now × (x < length table.now) }
    ensures steps { result ≡ cycle_length (length table.now) (entry_of table.now) x }
    ensures after { marks.new ≡ marks_along (entry_of table.now) x result marks.old }
{
    let mut y = x;
    for steps in 0..table.len() {
        marks[y] = true;
        y = usize::from(table[y]);
        if y == x {
            return steps + 1;
        }
    }
    table.len()
}

// x tried: a place on the way of an earlier one has that one's cycle, and another is followed. The loop below has tried those before.
fn try_place(table: &[u8], x: usize, found: Found, marks: &mut [bool; TABLE_SIZE]) -> Found
    requires { IsTable table.now
        × Injective (length table.now) (entry_of table.now)
        × (x < length table.now)
        × Tried (length table.now) (entry_of table.now) x found marks.old }
    ensures { Tried (length table.now) (entry_of table.now) (x + 1) result marks.new }
{
    if marks[x] {
        return found;
    }
    let steps = mark_cycle(table, x, marks);
    if found.steps <= steps {
        return found;
    }
    Found { start: x, steps }
}

// The first place of a shortest cycle. Its caller has seen by `first_clash` that no entry stands twice.
pub fn shortest(table: &[u8]) -> usize
    requires { IsTable table.now × Injective (length table.now) (entry_of table.now) }
    ensures { Shortest (length table.now) (entry_of table.now) result }
{
    let mut marks = [false; TABLE_SIZE];
    let steps = mark_cycle(table, 0, &mut marks);
    let mut found = Found { start: 0, steps };
    for x in 1..table.len() {
        found = try_place(table, x, found, &mut marks);
    }
    found.start
}
