// The least set of places that excludes a single cycle, as marks: a fixed point, else the first two that clash, else the shortest cycle.
ghost use Rattle.std.specs.Prelude.{length};
ghost use Rattle.cycle.specs.Cycle.{SingleCycle};
ghost use Rattle.completions.specs.Completion.{Excludes};
ghost use Rattle.completions.specs.Sets.{LeastSet};
ghost use Rattle.diagnosis.specs.Marks.{entry_of, IsTable, marked};

use super::{pair, shortest};
use tsc::TABLE_SIZE;

// The marked places. The call has seen that the table is no single cycle.
pub fn least_set(table: &[u8]) -> [bool; TABLE_SIZE]
    requires { IsTable table.now × (SingleCycle (length table.now) (entry_of table.now) 0 → ⊥) }
    ensures { LeastSet (length table.now) (Excludes (length table.now) (entry_of table.now)) (marked result) }
{
    let mut marks = [false; TABLE_SIZE];
    if let Some(x) = pair::fixed_point(table) {
        marks[x] = true;
        return marks;
    }
    if let Some((x, y)) = pair::first_pair(table) {
        marks[x] = true;
        marks[y] = true;
        return marks;
    }
    let start = shortest::shortest(table);
    shortest::mark_cycle(table, start, &mut marks);
    marks
}
