// Places that are enough alone or by twos: one that is its own entry, and the first two that have the same entry or each other as entry.
ghost use Rattle.std.specs.Prelude.{◌≡◌, ℕ, ◌<◌, get_or, length};
ghost use Rattle.completions.specs.Finding.{is_fixed, uses, clashes, clash, clashes_with};
ghost use Rattle.cycle.specs.Notation.{first};
ghost use Rattle.diagnosis.specs.Marks.{entry_of, first_below, first_pair, IsTable};

use tsc::TABLE_SIZE;

// The first place that is its own entry.
pub fn fixed_point(table: &[u8]) -> Option<usize>
    ensures { result ≡ first_below (length table.now) (is_fixed (entry_of table.now)) }
{
    table
        .iter()
        .enumerate()
        .position(|(x, v)| usize::from(*v) == x)
}

// How many places have each entry. An array, and no map: memory is fixed.
fn uses_of(table: &[u8]) -> [u16; TABLE_SIZE]
    requires { IsTable table.now }
    ensures { (v : ℕ) → get_or result v 0 ≡ uses (length table.now) (entry_of table.now) v }
{
    let mut counts = [0; TABLE_SIZE];
    for v in table {
        counts[usize::from(*v)] += 1;
    }
    counts
}

// The first place whose entry stands elsewhere too, or that is its entry's entry.
fn first_clash(table: &[u8]) -> Option<usize>
    requires { IsTable table.now }
    ensures { result ≡ first_below (length table.now) (clashes (length table.now) (entry_of table.now)) }
{
    let counts = uses_of(table);
    (0..table.len()).find(|x| {
        let y = usize::from(table[*x]);
        1 < counts[y] || usize::from(table[y]) == *x
    })
}

// Whether x with entry v and y with entry w have the same entry, or each other as entry.
fn clash(x: usize, v: usize, y: usize, w: usize) -> bool
    ensures { result ≡ clash x v y w }
{
    v == w || (v == y && w == x)
}

// The first place past x that clashes with it.
fn partner(table: &[u8], x: usize) -> Option<usize>
    requires { IsTable table.now × (x < length table.now) }
    ensures { result ≡ first_below (length table.now) (clashes_with (entry_of table.now) x) }
{
    let v = usize::from(table[x]);
    (x + 1..table.len()).find(|y| clash(x, v, *y, usize::from(table[*y])))
}

// The first place that clashes with another, and the first that it clashes with. Its caller has found no place that is its own entry.
pub fn first_pair(table: &[u8]) -> Option<(usize, usize)>
    requires { IsTable table.now × (first (length table.now) (is_fixed (entry_of table.now)) ≡ length table.now) }
    ensures { result ≡ first_pair (length table.now) (entry_of table.now) }
{
    let x = first_clash(table)?;
    let y = partner(table, x)?;
    Some((x, y))
}
