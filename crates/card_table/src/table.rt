// The table of a card: 2^m entries and, past them, zeros. It is lent, since by value it would be copied; that a lent array has all its entries is for
// callers to say. Callers establish m ≤ most_words from the words field: the reader has it past its checks, the writer has asked it first.
ghost use Rattle.std.specs.Prelude.{◌≡◌, ◌++◌, ℕ, ◌^◌, ◌<◌, ◌≤◌, length, get_or, take, drop};
ghost use Rattle.cycle.specs.Cycle.{first_return};
ghost use Rattle.tsc.specs.Constants.{most_words, tsc1_table};
ghost use Rattle.card_format.specs.Fields.{field, table_bit, allowed, same};
ghost use Rattle.card_format.specs.Reading.{padded};
ghost use Rattle.card_format.specs.Writing.{unused_clear};

use tsc::{DEFAULT_WORDS, TABLE_SIZE};

// TSC-1's table, document 002 (14), whatever the most entries of a table are.
const TSC1_SIZE: usize = 1 << DEFAULT_WORDS;

const TSC1_TABLE: [u8; TSC1_SIZE] = [3, 5, 9, 13, 1, 6, 11, 15, 4, 0, 8, 14, 10, 7, 2, 12];

// 2^m, the entries of a table. Reader and writer have asked for m; so they have where the functions below get one.
pub fn entries(m: u32) -> usize
    requires { m ≤ most_words }
    ensures { result ≡ 2 ^ m }
{
    1 << m
}

// The first `size` bytes of the part, put over a table's entries. The reader has found them there.
pub fn put_entries(part: &[u8], size: usize, table: &mut [u8; TABLE_SIZE])
    requires { (size ≤ 2 ^ most_words) × (size ≤ length part.now) × (length table.old ≡ 2 ^ most_words) }
    ensures { table.new ≡ take size part.now ++ drop size table.old }
{
    table[..size].copy_from_slice(&part[..size]);
}

// The table of the first `size` bytes of the part, which are there: callers have looked at their number.
pub fn table_from(part: &[u8], size: usize) -> [u8; TABLE_SIZE]
    requires { (size ≤ 2 ^ most_words) × (size ≤ length part.now) }
    ensures { result ≡ padded (take size part.now) }
{
    let mut table = [0; TABLE_SIZE];
    put_entries(part, size, &mut table);
    table
}

// The table that an absent one stands for.
pub fn absent_table() -> [u8; TABLE_SIZE]
    ensures { result ≡ padded tsc1_table }
{
    table_from(&TSC1_TABLE, TSC1_SIZE)
}

// Whether each used entry is below 2^m. A lent array has its length, here and below.
pub fn entries_allowed(table: &[u8; TABLE_SIZE], m: u32) -> bool
    requires { (m ≤ most_words) × (length table.now ≡ 2 ^ most_words) }
    ensures { result ≡ allowed (field m table_bit) (take (2 ^ m) table.now) }
{
    let size = entries(m);
    table[..size].iter().all(|x| (*x as usize) < size)
}

// Whether it is TSC-1's table.
pub fn is_tsc1(table: &[u8; TABLE_SIZE], m: u32) -> bool
    requires { (m ≤ most_words) × (length table.now ≡ 2 ^ most_words) }
    ensures { result ≡ same (take (2 ^ m) table.now) tsc1_table }
{
    m == DEFAULT_WORDS && table[..TSC1_SIZE] == TSC1_TABLE[..]
}

// Whether the entries past 2^m are 0.
pub fn unused_clear(table: &[u8; TABLE_SIZE], m: u32) -> bool
    requires { (m ≤ most_words) × (length table.now ≡ 2 ^ most_words) }
    ensures { result ≡ unused_clear m table.now }
{
    table[entries(m)..].iter().all(|x| *x == 0)
}

// The table followed from 0: the number of steps until 0 returns, or 0 if it does not within `size`. Callers have entries that passed their check.
pub fn first_return(table: &[u8; TABLE_SIZE], size: usize) -> usize
    requires size_nonzero { (0 < size) × (size ≤ 2 ^ most_words) }
    requires by_index { (y : ℕ) → y < size → get_or table.now y 0 < size }
    ensures { result ≡ first_return (λ y. get_or table.now y 0) size }
{
    // A loop with break: document 01, Language forms in the code.
    let mut x = table[0];
    let mut steps: usize = 1;
    loop {
        if size < steps {
            break 0;
        }
        if x == 0 {
            break steps;
        }
        x = table[x as usize];
        steps += 1;
    }
}
