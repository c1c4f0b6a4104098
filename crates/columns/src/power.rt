// Powers of a table that is a single cycle (document 01: a whole ring), worked out once for all its entries, at a cost that does not grow with the
// power. Callers have an accepted card.
ghost use Rattle.std.specs.Prelude.{◌≡◌, ◌<◌, ◌≤◌, get_or};
ghost use Rattle.cycle.specs.Notation.{iterate};
ghost use Rattle.tsc.specs.Constants.{most_words};
ghost use Rattle.columns.specs.Replace.{IsCycle, IsPowerOf};

use card_table::table::entries;
use tsc::TABLE_SIZE;
use words::arithmetic;

// A table applied so many times, for a selector bit of 1 and for one of 0.
#[derive(Clone, Copy)]
pub struct Powers {
    pub odd: [u8; TABLE_SIZE],
    pub even: [u8; TABLE_SIZE],
}

// Where 0 goes by so many applications of the table; whole rounds of its cycle are left out.
fn entry_after(table: &[u8; TABLE_SIZE], m: u32, times: u32) -> u8
    requires { (0 < m) × (m ≤ most_words) × IsCycle m table.now }
    ensures { result ≡ iterate (λ y. get_or table.now y 0) times 0 }
{
    let w = arithmetic::width_of(m);
    let mut y: u8 = 0;
    for _ in 0..arithmetic::reduce(w, times) {
        y = table[y as usize];
    }
    y
}

// Both powers in one round: x goes round the cycle from 0, and y and z, as many entries ahead as the table is applied, go along. The calls hold an accepted
// card, whose table is a single cycle.
pub fn powers_of(table: &[u8; TABLE_SIZE], m: u32, odd: u32, even: u32) -> Powers
    requires { (0 < m) × (m ≤ most_words) × IsCycle m table.now }
    ensures { IsPowerOf m table.now odd result.odd × IsPowerOf m table.now even result.even }
{
    let mut p = Powers {
        odd: [0; TABLE_SIZE],
        even: [0; TABLE_SIZE],
    };
    let mut x: u8 = 0;
    let mut y = entry_after(table, m, odd);
    let mut z = entry_after(table, m, even);
    for _ in 0..entries(m) {
        p.odd[x as usize] = y;
        p.even[x as usize] = z;
        x = table[x as usize];
        y = table[y as usize];
        z = table[z as usize];
    }
    p
}
