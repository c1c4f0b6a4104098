// Columns put through both powers of the table, eight at a time: group g has the columns from 8 g on, which lie in byte g of each word.
ghost use Rattle.std.specs.Prelude.{cond, ℕ, ◌+◌, ◌*◌, ◌<◌, eqb, get_or};
ghost use Rattle.cycle.specs.Notation.{bit};
ghost use Rattle.tsc.specs.Constants.{most_words};
ghost use Rattle.tsc.specs.Columns.{column};
ghost use Rattle.transposition.specs.Matrix.{byte, HasBytes, HasRows};
ghost use Rattle.transposition.specs.Groups.{group_count, HasGroup, IsWord};
ghost use Rattle.columns.specs.Replace.{image_of, Replaced};

use super::{bytes, matrix};
use columns::power::Powers;
use tsc::{MOST_WORDS, State, TABLE_SIZE};

// The groups of a word of the widest width.
const GROUPS: usize = 4;

// Byte g of each word, that of word k in byte k.
fn gathered(s: State, g: usize) -> u64
    requires { g < group_count }
    ensures { HasBytes result (λ k. byte g (get_or s.words k 0)) }
{
    let mut q: u64 = 0;
    for k in 0..MOST_WORDS {
        q = bytes::with_byte(q, k, bytes::byte_of(s.words[k] as u64, g));
    }
    q
}

// The columns of group g, column 8 g + i in byte i.
fn columns_of(s: State, g: usize) -> u64
    requires { g < group_count }
    ensures { HasBytes result (λ i. column (8 * g + i) s.words) }
{
    matrix::transpose(gathered(s, g))
}

// What a table makes of each byte.
fn images_of(table: &[u8; TABLE_SIZE], q: u64) -> u64
    ensures { HasBytes result (λ i. get_or table.now (byte i q) 0) }
{
    let mut r: u64 = 0;
    for i in 0..8 {
        r = bytes::with_byte(r, i, table[bytes::byte_of(q, i) as usize]);
    }
    r
}

// Of two matrices of group g, row k in byte k: in the columns in `low` the bits of odd where the selector has a 1, of even where it has a 0.
fn chosen(selector: u32, low: u32, g: usize, odd: u64, even: u64) -> u64
    requires { g < group_count }
    ensures { HasRows result (λ k i. bit (8 * g + i) low * cond (eqb (bit (8 * g + i) selector) 1) (bit i (byte k odd)) (bit i (byte k even))) }
{
    let selected = bytes::repeated(bytes::byte_of(selector as u64, g));
    let mask = bytes::repeated(bytes::byte_of(low as u64, g));
    mask & (even ^ ((odd ^ even) & selected))
}

// Group g with its columns replaced: row k is byte g of word k.
fn group_of(powers: &Powers, s: State, selector: u32, low: u32, g: usize) -> u64
    requires { g < group_count }
    ensures { HasGroup g result (λ i. bit i low * image_of powers.now.odd powers.now.even (bit i selector) (column i s.words)) }
{
    let c = columns_of(s, g);
    let o = matrix::transpose(images_of(&powers.odd, c));
    let e = matrix::transpose(images_of(&powers.even, c));
    chosen(selector, low, g, o, e)
}

// Word k: byte i of it is row k of group i.
fn word_of(groups: [u64; GROUPS], k: usize) -> u32
    requires { k < most_words }
    ensures { IsWord groups k result }
{
    let mut x: u64 = 0;
    for i in 0..GROUPS {
        x = bytes::with_byte(x, i, bytes::byte_of(groups[i], k));
    }
    x as u32
}

// All words.
fn words_of(groups: [u64; GROUPS]) -> State
    ensures { (k : ℕ) → k < most_words → IsWord groups k (get_or result.words k 0) }
{
    let mut out = State {
        words: [0; MOST_WORDS],
    };
    for k in 0..MOST_WORDS {
        out.words[k] = word_of(groups, k);
    }
    out
}

// The columns in `low`, each put through the power that its selector bit picks.
pub fn replace_columns(powers: &Powers, s: State, selector: u32, low: u32) -> State
    ensures { Replaced most_words powers.now.odd powers.now.even s.words selector low result.words }
{
    let mut groups: [u64; GROUPS] = [0; GROUPS];
    for g in 0..GROUPS {
        groups[g] = group_of(powers, s, selector, low, g);
    }
    words_of(groups)
}
