// Arithmetic of n bits, n from 1 to 32: sums and rotations, both through `reduce`. Callers have n from a checked card, and what they need of it is worked
// out once: 2^n - 1, and rotations modulo n.
ghost use Rattle.std.specs.Prelude.{◌≡◌, ◌%◌, ◌^◌, ◌<◌, ◌≤◌};
ghost use Rattle.tsc.specs.Constants.{widest_width};
ghost use Rattle.tsc.specs.Word.{◌⊞◌, ◌⋘◌};
ghost use Rattle.words.specs.Widths.{width_of, IsWidth};

use std::num::wrapping_add_u32;

// n, and 2^n - 1.
#[derive(Clone, Copy)]
pub struct Width {
    pub bits: u32,
    pub low: u32,
}

// The width of n bits.
pub fn width_of(n: u32) -> Width
    requires { (0 < n) × (n ≤ widest_width) }
    ensures { result ≡ width_of n }
{
    Width {
        bits: n,
        low: 0xffff_ffff >> (32 - n),
    }
}

// The lowest n bits: the one place where a number is reduced to n bits.
pub fn reduce(w: Width, x: u32) -> u32
    requires { IsWidth w }
    ensures { result ≡ x % 2 ^ w.bits }
{
    x & w.low
}

// The sum modulo 2^n.
pub fn add(w: Width, x: u32, y: u32) -> u32
    requires { IsWidth w }
    ensures { result ≡ ◌⊞◌ w.bits x y }
{
    reduce(w, wrapping_add_u32(x, y))
}

// x turned left by fewer than n places, within n bits. The shift to the right is made in two, since by 0 places it is one by n.
pub fn rotate_left(w: Width, x: u32, places: u32) -> u32
    requires { IsWidth w × (x < 2 ^ w.bits) × (places < w.bits) }
    ensures { result ≡ ◌⋘◌ w.bits x places }
{
    reduce(w, x << places) + ((x >> 1) >> (w.bits - 1 - places))
}
