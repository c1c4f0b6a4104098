// A matrix of 8 by 8 bits in a u64, row k in byte k, and its transpose by three exchanges.
ghost use Rattle.std.specs.Prelude.{◌≡◌, ℕ};
ghost use Rattle.cycle.specs.Notation.{bit};
ghost use Rattle.transposition.specs.Matrix.{Apart, source, IsTranspose};

// The bits in `mask` exchanged with those `places` higher up.
fn exchange(x: u64, places: u64, mask: u64) -> u64
    requires { Apart places mask }
    ensures { (j : ℕ) → bit j result ≡ bit (source places mask j) x }
{
    let t = (x ^ (x >> places)) & mask;
    x ^ t ^ (t << places)
}

// The transpose: each block of 2 by 2 bits, then each of 2 by 2 such blocks, then the whole.
pub fn transpose(x: u64) -> u64
    ensures { IsTranspose result x }
{
    let y = exchange(x, 7, 0x00AA_00AA_00AA_00AA);
    let z = exchange(y, 14, 0x0000_CCCC_0000_CCCC);
    exchange(z, 28, 0x0000_0000_F0F0_F0F0)
}
