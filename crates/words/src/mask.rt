// Words by their bits: one bit, the same bit in every place, and a choice in each place. Nothing here branches. Callers name places of a word.
ghost use Rattle.std.specs.Prelude.{◌≡◌, ◌<◌, if◌then◌else◌, nat_eq};
ghost use Rattle.cycle.specs.Notation.{bit};
ghost use Rattle.tsc.specs.Constants.{widest_width};
ghost use Rattle.words.specs.Masks.{HasBits};

// Bit i of x.
pub fn bit_of(x: u32, i: u32) -> u32
    requires { i < widest_width }
    ensures { result ≡ bit i x }
{
    (x >> i) % 2
}

// Bit k of x in every place.
pub fn spread(x: u32, k: u32) -> u32
    requires { k < widest_width }
    ensures { HasBits result (λ i. bit k x) }
{
    bit_of(x, k) * 0xffff_ffff
}

// In each place f where x has a 1, and g where it has a 0: f by the mask x, g by its complement. This is (f & x) | (g & !x) in the form that is compiled
// best.
pub fn join(x: u32, f: u32, g: u32) -> u32
    ensures { HasBits result (λ i. (if nat_eq (bit i x) 1 then bit i f else bit i g)) }
{
    g ^ ((f ^ g) & x)
}
