// The leaves of the tree: the bits of all images, each in every place of a word, worked out once.
ghost use Rattle.multiplexer.specs.Leaves.{HasImages, HasLeaves};

use columns::few::{FEW_ENTRIES, FEW_WORDS};
use columns::power::Powers;
use words::mask;

// Both images of each entry c: at 2c the one by the even power, at 2c + 1 the one by the odd power, so that a selector bit and a column make one number.
pub const IMAGES: usize = 2 * FEW_ENTRIES;

// A word for each bit of each image.
pub const LEAVES: usize = IMAGES * FEW_WORDS;

// The images one by one.
fn images_of(powers: &Powers) -> [u32; IMAGES]
    ensures { HasImages powers.now.odd powers.now.even result }
{
    let mut out = [0; IMAGES];
    for c in 0..FEW_ENTRIES {
        out[2 * c] = u32::from(powers.even[c]);
        out[2 * c + 1] = u32::from(powers.odd[c]);
    }
    out
}

// The bits of each image, lowest first.
pub fn leaves_of(powers: &Powers) -> [u32; LEAVES]
    ensures { HasLeaves powers.now.odd powers.now.even result }
{
    let images = images_of(powers);
    let mut out = [0; LEAVES];
    for j in 0..LEAVES {
        out[j] = mask::spread(images[j / FEW_WORDS], (j % FEW_WORDS) as u32);
    }
    out
}
