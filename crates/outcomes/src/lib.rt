#![tactic(auto)]

// What a pick comes to once one time is changed: its ties, and whether it goes elsewhere.
pub mod outcome;

use tries::row::MOST_TRIED;

// What all picks from one state have in common: the width, the words that may be tried, and the place of the shovel that is chosen without a change.
#[derive(Clone, Copy)]
pub struct Known {
    pub width: u32,
    pub words: [u32; MOST_TRIED],
    pub chosen: usize,
}
