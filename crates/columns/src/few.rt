// Words so few that all entries of their tables can be gone through on whole words.
pub const FEW_WORDS: usize = 4;

// The entries of a table for that many.
pub const FEW_ENTRIES: usize = 1 << FEW_WORDS;
