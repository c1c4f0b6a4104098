#![tactic(auto)]

// Lists of shovels and their times: what is refused of them, refusals 12 to 15; 13 to 15 also of shovels with places. Which of these apply is defined in specs/.
pub mod check;
