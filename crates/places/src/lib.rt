// Places on the map: squared distances, and what is refused. Both are defined in specs/.
#![tactic(auto)]

pub mod around;
mod distance;
pub mod map;
