// Sets of nodes.
#![tactic(auto)]

mod masks; // masks.rt: the table of the words with one digit
pub mod utils; // utils.rt: a set of nodes in words
