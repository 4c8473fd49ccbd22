// Systems: the interface, the store that answers each question by a read, and tables.
#![tactic(auto)]

pub mod limits;
pub mod listed;
pub mod lists;
pub mod rows;
pub mod system;
pub mod table;
pub mod transitions;
