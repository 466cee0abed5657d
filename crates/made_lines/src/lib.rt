//! The lines of a script that is made, as values. The code here is one law: the script's text reads as them, line
//! for line.
#![tactic(auto)]

mod laws;

pub use laws::made_scripts_are_read;
