//! The worlds of a script that is made: none of its lines is refused. The code here is that one law.
#![tactic(auto)]

mod laws;

pub use laws::made_scripts_go;
