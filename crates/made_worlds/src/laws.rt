//! Laws. The functions do nothing: their contracts are facts.
ghost use Rattle.made_worlds.specs.Going.{MadeLinesGo};

use script_groups::{failures_come_once, groups_go_on};

/// No line of a script that is made, of up to 50,000 rounds, is refused: each finds the group, the client, the host or the
/// message that it names, and after none of them a total is past its limit.
pub fn made_scripts_go()
    ensures { MadeLinesGo }
{
    groups_go_on();
    failures_come_once();
}
