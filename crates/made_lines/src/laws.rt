//! The law of scripts that are made. The function does nothing: its contract is a fact.
ghost use Rattle.made_lines.specs.Reading.{MadeTextsRead};

/// Each line of a script that is made, of up to 50,000 rounds, is read, and none is past the limit of a script.
pub fn made_scripts_are_read()
    ensures { MadeTextsRead }
{}
