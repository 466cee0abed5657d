ghost use Rattle.fault_script.specs.Arguments.{IsFound};
ghost use Rattle.fault_script.specs.Parts.{a_name, an_identifier, word_value};

use crate::lines::LineFault;
use crate::splitting::is_script_name;
use ft_base::{NAME_LIMIT, Name, NameFault};
use std::alloc::Global;

/// An operation, or a property's name: any word that can be a name.
pub(crate) fn read_identifier(alloc: Global, word: &[u8]) -> Result<Name, LineFault>
    ensures { IsFound (λ name. name) result (word_value an_identifier word.now) }
{
    if word.len() > NAME_LIMIT {
        return Err(LineFault::Syntax);
    }
    match Name::of(alloc, word) {
        Ok(name) => Ok(name),
        Err(NameFault::NoMemory) => Err(LineFault::NoMemory),
        Err(_) => Err(LineFault::Syntax),
    }
}

/// The name of a group or of a client.
pub(crate) fn read_name(alloc: Global, word: &[u8]) -> Result<Name, LineFault>
    ensures { IsFound (λ name. name) result (word_value a_name word.now) }
{
    if is_script_name(word) {
        read_identifier(alloc, word)
    } else {
        Err(LineFault::Syntax)
    }
}
