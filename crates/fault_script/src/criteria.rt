ghost use Rattle.std.specs.Prelude.{◌≡◌, ◌<◌, length, IfSome};
ghost use Rattle.fault_script.specs.Words.{texts, each};
ghost use Rattle.fault_script.specs.Faults.{IsLeft};
ghost use Rattle.fault_script.specs.Arguments.{IsFound};
ghost use Rattle.fault_script.specs.Properties.{equals_place, criterion};
ghost use Rattle.fault_script.specs.Grammar.{form};
ghost use Rattle.fault_script.specs.Forms.{read_form};
ghost use Rattle.fault_script.specs.declared.verbs.Verb.TheVariants as verbs;

use crate::lines::{Criteria, Line, LineFault};
use crate::settings::read_property;
use crate::steps::{take_kind, take_name};
use property_manager::Property;
use std::alloc::Global;

fn first_equals(word: &[u8]) -> Option<usize>
    ensures place { result ≡ equals_place word.now }
    ensures within { IfSome result (λ place. place < length word.now) }
{
    word.iter().position(|byte| *byte == b'=')
}

/// The property that a word `P=V` says.
fn read_criterion(alloc: Global, word: &[u8]) -> Result<Property, LineFault>
    ensures { IsFound (λ property. property) result (criterion word.now) }
{
    match first_equals(word) {
        Some(place) => read_property(alloc, &word[..place], &word[place + 1..]),
        None => Err(LineFault::Syntax),
    }
}

fn read_criteria(alloc: Global, words: &[&[u8]]) -> Result<Criteria, LineFault>
    ensures { IsFound (λ criteria. criteria) result (each criterion (texts words.now)) }
{
    let mut properties = Vec::new(alloc);
    for word in words {
        let property = match read_criterion(alloc, *word) {
            Ok(property) => property,
            Err(fault) => return Err(fault),
        };
        if properties.push(property).is_err() {
            return Err(LineFault::NoMemory);
        }
    }
    Ok(Criteria::from_vec(properties))
}

/// `create G KIND P=V..`.
pub(crate) fn read_create(
    alloc: Global,
    mut words: &[&[u8]],
    line: &mut Line,
) -> Result<(), LineFault>
    ensures { IsLeft result line.new (read_form (form verbs.Create) (texts words.now)) }
{
    let name = take_name(alloc, &mut words)?;
    let kind = take_kind(&mut words)?;
    let criteria = read_criteria(alloc, words)?;
    *line = Line::Create {
        name,
        kind,
        criteria,
    };
    Ok(())
}
