ghost use Rattle.fault_script.specs.Words.{texts};
ghost use Rattle.fault_script.specs.Faults.{IsLeft};
ghost use Rattle.fault_script.specs.Arguments.{IsFound};
ghost use Rattle.fault_script.specs.Parts.{a_scope};
ghost use Rattle.fault_script.specs.Properties.{property_of};
ghost use Rattle.fault_script.specs.Grammar.{first_word, form, property_form, property_name_form};
ghost use Rattle.fault_script.specs.Forms.{read_form};
ghost use Rattle.fault_script.specs.declared.lines.Line.TheVariants as lines;
ghost use Rattle.fault_script.specs.declared.verbs.Verb.TheVariants as verbs;

use crate::keywords::{Scope, find_scope};
use crate::lines::{Level, Line, LineFault};
use crate::names::read_identifier;
use crate::steps::{next_word, no_more, take_identifier, take_kind, take_name, take_text};
use ft_base::Bytes;
use property_manager::{Property, PropertyValue};
use std::alloc::Global;

/// The property with this name and this value.
pub(crate) fn read_property(alloc: Global, name: &[u8], value: &[u8]) -> Result<Property, LineFault>
    ensures { IsFound (λ property. property) result (property_of name.now value.now) }
{
    let name = read_identifier(alloc, name)?;
    let value = Bytes::of(alloc, value)?;
    Ok(Property {
        name,
        value: PropertyValue(value),
    })
}

fn take_scope(words: &mut &[&[u8]]) -> Result<Scope, LineFault>
    ensures { IsFound (λ place. (place, texts words.new.now)) result (first_word a_scope (texts words.old.now)) }
{
    let word = next_word(words)?;
    find_scope(word).ok_or(LineFault::Syntax)
}

fn set_level(
    alloc: Global,
    level: Level,
    mut words: &[&[u8]],
    line: &mut Line,
) -> Result<(), LineFault>
    ensures { IsLeft result line.new (read_form (property_form (λ property. lines.Set level property)) (texts words.now)) }
{
    let name = take_identifier(alloc, &mut words)?;
    let value = PropertyValue(take_text(alloc, &mut words)?);
    no_more(words)?;
    *line = Line::Set {
        level,
        property: Property { name, value },
    };
    Ok(())
}

/// `set default P V`, `set type KIND P V`, `set group G P V`.
pub(crate) fn read_set(alloc: Global, mut words: &[&[u8]], line: &mut Line) -> Result<(), LineFault>
    ensures { IsLeft result line.new (read_form (form verbs.Set) (texts words.now)) }
{
    match take_scope(&mut words)? {
        Scope::Default => set_level(alloc, Level::Default, words, line),
        Scope::Type => {
            let kind = take_kind(&mut words)?;
            set_level(alloc, Level::Type(kind), words, line)
        }
        Scope::Group => {
            let group = take_name(alloc, &mut words)?;
            let name = take_identifier(alloc, &mut words)?;
            let value = PropertyValue(take_text(alloc, &mut words)?);
            no_more(words)?;
            *line = Line::SetGroup {
                group,
                property: Property { name, value },
            };
            Ok(())
        }
    }
}

fn unset_level(
    alloc: Global,
    level: Level,
    mut words: &[&[u8]],
    line: &mut Line,
) -> Result<(), LineFault>
    ensures { IsLeft result line.new (read_form (property_name_form (λ name. lines.Unset level name)) (texts words.now)) }
{
    let name = take_identifier(alloc, &mut words)?;
    no_more(words)?;
    *line = Line::Unset { level, name };
    Ok(())
}

/// `unset default P`, `unset type KIND P`.
pub(crate) fn read_unset(
    alloc: Global,
    mut words: &[&[u8]],
    line: &mut Line,
) -> Result<(), LineFault>
    ensures { IsLeft result line.new (read_form (form verbs.Unset) (texts words.now)) }
{
    match take_scope(&mut words)? {
        Scope::Default => unset_level(alloc, Level::Default, words, line),
        Scope::Type => {
            let kind = take_kind(&mut words)?;
            unset_level(alloc, Level::Type(kind), words, line)
        }
        Scope::Group => Err(LineFault::Syntax),
    }
}

fn get_level(
    alloc: Global,
    level: Level,
    mut words: &[&[u8]],
    line: &mut Line,
) -> Result<(), LineFault>
    ensures { IsLeft result line.new (read_form (property_name_form (λ name. lines.Get level name)) (texts words.now)) }
{
    let name = take_identifier(alloc, &mut words)?;
    no_more(words)?;
    *line = Line::Get { level, name };
    Ok(())
}

/// `get default P`, `get type KIND P`, `get group G P`.
pub(crate) fn read_get(alloc: Global, mut words: &[&[u8]], line: &mut Line) -> Result<(), LineFault>
    ensures { IsLeft result line.new (read_form (form verbs.Get) (texts words.now)) }
{
    match take_scope(&mut words)? {
        Scope::Default => get_level(alloc, Level::Default, words, line),
        Scope::Type => {
            let kind = take_kind(&mut words)?;
            get_level(alloc, Level::Type(kind), words, line)
        }
        Scope::Group => {
            let group = take_name(alloc, &mut words)?;
            let name = take_identifier(alloc, &mut words)?;
            no_more(words)?;
            *line = Line::GetGroup { group, name };
            Ok(())
        }
    }
}
