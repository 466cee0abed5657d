ghost use Rattle.std.specs.Prelude.{◌≡◌};
ghost use Rattle.fault_script.specs.Parts.{a_kind, a_style, a_stop, a_scope, word_value};

use crate::lines::KindWord;
use ft_base::{Stop, Style};

/// Whose property is set or read.
#[derive(Clone, Copy, Debug, PartialEq, Eq)]
pub(crate) enum Scope {
    /// That of all groups.
    Default,
    /// That of the groups of a kind.
    Type,
    /// That of one group.
    Group,
}

/// The kind of servant that a word names.
pub(crate) fn find_kind(word: &[u8]) -> Option<KindWord>
    ensures { result ≡ word_value a_kind word.now }
{
    if word == b"account".as_slice() {
        Some(KindWord::Account)
    } else if word == b"store".as_slice() {
        Some(KindWord::Store)
    } else if word == b"queue".as_slice() {
        Some(KindWord::Queue)
    } else {
        None
    }
}

/// The style of replication that a word names.
pub(crate) fn find_style(word: &[u8]) -> Option<Style>
    ensures { result ≡ word_value a_style word.now }
{
    if word == b"cold".as_slice() {
        Some(Style::Cold)
    } else if word == b"warm".as_slice() {
        Some(Style::Warm)
    } else if word == b"active".as_slice() {
        Some(Style::Active)
    } else {
        None
    }
}

/// The stop in the middle of a delivery that a word behind `crash` names.
pub(crate) fn find_stop(word: &[u8]) -> Option<Stop>
    ensures { result ≡ word_value a_stop word.now }
{
    if word == b"append".as_slice() {
        Some(Stop::AfterAppend)
    } else if word == b"execute".as_slice() {
        Some(Stop::AfterExecute)
    } else {
        None
    }
}

/// The scope that a word names.
pub(crate) fn find_scope(word: &[u8]) -> Option<Scope>
    ensures { result ≡ word_value a_scope word.now }
{
    if word == b"default".as_slice() {
        Some(Scope::Default)
    } else if word == b"type".as_slice() {
        Some(Scope::Type)
    } else if word == b"group".as_slice() {
        Some(Scope::Group)
    } else {
        None
    }
}
