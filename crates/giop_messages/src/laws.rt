//! The laws of reading and writing messages. The functions do nothing: their contracts are facts. Those that
//! rest on the laws of references call them.
ghost use Rattle.giop_messages.specs.Laws.{HeadsAreReadExactly, HeadersAreReadBack, MessagesAreReadExactly, MessagesAreSpelledOnce, MessagesAreFieldsBehindHeaders, MessagesAreWithin, MessagesAreSpelled, MessagesAreReadBack};

use iogr_reference::references_are_codecs;

/// The header that is read of bytes is the one that they spell.
pub fn heads_are_read_exactly()
    ensures { HeadsAreReadExactly }
{}

/// The message that is read of bytes is the one that they spell, and there is one at most.
pub fn messages_are_read_exactly()
    ensures exactly { MessagesAreReadExactly }
    ensures once { MessagesAreSpelledOnce }
{
    references_are_codecs();
}

/// What is written spells the message.
pub fn messages_are_spelled()
    ensures { MessagesAreSpelled }
{
    references_are_codecs();
}

/// What is written is read back, in the form in which it was written.
pub fn messages_are_read_back()
    ensures { MessagesAreReadBack }
{
    references_are_codecs();
}

/// A header that is written is read again, whatever follows.
pub fn headers_are_read_back()
    ensures { HeadersAreReadBack }
{}

/// A message is its header, and the fields behind it.
pub fn messages_are_fields_behind_headers()
    ensures { MessagesAreFieldsBehindHeaders }
{}

/// No context, no body and no rest of a fragment is longer than the bytes that spell its message.
pub fn messages_are_within()
    ensures { MessagesAreWithin }
{}
