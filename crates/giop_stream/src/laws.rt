//! The laws of streams. The functions do nothing: their contracts are facts.
ghost use Rattle.giop_stream.specs.Spelled.{GivenIsSpelled, StreamsAreSpelled};
ghost use Rattle.giop_stream.specs.Cutting.{CutAreJoined};
ghost use Rattle.giop_stream.specs.Written.{WrittenAreStreamed};

use giop_messages::{
    headers_are_read_back, messages_are_fields_behind_headers, messages_are_read_back,
    messages_are_read_exactly,
};

/// Each message of a stream is spelled by some bytes, at most 1 MiB.
pub fn streams_are_spelled()
    ensures stream { StreamsAreSpelled }
    ensures given { GivenIsSpelled }
{
    headers_are_read_back();
    messages_are_fields_behind_headers();
    messages_are_read_exactly();
}

/// Messages that can be written, back to back, are the messages of their stream, and nothing is left.
pub fn written_are_streamed()
    ensures { WrittenAreStreamed }
{
    headers_are_read_back();
    messages_are_fields_behind_headers();
    messages_are_read_exactly();
    messages_are_read_back();
}

/// A message that is cut into parts is one message of its stream, behind those that stand between its parts.
pub fn cut_are_joined()
    ensures { CutAreJoined }
{
    headers_are_read_back();
    messages_are_fields_behind_headers();
    messages_are_read_exactly();
    messages_are_read_back();
}
