//! Places in a message, of which none comes near the end of its type: so no bound is asked of the lengths of texts.
ghost use Rattle.std.specs.Prelude.{◌≡◌, ◌≤◌, ◌<◌, ◌+◌, ◌^◌};
ghost use Rattle.cdr_codec.specs.Reading.{start};
ghost use Rattle.message_sizes.specs.Places.{number_end, text_end};

/// The place at which a value of this size begins, behind its padding.
pub(crate) fn start(place: u128, size: u128) -> u128
    requires low { place < 2 ^ 100 }
    requires some { 0 < size }
    requires small { size ≤ 8 }
    ensures value { result ≡ start size place }
    ensures near { result < place + 8 }
{
    place + (size - place % size) % size
}

/// The place behind a number of 4 bytes.
pub(crate) fn number_end(place: u128) -> u128
    requires low { place < 2 ^ 100 }
    ensures value { result ≡ number_end place }
    ensures near { result < place + 12 }
{
    start(place, 4) + 4
}

/// The place behind a text of so many bytes, which its NUL follows.
pub(crate) fn text_end(place: u128, count: u128) -> u128
    requires low { place < 2 ^ 90 }
    requires short { count < 2 ^ 66 }
    ensures value { result ≡ text_end place count }
    ensures near { result < place + count + 16 }
{
    number_end(place) + count + 1
}
