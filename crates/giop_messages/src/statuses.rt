//! The statuses of a Reply and of a LocateReply. (GIOP chapter, "Reply Message" and "LocateReply Message".)
ghost use Rattle.std.specs.Prelude.{◌≡◌, ◌==◌};
ghost use Rattle.std.specs.List.{find};
ghost use Rattle.cdr_codec.specs.Calls.{Gives};
ghost use Rattle.giop_messages.specs.Faults.{wrong_of};
ghost use Rattle.giop_messages.specs.Fields.{status_among, statuses_1_2, statuses_1_0, locate_statuses};

use crate::faults::{Malformed, Why};
use cdr_codec::CdrReader;

/// The body is the operation's result.
pub const NO_EXCEPTION: u32 = 0;

/// The body is an exception of the object's own.
pub const USER_EXCEPTION: u32 = 1;

/// The body is an exception of the system.
pub const SYSTEM_EXCEPTION: u32 = 2;

/// The body is a reference to which this request is to be sent.
pub const LOCATION_FORWARD: u32 = 3;

/// The body is a reference to which all requests are to be sent from now on.
pub const LOCATION_FORWARD_PERM: u32 = 4;

/// The target is to be named in another form, which the body says.
pub const NEEDS_ADDRESSING_MODE: u32 = 5;

/// Nothing is known of the object.
pub const UNKNOWN_OBJECT: u32 = 0;

/// The object is here.
pub const OBJECT_HERE: u32 = 1;

const REPLY_STATUSES_1_2: [u32; 6] = [
    NO_EXCEPTION,
    USER_EXCEPTION,
    SYSTEM_EXCEPTION,
    LOCATION_FORWARD,
    LOCATION_FORWARD_PERM,
    NEEDS_ADDRESSING_MODE,
];

const REPLY_STATUSES_1_0: [u32; 4] = [
    NO_EXCEPTION,
    USER_EXCEPTION,
    SYSTEM_EXCEPTION,
    LOCATION_FORWARD,
];

const LOCATE_STATUSES: [u32; 2] = [UNKNOWN_OBJECT, OBJECT_HERE];

fn status_with(statuses: &[u32], number: u32) -> Option<u32>
    ensures { result ≡ find (λ status. status == number) statuses.now }
{
    statuses.iter().copied().find(|status| *status == number)
}

fn read_status(statuses: &[u32], reader: &mut CdrReader) -> Result<u32, Malformed>
    ensures { Gives (λ n. n) wrong_of result ((status_among statuses.now).read reader.old) reader.new }
{
    let place = reader.start(4);
    let number = reader.read_u32()?;
    match status_with(statuses, number) {
        Some(status) => Ok(status),
        None => Err(Malformed {
            why: Why::Status,
            place,
        }),
    }
}

/// The status of a Reply of 1.0 and 1.1.
pub fn read_status_1_0(reader: &mut CdrReader) -> Result<u32, Malformed>
    ensures { Gives (λ n. n) wrong_of result ((status_among statuses_1_0).read reader.old) reader.new }
{
    read_status(REPLY_STATUSES_1_0.as_slice(), reader)
}

/// The status of a Reply of 1.2.
pub fn read_status_1_2(reader: &mut CdrReader) -> Result<u32, Malformed>
    ensures { Gives (λ n. n) wrong_of result ((status_among statuses_1_2).read reader.old) reader.new }
{
    read_status(REPLY_STATUSES_1_2.as_slice(), reader)
}

/// The status of a LocateReply.
pub fn read_locate_status(reader: &mut CdrReader) -> Result<u32, Malformed>
    ensures { Gives (λ n. n) wrong_of result ((status_among locate_statuses).read reader.old) reader.new }
{
    read_status(LOCATE_STATUSES.as_slice(), reader)
}
