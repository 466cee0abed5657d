//! The twelve bytes with which each message begins. (GIOP chapter, "GIOP Message Header".)
ghost use Rattle.std.specs.Prelude.{◌≡◌, ◌≤◌, ◌<◌, ◌+◌, ◌^◌, length, IfOk};
ghost use Rattle.cdr_codec.specs.Orders.{order_of};
ghost use Rattle.cdr_codec.specs.Calls.{Gives};
ghost use Rattle.giop_messages.specs.Faults.{wrong_of, IsJudged};
ghost use Rattle.giop_messages.specs.Heads.{octet, magic_byte, version, kind, kind_of, kind_sign, has_fragment_bit, may_have_fragment_bit, more_in, has_kind, size_by, head, header, has_parts, flags_fit, head_in};
ghost use Rattle.giop_messages.specs.Messages.{form_of};
ghost use Rattle.giop_messages.specs.Writing.{begun_message, with_size};

use crate::faults::{Malformed, Why};
use crate::forms::Form;
use cdr_codec::{CdrReader, CdrWriter, Order, digits_of_u32};
use ft_base::{Bytes, NoMemory};
use std::alloc::Global;

/// The number of bytes of a header.
pub const HEAD_LENGTH: usize = 12;

/// The place of the size in a header.
const SIZE_PLACE: usize = 8;

/// The most bytes of a message with its header, also of one that came in parts: 1 MiB.
pub const MESSAGE_LIMIT: usize = 1048576;

/// The type of a message, from 0 to 7.
#[derive(Clone, Copy, Debug, PartialEq, Eq)]
pub enum Kind {
    Request,
    Reply,
    CancelRequest,
    LocateRequest,
    LocateReply,
    CloseConnection,
    MessageError,
    Fragment,
}

/// What a header says.
#[derive(Clone, Copy, Debug, PartialEq, Eq)]
pub struct Head {
    /// The minor version of GIOP 1: 0, 1 or 2.
    pub minor: u8,
    /// Bit 0: the message is little endian. Bit 1: fragments follow. The others say nothing.
    pub flags: u8,
    pub kind: Kind,
    /// The number of bytes behind the header.
    pub size: u32,
}

impl Kind {
    fn of(minor: u8, number: u8) -> Option<Kind>
        ensures { result ≡ kind_of minor number }
    {
        match number {
            0 => Some(Kind::Request),
            1 => Some(Kind::Reply),
            2 => Some(Kind::CancelRequest),
            3 => Some(Kind::LocateRequest),
            4 => Some(Kind::LocateReply),
            5 => Some(Kind::CloseConnection),
            6 => Some(Kind::MessageError),
            7 if minor == 2 => Some(Kind::Fragment),
            _ => None,
        }
    }

    /// The type's number in a header.
    pub fn number(self) -> u8
        ensures { result ≡ kind_sign self }
    {
        match self {
            Kind::Request => 0,
            Kind::Reply => 1,
            Kind::CancelRequest => 2,
            Kind::LocateRequest => 3,
            Kind::LocateReply => 4,
            Kind::CloseConnection => 5,
            Kind::MessageError => 6,
            Kind::Fragment => 7,
        }
    }

    // Whether there is such a minor version, and it has messages of this type.
    fn is_in(self, minor: u8) -> bool
        ensures { result ≡ has_kind minor self }
    {
        minor < 3 && (minor == 2 || self.number() != 7)
    }

    // Whether bit 1 of the flags may be set.
    fn may_have_fragment_bit(self, minor: u8) -> bool
        ensures { result ≡ may_have_fragment_bit minor self }
    {
        match minor {
            0 => true,
            1 => false,
            _ => self.has_parts(),
        }
    }

    /// Whether a message of this type may come in fragments.
    pub fn has_parts(self) -> bool
        ensures { result ≡ has_parts self }
    {
        match self {
            Kind::CancelRequest | Kind::CloseConnection | Kind::MessageError => false,
            Kind::Request
            | Kind::Reply
            | Kind::LocateRequest
            | Kind::LocateReply
            | Kind::Fragment => true,
        }
    }
}

impl Head {
    /// The byte order of the message.
    pub fn order(self) -> Order
        ensures { result ≡ order_of self.flags }
    {
        Order::of_flags(self.flags)
    }

    /// The form of the message.
    pub fn form(self) -> Form
        ensures { result ≡ form_of self }
    {
        Form {
            minor: self.minor,
            order: self.order(),
        }
    }

    /// Whether its minor version has messages of its type.
    pub fn has_kind(self) -> bool
        ensures { result ≡ has_kind self.minor self.kind }
    {
        self.kind.is_in(self.minor)
    }

    // Whether bit 1 of the flags is set.
    fn has_fragment_bit(self) -> bool
        ensures { result ≡ has_fragment_bit self.flags }
    {
        self.flags / 2 % 2 == 1
    }

    /// Whether more fragments of the message follow. In 1.0 bit 1 says nothing.
    pub fn more(self) -> bool
        ensures { result ≡ more_in self }
    {
        self.minor == 2 && self.has_fragment_bit()
    }

    /// Whether no fragments are announced of a message that has none.
    pub fn flags_fit(self) -> bool
        ensures { result ≡ flags_fit self }
    {
        !self.has_fragment_bit() || self.kind.may_have_fragment_bit(self.minor)
    }
}

fn read_octet(reader: &mut CdrReader) -> Result<u8, Malformed>
    ensures { Gives (λ n. n) wrong_of result (octet.read reader.old) reader.new }
{
    let octet = reader.read_octet()?;
    Ok(octet)
}

fn read_magic_byte(reader: &mut CdrReader, letter: u8) -> Result<(), Malformed>
    ensures { Gives (λ u. tt) wrong_of result ((magic_byte letter).read reader.old) reader.new }
{
    let place = reader.place();
    let octet = read_octet(reader)?;
    if octet == letter {
        Ok(())
    } else {
        Err(Malformed {
            why: Why::Magic,
            place,
        })
    }
}

fn read_version(reader: &mut CdrReader) -> Result<u8, Malformed>
    ensures { Gives (λ n. n) wrong_of result (version.read reader.old) reader.new }
{
    let place = reader.place();
    let major = read_octet(reader)?;
    let minor = read_octet(reader)?;
    if major == 1 && minor < 3 {
        Ok(minor)
    } else {
        Err(Malformed {
            why: Why::Version,
            place,
        })
    }
}

fn read_kind(minor: u8, reader: &mut CdrReader) -> Result<Kind, Malformed>
    ensures { Gives (λ k. k) wrong_of result ((kind minor).read reader.old) reader.new }
{
    let place = reader.place();
    let number = read_octet(reader)?;
    match Kind::of(minor, number) {
        Some(kind) => Ok(kind),
        None => Err(Malformed {
            why: Why::Kind,
            place,
        }),
    }
}

fn read_size(flags: u8, reader: &mut CdrReader) -> Result<u32, Malformed>
    ensures { Gives (λ n. n) wrong_of result ((size_by flags).read reader.old) reader.new }
{
    let mut ordered = CdrReader::new(Order::of_flags(flags), reader.place(), reader.rest());
    let size = ordered.read_u32()?;
    *reader = CdrReader::new(reader.order(), ordered.place(), ordered.rest());
    Ok(size)
}

fn read_fields(reader: &mut CdrReader) -> Result<Head, Malformed>
    ensures { Gives (λ h. h) wrong_of result (head.read reader.old) reader.new }
{
    read_magic_byte(reader, b'G')?;
    read_magic_byte(reader, b'I')?;
    read_magic_byte(reader, b'O')?;
    read_magic_byte(reader, b'P')?;
    let minor = read_version(reader)?;
    let flags = read_octet(reader)?;
    let kind = read_kind(minor, reader)?;
    let size = read_size(flags, reader)?;
    Ok(Head {
        minor,
        flags,
        kind,
        size,
    })
}

/// A header whose flags fit its type.
pub fn read_header(reader: &mut CdrReader) -> Result<Head, Malformed>
    ensures { Gives (λ h. h) wrong_of result (header.read reader.old) reader.new }
{
    let place = reader.place() + 6;
    let head = read_fields(reader)?;
    if head.flags_fit() {
        Ok(head)
    } else {
        Err(Malformed {
            why: Why::Flags,
            place,
        })
    }
}

/// The header at the front of the bytes, whatever its flags: the causes are judged in the order `Magic`,
/// `Version`, `Kind`.
pub fn read_head(bytes: &[u8]) -> Result<Head, Malformed>
    requires whole { HEAD_LENGTH ≤ length bytes.now }
    requires short { length bytes.now + 8 < 2 ^ 32 }
    ensures { IsJudged result (head_in bytes.now) }
{
    let mut reader = CdrReader::new(Order::Big, 0, bytes);
    read_fields(&mut reader)
}

/// A writer behind the header of a message that is whole, with room for so many bytes more. The header's size is 0
/// until `with_size` writes it.
#[tactic(auto, using(crate::proofs::WritingSteps::header_begun))]
pub fn begin_message(
    alloc: Global,
    kind: Kind,
    form: Form,
    room: usize,
) -> Result<CdrWriter, NoMemory>
    requires { room < 2 ^ 39 }
    ensures { IfOk result (λ writer. writer ≡ begun_message form kind) }
{
    let mut writer = CdrWriter::with_room(alloc, form.order, 0, HEAD_LENGTH + room)?;
    let order = form.order.sign();
    let minor = form.minor;
    let front = [
        b'G',
        b'I',
        b'O',
        b'P',
        1,
        minor,
        order,
        kind.number(),
        0,
        0,
        0,
        0,
    ];
    writer.write_piece(1, front.as_slice())?;
    Ok(writer)
}

fn put_size(text: &mut [u8], order: Order)
    requires long { HEAD_LENGTH ≤ length text.old }
    requires short { length text.old < 2 ^ 32 }
    ensures { text.new ≡ with_size order text.old }
{
    let digits = digits_of_u32(order, (text.len() - HEAD_LENGTH) as u32);
    text[SIZE_PLACE..HEAD_LENGTH].copy_from_slice(&digits);
}

/// What a writer wrote behind a header, with the size that this makes in the header. It takes no memory.
pub fn with_size(writer: CdrWriter) -> Bytes
    requires long { HEAD_LENGTH ≤ length writer.text }
    requires short { length writer.text < 2 ^ 32 }
    ensures { result ≡ with_size writer.order writer.text }
{
    let order = writer.order();
    let mut text = writer.into_vec();
    put_size(text.as_mut_slice(), order);
    Bytes::from_vec(text)
}
