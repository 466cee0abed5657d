//! The Requests of a live client.
ghost use Rattle.std.specs.Prelude.{◌≡◌, length, IfOk};
ghost use Rattle.std.specs.List.{All};
ghost use Rattle.ft_base.specs.Text.{IsName};
ghost use Rattle.iogr_reference.specs.declared.choices.TheConstants.{KEY_LENGTH};
ghost use Rattle.iogr_reference.specs.Choices.{object_key};
ghost use Rattle.ft_contexts.specs.Finding.{IsShort};
ghost use Rattle.ft_contexts.specs.Writing.{written_contexts};
ghost use Rattle.giop_messages.specs.declared.messages.Message.TheVariants as messages;
ghost use Rattle.message_sizes.specs.Sizes.{request_of};
ghost use Rattle.client_calls.specs.Requests.{deposit_of, spelling};

use cdr_codec::{Order, Raw};
use ft_base::{Bytes, Key, Name, NameFault, NoMemory, Request, Retention, Tick};
use ft_contexts::write_contexts;
use giop_messages::{Form, MESSAGE_LIMIT, Message, RequestMsg, write_message};
use iogr_reference::object_key;
use message_sizes::request_size;
use script_clients::Attempt;
use std::alloc::Global;

/// The operation that a live client calls.
pub const DEPOSIT: [u8; 7] = *b"deposit";

/// The canonical form of its argument: 1, as a long long.
pub const ONE: [u8; 8] = [0, 0, 0, 0, 0, 0, 0, 1];

/// The moment at which its requests expire: the last there is.
pub const NEVER: Tick = Tick(u64::MAX);

fn deposit_name(alloc: Global) -> Result<Name, NoMemory>
    ensures { IfOk result (λ name. name ≡ DEPOSIT) }
{
    match Name::of(alloc, DEPOSIT.as_slice()) {
        Ok(name) => Ok(name),
        Err(NameFault::NoMemory) => Err(NoMemory),
        Err(_) => unreachable!(),
    }
}

/// The call with this number of a client.
pub(crate) fn deposit_of(alloc: Global, client: &Name, number: u16) -> Result<Request, NoMemory>
    ensures { IfOk result (λ request. request ≡ deposit_of client.now number) }
{
    let client = client.copy(alloc)?;
    let op = deposit_name(alloc)?;
    let args = Bytes::of(alloc, ONE.as_slice())?;
    Ok(Request {
        key: Some(Key {
            client,
            retention: Retention(i32::from(number)),
            expiration: NEVER,
        }),
        op,
        args,
    })
}

// The Request of an attempt.
fn request_of(alloc: Global, attempt: &Attempt) -> Result<RequestMsg, NoMemory>
    ensures value { IfOk result (λ r. messages.Request r ≡ request_of attempt.now) }
    ensures op { IfOk result (λ _. IsName attempt.now.request.op) }
    ensures contexts { IfOk result (λ _. All IsShort (written_contexts attempt.now.version attempt.now.request.key)) }
    ensures key { IfOk result (λ _. length (object_key attempt.now.group) ≡ KEY_LENGTH) }
{
    let contexts = write_contexts(alloc, attempt.version, attempt.request.key.as_ref())?;
    let key = object_key(alloc, attempt.group)?;
    let op = Bytes::of(alloc, attempt.request.op.bytes())?;
    let bytes = attempt.request.args.copy(alloc)?;
    Ok(RequestMsg {
        id: attempt.id,
        flags: 3,
        key,
        op,
        contexts,
        body: Raw {
            order: Order::Big,
            align: 0,
            bytes,
        },
    })
}

/// The bytes of an attempt's Request. One that is over 1 MiB is answered as out of memory, since it can't be written.
pub(crate) fn spelling(alloc: Global, attempt: &Attempt) -> Result<Bytes, NoMemory>
    ensures { IfOk result (λ bytes. bytes ≡ spelling attempt.now) }
{
    if request_size(attempt) > MESSAGE_LIMIT as u128 {
        return Err(NoMemory);
    }
    let request = match request_of(alloc, attempt) {
        Ok(request) => Message::Request(request),
        Err(NoMemory) => return Err(NoMemory),
    };
    let form = Form {
        minor: 2,
        order: Order::Big,
    };
    write_message(alloc, &request, form)
}
