ghost use Rattle.std.specs.Prelude.{◌≡◌, [], ◌∷◌, IfOk};
ghost use Rattle.cdr_codec.specs.declared.orders.Order.TheVariants.{Big};
ghost use Rattle.bench_giop.specs.Deposits.{IsDeposit};

use cdr_codec::{Order, Raw};
use ft_base::{Bytes, NoMemory};
use ft_contexts::Contexts;
use giop_messages::{Form, Message, RequestMsg, write_message};
use std::alloc::Global;

/// The number of bytes of each request.
pub const REQUEST_LENGTH: usize = 64;

fn body(alloc: Global) -> Result<Raw, NoMemory>
    ensures { IfOk result (λ body. body ≡ record { order = Big; align = 0; bytes = 0 ∷ 0 ∷ 0 ∷ 0 ∷ 0 ∷ 0 ∷ 0 ∷ 5 ∷ [] }) }
{
    let bytes = Bytes::of(alloc, b"\0\0\0\0\0\0\0\x05")?;
    Ok(Raw {
        order: Order::Big,
        align: 0,
        bytes,
    })
}

fn deposit(alloc: Global) -> Result<Message, NoMemory>
    ensures { IfOk result IsDeposit }
{
    Ok(Message::Request(RequestMsg {
        id: 0,
        flags: 3,
        key: Bytes::of(alloc, b"FTOG\0\0\0\0\0\0\0\x01")?,
        op: Bytes::of(alloc, b"deposit")?,
        contexts: Contexts::from_vec(Vec::new(alloc)),
        body: body(alloc)?,
    }))
}

fn number(message: &mut Message, id: u32)
    requires { IsDeposit message.old }
    ensures { IsDeposit message.new }
{
    if let Message::Request(request) = message {
        request.id = id;
    }
}

#[tactic(auto, using(crate::proofs::DepositLaws::writable))]
fn write_deposit(alloc: Global, message: &Message) -> Result<Bytes, NoMemory>
    requires { IsDeposit message.now }
{
    let form = Form {
        minor: 2,
        order: Order::Big,
    };
    write_message(alloc, message, form)
}

/// So many requests back to back, with ids from 0.
pub fn write_deposits(alloc: Global, count: u32) -> Result<Vec<u8>, NoMemory> {
    let mut message = deposit(alloc)?;
    let mut link = Vec::with_capacity(alloc, count as usize * REQUEST_LENGTH)?;
    for id in 0..count {
        number(&mut message, id);
        let text = write_deposit(alloc, &message)?;
        link.extend_from_slice(text.bytes())?;
    }
    Ok(link)
}
