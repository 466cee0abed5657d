//! The key of a client's call.
ghost use Rattle.std.specs.Prelude.{◌≡◌, Some, IfOk};
ghost use Rattle.client_calls.specs.Requests.{deposit_of};
ghost use Rattle.live_clients.specs.Clients.{client_name, live_key};

use crate::settings::client_name;
use client_calls::NEVER;
use ft_base::{Key, NoMemory, Retention};
use std::alloc::Global;

/// The key of a client's call, by their numbers. A call whose number is no retention id is answered as out of memory: no
/// client makes so many.
pub fn live_key(alloc: Global, client: u64, call: u64) -> Result<Key, NoMemory>
    ensures key { IfOk result (λ key. key ≡ live_key client call) }
    ensures deposit { IfOk result (λ key. (deposit_of (client_name client) call).key ≡ Some key) }
{
    if call > i32::MAX as u64 {
        return Err(NoMemory);
    }
    let client = client_name(alloc, client)?;
    Ok(Key {
        client,
        retention: Retention(call as i32),
        expiration: NEVER,
    })
}
