//! The names of user exceptions.
ghost use Rattle.std.specs.Prelude.{◌≡◌, ◌<◌, ◌^◌, length, IfOk};
ghost use Rattle.client_replies.specs.Heards.{name_in};

use ft_base::{Name, NoMemory};
use iogr_reference::name_of_id;
use std::alloc::Global;

/// The name of which this is the repository id.
pub(crate) fn name_in(alloc: Global, id: &[u8]) -> Result<Option<Name>, NoMemory>
    requires { length id.now < 2 ^ 32 }
    ensures { IfOk result (λ found. found ≡ name_in id.now) }
{
    name_of_id(alloc, id)
}
