//! The hosts of a reference, as texts by which they can be called.
ghost use Rattle.std.specs.Prelude.{◌≡◌, is_some};
ghost use Rattle.std.specs.List.{list_all};
ghost use Rattle.ft_base.specs.Text.{name_of};
ghost use Rattle.client_replies.specs.Heards.{is_host};

use ft_base::{NAME_LIMIT, first_zero};
use iogr_reference::Iiop;

fn is_name(text: &[u8]) -> bool
    ensures { result ≡ is_some (name_of text.now) }
{
    !text.is_empty() && text.len() <= NAME_LIMIT && first_zero(text).is_none()
}

fn is_host(iiop: &Iiop) -> bool
    ensures { result ≡ is_host iiop.now }
{
    is_name(iiop.host.bytes())
}

/// Whether each host can be called by its text.
pub fn are_hosts(profiles: &[Iiop]) -> bool
    ensures { result ≡ list_all is_host profiles.now }
{
    profiles.iter().all(|iiop| is_host(iiop))
}
