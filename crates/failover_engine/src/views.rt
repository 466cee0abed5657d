ghost use Rattle.std.specs.Prelude.{◌≡◌, nat_lt, if◌then◌else◌, Some, None};

use ft_base::Version;

/// The version that a host knows once it was sent one; none where that is news to it no more.
pub fn take_view(known: Version, sent: Version) -> Option<Version>
    ensures { result ≡ (if nat_lt known.0 sent.0 then Some sent else None) }
{
    if known.0 < sent.0 { Some(sent) } else { None }
}
