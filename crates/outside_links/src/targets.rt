ghost use Rattle.std.specs.Prelude.{◌≡◌};

use arrayvec::ArrayVec;
use ft_base::{NAME_LIMIT, Name};
use std::marker::Model;

/// Where a link leads: what the host is called, and a port there. It lies in the value itself and takes no memory.
#[derive(Drop)]
pub struct Target {
    host: ArrayVec<u8, NAME_LIMIT>,
    port: u16,
}

impl Model for Target {
    ghost use Rattle.outside_links.specs.Lending.{Target};

    ghost Value = { Target };

    ghost view = { λ t. record { host = t.host.items; port = t.port } };
}

impl Target {
    pub fn new(host: &Name, port: u16) -> Target
        ensures { result ≡ record { host = host.now; port = port } }
    {
        let mut bytes = ArrayVec::new();
        bytes.try_extend_from_slice(host.bytes()).unwrap();
        Target { host: bytes, port }
    }

    pub fn host(&self) -> &[u8]
        ensures { result.now ≡ self.now.host }
    {
        self.host.as_slice()
    }

    pub fn port(&self) -> u16
        ensures { result ≡ self.now.port }
    {
        self.port
    }
}
