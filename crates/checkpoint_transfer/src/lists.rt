ghost use Rattle.std.specs.Prelude.{◌≡◌, List, ℕ, [], replicate, IfOk};

use ft_base::{Bytes, NoMemory};
use std::alloc::Global;
use std::marker::Model;

/// Several times the same bytes, one for each member to which they go.
#[derive(Drop)]
pub struct BytesList {
    items: Vec<Bytes>,
}

impl Model for BytesList {
    ghost use Rattle.std.specs.Prelude.{List, ℕ};

    ghost Value = { List (List ℕ) };

    ghost view = { λ l. l.items.items };
}

impl BytesList {
    /// Nothing. It takes no memory.
    pub fn new(alloc: Global) -> BytesList
        ensures { result ≡ [] }
    {
        BytesList {
            items: Vec::new(alloc),
        }
    }

    /// So many copies of these bytes.
    pub fn copies(alloc: Global, bytes: &Bytes, count: u8) -> Result<BytesList, NoMemory>
        ensures { IfOk result (λ list. list ≡ replicate count bytes.now) }
    {
        let mut items: Vec<Bytes> = Vec::new(alloc);
        for _number in 0..count {
            let copied = bytes.copy(alloc)?;
            items.push(copied)?;
        }
        Ok(BytesList { items })
    }

    /// The bytes, each time.
    pub fn as_slice(&self) -> &[Bytes]
        ensures { result.now ≡ self.now }
    {
        self.items.as_slice()
    }

    /// The bytes, to be moved out one after another. It takes no memory.
    pub fn into_vec(self) -> Vec<Bytes>
        ensures { result.items ≡ self }
    {
        let BytesList { items } = self;
        items
    }
}
