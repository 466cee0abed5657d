//! The first header of a link.
ghost use Rattle.std.specs.Prelude.{◌≡◌, [], ◌++◌, take};
ghost use Rattle.giop_messages.specs.declared.heads.TheConstants.{HEAD_LENGTH};
ghost use Rattle.link_serving.specs.Fronts.{is_close, is_close_in};

use arrayvec::ArrayVec;
use giop_messages::{HEAD_LENGTH, Kind, read_head};
use std::marker::Model;

/// The front of a link's bytes, as many as a header has.
#[derive(Drop)]
pub(crate) struct Front {
    bytes: ArrayVec<u8, HEAD_LENGTH>,
}

impl Model for Front {
    ghost use Rattle.std.specs.Prelude.{ℕ, List};

    ghost Value = { List ℕ };

    ghost view = { λ f. f.bytes.items };
}

fn is_close(kind: Kind) -> bool
    ensures { result ≡ is_close kind }
{
    match kind {
        Kind::CloseConnection => true,
        Kind::Request | Kind::Reply | Kind::CancelRequest | Kind::LocateRequest => false,
        Kind::LocateReply | Kind::MessageError | Kind::Fragment => false,
    }
}

impl Front {
    pub(crate) fn new() -> Front
        ensures { result ≡ [] }
    {
        Front {
            bytes: ArrayVec::new(),
        }
    }

    /// These bytes come next.
    #[tactic(auto, using(crate::proofs::Lists::take_joined))]
    pub(crate) fn take(&mut self, piece: &[u8])
        ensures { self.new ≡ take HEAD_LENGTH (self.old ++ piece.now) }
    {
        let count = (HEAD_LENGTH - self.bytes.len()).min(piece.len());
        self.bytes.try_extend_from_slice(&piece[..count]).unwrap();
    }

    /// Whether the header is that of a CloseConnection.
    pub(crate) fn is_close(&self) -> bool
        ensures { result ≡ is_close_in self.now }
    {
        if self.bytes.len() < HEAD_LENGTH {
            return false;
        }
        match read_head(self.bytes.as_slice()) {
            Ok(head) => is_close(head.kind),
            Err(_) => false,
        }
    }
}
