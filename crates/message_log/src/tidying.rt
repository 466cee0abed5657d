//! What follows a checkpoint's record.
ghost use Rattle.std.specs.Prelude.{◌<◌};
ghost use Rattle.message_log.specs.Calls.{IsTidiedOrFailed};

use ft_base::Bytes;
use ft_outside::{Keeper, Kept};

/// How far the records were tidied after a checkpoint.
#[derive(Clone, Copy, Debug, PartialEq, Eq)]
pub enum Tidied {
    /// The newest view stands behind the checkpoint, and all records before are gone.
    Cut,
    /// The view stands there, but nothing could be cut.
    Uncut,
    /// The view couldn't be written, and so nothing is cut.
    Unwritten,
}

/// Keeps the record of a checkpoint, writes the newest view behind it, and then cuts all records
/// before; none where the checkpoint itself couldn't be kept.
#[tactic(auto, using(crate::proofs::PictureLaws::two_more, crate::proofs::PictureLaws::cut_before))]
pub(crate) fn tidy<K: Keeper>(keeper: &mut K, checkpoint: Bytes, view: Bytes) -> Option<Tidied>
    requires { 1 < K.spare keeper.old }
    ensures { IsTidiedOrFailed result
        (record { records = K.records keeper.old; plan = K.plan keeper.old; faults = K.faults keeper.old }) checkpoint view
        (record { records = K.records keeper.new; plan = K.plan keeper.new; faults = K.faults keeper.new }) }
{
    let before = keeper.count();
    if let Kept::Failed = keeper.append(checkpoint) {
        return None;
    }
    if let Kept::Failed = keeper.append(view) {
        return Some(Tidied::Unwritten);
    }
    match keeper.cut(before) {
        Kept::Done => Some(Tidied::Cut),
        Kept::Failed => Some(Tidied::Uncut),
    }
}
