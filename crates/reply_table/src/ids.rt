//! The bytes by which an entry is filed.
ghost use Rattle.std.specs.Prelude.{◌≡◌, [], ◌≤◌, length};
ghost use Rattle.reply_table.specs.Ids.{id_of, IsFiledBy};

use arrayvec::ArrayVec;
use ft_base::{Key, NAME_LIMIT};

/// The longest id: a retention id and the longest name.
pub(crate) const ID_LIMIT: usize = 4 + NAME_LIMIT;

/// Writes the retention id in four bytes, and then the client's id. It takes no memory. (An id that is
/// given back would be moved, all of its room.)
#[tactic(auto, unfolding(crate::specs::Ids::id_of))]
pub(crate) fn put_id(key: &Key, id: &mut ArrayVec<u8, ID_LIMIT>)
    requires empty { id.old.items ≡ [] }
    ensures value { id.new.items ≡ id_of key.now }
    ensures filed { IsFiledBy id.new.items key.now }
{
    let retention = key.retention.0.cast_unsigned();
    id.try_extend_from_slice(&retention.to_be_bytes()).unwrap();
    id.try_extend_from_slice(key.client.bytes()).unwrap();
}
