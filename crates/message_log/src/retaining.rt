//! What the table of replies is given of a request: nothing of one without a key. A copy is large, so it
//! stays where it is until there is one to be moved, and that is done in calls of their own.
ghost use Rattle.std.specs.Prelude.{◌≡◌, true, Some, OnOk, OnErr};
ghost use Rattle.reply_table.specs.Entries.{unanswered, joined, IsAfter};
ghost use Rattle.message_log.specs.Picture.{HasRow};
ghost use Rattle.message_log.specs.Calls.{retained_of};

use ft_base::{NoMemory, Request, Tick, Version};
use reply_table::ReplyTable;
use std::alloc::Global;

/// Copies a request, and makes room for it in the table.
#[inline(never)]
fn reserve_copy(
    alloc: Global,
    table: &mut ReplyTable,
    retained: &mut Option<Request>,
    request: &Request,
) -> Result<(), NoMemory>
    ensures value { OnOk result (retained.new ≡ Some request.now) }
    ensures room { OnOk result (table.new.room ≡ true) }
    ensures left { OnErr result (retained.new ≡ retained.old) }
    ensures entries { table.new.entries ≡ table.old.entries }
    ensures stays { table.old.room ≡ true → table.new.room ≡ true }
{
    let copied = request.copy(alloc)?;
    table.reserve()?;
    *retained = Some(copied);
    Ok(())
}

/// Copies a request where it is to be retained, and makes room for that. After want of memory the table
/// may have room all the same.
pub(crate) fn reserve_retained(
    alloc: Global,
    table: &mut ReplyTable,
    retained: &mut Option<Request>,
    request: &Request,
) -> Result<(), NoMemory>
    ensures value { OnOk result (retained.new ≡ retained_of request.now request.now.key) }
    ensures room { OnOk result (HasRow retained.new table.new.room) }
    ensures left { OnErr result (retained.new ≡ retained.old) }
    ensures entries { table.new.entries ≡ table.old.entries }
    ensures stays { table.old.room ≡ true → table.new.room ≡ true }
{
    match &request.key {
        None => {
            *retained = None;
            Ok(())
        }
        Some(_key) => reserve_copy(alloc, table, retained, request),
    }
}

/// Moves a request that is retained into the table, where there is one.
#[inline(never)]
fn put_copy(
    table: &mut ReplyTable,
    position: u32,
    version: Version,
    at: Tick,
    retained: &mut Option<Request>,
)
    requires room { HasRow retained.old table.old.room }
    requires later { IsAfter position table.old.entries }
    ensures { (request : Request) → retained.old ≡ retained_of request request.key → table.new.entries ≡ joined table.old.entries (unanswered position version at request) request.key }
{
    match retained.take() {
        None => {}
        Some(request) => table.put_reserved(position, version, at, request),
    }
}

/// Puts what is retained of an accepted request, for which there is room. It takes no memory.
pub(crate) fn put_retained(
    table: &mut ReplyTable,
    position: u32,
    version: Version,
    at: Tick,
    retained: &mut Option<Request>,
)
    requires room { HasRow retained.old table.old.room }
    requires later { IsAfter position table.old.entries }
    ensures { (request : Request) → retained.old ≡ retained_of request request.key → table.new.entries ≡ joined table.old.entries (unanswered position version at request) request.key }
{
    match retained {
        None => {}
        Some(_copy) => put_copy(table, position, version, at, retained),
    }
}
