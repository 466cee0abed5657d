//! Laws over runs of scripts. The functions do nothing: their contracts are facts.
ghost use Rattle.ft_world.specs.DeadArms.{AnswersFit, ScriptsNameMade};
ghost use Rattle.ft_world.specs.Laws.{DeposedDoNothing, ScriptsAcceptOnce, ScriptsKeepEntries, ServantsAreCalled};
ghost use Rattle.ft_world.specs.Leading.{DeliveriesAppendAtLeaders, RequestsAppendAtLeaders, ScriptsKnowTheirViews};
ghost use Rattle.ft_world.specs.LinkTelling.{InjectionsAppendAtLeaders, InjectionsTellOnce, LinksTellOnce};
ghost use Rattle.ft_world.specs.Messages.{ScriptsReplyOnce};
ghost use Rattle.ft_world.specs.Replying.{DeliveriesTellOnce, EntriesAreReplied};

use group_model::{
    deposed_append_nothing, entries_are_replied, leaders_append, only_views_are_known,
};
use script_groups::{calls_are_counted, failures_come_once, groups_go_on, groups_keep_entries};

/// At most once: in every world that lines of a script make, each request with a key in each group's journal was
/// accepted before its expiration, and a client's retention id was accepted again only once the expiration of its
/// earlier acceptance had come.
pub fn scripts_accept_once()
    ensures { ScriptsAcceptOnce }
{
    groups_keep_entries();
}

/// Over any further lines no group is lost; each entry that a group has accepted stays what it is, at its place; and the
/// reply that the journal gives it never changes.
pub fn scripts_keep_entries()
    ensures { ScriptsKeepEntries }
{
    groups_keep_entries();
}

/// One reply: in any world, what a host says of a request that was appended, or repeats an entry, is that entry's one reply,
/// unless the host stops; and so a delivery prints it.
pub fn requests_are_replied_once()
    ensures said { EntriesAreReplied }
    ensures told { DeliveriesTellOnce }
{
    entries_are_replied();
    groups_go_on();
}

/// And over links: in any world, each message of a link adds its own part to what is printed. Where that is `append I` or
/// `repeat I`, the Reply whose bytes follow, if one is sent, tells entry I's one reply. So it is of each link that a script
/// injects; and a host that is down prints that it lost the link, and no more.
pub fn links_are_replied_once()
    ensures served { LinksTellOnce }
    ensures injected { InjectionsTellOnce }
{
    requests_are_replied_once();
}

/// In every world that lines of a script make, each reply with an outcome that was ever sent answers a request that was sent,
/// and its outcome is the one reply of that request's entry in the journal of its group, as the group is now.
pub fn replies_are_of_entries()
    ensures { ScriptsReplyOnce }
{
    requests_are_replied_once();
    groups_go_on();
    groups_keep_entries();
    failures_come_once();
    only_views_are_known();
}

/// Who appends, in every world that lines of a script make: a host that is up and knows its group's newest view, as a
/// member, and in a passive group as the primary. So a delivery prints it, and so it is of each request that comes. No host
/// knows a view that its group hasn't had.
pub fn only_leaders_append()
    ensures known { ScriptsKnowTheirViews }
    ensures asked { RequestsAppendAtLeaders }
    ensures delivered { DeliveriesAppendAtLeaders }
{
    requests_are_replied_once();
    groups_go_on();
    groups_keep_entries();
    failures_come_once();
    only_views_are_known();
    leaders_append();
}

/// Nor does anyone else append what comes over a link: where a link that is injected in a world of a script prints
/// `append I`, the host was up and knew the newest view of the request's group, as a member, and in a passive group as the
/// primary, when that request came.
pub fn links_append_at_leaders()
    ensures { InjectionsAppendAtLeaders }
{
    requests_are_replied_once();
    groups_go_on();
    groups_keep_entries();
    failures_come_once();
    only_views_are_known();
    leaders_append();
}

/// The servant calls of the lines of a script are the accepted entries that were run, the entries that hosts
/// caught up with, and the orders that were applied, of all groups.
pub fn servants_are_called()
    ensures { ServantsAreCalled }
{
    calls_are_counted();
    failures_come_once();
}

/// In every world that lines of a script make: a host that knows an older view than the newest, when it is asked,
/// appends nothing, changes nothing that the hosts of its group share, and calls no servant.
pub fn deposed_do_nothing()
    ensures { DeposedDoNothing }
{
    deposed_append_nothing();
    groups_go_on();
}

/// No arm of the world's definitions for a group, a client or an answer that can't be there is ever taken. In every world
/// that lines of a script make, what was sent names a group and a client that were made, and so does each reference that a
/// client goes by. Whatever events a group has, it answers each in one of the ways in which the world takes it.
pub fn scripts_take_no_dead_arm()
    ensures made { ScriptsNameMade }
    ensures answered { AnswersFit }
{}
