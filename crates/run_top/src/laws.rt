//! The laws of runs. The functions do nothing: their contracts are facts.
ghost use Rattle.run_top.specs.Laws.{MadeRunsAreRuns, MadeRunsAreWhole};
ghost use Rattle.run_top.specs.Lines.{RunsAcceptOnce, RunsAppendAtLeaders, RunsAppendAtLeadersOnLinks, RunsAreOfLines, RunsCallServants, RunsKeepEntries, RunsReplyOnce, RunsTellOnce, RunsTellOnceOnLinks};

use ft_world::{
    links_append_at_leaders, links_are_replied_once, only_leaders_append, replies_are_of_entries,
    requests_are_replied_once, scripts_accept_once, scripts_keep_entries, servants_are_called,
};
use made_lines::made_scripts_are_read;
use made_worlds::made_scripts_go;

/// A script prints what its lines print, one after another up to the first that is refused, and calls servants as
/// they do, that line's calls included.
pub fn runs_are_of_lines()
    ensures { RunsAreOfLines }
{}

/// At most once: after every line of a script, each request with a key in each group's journal was accepted before its
/// expiration, and a client's retention id again only once the expiration of its earlier acceptance had come.
pub fn runs_accept_once()
    ensures { RunsAcceptOnce }
{
    scripts_accept_once();
}

/// No entry that a group has accepted after any line is lost or moved, and its reply never changes.
pub fn runs_keep_entries()
    ensures { RunsKeepEntries }
{
    scripts_keep_entries();
}

/// One reply. After any line of a script, where a delivery or a link prints that a request was appended, or repeats an entry,
/// what is replied below is that entry's one reply: of a delivery unless the host stops, on a link where a Reply is wanted.
/// And every outcome that was ever replied is that of its own request's entry.
pub fn runs_tell_once()
    ensures delivered { RunsTellOnce }
    ensures injected { RunsTellOnceOnLinks }
    ensures replied { RunsReplyOnce }
{
    requests_are_replied_once();
    links_are_replied_once();
    replies_are_of_entries();
}

/// Who appends: after any line of a script, a delivery or a link that prints `append I` was at a host that is up and knows
/// its group's newest view, as a member, and in a passive group as the primary; and entry I was the next.
pub fn runs_append_at_leaders()
    ensures delivered { RunsAppendAtLeaders }
    ensures injected { RunsAppendAtLeadersOnLinks }
{
    only_leaders_append();
    links_append_at_leaders();
}

/// The servant calls of a run are, in number, the accepted entries that were run, the entries that hosts caught up with,
/// and the orders that were applied.
pub fn runs_call_servants()
    ensures { RunsCallServants }
{
    servants_are_called();
}

/// A script that is made ends as the run of its text does, with the same refusal if there is one, and with as
/// many servant calls: only what its lines print is another.
pub fn made_runs_are_runs()
    ensures { MadeRunsAreRuns }
{}

/// No line of a script that is made is refused, of any number of rounds that `--make` takes.
pub fn made_runs_are_whole()
    ensures { MadeRunsAreWhole }
{
    made_scripts_are_read();
    made_scripts_go();
}
