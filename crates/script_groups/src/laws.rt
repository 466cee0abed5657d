//! How a group of a script goes on. The functions do nothing: their contracts are facts.
ghost use Rattle.script_groups.specs.Laws.{AnswersAreInForm, CallsAreCounted, CallsGoOn, EventsLast, FailingLetsCome, FailingStaysSound, FailuresChangeNothing, FailuresComeOnce, GroupsGrow, GroupsStaySound, HistoriesGoOn, JournalsAcceptOnce, NoneCalledYet, RepliesStay, SentMayCome, ShownAreViews, TakersAreInside, TakersMayTake, UpdatersMaySend};

use group_model::{
    agreement_lasts, answers_are_given, groups_grow, groups_stay_sound, journals_stay,
    what_is_sent_agrees,
};

/// Behind one more event its plain group is the one after the event, and sound; what could come to it still
/// can; and what it sent may come where it goes.
pub fn groups_go_on()
    ensures is { HistoriesGoOn }
    ensures sound { GroupsStaySound }
    ensures last { EventsLast }
    ensures sent { SentMayCome }
{
    groups_stay_sound();
    agreement_lasts();
    what_is_sent_agrees();
}

/// A failure of its log's next write that is asked for leaves the plain group as it is, and calls no servant. It comes
/// at that write, and once.
pub fn failures_come_once()
    ensures same { FailuresChangeNothing }
    ensures sound { FailingStaysSound }
    ensures come { FailingLetsCome }
    ensures once { FailuresComeOnce }
{}

/// Whatever happens to a group, its journal and its views only get more, an entry's reply stays what it is, and
/// each request is accepted at most once before its expiration.
pub fn groups_keep_entries()
    ensures grow { GroupsGrow }
    ensures replies { RepliesStay }
    ensures once { JournalsAcceptOnce }
{
    groups_grow();
    journals_stay();
}

/// A group's servant calls are those of the turns of its events: as many as accepted entries were run, entries were
/// caught up with by a host, and orders were applied.
pub fn calls_are_counted()
    ensures none { NoneCalledYet }
    ensures go_on { CallsGoOn }
    ensures counted { CallsAreCounted }
{
    group_model::calls_are_counted();
}

/// A request is answered in the form that its operation gives, by a named exception, or by the reference of a
/// view that the group has had.
pub fn answers_are_in_form()
    ensures { AnswersAreInForm }
{
    answers_are_given();
}

/// The members of each view of a group are different hosts that there can be, at most 16.
pub fn shown_are_views()
    ensures { ShownAreViews }
{}

/// The host that takes a group's checkpoints is one that there can be, and may take one; and the host that sends its
/// updates may send one.
pub fn takers_may_take()
    ensures inside { TakersAreInside }
    ensures checkpoint { TakersMayTake }
    ensures update { UpdatersMaySend }
{
    group_model::takers_may_take();
}
