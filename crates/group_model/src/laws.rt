//! The laws of a plain group over every list of events that agree. The functions do nothing: their
//! contracts are facts.
ghost use Rattle.group_model.specs.Amounts.{FewAreSent};
ghost use Rattle.group_model.specs.Answering.{AnswersAreGiven, RequestsAreReplied, StopsAreTold};
ghost use Rattle.group_model.specs.Appending.{NewRequestsAreAccepted, OnlyFaultsAreShown, OnlyLeadersAppend, UnshownFaultsChangeNothing};
ghost use Rattle.group_model.specs.Counting.{CallsAreCounted};
ghost use Rattle.group_model.specs.Laws.{GroupsGrow, RepliesStay, StatesStay, DeposedAppendNothing, AgreementLasts, KnowledgeNeverFalls, GroupsStaySound, JournalsStay, NoneRunsAhead, RefusalsChangeNothing};
ghost use Rattle.group_model.specs.Replying.{EntriesAreReplied};
ghost use Rattle.group_model.specs.Sending.{WhatIsSentAgrees};
ghost use Rattle.group_model.specs.Steps.{LeanGrows, LeanKeepsAgreement, LeanStaysSound, StepsGrow, StepsKeepAgreement, StepsStaySound};
ghost use Rattle.group_model.specs.Takers.{TakersAreInside, TakersMayTake, UpdatersMaySend};
ghost use Rattle.group_model.specs.Versions.{OnlyViewsAreKnown, OnlyViewsAreSent};

use ft_base::{canonical_forms_are_of_values, replies_are_given, requests_join};

/// A group stays sound: each request is accepted at most once before its expiration, ticks of acceptance
/// never fall, no host is past what has run, the k-th view has version k, and a passive view's primary is
/// a member.
pub fn groups_stay_sound()
    ensures { GroupsStaySound }
{
    requests_join();
    canonical_forms_are_of_values();
}

/// Over any events the journal and the views only grow, at their end; time never falls, nor how much has run. So an
/// accepted request stays what it is, and so do the reply that the journal gives it and the state after each entry.
pub fn groups_grow()
    ensures grow { GroupsGrow }
    ensures replies { RepliesStay }
    ensures states { StatesStay }
{}

/// Over any events a journal with each request at most once before its expiration stays one, and what has run never
/// passes its end.
pub fn journals_stay()
    ensures once { JournalsStay }
    ensures ran { NoneRunsAhead }
{
    requests_join();
}

/// A host that knows an older view than the newest, when it is asked, appends nothing and calls no servant.
pub fn deposed_append_nothing()
    ensures { DeposedAppendNothing }
{}

/// What one host sent, or comes from outside, goes on agreeing with the group over events that agree.
pub fn agreement_lasts()
    ensures { AgreementLasts }
{}

/// What a host knows of a group's views never falls while the host is up.
pub fn knowledge_never_falls()
    ensures { KnowledgeNeverFalls }
{}

/// A host knows, and is told of, no view that its group hasn't had, over all events that tell of none.
pub fn only_views_are_known()
    ensures known { OnlyViewsAreKnown }
    ensures sent { OnlyViewsAreSent }
{}

/// Where what has run isn't past the journal, an event calls the servant as often as it runs an accepted entry, catches
/// up with one or applies an order: so many calls in all.
pub fn calls_are_counted()
    ensures { CallsAreCounted }
{}

/// A refusal changes nothing but what its host knows, and what catching up moved. So does a repeat.
pub fn refusals_change_nothing()
    ensures { RefusalsChangeNothing }
{}

/// What an event sends may come to the host to which it goes: it agrees with the group after the event.
pub fn what_is_sent_agrees()
    ensures { WhatIsSentAgrees }
{}

/// A request that comes to a host that is up is replied to, and no other is. Its answer is an outcome in the
/// form that its operation gives, a named exception, or the reference of a view that the group has had.
pub fn answers_are_given()
    ensures given { AnswersAreGiven }
    ensures replied { RequestsAreReplied }
{
    requests_join();
    canonical_forms_are_of_values();
    replies_are_given();
}

/// A request that was appended, or repeats an entry, is told that entry's one reply, where it is answered: the entry is of
/// its own logical invocation. No other request is told an outcome.
pub fn entries_are_replied()
    ensures { EntriesAreReplied }
{}

/// A request has a reply without an answer exactly where its host stopped, which then knows nothing, and
/// has sent nothing.
pub fn stops_are_told()
    ensures { StopsAreTold }
{}

/// Along any list of steps a group stays sound, and only grows; what could come to it, and has not come, can still come.
/// So it is where memory was wanted, too.
pub fn steps_go_on()
    ensures sound { StepsStaySound }
    ensures grow { StepsGrow }
    ensures agree { StepsKeepAgreement }
{
    requests_join();
    canonical_forms_are_of_values();
}

/// What want of memory leaves of a sound group is sound, has only more, and what could come to the group can come to it.
pub fn lean_goes_on()
    ensures sound { LeanStaysSound }
    ensures grow { LeanGrows }
    ensures agree { LeanKeepsAgreement }
{
    requests_join();
    canonical_forms_are_of_values();
}

/// Only a host that knows the newest view appends, as its primary in a passive group and as a member in an active
/// one. There a new request that no row refuses is accepted, where the write doesn't fail; or memory is wanted.
pub fn leaders_append()
    ensures only { OnlyLeadersAppend }
    ensures accepted { NewRequestsAreAccepted }
{}

/// Where an answer shows no failed write, the turn doesn't depend on whether the log's next write fails. A write that
/// doesn't fail is never shown as one that did.
pub fn writes_are_shown()
    ensures same { UnshownFaultsChangeNothing }
    ensures shown { OnlyFaultsAreShown }
{}

/// No event sends more than `most_sent` says: to the members of one view.
pub fn few_are_sent()
    ensures { FewAreSent }
{}

/// The host that takes a checkpoint or sends an update now is up, and may do so.
pub fn takers_may_take()
    ensures inside { TakersAreInside }
    ensures checkpoint { TakersMayTake }
    ensures update { UpdatersMaySend }
{}
