//! The monitor looks at the group, and kills the host that it is to kill.
ghost use Rattle.std.specs.Prelude.{◌≡◌, ◌<◌, ℕ, List, [], ◌∷◌, ◌++◌, IfOk, OnOk};
ghost use Rattle.ft_base.specs.declared.limits.TheConstants.{HOST_LIMIT};
ghost use Rattle.hist_lock.specs.Histories.{calls, turns_by};
ghost use Rattle.hist_lock.specs.Passes.{IsOf, own_turns};
ghost use Rattle.shared_group.specs.Books.{BookPicture, IsBook};
ghost use Rattle.shared_group.specs.declared.calls.Call.{Call as ACall};
ghost use Rattle.shared_group.specs.declared.calls.CallAnswer.{CallAnswer as AnAnswer};
ghost use Rattle.live_monitor.specs.Monitored.{AreShown, GroupTurn, HasLastLook, HasLooked, IsMonitored, can_be_killed};

use crate::states::RunMonitor;
use ft_base::{HostNo, NoMemory, Servant};
use ft_outside::Keeper;
use group_looks::Figures;
use group_model::Event;
use hist_lock::Object;
use shared_group::{
    Book, Call, CallAnswer, Pass, SharedGroup, entries_found_stay, free_calls_may_be_made,
};
use std::sync::Wait;

/// Looks at the group's figures. At the first look that finds enough entries it crashes the host that is to be killed.
pub fn look<R: Wait, S: Servant + Drop, K: Keeper + Drop>(
    rt: &R,
    group: &SharedGroup<S, K>,
    pass: &mut Pass<S, K>,
    monitor: &mut RunMonitor,
) -> Result<Figures, NoMemory>
    requires own { IsOf group.now.lock pass.old }
    requires kill { can_be_killed monitor.old.kill }
    requires so_far { IsMonitored monitor.old (own_turns pass.old) }
    ensures own { IsOf group.now.lock pass.new }
    ensures number { pass.new.number ≡ pass.old.number }
    ensures kill { monitor.new.kill ≡ monitor.old.kill }
    ensures so_far { IsMonitored monitor.new (own_turns pass.new) }
    ensures looks { HasLooked (own_turns pass.old) (own_turns pass.new) }
    ensures shown { IfOk result (λ figures. AreShown figures (own_turns pass.new)) }
{
    free_calls_may_be_made::<S>();
    let figures = match group.figures(rt, pass) {
        Ok(figures) => figures,
        Err(NoMemory) => return Err(NoMemory),
    };
    let Some(host) = monitor.kill_due(&figures) else {
        return Ok(figures);
    };
    group.event(rt, pass, Event::Crash(host));
    monitor.note_kill();
    Ok(figures)
}

// What a look at a book finds.
fn look_at<S: Servant + Drop, K: Keeper>(book: &mut Book<S, K>) -> Result<Figures, NoMemory>
    requires { (first : BookPicture) × (past : List (ACall × AnAnswer)) × IsBook S.machine first past book.old }
    ensures { (first : BookPicture) (past : List (ACall × AnAnswer)) → IsBook S.machine first past book.old
        → IsBook S.machine first (past ++ (Call.Figures, CallAnswer.Figures result) ∷ []) book.new }
{
    free_calls_may_be_made::<S>();
    entries_found_stay::<S>();
    match book.act(Call::Figures) {
        CallAnswer::Figures(found) => found,
        _ => unreachable!(),
    }
}

// A host of a book is crashed.
fn crash_at<S: Servant + Drop, K: Keeper>(book: &mut Book<S, K>, host: HostNo)
    requires host { host.0 < HOST_LIMIT }
    requires book { (first : BookPicture) × (past : List (ACall × AnAnswer)) × IsBook S.machine first past book.old }
    ensures { (answer : AnAnswer) × ((first : BookPicture) (past : List (ACall × AnAnswer)) → IsBook S.machine first past book.old
        → IsBook S.machine first (past ++ (Call.Act (Event.Crash host), answer) ∷ []) book.new) }
{
    free_calls_may_be_made::<S>();
    book.act(Call::Act(Event::Crash(host)));
}

/// The last look, once the group's lock is closed. At it, too, the host is crashed that is to be killed, where there are enough
/// entries. So in the end it was killed exactly where there are.
pub fn last_look<S: Servant + Drop, K: Keeper>(
    book: &mut Book<S, K>,
    monitor: &mut RunMonitor,
) -> Result<(), NoMemory>
    requires kill { can_be_killed monitor.old.kill }
    requires book { (first : BookPicture) × (past : List (ACall × AnAnswer)) × IsBook S.machine first past book.old }
    ensures kill { monitor.new.kill ≡ monitor.old.kill }
    ensures looked { (first : BookPicture) (history : List GroupTurn) (number : ℕ) → IsBook S.machine first (calls history) book.old
        → IsMonitored monitor.old (turns_by number history) → OnOk result (HasLastLook S.machine first history number monitor.new book.new) }
{
    entries_found_stay::<S>();
    let figures = match look_at(book) {
        Ok(figures) => figures,
        Err(NoMemory) => return Err(NoMemory),
    };
    let Some(host) = monitor.kill_due(&figures) else {
        return Ok(());
    };
    crash_at(book, host);
    monitor.note_kill();
    Ok(())
}
