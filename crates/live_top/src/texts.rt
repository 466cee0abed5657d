//! What a live run prints.
ghost use Rattle.std.specs.Prelude.{◌≡◌, IfOk};
ghost use Rattle.ft_base.specs.Machine.{Machine};
ghost use Rattle.group_core.specs.Cores.{Stands};
ghost use Rattle.group_model.specs.Plain.{Group};
ghost use Rattle.live_top.specs.Texts.{live_text, show_text};

use client_calls::Told;
use ft_base::{Bytes, Key, Name, NoMemory, Outcome, Servant};
use ft_outside::Keeper;
use group_core::GroupCore;
use group_looks::{figures_of, reply_to, show_lines};
use live_clients::live_key;
use live_lines::{Replies, push_told_lines};
use std::alloc::Global;

/// The replies of a core's group to the calls of a run's clients.
#[derive(Drop)]
pub struct HeldReplies<'a, S: Servant + Drop, K: Keeper + Drop> {
    core: &'a GroupCore<S, K>,
}

impl<'a, S: Servant + Drop, K: Keeper + Drop> Replies for HeldReplies<'a, S, K> {
    ghost use Rattle.live_top.specs.Texts.{AreHeld};

    ghost holds = { λ held replied. AreHeld S.machine held.core.now replied };

    fn reply(&self, alloc: Global, client: u64, call: u64) -> Result<Option<Outcome>, NoMemory> {
        let key = live_key(alloc, client, call)?;
        reply_to(alloc, self.core, key)
    }
}

// What `show` prints of the group, which is called `bank`.
fn show_text<S: Servant + Drop, K: Keeper + Drop>(
    alloc: Global,
    core: &GroupCore<S, K>,
) -> Result<Bytes, NoMemory>
    requires { (g : Group) × Stands S.machine core.now g }
    ensures { (g : Group) → Stands S.machine core.now g → IfOk result (λ text. text ≡ show_text (S.machine g.common.kind) g) }
{
    let name = match Name::of(alloc, b"bank".as_slice()) {
        Ok(name) => name,
        Err(_) => return Err(NoMemory),
    };
    let figures = figures_of(alloc, core)?;
    let lines = show_lines(alloc, &name, core.style(), figures)?;
    Ok(lines.into_bytes())
}

/// The lines of all clients' calls, and then the group.
pub fn live_text<S: Servant + Drop, K: Keeper + Drop>(
    alloc: Global,
    core: &GroupCore<S, K>,
    tolds: &[Told],
) -> Result<Vec<u8>, NoMemory>
    requires { (g : Group) × Stands S.machine core.now g }
    ensures { (g : Group) → Stands S.machine core.now g → IfOk result (λ text. text.items ≡ live_text (S.machine g.common.kind) g tolds.now) }
{
    let replies = HeldReplies { core };
    let mut text = Vec::new(alloc);
    push_told_lines(alloc, &mut text, &replies, tolds)?;
    let shown = show_text(alloc, core)?;
    text.extend_from_slice(shown.bytes())?;
    Ok(text)
}
