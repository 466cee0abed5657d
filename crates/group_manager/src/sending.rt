//! Whom a new view is told.
ghost use Rattle.std.specs.Prelude.{◌≡◌, ◌++◌, ◌∷◌, [], not, IfOk, OnOk};
ghost use Rattle.std.specs.List.{filter};
ghost use Rattle.ft_base.specs.Members.{is_member};
ghost use Rattle.group_model.specs.Changes.{view_sent};
ghost use Rattle.group_model.specs.Views.{sent_to};
ghost use Rattle.group_model.specs.declared.events.Inner.TheVariants as inners;

use ft_base::{HostNo, Members, NoMemory, Version, View};
use group_model::{Inner, Out, OutList};
use std::alloc::Global;

fn tell(out: &mut Vec<Out>, host: u8, version: Version) -> Result<(), NoMemory>
    ensures { OnOk result (out.new.items ≡ out.old.items ++ sent_to (host ∷ []) (inners.View version)) }
{
    out.push(Out {
        to: HostNo(host),
        carried: Inner::View { version },
    })?;
    Ok(())
}

fn tell_all(out: &mut Vec<Out>, members: &Members, version: Version) -> Result<(), NoMemory>
    ensures { OnOk result (out.new.items ≡ out.old.items ++ sent_to members.now (inners.View version)) }
{
    for host in members.hosts() {
        if let Err(NoMemory) = tell(out, *host, version) {
            return Err(NoMemory);
        }
    }
    Ok(())
}

/// Tells those that have joined.
fn tell_new(
    out: &mut Vec<Out>,
    old: &Members,
    members: &Members,
    version: Version,
) -> Result<(), NoMemory>
    ensures { OnOk result (out.new.items ≡ out.old.items ++ sent_to (filter (λ m. not (is_member m old.now)) members.now) (inners.View version)) }
{
    for host in members.hosts() {
        if !old.has(HostNo(*host)) {
            if let Err(NoMemory) = tell(out, *host, version) {
                return Err(NoMemory);
            }
        }
    }
    Ok(())
}

/// What is sent where a group's view is followed by a new one: the new view is told to the members of the
/// old one, and then to those that have joined.
pub fn view_sent(alloc: Global, old: &View, new: &View) -> Result<OutList, NoMemory>
    ensures { IfOk result (λ out. out ≡ view_sent old.now new.now) }
{
    let mut out = Vec::new(alloc);
    tell_all(&mut out, &old.members, new.version)?;
    tell_new(&mut out, &old.members, &new.members, new.version)?;
    Ok(OutList::from_vec(out))
}
