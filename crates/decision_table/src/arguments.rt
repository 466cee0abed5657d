//! The rows that speak of the request itself.
ghost use Rattle.std.specs.Prelude.{◌≡◌, ◌+◌, ◌<◌, ◌≤◌, ◌^◌, length, Some, IsSome, IfOk};
ghost use Rattle.ft_base.specs.Machine.{Fits, FitsAs};
ghost use Rattle.ft_base.specs.declared.limits.TheConstants.{ARGUMENTS_LIMIT};
ghost use Rattle.group_model.specs.Asking.{args_read, signature_asked};
ghost use Rattle.group_model.specs.Decisions.{args_for, args_within, no_operation, request_named, unless_long};
ghost use Rattle.decision_table.specs.Passing.{Comes, IfUnread};

use crate::views::refused;
use cdr_codec::{ArgsFault, Raw, args_of};
use ft_base::{ARGUMENTS_LIMIT, Bytes, Decision, Request, Servant, Signature, Version};
use group_model::{Asked, Refusal};
use std::alloc::Global;
use sys_faults::SysKind;

/// Why there is no request.
#[derive(Drop)]
pub(crate) enum Unpassed {
    Refused(Refusal),
    NoMemory,
}

fn no_operation(known: Version) -> Unpassed
    ensures { result ≡ Unpassed.Refused (no_operation known.0) }
{
    Unpassed::Refused(refused(Decision::BadOperation, SysKind::BadOperation, 1, known))
}

/// Arguments that are short enough. It takes no memory.
fn unless_long(known: Version, args: Bytes) -> Result<Bytes, Refusal>
    requires { length args < 2 ^ 32 }
    ensures args { result ≡ unless_long known.0 args }
    ensures same { IfOk result (λ short. short ≡ args) }
    ensures short { IfOk result (λ short. length short ≤ ARGUMENTS_LIMIT) }
{
    let count = args.bytes().len();
    if count > ARGUMENTS_LIMIT {
        let long = Decision::Long(count as u32);
        return Err(refused(long, SysKind::ImpLimit, 1, known));
    }
    Ok(args)
}

fn args_within(
    alloc: Global,
    known: Version,
    body: &Raw,
    signature: &Signature,
) -> Result<Bytes, Unpassed>
    requires { body.now.align + length body.now.bytes + 8 < 2 ^ 32 }
    ensures args { Comes result (args_within known.0 (args_read body.now signature.now)) }
    ensures fits { IfOk result (FitsAs (Some signature.now)) }
    ensures short { IfOk result (λ args. length args ≤ ARGUMENTS_LIMIT) }
{
    match args_of(alloc, body, signature) {
        Ok(args) => match unless_long(known, args) {
            Ok(short) => Ok(short),
            Err(long) => Err(Unpassed::Refused(long)),
        },
        Err(ArgsFault::Bad(place)) => {
            let marshal = Decision::Marshal(place);
            Err(Unpassed::Refused(refused(marshal, SysKind::Marshal, 1, known)))
        }
        Err(ArgsFault::NoMemory) => Err(Unpassed::NoMemory),
    }
}

fn args_for(
    alloc: Global,
    known: Version,
    signature: Option<Signature>,
    body: &Raw,
) -> Result<Bytes, Unpassed>
    requires { body.now.align + length body.now.bytes + 8 < 2 ^ 32 }
    ensures args { Comes result (args_for known.0 signature body.now) }
    ensures unread { IfUnread result (IsSome signature) }
    ensures fits { IfOk result (FitsAs signature) }
    ensures short { IfOk result (λ args. length args ≤ ARGUMENTS_LIMIT) }
{
    match signature {
        None => Err(no_operation(known)),
        Some(signature) => args_within(alloc, known, body, &signature),
    }
}

/// The request that is asked for, where its operation and its arguments are the servant's.
pub(crate) fn request_named<S: Servant>(
    alloc: Global,
    servant: &S,
    known: Version,
    asked: Asked,
) -> Result<Request, Unpassed>
    requires { asked.body.align + length asked.body.bytes + 8 < 2 ^ 32 }
    ensures request { Comes result (request_named (S.machine (S.kind servant.now)) known.0 asked asked.op) }
    ensures unread { IfUnread result (IsSome (signature_asked (S.machine (S.kind servant.now)) asked.op)) }
    ensures fits { IfOk result (Fits (S.machine (S.kind servant.now))) }
    ensures short { IfOk result (λ request. length request.args ≤ ARGUMENTS_LIMIT) }
{
    let Asked { key, op, body, .. } = asked;
    let op = match op {
        Some(op) => op,
        None => return Err(no_operation(known)),
    };
    let args = args_for(alloc, known, servant.signature(&op), &body)?;
    Ok(Request { key, op, args })
}
