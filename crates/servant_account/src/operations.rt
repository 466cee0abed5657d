ghost use Rattle.std.specs.Prelude.{◌≡◌, ◌<◌, ◌^◌, ◌∷◌, [], None, Some, length, IfOk, IfSome};
ghost use Rattle.byteorder.specs.Endian.{big_bytes, big_number};
ghost use Rattle.ft_base.specs.Canonical.{IsCanonical};
ghost use Rattle.ft_base.specs.Machine.{FitsAs};
ghost use Rattle.ft_base.specs.declared.requests.Par.TheVariants.{I64};
ghost use Rattle.servant_account.specs.Account.{amount_of, balance_in as balance_said, deposited, ran, told, withdrawn};
ghost use Rattle.servant_account.specs.Operations.{operation_of, signature_of};

use cdr_codec::{CdrReader, Order};
use ft_base::{Bytes, Name, NoMemory, Outcome, Par, Signature};
use std::alloc::Global;

/// The largest balance.
const LARGEST: u64 = 0x7fff_ffff_ffff_ffff;

/// What an account can be asked.
#[derive(Clone, Copy, Debug, PartialEq, Eq)]
pub enum Operation {
    Deposit,
    Withdraw,
    Balance,
}

/// A number's eight bytes, the highest first.
pub fn number_bytes(alloc: Global, number: u64) -> Result<Bytes, NoMemory>
    ensures { IfOk result (λ bytes. bytes ≡ big_bytes 8 number) }
{
    Bytes::of(alloc, &number.to_be_bytes())
}

/// The number in eight bytes, the highest first.
#[tactic(auto, using(crate::proofs::States::number_read, crate::proofs::States::number_is_there))]
fn number_in(bytes: &[u8]) -> u64
    requires { length bytes.now ≡ 8 }
    ensures { result ≡ big_number 8 bytes.now }
{
    let mut reader = CdrReader::new(Order::Big, 0, bytes);
    match reader.read_u64() {
        Ok(number) => number,
        Err(_) => unreachable!(),
    }
}

/// The balance that state bytes say: eight bytes, the highest first, whose highest bit is clear.
pub fn balance_in(bytes: &Bytes) -> Option<u64>
    ensures said { result ≡ balance_said bytes.now }
    ensures range { IfSome result (λ balance. balance < 2 ^ 63) }
{
    let digits = bytes.bytes();
    if digits.len() != 8 {
        return None;
    }
    let balance = number_in(digits);
    if balance > LARGEST {
        return None;
    }
    Some(balance)
}

fn tell(alloc: Global, balance: u64) -> Result<Outcome, NoMemory>
    ensures { IfOk result (λ outcome. outcome ≡ told balance) }
{
    let bytes = number_bytes(alloc, balance)?;
    Ok(Outcome::Value(bytes))
}

fn amount(args: &Bytes) -> i64
    requires { IsCanonical (I64 ∷ []) args.now }
    ensures { result ≡ amount_of args.now }
{
    number_in(args.bytes()).cast_signed()
}

fn deposit(alloc: Global, balance: u64, amount: i64) -> Result<(u64, Outcome), NoMemory>
    requires { balance < 2 ^ 63 }
    ensures ran { IfOk result (λ next. next ≡ deposited balance amount) }
    ensures range { IfOk result (λ next. next.0 < 2 ^ 63) }
{
    if amount < 0 {
        let outcome = Outcome::user(alloc, b"BadAmount")?;
        return Ok((balance, outcome));
    }
    let sum = balance + amount as u64;
    if sum > LARGEST {
        let outcome = Outcome::user(alloc, b"Overflow")?;
        return Ok((balance, outcome));
    }
    let outcome = tell(alloc, sum)?;
    Ok((sum, outcome))
}

fn withdraw(alloc: Global, balance: u64, amount: i64) -> Result<(u64, Outcome), NoMemory>
    requires { balance < 2 ^ 63 }
    ensures ran { IfOk result (λ next. next ≡ withdrawn balance amount) }
    ensures range { IfOk result (λ next. next.0 < 2 ^ 63) }
{
    if amount < 0 {
        let outcome = Outcome::user(alloc, b"BadAmount")?;
        return Ok((balance, outcome));
    }
    let amount = amount as u64;
    if balance < amount {
        let outcome = Outcome::user(alloc, b"Insufficient")?;
        return Ok((balance, outcome));
    }
    let rest = balance - amount;
    let outcome = tell(alloc, rest)?;
    Ok((rest, outcome))
}

impl Operation {
    /// The operation of this name; none where an account has no such operation.
    pub fn named(name: &Name) -> Option<Operation>
        ensures { result ≡ operation_of name.now }
    {
        let text = name.bytes();
        if text == b"deposit".as_slice() {
            return Some(Operation::Deposit);
        }
        if text == b"withdraw".as_slice() {
            return Some(Operation::Withdraw);
        }
        if text == b"balance".as_slice() {
            return Some(Operation::Balance);
        }
        None
    }

    /// Its parameters, and what it gives.
    pub fn signature(self) -> Signature
        ensures { result ≡ signature_of self }
    {
        let first = match self {
            Operation::Balance => None,
            _ => Some(Par::I64),
        };
        Signature {
            first,
            second: None,
            gives: Some(Par::I64),
        }
    }

    /// The balance after this operation, and its outcome.
    pub fn run(self, alloc: Global, balance: u64, args: &Bytes) -> Result<(u64, Outcome), NoMemory>
        requires range { balance < 2 ^ 63 }
        requires fits { FitsAs (Some (signature_of self)) args.now }
        ensures ran { IfOk result (λ next. next ≡ ran (Some self) balance args.now) }
        ensures range { IfOk result (λ next. next.0 < 2 ^ 63) }
    {
        match self {
            Operation::Deposit => deposit(alloc, balance, amount(args)),
            Operation::Withdraw => withdraw(alloc, balance, amount(args)),
            Operation::Balance => {
                let outcome = tell(alloc, balance)?;
                Ok((balance, outcome))
            }
        }
    }
}
