ghost use Rattle.std.specs.Prelude.{◌≡◌, ◌<◌, ◌^◌, ◌≤ℤ◌, ℕ, pos};
ghost use Rattle.servant_account.specs.Account.{account};
ghost use Rattle.servant_account.specs.Laws.{owes};

use crate::operations::{Operation, balance_in, number_bytes};
use ft_base::{Bytes, Coded, Name, NoMemory, Outcome, Request, Signature, UpdateFault};
use std::alloc::Global;
use std::marker::Model;

/// An account (`IDL:ftc/Account:1.0`). It is seen as its balance, from 0 to
/// 9,223,372,036,854,775,807.
#[derive(Drop)]
pub struct Account {
    balance: u64,
}

impl Model for Account {
    ghost Value = { ℕ };

    ghost view = { λ a. a.balance };

    ghost invariant = { λ a. a.balance < 2 ^ 63 };
}

impl Account {
    /// An account with this balance.
    pub fn new(balance: i64) -> Account
        requires { pos 0 ≤ℤ balance }
        ensures { pos result ≡ balance }
    {
        Account {
            balance: balance as u64,
        }
    }
}

/// A deposit, a withdrawal and a look at the balance. The first two are refused with `BadAmount`
/// where the amount is negative, a deposit with `Overflow` where the sum would be no balance, and
/// a withdrawal with `Insufficient` where it is above the balance; a refusal changes nothing.
impl Coded for Account {
    ghost coding = { account };

    ghost leads = { λ _ _. Unit {0} };

    #[tactic(auto, using(crate::proofs::States::good))]
    fn is_sound(&self) {
        let _balance = self.balance;
    }

    #[tactic(auto, unfolding(crate::specs::Account::account))]
    fn signature_of(op: &Name) -> Option<Signature> {
        match Operation::named(op) {
            Some(operation) => Some(operation.signature()),
            None => None,
        }
    }

    #[tactic(auto, unfolding(crate::specs::Account::account))]
    fn run(&mut self, alloc: Global, request: &Request) -> Result<Outcome, NoMemory> {
        let operation = match Operation::named(&request.op) {
            Some(operation) => operation,
            None => unreachable!(),
        };
        match operation.run(alloc, self.balance, &request.args) {
            Ok((balance, outcome)) => {
                self.balance = balance;
                Ok(outcome)
            }
            Err(NoMemory) => Err(NoMemory),
        }
    }

    #[tactic(auto, unfolding(crate::specs::Account::account))]
    fn spell(&self, alloc: Global) -> Result<Bytes, NoMemory> {
        number_bytes(alloc, self.balance)
    }

    #[tactic(auto, using(crate::proofs::States::value_is))]
    fn read(_alloc: Global, bytes: &Bytes) -> Result<Option<Account>, NoMemory> {
        match balance_in(bytes) {
            Some(balance) => Ok(Some(Account { balance })),
            None => Ok(None),
        }
    }

    #[tactic(auto, unfolding(crate::specs::Account::account))]
    fn spell_update(&self, alloc: Global, _base: &Account) -> Result<Bytes, NoMemory> {
        number_bytes(alloc, self.balance)
    }

    #[tactic(auto, unfolding(crate::specs::Account::account))]
    fn take_update(&mut self, _alloc: Global, update: &Bytes) -> Result<(), UpdateFault> {
        match balance_in(update) {
            Some(later) => {
                self.balance = later;
                Ok(())
            }
            None => Err(UpdateFault::InvalidUpdate),
        }
    }

    fn equal(&self, _alloc: Global) -> Result<Account, NoMemory> {
        Ok(Account {
            balance: self.balance,
        })
    }

    ghost owes = { owes };
}
