ghost use Rattle.std.specs.Prelude.{◌≡◌, ◌≤◌, ◌^◌, ◌+◌, [], None, Some, Err, length, option_copied, is_some, IfOk, OnErr};
ghost use Rattle.slab.specs.Slab.{Updates, get, slab_len};
ghost use Rattle.shipped_servants.specs.Kinds.{kind_with};
ghost use Rattle.shipped_servants.specs.declared.kinds.Kind.{Kind as OfKind};
ghost use Rattle.generic_factory.specs.declared.faults.CreateFault.{CreateFault as Fault};
ghost use Rattle.generic_factory.specs.Creating.{count, criteria_refusal, fewer, fit_refusal, full, number_refusal, object_at, refusal, unmet, IsChangedAt, IsCreated, IsDeleted, IsMade};

use crate::faults::{CreateFault, ObjectNotFound};
use ft_base::{Members, Name, NoMemory};
use property_manager::{
    MembershipStyle, Property, PropertyFault, PropertyName, effective_in, judge_criteria,
    number_of_replicas,
};
use shipped_servants::{Kind, Shipped};
use slab::Slab;
use std::alloc::Global;
use std::marker::Model;

/// The most objects of a factory at once.
pub const OBJECT_LIMIT: usize = 4096;

/// By what an object is let go. Once it is, another object may have the same id.
#[derive(Clone, Copy, Debug, PartialEq, Eq)]
pub struct CreationId {
    pub(crate) place: usize,
}

/// A factory, seen as the kinds of its objects by the places of their ids.
#[derive(Drop)]
pub struct Factory {
    objects: Slab<Kind>,
}

impl Model for Factory {
    ghost use Rattle.std.specs.Prelude.{List, Option};
    ghost use Rattle.shipped_servants.specs.declared.kinds.Kind.{Kind};

    ghost Value = { List (Option Kind) };

    ghost view = { λ f. f.objects.slots };
}

/// Why these criteria aren't taken.
#[tactic(auto, using(crate::proofs::Refusals::taken, crate::proofs::Refusals::invalid, crate::proofs::Refusals::unsupported, crate::proofs::Refusals::no_memory, crate::proofs::Refusals::no_group))]
fn criteria_refusal(criteria: &[Property]) -> Option<CreateFault>
    requires { length criteria.now ≤ 2 ^ 32 }
    ensures { result ≡ criteria_refusal criteria.now }
{
    match judge_criteria(criteria) {
        Ok(()) => None,
        Err(PropertyFault::InvalidProperty { place }) => Some(CreateFault::InvalidCriteria(place)),
        Err(PropertyFault::UnsupportedProperty { place }) => {
            Some(CreateFault::UnsupportedProperty(place))
        }
        Err(PropertyFault::ObjectGroupNotFound(_)) => unreachable!(),
        Err(PropertyFault::NoMemory) => unreachable!(),
    }
}

fn unmet(initial: Option<u16>, minimum: Option<u16>) -> Option<CreateFault>
    ensures { result ≡ unmet initial minimum }
{
    let initial = initial?;
    let minimum = minimum?;
    if initial < minimum {
        Some(CreateFault::CannotMeetCriteria { initial, minimum })
    } else {
        None
    }
}

/// Whether more replicas are to stay than are to be made at first.
fn number_refusal(criteria: &[Property]) -> Option<CreateFault>
    ensures { result ≡ number_refusal criteria.now }
{
    let initial = effective_in(criteria, PropertyName::InitialNumberReplicas);
    let minimum = effective_in(criteria, PropertyName::MinimumNumberReplicas);
    unmet(number_of_replicas(initial), number_of_replicas(minimum))
}

fn fewer(fit: u16, minimum: Option<u16>) -> Option<CreateFault>
    ensures { result ≡ fewer fit minimum }
{
    let minimum = minimum?;
    if fit < minimum {
        Some(CreateFault::TooFew { fit, minimum })
    } else {
        None
    }
}

/// Whether fewer hosts fit than are to stay, where the infrastructure is to make the members.
fn fit_refusal(criteria: &[Property], fit: &Members) -> Option<CreateFault>
    ensures { result ≡ fit_refusal criteria.now fit.now }
{
    if !MembershipStyle::is_infrastructure(effective_in(criteria, PropertyName::MembershipStyle)) {
        return None;
    }
    let minimum = effective_in(criteria, PropertyName::MinimumNumberReplicas);
    fewer(fit.len() as u16, number_of_replicas(minimum))
}

/// Puts an object at a place that is free.
fn put(objects: &mut Slab<Kind>, kind: Kind) -> Result<usize, NoMemory>
    ensures free { IfOk result (λ place. object_at objects.old.slots place ≡ None) }
    ensures put { IfOk result (λ place. IsChangedAt place (Some kind) objects.old.slots objects.new.slots) }
    ensures counted { IfOk result (λ place. count objects.new.slots ≡ count objects.old.slots + 1) }
    ensures left { OnErr result (objects.new.slots ≡ objects.old.slots) }
{
    match objects.insert(kind) {
        Ok(place) => Ok(place),
        Err(_) => Err(NoMemory),
    }
}

impl Factory {
    /// A factory that has made nothing.
    pub fn new(alloc: Global) -> Factory
        ensures { result ≡ [] }
    {
        Factory {
            objects: Slab::new(alloc),
        }
    }

    /// How many objects it has made that aren't deleted.
    pub fn len(&self) -> usize
        ensures { result ≡ count self.now }
    {
        self.objects.len()
    }

    fn full(&self) -> Option<CreateFault>
        ensures { result ≡ full (count self.now) }
    {
        if self.objects.len() >= OBJECT_LIMIT {
            Some(CreateFault::ObjectNotCreated(4096))
        } else {
            None
        }
    }

    /// Why no object is made of a type that there is.
    fn refusal(&self, criteria: &[Property], fit: &Members) -> Option<CreateFault>
        requires { length criteria.now ≤ 2 ^ 32 }
        ensures { result ≡ refusal criteria.now fit.now self.now }
    {
        if let Some(fault) = criteria_refusal(criteria) {
            return Some(fault);
        }
        if let Some(fault) = number_refusal(criteria) {
            return Some(fault);
        }
        if let Some(fault) = fit_refusal(criteria, fit) {
            return Some(fault);
        }
        self.full()
    }

    fn make(&mut self, alloc: Global, kind: Kind) -> Result<(Shipped, CreationId), NoMemory>
        ensures made { IfOk result (λ made. IsMade kind made.0 made.1 self.old self.new) }
        ensures left { OnErr result (self.new ≡ self.old) }
    {
        let Ok(servant) = Shipped::open(alloc, kind) else {
            return Err(NoMemory);
        };
        match put(&mut self.objects, kind) {
            Err(NoMemory) => Err(NoMemory),
            Ok(place) => Ok((servant, CreationId { place })),
        }
    }

    /// Makes an object of the type with this id, in its opening state. `fit` are the hosts on which the
    /// infrastructure can make a group's first members. It is refused by the first of these: no servant has
    /// the type id; a criterion is invalid; one is unsupported; the minimum number of replicas is above the
    /// initial one; the infrastructure is to make the members, and fewer hosts fit than that minimum; the
    /// factory is full.
    pub fn create_object(
        &mut self,
        alloc: Global,
        type_id: &Name,
        criteria: &[Property],
        fit: &Members,
    ) -> Result<(Shipped, CreationId), CreateFault>
        requires { length criteria.now ≤ 2 ^ 32 }
        ensures made { IsCreated type_id.now criteria.now fit.now self.old result self.new }
        ensures refused { (kind : OfKind) → kind_with type_id.now ≡ Some kind → (why : Fault) → refusal criteria.now fit.now self.old ≡ Some why → result ≡ Err why }
    {
        let Some(kind) = Kind::with_type_id(type_id.bytes()) else {
            return Err(CreateFault::NoFactory);
        };
        if let Some(fault) = self.refusal(criteria, fit) {
            return Err(fault);
        }
        match self.make(alloc, kind) {
            Err(NoMemory) => Err(CreateFault::NoMemory),
            Ok(made) => Ok(made),
        }
    }

    /// Lets go of an object. It takes no memory.
    pub fn delete_object(&mut self, id: CreationId) -> Result<(), ObjectNotFound>
        ensures { IsDeleted id self.old result self.new }
    {
        match self.objects.try_remove(id.place) {
            None => Err(ObjectNotFound),
            Some(_kind) => Ok(()),
        }
    }
}
