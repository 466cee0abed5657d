use ft_base::Name;
use ft_outside::{Got, Put, Sink, Source};

/// A link to a peer: bytes both ways. (GIOP chapter, "GIOP Message Transport".) Reads and writes have one count of faults, `faults`.
///
/// `receive` and `send` are `read` and `write` that also say what they leave of the other way.
pub trait Link: Source + Sink + Drop {
    ghost use Rattle.std.specs.Prelude.{◌≡◌, ℕ, ◌<◌, Bool, true, if◌then◌else◌, length};
    ghost use Rattle.ft_outside.specs.Outside.{IsRead, IsWritten, next_count};

    ghost faults: { Self → ℕ };

    ghost closed: { Self → Bool };

    fn receive(&mut self, into: &mut [u8]) -> Got
        requires { 0 < length into.old }
        ensures read { IsRead (Self.left self.old) (Self.left self.new) (faults self.old) (faults self.new) into.new result }
        ensures holds { Self.holds self.new ≡ Self.holds self.old }
        ensures closed { closed self.new ≡ closed self.old }
        ensures shut { closed self.old ≡ true → result ≡ Got.Failed };

    fn send(&mut self, piece: &[u8]) -> Put
        requires { 0 < length piece.now }
        ensures written { IsWritten (Self.holds self.old) (Self.holds self.new) (faults self.old) (faults self.new) piece.now result }
        ensures left { Self.left self.new ≡ Self.left self.old }
        ensures closed { closed self.new ≡ closed self.old }
        ensures shut { closed self.old ≡ true → result ≡ Put.Failed };

    /// Ends it both ways. Closing it again is a fault.
    fn close(&mut self)
        ensures closed { closed self.new ≡ true }
        ensures faults { faults self.new ≡ (if closed self.old then next_count (faults self.old) else faults self.old) }
        ensures left { Self.left self.new ≡ Self.left self.old }
        ensures holds { Self.holds self.new ≡ Self.holds self.old };

    /// Reads and writes count together.
    ghost read_faults: { (link : Self) → Self.Source.count link ≡ faults link };

    ghost write_faults: { (link : Self) → Self.Sink.count link ≡ faults link };
}

/// What dials. `links` is what its next links have left, `targets` where those that it gave lead, `sent` what those
/// that came back held, and `lent` how many are out, each where it tells that.
pub trait Dialer<L: Link>: Drop {
    ghost use Rattle.std.specs.Prelude.{◌≡◌, ℕ, ◌+◌, List, [], ◌∷◌, ◌++◌, Option, Some, IsSome, is_some, false, option_map, MatchOption};
    ghost use Rattle.ft_outside.specs.Outside.{next_count, added};
    ghost use Rattle.outside_links.specs.Lending.{Target, IsFirst, IsGained, IsEmpty, IsLent};

    ghost links: { Self → Option (List (List ℕ)) };

    ghost targets: { Self → Option (List Target) };

    ghost sent: { Self → Option (List (List ℕ)) };

    ghost lent: { Self → Option ℕ };

    ghost count: { Self → ℕ };

    fn dial(&mut self, host: &Name, port: u16) -> Option<L>
        ensures links { MatchOption result (links self.new ≡ links self.old) (λ link. IsFirst (links self.old) (links self.new) (L.left link)) }
        ensures fresh { MatchOption result (Unit {0}) (λ link. (L.faults link ≡ 0) × (L.closed link ≡ false) × IsEmpty (L.holds link)) }
        ensures targets { MatchOption result (targets self.new ≡ targets self.old) (λ _. targets self.new ≡ option_map (λ ts. ts ++ record { host = host.now; port = port } ∷ []) (targets self.old)) }
        ensures lent { MatchOption result (lent self.new ≡ lent self.old) (λ _. lent self.new ≡ option_map (λ n. n + 1) (lent self.old)) }
        ensures sent { sent self.new ≡ sent self.old }
        ensures faults { MatchOption result (count self.new ≡ next_count (count self.old)) (λ _. count self.new ≡ count self.old) };

    /// Closes a link that was handed out.
    fn take_back(&mut self, link: L)
        requires { IsLent (lent self.old) }
        ensures sent { IsGained (sent self.old) (sent self.new) (L.holds link) }
        ensures lent { lent self.old ≡ option_map (λ n. n + 1) (lent self.new) }
        ensures links { links self.new ≡ links self.old }
        ensures targets { targets self.new ≡ targets self.old }
        ensures faults { count self.new ≡ added (count self.old) (L.faults link) };
}

/// What waits for links at a port of its own.
pub trait Acceptor<L: Link>: Drop {
    ghost use Rattle.std.specs.Prelude.{◌≡◌, ℕ, List, Option, false, MatchOption};
    ghost use Rattle.ft_outside.specs.Outside.{next_count};
    ghost use Rattle.outside_links.specs.Lending.{IsFirst, IsEmpty};

    ghost links: { Self → Option (List (List ℕ)) };

    ghost own_port: { Self → ℕ };

    ghost count: { Self → ℕ };

    fn accept(&mut self) -> Option<L>
        ensures links { MatchOption result (links self.new ≡ links self.old) (λ link. IsFirst (links self.old) (links self.new) (L.left link)) }
        ensures fresh { MatchOption result (Unit {0}) (λ link. (L.faults link ≡ 0) × (L.closed link ≡ false) × IsEmpty (L.holds link)) }
        ensures port { own_port self.new ≡ own_port self.old }
        ensures faults { MatchOption result (count self.new ≡ next_count (count self.old)) (λ _. count self.new ≡ count self.old) };

    fn port(&self) -> u16
        ensures { result ≡ own_port self.now };
}

/// What hands out doors and callers. `callers` is what the links of its next callers have left, where it tells that.
/// `broken` counts the faults of callers that came back.
pub trait Network<L: Link, A: Acceptor<L>, D: Dialer<L>> {
    ghost use Rattle.std.specs.Prelude.{◌≡◌, ℕ, List, Option, MatchOption};
    ghost use Rattle.ft_outside.specs.Outside.{next_count, added};
    ghost use Rattle.outside_links.specs.Lending.{IsCaller, IsEmpty, IsNoneOut};

    ghost callers: { Self → Option (List (List (List ℕ))) };

    ghost count: { Self → ℕ };

    ghost broken: { Self → ℕ };

    fn bind(&mut self) -> Option<A>
        ensures fresh { MatchOption result (Unit {0}) (λ door. A.count door ≡ 0) }
        ensures faults { MatchOption result (count self.new ≡ next_count (count self.old)) (λ _. count self.new ≡ count self.old) }
        ensures broken { broken self.new ≡ broken self.old }
        ensures callers { callers self.new ≡ callers self.old };

    fn caller(&mut self) -> D
        ensures fresh { D.count result ≡ 0 }
        ensures none_out { IsNoneOut (D.lent result) }
        ensures none_back { IsEmpty (D.sent result) }
        ensures none_dialled { IsEmpty (D.targets result) }
        ensures callers { IsCaller (callers self.old) (callers self.new) (D.links result) }
        ensures faults { count self.new ≡ count self.old }
        ensures broken { broken self.new ≡ broken self.old };

    fn take_caller(&mut self, caller: D)
        ensures broken { broken self.new ≡ added (broken self.old) (D.count caller) }
        ensures faults { count self.new ≡ count self.old }
        ensures callers { callers self.new ≡ callers self.old };
}
