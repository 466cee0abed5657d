ghost use Rattle.std.specs.Prelude.{◌≡◌};

use hist_lock::Object;

/// A number to which each turn adds, modulo 2^64. The event is what is added, and the answer what the number is then.
#[derive(Drop)]
pub struct Counter {
    pub value: u64,
}

impl Object for Counter {
    ghost use Rattle.lock_counter.specs.Counts.{Counts};

    type Event = u64;

    type Answer = u64;

    ghost stands = { λ opening calls now. Counts opening.value calls now.value };

    ghost may = { λ opening calls event. Unit {0} };

    fn act(&mut self, event: u64) -> u64 {
        self.value = self.value.wrapping_add(event);
        self.value
    }

    fn lasts() {}
}
