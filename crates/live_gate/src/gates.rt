//! What two links wait for.

use std::sync::atomic::{AtomicU32, AtomicU64, Ordering};
use std::thread;

/// How often a link that waits looks, before it gives up.
const TURNS: u32 = 1_000_000;

/// The replies that were written to a link: how many, and the values of the first two.
#[derive(Drop)]
pub struct Gate {
    replies: AtomicU32,
    first: AtomicU64,
    second: AtomicU64,
}

impl Gate {
    pub fn new() -> Gate {
        Gate {
            replies: AtomicU32::new(0),
            first: AtomicU64::new(0),
            second: AtomicU64::new(0),
        }
    }

    /// A reply with this value was written.
    pub fn note(&self, value: u64) {
        if self.replies.load(Ordering::SeqCst) == 0 {
            self.first.store(value, Ordering::SeqCst);
        } else {
            self.second.store(value, Ordering::SeqCst);
        }
        self.replies.fetch_add(1, Ordering::SeqCst);
    }

    /// The value of the first reply, or of the second; 0 where there is none.
    pub fn value_at(&self, place: usize) -> u64 {
        if place == 0 {
            self.first.load(Ordering::SeqCst)
        } else {
            self.second.load(Ordering::SeqCst)
        }
    }

    /// Waits until there are so many replies, and yields its thread at each look. Whether there are.
    pub fn has_opened(&self, replies: u32) -> bool {
        for _ in 0..TURNS {
            if self.replies.load(Ordering::SeqCst) >= replies {
                return true;
            }
            thread::yield_now();
        }
        false
    }
}
