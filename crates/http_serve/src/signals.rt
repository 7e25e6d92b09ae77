// What the threads of a service tell one another.
use std::sync::Wait;
use std::sync::atomic::{AtomicBool, AtomicU64, Ordering};
use std::time::Duration;

// For so many sleeps of 100 milliseconds the beginning of a thread is waited for.
const SLEEPS: u32 = 100;

/// Whether the thread that serves was begun, and whether a worker is short of memory.
#[derive(Drop)]
pub struct Signals {
    begun: AtomicU64,
    short: AtomicBool,
}

impl Signals {
    /// Nothing was told.
    pub fn new() -> Signals {
        Signals {
            begun: AtomicU64::new(0),
            short: AtomicBool::new(false),
        }
    }

    /// Tells that the thread that serves was begun.
    pub fn tell_begun(&self) {
        self.begun.store(1, Ordering::SeqCst);
        self.begun.wake_all();
    }

    /// Waits until the thread that serves was begun. False where it wasn't in ten seconds: then there was no memory for it.
    pub fn wait_begun<R: Wait>(&self, rt: &R) -> bool {
        for _ in 0..SLEEPS {
            if self.begun.load(Ordering::SeqCst) == 1 {
                return true;
            }
            self.begun.park_timeout(rt, 0, Duration::from_millis(100));
        }
        self.begun.load(Ordering::SeqCst) == 1
    }

    /// Tells that a worker is short of memory.
    pub fn tell_short(&self) {
        self.short.store(true, Ordering::SeqCst);
    }

    /// Whether a worker is short of memory.
    pub fn is_short(&self) -> bool {
        self.short.load(Ordering::SeqCst)
    }
}
