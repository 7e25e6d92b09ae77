// The wait for a turn.
use std::hint::spin_loop;
use std::sync::{Mutex, MutexGuard, Wait};

// How often a thread looks for a free lock before it sleeps: a turn takes less time than falling asleep and being woken.
const LOOKS: u32 = 400;

/// Waits for the lock, at first awake and then asleep.
pub(crate) fn wait<'q, R: Wait>(rt: &R, queue: &'q Mutex<()>) -> MutexGuard<'q, ()> {
    for _ in 0..LOOKS {
        if let Some(guard) = queue.try_lock() {
            return guard;
        }
        spin_loop();
    }
    queue.lock(rt)
}
