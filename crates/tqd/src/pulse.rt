//! A sign of life for whoever waits at a terminal.

use search_run::{Gate, Way};
use std::rt::HostRuntime;
use std::sync::atomic::{AtomicU64, Ordering};
use std::time::Instant;

/// Says on standard error, at most once a second, how many boxes were worked on, how long that took, and what the best
/// plan costs so far, in whole units of the currency. The line is taken away when no box is left.
#[derive(Drop)]
pub struct Pulse<'r> {
    rt: &'r HostRuntime,
    /// None where nothing is to be said.
    start: Option<Instant>,
    boxes: AtomicU64,
    /// The second in which it was last said, 0 where nothing was.
    said: AtomicU64,
}

impl<'r> Pulse<'r> {
    /// It says nothing where it is not wanted, or where the system tells no time.
    pub fn new(rt: &'r HostRuntime, wanted: bool) -> Pulse<'r> {
        Pulse {
            rt,
            start: if wanted { Instant::now(rt).ok() } else { None },
            boxes: AtomicU64::new(0),
            said: AtomicU64::new(0),
        }
    }

    /// Takes the line away, where there is one.
    pub fn end(&self) {
        if self.said.swap(0, Ordering::Relaxed) > 0 {
            let _ = eprint!(self.rt; "\r\x1b[K");
        }
    }

    fn seconds(&self) -> Option<u64> {
        match self.start.as_ref()?.elapsed(self.rt) {
            Ok(time) => Some(time.as_secs()),
            Err(_) => None,
        }
    }

    // What can't be said is left unsaid.
    fn say(&self, seconds: u64, boxes: u64, best: Option<u128>) {
        let _ = match best {
            Some(cost) => {
                let whole = cost / 1_000_000;
                eprint!(self.rt; "\r{boxes} boxes, {seconds} s, best so far {whole}\x1b[K")
            }
            None => eprint!(self.rt; "\r{boxes} boxes, {seconds} s, no plan yet\x1b[K"),
        };
    }
}

impl Gate for Pulse<'_> {
    fn enter(&self, _worker: u32, _number: u64, _way: Way, best: Option<u128>) {
        let boxes = self.boxes.fetch_add(1, Ordering::Relaxed).saturating_add(1);
        let Some(seconds) = self.seconds() else {
            return;
        };
        let said = self.said.load(Ordering::Relaxed);
        let is_due = seconds > said
            && self
                .said
                .compare_exchange(said, seconds, Ordering::Relaxed, Ordering::Relaxed)
                .is_ok();
        if is_due {
            self.say(seconds, boxes, best);
        }
    }

    fn leave(&self) {
        self.end();
    }
}
