//! A gate that holds a case until others have begun, and counts the calls.

use jc_workers::Gate;
use std::alloc::{AllocError, Global};
use std::sync::atomic::Ordering::SeqCst;
use std::sync::atomic::{AtomicBool, AtomicU32};

/// How often a held worker looks at what has passed: some seconds, since on a machine with much other work the other workers
/// may get a processor late.
const MOST_LOOKS: u32 = 4_000_000_000;

/// Holds case 1 until so many others have passed, or for so many looks. Counts how often each case passes.
#[derive(Drop)]
pub struct Hold {
    // How many others case 1 waits for.
    wanted: u32,
    // How often each case passed, by its number. There is no case 0.
    times: Vec<AtomicU32>,
    // How many numbers passed that are of no case.
    strange: AtomicU32,
    // How many other cases passed before case 1 was let go.
    before: AtomicU32,
    let_go: AtomicBool,
    gave_up: AtomicBool,
}

impl Hold {
    /// A gate that none of so many cases has passed. It holds case 1 until so many others have.
    pub fn until(alloc: Global, cases: u32, wanted: u32) -> Result<Hold, AllocError> {
        let mut times = Vec::new(alloc);
        for _ in 0..cases {
            times.push(AtomicU32::new(0))?;
        }
        times.push(AtomicU32::new(0))?;
        Ok(Hold {
            wanted,
            times,
            strange: AtomicU32::new(0),
            before: AtomicU32::new(0),
            let_go: AtomicBool::new(false),
            gave_up: AtomicBool::new(false),
        })
    }

    /// Whether each case passed once, and nothing else did.
    pub fn each_once(&self) -> bool {
        if self.strange.load(SeqCst) != 0 {
            return false;
        }
        for (case, times) in self.times.iter().enumerate() {
            let wanted = if case == 0 { 0 } else { 1 };
            if times.load(SeqCst) != wanted {
                return false;
            }
        }
        true
    }

    /// How many other cases passed while case 1 wasn't let go.
    pub fn passed_before(&self) -> u32 {
        self.before.load(SeqCst)
    }

    /// Whether case 1 was let go without the others.
    pub fn gave_up(&self) -> bool {
        self.gave_up.load(SeqCst)
    }

    // Counts a call.
    fn count(&self, case: u32) {
        match self.times.get(case as usize) {
            Some(times) => {
                times.fetch_add(1, SeqCst);
            }
            None => {
                self.strange.fetch_add(1, SeqCst);
            }
        }
    }

    // Holds case 1.
    fn hold(&self) {
        for _ in 0..MOST_LOOKS {
            if self.before.load(SeqCst) >= self.wanted {
                self.let_go.store(true, SeqCst);
                return;
            }
        }
        self.gave_up.store(true, SeqCst);
        self.let_go.store(true, SeqCst);
    }
}

impl Gate for Hold {
    ghost use Rattle.std.specs.Prelude.{⊤};

    ghost passed = { λ gate case. ⊤ };

    fn pass(&self, case: u32) {
        self.count(case);
        if case == 1 {
            self.hold();
        } else if !self.let_go.load(SeqCst) {
            self.before.fetch_add(1, SeqCst);
        }
    }
}
