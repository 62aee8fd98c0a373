//! The frames of synchronized methods of a thread, in memory that is taken once.
ghost use Rattle.std.specs.Prelude.{◌≡◌, ◌<◌, [], ◌∷◌, length, drop, slice_get, option_map, IfOk};
ghost use Rattle.jc_monitor_world.specs.Seen.{frame_of};

use jc_bytes::Memory;
use std::alloc::Global;
use std::marker::Model;

/// How many frames a thread has at most.
const MOST_FRAMES: usize = 128;

/// A frame of a synchronized method.
#[derive(Clone, Copy, Debug)]
pub struct SynchronizedFrame {
    /// How deep it is among the frames of its thread.
    pub depth: u32,
    /// The class whose lock it has taken.
    pub class: u32,
}

/// The frames of synchronized methods of a thread that have taken a lock.
#[derive(Drop)]
pub struct SynchronizedFrames {
    // The lowest first, and behind them room for the others.
    slots: Vec<SynchronizedFrame>,
    count: usize,
}

impl Model for SynchronizedFrames {
    ghost use Rattle.jc_monitor_world.specs.Kept.{FramesSeen};

    ghost Value = { FramesSeen };

    ghost use Rattle.jc_monitor_world.specs.Kept.{frames_of, AreRoomyFrames};

    ghost view = { frames_of };

    ghost invariant = { AreRoomyFrames };
}

impl SynchronizedFrames {
    /// No frame. No later call takes memory.
    ///
    /// # Errors
    ///
    /// `Memory` where memory was refused.
    pub fn new(alloc: Global) -> Result<SynchronizedFrames, Memory>
        ensures { IfOk result (λ frames. frames.frames ≡ []) }
    {
        let unused = SynchronizedFrame { depth: 0, class: 0 };
        Ok(SynchronizedFrames {
            slots: vec![in alloc; unused; MOST_FRAMES]?,
            count: 0,
        })
    }

    /// The deepest of them, if there is one.
    pub fn deepest(&self) -> Option<SynchronizedFrame>
        ensures { option_map frame_of result ≡ slice_get self.now.frames 0 }
    {
        if self.count == 0 {
            return None;
        }
        Some(self.slots[self.count - 1])
    }

    /// One frame more.
    pub fn enter(&mut self, frame: SynchronizedFrame)
        requires { length self.old.frames < 128 }
        ensures { self.new ≡ record self.old { frames = frame_of frame ∷ self.old.frames } }
    {
        self.slots[self.count] = frame;
        self.count += 1;
    }

    /// The deepest of them is left, if there is one.
    pub fn leave(&mut self)
        ensures { self.new ≡ record self.old { frames = drop 1 self.old.frames } }
    {
        self.count = self.count.saturating_sub(1);
    }
}
