ghost use Rattle.std.specs.Prelude.{◌≡◌, ◌++◌, false, IfErr, IfOk, OnOk};
ghost use Rattle.ug_real.specs.SendQueues.{IsUnsent, waiting};

use crate::send_queue::{SendQueue, Unsent};
use std::alloc::{AllocError, Global};
use std::marker::Model;
use std::sync::Arc;

/// Shortest length, in bytes, of a frame that send queues share.
const SHARED: usize = 1 << 16;

/// Bytes that several send queues hold without a copy.
#[derive(Drop)]
pub struct SharedBytes {
    place: Arc<Vec<u8>>,
}

impl Model for SharedBytes {
    ghost use Rattle.std.specs.Arc.{arc_value};
    ghost use Rattle.std.specs.Prelude.{List, ℕ};

    ghost Value = { List ℕ };

    ghost view = { λ bytes. (arc_value bytes.place).items };
}

impl SharedBytes {
    /// Copies the bytes to a place of their own.
    pub fn new(alloc: Global, bytes: &[u8]) -> Result<SharedBytes, AllocError>
        ensures { IfOk result (λ own. own ≡ bytes.now) }
    {
        let copy = Vec::from_slice(alloc, bytes)?;
        let place = Arc::new(alloc, copy)?;
        Ok(SharedBytes { place })
    }

    /// Returns the bytes.
    pub fn bytes(&self) -> &[u8]
        ensures { result.now ≡ self.now }
    {
        self.place.as_slice()
    }

    /// Returns another holder of the same place.
    pub fn share(&self) -> Result<SharedBytes, AllocError>
        ensures { IfOk result (λ shared. shared ≡ self.now) }
    {
        let place = Arc::try_clone(&self.place)?;
        Ok(SharedBytes { place })
    }
}

/// The last long frame that was queued for a child that has not connected. The children of a run
/// are all sent the same model first, so its bytes are kept once until they connect.
#[derive(Drop)]
pub struct SharedFrame {
    alloc: Global,
    last: Option<SharedBytes>,
}

impl SharedFrame {
    /// Returns no frame yet.
    pub fn new(alloc: Global) -> SharedFrame {
        SharedFrame { alloc, last: None }
    }

    /// Frees the frame, as far as no send queue holds it.
    pub fn clear(&mut self) {
        drop(self.last.take());
    }

    // Returns a holder of the bytes: the last frame if it is the same, or a new one.
    fn holder(&mut self, bytes: &[u8]) -> Result<SharedBytes, AllocError>
        ensures { IfOk result (λ own. own ≡ bytes.now) }
    {
        if let Some(last) = &self.last {
            if last.bytes() == bytes {
                return last.share();
            }
        }
        let made = SharedBytes::new(self.alloc, bytes)?;
        let kept = made.share()?;
        drop(self.last.replace(kept));
        Ok(made)
    }

    /// Adds the bytes to a send queue, which shares them if they are a long frame.
    pub fn queue(&mut self, send_queue: &mut SendQueue, bytes: &[u8]) -> Result<(), Unsent>
        ensures ok { OnOk result (send_queue.old.is_closed ≡ false
            → waiting send_queue.new ≡ waiting send_queue.old ++ bytes.now) }
        ensures err { IfErr result (IsUnsent send_queue.old send_queue.new) }
    {
        if bytes.len() < SHARED {
            return send_queue.push(bytes);
        }
        match self.holder(bytes) {
            Ok(own) => send_queue.push_shared(own),
            Err(_) => Err(Unsent::Memory),
        }
    }
}
