use rd_base::NoMemory;
use std::alloc::Global;
use std::sync::Arc;
use std::sync::atomic::{AtomicBool, Ordering};

/// A flag that threads share.
#[derive(Drop)]
pub struct Flag {
    shared: Option<Arc<AtomicBool, Global>>,
}

impl Flag {
    /// A flag that isn't set.
    pub fn new(alloc: Global) -> Result<Flag, NoMemory> {
        match Arc::new(alloc, AtomicBool::new(false)) {
            Ok(shared) => Ok(Flag {
                shared: Some(shared),
            }),
            Err(_) => Err(NoMemory),
        }
    }

    /// The same flag. Where it is shared too often already, one that is set.
    pub fn share(&self) -> Flag {
        let Some(shared) = &self.shared else {
            return Flag { shared: None };
        };
        match Arc::try_clone(shared) {
            Ok(again) => Flag {
                shared: Some(again),
            },
            Err(_) => Flag { shared: None },
        }
    }

    pub fn set(&self) {
        if let Some(shared) = &self.shared {
            shared.store(true, Ordering::SeqCst);
        }
    }

    pub fn is_set(&self) -> bool {
        match &self.shared {
            Some(shared) => shared.load(Ordering::SeqCst),
            None => true,
        }
    }
}
