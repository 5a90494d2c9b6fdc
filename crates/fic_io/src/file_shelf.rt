//! The files of the system as a shelf.

ghost use Rattle.std.specs.Prelude.{◌≡◌, ◌≤◌, ℕ, List, Option, None, [], IfOk, length};
ghost use Rattle.fic_io.specs.Known.{file_faults, file_last};

use crate::shelf::{Shelf, ShelfFault};
use std::fs;
use std::io::Read;

/// The files of the system, by their paths. It tells no bytes; what it reads is what the system hands out.
#[derive(Drop)]
pub struct FileShelf {
    rt: HostRuntime,
    faults: u64,
    last: String,
}

impl FileShelf {
    /// A shelf over the files that this process can open. It takes no memory.
    pub fn new(rt: HostRuntime) -> FileShelf
        ensures { (file_faults result ≡ 0) × (file_last result ≡ []) }
    {
        let last = String::new(rt.alloc());
        FileShelf {
            rt,
            faults: 0,
            last,
        }
    }

    // The first bytes of a file, at most `limit`.
    fn load(&self, name: &str, limit: u64) -> Result<Vec<u8>, ShelfFault>
        ensures { IfOk result (λ bytes. length bytes.items ≤ limit) }
    {
        let mut bytes = Vec::new(self.rt.alloc());
        let Ok(mut file) = fs::open(&self.rt, name) else {
            return Err(ShelfFault::Failed);
        };
        let mut buffer = [0u8; 4096];
        for _ in 0..1u64 << 32 {
            let Ok(count) = file.read(&mut buffer) else {
                return Err(ShelfFault::Failed);
            };
            let left = limit.saturating_sub(bytes.len() as u64);
            let count = count.min(left as usize);
            if count == 0 {
                return Ok(bytes);
            }
            if bytes.extend_from_slice(&buffer[..count]).is_err() {
                return Err(ShelfFault::Memory);
            }
        }
        Err(ShelfFault::Failed)
    }
}

impl Shelf for FileShelf {
    ghost told = { λ s name. None };

    ghost faults = { λ s. file_faults s };

    ghost last = { λ s. file_last s };

    fn read(&mut self, name: &str, limit: u64, into: &mut Vec<u8>) -> Result<(), ShelfFault> {
        let Ok(kept) = String::from_str(self.rt.alloc(), name) else {
            return Err(ShelfFault::Memory);
        };
        match self.load(name, limit) {
            Ok(bytes) => match into.extend_from_slice(bytes.as_slice()) {
                Ok(()) => Ok(()),
                Err(_) => Err(ShelfFault::Memory),
            },
            Err(ShelfFault::Memory) => Err(ShelfFault::Memory),
            Err(ShelfFault::Failed) => {
                self.last = kept;
                self.faults = self.faults.saturating_add(1);
                Err(ShelfFault::Failed)
            }
        }
    }
}
