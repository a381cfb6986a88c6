ghost use Rattle.std.specs.Prelude.{◌≡◌, ◌≤◌, length, IfOk, None};

use rd_base::{Bytes, FileFail};
use std::alloc::Global;
use std::fs;
use std::io::{ErrorKind, Read};

/// Files by their paths. It tells nothing of what they hold.
#[derive(Drop)]
pub struct DiskFiles<'a, R: std::rt::Files> {
    rt: &'a R,
    faults: u64,
}

impl<'a, R: std::rt::Files> DiskFiles<'a, R> {
    pub fn new(rt: &'a R) -> DiskFiles<'a, R> {
        DiskFiles { rt, faults: 0 }
    }
}

impl<'a, R: std::rt::Files> rd_base::Files for DiskFiles<'a, R> {
    ghost tells = { λ f. record { files = None; faults = f.faults } };

    fn read_all(&mut self, alloc: Global, name: &str, most: usize) -> Result<Bytes, FileFail> {
        match read_file(self.rt, alloc, name, most) {
            Err(FileFail::Failed) => {
                self.faults = self.faults.saturating_add(1);
                Err(FileFail::Failed)
            }
            answer => answer,
        }
    }
}

/// All bytes of a file that has no more than these.
fn read_file<R: std::rt::Files>(
    rt: &R,
    alloc: Global,
    name: &str,
    most: usize,
) -> Result<Bytes, FileFail>
    ensures { IfOk result (λ bytes. length bytes ≤ most) }
{
    let mut file = match fs::open(rt, name) {
        Ok(file) => file,
        Err(_) => return Err(FileFail::Failed),
    };
    let mut bytes = Bytes::new(alloc);
    let mut chunk = [0u8; 4096];
    'reads: for _ in 0..u64::MAX {
        let count = match file.read(&mut chunk) {
            Ok(count) => count,
            Err(error) if error.kind() == ErrorKind::Interrupted => continue,
            Err(_) => return Err(FileFail::Failed),
        };
        if count == 0 {
            return Ok(bytes);
        }
        if count > most - bytes.len() {
            return Err(FileFail::TooLong);
        }
        bytes.push_slice(&chunk[..count])?;
    }
    Err(FileFail::Failed)
}

#[cfg(test)]
mod tests {
    use super::*;
    use rd_base::Files;
    use std::process;
    use std::test::Fail;

    #[test]
    fn reads_a_file_or_counts_a_fault(rt: HostRuntime) -> Result<(), Fail> {
        let alloc = rt.alloc();
        let path = format!(in alloc; "/tmp/rddr-test-{}", process::id(rt.process()))?;
        fs::write(&rt, path.as_str(), b"ok 1\n")?;
        let mut files = DiskFiles::new(&rt);
        let whole = files.read_all(alloc, path.as_str(), 5)?;
        assert_eq!(rt; whole.as_slice(), b"ok 1\n".as_slice());
        let longer = files.read_all(alloc, path.as_str(), 4).err();
        assert_eq!(rt; longer, Some(FileFail::TooLong));
        assert_eq!(rt; files.faults, 0);
        fs::remove_file(&rt, path.as_str())?;
        let gone = files.read_all(alloc, path.as_str(), 5).err();
        assert_eq!(rt; gone, Some(FileFail::Failed));
        assert_eq!(rt; files.faults, 1);
        Ok(())
    }
}
