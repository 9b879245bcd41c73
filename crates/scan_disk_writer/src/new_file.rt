//! Files of the system that stand under their name only when they are whole.
ghost use Rattle.std.specs.Prelude.{None, true};

use crate::bytes_out::BytesOut;
use crate::fault::{OutFault, WriteFault};
use std::alloc::Global;
use std::fs::{self, File, Files, OpenFile};
use std::io::Write;

/// A file that is written beside its name, and moved there when it is whole.
#[derive(Drop)]
pub struct NewFile<T> {
    file: T,
    part: String,
    path: String,
}

impl<T: Write + OpenFile + Drop> NewFile<T> {
    /// Begins a file of this path, under a name of its own beside it: the path, and `.part`.
    ///
    /// # Errors
    /// `Failed` where the file can't be made, and `NoMemory`.
    pub fn create<R: Files<File = T>>(
        alloc: Global,
        files: &R,
        path: &str,
    ) -> Result<NewFile<T>, WriteFault> {
        let part = format!(in alloc; "{path}.part")?;
        let path = String::from_str(alloc, path)?;
        match File::create(files, part.as_str()) {
            Ok(file) => Ok(NewFile { file, part, path }),
            Err(_) => Err(WriteFault::Failed),
        }
    }

    /// Moves the file to its path, once all of it is on disk.
    ///
    /// # Errors
    /// `Failed`, after which there is nothing new at the path, and the name beside it is free where that can be had.
    pub fn move_there<R: Files<File = T>>(self, files: &R) -> Result<(), WriteFault> {
        if self.file.sync_all().is_err() {
            self.remove(files);
            return Err(WriteFault::Failed);
        }
        match fs::rename(files, self.part.as_str(), self.path.as_str()) {
            Ok(()) => Ok(()),
            Err(_) => {
                self.remove(files);
                Err(WriteFault::Failed)
            }
        }
    }

    /// Takes away what was written.
    pub fn remove<R: Files<File = T>>(self, files: &R) {
        let _gone = fs::remove_file(files, self.part.as_str());
    }
}

impl<T: Write + Drop> BytesOut for NewFile<T> {
    ghost taken = { λ file. None };

    ghost can_fail = { true };

    fn append(&mut self, bytes: &[u8]) -> Result<(), OutFault> {
        match self.file.write_all(bytes) {
            Ok(()) => Ok(()),
            Err(_) => Err(OutFault::Failed),
        }
    }
}
