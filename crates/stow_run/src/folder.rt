//! Where the program's files are.
use std::fs::File;
use std::io;
use std::io::Read;
use std::rt::Files;

/// Where files are opened.
pub trait Folder {
    type File: Read + Drop;

    /// Opens the file of this path, to be read.
    fn open(&self, path: &str) -> io::Result<Self::File>;
}

/// The system's own files.
#[derive(Clone, Copy)]
pub struct System<'a, R> {
    pub rt: &'a R,
}

impl<R: Files> Folder for System<'_, R> {
    type File = R::File;

    fn open(&self, path: &str) -> io::Result<R::File> {
        File::open(self.rt, path)
    }
}
