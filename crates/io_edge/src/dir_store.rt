// A store over the files of one folder. Nothing is known of what they hold.
ghost use Rattle.std.specs.Prelude.{◌≡◌, ◌≢◌, ◌≤◌, ◌++◌, None, Err, length, string_bytes, IfOk, OnOk, IsErrOf};
ghost use Rattle.io_edge.specs.Causes.{Rose, HasCause};
ghost use Rattle.io_edge.specs.Paths.{IsInFolder, path_in, name_beside};
ghost use Rattle.io_edge.specs.Texts.{HasText, HasLonger, KeepsOthers};

use crate::faults::Faults;
use crate::{Failed, ReadFault, StdSource, Store, StoreFault, read_all};
use net_types::Name;
use std::alloc::Global;
use std::fs::{File, Files, OpenFile, OpenOptions};
use std::io::{ErrorKind, Write};
use std::os::unix::fs::MetadataExt;
use std::{io, str};

/// A store of texts, each in the file of one folder that has its name. A text is written to a file
/// beside, flushed to the disk, and then put in its place by a rename: whoever reads sees the old
/// text or the new one, whole. No contract of std says what a file holds or when a call fails, so a
/// body that always fails would meet this one: tests show that it keeps and loads.
#[derive(Drop)]
pub struct DirStore<R: Files + Drop> {
    files: R,
    alloc: Global,
    folder: String,
    faults: Faults,
}

impl<R: Files + Drop> DirStore<R> {
    /// The store of that folder, with no fault so far.
    pub fn new(files: R, alloc: Global, folder: String) -> Self
        ensures texts { ⟦<DirStore<R> as Store>⟧.texts result ≡ None }
        ensures faults { ⟦<DirStore<R> as Store>⟧.faults result ≡ 0 }
    {
        DirStore {
            files,
            alloc,
            folder,
            faults: Faults::none(),
        }
    }

    /// The file of that name, if it is a plain file. No link is followed: what was opened has to be
    /// what stood there.
    fn open_text(&self, name: &Name) -> io::Result<R::File> {
        let path = text_path(self.alloc, self.folder.as_str(), name)?;
        let found = self.files.symlink_metadata(path.as_str())?;
        if !found.is_file() {
            return Err(io::Error::from(ErrorKind::InvalidInput));
        }
        let file = File::open(&self.files, path.as_str())?;
        let opened = file.metadata()?;
        if opened.ino() != found.ino() || opened.dev() != found.dev() {
            return Err(io::Error::from(ErrorKind::InvalidInput));
        }
        Ok(file)
    }

    /// Writes the text into a new file, and flushes it to the disk.
    fn write_new(&self, path: &str, bytes: &[u8]) -> io::Result<()> {
        let mut options = OpenOptions::new();
        options.write(true).create_new(true);
        let mut file = options.open(&self.files, path)?;
        let mut at = 0;
        while at < bytes.len() {
            let count = file.write(&bytes[at..])?;
            if count == 0 {
                return Err(io::Error::from(ErrorKind::WriteZero));
            }
            at += count;
        }
        file.flush()?;
        file.sync_all()
    }

    /// Takes away what an interrupted keep left beside, if there is anything.
    fn clear_beside(&self, path: &str) -> io::Result<()> {
        match self.files.remove_file(path) {
            Ok(()) => Ok(()),
            Err(error) => {
                if error.kind() == ErrorKind::NotFound {
                    Ok(())
                } else {
                    Err(error)
                }
            }
        }
    }

    /// Writes the text beside its file and puts it in its place. The folder is flushed too, so that
    /// the name outlives a crash.
    fn put_text(&self, name: &Name, bytes: &[u8]) -> io::Result<()> {
        let path = text_path(self.alloc, self.folder.as_str(), name)?;
        let beside = beside_path(self.alloc, self.folder.as_str(), name)?;
        self.clear_beside(beside.as_str())?;
        self.write_new(beside.as_str(), bytes)?;
        self.files.rename(beside.as_str(), path.as_str())?;
        let folder = File::open(&self.files, self.folder.as_str())?;
        folder.sync_all()
    }
}

impl<R: Files + Drop> Store for DirStore<R> {
    ghost texts = { λ _. None };

    ghost faults = { λ s. s.faults };

    /// That the path of the file can't be made for want of memory is a fault of the store too.
    fn load(&mut self, alloc: Global, name: &Name, limit: usize) -> Result<Vec<u8>, StoreFault> {
        let file = match self.open_text(name) {
            Ok(file) => file,
            Err(_) => return Err(self.faults.fail().into()),
        };
        let mut source = StdSource::new(file);
        match read_all(alloc, &mut source, limit) {
            Ok(text) => Ok(text),
            Err(ReadFault::Failed) => Err(self.faults.fail().into()),
            Err(ReadFault::TooLong) => Err(StoreFault::TooLong),
            Err(ReadFault::NoMemory) => Err(StoreFault::NoMemory),
        }
    }

    /// After a fault the old text stands, or the new one if only its name may not outlive a crash.
    fn keep(&mut self, name: &Name, bytes: &[u8]) -> Result<(), Failed> {
        match self.put_text(name, bytes) {
            Ok(()) => Ok(()),
            Err(_) => Err(self.faults.fail()),
        }
    }
}

/// The path of the name's text.
fn text_path(alloc: Global, folder: &str, name: &Name) -> io::Result<String>
    ensures path { IfOk result (λ path. string_bytes path ≡ path_in folder.now name.now) }
    ensures inside { IfOk result (λ path. IsInFolder folder.now (string_bytes path)) }
{
    joined(alloc, folder, "/", name.bytes())
}

/// The path of the file that the name's text is written to first. No name begins with a point, so
/// this is no text's file.
fn beside_path(alloc: Global, folder: &str, name: &Name) -> io::Result<String>
    ensures path { IfOk result (λ path. string_bytes path
        ≡ path_in folder.now (name_beside name.now)) }
    ensures inside { IfOk result (λ path. IsInFolder folder.now (string_bytes path)) }
{
    joined(alloc, folder, "/.new-", name.bytes())
}

/// The folder, what stands between, and the name.
fn joined(alloc: Global, folder: &str, between: &str, name: &[u8]) -> io::Result<String>
    ensures { IfOk result (λ path. string_bytes path ≡ folder.now ++ (between.now ++ name.now)) }
{
    let Ok(name) = str::from_utf8(name) else {
        return Err(io::Error::from(ErrorKind::InvalidInput));
    };
    let mut path = String::new(alloc);
    path.push_str(folder)?;
    path.push_str(between)?;
    path.push_str(name)?;
    Ok(path)
}
