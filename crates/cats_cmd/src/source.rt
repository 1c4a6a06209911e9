//! Where the program opens its files, and writes texts.

ghost use Rattle.std.specs.Prelude.{◌≡◌, ℕ, List, [], ◌∷◌, Option, None, IfErr, IfOk, false};
ghost use Rattle.cats_cmd.specs.Folders.{Finds, found_of};
ghost use Rattle.cats_cmd.specs.Opening.{KeepsFiles, Opening, Opens};
ghost use Rattle.cats_cmd.specs.Stores.{MayHave, Text, Writes, path_in};

use crate::folder::files_below;
pub use crate::writing::path_in;
use crate::writing::{is_taken_in, make_folder, write_new};
use commands::faults::{Unopened, Unwritten};
use std::alloc::{Alloc, AllocError, Global};
use std::fs;
use std::fs::OpenFile;
use std::io::{ErrorKind, Read};
use std::rt::Files;

/// A place in which files are opened and texts are written: that of the system, or one that a test makes up.
///
/// It says which streams it may open at a path, and for which reason it may refuse one, by what it holds, which no
/// opening changes. So a contract can speak of the file at a path of the command line. It may also know which paths were
/// opened so far, in order, each in which way, with those that it refused. So it may know which texts were written, and it
/// says for which reason it may not write one. What was written is not among the files that it opens.
pub trait Source {
    ghost use Rattle.commands.specs.declared.faults.Unopened.{Unopened};
    ghost use Rattle.commands.specs.declared.faults.Unwritten.{Unwritten};

    type Stream: Read + Drop;

    ghost Content: { Type 0 };

    ghost content_of: { Self → Content };

    ghost may_open: { Content → List ℕ → Self.Stream → Type 0 };

    ghost may_refuse: { Content → List ℕ → Unopened → Type 0 };

    ghost may_find: { Content → List ℕ → Option (List (List ℕ)) → Type 0 };

    ghost opened: { Self → Option (List Opening) };

    ghost may_not_write: { Content → List ℕ → Unwritten → Type 0 };

    ghost texts: { Self → Option (List Text) };

    /// Opens what is at a path, in a way.
    fn open(&mut self, path: &str, way: Way) -> Result<Self::Stream, Unopened>
        ensures opened { IfOk result (Self.may_open (Self.content_of self.old) path.now) }
        ensures refused { IfErr result (Self.may_refuse (Self.content_of self.old) path.now) }
        ensures opens { Opens Self.content_of Self.opened self.old self.new ((path.now, way) ∷ []) }
        ensures unwritten { Self.texts self.new ≡ Self.texts self.old };

    /// If a folder is at a path, the paths of the files below it, each once, with the folder's own path before it. No file
    /// is opened. Where one of the folders below cannot be read, its path is among them. Without a folder that can be read
    /// there is none.
    fn find(&self, alloc: Global, path: &str) -> Result<Option<Vec<Vec<u8>>>, AllocError>
        ensures { IfOk result (λ found. Finds (Self.may_find (Self.content_of self.now)) path.now (found_of found)) };

    /// Makes a folder for texts, and those above it, if they are not there.
    fn make_folder(&mut self, folder: &str) -> Result<(), Unwritten>
        ensures unmade { IfErr result (Self.may_not_write (Self.content_of self.old) folder.now) }
        ensures keeps { KeepsFiles Self.content_of Self.opened self.old self.new }
        ensures unwritten { Self.texts self.new ≡ Self.texts self.old };

    /// Whether something may be at a path below a folder.
    fn is_taken(&self, alloc: Global, folder: &str, path: &str) -> Result<bool, AllocError>
        ensures { IfOk result (MayHave (Self.may_not_write (Self.content_of self.now)) (Self.texts self.now)
            (path_in folder.now path.now)) };

    /// Writes a text at a path below a folder, if nothing is there. Then all of it is there, and else nothing that was not.
    fn write_new(
        &mut self,
        alloc: Global,
        folder: &str,
        path: &str,
        text: &[u8],
    ) -> Result<Result<(), Unwritten>, AllocError>
        ensures writes { Writes Self.texts (Self.may_not_write (Self.content_of self.old)) (path_in folder.now path.now)
            text.now self.old self.new result }
        ensures keeps { KeepsFiles Self.content_of Self.opened self.old self.new };
}

/// How a path is opened.
#[derive(Clone, Copy, PartialEq, Eq, Debug)]
pub enum Way {
    /// Whatever is there. A folder may be opened too; then reading it fails.
    Anything,
    /// A folder is refused.
    NoFolder,
    /// A folder, a device and a FIFO are refused, and not opened: to open a FIFO may take for ever.
    Regular,
}

/// The files of the system. No contract can say what they hold, so any stream may be opened at any path; and nothing is
/// kept of the paths that were opened or written.
#[derive(Clone, Copy)]
pub struct SystemFiles<'a, F> {
    files: &'a F,
}

impl<'a, F> SystemFiles<'a, F> {
    pub fn new(files: &'a F) -> SystemFiles<'a, F> {
        SystemFiles { files }
    }
}

impl<F: Files> Source for SystemFiles<'_, F> {
    type Stream = F::File;

    ghost Content = { Unit {0} };

    ghost content_of = { λ _. tt };

    ghost may_open = { λ _ _ _. Unit {0} };

    ghost may_refuse = { λ _ _ _. Unit {0} };

    ghost may_find = { λ _ _ _. Unit {0} };

    ghost opened = { λ _. None };

    ghost may_not_write = { λ _ _ _. Unit {0} };

    ghost texts = { λ _. None };

    fn open(&mut self, path: &str, way: Way) -> Result<F::File, Unopened> {
        match way {
            Way::Anything => open(self.files, path),
            Way::NoFolder => open_file(self.files, path),
            Way::Regular => open_regular(self.files, path),
        }
    }

    fn find(&self, alloc: Global, path: &str) -> Result<Option<Vec<Vec<u8>>>, AllocError> {
        files_below(self.files, alloc, path)
    }

    fn make_folder(&mut self, folder: &str) -> Result<(), Unwritten> {
        make_folder(self.files, folder)
    }

    fn is_taken(&self, alloc: Global, folder: &str, path: &str) -> Result<bool, AllocError> {
        is_taken_in(self.files, alloc, folder, path)
    }

    fn write_new(
        &mut self,
        alloc: Global,
        folder: &str,
        path: &str,
        text: &[u8],
    ) -> Result<Result<(), Unwritten>, AllocError> {
        write_new(self.files, alloc, folder, path, text)
    }
}

fn open<F: Files>(files: &F, path: &str) -> Result<F::File, Unopened> {
    match fs::open(files, path) {
        Ok(file) => Ok(file),
        Err(error) => Err(reason(error.kind())),
    }
}

fn open_file<F: Files>(files: &F, path: &str) -> Result<F::File, Unopened> {
    let file = open(files, path)?;
    match file.metadata() {
        Ok(metadata) if metadata.is_dir() => Err(folder_reason(files, path)),
        _ => Ok(file),
    }
}

fn open_regular<F: Files>(files: &F, path: &str) -> Result<F::File, Unopened> {
    match fs::metadata(files, path) {
        Ok(metadata) if metadata.is_file() => open(files, path),
        Ok(metadata) if metadata.is_dir() => Err(folder_reason(files, path)),
        Ok(_) => Err(Unopened::NotAFile),
        Err(error) => Err(reason(error.kind())),
    }
}

/// The reason by which an error of the system is reported.
fn reason(kind: ErrorKind) -> Unopened {
    match kind {
        ErrorKind::NotFound => Unopened::NoSuchFile,
        ErrorKind::PermissionDenied => Unopened::PermissionDenied,
        _ => Unopened::Other,
    }
}

/// Why the folder at a path is refused. One that can be read is so as a folder.
fn folder_reason<F: Files>(files: &F, path: &str) -> Unopened {
    match files.open_dir(path) {
        Err(error) if error.kind() == ErrorKind::PermissionDenied => Unopened::PermissionDenied,
        _ => Unopened::IsFolder,
    }
}

impl<F: Alloc<A = Global>> Alloc for SystemFiles<'_, F> {
    type A = Global;

    fn alloc(&self) -> Global {
        self.files.alloc()
    }
}
