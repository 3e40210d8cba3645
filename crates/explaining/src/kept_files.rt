//! Files that are remembered as they are read.

ghost use Rattle.std.specs.Prelude.{◌≡◌, ◌≤◌, ◌+◌, min, IfErr, IfOk, OnOk, option_map};
ghost use Rattle.host.specs.Files.{Counts, FindsFile, HasFile, KeepsFiles};

use host::{Failure, FileFault, Files};
use std::alloc::Global;

/// What is known of a file that was to be read.
#[derive(Drop)]
pub(crate) enum Content {
    /// Its bytes.
    Bytes(Vec<u8>),
    /// There is no such file.
    Missing,
    /// It is there, and can't be read.
    Closed,
}

/// A file that was to be read.
#[derive(Drop)]
pub(crate) struct KeptFile {
    pub(crate) name: Vec<u8>,
    pub(crate) content: Content,
}

/// Files that are given, and what was read of them while they are to be kept, in the order in which they were first read. Each
/// call is handed on. A file that is to be read is looked for first, so that none is read twice. Where memory for a copy runs
/// out, it is not kept.
#[derive(Drop)]
pub struct KeptFiles<F> {
    inner: F,
    alloc: Global,
    is_keeping: bool,
    pub(crate) kept: Vec<KeptFile>,
}

/// What is known of the file of a name, where it was to be read.
pub(crate) fn find_kept<'a>(files: &'a [KeptFile], name: &str) -> Option<&'a Content> {
    for file in files {
        if file.name.as_slice() == name.as_bytes() {
            return Some(&file.content);
        }
    }
    None
}

/// The bytes of the file of a name, where it was read and kept.
pub(crate) fn kept_bytes<'a>(files: &'a [KeptFile], name: &str) -> Option<&'a [u8]> {
    match find_kept(files, name) {
        Some(Content::Bytes(bytes)) => Some(bytes.as_slice()),
        Some(Content::Missing | Content::Closed) | None => None,
    }
}

impl<F> KeptFiles<F> {
    /// Files that have kept nothing yet.
    pub fn new(alloc: Global, inner: F) -> KeptFiles<F>
        ensures { result.inner ≡ inner }
    {
        KeptFiles {
            inner,
            alloc,
            is_keeping: false,
            kept: Vec::new(alloc),
        }
    }

    /// From now on what is read is kept.
    pub fn keep(&mut self)
        ensures { self.new.inner ≡ self.old.inner }
    {
        self.is_keeping = true;
    }

    /// The files that were given.
    pub fn into_inner(self) -> F
        ensures { result ≡ self.inner }
    {
        let KeptFiles {
            inner,
            alloc: _,
            is_keeping: _,
            kept: _,
        } = self;
        inner
    }

    // Keeps what was found of a file, where it is the first time, and there is memory for a copy.
    fn add(&mut self, name: &str, found: &Result<Option<Vec<u8>>, Failure<FileFault>>)
        ensures { self.new.inner ≡ self.old.inner }
    {
        if find_kept(self.kept.as_slice(), name).is_some() {
            return;
        }
        let content = match found {
            Ok(Some(bytes)) => match Vec::from_slice(self.alloc, bytes.as_slice()) {
                Ok(copy) => Content::Bytes(copy),
                Err(_) => return,
            },
            Ok(None) => Content::Missing,
            Err(_) => Content::Closed,
        };
        if let Ok(name) = Vec::from_slice(self.alloc, name.as_bytes()) {
            let _ = self.kept.push(KeptFile { name, content });
        }
    }
}

impl<F: Files> KeptFiles<F> {
    /// Looks for a file, and keeps what is known of it, where that is not known yet.
    #[tactic(auto, using(host::proofs::FilesRead::files_stay, crate::proofs::Looked::counted_up, crate::proofs::Looked::not_down))]
    pub(crate) fn look_for(&mut self, name: &str)
        ensures kept { KeepsFiles (F.files self.old.inner) (F.files self.new.inner) }
        ensures most { F.failures self.new.inner ≤ F.failures self.old.inner + 1 }
        ensures least { min (F.failures self.old.inner) 18446744073709551615 ≤ F.failures self.new.inner }
    {
        if find_kept(self.kept.as_slice(), name).is_none() {
            let found = self.inner.find_file(name);
            self.add(name, &found);
        }
    }
}

impl<F: Files> Files for KeptFiles<F> {
    ghost failures = { λ kept. F.failures kept.inner };

    ghost files = { λ kept. F.files kept.inner };

    #[tactic(auto, using(host::proofs::FilesRead::stays_on, host::proofs::FilesRead::was_there))]
    fn read_file(&mut self, name: &str) -> Result<Vec<u8>, Failure<FileFault>> {
        if !self.is_keeping {
            return self.inner.read_file(name);
        }
        let found = self.inner.find_file(name);
        self.add(name, &found);
        match found {
            Ok(Some(bytes)) => Ok(bytes),
            Ok(None) => self.inner.read_file(name),
            Err(failure) => Err(failure),
        }
    }

    fn find_file(&mut self, name: &str) -> Result<Option<Vec<u8>>, Failure<FileFault>> {
        let found = self.inner.find_file(name);
        if self.is_keeping && matches!(found, Ok(Some(_))) {
            self.add(name, &found);
        }
        found
    }

    fn begin(&mut self, name: &str) -> Result<(), Failure<FileFault>> {
        self.inner.begin(name)
    }

    fn append(&mut self, name: &str, bytes: &[u8]) -> Result<usize, Failure<FileFault>> {
        self.inner.append(name, bytes)
    }
}
