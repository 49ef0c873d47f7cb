// Files by name, and standard input.
ghost use Rattle.std.specs.Prelude.{◌≡◌, ◌≤◌, ℕ, List, IfOk, IfErr, refl};
ghost use Rattle.units.specs.Provides.{unread_of};
ghost use Rattle.units.specs.declared.unread.Unread.{Unread};
ghost use Rattle.requests.specs.ReadFiles.{FileFacts, FileNamed, Origin, StandardInput};
ghost use Rattle.requests.specs.SystemFiles.{IsOpened, system_facts};

use either::Either;
use std::alloc::{AllocError, Global};
use std::io::{self, Input};
use units::reader_source::ReaderSource;
use units::source::ByteSource;
use units::unread::Unread;

/// Why a file can't be read.
#[derive(Clone, Copy, Debug, PartialEq, Eq)]
pub enum OpenFault {
    /// It can't be opened, for this reason.
    Cannot(Unread),
    /// An allocation failed.
    Memory,
}

impl From<AllocError> for OpenFault {
    ghost use Rattle.std.specs.Prelude.{◌≡◌};
    ghost use Rattle.requests.specs.declared.files.OpenFault.TheVariants.{Memory};

    ghost from_gives = { λ _ fault. fault ≡ Memory };

    fn from(_error: AllocError) -> Self {
        OpenFault::Memory
    }
}

/// Files that can be opened by name, and standard input. `facts` states what reading each of them gives, with a limit
/// on the number of bytes.
pub trait Files {
    /// The source of the bytes of a file or of standard input.
    type Source: ByteSource + Drop;

    // The source was opened as a named file or as standard input, with this limit on its bytes.
    ghost opens: { Self → Origin → ℕ → Self.Source → Type 0 };

    // Which of them can't be opened, the bytes that each begins with, all bytes of each, where each fails, and why.
    ghost facts: { Self → FileFacts };

    // Why a source failed.
    ghost why: { Self.Source → Unread };

    /// Opens the file of this name as a source. A read after the first `most` bytes fails. Fails with `Cannot` if the
    /// file does not exist or can't be opened, with the reason, and with `Memory` if an allocation fails.
    fn file(&self, alloc: Global, name: &str, most: u64) -> Result<Self::Source, OpenFault>
        ensures opened { IfOk result (opens self.now (FileNamed name.now) most) }
        ensures limit { IfOk result (λ source. Self.Source.most_remaining source ≤ most) }
        ensures cannot { IfErr result (λ fault. (unread : Unread) → fault ≡ OpenFault.Cannot unread
            → (facts self.now).Rejects (FileNamed name.now) most unread) };

    /// Opens standard input as a source. A read after the first `most` bytes fails. The faults are the same.
    fn input(&self, alloc: Global, most: u64) -> Result<Self::Source, OpenFault>
        ensures opened { IfOk result (opens self.now StandardInput most) }
        ensures limit { IfOk result (λ source. Self.Source.most_remaining source ≤ most) }
        ensures cannot { IfErr result (λ fault. (unread : Unread) → fault ≡ OpenFault.Cannot unread
            → (facts self.now).Rejects StandardInput most unread) };

    /// Returns why a read of this source failed. If none has failed, the result has no meaning.
    fn unread(&self, source: &Self::Source) -> Unread
        ensures { result ≡ why source.now };

    ghost gave: { (files : Self) (origin : Origin) (most : ℕ) (opened now : Self.Source) (bytes : List ℕ)
        → opens files origin most opened → Self.Source.gives opened bytes now →
        (facts files).Begins origin most bytes };

    ghost gave_all: { (files : Self) (origin : Origin) (most : ℕ) (opened now : Self.Source) (bytes : List ℕ)
        → opens files origin most opened → Self.Source.gives opened bytes now → Self.Source.ended now
        → (facts files).Holds origin most bytes };

    ghost gave_up: { (files : Self) (origin : Origin) (most : ℕ) (opened now : Self.Source) (bytes : List ℕ)
        → opens files origin most opened → Self.Source.gives opened bytes now → Self.Source.failures now ≡ 1
        → (facts files).Fails origin most bytes (why now) };
}

/// The files and the standard input of the system.
#[derive(Drop)]
pub struct SystemFiles<'a, R: std::rt::Files + Input> {
    rt: &'a R,
}

impl<'a, R: std::rt::Files + Input> SystemFiles<'a, R> {
    /// Wraps the files that the runtime opens, and its standard input.
    pub fn new(rt: &'a R) -> Self
        ensures { result.rt ≡ rt.entry }
    {
        SystemFiles { rt }
    }
}

impl<'a, R: std::rt::Files + Input> Files for SystemFiles<'a, R> {
    type Source = ReaderSource<Either<R::File, R::Reader>>;

    // The clauses don't state what a file of the system or its standard input contains, or why it can't be opened.
    ghost opens = { λ _ _ most source. IsOpened most source };

    ghost facts = { λ _. system_facts };

    ghost why = { λ source. unread_of source.state };

    ghost gave = { λ _ _ most opened now bytes as_named given.
        record { opened = opened; now = now; as_named = as_named; given = given } };

    ghost gave_all = { λ _ _ most opened now bytes as_named given whole.
        record { opened = opened; now = now; as_named = as_named; given = given; whole = whole } };

    ghost gave_up = { λ _ _ most opened now bytes as_named given failed.
        record { opened = opened; now = now; as_named = as_named; given = given; failed = failed; why = refl } };

    fn file(&self, _alloc: Global, name: &str, most: u64) -> Result<Self::Source, OpenFault> {
        match std::fs::open(self.rt, name) {
            Ok(file) => Ok(ReaderSource::new(Either::Left(file), most)),
            Err(error) => match error.kind() {
                io::ErrorKind::OutOfMemory => Err(OpenFault::Memory),
                kind => Err(OpenFault::Cannot(Unread::by_kind(kind))),
            },
        }
    }

    fn input(&self, _alloc: Global, most: u64) -> Result<Self::Source, OpenFault> {
        Ok(ReaderSource::new(Either::Right(self.rt.reader()), most))
    }

    fn unread(&self, source: &Self::Source) -> Unread {
        source.unread()
    }
}
