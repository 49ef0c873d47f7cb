// A text that is printed paragraph by paragraph.
ghost use Rattle.printing.specs.UnfinishedParagraphs.{IsUnfinished};

use crate::passed::Passed;
use crate::settings::Settings;
use crate::unfinished::Unfinished;
use lines::scratch::Scratch;
use std::alloc::Global;
use units::memory::Memory;

/// A text that is being printed: what it is printed with, and its unfinished paragraph.
#[derive(Drop)]
pub(crate) struct Begun<'t> {
    pub(crate) settings: Settings<'t>,
    pub(crate) paragraph: Unfinished,
    ghost unfinished: { IsUnfinished settings.tables.now paragraph },
}

impl<'t> Begun<'t> {
    ghost use Rattle.std.specs.Prelude.{◌≡◌, IfOk};
    ghost use Rattle.printing.specs.UnfinishedParagraphs.{chars_so_far};

    /// Begins with the first paragraph, still without characters.
    pub(crate) fn new(alloc: Global, settings: Settings<'t>) -> Result<Begun<'t>, Memory>
        ensures settings { IfOk result (λ begun. begun.settings ≡ settings.entry) }
        ensures new { IfOk result (λ begun. chars_so_far begun.paragraph ≡ 0) }
    {
        let scratch = Scratch::reserve(alloc, 0)?;
        Ok(Begun {
            settings,
            paragraph: Unfinished {
                passed: Passed {
                    paragraphs: 0,
                    characters: 0,
                },
                chars: Vec::new(alloc),
                units: Vec::new(alloc),
                scratch,
            },
        })
    }
}
