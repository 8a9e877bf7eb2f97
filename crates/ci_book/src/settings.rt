ghost use Rattle.std.specs.Prelude.{◌≡◌, ◌≤◌, IfOk, codes};
ghost use Rattle.ci_book.specs.declared.settings.TheConstants.{JOURNAL_LEAST, JOURNAL_MOST, DOCUMENTS_LEAST, DOCUMENTS_MOST, RETRIES_LEAST, RETRIES_MOST};
ghost use Rattle.ci_words.specs.Noise.{standard_noise};

use ci_base::{OutOfMemory, Text};
use ci_words::NoiseList;
use std::alloc::Global;

/// The fewest bytes that a journal may be bounded by.
pub const JOURNAL_LEAST: u64 = 65_536;

/// The most bytes of a journal: far below 2^64, so that no sum of counts wraps.
pub const JOURNAL_MOST: u64 = 268_435_456;

/// The fewest documents that a catalogue may be bounded by.
pub const DOCUMENTS_LEAST: u32 = 1;

/// The most documents of a catalogue.
pub const DOCUMENTS_MOST: u32 = 262_144;

/// The fewest attempts at a document.
pub const RETRIES_LEAST: u32 = 1;

/// The most attempts at a document.
pub const RETRIES_MOST: u32 = 100;

/// The attempts at a document of a session that is told nothing.
pub const RETRIES_STANDARD: u32 = 4;

/// What a session is told at its start.
#[derive(Debug, Drop)]
pub struct Settings {
    /// The most bytes that the journal's events may count.
    pub journal: u64,
    /// The most paths that are ever noted.
    pub documents: u32,
    /// How often a document is tried before it is set aside.
    pub retries: u32,
    /// The words that are too common to be kept.
    pub noise: NoiseList,
    /// The daemon's program, as a spawner is told it.
    pub daemon: Text,
    ghost journal_low: { JOURNAL_LEAST ≤ journal },
    ghost journal_high: { journal ≤ JOURNAL_MOST },
    ghost documents_low: { DOCUMENTS_LEAST ≤ documents },
    ghost documents_high: { documents ≤ DOCUMENTS_MOST },
    ghost retries_low: { RETRIES_LEAST ≤ retries },
    ghost retries_high: { retries ≤ RETRIES_MOST },
}

impl Settings {
    /// The settings of a session that is told nothing.
    pub fn standard(alloc: Global) -> Result<Settings, OutOfMemory>
        ensures journal { IfOk result (λ s. s.journal ≡ JOURNAL_MOST) }
        ensures documents { IfOk result (λ s. s.documents ≡ DOCUMENTS_MOST) }
        ensures retries { IfOk result (λ s. s.retries ≡ 4) }
        ensures noise { IfOk result (λ s. s.noise ≡ standard_noise) }
        ensures daemon { IfOk result (λ s. s.daemon ≡ codes "./cidaemon") }
    {
        Ok(Settings {
            journal: JOURNAL_MOST,
            documents: DOCUMENTS_MOST,
            retries: RETRIES_STANDARD,
            noise: NoiseList::standard(alloc)?,
            daemon: Text::of(alloc, "./cidaemon")?,
        })
    }

    /// Other settings that equal these.
    pub fn copy(&self, alloc: Global) -> Result<Settings, OutOfMemory>
        ensures { IfOk result (λ s. s ≡ self.now) }
    {
        let noise = self.noise.copy(alloc)?;
        Ok(Settings {
            journal: self.journal,
            documents: self.documents,
            retries: self.retries,
            noise,
            daemon: self.daemon.copy(alloc)?,
        })
    }
}
