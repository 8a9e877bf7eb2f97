ghost use Rattle.std.specs.Prelude.{◌≡◌, ◌↔◌, Contains, IfOk};
ghost use Rattle.ci_base.specs.declared.numbers.Place.{Place};
ghost use Rattle.ci_keys.specs.declared.key.Key.{Key};
ghost use Rattle.ci_keys.specs.Entry.{StandsAt};
ghost use Rattle.ci_entry.specs.Entry.{entry_of};
ghost use Rattle.ci_entry.specs.Words.{stands};

use crate::value::values_of;
use crate::word::words_of;
use ci_base::OutOfMemory;
use ci_chunk::Transcript;
use ci_keys::Entry;
use ci_words::NoiseList;
use std::alloc::Global;

/// The entry of a transcript, under a list of noise words.
pub fn entry_of(
    alloc: Global,
    transcript: &Transcript,
    noise: &NoiseList,
) -> Result<Entry, OutOfMemory>
    ensures entry { IfOk result (λ entry. entry ≡ entry_of noise.now transcript.now) }

    // Its words are just those that stand in the transcript, at their places.
    ensures words { IfOk result (λ entry. (key : Key) (place : Place) →
        StandsAt entry.words key place
        ↔ Contains (stands noise.now transcript.now) (key, place)) }
{
    let pieces = transcript.items();
    let words = words_of(alloc, pieces, noise)?;
    let values = values_of(alloc, pieces)?;
    Ok(Entry::new(words, values))
}

/// A transcript with its entry.
#[derive(Debug, Drop)]
pub struct Filtering {
    pub transcript: Transcript,
    pub entry: Entry,
}

impl Filtering {
    /// The transcript with its entry under a list of noise words.
    pub fn of(
        alloc: Global,
        transcript: Transcript,
        noise: &NoiseList,
    ) -> Result<Filtering, OutOfMemory>
        ensures transcript { IfOk result (λ filtering. filtering.transcript ≡ transcript) }
        ensures entry { IfOk result (λ filtering. filtering.entry ≡ entry_of noise.now transcript) }
    {
        let entry = entry_of(alloc, &transcript, noise)?;
        Ok(Filtering { transcript, entry })
    }

    /// Another filtering that equals this one.
    pub fn copy(&self, alloc: Global) -> Result<Filtering, OutOfMemory>
        ensures { IfOk result (λ filtering. filtering ≡ self.now) }
    {
        Ok(Filtering {
            transcript: self.transcript.copy(alloc)?,
            entry: self.entry.copy(alloc)?,
        })
    }
}
