use ci_io::Sink;
use ci_journal::Journal;

/// What is left of a catalogue that was closed.
#[derive(Drop)]
pub struct Closed<K: Sink + Drop> {
    pub journal: Journal,
    pub sink: K,
}
