use ci_io::Sink;

/// There was no memory for a catalogue. The sink is handed back.
#[derive(Drop)]
pub struct NoCatalog<K: Sink + Drop> {
    pub sink: K,
}
