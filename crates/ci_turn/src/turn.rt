ghost use Rattle.std.specs.Prelude.{◌≡◌, ◌^◌, ◌≤◌};

use crate::law::{Law, Opening};
use crate::stands::Stands;
use crate::view::View;
use atomic_table::Table;
use std::alloc::Global;

/// The ticket that is never drawn: where a ticket would be this, the lock is worn.
pub(crate) const LAST: u64 = 1 << 62;

/// A lock with one value, which its seats take in the order of their tickets.
#[derive(Drop)]
pub struct Turn<V: Stands> {
    pub(crate) table: Table<Option<V>, View<V::Event, V::Fixed>, Opening<V>, Law, Global>,
    pub(crate) first: u64,
    ghost sized: { (table.shared.table_id.words ≡ 3) × (table.shared.table_id.slots ≡ 1) },
    ghost starts: { first ≤ 2 ^ 62 },
}
