ghost use Rattle.std.specs.Prelude.{◌≡◌, IfOk};

use ci_base::{OutOfMemory, Text};
use std::alloc::Global;
use std::marker::Model;

/// A place of a phrase.
#[derive(Debug, Drop)]
pub enum Slot {
    /// This word stands here.
    Word(Text),
    /// Any word stands here.
    Open,
}

impl Slot {
    /// Another slot that equals this one.
    pub fn copy(&self, alloc: Global) -> Result<Slot, OutOfMemory>
        ensures { IfOk result (λ s. s ≡ self.now) }
    {
        match self {
            Slot::Word(word) => Ok(Slot::Word(word.copy(alloc)?)),
            Slot::Open => Ok(Slot::Open),
        }
    }
}

/// The places of a phrase, in order. Contracts see the list.
#[derive(Debug, Drop)]
pub struct Slots {
    list: Vec<Slot>,
}

impl Model for Slots {
    ghost use Rattle.std.specs.Prelude.{List};
    ghost use Rattle.ci_dialect.specs.declared.slots.Slot.{Slot as Place};

    ghost Value = { List Place };

    ghost view = { λ s. s.list.items };
}

impl Slots {
    /// These places, without a copy.
    pub fn new(list: Vec<Slot>) -> Slots
        ensures { result ≡ list.items }
    {
        Slots { list }
    }

    pub fn items(&self) -> &[Slot]
        ensures { result.now ≡ self.now }
    {
        self.list.as_slice()
    }

    /// The same places once more.
    pub fn copy(&self, alloc: Global) -> Result<Slots, OutOfMemory>
        ensures { IfOk result (λ s. s ≡ self.now) }
    {
        Ok(Slots {
            list: copy_slots(alloc, self.items())?,
        })
    }

    /// The places as a `Vec`, without a copy.
    pub fn into_vec(self) -> Vec<Slot>
        ensures { result.items ≡ self }
    {
        self.list
    }
}

fn copy_slots(alloc: Global, slots: &[Slot]) -> Result<Vec<Slot>, OutOfMemory>
    ensures { IfOk result (λ copied. copied.items ≡ slots.now) }
{
    let mut copied = Vec::new(alloc);
    for slot in slots {
        copied.push(slot.copy(alloc)?)?;
    }
    Ok(copied)
}
