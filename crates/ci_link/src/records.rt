ghost use Rattle.std.specs.Prelude.{◌≡◌, ◌++◌, [], ◌∷◌, IfOk, OnOk};

use crate::LinkRecord;
use crate::record_room::RecordRoom;
use ci_base::OutOfMemory;
use std::alloc::Global;
use std::marker::Model;
use std::{fmt, mem};

/// The records of links that were given back, in order. Contracts see the list.
#[cycle(records)]
#[derive(Drop)]
pub struct Records {
    chain: Chain,
}

/// Nothing, or one record more than before.
#[cycle(records)]
#[derive(Drop)]
enum Chain {
    Start,
    Added(Box<Records>, LinkRecord),
}

impl Model for Records {
    ghost use Rattle.std.specs.Prelude.{List, length};
    ghost use Rattle.ci_link.specs.declared.record.LinkRecord.{LinkRecord};

    ghost Value = { List LinkRecord };

    ghost use Rattle.ci_link.specs.Chain.{records_of};

    ghost view = { λ r. records_of r.chain };

    ghost size = { length };

    ghost use Rattle.std.proofs.Common.{arith, length-append};

    ghost size_decreases = { λ a h. Prim.grind (arith, length-append) };
}

impl Records {
    /// No records, and no memory taken.
    pub(crate) fn new() -> Records
        ensures { result ≡ [] }
    {
        Records {
            chain: Chain::Start,
        }
    }

    /// Appends one record, in the memory that its link brought.
    pub(crate) fn add(&mut self, memory: RecordRoom, entry: LinkRecord)
        ensures { self.new ≡ self.old ++ entry ∷ [] }
    {
        let mut room = memory.room;
        *room = mem::replace(self, Records::new());
        self.chain = Chain::Added(room, entry);
    }

    /// Other records, which contracts see as equal to these.
    pub fn copy(&self, alloc: Global) -> Result<Records, OutOfMemory>
        ensures { IfOk result (λ r. r ≡ self.now) }
    {
        match &self.chain {
            Chain::Start => Ok(Records::new()),
            Chain::Added(before, record) => {
                let before = Box::new(alloc, before.copy(alloc)?)?;
                Ok(Records {
                    chain: Chain::Added(before, record.copy(alloc)?),
                })
            }
        }
    }

    /// A list of copies of them.
    pub fn to_vec(&self, alloc: Global) -> Result<Vec<LinkRecord>, OutOfMemory>
        ensures { IfOk result (λ v. v.items ≡ self.now) }
    {
        let mut list = Vec::new(alloc);
        self.copy_to(alloc, &mut list)?;
        Ok(list)
    }

    fn copy_to(&self, alloc: Global, list: &mut Vec<LinkRecord>) -> Result<(), OutOfMemory>
        ensures { OnOk result (list.new.items ≡ list.old.items ++ self.now) }
    {
        match &self.chain {
            Chain::Start => Ok(()),
            Chain::Added(before, record) => {
                before.copy_to(alloc, list)?;
                list.push(record.copy(alloc)?)?;
                Ok(())
            }
        }
    }
}

impl fmt::Debug for Records {
    fn fmt<W: fmt::Write>(&self, f: &mut fmt::Formatter<W>) -> fmt::Result {
        write!(f, "Records")
    }
}
