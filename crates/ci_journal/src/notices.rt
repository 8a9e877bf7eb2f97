ghost use Rattle.std.specs.Prelude.{◌≡◌, ◌++◌, [], ◌∷◌, IfOk, OnOk, OnErr};

use ci_base::OutOfMemory;
use ci_change::Notice;
use std::alloc::Global;
use std::marker::Model;

/// A list of notices. Contracts see the list.
#[derive(Debug, Drop)]
pub struct Notices {
    notices: Vec<Notice>,
}

impl Model for Notices {
    ghost use Rattle.std.specs.Prelude.{List};
    ghost use Rattle.ci_change.specs.declared.notice.Notice.{Notice};

    ghost Value = { List Notice };

    ghost view = { λ n. n.notices.items };
}

impl Notices {
    /// No notice, and no memory taken.
    pub fn new(alloc: Global) -> Notices
        ensures { result ≡ [] }
    {
        Notices {
            notices: Vec::new(alloc),
        }
    }

    /// Appends a notice.
    pub fn add(&mut self, notice: Notice) -> Result<(), OutOfMemory>
        ensures ok { OnOk result (self.new ≡ self.old ++ notice ∷ []) }
        ensures err { OnErr result (self.new ≡ self.old) }
    {
        self.notices.push(notice)?;
        Ok(())
    }

    pub fn items(&self) -> &[Notice]
        ensures { result.now ≡ self.now }
    {
        self.notices.as_slice()
    }

    /// Another list of the same notices.
    pub fn copy(&self, alloc: Global) -> Result<Notices, OutOfMemory>
        ensures { IfOk result (λ notices. notices ≡ self.now) }
    {
        let mut copied = Notices::new(alloc);
        for notice in self.notices.iter() {
            copied.add(notice.copy(alloc)?)?;
        }
        Ok(copied)
    }
}

impl From<Vec<Notice>> for Notices {
    ghost from_gives = { λ v n. n ≡ v.items };

    fn from(notices: Vec<Notice>) -> Notices {
        Notices { notices }
    }
}
