ghost use Rattle.std.specs.Prelude.{◌≡◌, IfOk};
ghost use Rattle.ci_keys.specs.Postings.{IsPostings};

use crate::Places;
use ci_base::{DocNo, OutOfMemory};
use std::alloc::Global;
use std::marker::Model;

/// The documents that have a word, each with the word's places in it. Contracts see the list, in
/// which the numbers of the documents ascend.
#[derive(Debug, Drop)]
pub struct Postings {
    list: Vec<(DocNo, Places)>,
}

impl Model for Postings {
    ghost use Rattle.std.specs.Prelude.{List};
    ghost use Rattle.ci_base.specs.declared.numbers.DocNo.{DocNo};
    ghost use Rattle.ci_base.specs.declared.numbers.Place.{Place};
    ghost use Rattle.ci_keys.specs.Postings.{IsPostings};

    ghost Value = { List (DocNo × List Place) };

    ghost view = { λ p. p.list.items };

    ghost invariant = { λ p. IsPostings p.list.items };
}

impl Postings {
    /// These postings, without a copy.
    pub fn new(list: Vec<(DocNo, Places)>) -> Postings
        requires { IsPostings list.items }
        ensures { result ≡ list.items }
    {
        Postings { list }
    }

    pub fn items(&self) -> &[(DocNo, Places)]
        ensures items { result.now ≡ self.now }
        ensures postings { IsPostings self.now }
    {
        self.list.as_slice()
    }

    /// The same postings once more.
    pub fn copy(&self, alloc: Global) -> Result<Postings, OutOfMemory>
        ensures { IfOk result (λ p. p ≡ self.now) }
    {
        Ok(Postings {
            list: copy_postings(alloc, self.list.as_slice())?,
        })
    }

    /// The postings as a `Vec`, without a copy.
    pub fn into_vec(self) -> Vec<(DocNo, Places)>
        ensures items { result.items ≡ self }
        ensures postings { IsPostings self }
    {
        self.list
    }
}

fn copy_postings(
    alloc: Global,
    postings: &[(DocNo, Places)],
) -> Result<Vec<(DocNo, Places)>, OutOfMemory>
    ensures { IfOk result (λ copied. copied.items ≡ postings.now) }
{
    let mut copied = Vec::new(alloc);
    for (doc, places) in postings {
        copied.push((*doc, places.copy(alloc)?))?;
    }
    Ok(copied)
}
