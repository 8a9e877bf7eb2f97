ghost use Rattle.std.specs.Prelude.{◌≡◌, IfOk};
ghost use Rattle.ci_journal.specs.Requests.{is_quit};

use ci_base::{OutOfMemory, PathText, Text};
use std::alloc::Global;

/// What a line asks for.
#[derive(Debug, PartialEq, Eq, Drop)]
pub enum Request {
    /// The document was changed, and has to be filtered.
    Changed(PathText),
    /// The document was deleted.
    Deleted(PathText),
    /// Take the text as the filtering of the document.
    Put { path: PathText, text: Text },
    /// Which documents satisfy the query?
    Query(Text),
    /// Filter all documents that wait for it.
    Filter,
    /// Make the word lists a shadow.
    Shadow,
    /// Merge the index into one.
    Master,
    /// Begin to merge it into one, or make the next step of that.
    Step,
    /// Note what is in the folder, and what has gone from it.
    Scan,
    /// Which notices are pending?
    Pending,
    /// Which documents are set aside?
    Unfiltered,
    /// How many documents are there, and what is the index made of?
    Status,
    /// Put so many generated documents.
    Load { seed: u64, count: u32 },
    /// Say when all earlier requests have their replies.
    Wait,
    /// End the session.
    Quit,
    /// The line is none of the known ones.
    Bad,
    /// The line has too many bytes.
    Long,
}

impl Request {
    /// Whether the request ends the session.
    pub fn is_quit(&self) -> bool
        ensures { result ≡ is_quit self.now }
    {
        matches!(self, Request::Quit)
    }

    /// Another request that equals this one.
    pub fn copy(&self, alloc: Global) -> Result<Request, OutOfMemory>
        ensures { IfOk result (λ request. request ≡ self.now) }
    {
        Ok(match self {
            Request::Changed(path) => Request::Changed(path.copy(alloc)?),
            Request::Deleted(path) => Request::Deleted(path.copy(alloc)?),
            Request::Put { path, text } => Request::Put {
                path: path.copy(alloc)?,
                text: text.copy(alloc)?,
            },
            Request::Query(text) => Request::Query(text.copy(alloc)?),
            Request::Filter => Request::Filter,
            Request::Shadow => Request::Shadow,
            Request::Master => Request::Master,
            Request::Step => Request::Step,
            Request::Scan => Request::Scan,
            Request::Pending => Request::Pending,
            Request::Unfiltered => Request::Unfiltered,
            Request::Status => Request::Status,
            Request::Load { seed, count } => Request::Load {
                seed: *seed,
                count: *count,
            },
            Request::Wait => Request::Wait,
            Request::Quit => Request::Quit,
            Request::Bad => Request::Bad,
            Request::Long => Request::Long,
        })
    }
}
