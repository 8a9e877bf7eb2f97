ghost use Rattle.std.specs.Prelude.{◌≡◌, ◌≢◌, IfOk};
ghost use Rattle.ci_io.specs.Reading.{IsShort};
ghost use Rattle.ci_journal.specs.Requests.{request_of, text_request, argument_request, word_request, changed_request, deleted_request, put_request, load_request, IsAskable};

use crate::Request;
use crate::number::read_load;
use ci_base::{OutOfMemory, PathFault, PathText, Text};
use ci_io::Line;
use std::alloc::Global;

impl Request {
    /// Reads the request of a line.
    pub fn read(alloc: Global, line: &Line) -> Result<Request, OutOfMemory>
        requires line { line.now ≢ Line.End }
        requires short { IsShort line.now }
        ensures ok { IfOk result (λ request. request ≡ request_of line.now) }
        ensures askable { IfOk result IsAskable }
    {
        match line {
            Line::Text(bytes) => match str::from_utf8(bytes.items()) {
                Ok(text) => read_text(alloc, text),
                Err(_) => Ok(Request::Bad),
            },
            Line::Long => Ok(Request::Long),
            Line::End => unreachable!(),
        }
    }
}

fn read_text(alloc: Global, line: &str) -> Result<Request, OutOfMemory>
    ensures { IfOk result (λ request. request ≡ text_request line.now) }
{
    match line.split_once(' ') {
        Some((word, argument)) => read_argument(alloc, word, argument),
        None => Ok(read_word(line)),
    }
}

fn read_word(word: &str) -> Request
    ensures { result ≡ word_request word.now }
{
    match word {
        "filter" => Request::Filter,
        "shadow" => Request::Shadow,
        "master" => Request::Master,
        "step" => Request::Step,
        "scan" => Request::Scan,
        "pending" => Request::Pending,
        "unfiltered" => Request::Unfiltered,
        "status" => Request::Status,
        "wait" => Request::Wait,
        "quit" => Request::Quit,
        _ => Request::Bad,
    }
}

fn read_argument(alloc: Global, word: &str, argument: &str) -> Result<Request, OutOfMemory>
    ensures { IfOk result (λ request. request ≡ argument_request word.now argument.now) }
{
    match word {
        "changed" => read_changed(alloc, argument),
        "deleted" => read_deleted(alloc, argument),
        "put" => read_put(alloc, argument),
        "query" => Ok(Request::Query(Text::of(alloc, argument)?)),
        "load" => Ok(read_load(argument)),
        _ => Ok(Request::Bad),
    }
}

fn read_changed(alloc: Global, path: &str) -> Result<Request, OutOfMemory>
    ensures { IfOk result (λ request. request ≡ changed_request path.now) }
{
    match PathText::read(alloc, path.as_bytes()) {
        Ok(path) => Ok(Request::Changed(path)),
        Err(PathFault::BadPath) => Ok(Request::Bad),
        Err(PathFault::OutOfMemory) => Err(OutOfMemory),
    }
}

fn read_deleted(alloc: Global, path: &str) -> Result<Request, OutOfMemory>
    ensures { IfOk result (λ request. request ≡ deleted_request path.now) }
{
    match PathText::read(alloc, path.as_bytes()) {
        Ok(path) => Ok(Request::Deleted(path)),
        Err(PathFault::BadPath) => Ok(Request::Bad),
        Err(PathFault::OutOfMemory) => Err(OutOfMemory),
    }
}

fn read_put(alloc: Global, argument: &str) -> Result<Request, OutOfMemory>
    ensures { IfOk result (λ request. request ≡ put_request argument.now) }
{
    let Some((path, text)) = argument.split_once(' ') else {
        return Ok(Request::Bad);
    };
    match PathText::read(alloc, path.as_bytes()) {
        Ok(path) => Ok(Request::Put {
            path,
            text: Text::of(alloc, text)?,
        }),
        Err(PathFault::BadPath) => Ok(Request::Bad),
        Err(PathFault::OutOfMemory) => Err(OutOfMemory),
    }
}
