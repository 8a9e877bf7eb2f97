ghost use Rattle.std.specs.Prelude.{◌≡◌, ◌≤◌, ◌⊎◌, IfOk, IfNone, IfSome, None, length, option_map};
ghost use Rattle.ci_chunk.specs.Talk.{init_answer, chunk_answer, text_answer, value_answer, value_bytes};
ghost use Rattle.ci_chunk.specs.Statuses.{last_text, last_values, s_ok, unknown_format};
ghost use Rattle.ci_chunk.specs.declared.talk.Call.TheVariants as calls;
ghost use Rattle.ci_filters.specs.Reading.{fresh};
ghost use Rattle.ci_filters.specs.Talking.{IsAnswered};

use crate::format::FILE_BYTES;
use crate::{Document, Format};
use ci_base::{OutOfMemory, PathText, Text, Text8, Value};
use ci_chunk::{FilterStop, StatChunk, Status};
use ci_files::{FileFault, Files};
use std::alloc::Global;
use std::marker::Model;

/// A filter of the documents of one format, which reads them from these files. Contracts see a
/// `Reader`.
#[derive(Drop)]
pub struct FormatFilter<F: Files, M: Format> {
    files: F,
    format: M,
    document: Option<Document>,
}

impl<F: Files, M: Format> Model for FormatFilter<F, M> {
    ghost use Rattle.ci_filters.specs.Talking.{Reader};

    ghost Value = { Reader };

    ghost view = { λ f. record {
      told = F.holds f.files;
      faults = F.faults f.files;
      document = f.document;
    } };
}

impl<F: Files, M: Format> FormatFilter<F, M> {
    /// A filter with no document open.
    pub fn new(files: F, format: M) -> FormatFilter<F, M>
        ensures { result ≡ record {
          told = F.holds files;
          faults = F.faults files;
          document = None;
        } }
    {
        FormatFilter {
            files,
            format,
            document: None,
        }
    }

    // The answer to Init. The document that was open is closed, unless memory is refused.
    pub(crate) fn begin(
        &mut self,
        alloc: Global,
        flags: u32,
        path: &PathText,
    ) -> Result<Status, OutOfMemory>
        ensures { IsAnswered M.format self.old (calls.Init flags path.now) (init_answer result)
            self.new }
    {
        if !self.format.accepts(path) {
            self.document = None;
            return Ok(Status::FILTER_E_UNKNOWNFORMAT);
        }
        match self.files.read(alloc, path.as_str(), FILE_BYTES) {
            Err(FileFault::OutOfMemory) => Err(OutOfMemory),
            Err(FileFault::Failed) => {
                self.document = None;
                Ok(Status::FILTER_E_ACCESS)
            }
            Ok(bytes) => {
                self.document = read_document(alloc, &self.format, path, bytes)?;
                Ok(opening_status(&self.document))
            }
        }
    }

    // The answer to GetChunk.
    pub(crate) fn chunk(&mut self) -> Result<StatChunk, FilterStop>
        ensures { IsAnswered M.format self.old calls.GetChunk (chunk_answer result) self.new }
    {
        match &mut self.document {
            None => Err(FilterStop::Status(Status::FILTER_E_END_OF_CHUNKS)),
            Some(document) => document.get_chunk(),
        }
    }

    // The answer to GetText.
    pub(crate) fn text(&mut self, alloc: Global, max: u32) -> Result<(Status, Text), FilterStop>
        ensures answered { IsAnswered M.format self.old (calls.GetText max) (text_answer result)
            self.new }
        ensures status { IfOk result (λ given. (given.0 ≡ s_ok) ⊎ (given.0 ≡ last_text)) }
        ensures short { IfOk result (λ given. length given.1 ≤ 65536) }
    {
        match &mut self.document {
            None => Err(FilterStop::Status(Status::FILTER_E_END_OF_CHUNKS)),
            Some(document) => document.get_text(alloc, max),
        }
    }

    // The answer to GetValue.
    pub(crate) fn value(&mut self) -> Result<(Status, Value), FilterStop>
        ensures answered { IsAnswered M.format self.old calls.GetValue (value_answer result)
            self.new }
        ensures status { IfOk result (λ given. (given.0 ≡ s_ok) ⊎ (given.0 ≡ last_values)) }
        ensures short { IfOk result (λ given. value_bytes given.1 ≤ 65536) }
    {
        match &mut self.document {
            None => Err(FilterStop::Status(Status::FILTER_E_END_OF_CHUNKS)),
            Some(document) => document.get_value(),
        }
    }
}

// The document of a file with these bytes, with nothing told of it.
fn read_document<M: Format>(
    alloc: Global,
    format: &M,
    path: &PathText,
    bytes: Text8,
) -> Result<Option<Document>, OutOfMemory>
    requires { length bytes ≤ FILE_BYTES }
    ensures { IfOk result (λ document.
        document ≡ option_map fresh (M.format.items path.now bytes)) }
{
    match format.items(alloc, path, bytes)? {
        Some(items) => Ok(Some(Document::new(items))),
        None => Ok(None),
    }
}

fn opening_status(document: &Option<Document>) -> Status
    ensures some { IfSome document.now (λ _. result ≡ s_ok) }
    ensures none { IfNone document.now (result ≡ unknown_format) }
{
    match document {
        Some(_) => Status::S_OK,
        None => Status::FILTER_E_UNKNOWNFORMAT,
    }
}
