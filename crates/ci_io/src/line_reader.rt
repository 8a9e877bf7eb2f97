ghost use Rattle.std.specs.Prelude.{◌≡◌, ◌≢◌, ◌+◌, ◌<◌, ◌≤◌, true, false, [], length, take, drop, IfOk, IfErr, OnOk, OnErr, IsErrOf};
ghost use Rattle.std.specs.Io.KnownBytes.{Keeps};
ghost use Rattle.ci_io.specs.Causes.{HasCause, Rose};
ghost use Rattle.ci_io.specs.Lines.{HasNoFeed, without_return};
ghost use Rattle.ci_io.specs.Reading.{Gathers, IsEndless, IsLong, IsShort, BeginsTooLong, IsBeforeEnd, LeavesSource, Loses, TakesAll, TakesFed, TakesLine, ahead};
ghost use Rattle.ci_io.specs.ReadLine.{Gives, Feeds, Finds, Passes};

use crate::line_buffer::LineBuffer;
use crate::line_end::{LineEnd, find_feed, trim_return};
use crate::{ENDLESS_BYTES, Failed, LINE_BYTES, Line, NoReader, ReadFault, Source};
use ci_base::{OutOfMemory, Text8};
use std::alloc::Global;
use std::marker::Model;

/// Reads a source line by line. Contracts see a `Reading`.
#[derive(Drop)]
pub struct LineReader<S: Source + Drop> {
    source: S,
    buffer: LineBuffer,
    ended: bool,
}

impl<S: Source + Drop> Model for LineReader<S> {
    ghost use Rattle.std.specs.Prelude.{◌≡◌, true};
    ghost use Rattle.ci_io.specs.Reading.{Reading, IsLastLine};

    ghost Value = { Reading };

    ghost view = { λ r. record {
      held = r.buffer;
      left = S.left r.source;
      faults = S.faults r.source;
      ended = r.ended;
    } };

    ghost invariant = { λ r. r.ended ≡ true → IsLastLine r.buffer (S.left r.source) };
}

impl<S: Source + Drop> LineReader<S> {
    /// A reader that has read nothing. All its memory but that of the lines is taken here.
    pub fn new(alloc: Global, source: S) -> Result<LineReader<S>, NoReader<S>>
        ensures ok { IfOk result (λ r. r ≡ record {
          held = [];
          left = S.left source;
          faults = S.faults source;
          ended = false;
        }) }
        ensures err { IfErr result (λ e. e.source ≡ source) }
    {
        match LineBuffer::new(alloc) {
            Ok(buffer) => Ok(LineReader {
                source,
                buffer,
                ended: false,
            }),
            Err(_) => Err(NoReader { source }),
        }
    }

    /// The source, as far as it was read. What the reader holds is given up: at most the longest
    /// line and its line feed.
    pub fn into_source(self) -> S
        ensures left { S.left result ≡ self.left }
        ensures faults { S.faults result ≡ self.faults }
        ensures held { length self.held ≤ 65537 }
    {
        let _held = self.buffer.held();
        self.source
    }

    /// Reads the next line. A line ends at a line feed, or at the end of the source where bytes are
    /// left. Once the source has told its end it is asked no more.
    pub fn read_line(&mut self, alloc: Global) -> Result<Line, ReadFault>
        ensures ok { IfOk result (Gives self.old self.new) }
        ensures short { IfOk result IsShort }
        ensures fed { IfOk result
            (λ line. self.new.ended ≡ false → Feeds self.old self.new line) }
        ensures last { OnOk result (self.new.ended ≡ true → TakesAll self.old self.new) }

        // A refused call loses nothing, but for the beginning of a long line.
        ensures err { OnErr result (Loses self.old self.new) }
        ensures memory { IsErrOf result ReadFault.OutOfMemory →
            Keeps (ahead self.old) (ahead self.new) }
        ensures failed { IsErrOf result ReadFault.Failed → Rose self.old.faults self.new.faults }
        ensures failed_within { IsErrOf result ReadFault.Failed → HasNoFeed self.new.held }
        ensures endless { IsErrOf result ReadFault.Endless → IsEndless self.old self.new }
        ensures too_long { IsErrOf result ReadFault.Endless → BeginsTooLong (ahead self.old) }

        ensures stays_ended { self.old.ended ≡ true → self.new.ended ≡ true }
        ensures unasked { self.old.ended ≡ true → LeavesSource self.old self.new }
        ensures failed_before_end { IsErrOf result ReadFault.Failed →
            IsBeforeEnd self.old self.new }
        ensures endless_before_end { IsErrOf result ReadFault.Endless →
            IsBeforeEnd self.old self.new }

        ensures later { self.old.faults ≤ self.new.faults }
        ensures kept { OnOk result (self.new.faults ≡ self.old.faults) }
        ensures steady { IfErr result
            (λ e. e ≢ ReadFault.Failed → self.new.faults ≡ self.old.faults) }
    {
        let found = self.find_end()?;
        let held = self.buffer.held().len();
        match found {
            LineEnd::Feed(feed) => {
                let text = self.hand_out(alloc, feed, feed + 1)?;
                Ok(Line::Text(text))
            }
            LineEnd::Source if held == 0 => Ok(Line::End),
            LineEnd::Source => {
                let text = self.hand_out(alloc, held, held)?;
                Ok(Line::Text(text))
            }
            LineEnd::Beyond => {
                self.pass_over()?;
                Ok(Line::Long)
            }
        }
    }

    // Holds the next line, or as much of it as a text may have and a byte more.
    fn find_end(&mut self) -> Result<LineEnd, Failed>
        ensures gathers { Gathers self.old self.new }
        ensures ok { IfOk result (Finds self.new) }
        ensures failed_within { OnErr result (HasNoFeed self.new.held) }
        ensures stays_ended { self.old.ended ≡ true → self.new.ended ≡ true }
        ensures unasked { self.old.ended ≡ true → LeavesSource self.old self.new }
        ensures before_end { OnErr result (IsBeforeEnd self.old self.new) }
        ensures cause { HasCause self.old.faults self.new.faults result }
    {
        // The search goes on behind what was searched, so that no byte is looked at twice.
        let mut searched = 0;
        loop {
            if let Some(feed) = find_feed(self.buffer.held(), searched) {
                return Ok(LineEnd::Feed(feed));
            }
            searched = self.buffer.held().len();
            if searched > LINE_BYTES {
                return Ok(LineEnd::Beyond);
            }
            // Here the buffer's room is the bound.
            if self.gather(ENDLESS_BYTES)? == 0 {
                return Ok(LineEnd::Source);
            }
        }
    }

    // Takes at most so many bytes more from the source, unless it has told its end. 0 is that end.
    fn gather(&mut self, most: usize) -> Result<usize, Failed>
        requires room { length self.old.held ≤ LINE_BYTES }
        requires whole { HasNoFeed self.old.held }
        requires some { 0 < most }
        ensures gathers { Gathers self.old self.new }
        ensures count { IfOk result (λ n. length self.new.held ≡ length self.old.held + n) }
        ensures bound { IfOk result (λ n. n ≤ most) }
        ensures ended { result ≡ Ok 0 →
            Finds self.new LineEnd.Source × (self.new.held ≡ self.old.held) }
        ensures more { IfOk result (λ n. n ≢ 0 → IsBeforeEnd self.old self.new) }
        ensures err { OnErr result (self.new.held ≡ self.old.held) }
        ensures before_end { OnErr result (IsBeforeEnd self.old self.new) }
        ensures unasked { self.old.ended ≡ true → LeavesSource self.old self.new }
        ensures cause { HasCause self.old.faults self.new.faults result }
    {
        if self.ended {
            return Ok(0);
        }
        let count = self.buffer.refill(&mut self.source, most)?;
        self.ended = count == 0;
        Ok(count)
    }

    // Takes the rest of a long line, up to its line feed or the end of the source.
    fn pass_over(&mut self) -> Result<(), ReadFault>
        requires untold { self.old.ended ≡ false }
        requires long { IsLong self.old.held }
        ensures ok { OnOk result (TakesLine (ahead self.old) (ahead self.new) Line.Long) }
        ensures fed { OnOk result (self.new.ended ≡ false →
            TakesFed (ahead self.old) (ahead self.new) Line.Long) }
        ensures last { OnOk result (self.new.ended ≡ true → TakesAll self.old self.new) }
        ensures err { OnErr result (Loses self.old self.new) }
        ensures held { OnErr result (self.new.held ≡ []) }
        ensures failed { IsErrOf result ReadFault.Failed → Rose self.old.faults self.new.faults }
        ensures endless { IsErrOf result ReadFault.Endless → IsEndless self.old self.new }
        ensures too_long { IsErrOf result ReadFault.Endless → BeginsTooLong (ahead self.old) }
        ensures before_end { OnErr result (IsBeforeEnd self.old self.new) }
        ensures later { self.old.faults ≤ self.new.faults }
        ensures kept { OnOk result (self.new.faults ≡ self.old.faults) }
        ensures steady { IfErr result
            (λ e. e ≢ ReadFault.Failed → self.new.faults ≡ self.old.faults) }
        ensures memory { IsErrOf result ReadFault.OutOfMemory → ⊥ }
    {
        let mut passed = self.buffer.held().len();
        self.buffer.release(passed);
        while passed < ENDLESS_BYTES {
            match self.pass_some(ENDLESS_BYTES - passed)? {
                Some(count) => passed += count,
                None => return Ok(()),
            }
        }
        Err(ReadFault::Endless)
    }

    // Takes at most so many bytes more of a long line, and answers how many. None: it has ended.
    fn pass_some(&mut self, most: usize) -> Result<Option<usize>, Failed>
        requires held { self.old.held ≡ [] }
        requires untold { self.old.ended ≡ false }
        requires some { 0 < most }
        ensures ok { IfOk result (Passes self.old self.new most) }
        ensures err { OnErr result (self.new.held ≡ []) }
        ensures left { OnErr result (Keeps self.old.left self.new.left) }
        ensures before_end { OnErr result (IsBeforeEnd self.old self.new) }
        ensures cause { HasCause self.old.faults self.new.faults result }
    {
        let count = self.gather(most)?;
        if count == 0 {
            return Ok(None);
        }
        match find_feed(self.buffer.held(), 0) {
            Some(feed) => {
                self.buffer.release(feed + 1);
                Ok(None)
            }
            None => {
                self.buffer.release(count);
                Ok(Some(count))
            }
        }
    }

    // Hands out the first `count` held bytes, of which the first `line` are a line.
    fn hand_out(&mut self, alloc: Global, line: usize, count: usize) -> Result<Text8, OutOfMemory>
        requires within { line ≤ count }
        requires held { count ≤ length self.old.held }
        ensures text { IfOk result (λ t. t ≡ without_return (take line self.old.held)) }
        ensures ok { OnOk result (self.new.held ≡ drop count self.old.held) }
        ensures err { OnErr result (self.new.held ≡ self.old.held) }
        ensures left { self.new.left ≡ self.old.left }
        ensures faults { self.new.faults ≡ self.old.faults }
        ensures ended { self.new.ended ≡ self.old.ended }
    {
        let text = Text8::of(alloc, trim_return(&self.buffer.held()[..line]))?;
        self.buffer.release(count);
        Ok(text)
    }
}
