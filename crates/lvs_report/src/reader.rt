//! Reading the lines of a report one after the other.
ghost use Rattle.std.specs.Prelude.{◌≡◌, ◌++◌, ◌∷◌, [], ℕ, None, Some, Ok, Err, OnOk, IfOk};
ghost use Rattle.lvs_report.specs.Reader.{nothing_read, with_read, with_line};
ghost use Rattle.lvs_model.specs.ReportReading.{outside_listing, continued, is_end, report_line_read, onto, ended};

use crate::line::line_of;
use crate::refused::{ReportRefused, Stop};
use lvs_types::{Bytes, NoMemory, ReportLine, Shown, ShownText};
use std::alloc::Global;
use std::marker::Model;

/// A listing whose end wasn't read.
#[derive(Drop)]
pub(crate) struct OpenListing {
    kind: Shown,
    text: Vec<u8>,
}

impl Model for OpenListing {
    ghost use Rattle.lvs_types.specs.declared.book.ShownText.{ShownText};

    ghost Value = { ShownText };

    ghost view = { λ l. record { kind = l.kind; text = l.text.items } };
}

impl OpenListing {
    fn new(listing: ShownText) -> OpenListing
        ensures { result ≡ listing }
    {
        OpenListing {
            kind: listing.kind,
            text: listing.text.into_vec(),
        }
    }

    fn push_line(&mut self, line: &[u8]) -> Result<(), NoMemory>
        ensures { OnOk result (self.new ≡ record self.old { text = self.old.text ++ line.now ++ 10 ∷ [] }) }
    {
        self.text.extend_from_slice(line)?;
        self.text.push(b'\n')?;
        Ok(())
    }

    fn close(self) -> ShownText
        ensures { result ≡ self }
    {
        ShownText {
            kind: self.kind,
            text: Bytes::from_vec(self.text),
        }
    }
}

fn is_end(line: &[u8]) -> bool
    ensures { result ≡ is_end line.now }
{
    line == b"end".as_slice()
}

/// A reader of lines: what is whole, and the listing that is open.
#[derive(Drop)]
pub(crate) struct ReportReader {
    alloc: Global,
    lines: Vec<ReportLine>,
    listing: Option<OpenListing>,
}

impl Model for ReportReader {
    ghost use Rattle.lvs_report.specs.Reader.{ReadSoFar};

    ghost Value = { ReadSoFar };

    ghost view = { λ r. record { lines = r.lines.items; open_listing = r.listing } };
}

impl ReportReader {
    /// Nothing was read.
    pub(crate) fn new(alloc: Global) -> ReportReader
        ensures { result ≡ nothing_read }
    {
        ReportReader {
            alloc,
            lines: Vec::new(alloc),
            listing: None,
        }
    }

    /// A head and an act are whole with their line, a listing is open behind its first one.
    fn take_begun(&mut self, line: ReportLine) -> Result<(), NoMemory>
        requires { self.old.open_listing ≡ None }
        ensures { OnOk result (self.new ≡ with_read self.old (outside_listing line)) }
    {
        match line {
            ReportLine::Shown(listing) => self.listing = Some(OpenListing::new(listing)),
            whole => self.lines.push(whole)?,
        }
        Ok(())
    }

    /// A line outside listings.
    fn take_outside(&mut self, line: &[u8]) -> Result<(), Stop>
        requires { self.old.open_listing ≡ None }
        ensures ok { OnOk result (with_line self.old line.now ≡ Some self.new) }
        ensures refused { result ≡ Err Stop.Unreadable → report_line_read None line.now ≡ None }
    {
        match line_of(self.alloc, line)? {
            None => Err(Stop::Unreadable),
            Some(line) => Ok(self.take_begun(line)?),
        }
    }

    /// A line within a listing.
    fn take_inside(&mut self, mut listing: OpenListing, line: &[u8]) -> Result<(), NoMemory>
        requires { self.old.open_listing ≡ None }
        ensures { OnOk result (self.new ≡ with_read self.old (continued listing line.now)) }
    {
        if is_end(line) {
            self.lines.push(ReportLine::Shown(listing.close()))?;
        } else {
            listing.push_line(line)?;
            self.listing = Some(listing);
        }
        Ok(())
    }

    /// The next line.
    pub(crate) fn take_line(&mut self, line: &[u8]) -> Result<(), Stop>
        ensures ok { OnOk result (with_line self.old line.now ≡ Some self.new) }
        ensures refused { result ≡ Err Stop.Unreadable → report_line_read self.old.open_listing line.now ≡ None }
    {
        match self.listing.take() {
            None => self.take_outside(line),
            Some(listing) => Ok(self.take_inside(listing, line)?),
        }
    }

    /// The whole report, where nothing stands behind the last line feed and no listing is open.
    /// The line of that number would be the next one.
    pub(crate) fn finish(self, number: u64, last: &[u8]) -> Result<Vec<ReportLine>, ReportRefused>
        ensures ok { IfOk result (λ lines. onto self.lines (ended number self.open_listing last.now) ≡ Ok lines.items) }
        ensures refused { (at : ℕ) → result ≡ Err (ReportRefused.Unreadable at) → onto self.lines (ended number self.open_listing last.now) ≡ Err at }
    {
        if last.is_empty() && self.listing.is_none() {
            Ok(self.lines)
        } else {
            Err(ReportRefused::Unreadable { line: number })
        }
    }
}
