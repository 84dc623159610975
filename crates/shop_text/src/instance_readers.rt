// Reads an instance text line by line, and the names that its text lines give to instances.
ghost use Rattle.std.specs.{Prelude.{◌≡◌, ℕ, ◌≤◌, List, length, map, MatchOption, Some, None}, List.list_all};
ghost use Rattle.shop_text.specs.{Formats.{grammar_of, header_of, is_visible, orlib, taillard, routes}, Names.IsRead};
ghost use Rattle.shop_text.specs.{Lines.{Numbered, Numbers, Words, line_of, tokens_of}, Texts.lines_left};
ghost use Rattle.shop_text.specs.inner.LineReading.{capped, lines_after, IsBehind};
ghost use Rattle.shop_text.specs.inner.InstanceReading.{IsReadUpTo, Takes, Ends};

use crate::faults::ReadFault;
use crate::formats::Format;
use crate::instance_drafts::Draft;
use crate::limits::MAX_TEXT;
use crate::lines::{next_line, next_number, next_token};
use crate::names::Named;
use std::alloc::Global;

/// Returns whether `token` has bytes from 33 to 126 alone, as a name does.
fn is_name(token: &[u8]) -> bool
    ensures { result ≡ list_all is_visible token.now }
{
    token.iter().all(|b| 33 <= *b && *b <= 126)
}

/// Returns the name in a line `instance NAME`; `None` if the line is another.
fn name_in(line: &[u8]) -> Option<&[u8]>
    ensures { MatchOption result (header_of (Words (tokens_of line.now)) ≡ None)
        (λ n. header_of (Words (tokens_of line.now)) ≡ Some n.now) }
{
    let (word, rest) = next_token(line)?;
    let (name, rest) = next_token(rest)?;
    if next_token(rest).is_none() && word == b"instance".as_slice() && is_name(name) {
        Some(name)
    } else {
        None
    }
}

/// Returns the name that a text line gives to an instance in `format`; `None` if it gives none.
fn header_in(format: Format, line: &[u8]) -> Option<&[u8]>
    ensures { MatchOption result ((grammar_of format).header (Words (tokens_of line.now)) ≡ None)
        (λ n. (grammar_of format).header (Words (tokens_of line.now)) ≡ Some n.now) }
{
    match format {
        Format::Orlib | Format::Routes => name_in(line),
        Format::Taillard => None,
    }
}

/// The instances read so far, the name of the last header after them, and the draft of the next instance.
#[derive(Drop)]
struct Reader {
    format: Format,
    named: Vec<Named>,
    name: Option<String>,
    draft: Draft,
}

impl Reader {
    /// Reads a text line, and keeps the name that it gives, if any. Fails with `BadRow` if the line is between rows, or
    /// with `NoMemory` if memory runs out.
    fn take_words(
        &mut self,
        alloc: Global,
        line: usize,
        name: Option<&[u8]>,
    ) -> Result<(), ReadFault>
        ensures { (front : List Numbered) (words : List (List ℕ)) → IsReadUpTo self.old front
            → MatchOption name.entry ((grammar_of self.old.format).header (Words words) ≡ None)
            (λ n. (grammar_of self.old.format).header (Words words) ≡ Some n.now)
            → Takes self.old.format self.new front line (Words words) result }
    {
        if !self.draft.skips_text(self.format) {
            return Err(ReadFault::BadRow { line });
        }
        if let Some(name) = name {
            self.name = Some(String::from_utf8_lossy(alloc, name)?);
        }
        Ok(())
    }

    /// Reads a number line. Fails with the fault of the line, or with `NoMemory` if memory runs out.
    fn take_numbers(&mut self, alloc: Global, line: usize, row: &[u64]) -> Result<(), ReadFault>
        ensures { (front : List Numbered) (written : List ℕ) → IsReadUpTo self.old front → row.now ≡ map capped written
            → Takes self.old.format self.new front line (Numbers written) result }
    {
        if let Some(instance) = self.draft.take_row(alloc, self.format, line, row)? {
            let name = match self.name.take() {
                Some(name) => name,
                None => format!(in alloc; "{}", self.named.len() + 1)?,
            };
            self.named.push(Named { name, instance })?;
        }
        Ok(())
    }

    /// Reads a line of the text; `numbers` is room for the numbers of the line, and a number above `u64::MAX` counts as
    /// `u64::MAX`. Fails with the fault of the line, or with `NoMemory` if memory runs out.
    fn take_line(
        &mut self,
        alloc: Global,
        line: usize,
        bytes: &[u8],
        numbers: &mut Vec<u64>,
    ) -> Result<(), ReadFault>
        ensures { (front : List Numbered) → IsReadUpTo self.old front
            → Takes self.old.format self.new front line (line_of bytes.now) result }
    {
        numbers.clear();
        let mut rest = bytes;
        while let Some((number, after)) = next_number(rest) {
            let Some(number) = number else {
                return self.take_words(alloc, line, header_in(self.format, bytes));
            };
            numbers.push(number)?;
            rest = after;
        }
        if numbers.is_empty() {
            return Ok(());
        }
        self.take_numbers(alloc, line, numbers.as_slice())
    }

    /// Returns the instances at the end of the text, whose last line has the number `last`. Fails if the text ends
    /// inside an instance or has none.
    fn finish(self, last: usize) -> Result<Vec<Named>, ReadFault>
        requires { last ≤ MAX_TEXT }
        ensures { (lines : List Numbered) → IsReadUpTo self lines → Ends (grammar_of self.format) last lines result }
    {
        let Reader { named, draft, .. } = self;
        if !draft.is_fresh() {
            return Err(ReadFault::Truncated { line: last + 1 });
        }
        if named.is_empty() {
            return Err(ReadFault::NoInstance);
        }
        Ok(named)
    }
}

/// Returns the number of lines before the first header, and the text from there on; 0 and the whole text if it has no
/// header.
fn from_first_header(format: Format, text: &[u8]) -> (usize, &[u8])
    requires { length text.now ≤ MAX_TEXT }
    ensures left { lines_left (grammar_of format) text.now ≡ lines_after result.0 result.1.now }
    ensures behind { IsBehind text.now result.0 result.1.now }
{
    let mut number = 0;
    let mut rest = text;
    while rest.len() > 0 {
        let (line, after) = next_line(rest);
        if header_in(format, line).is_some() {
            return (number, rest);
        }
        number += 1;
        rest = after;
    }
    (0, text)
}

/// Reads the instances of `text` in `format`, as `read_orlib`, `read_taillard` and `read_routes` say, and fails as they
/// do.
pub fn read(alloc: Global, format: Format, text: &[u8]) -> Result<Vec<Named>, ReadFault>
    ensures { IsRead (grammar_of format) text.now result }
{
    if text.len() > MAX_TEXT {
        return Err(ReadFault::TooLong);
    }
    let (mut number, mut rest) = from_first_header(format, text);
    let mut reader = Reader {
        format,
        named: Vec::new(alloc),
        name: None,
        draft: Draft::new(alloc),
    };
    let mut numbers = Vec::new(alloc);
    while rest.len() > 0 {
        let (line, after) = next_line(rest);
        number += 1;
        rest = after;
        reader.take_line(alloc, number, line, &mut numbers)?;
    }
    reader.finish(number)
}

/// Reads the instances of `text`, at least one, in the form of the OR-Library file `jobshop1`. The name of an instance
/// is that of the last line `instance NAME` before it, else its number, from 1.
///
/// Fails with `TooLong` above 16,777,216 bytes, and else with the fault of the first faulty line. Fails with `NoMemory`
/// if memory runs out. For library callers: the program doesn't use `read_orlib`.
pub fn read_orlib(alloc: Global, text: &[u8]) -> Result<Vec<Named>, ReadFault>
    ensures { IsRead orlib text.now result }
{
    read(alloc, Format::Orlib, text)
}

/// Reads the instances of `text`, at least one, in the form that goes by Taillard's name: a size line, a row of times
/// for each job, and a row of machines for each job, counted from 1. Further numbers of a size line, after jobs and
/// machines, are skipped. The names of instances are their numbers, from 1.
///
/// Fails as `read_orlib` does. For library callers: the program doesn't use `read_taillard`.
pub fn read_taillard(alloc: Global, text: &[u8]) -> Result<Vec<Named>, ReadFault>
    ensures { IsRead taillard text.now result }
{
    read(alloc, Format::Taillard, text)
}

/// Reads the instances of `text`, at least one, in the format `routes`: that of `read_orlib`, except that the row of a
/// job is its release, 0 to 1,000,000,000, and then 0 to 100 pairs of machine and time.
///
/// Fails as `read_orlib` does. For library callers: the program doesn't use `read_routes`.
pub fn read_routes(alloc: Global, text: &[u8]) -> Result<Vec<Named>, ReadFault>
    ensures { IsRead routes text.now result }
{
    read(alloc, Format::Routes, text)
}
