//! Rows as they are read, and what their commands leave.

use crate::texts::bytes_of;
use fi_cli::top;
use fic_io::{MemShelf, MemSink, Open};
use std::alloc::Global;

/// A row so far. Its files stay for each of its commands; all else is of one command.
#[derive(Drop)]
pub struct Row {
    /// Its name.
    pub name: String,
    /// The files that the commands find, the newest of a name first.
    files: Vec<(String, Vec<u8>)>,
    /// The words of the command.
    words: Vec<String>,
    /// The calls of the shelf that fail.
    fails: Vec<u64>,
    /// How many bytes the two sinks take.
    rooms: (usize, usize),
    /// The bytes that it has to write.
    out: Vec<u8>,
    /// A piece that stands in what it writes, where the whole isn't worked out.
    piece: Option<Vec<u8>>,
    /// The bytes that it has to write to the error stream.
    err: Vec<u8>,
    /// The file that takes what it writes.
    kept: Option<String>,
}

// The most bytes that a sink takes in one call.
const MOST: usize = 7;

// How many bytes a sink takes where a row says nothing.
const ROOM: usize = 1 << 20;

impl Row {
    /// A row of which nothing is read.
    pub fn new(alloc: Global) -> Row {
        Row {
            name: String::new(alloc),
            files: Vec::new(alloc),
            words: Vec::new(alloc),
            fails: Vec::new(alloc),
            rooms: (ROOM, ROOM),
            out: Vec::new(alloc),
            piece: None,
            err: Vec::new(alloc),
            kept: None,
        }
    }

    /// Reads a line. The status that the command has to end with, where the line is the last of one.
    pub fn read(&mut self, alloc: Global, line: &str) -> anyhow::Result<Option<u8>> {
        let (kind, text) = match line.split_once(' ') {
            Some(both) => both,
            None => (line, ""),
        };
        match kind {
            "status" => return Ok(Some(text.parse::<u8>()?)),
            "row" => {
                *self = Row::new(alloc);
                self.name = String::from_str(alloc, text)?;
            }
            "words" => self.read_words(alloc, text)?,
            "file" => self.read_file(alloc, text)?,
            "more" => self.read_more(alloc, text)?,
            "fails" => self.fails.push(text.parse::<u64>()?)?,
            "room-out" => self.rooms.0 = text.parse::<usize>()?,
            "room-err" => self.rooms.1 = text.parse::<usize>()?,
            "out" => self.out = bytes_of(alloc, text)?,
            "out-has" => self.piece = Some(bytes_of(alloc, text)?),
            "err" => self.err = bytes_of(alloc, text)?,
            "keep" => self.kept = Some(String::from_str(alloc, text)?),
            "" | "#" => {}
            _ => anyhow::bail!("no line of a row"),
        }
        Ok(None)
    }

    fn read_words(&mut self, alloc: Global, text: &str) -> anyhow::Result<()> {
        for word in text.split_whitespace() {
            let word = String::from_str(alloc, word)?;
            self.words.push(word)?;
        }
        Ok(())
    }

    fn read_file(&mut self, alloc: Global, text: &str) -> anyhow::Result<()> {
        let (name, content) = match text.split_once(' ') {
            Some(both) => both,
            None => (text, ""),
        };
        let name = String::from_str(alloc, name)?;
        let content = bytes_of(alloc, content)?;
        self.files.insert(0, (name, content))?;
        Ok(())
    }

    // So many times a text behind the newest file.
    fn read_more(&mut self, alloc: Global, text: &str) -> anyhow::Result<()> {
        let Some((count, content)) = text.split_once(' ') else {
            anyhow::bail!("no text to repeat");
        };
        let content = bytes_of(alloc, content)?;
        let Some(file) = self.files.first_mut() else {
            anyhow::bail!("no file");
        };
        for _ in 0..count.parse::<u32>()? {
            file.1.extend_from_slice(content.as_slice())?;
        }
        Ok(())
    }

    /// What the command leaves, where that is something else than it has to leave. The next command of the row begins then.
    pub fn other_than(&mut self, alloc: Global, status: u8) -> anyhow::Result<Option<String>> {
        let Ok(mut out) = MemSink::new(alloc, self.rooms.0, MOST) else {
            anyhow::bail!("no memory");
        };
        let Ok(mut err) = MemSink::new(alloc, self.rooms.1, MOST) else {
            anyhow::bail!("no memory");
        };
        let mut shelf = self.shelf(alloc)?;
        let words = self.words.as_slice();
        let got = top(alloc, words, &mut shelf, &mut out, &mut err, &Open {});
        let is_wanted = got == status
            && err.bytes() == self.err.as_slice()
            && self.is_output(out.bytes());
        let told = if is_wanted {
            None
        } else {
            let line = String::from_utf8(err.bytes().to_vec(alloc)?)?;
            Some(format!(in alloc; "status {got}, `{}`", line.as_str().trim_end())?)
        };
        self.turn(alloc, out.bytes())?;
        Ok(told)
    }

    fn shelf(&self, alloc: Global) -> anyhow::Result<MemShelf> {
        let mut files = Vec::new(alloc);
        for (name, content) in self.files.iter() {
            files.push((name.clone()?, content.clone()?))?;
        }
        Ok(MemShelf::new(alloc, files, self.fails.clone()?))
    }

    // Whether these bytes are what has to be written.
    fn is_output(&self, bytes: &[u8]) -> bool {
        match &self.piece {
            None => bytes == self.out.as_slice(),
            Some(piece) => bytes
                .windows(piece.len().max(1))
                .any(|part| part == piece.as_slice()),
        }
    }

    // Forgets all but the files, and keeps what was written where a file takes it.
    fn turn(&mut self, alloc: Global, bytes: &[u8]) -> anyhow::Result<()> {
        if let Some(name) = self.kept.take() {
            self.files.insert(0, (name, bytes.to_vec(alloc)?))?;
        }
        self.words.clear();
        self.fails.clear();
        self.rooms = (ROOM, ROOM);
        self.out.clear();
        self.piece = None;
        self.err.clear();
        Ok(())
    }
}
