//! What a case wants, read from its page.

use std::alloc::{AllocError, Global};

/// What a case hands to the program, and what it wants of it.
#[derive(Debug, Drop)]
pub struct Wanted {
    /// The words of the command line.
    pub words: Vec<String>,
    /// Whether the page says that there are no words.
    no_words: bool,
    /// The names under which the source lies in the files.
    pub names: Vec<String>,
    /// The input.
    pub input: Vec<u8>,
    /// The output that is wanted.
    pub output: Vec<u8>,
    /// The report that is wanted.
    pub report: Vec<u8>,
    /// The status that is wanted.
    pub status: u8,
    /// The names that are asked for.
    pub asked: Vec<String>,
    /// How many bytes of the input are taken.
    pub taken: usize,
    /// How many bytes one put takes at most, at least 1.
    pub most: usize,
    /// How many bytes output and report have room for, each.
    pub room: usize,
    /// The length to which the source is filled up with blanks; 0 leaves it as it is.
    pub length: usize,
    /// The numbers of the calls that fail: of the files, the output and the report.
    pub files_fail: Vec<u64>,
    pub output_fails: Vec<u64>,
    pub report_fails: Vec<u64>,
}

/// Why the page of a case is not read.
#[derive(Clone, Copy, Debug, PartialEq, Eq)]
pub enum PageError {
    /// The line of this number, from 1, says nothing that is known.
    Line(usize),
    /// Out of memory.
    Memory,
}

impl From<AllocError> for PageError {
    fn from(_: AllocError) -> PageError {
        PageError::Memory
    }
}

/// Which text the lines that begin with `|` or `+` belong to.
#[derive(Clone, Copy, Debug, PartialEq, Eq)]
enum Part {
    Nothing,
    Input,
    Output,
    Report,
}

impl Wanted {
    /// Reads the page of the case of this name. Without other lines the word is the source's name, which
    /// is asked for once, nothing is put and the status is 0.
    ///
    /// # Errors
    ///
    /// The number of the first line that says nothing that is known; or out of memory.
    pub fn read(alloc: Global, name: &str, page: &str) -> Result<Wanted, PageError> {
        let mut wanted = Wanted::calm(alloc);
        let mut part = Part::Nothing;
        for (at, line) in page.lines().enumerate() {
            match wanted.line(alloc, part, line)? {
                Some(next) => part = next,
                None => return Err(PageError::Line(at.saturating_add(1))),
            }
        }
        wanted.complete(alloc, name)?;
        Ok(wanted)
    }

    /// A case that wants nothing.
    fn calm(alloc: Global) -> Wanted {
        Wanted {
            words: Vec::new(alloc),
            no_words: false,
            names: Vec::new(alloc),
            input: Vec::new(alloc),
            output: Vec::new(alloc),
            report: Vec::new(alloc),
            status: 0,
            asked: Vec::new(alloc),
            taken: 0,
            most: 4096,
            room: 65_536,
            length: 0,
            files_fail: Vec::new(alloc),
            output_fails: Vec::new(alloc),
            report_fails: Vec::new(alloc),
        }
    }

    /// The word, the source's name and the name that is asked for, where the page names no words.
    fn complete(&mut self, alloc: Global, name: &str) -> Result<(), AllocError> {
        let source = format!(in alloc; "{name}.rs")?;
        if self.words.is_empty() && !self.no_words {
            self.words.push(String::from_str(alloc, source.as_str())?)?;
            if self.asked.is_empty() {
                self.asked.push(String::from_str(alloc, source.as_str())?)?;
            }
        }
        self.names.push(source)?;
        Ok(())
    }

    /// Takes in one line, and gives the part that the next one belongs to; none where it says nothing that is
    /// known.
    fn line(&mut self, alloc: Global, part: Part, line: &str) -> Result<Option<Part>, AllocError> {
        if let Some(text) = line.strip_prefix("| ").or(line.strip_prefix("|")) {
            return self.text(part, text, b"\n");
        }
        if let Some(text) = line.strip_prefix("+ ") {
            return self.text(part, text, b"");
        }
        match line {
            "" => return Ok(Some(Part::Nothing)),
            "input" => return Ok(Some(Part::Input)),
            "output" => return Ok(Some(Part::Output)),
            "report" => return Ok(Some(Part::Report)),
            "no-words" => {
                self.no_words = true;
                return Ok(Some(Part::Nothing));
            }
            _ => {}
        }
        if line.starts_with("#") {
            return Ok(Some(part));
        }
        let (key, value) = line.split_once(" ").unwrap_or((line, ""));
        if self.names_of(alloc, key, value)? || self.number(key, value)? {
            Ok(Some(Part::Nothing))
        } else {
            Ok(None)
        }
    }

    /// Adds a text with this end to the part.
    fn text(&mut self, part: Part, text: &str, end: &[u8]) -> Result<Option<Part>, AllocError> {
        let bytes = match part {
            Part::Nothing => return Ok(None),
            Part::Input => &mut self.input,
            Part::Output => &mut self.output,
            Part::Report => &mut self.report,
        };
        bytes.extend_from_slice(text.as_bytes())?;
        bytes.extend_from_slice(end)?;
        Ok(Some(part))
    }

    /// Takes in a line of words or names, and says whether it was one. `word` is followed by one word, which may be
    /// empty or have blanks.
    fn names_of(&mut self, alloc: Global, key: &str, value: &str) -> Result<bool, AllocError> {
        let list = match key {
            "word" => &mut self.words,
            "file" => &mut self.names,
            "asked" => &mut self.asked,
            _ => return Ok(false),
        };
        list.push(String::from_str(alloc, value)?)?;
        Ok(true)
    }

    /// Takes in a line of a number, and says whether it was one.
    fn number(&mut self, key: &str, value: &str) -> Result<bool, AllocError> {
        let Ok(number) = value.parse::<u64>() else {
            return Ok(false);
        };
        match key {
            "status" => self.status = number.min(255) as u8,
            "taken" => self.taken = number.min(1_048_576) as usize,
            "puts-take" => self.most = number.clamp(1, 4096) as usize,
            "room" => self.room = number.min(65_536) as usize,
            "length" => self.length = number.min(2_097_152) as usize,
            "files-fail" => self.files_fail.push(number)?,
            "output-fails" => self.output_fails.push(number)?,
            "report-fails" => self.report_fails.push(number)?,
            _ => return Ok(false),
        }
        Ok(true)
    }
}
