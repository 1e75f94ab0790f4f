//! Files of test cases ("rows"): texts that are given to a program, each with the expected answer. Tests are tables
//! in such files because a row costs nothing to prove.
//!
//! A file is read line by line. A line is one of these:
//!
//! - an empty line, or `#` and a remark;
//! - `text NAME: TEXT`, which defines a text that later texts can refer to; each line `| LINE` after it adds a line
//!   to the text;
//! - `table NAME`, which begins a table;
//! - `ask QUESTION: BEFORE\@AFTER`, a question about each text of the table, placed between `BEFORE` and `AFTER`;
//!   `ask QUESTION, ANSWER: ..` expects this answer for every text of the table, instead of the answer of its row;
//! - `ANSWER <- TEXT`, a row.
//!
//! In all texts of these lines, `written::read` defines the meaning of a backslash.

use crate::written::{Texts, Unread, read};
use std::alloc::{AllocError, Global};
use std::collections::BTreeMap;

/// Represents a question about each text of a table.
#[derive(Drop)]
struct Ask {
    question: String,
    // the answer for every text, if the question gives one
    answer: Option<Vec<u8>>,
    before: Vec<u8>,
    behind: Vec<u8>,
}

/// Represents a question about a row.
#[derive(Drop)]
pub struct Asked {
    /// The name of the question.
    pub question: String,
    /// The text before the text of the row.
    pub before: Vec<u8>,
    /// The text of the row.
    pub text: Vec<u8>,
    /// The text after the text of the row.
    pub behind: Vec<u8>,
    /// The expected answer.
    pub answer: Vec<u8>,
}

impl Asked {
    /// Returns the text of the row between the two others.
    ///
    /// # Errors
    ///
    /// Returns an `AllocError` if there is no memory for the text.
    pub fn whole(&self, alloc: Global) -> Result<Vec<u8>, AllocError> {
        let mut whole = Vec::new(alloc);
        whole.extend_from_slice(self.before.as_slice())?;
        whole.extend_from_slice(self.text.as_slice())?;
        whole.extend_from_slice(self.behind.as_slice())?;
        Ok(whole)
    }
}

/// Holds the state of reading a file of rows, with the results so far.
#[derive(Drop)]
pub struct RowReader {
    alloc: Global,
    file: &'static str,
    line: u32,
    table: String,
    // the name of the last text
    text: String,
    texts: Texts,
    asks: Vec<Ask>,
    rows: u32,
    answers: u32,
    differing: u32,
    told: String,
}

impl RowReader {
    /// Returns the state before the first line of this file.
    pub fn new(alloc: Global, file: &'static str) -> RowReader {
        RowReader {
            alloc,
            file,
            line: 0,
            table: String::new(alloc),
            text: String::new(alloc),
            texts: BTreeMap::new(alloc),
            asks: Vec::new(alloc),
            rows: 0,
            answers: 0,
            differing: 0,
            told: String::new(alloc),
        }
    }

    /// Reads the next line, and returns its questions: none, unless the line is a row. A line of no valid form, and a
    /// row without a question, count as an answer that differs.
    ///
    /// # Errors
    ///
    /// Returns an `AllocError` if memory runs out; a part of the line may have been read then.
    pub fn read(&mut self, line: &str) -> Result<Vec<Asked>, AllocError> {
        self.line = self.line.saturating_add(1);
        match self.take(line) {
            Ok(asked) => Ok(asked),
            Err(Unread::Memory(error)) => Err(error),
            Err(Unread::Form) => {
                self.tell(line, "no line of such a file")?;
                Ok(Vec::new(self.alloc))
            }
        }
    }

    /// Compares an answer with the expected answer of the row, and records a line if they differ.
    ///
    /// # Errors
    ///
    /// Returns an `AllocError` if there is no memory for the line; the answer is counted.
    pub fn compare(&mut self, asked: &Asked, found: &str) -> Result<(), AllocError> {
        self.answers = self.answers.saturating_add(1);
        if asked.answer.as_slice() == found.as_bytes() {
            Ok(())
        } else {
            self.differ(asked, found)
        }
    }

    /// Returns a line for each answer that differs, and a line with the counts.
    ///
    /// # Errors
    ///
    /// Returns an `AllocError` if there is no memory for the lines.
    pub fn told(&self) -> Result<String, AllocError> {
        format!(in self.alloc;
            "{}{}: {} rows, {} answers, {} differ\n",
            self.told, self.file, self.rows, self.answers, self.differing
        )
    }
}

impl RowReader {
    // Adds a line to the report.
    fn tell(&mut self, what: &str, why: &str) -> Result<(), AllocError> {
        self.differing = self.differing.saturating_add(1);
        let (file, line, table) = (self.file, self.line, self.table.as_str());
        let told = format!(in self.alloc; "{file}:{line}: {table}: {what}: {why}\n")?;
        self.told.push_str(told.as_str())
    }

    fn differ(&mut self, asked: &Asked, found: &str) -> Result<(), AllocError> {
        let alloc = self.alloc;
        let text = String::from_utf8_lossy(alloc, asked.text.as_slice())?;
        let answer = String::from_utf8_lossy(alloc, asked.answer.as_slice())?;
        let what = format!(in alloc; "{}: {text}", asked.question)?;
        let why = format!(in alloc; "expected {answer}, found {found}")?;
        self.tell(what.as_str(), why.as_str())
    }

    fn take(&mut self, line: &str) -> Result<Vec<Asked>, Unread> {
        if line.is_empty() || line.strip_prefix('#').is_some() {
            return Ok(Vec::new(self.alloc));
        }
        if let Some(rest) = line.strip_prefix('|') {
            self.lengthen(rest.strip_prefix(' ').unwrap_or(rest))?;
        } else if let Some(rest) = line.strip_prefix("text ") {
            self.name(rest)?;
        } else if let Some(rest) = line.strip_prefix("table ") {
            self.table = rest.to_string(self.alloc)?;
            self.asks.clear();
        } else if let Some(rest) = line.strip_prefix("ask ") {
            self.ask(rest)?;
        } else {
            let (answer, text) = line.split_once(" <- ").ok_or(Unread::Form)?;
            return self.row(answer, text);
        }
        Ok(Vec::new(self.alloc))
    }

    // Reads `NAME: TEXT`.
    fn name(&mut self, rest: &str) -> Result<(), Unread> {
        let (name, written) = rest.split_once(": ").ok_or(Unread::Form)?;
        let text = read(self.alloc, &self.texts, written)?;
        self.text = name.to_string(self.alloc)?;
        self.texts.insert(name.to_string(self.alloc)?, text)?;
        Ok(())
    }

    // Appends a line to the last text.
    fn lengthen(&mut self, line: &str) -> Result<(), Unread> {
        let text = self.texts.get_mut(self.text.as_str()).ok_or(Unread::Form)?;
        text.extend_from_slice(line.as_bytes())?;
        text.push(b'\n')?;
        Ok(())
    }

    // Reads `QUESTION: BEFORE\@AFTER` or `QUESTION, ANSWER: BEFORE\@AFTER`.
    fn ask(&mut self, rest: &str) -> Result<(), Unread> {
        let (words, around) = rest.split_once(": ").ok_or(Unread::Form)?;
        let (before, behind) = around.split_once("\\@").ok_or(Unread::Form)?;
        let (question, answer) = match words.split_once(", ") {
            None => (words, None),
            Some((question, answer)) => (question, Some(read(self.alloc, &self.texts, answer)?)),
        };
        let ask = Ask {
            question: question.to_string(self.alloc)?,
            answer,
            before: read(self.alloc, &self.texts, before)?,
            behind: read(self.alloc, &self.texts, behind)?,
        };
        self.asks.push(ask)?;
        Ok(())
    }

    // Returns the questions of a row.
    fn row(&mut self, answer: &str, text: &str) -> Result<Vec<Asked>, Unread> {
        let answer = read(self.alloc, &self.texts, answer)?;
        let text = read(self.alloc, &self.texts, text)?;
        if self.asks.is_empty() {
            return Err(Unread::Form);
        }
        self.rows = self.rows.saturating_add(1);
        let mut all = Vec::new(self.alloc);
        for ask in &self.asks {
            all.push(ask.of(self.alloc, text.as_slice(), answer.as_slice())?)?;
        }
        Ok(all)
    }
}

impl Ask {
    // Returns the question about a row with this text and this answer.
    fn of(&self, alloc: Global, text: &[u8], answer: &[u8]) -> Result<Asked, AllocError> {
        let answer = match &self.answer {
            Some(answer) => answer.clone()?,
            None => Vec::from_slice(alloc, answer)?,
        };
        Ok(Asked {
            question: self.question.clone()?,
            before: self.before.clone()?,
            text: Vec::from_slice(alloc, text)?,
            behind: self.behind.clone()?,
            answer,
        })
    }
}
