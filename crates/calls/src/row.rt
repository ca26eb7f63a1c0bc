//! Rows: a title, a head `row NUMBER SUBJECT`, and lines `CALL -> ANSWER` up to an empty one.
use crate::answer::reads;
use crate::hook::Hook;
use crate::interpreter::Interpreter;
use crate::queues::Queues;
use crate::subject::Subject;
use crate::tag::Tag;
use std::alloc::{AllocError, Global};
use std::fmt::{self, Display, Formatter, Write};

/// A row, as text.
#[derive(Clone, Copy)]
pub struct Row<'t> {
    pub number: u8,
    pub title: &'t str,
    /// What its calls are made on.
    pub subject: &'t str,
    /// With what kind of that, where there are several.
    pub kind: &'t str,
    pub lines: &'t str,
}

/// Where a row does not hold.
#[derive(Drop)]
pub struct Difference<'t> {
    row: u8,
    kind: &'t str,
    // The number of the line, from the head on.
    line: usize,
    text: &'t str,
    found: Found,
}

// What is found in place of the answer of a line.
#[derive(Drop)]
enum Found {
    Answer(String),
    NoMemory,
    NoSubject,
}

impl Display for Difference<'_> {
    fn fmt<W: Write>(&self, f: &mut Formatter<W>) -> fmt::Result {
        write!(f, "row {}", self.row)?;
        if !self.kind.is_empty() {
            write!(f, " with {}", self.kind)?;
        }
        write!(f, ", line {}: {}", self.line, self.text)?;
        match &self.found {
            Found::Answer(answer) => write!(f, ": but it answers {answer}"),
            Found::NoMemory => f.write_str(": no memory to try it"),
            Found::NoSubject => f.write_str(": no such subject"),
        }
    }
}

impl Display for Row<'_> {
    fn fmt<W: Write>(&self, f: &mut Formatter<W>) -> fmt::Result {
        writeln!(f, "{}\nrow {} {}", self.title, self.number, self.subject)?;
        for line in self.lines.lines() {
            writeln!(f, "{line}")?;
        }
        Ok(())
    }
}

impl<'t> Row<'t> {
    /// The row at that place of the text, counted from 0. One without a number has the number 0. Without that, or without
    /// lines, its subject is none.
    pub fn nth(text: &'t str, place: usize) -> Option<Row<'t>> {
        let mut parts = text.split("\nrow ").skip(place);
        Some(Row::read(parts.next()?, parts.next()?))
    }

    /// The first row of that number in the text.
    pub fn numbered(text: &'t str, number: u8) -> Option<Row<'t>> {
        for place in 0..usize::MAX {
            let row = Row::nth(text, place)?;
            if row.number == number {
                return Some(row);
            }
        }
        None
    }

    // The row whose head begins this part of a text. Its title ends the part before.
    fn read(earlier: &'t str, part: &'t str) -> Row<'t> {
        let (_, title) = earlier.rsplit_once('\n').unwrap_or(("", earlier));
        let (head, rest) = part.split_once('\n').unwrap_or((part, ""));
        let (lines, _) = rest.split_once("\n\n").unwrap_or((rest, ""));
        let lines = lines.strip_suffix('\n').unwrap_or(lines);
        let (word, subject) = head.split_once(' ').unwrap_or(("", head));
        let (number, subject) = match word.parse() {
            Ok(number) if !lines.is_empty() => (number, subject),
            Ok(number) => (number, ""),
            Err(_) => (0, ""),
        };
        Row {
            number,
            title,
            subject,
            kind: "",
            lines,
        }
    }

    /// The difference that this line answers that, or that there is no memory to try it. The head is line 0.
    pub fn differs(&self, line: usize, answer: Option<String>) -> Difference<'t> {
        let found = match answer {
            Some(answer) => Found::Answer(answer),
            None => Found::NoMemory,
        };
        self.difference(line, found)
    }

    /// The difference that its head names none of the subjects.
    pub fn has_no_subject(&self) -> Difference<'t> {
        self.difference(0, Found::NoSubject)
    }

    fn difference(&self, line: usize, found: Found) -> Difference<'t> {
        let text = match line.checked_sub(1) {
            Some(before) => self.lines.lines().nth(before).unwrap_or(""),
            None => self.subject,
        };
        Difference {
            row: self.number,
            kind: self.kind,
            line,
            text,
            found,
        }
    }

    /// Makes the calls of these lines, which stand at its beginning, on this subject.
    pub fn make_on<S: Subject + Drop, H: Hook>(
        &self,
        alloc: Global,
        subject: S,
        hook: &mut H,
    ) -> Result<(), Difference<'t>> {
        let mut interpreter = Interpreter::new(alloc, subject, hook);
        for (before, text) in self.lines.lines().enumerate() {
            let line = before.saturating_add(1);
            match other_answer(alloc, &mut interpreter, text) {
                Ok(None) => {}
                Ok(answer) => return Err(self.differs(line, answer)),
                Err(_) => return Err(self.differs(line, None)),
            }
        }
        Ok(())
    }

    /// Makes its calls on queues, if these are its subject: `list`, `two lists`, or `list tags`.
    pub fn run_on_queues<H: Hook>(
        &self,
        alloc: Global,
        hook: &mut H,
    ) -> Option<Result<(), Difference<'t>>> {
        match self.subject {
            "list" => Some(self.run_on::<(), H>(alloc, hook, 1)),
            "two lists" => Some(self.run_on::<(), H>(alloc, hook, 2)),
            "list tags" => Some(self.run_on::<u64, H>(alloc, hook, 1)),
            _ => None,
        }
    }

    fn run_on<T: Tag + Drop, H: Hook>(
        &self,
        alloc: Global,
        hook: &mut H,
        queues: usize,
    ) -> Result<(), Difference<'t>> {
        match Queues::<T>::new(alloc, queues) {
            Ok(subject) => self.make_on(alloc, subject, hook),
            Err(_) => Err(self.differs(0, None)),
        }
    }
}

// What the call of a line answers where that is not what the line says. The error is that there is no memory for it.
fn other_answer<S: Subject + Drop, H: Hook>(
    alloc: Global,
    interpreter: &mut Interpreter<'_, S, H>,
    line: &str,
) -> Result<Option<String>, AllocError> {
    let (call, wanted) = line.split_once(" -> ").unwrap_or((line, ""));
    let answer = interpreter.answer(call)?;
    if reads(answer, wanted) {
        return Ok(None);
    }
    Ok(Some(format!(in alloc; "{answer}")?))
}
