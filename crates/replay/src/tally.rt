// Where a replay stands: over which lines it is, and how many were as recorded.
ghost use Rattle.std.specs.Prelude.{◌≤◌, IfOk, IfSome, vec_len};

use super::lines;
use super::stop::Stop;
use std::alloc::Global;
use std::collections::BTreeMap;
use std::{fmt, io};

// The last line is this operation and how many lines came before it.
const LAST: u64 = 99;

#[derive(Drop)]
pub struct Tally {
    alloc: Global,
    // the number of the line read last, comments counted
    line: u64,
    // how many lines there were to carry out, and how often what came was not as recorded
    lines: u64,
    wrong: u64,
    // the last line was read and is right
    closed: bool,
    // how many lines of a row were as recorded
    rows: BTreeMap<u64, u64>,
}

// Numbers, each with a space before it.
#[derive(Clone, Copy)]
struct Spaced<'a>(&'a [u64]);

impl fmt::Display for Spaced<'_> {
    fn fmt<W: fmt::Write>(&self, f: &mut fmt::Formatter<W>) -> fmt::Result {
        for number in self.0 {
            write!(f, " {number}")?;
        }
        Ok(())
    }
}

impl Tally {
    pub fn new(alloc: Global) -> Self {
        Self {
            alloc,
            line: 0,
            lines: 0,
            wrong: 0,
            closed: false,
            rows: BTreeMap::new(alloc),
        }
    }

    // Says something of the line read last.
    pub fn say(&self, rt: &impl Print, what: impl fmt::Display + Drop) -> io::Result<()> {
        println!(rt; "line {}: {what}", self.line)
    }

    // Says what of a line did not come as recorded, where it is the first.
    pub fn say_first(&self, rt: &impl Print, what: impl fmt::Display + Drop) -> io::Result<()> {
        if self.wrong == 0 {
            self.say(rt, what)?;
        }
        Ok(())
    }

    // The numbers of the next line, if it is one to carry out.
    pub fn take(&mut self, line: &[u8]) -> Result<Option<Vec<u64>>, Stop>
        ensures { IfOk result (λ o. IfSome o (λ v. vec_len v ≤ 4096)) }
    {
        self.line = self.line.saturating_add(1);
        if line.first() == Some(&b'#') {
            return Ok(None);
        }
        let numbers = lines::numbers(self.alloc, line)?;
        match numbers.as_slice() {
            _ if self.closed => Err(Stop::BehindLast),
            [LAST, said] if *said == self.lines => {
                self.closed = true;
                Ok(None)
            }
            [LAST, said] => Err(Stop::LastCount {
                said: *said,
                came: self.lines,
            }),
            [LAST, ..] => Err(Stop::LastNumbers),
            _ => {
                self.lines = self.lines.saturating_add(1);
                Ok(Some(numbers))
            }
        }
    }

    // The text is over.
    pub fn at_end(&mut self) -> Result<(), Stop> {
        self.line = self.line.saturating_add(1);
        if self.closed {
            Ok(())
        } else {
            Err(Stop::NoLastLine)
        }
    }

    // Compares what came with what the line says. Where it is the same, the row's count goes up.
    pub fn judge(
        &mut self,
        rt: &impl Print,
        row: u64,
        expected: &[u64],
        came: &[u64],
    ) -> Result<(), Stop> {
        if expected == came {
            let many = self.rows.entry(row)?.or_insert(0);
            *many = many.saturating_add(1);
            return Ok(());
        }
        let expected = Spaced(expected);
        let came = Spaced(came);
        self.say_first(rt, format_args!("expected{expected}, came{came}"))?;
        self.wrong = self.wrong.saturating_add(1);
        Ok(())
    }

    // How many lines of a row were as recorded.
    pub fn row(&self, row: u64) -> u64 {
        self.rows.get(&row).copied().unwrap_or(0)
    }

    // The rows of the table: an operation, and how many of its lines were as recorded.
    pub fn say_rows(&self, rt: &impl Print, rows: &[(&str, u64)]) -> io::Result<()> {
        for (name, row) in rows {
            println!(rt; "  {name}: {} as recorded", self.row(*row))?;
        }
        Ok(())
    }

    // The part of the table that lists.txt and trie.txt have in common: the cases, and the commands in them.
    pub fn say_commands(&self, rt: &impl Print) -> io::Result<()> {
        self.say_rows(
            rt,
            &[
                ("case", 0),
                ("lookup", 10),
                ("insert", 11),
                ("remove", 12),
                ("lookup of a run", 20),
                ("insert of a run", 21),
                ("remove of a run", 22),
            ],
        )
    }

    // Says why the replay ended early, if it did. Yes, where it came to the last line.
    pub fn came_to_end(&self, rt: &impl Print, end: Result<(), Stop>) -> io::Result<bool> {
        match end {
            Ok(()) => Ok(true),
            Err(Stop::Io(error)) => Err(error),
            Err(Stop::Memory(error)) => Err(io::Error::from(error)),
            Err(stop) => {
                self.say(rt, stop)?;
                Ok(false)
            }
        }
    }

    // What the whole comes to, but for so many lines that were passed over.
    pub fn verdict(&self, rt: &impl Print, to_the_end: bool, passed: u64) -> io::Result<()> {
        let lines = self.lines.saturating_sub(passed);
        if self.wrong > 0 {
            println!(rt;
                "  NOT AS RECORDED: lines {lines}, wrong answers {}",
                self.wrong
            )
        } else if to_the_end {
            println!(rt; "  all {lines} lines as recorded")
        } else {
            println!(rt; "  NOT ALL WAS REPLAYED")
        }
    }
}
