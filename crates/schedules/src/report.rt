//! The printed pages, and the lines on them.
ghost use Rattle.std.specs.Prelude.{◌≡◌, ◌++◌, ◌≤◌, [], is_ok, vec_len, if◌then◌else◌};

use crate::comparison::{Comparison, Unit};
use crate::written::Figure;
use std::alloc::AllocError;
use std::io;

/// The lines so far, and where their pages are printed.
#[derive(Drop)]
pub struct Report<'a, R: Print + AllocGlobal> {
    pub rt: &'a R,
    pub lines: Vec<Comparison>,
}

impl<'a, R: Print + AllocGlobal> Report<'a, R> {
    /// A report with no lines.
    pub fn new(rt: &'a R) -> Report<'a, R>
        ensures { result.lines.items ≡ [] }
    {
        Report {
            rt,
            lines: Vec::new(rt.alloc()),
        }
    }

    /// Prints a page: its heading over the columns, and its lines, which are added to those so far.
    pub fn page(&mut self, heading: &str, lines: &[Comparison]) -> anyhow::Result<()>
        ensures items { self.new.lines.items ≡ (if is_ok result then self.old.lines.items ++ lines.now else self.old.lines.items) }
        ensures count { vec_len self.old.lines ≤ vec_len self.new.lines }
    {
        println!(self.rt; "")?;
        println!(self.rt;
            "  {heading:<58}{:>15}{:>15}{:>15}",
            "the sheet", "by the rules", "difference"
        )?;
        self.rows(lines)
    }

    /// Prints lines of the page whose heading was printed last, which are added to those so far.
    pub fn rows(&mut self, lines: &[Comparison]) -> anyhow::Result<()>
        ensures items { self.new.lines.items ≡ (if is_ok result then self.old.lines.items ++ lines.now else self.old.lines.items) }
        ensures count { vec_len self.old.lines ≤ vec_len self.new.lines }
    {
        for line in lines {
            self.row(line)?;
        }
        self.lines.extend_from_slice(lines)?;
        Ok(())
    }

    /// Prints a line, with a star where it differs.
    fn row(&self, line: &Comparison) -> io::Result<()> {
        let name = line.name;
        let sheet = self.written(i128::from(line.sheet), line.unit)?;
        let worked = self.written(i128::from(line.worked), line.unit)?;
        if !line.differs() {
            return println!(self.rt; "    {name:<56}{sheet:>15}{worked:>15}");
        }
        let difference = self.written(line.difference(), line.unit)?;
        println!(self.rt; "  * {name:<56}{sheet:>15}{worked:>15}{difference:>15}")
    }

    /// A figure as text.
    fn written(&self, value: i128, unit: Unit) -> Result<String, AllocError> {
        format!(in self.rt.alloc(); "{}", Figure { value, unit })
    }
}
