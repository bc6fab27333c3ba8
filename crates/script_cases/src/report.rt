use crate::call::Written;
use crate::trial::Trial;
use std::alloc::{AllocError, Global};
use std::fmt;

/// The most wrong answers that are listed.
const MOST_TOLD: u64 = 20;

/// How many calls were made, how many answers were wrong, and a line for each of the first of these.
pub struct Report {
    calls: u64,
    wrong: u64,
    lines: String,
}

impl Drop for Report {
    fn drop(self) {
        let Report {
            calls: _,
            wrong: _,
            lines: _,
        } = self;
    }
}

impl Report {
    pub fn new(alloc: Global) -> Report {
        Report {
            calls: 0,
            wrong: 0,
            lines: String::new(alloc),
        }
    }

    /// Counts a call.
    pub fn count(
        &mut self,
        trial: &Trial<'_>,
        written: &Written,
        is_right: bool,
    ) -> Result<(), AllocError> {
        self.calls = self.calls.wrapping_add(1);
        if is_right {
            return Ok(());
        }
        self.wrong = self.wrong.wrapping_add(1);
        if self.wrong <= MOST_TOLD {
            self.tell(trial, written)?;
        }
        Ok(())
    }

    fn tell(&mut self, trial: &Trial<'_>, written: &Written) -> Result<(), AllocError> {
        let line = format!(in trial.alloc;
            "  {}: {}: status {}, `{}`, `{}`\n",
            trial.case.title.as_str(),
            trial.line.as_slice().escape_ascii(),
            written.status,
            written.output.as_slice().escape_ascii(),
            written.errors.as_slice().escape_ascii(),
        )?;
        self.lines.push_str(line.as_str())
    }
}

impl fmt::Display for Report {
    fn fmt<W: fmt::Write>(&self, f: &mut fmt::Formatter<W>) -> fmt::Result {
        let calls = self.calls;
        let wrong = self.wrong;
        let lines = self.lines.as_str();
        write!(f, "{calls} calls, {wrong} wrong\n{lines}")
    }
}
