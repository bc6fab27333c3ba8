use std::alloc::{AllocError, Global};

/// What the program is to write and to report, and its status.
pub struct Answer {
    pub status: u8,
    /// What is written, or what `audit` writes of that.
    pub output: Vec<u8>,
    pub is_audited: bool,
    /// A line of what is written.
    pub held: Vec<u8>,
    /// What standard error gets, or how that begins.
    pub errors: Vec<u8>,
    pub errors_go_on: bool,
}

impl Drop for Answer {
    fn drop(self) {
        let Answer {
            status: _,
            output: _,
            is_audited: _,
            held: _,
            errors: _,
            errors_go_on: _,
        } = self;
    }
}

impl Answer {
    /// An answer that is written so, and of which standard error gets nothing.
    pub fn new(alloc: Global, status: u8, output: Vec<u8>) -> Answer {
        Answer {
            status,
            output,
            is_audited: false,
            held: Vec::new(alloc),
            errors: Vec::new(alloc),
            errors_go_on: false,
        }
    }
}

fn line(alloc: Global, status: u8, words: &str, number: usize) -> Result<Answer, AllocError> {
    let line = format!(in alloc; "{words} {number}\n")?;
    Ok(Answer::new(alloc, status, line.into_bytes()))
}

/// A text is refused at this line.
pub fn refusal(alloc: Global, number: usize) -> Result<Answer, AllocError> {
    line(alloc, 1, "refused 10 line", number)
}

/// A history of so many entries is legal.
pub fn legal(alloc: Global, count: usize) -> Result<Answer, AllocError> {
    line(alloc, 0, "legal", count)
}

/// The entry with this number is the first that is bad.
pub fn first_bad(alloc: Global, number: usize) -> Result<Answer, AllocError> {
    line(alloc, 4, "first bad", number)
}
