//! How a run ends: its exit status, and what it tells on standard error.
use report_judge::Verdict;

/// How the program is called.
pub const USAGE: &str = "usage: xds_judge SESSION REPORT";

/// How a run ended.
#[derive(Drop)]
pub enum Ending {
    /// The report was judged.
    Judged(Verdict),
    /// It was printed how the program is called.
    Helped,
    /// The words aren't two files.
    Words,
    /// A file couldn't be read.
    ReadFault,
    /// Standard output took not all that was written.
    WriteFault,
    /// There was no memory.
    Memory,
}

impl Ending {
    /// The number with which the program ends.
    pub fn number(&self) -> u8 {
        match self {
            Ending::Judged(Verdict::Legal) | Ending::Helped => 0,
            Ending::Judged(Verdict::NotLegal(_)) => 1,
            Ending::Words => 2,
            Ending::Judged(Verdict::Session { .. }) => 3,
            Ending::ReadFault => 4,
            Ending::WriteFault => 5,
            Ending::Judged(Verdict::Memory) | Ending::Memory => 6,
        }
    }

    /// Tells on standard error why the status isn't 0.
    pub fn tell<R: Eprint>(&self, rt: &R) {
        let _ = match self {
            Ending::Judged(Verdict::Legal) | Ending::Helped => Ok(()),
            Ending::Judged(Verdict::NotLegal(mistake)) => eprintln!(rt; "{mistake}"),
            Ending::Words => eprintln!(rt; "{USAGE}"),
            Ending::Judged(Verdict::Session { line, cause }) => {
                eprintln!(rt; "xds_judge: session line {line}: {cause}")
            }
            Ending::ReadFault => eprintln!(rt; "xds_judge: read fault"),
            Ending::WriteFault => eprintln!(rt; "xds_judge: write fault"),
            Ending::Judged(Verdict::Memory) | Ending::Memory => {
                eprintln!(rt; "xds_judge: out of memory")
            }
        };
    }
}
