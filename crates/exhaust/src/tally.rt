// What the runs count, and the first case that differed.
use crate::logs::make_log;
use crate::show::Hex;
use std::fmt;

#[derive(Clone, Copy, Debug, PartialEq, Eq)]
pub struct Case {
    pub entries: usize,
    pub code: usize,
    pub used: usize,
    pub slots: usize,
}

#[derive(Clone, Copy, Debug, Default, PartialEq, Eq)]
pub struct Tally {
    pub logs: u64,
    pub openings: u64,
    pub full: u64,
    pub gets: u64,
    pub steps: u64,
    pub wrong: u64,
    pub first: Option<Case>,
}

// No run counts as far as 2^64.
pub fn more(n: u64) -> u64 {
    n.wrapping_add(1)
}

impl Tally {
    pub fn judge(&mut self, right: bool, case: Case) {
        if !right {
            self.first = self.first.or(Some(case));
            self.wrong = more(self.wrong);
        }
    }
}

impl fmt::Display for Tally {
    fn fmt<W: fmt::Write>(&self, f: &mut fmt::Formatter<W>) -> fmt::Result {
        writeln!(f, "logs {}", self.logs)?;
        writeln!(f, "openings {}", self.openings)?;
        writeln!(f, "openings refused with 8 {}", self.full)?;
        writeln!(f, "gets {}", self.gets)?;
        writeln!(f, "scan steps {}", self.steps)?;
        writeln!(f, "differences {}", self.wrong)
    }
}

fn show_case(rt: &impl Print, case: Case) {
    let log = make_log(case.entries, case.code);
    let bytes = Hex(log.as_slice());
    let _ = println!(rt;
        "first difference: log {bytes} used {} slots {}",
        case.used, case.slots
    );
}

// What is not written keeps nothing behind it from being tried.
pub fn show_tally(rt: &impl Print, tally: &Tally) {
    let _ = print!(rt; "{tally}");
    if let Some(case) = tally.first {
        show_case(rt, case);
    }
}
