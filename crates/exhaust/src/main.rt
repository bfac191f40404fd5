// Short exhaustive runs: every log of up to three small entries, cut at every length, opened into tables of 0 to 3 slots that were full
// of junk, and each answer, table word, get and scan step beside a plain reading of the same bytes.
#![tactic(auto)]

mod compare;
mod logs;
mod plain;
mod readings;
mod show;
mod tally;

use compare::run_open;
use logs::{KINDS, make_log};
use tally::{Case, Tally, more, show_tally};

// One log, cut at every length and opened into tables of every size.
fn run_log(entries: usize, code: usize, tally: &mut Tally) {
    let log = make_log(entries, code);
    let bytes = log.as_slice();
    for used in 0..=bytes.len() {
        for slots in 0..=3 {
            let case = Case {
                entries,
                code,
                used,
                slots,
            };
            let mut table = [7u32; 9];
            run_open(bytes, &mut table[..3 * slots], case, tally);
        }
    }
    tally.logs = more(tally.logs);
}

fn run_logs() -> Tally {
    let mut tally = Tally::default();
    let codes = [1, KINDS, KINDS * KINDS, KINDS * KINDS * KINDS];
    for (entries, end) in codes.into_iter().enumerate() {
        for code in 0..end {
            run_log(entries, code, &mut tally);
        }
    }
    tally
}

fn main(rt: HostRuntime) {
    let tally = run_logs();
    show_tally(&rt, &tally);
    readings::show_readings(&rt);
}
