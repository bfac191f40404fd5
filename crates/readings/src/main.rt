// Document 01's bench readings that are no P row, its readings to distrust, and every transaction call at the boundary of each number that
// it can answer, on good stores and on damaged ones, run on the calls. The P rows are in specs/Bench: they are proved, not run. Its
// standard input is the script of the cases.
#![tactic(auto)]

fn main() {
    let mut line = [0u8; 16384];
    script::run_input(&mut line);
}
