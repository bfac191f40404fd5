// The bench readings P6 to P9, and openings at the edges, printed line by line: the log, the used length and the table's size that were
// given, the answer, the live keys and the table's words.
use crate::show::{Hex, Words};
use bitcask::{Used, open};
use keycode::{Refusal, number_of};
use std::fmt;

#[derive(Clone, Copy)]
struct Answer(Result<Used, Refusal>);

impl fmt::Display for Answer {
    fn fmt<W: fmt::Write>(&self, f: &mut fmt::Formatter<W>) -> fmt::Result {
        match self.0 {
            Ok(used) => write!(f, "done, used {}", used.len),
            Err(refusal) => write!(f, "refused with {}", number_of(refusal)),
        }
    }
}

// The slots in use: those whose first word is not 0.
fn keys(table: &[u32]) -> usize {
    table.iter().step_by(3).filter(|word| **word != 0).count()
}

// A line that is not written does not keep the next from being tried.
fn reading(rt: &impl Print, name: &str, log: &[u8], used: usize, table: &mut [u32]) {
    let answer = Answer(open(log, Used { len: used }, table));
    let bytes = Hex(log);
    let size = table.len();
    let live = keys(table);
    let words = Words(table);
    let _ = println!(rt;
        "{name} {bytes} used {used} words {size}: {answer}, keys {live}, table{words}"
    );
}

fn show_bench(rt: &impl Print) {
    let log = [
        0u8, 0, 0, 1, 0, 0, 0, 2, b'a', b'x', b'y', 0, 0, 0, 1, 255, 255, 255, 255, b'a',
    ];
    let lowest = [0u8, 0, 0, 1, 128, 0, 0, 0, b'a'];
    reading(rt, "P6", &log[..11], 11, &mut [7; 6]);
    reading(rt, "P7", &log[..10], 10, &mut [7; 6]);
    reading(rt, "P8", &log, 20, &mut [7; 6]);
    reading(rt, "P9", &lowest, 9, &mut [7; 6]);
}

fn show_edges(rt: &impl Print) {
    let log = [0u8, 0, 0, 1, 0, 0, 0, 2, b'a', b'x', b'y'];
    let long_key = [255u8; 8];
    let long_value = [0u8, 0, 0, 0, 127, 255, 255, 255];
    reading(rt, "P6 cut", &log, 10, &mut [7; 6]);
    reading(rt, "longest key", &long_key, 8, &mut [7; 6]);
    reading(rt, "longest value", &long_value, 8, &mut [7; 6]);
    reading(rt, "no slot", &log, 11, &mut [7; 0]);
    reading(rt, "used over the buffer", &log, 12, &mut [7; 6]);
    reading(rt, "words no multiple of three", &log, 11, &mut [7; 4]);
}

pub fn show_readings(rt: &impl Print) {
    show_bench(rt);
    show_edges(rt);
}
