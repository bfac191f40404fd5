// Typed keys, run: requests in lines on standard input, each written again with its answer. The stored input has vectors, below lines that
// say what they show; oracle/run writes its own, of rows and keys that it makes from seeds.
//
//   encode ROOM FIELD..   into a buffer of ROOM bytes, each aa before: the number, the length, and the whole buffer
//   decode KEY KIND..     the number, how many fields, and the fields
//
// A kind is a letter: b boolean, u u64, i i64, f f64, y byte string, s string. A field is the letter and hex digits behind it: 00 or 01;
// sixteen digits of the number, in two's complement, or of the pattern; the string's bytes. Behind Y and S the part that is lent has
// one byte more than is spelt. A decoded string is its place and its length in the key, four digits each. KEY is hex, or - for no byte.
// Any other line is written as it is.
#![tactic(auto)]

mod answers;
mod digits;
mod fields;
mod lines;
mod requests;

use answers::Answer;
use lines::Block;
use requests::Desk;
use std::io::Read;

// The most bytes of an answer, its line included; what has no room is dropped.
const MOST: usize = 16384;

// A proved loop has to end, and nothing says that an input does: it has as many turns as no run uses up.
fn run<R: Read, P: Print>(input: &mut R, rt: &P) {
    let mut block = Block::new();
    let mut desk = Desk::new();
    let mut out = [0; MOST];
    for _ in 0..u64::MAX {
        let Some(line) = block.next_line(input) else {
            break;
        };
        let mut answer = Answer::new(&mut out);
        desk.answer_line(line, &mut answer);
        // An answer that is not written does not keep the next from being tried.
        let _ = rt.write_all(answer.as_slice());
    }
}

fn main(rt: HostRuntime) {
    run(&mut rt.stdin(), &rt);
}
