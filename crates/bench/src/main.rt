// The bench program: a tape on standard input, its answers on standard output. What a record does is crate tape's; here are the buffers,
// and the bytes from one end to the other.
#![tactic(auto)]

mod feed;
mod store;

use feed::run;
use store::Store;

fn main(rt: HostRuntime) {
    let mut store = Store::new();
    if let Err(fault) = run(&mut rt.stdin(), &rt, &mut store) {
        // `./run` goes by this line: the program ends with 0 all the same.
        let _ = eprintln!(rt; "bench: {fault}");
    }
}
