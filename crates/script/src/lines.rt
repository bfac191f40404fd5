// A line of a script: what a line asks is done in turn, and the answer of its last call written behind the line.
use crate::calls::Request;
use crate::spelling::asked::Asked;
use crate::spelling::names::{Call, Word, word_of};
use crate::spelling::show::text;
use crate::spelling::spell::{number, spell};
use crate::store::Store;

// A call with the strings that were asked.
fn run_call(call: Call, asked: &Asked, loud: bool, store: &mut Store) {
    let mut key = [0u8; 512];
    let mut value = [0u8; 4200];
    let mut after = [0u8; 512];
    let (version, _) = number(asked.first);
    let last = asked.last.map(|word| spell(word, &mut after));
    let request = Request {
        lower: asked.lower,
        upper: asked.upper,
        key: spell(asked.first, &mut key),
        value: spell(asked.second, &mut value),
        last,
        version,
    };
    store.run(call, &request, loud);
}

// The first word behind a name may be a number.
fn perform<'a>(words: &'a [u8], loud: bool, asked: &mut Asked<'a>, store: &mut Store) {
    let mut words = words.split(|byte| *byte == b' ');
    let word = word_of(words.next().unwrap_or(&[]));
    let first = words.next().unwrap_or(&[]);
    let second = words.next().unwrap_or(&[]);
    asked.take(word, first, second);
    match word {
        Some(Word::Edge(_)) => {}
        Some(Word::Setting(setting)) => store.set_up(setting, number(first).0),
        Some(Word::Call(call)) => run_call(call, asked, loud, store),
        None => text(b" UNKNOWN WORD"),
    }
}

// A call that others follow must not be refused: the case would not be what its words say.
fn warn(store: &Store) {
    if store.refused.is_some() {
        text(b" REFUSED BEFORE");
    }
}

// What stands between commas, in turn, behind each a space. The answer of the last call is shown where the line shows one.
fn run_calls(line: &[u8], shows: bool, store: &mut Store) {
    store.refused = None;
    let mut asked = Asked::nothing();
    let mut rest = line;
    while !rest.is_empty() {
        warn(store);
        let end = rest
            .iter()
            .position(|byte| *byte == b',')
            .unwrap_or(rest.len());
        let (words, behind) = rest.split_at(end);
        perform(words, shows && behind.is_empty(), &mut asked, store);
        rest = behind.get(2..).unwrap_or(&[]);
    }
}

// The store is left as the next line starts from it.
pub(crate) fn run_line(line: &[u8], store: &mut Store) {
    text(line);
    match line.first() {
        Some(b'G') => {
            *store = Store::empty();
            run_calls(line.get(7..).unwrap_or(&[]), false, store);
            warn(store);
        }
        Some(b'A'..=b'Z') => *store = Store::empty(),
        Some(b'>') => run_calls(line.get(2..).unwrap_or(&[]), true, store),
        Some(b'a'..=b'z') => {
            let mut own = *store;
            run_calls(line, true, &mut own);
        }
        _ => {}
    }
}
