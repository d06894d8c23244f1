// Replays stored answers of the published Rust: each call of each named file is made through the library, and the answer, V, I and every
// number of the six lent buffers are compared with what is stored.
//
// data/ holds copies of oracle/stored/answers.bin and answers-changed.bin, written by scripts/store-answers; the README beside those gives
// their layout. The library must agree with every call of the first. In the second a bit of 24 expectations is changed, and each must be found.
#![tactic(auto)]

mod call;
mod list;
mod outcome;
mod stored;

ghost use Rattle.std.specs.Prelude.{◌≤◌, length};

use marks::stored::word;
use outcome::{Stop, Tally};
use std::env::{Env, FillError};
use std::fs::File;
use std::io::Read;
use std::rt::Files;
use std::str;

const HEAD: &str =
    "# Stored answers of the published Rust, replayed through the proved library: the answer, V, I and every number of the six
# lent buffers after each call. The library must agree with every call of answers.bin. In answers-changed.bin one bit is
# changed in 24 of the stored answers, and exactly those must be found (oracle/stored/README.md).";

// Whether the file goes on.
fn goes_on(from: &mut impl Read) -> bool {
    let mut one = [0u8; 1];
    from.read_exact(&mut one).is_ok()
}

// Call after call, to the end of the file, which must come right after the last.
fn replay(from: &mut impl Read, calls: u32) -> Result<Tally, Stop> {
    let mut tally = Tally::of(calls);
    for done in 0..calls {
        let differs = call::replay(from).map_err(|fault| Stop::After(done, fault))?;
        tally.count(differs);
    }
    if goes_on(from) {
        return Err(Stop::LeftOver);
    }
    Ok(tally)
}

// The first number is that of the calls.
fn replay_open(from: &mut impl Read) -> Result<Tally, Stop> {
    let mut first = [0u8; 4];
    list::read(from, 1, &mut first).map_err(|fault| Stop::After(0, fault))?;
    replay(from, word(&first, 0))
}

// A path is text: a file whose path is not cannot be opened.
fn open_read<R: Files>(rt: &R, path: &[u8]) -> Option<R::File> {
    let path = str::from_utf8(path).ok()?;
    File::open(rt, path).ok()
}

// A name need not be text, and is printed as it is.
fn replay_file(rt: &(impl Files + Print), name: &[u8]) {
    let file = open_read(rt, name);
    let _ = rt.write_all(name);
    let _ = print!(rt; ": ");
    let _ = match file.map(|mut from| replay_open(&mut from)) {
        None => println!(rt; "cannot be opened"),
        Some(Ok(tally)) => println!(rt; "{tally}"),
        Some(Err(stop)) => println!(rt; "{stop}"),
    };
}

// Puts an argument at the start of the buffer, and answers its length: 0 where it does not fit.
fn arg(rt: &impl Env, i: usize, buf: &mut [u8]) -> usize
    ensures { result ≤ length buf.new }
{
    rt.arg(i, buf).unwrap_or(0)
}

fn replay_argument(rt: &(impl Env + Files + Print), i: usize) {
    let mut name = [0u8; 4096];
    let n = arg(rt, i, &mut name);
    replay_file(rt, &name[..n]);
}

// How many arguments the program was started with, its own name among them.
fn arg_count(rt: &impl Env) -> usize {
    let mut room = [0u8; 0];
    for i in 0..usize::MAX {
        if let Err(FillError::NotPresent) = rt.arg(i, &mut room) {
            return i;
        }
    }
    usize::MAX
}

fn main(rt: HostRuntime) {
    let _ = println!(&rt; "{HEAD}");
    for i in 1..arg_count(&rt) {
        replay_argument(&rt, i);
    }
}
