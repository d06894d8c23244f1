// Reads the mesh file that each argument names, or standard input where there is none, and prints one line for it: its counts, the
// number that it is refused with, or that it is longer than 65,536 bytes (document 02, request 2). Where its output cannot be written it
// says so on the error stream and stops; its exit status is 0 all the same.
#![tactic(auto)]

ghost use Rattle.std.specs.Prelude.{◌≡◌, ◌≤◌, ◌==◌, length, take, IfOk};
ghost use Rattle.mesh_file.specs.Reading.{read_result, checked, read_of};

use mesh_file::{Counts, Refusal};
use std::env::{Env, FillError};
use std::fs::File;
use std::io::Read;
use std::rt::Files;
use std::{fmt, io, str};

// Why a file has no counts.
#[derive(Clone, Copy, Debug, PartialEq, Eq)]
enum Problem {
    CannotOpen,
    CannotRead,
    TooLong,
    Refused(Refusal),
}

impl From<Refusal> for Problem {
    fn from(refusal: Refusal) -> Problem {
        Problem::Refused(refusal)
    }
}

impl fmt::Display for Problem {
    fn fmt<W: fmt::Write>(&self, f: &mut fmt::Formatter<W>) -> fmt::Result {
        match self {
            Problem::CannotOpen => write!(f, "cannot open"),
            Problem::CannotRead => write!(f, "cannot read"),
            Problem::TooLong => write!(f, "too long"),
            Problem::Refused(refusal) => write!(f, "refused {}", u32::from(*refusal)),
        }
    }
}

// A read of no byte is the end, and no other: a pipe may bring one byte at a time.
fn is_end(more: usize) -> bool
    ensures { result ≡ (more == 0) }
{
    more == 0
}

// All that there is to read, up to the buffer's length.
fn read_all(from: &mut impl Read, buf: &mut [u8]) -> io::Result<usize>
    ensures in_bounds { IfOk result (λ n. n ≤ length buf.new) }
    ensures prefix { IfOk result (λ n. n ≡ length (take n buf.new)) }
{
    let mut n = 0;
    while n < buf.len() {
        let more = from.read(&mut buf[n..])?;
        if is_end(more) {
            break;
        }
        n += more;
    }
    Ok(n)
}

// A file of 65,536 bytes has at most 2,047 vertices or triangles, so the room is never too short.
fn read_mesh(file: &[u8]) -> Result<Counts, Refusal>
    requires { length file.now ≤ 65536 }
    ensures { read_result result ≡ checked (read_of file.now) }
{
    let mut positions = [0.0f32; 6141];
    let mut normals = [0.0f32; 6141];
    let mut indices = [0u32; 6141];
    mesh_file::read_mesh(file, &mut positions, &mut normals, &mut indices)
}

fn read_counts(from: &mut impl Read) -> Result<Counts, Problem> {
    let mut file = [0u8; 65537];
    let n = read_all(from, &mut file).map_err(|_| Problem::CannotRead)?;
    if n > 65536 {
        return Err(Problem::TooLong);
    }
    Ok(read_mesh(&file[..n])?)
}

// Puts an argument at the start of the buffer, and answers its length: 0 where it does not fit.
fn arg(rt: &impl Env, i: usize, buf: &mut [u8]) -> usize
    ensures { result ≤ length buf.new }
{
    rt.arg(i, buf).unwrap_or(0)
}

// A path is text: a file whose path is not cannot be opened.
fn open_read<R: Files>(rt: &R, path: &[u8]) -> Option<R::File> {
    let path = str::from_utf8(path).ok()?;
    File::open(rt, path).ok()
}

fn read_argument(rt: &(impl Env + Files), i: usize) -> Result<Counts, Problem> {
    let mut path = [0u8; 4096];
    let n = arg(rt, i, &mut path);
    let mut file = open_read(rt, &path[..n]).ok_or(Problem::CannotOpen)?;
    read_counts(&mut file)
}

// An error where not all of the line was written.
fn print_line(rt: &impl Print, read: Result<Counts, Problem>) -> io::Result<()> {
    match read {
        Ok(counts) => {
            println!(rt;
                "vertices {} triangles {}",
                counts.vertices, counts.triangles
            )
        }
        Err(problem) => println!(rt; "{problem}"),
    }
}

// How many arguments the program was started with, its own name among them.
fn arg_count(rt: &impl Env) -> usize {
    (0..usize::MAX)
        .find(|i| matches!(rt.arg(*i, &mut []), Err(FillError::NotPresent)))
        .unwrap_or(usize::MAX)
}

// What the system calls an error, without its number.
fn words(shown: &str) -> &str {
    shown
        .split_once(" (os error ")
        .map_or(shown, |(words, _)| words)
}

fn tell_not_written(rt: &(impl Alloc + Eprint), error: io::Error) {
    let _ = match error.to_string(rt.alloc()) {
        Ok(shown) => eprintln!(rt; "mesh_info: cannot write: {}", words(&shown)),
        Err(_) => eprintln!(rt; "mesh_info: cannot write: {error}"),
    };
}

fn print_all(rt: &HostRuntime) -> io::Result<()> {
    let arguments = arg_count(rt);
    if arguments < 2 {
        return print_line(rt, read_counts(&mut rt.stdin()));
    }
    for i in 1..arguments {
        print_line(rt, read_argument(rt, i))?;
    }
    Ok(())
}

fn main(rt: HostRuntime) {
    if let Err(e) = print_all(&rt) {
        tell_not_written(&rt, e);
    }
}
