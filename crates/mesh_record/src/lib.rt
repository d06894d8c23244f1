// One record of a mesh file (document 02, request 2): its words, their sum, its faults in the order of their numbers, the step that it is,
// and the record written. What asks a `requires` here is for the crates above.
#![tactic(auto)]

mod faults;
mod refusal;

ghost use Rattle.std.specs.Prelude.{◌≡◌, ◌+◌, ◌≤◌, length};
ghost use Rattle.mesh_record.specs.Record.{bytes_of, word_at, sum_of, record_of, laid};
ghost use Rattle.mesh_record.specs.Refusal.{answer_of};
ghost use Rattle.mesh_record.specs.Written.{record_answer, record_written};
ghost use Rattle.mesh_record.specs.Faults.{words_at, finite_bits, step_of, numbers_of, found_at};

use faults::check_words;
pub use refusal::Refusal;

// The eight words of a record.
#[derive(Clone, Copy, Debug, PartialEq, Eq)]
pub struct Words {
    pub kind: u32,
    pub a: u32,
    pub b: u32,
    pub c: u32,
    pub d: u32,
    pub e: u32,
    pub f: u32,
    pub sum: u32,
}

// So many vertices and triangles: what was read so far, or a whole mesh.
#[derive(Clone, Copy, Debug, Default, PartialEq, Eq)]
pub struct Counts {
    pub vertices: usize,
    pub triangles: usize,
}

// A good record, by its kind.
#[derive(Clone, Copy, Debug, PartialEq, Eq)]
pub enum Step {
    Vertex,
    Triangle,
    Closed,
}

impl TryFrom<u32> for Step {
    type Error = Refusal;

    ghost try_from_gives = { λ kind step. step ≡ step_of kind };

    fn try_from(kind: u32) -> Result<Step, Refusal> {
        match kind {
            1 => Ok(Step::Vertex),
            2 => Ok(Step::Triangle),
            3 => Ok(Step::Closed),
            _ => Err(Refusal::BadKind),
        }
    }
}

// ---- a record's words

#[tactic(auto, unfolding(crate::specs::Record::word_at))]
pub fn word_at(src: &[u8], at: usize) -> u32
    requires { at + 4 ≤ length src.now }
    ensures { result ≡ word_at src.now at }
{
    u32::from_le_bytes([src[at], src[at + 1], src[at + 2], src[at + 3]])
}

fn words_at(src: &[u8], at: usize) -> Words
    requires { at + 32 ≤ length src.now }
    ensures { result ≡ words_at src.now at }
{
    Words {
        kind: word_at(src, at),
        a: word_at(src, at + 4),
        b: word_at(src, at + 8),
        c: word_at(src, at + 12),
        d: word_at(src, at + 16),
        e: word_at(src, at + 20),
        f: word_at(src, at + 24),
        sum: word_at(src, at + 28),
    }
}

fn sum_of(words: &[u32]) -> u32
    ensures { result ≡ sum_of words.now }
{
    words
        .iter()
        .fold(0, |sum: u32, word| sum.wrapping_add(*word))
}

// The exponent's field of an infinity or a not-a-number is all ones.
pub fn finite_bits(word: u32) -> bool
    ensures { result ≡ finite_bits word }
{
    word % 2147483648 / 8388608 != 255
}

// ---- one record at a place

#[tactic(auto, unfolding(crate::specs::Faults::found_at))]
pub fn step_at(src: &[u8], at: usize, seen: Counts) -> Result<Step, Refusal>
    ensures { numbers_of result ≡ found_at src.now at seen }
{
    if src.len() < at || src.len() - at < 32 {
        return Err(Refusal::CutFile);
    }
    check_words(words_at(src, at), seen, at + 32 < src.len())
}

// ---- a record written

fn write_word(file: &mut [u8], at: usize, word: u32)
    requires { at + 4 ≤ length file.old }
    ensures { file.new ≡ laid (bytes_of word) at file.old }
{
    file[at..at + 4].copy_from_slice(&word.to_le_bytes());
}

// Seven words, and their sum as the eighth.
pub fn write_record(file: &mut [u8], at: usize, words: [u32; 7])
    requires { at + 32 ≤ length file.old }
    ensures { file.new ≡ laid (record_of words) at file.old }
{
    for (k, word) in words.iter().enumerate() {
        write_word(file, at + 4 * k, *word);
    }
    write_word(file, at + 28, sum_of(&words));
}

// The same at any place: where the record would end past the file it is refused, and nothing is written.
pub fn put_record(file: &mut [u8], at: usize, words: [u32; 7]) -> Result<(), Refusal>
    ensures value { answer_of result ≡ record_answer at file.old }
    ensures file_after { file.new ≡ record_written words at file.old }
    ensures words_len { length words ≡ 7 }
{
    if file.len() < at || file.len() - at < 32 {
        return Err(Refusal::ShortRoom);
    }
    write_record(file, at, words);
    Ok(())
}
