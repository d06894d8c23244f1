// A stored call, read from an open file: what is asked, and what it must answer.
use crate::list::read;
use crate::outcome::Fault;
use grid::{Block, EachAxis, Extent};
use judge::Lengths;
use marks::stored::word;
use std::io::Read;

// What stands before the distances; `grid` is their number.
#[derive(Clone, Copy)]
pub(crate) struct Asked {
    pub(crate) block: Block,
    pub(crate) grid: usize,
}

// What stands after the distances: the length of each lent list, and what is answered. The lists as they must be follow.
#[derive(Clone, Copy)]
pub(crate) struct Expected {
    pub(crate) lent: Lengths,
    pub(crate) answer: u32,
    pub(crate) vertex_count: u32,
    pub(crate) index_count: u32,
}

const LONGEST_GRID: u32 = 256;

const LONGEST_LIST: u32 = 512;

fn corner(head: &[u8], x: usize, y: usize, z: usize) -> Extent {
    Extent {
        x: word(head, x),
        y: word(head, y),
        z: word(head, z),
    }
}

// 1 for x, 2 for y and 4 for z.
fn plane(word: u32) -> EachAxis {
    EachAxis {
        x: word % 2 == 1,
        y: word / 2 % 2 == 1,
        z: word / 4 % 2 == 1,
    }
}

fn block_in(head: &[u8]) -> Block {
    Block {
        dims: corner(head, 0, 1, 2),
        low: corner(head, 3, 4, 5),
        high: corner(head, 6, 7, 8),
        max_plane: plane(word(head, 9)),
    }
}

fn asked_in(head: &[u8]) -> Asked {
    Asked {
        block: block_in(head),
        grid: word(head, 10) as usize,
    }
}

// Malformed where a max plane is above 7, or the grid is too long.
pub(crate) fn read_head(from: &mut impl Read) -> Result<Asked, Fault> {
    let mut head = [0u8; 44];
    read(from, 11, &mut head)?;
    if 7 < word(&head, 9) || LONGEST_GRID < word(&head, 10) {
        return Err(Fault::Malformed);
    }
    Ok(asked_in(&head))
}

// The crossings are not stored: as many are lent as strides, so that no stored answer is another for them.
fn lent_in(tail: &[u8]) -> Lengths {
    Lengths {
        positions: word(tail, 0) as usize,
        normals: word(tail, 1) as usize,
        cells: word(tail, 2) as usize,
        strides: word(tail, 3) as usize,
        crossings: word(tail, 3) as usize,
        map: word(tail, 4) as usize,
        indices: word(tail, 5) as usize,
    }
}

fn expected_in(tail: &[u8]) -> Expected {
    Expected {
        lent: lent_in(tail),
        answer: word(tail, 6),
        vertex_count: word(tail, 7),
        index_count: word(tail, 8),
    }
}

// Malformed where one of the six lengths is too long.
pub(crate) fn read_tail(from: &mut impl Read) -> Result<Expected, Fault> {
    let mut tail = [0u8; 36];
    read(from, 9, &mut tail)?;
    if (0..6).any(|j| LONGEST_LIST < word(&tail, j)) {
        return Err(Fault::Malformed);
    }
    Ok(expected_in(&tail))
}
