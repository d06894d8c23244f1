// The conditions of document 01 that speak of dimensions, box and the grid's length alone: 1, 2 and 3. No slice is read here, and any numbers may come.
ghost use Rattle.std.specs.Prelude.{◌≡◌};
ghost use Rattle.rules.specs.Call.{bad_dimension, bad_dimensions, bad_side, bad_box, bad_length};
ghost use Rattle.grid.specs.Block.{point, box_of};
ghost use Rattle.grid.specs.Faults.{number_of, fault_of, first_fault};

use crate::{Block, Extent};

// A dimension is 0 or above 16,777,217.
pub fn bad_dimension(n: u32) -> bool
    ensures { result ≡ bad_dimension n }
{
    if n == 0 {
        return true;
    }
    16777217 < n
}

// Condition 1. Two dimensions are multiplied first, and the third only where that product is small: three of 32 bits would not fit 64.
pub fn bad_dimensions(d: Extent) -> bool
    ensures { result ≡ bad_dimensions (point d) }
{
    if bad_dimension(d.x) {
        return true;
    }
    if bad_dimension(d.y) {
        return true;
    }
    if bad_dimension(d.z) {
        return true;
    }
    let plane = (d.x as u64) * (d.y as u64);
    if 1073741824 < plane {
        return true;
    }
    1073741824 < plane * (d.z as u64)
}

// Min is above max, or max is not below its dimension, on one axis.
pub fn bad_side(dim: u32, low: u32, high: u32) -> bool
    ensures { result ≡ bad_side dim low high }
{
    if high < low {
        return true;
    }
    dim <= high
}

// Condition 2.
pub fn bad_box(k: Block) -> bool
    ensures { result ≡ bad_box (point k.dims) (box_of k) }
{
    if bad_side(k.dims.x, k.low.x, k.high.x) {
        return true;
    }
    if bad_side(k.dims.y, k.low.y, k.high.y) {
        return true;
    }
    bad_side(k.dims.z, k.low.z, k.high.z)
}

// Condition 3, as document 02, request 9, has it: the grid's length is not the product of the dimensions. The length is divided, since the product of
// three numbers of 32 bits would not fit 64.
pub fn bad_length(d: Extent, length: usize) -> bool
    ensures { result ≡ bad_length (point d) length }
{
    let plane = (d.x as usize) * (d.y as usize);
    if plane == 0 {
        return length != 0;
    }
    if length % plane != 0 {
        return true;
    }
    length / plane != d.z as usize
}

// Which of the conditions 1 to 3 holds, the first of them where several do. Its number is the answer of every call that reads a grid.
#[derive(Clone, Copy, Debug, PartialEq, Eq)]
pub enum Fault {
    Dimensions,
    Box,
    Length,
}

impl From<Fault> for u32 {
    ghost from_gives = { λ fault number. number ≡ number_of fault };

    fn from(fault: Fault) -> u32 {
        match fault {
            Fault::Dimensions => 1,
            Fault::Box => 2,
            Fault::Length => 3,
        }
    }
}

// Conditions 1 to 3 in their order. Every call that reads a grid begins here.
pub fn first_fault(k: Block, length: usize) -> Result<(), Fault>
    ensures { fault_of result ≡ first_fault (point k.dims) (box_of k) length }
{
    if bad_dimensions(k.dims) {
        return Err(Fault::Dimensions);
    }
    if bad_box(k) {
        return Err(Fault::Box);
    }
    if bad_length(k.dims, length) {
        return Err(Fault::Length);
    }
    Ok(())
}
