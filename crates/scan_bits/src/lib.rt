//! Shift registers as lists of bits, packed in words, and the laws of their definitions.
#![tactic(auto)]

mod bits;
mod laws;
mod rows;

pub use bits::Bits;
pub use laws::{
    bit_vectors_are_bytes, bits_are_joined, bits_are_numbers, bytes_are_numbers,
    shifts_are_a_queue, shifts_are_a_stream, shifts_are_joined, shifts_keep_the_length,
    stages_are_one_register,
};

#[cfg(test)]
mod tests;
