//! The parts of which programs are made, for other texts that hold programs: readers of words,
//! numbers, names, signatures and bodies, the places of their faults, and printers.
//!
//! A reader takes a prefix of a text and gives what it read with the bytes after it. Its error is a
//! `Stop`, the first fault with the number of bytes that are left there, or want of memory;
//! `refused_by` makes it the refusal of the whole text, wherever in it the reader began.

pub use crate::fault::Fault;
pub use crate::named::Named;
pub use crate::naming::named_in;
pub use crate::operand_reading::{integer_of, judged, offset_at, pointer_of};
pub use crate::param_reading::signature_at;
pub use crate::parsing::{body_at, refused_by};
pub use crate::printing::{
    integer_name, pointer_name, put_address, put_body, put_imm, put_number, put_signature,
};
pub use crate::stop::{ReadError, Stop};
pub use crate::tokens::{begins, is_word, met, name_at, number_at, signs_at, unfit, word_at};
