// For tests only, as `trial` is: whole records from lent words.
//
// A block of words holds a record. A word that the block lacks reads 0, and a place that it lacks takes nothing.
//
//   part         words  what they hold, in this order
//   instruction     10  a mark (0: a bubble, or none kept; 1: an instruction), address, status, code, function, rA, rB, constant, next, fault
//   state           22  fifteen registers, ZF, SF, OF, status, last address, fault, fault address
//   window           3  whether there is one, its first address, its end
//
//   block        words  what they hold, each with its first place
//   machine         27  0 state, 22 program address, 23 count, 24 window
//   pipeline        96  0 predicted address; 1 D: instruction; 11 E: instruction, a, b; 23 M: instruction, a, result, holds;
//                       36 W: instruction, result, holds, word, status, patched; 51 state; 73 retired; 74 cycles;
//                       75 cycles charged for load-use, mispredict, return, patch; 79 kept: instruction, holds, patched;
//                       91 settings: the number of the rule, whether store data comes late, window
//   fetched         11  0 instruction, 10 fault address
//
// A status is its number in document 01, any other word AOK; a fault is its number in document 02, any other word none. Of a word for a byte the lowest byte counts, of a word for
// a truth value the lowest bit. Where a record has a bubble, or keeps none, only the mark is written: the words after
// it stay as they were. Where there is no window its first address and end stay so too.

#![tactic(auto)]

pub mod layout;
pub mod reading;
