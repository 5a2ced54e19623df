//! Histories: what the cores did to the blocks, in one order, and what parts of it can stand alone.
//!
//! An operation is one call of one core: its ticket, its transaction, each block that it found with the content and the
//! last writer, and each block that it wrote. A history is legal where the tickets are 0, 1, 2 and so on and each operation
//! found what those before it left. A transaction of a core is the operations with its number; it follows each earlier one
//! of its core, and each one whose writes it found. A cut has on each core the transactions below a bound, and is
//! consistent where it holds all that it follows.
//!
//! What crash recovery rests on is proved here of lists alone: **a consistent cut is a history**. Each operation of it
//! found, in the state that the cut's operations before it left, the content and the last writer that it found in the whole
//! history. The state after the cut has in each block the content that the operation of the greatest ticket in the cut
//! wrote there. Cores may be any number.
//!
//! There are definitions and laws and no other code: each law is what a call with no effect ensures.
#![tactic(auto)]

pub mod laws;
