// What the programs share: whole files; of the programs of vectors: files run line by line, the fields of a line, answers as text, and
// lent rooms.
//
// No public function asks anything of its arguments, but that the closure it is given may be called. They are proved safe, and to end;
// what they read and print is tested by the programs.
#![tactic(auto)]

pub mod answer;
pub mod fields;
pub mod files;
pub mod room;
pub mod vectors;
