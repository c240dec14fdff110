//! Queries on a module graph and their answers: definitions only, for the calls of the library and
//! for the lines of the program.
#![tactic(auto)]
