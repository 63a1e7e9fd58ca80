//! Tests of what no clause says: whole runs of the program over bytes in memory, each with the bytes that it
//! has to write, the standard streams (`std_streams`), turns of a machine (`turns`), three clients at one
//! volume (`shared`), and races. It is a program, since nothing stands on it; what it does when it runs is
//! nothing.
#![tactic(auto)]

#[cfg(test)]
mod failing_io;
#[cfg(test)]
mod faults;
#[cfg(test)]
mod program;
#[cfg(test)]
mod races;
#[cfg(test)]
mod shared;
#[cfg(test)]
mod std_streams;
#[cfg(test)]
mod tests;
#[cfg(test)]
mod turns;

fn main() {}
