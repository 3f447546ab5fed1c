// Tests of what neither a clause says nor a line of text can: readers and writers of std that fail, memory, the disk, and stores of patterns that refuse.
// Cases that a line of text can say are played by format_rows and command_rows.
#![tactic(auto)]

#[cfg(test)]
mod commands;
#[cfg(test)]
mod idl;
#[cfg(test)]
mod io;
#[cfg(test)]
mod models;
#[cfg(test)]
mod shapes;
#[cfg(test)]
mod tree;
