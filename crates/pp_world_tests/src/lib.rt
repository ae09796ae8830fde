//! What `pp_world`, `pp_memworld` and `pp_net` do, tried: worked calls, lives and crashes, over memory and over the system.
//!
//! Each table writes down calls and what they are to give, and one function plays it and says where it went otherwise. To prove a
//! test is dear, so what they share is proved once.
//!
//! Nothing stands on this crate. The three have no tests of their own, since a crate with tests is proved twice.
#![tactic(auto)]

#[cfg(test)]
mod calls; // calls on a disk, and what they give
#[cfg(test)]
mod clients; // clients of a program, over real connections
#[cfg(test)]
mod crashes; // what a crash leaves
#[cfg(test)]
mod disk_in_memory; // the calls on a disk in memory
#[cfg(test)]
mod folder_acts; // two programs over real folders, act by act
#[cfg(test)]
mod folders; // the calls on a real folder
#[cfg(test)]
mod images; // the files of a folder
#[cfg(test)]
mod lives; // lives of a folder in memory, and what crashes leave of them
#[cfg(test)]
mod outcome; // what of a table goes otherwise than it is written down
#[cfg(test)]
mod outside; // any wire and any disk
#[cfg(test)]
mod program; // what a program over real sockets reports, reads and writes
#[cfg(test)]
mod scene; // clients, origins and a program, act by act
#[cfg(test)]
mod scripts; // what comes to a world in memory
#[cfg(test)]
mod sockets; // the calls on real connections
#[cfg(test)]
mod system; // the configuration, and the addresses of names
#[cfg(test)]
mod telling; // what a world in memory tells
#[cfg(test)]
mod turns; // a script in memory, turn by turn
#[cfg(test)]
mod wire_in_memory; // the calls on a wire in memory
