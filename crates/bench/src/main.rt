//! Compares the shelves with one another and the keepers with one another, call by call, on random calls. With an argument it
//! prints how long each of them takes instead.

#![tactic(auto)]

mod calls;
mod compare;
mod random;
mod times;

use std::{env, io};

fn main(rt: HostRuntime) -> io::Result<()> {
    if env::args(&rt)?.nth(1).is_some() {
        times::print_all(&rt)
    } else {
        compare::print_all(&rt)
    }
}
