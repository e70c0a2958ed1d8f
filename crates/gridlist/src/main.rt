//! Lists the message on standard input: `gridlist < message`.
#![tactic(auto)]

use listing::listing::listing_of;
use std::io;
use std::io::Read;

/// The most octets that are read.
const MOST: u64 = 65_536;

fn main(rt: HostRuntime) -> io::Result<()> {
    let mut octets = Vec::new(rt.alloc());
    rt.stdin().take(MOST).read_to_end(&mut octets)?;
    let text = listing_of(octets.as_slice());
    print!(rt; "{text}")
}
