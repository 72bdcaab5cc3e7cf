//! Does the work of one layer again and again, so that it can be timed alone.
//!
//! ```text
//! layer_bench scan < LOG            reads the lines of a log
//! layer_bench pdu COUNT             reads the layouts of COUNT frames
//! layer_bench receive BYTES COUNT   receives COUNT messages of this size
//! layer_bench segment BYTES COUNT   cuts COUNT messages of this size into frames
//! layer_bench pair COUNT            pairs a request and COUNT messages that don't answer it
//! layer_bench order COUNT           puts the same messages in order
//! layer_bench put COUNT             puts COUNT requests and answers in order, each as it comes
//! layer_bench line COUNT            writes COUNT lines of a canonical log
//! ```
//!
//! Each prints its word and a number that every result goes into, so that no result can be left out.
//! Without words each layer does a little work, of which the number is known. `bench/layers` measures.
#![tactic(auto)]

mod line;
mod message;
mod order;
mod pair;
mod pdu;
mod receive;
mod scan;
mod segment;

use std::alloc::Global;
use std::io::Read;
use std::{env, io};

/// The number that the word spells, 0 where it spells none.
fn number(word: Option<String>) -> u64 {
    word.and_then(|word| word.as_str().parse().ok())
        .unwrap_or(0)
}

/// What the layer of this name makes of the numbers and of the log, or `None` where there is no such
/// layer.
fn work<R: Read>(
    alloc: Global,
    layer: &str,
    numbers: [u64; 2],
    log: &mut R,
) -> io::Result<Option<u64>> {
    let [first, second] = numbers;
    Ok(Some(match layer {
        "scan" => scan::sum_of_lines(alloc, log)?,
        "pdu" => pdu::sum_of_layouts(alloc, first)?,
        "receive" => receive::sum_of_messages(alloc, first, second)?,
        "segment" => segment::sum_of_frames(alloc, first, second)?,
        "pair" => pair::sum_of_strays(alloc, first)?,
        "order" => order::sum_of_held(alloc, first)?,
        "put" => order::sum_of_put(alloc, first)?,
        "line" => line::sum_of_ends(first),
        _ => return Ok(None),
    }))
}

/// A little work of each layer: its name and its numbers.
const SELF_CHECK: [(&str, [u64; 2]); 8] = [
    ("scan", [0, 0]),
    ("pdu", [4096, 0]),
    ("receive", [20, 3]),
    ("segment", [20, 3]),
    ("pair", [3, 0]),
    ("order", [3, 0]),
    ("put", [4, 0]),
    ("line", [3, 0]),
];

fn self_check(rt: &HostRuntime) -> io::Result<()> {
    for (layer, numbers) in SELF_CHECK {
        let mut log = b"(1.000000) can0 7E0#0322F190\n\n(1.1".as_slice();
        if let Some(sum) = work(rt.alloc(), layer, numbers, &mut log)? {
            println!(rt; "{layer} {sum}")?;
        }
    }
    Ok(())
}

fn main(rt: HostRuntime) -> io::Result<()> {
    let mut words = env::args(&rt)?;
    let _ = words.next();
    let Some(layer) = words.next() else {
        return self_check(&rt);
    };
    let numbers = [number(words.next()), number(words.next())];
    match work(rt.alloc(), layer.as_str(), numbers, &mut rt.reader())? {
        Some(sum) => println!(rt; "{layer} {sum}"),
        None => println!(rt; "{layer} is no layer"),
    }
}
