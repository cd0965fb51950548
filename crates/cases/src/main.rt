// Answers cases by their op's number: an op word, then that op's words, and out its answer's words.
// Each module holds the ops of one hundred. The program stops at the end of the input and at an op
// that it does not know; what a cut case lacks counts as 0. A read or a write that fails ends it.

#![tactic(auto)]

mod bands;
mod calls;
mod filters;
mod floats;
mod frames;
mod losses;
mod modes;
mod noise;
mod pitch;
mod search;
mod streams;
mod transform;

use std::io;
use streams::Wire;

// One case; false where there is no more to answer. Each module has a hundred of the protocol's numbers, and its own `answer`
// says whether it knows the one: a match on numbers, since numbers are what comes, and a bool, since known or not is all that is
// asked. Of one shape, and apart: one match of all numbers would be longer than a function may be. None is inlined, or this
// program's stack would hold the buffers of all.
fn answer(wire: &mut Wire) -> io::Result<bool> {
    let Some(op) = wire.next_word()? else {
        return Ok(false);
    };
    match op / 100 {
        1 => floats::answer(wire, op),
        2 => filters::answer(wire, op),
        3 => search::answer(wire, op),
        4 => bands::answer(wire, op),
        5 => modes::answer(wire, op),
        6 => transform::answer(wire, op),
        7 => frames::answer(wire, op),
        8 => pitch::answer(wire, op),
        9 => noise::answer(wire, op),
        10 => losses::answer(wire, op),
        _ => Ok(false),
    }
}

// Each answer is out before the next case is read. Nothing says that the input ends, so the loop counts to a number that no
// run reaches.
fn main(rt: HostRuntime) -> io::Result<()> {
    let mut wire = Wire::new(rt.alloc(), rt.stdin(), rt.stdout())?;
    for _ in 0..u64::MAX {
        let more = answer(&mut wire)?;
        wire.flush()?;
        if !more {
            break;
        }
    }
    Ok(())
}
