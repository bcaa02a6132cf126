// Shows which block greedy and the hand name, one list of dead pages after another.
#![tactic(auto)]

use chooser::{Greedy, Hand, Question, block_to_empty};
use std::io;

// Asks both choosers about a list.
fn show(rt: &impl Print, greedy: &mut Greedy, hand: &mut Hand, dead: &[u8]) -> io::Result<()> {
    let most = block_to_empty(greedy, Question { dead });
    let turn = block_to_empty(hand, Question { dead });
    println!(rt; "{dead:?}: greedy names {most}, the hand names {turn}")
}

fn main(rt: HostRuntime) -> io::Result<()> {
    let lists: [&[u8]; 6] = [
        &[3, 0, 7, 2],
        &[3, 0, 7, 2],
        &[3, 0, 7, 2],
        &[1, 4],
        &[1, 33],
        &[3, 0, 7, 2],
    ];
    let mut greedy = Greedy;
    let mut hand = Hand::new();
    for dead in lists {
        show(&rt, &mut greedy, &mut hand, dead)?;
    }
    Ok(())
}
