use crate::chooser::Chooser;
use crate::greedy::Greedy;
use crate::hand::Hand;
use crate::question::Question;
use std::test::Fail;

// Asks one hand about each list in turn. It compares by hand, since `assert_eq!` may stop the program, and the right to
// do so is the test's own: a helper would have to ask for it.
fn hand_over(table: &[(&[u8], u16)]) -> Result<(), Fail> {
    let mut hand = Hand::new();
    for (dead, block) in table {
        let named = hand.choose(Question { dead: *dead });
        if named != *block {
            return Err(Fail::new(format_args!("named {named} in place of {block}")));
        }
    }
    Ok(())
}

#[test]
fn the_hand_goes_upwards_and_round() -> Result<(), Fail> {
    hand_over(&[
        (&[3, 0, 7, 2], 0),
        (&[3, 0, 7, 2], 2),
        (&[3, 0, 7, 2], 0),
        (&[0, 0, 0, 9], 3),
        (&[1, 4], 1),
        (&[0, 5, 5], 2),
        (&[0, 5, 5], 1),
    ])
}

#[test]
fn the_hand_takes_its_turn_at_equal_counts() -> Result<(), Fail> {
    hand_over(&[
        (&[0, 0, 0], 0),
        (&[0, 0, 0], 1),
        (&[0, 0, 0], 2),
        (&[4, 4, 4], 0),
        (&[9], 0),
        (&[0], 0),
        (&[1; 64], 1),
        (&[32; 64], 2),
    ])
}

#[test]
fn other_lists_are_answered_0_and_leave_the_hand_where_it_was() -> Result<(), Fail> {
    hand_over(&[
        (&[2, 2, 2], 0),
        (&[], 0),
        (&[2, 2, 33], 0),
        (&[1; 65], 0),
        (&[2, 2, 2], 1),
    ])
}

#[test]
fn greedy_names_the_block_with_the_most(rt: HostRuntime) {
    let table: [(&[u8], u16); 7] = [
        (&[3, 0, 7, 2], 2),
        (&[3, 0, 7, 8], 3),
        (&[9], 0),
        (&[0], 0),
        (&[], 0),
        (&[1, 33], 0),
        (&[1; 65], 0),
    ];
    for (dead, block) in table {
        let mut greedy = Greedy;
        assert_eq!(rt; greedy.choose(Question { dead }), block);
    }
}

#[test]
fn greedy_names_some_block_on_a_tie(rt: HostRuntime) {
    let lists: [&[u8]; 4] = [&[4, 4, 4], &[0, 0], &[0; 64], &[32; 64]];
    for dead in lists {
        let mut greedy = Greedy;
        assert!(rt; usize::from(greedy.choose(Question { dead })) < dead.len());
    }
}
