use crate::exports::{plan_meta_period, plan_runs, plan_writes};
use crate::figures::figures_hold;
use crate::numbers::{Job, Plan};
use crate::yields::yield_rule;

#[test]
fn the_figures_hold(rt: HostRuntime) {
    assert!(rt; figures_hold());
}

// Worked out by another program: alpha, period and writes, then meta-period, writes and runs.
#[test]
fn plans_are_as_worked_out_elsewhere(rt: HostRuntime) {
    let table: [[u32; 6]; 20] = [
        [1, 1, 1, 1, 1, 1],
        [1, 60000, 1024, 60000, 1024, 1024],
        [32, 60000, 1, 1920000, 32, 1],
        [32, 60000, 32, 60000, 32, 1],
        [32, 1, 33, 1, 33, 2],
        [32, 60000, 1024, 60000, 1024, 32],
        [1, 7, 2, 7, 2, 2],
        [31, 60000, 1024, 60000, 1024, 34],
        [32, 3, 3, 30, 30, 1],
        [2, 5, 1, 10, 2, 1],
        [21, 4748, 5, 18992, 20, 1],
        [7, 2458, 3, 4916, 6, 1],
        [6, 15773, 4, 15773, 4, 1],
        [6, 54189, 5, 54189, 5, 1],
        [8, 3250, 127, 3250, 127, 16],
        [15, 27469, 273, 27469, 273, 19],
        [10, 36718, 242, 36718, 242, 25],
        [12, 6386, 385, 6386, 385, 33],
        [5, 32534, 5, 32534, 5, 1],
        [28, 38376, 644, 38376, 644, 23],
    ];
    for [alpha, period, writes, meta_period, most, runs] in table {
        assert_eq!(rt; plan_meta_period(alpha, period, writes), meta_period);
        assert_eq!(rt; plan_writes(alpha, period, writes), most);
        assert_eq!(rt; plan_runs(alpha, period, writes), runs);
    }
}

#[test]
fn a_number_past_its_range_has_no_plan(rt: HostRuntime) {
    let outside: [(u32, u32, u32); 9] = [
        (0, 20, 2),
        (33, 20, 2),
        (u32::MAX, 20, 2),
        (16, 0, 2),
        (16, 60_001, 2),
        (16, u32::MAX, 2),
        (16, 20, 0),
        (16, 20, 1025),
        (16, 20, u32::MAX),
    ];
    for (alpha, period, writes) in outside {
        assert!(rt; Plan::of(alpha, Job { period, writes }).is_none());
        assert_eq!(rt; plan_meta_period(alpha, period, writes), 0);
        assert_eq!(rt; plan_writes(alpha, period, writes), 0);
        assert_eq!(rt; plan_runs(alpha, period, writes), 0);
    }
}

#[test]
fn the_rule_holds_to_the_last_number(rt: HostRuntime) {
    let most = u64::MAX;
    assert!(rt; yield_rule(most, most, most, most, 0));
    assert!(rt; !yield_rule(0, most, 0, 0, 1));
    assert!(rt; yield_rule(most, most, 0, 0, most));
    assert!(rt; !yield_rule(most, most, 1, 0, most));
    assert!(rt; !yield_rule(most, most, most, most, most));
}
