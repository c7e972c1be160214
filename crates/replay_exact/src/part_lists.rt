// Part lists. The operation's number stands here alone, beside its function's name.
use capi_exact::part_lists;
use replay_text::{Call, Fill, same};

// The walk is lent as it is given, and so is a list for the parts handed out.
pub fn walk_met(operation: u64, case: &Call<usize>) -> bool {
    let given = case.given(0);
    let n = given.len().min(64);
    let mut walk = [0usize; 64];
    walk[..n].copy_from_slice(&given[..n]);
    let mut parts = [usize::FILL; 64];
    let number = match operation {
        0xa01 => part_lists::sugamdely_walk_start(case.order(0), case.order(1), &mut walk[..n]),
        _ => part_lists::sugamdely_walk_next(&mut walk[..n], case.lent(1, &mut parts)),
    };
    let walked = same(&walk[..n], case.held(0));
    case.met(Some(number), walked && case.holds(1, &parts))
}

pub fn count(operation: u64, case: &Call<u64>, out: &mut [u64]) -> Option<u8> {
    let order = case.size_at(0, 0);
    let len = case.size_at(0, 1);
    Some(match operation {
        0xa03 => part_lists::sugamdely_multiplicity(case.sizes(0), out),
        0xa04 => part_lists::sugamdely_factorial(order, out),
        0xa05 => part_lists::sugamdely_stirling_number(order, len, out),
        0xa06 => part_lists::sugamdely_total_multiplicity(order, len, out),
        _ => return None,
    })
}
