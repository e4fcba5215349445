use crate::expect::same;
use ug_rules::Contender;
use ug_stock::winner;

fn racer(rank: u32, open: u64, floor: i128) -> Contender {
    Contender { rank, open, floor }
}

#[test]
fn picks_the_racer_that_is_ahead(rt: HostRuntime) {
    let equal = [racer(1, 20, 3), racer(0, 20, 3)];
    same(&rt, &winner(&equal, 20), &Some(0));
    let few = [racer(0, 19, 3), racer(1, 19, 3)];
    same(&rt, &winner(&few, 20), &None);
    let more = [racer(0, 50, 3), racer(1, 20, 4)];
    same(&rt, &winner(&more, 20), &Some(1));
    let most = [racer(0, 20, 3), racer(1, 21, 3), racer(2, 19, 9)];
    same(&rt, &winner(&most, 20), &Some(1));
}
