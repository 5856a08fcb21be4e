//! The supply schedule, line by line and as a whole.
use std::test::Fail;
use supply::{
    Block, Refusal, Season, Seasons, SupplyLines, Terms, Tranche, block_average, block_subtotal,
    cost_component, rest_of, share_of, supply_schedule, tranche_average,
};

fn tranche(count: u64, price: i64) -> Tranche {
    Tranche { count, price }
}

fn block(mwh: u64, price: i64) -> Block {
    Block { mwh, price }
}

fn seasons(summer: (i64, u64), winter: (i64, u64)) -> Seasons {
    Seasons {
        summer: Season {
            factor: summer.0,
            months: summer.1,
        },
        winter: Season {
            factor: winter.0,
            months: winter.1,
        },
    }
}

/// The terms of the Metropolitan Edison residential class in autumn 2012.
fn autumn() -> Terms {
    Terms {
        seasons: seasons((106, 1), (97, 2)),
        tranche_share: 7_500,
        fixed_share: 7_100,
        variable_price: 3_819,
        adders: [993, 9, 213],
    }
}

/// The tranches of that class.
fn won() -> [Tranche; 6] {
    [
        tranche(4, 6_855),
        tranche(4, 6_666),
        tranche(4, 7_069),
        tranche(3, 7_009),
        tranche(3, 5_619),
        tranche(3, 5_583),
    ]
}

/// The blocks of that class.
fn bought() -> [Block; 5] {
    [
        block(109_151, 5_977),
        block(17_875, 6_162),
        block(36_725, 4_528),
        block(17_875, 5_816),
        block(24_450, 4_352),
    ]
}

/// A line, or the number of the refusal.
fn line(answer: Result<i64, Refusal>) -> Result<i64, u8> {
    answer.map_err(Refusal::number)
}

/// The cost component of a whole schedule, or the number of the refusal.
fn component(answer: Result<SupplyLines, Refusal>) -> Result<i64, u8> {
    Ok(answer.map_err(Refusal::number)?.cost_component)
}

#[test]
fn averages(rt: HostRuntime) {
    let even = seasons((100, 3), (100, 0));
    assert_eq!(rt; line(tranche_average(&won(), autumn().seasons)), Ok(6_523));
    assert_eq!(rt;
        line(tranche_average(&[tranche(1, 1)], seasons((50, 0), (50, 3)))),
        Ok(1)
    );
    assert_eq!(rt; line(tranche_average(&[tranche(1, 0)], even)), Ok(0));
    let most = [tranche(100, 100_000); 64];
    assert_eq!(rt;
        line(tranche_average(&most, seasons((200, 3), (200, 0)))),
        Ok(200_000)
    );
    assert_eq!(rt; line(block_average(&bought())), Ok(5_528));
    assert_eq!(rt; line(block_average(&[block(1, 1), block(1, 2)])), Ok(2));
    assert_eq!(rt; line(block_average(&[block(2, 1), block(1, 2)])), Ok(1));
    assert_eq!(rt;
        line(block_average(&[block(10_000_000, 100_000); 64])),
        Ok(100_000)
    );
}

#[test]
fn lists_and_their_lines_are_refused(rt: HostRuntime) {
    let even = seasons((100, 3), (100, 0));
    assert_eq!(rt; line(tranche_average(&[], even)), Err(71));
    assert_eq!(rt; line(tranche_average(&[tranche(1, 1); 65], even)), Err(71));
    assert_eq!(rt; line(tranche_average(&[tranche(0, 1)], even)), Err(72));
    assert_eq!(rt; line(tranche_average(&[tranche(101, 1)], even)), Err(72));
    assert_eq!(rt; line(tranche_average(&[tranche(1, -1)], even)), Err(72));
    assert_eq!(rt;
        line(tranche_average(&[tranche(1, 100_001)], even)),
        Err(72)
    );
    assert_eq!(rt; line(block_average(&[])), Err(71));
    assert_eq!(rt; line(block_average(&[block(1, 1); 65])), Err(71));
    assert_eq!(rt; line(block_average(&[block(0, 1)])), Err(72));
    assert_eq!(rt; line(block_average(&[block(10_000_001, 1)])), Err(72));
    assert_eq!(rt; line(block_average(&[block(1, 1), block(1, -1)])), Err(72));
    assert_eq!(rt;
        line(block_average(&[block(1, 1), block(1, 100_001)])),
        Err(72)
    );
}

#[test]
fn seasons_are_refused(rt: HostRuntime) {
    let one = [tranche(1, 300)];
    assert_eq!(rt;
        line(tranche_average(&one, seasons((50, 3), (200, 0)))),
        Ok(150)
    );
    assert_eq!(rt;
        line(tranche_average(&one, seasons((49, 3), (100, 0)))),
        Err(73)
    );
    assert_eq!(rt;
        line(tranche_average(&one, seasons((201, 3), (100, 0)))),
        Err(73)
    );
    assert_eq!(rt;
        line(tranche_average(&one, seasons((100, 3), (49, 0)))),
        Err(73)
    );
    assert_eq!(rt;
        line(tranche_average(&one, seasons((100, 3), (201, 0)))),
        Err(73)
    );
    assert_eq!(rt;
        line(tranche_average(&one, seasons((100, 2), (100, 0)))),
        Err(73)
    );
    assert_eq!(rt;
        line(tranche_average(&one, seasons((100, 2), (100, 2)))),
        Err(73)
    );
    assert_eq!(rt;
        line(tranche_average(&one, seasons((100, u64::MAX), (100, 4)))),
        Err(73)
    );
}

#[test]
fn shares_of_a_line(rt: HostRuntime) {
    assert_eq!(rt; line(share_of(6_523, 7_500)), Ok(4_892));
    assert_eq!(rt; line(share_of(1, 5_000)), Ok(1));
    assert_eq!(rt; line(share_of(1, 4_999)), Ok(0));
    assert_eq!(rt; line(rest_of(3_819, 7_100)), Ok(1_108));
    assert_eq!(rt; line(rest_of(3_819, 10_000)), Ok(0));
    assert_eq!(rt; line(rest_of(1_000_000, 0)), Ok(1_000_000));
    assert_eq!(rt; line(share_of(1_000_001, 0)), Err(72));
    assert_eq!(rt; line(share_of(-1, 0)), Err(72));
    assert_eq!(rt; line(share_of(0, -1)), Err(73));
    assert_eq!(rt; line(share_of(0, 10_001)), Err(73));
    assert_eq!(rt; line(rest_of(-1, 10_001)), Err(72));
    assert_eq!(rt; line(rest_of(0, 10_001)), Err(73));
}

#[test]
fn sums_of_lines(rt: HostRuntime) {
    assert_eq!(rt;
        line(block_subtotal(3_910, 1_118, [993, 9, 213])),
        Ok(6_243)
    );
    assert_eq!(rt;
        line(block_subtotal(1_000_000, 1_000_000, [100_000; 3])),
        Ok(2_300_000)
    );
    assert_eq!(rt; line(block_subtotal(1_000_001, 0, [0; 3])), Err(72));
    assert_eq!(rt; line(block_subtotal(0, -1, [0; 3])), Err(72));
    assert_eq!(rt; line(block_subtotal(0, 0, [0, 100_001, 0])), Err(73));
    assert_eq!(rt; line(block_subtotal(0, 0, [0, 0, -1])), Err(73));
    assert_eq!(rt; line(cost_component(4_893, 1_561)), Ok(6_454));
    assert_eq!(rt; line(cost_component(1_000_000, 1_000_000)), Ok(2_000_000));
    assert_eq!(rt; line(cost_component(1_000_001, 0)), Err(72));
    assert_eq!(rt; line(cost_component(0, -1)), Err(72));
}

#[test]
fn a_whole_schedule(rt: HostRuntime) -> Result<(), Fail> {
    let lines = supply_schedule(&won(), &bought(), &autumn())?;
    assert_eq!(rt; (lines.tranche_average, lines.tranche_part), (6_523, 4_892));
    assert_eq!(rt; lines.block_average, 5_528);
    assert_eq!(rt; (lines.fixed_part, lines.variable_part), (3_925, 1_108));
    assert_eq!(rt; (lines.block_subtotal, lines.block_part), (6_248, 1_562));
    assert_eq!(rt; lines.cost_component, 6_454);
    Ok(())
}

#[test]
fn the_order_of_refusals(rt: HostRuntime) {
    let mut terms = autumn();
    assert_eq!(rt;
        component(supply_schedule(&[], &[block(0, 0)], &terms)),
        Err(71)
    );
    assert_eq!(rt;
        component(supply_schedule(&[tranche(0, 0)], &[], &terms)),
        Err(71)
    );
    assert_eq!(rt;
        component(supply_schedule(&[tranche(0, 0)], &bought(), &terms)),
        Err(72)
    );
    assert_eq!(rt;
        component(supply_schedule(&won(), &[block(0, 0)], &terms)),
        Err(72)
    );
    terms.tranche_share = 10_001;
    assert_eq!(rt;
        component(supply_schedule(&won(), &[block(0, 0)], &terms)),
        Err(72)
    );
    assert_eq!(rt;
        component(supply_schedule(&won(), &bought(), &terms)),
        Err(73)
    );
    terms.tranche_share = 10_000;
    assert_eq!(rt;
        component(supply_schedule(&won(), &bought(), &terms)),
        Ok(6_523)
    );
    terms.fixed_share = -1;
    assert_eq!(rt;
        component(supply_schedule(&won(), &bought(), &terms)),
        Err(73)
    );
}

#[test]
fn the_order_of_refusals_of_single_lines(rt: HostRuntime) {
    let late = seasons((100, 2), (100, 2));
    assert_eq!(rt; line(tranche_average(&[tranche(0, 1); 65], late)), Err(71));
    assert_eq!(rt; line(tranche_average(&[tranche(0, 1)], late)), Err(72));
    assert_eq!(rt; line(block_average(&[block(0, 1); 65])), Err(71));
    assert_eq!(rt; line(block_subtotal(-1, 0, [0, 0, -1])), Err(72));
    assert_eq!(rt; line(share_of(-1, -1)), Err(72));
}

#[test]
fn terms_are_refused(rt: HostRuntime) {
    let mut terms = autumn();
    terms.variable_price = 100_001;
    assert_eq!(rt;
        component(supply_schedule(&won(), &bought(), &terms)),
        Err(73)
    );
    terms.variable_price = 0;
    terms.adders = [0, 0, 100_001];
    assert_eq!(rt;
        component(supply_schedule(&won(), &bought(), &terms)),
        Err(73)
    );
    terms.adders = [0; 3];
    terms.seasons = seasons((106, 1), (97, 1));
    assert_eq!(rt;
        component(supply_schedule(&won(), &bought(), &terms)),
        Err(73)
    );
    let most = Terms {
        seasons: seasons((200, 1), (200, 2)),
        tranche_share: 5_000,
        fixed_share: 10_000,
        variable_price: 100_000,
        adders: [100_000; 3],
    };
    let tranches = [tranche(100, 100_000); 64];
    let blocks = [block(10_000_000, 100_000); 64];
    assert_eq!(rt;
        component(supply_schedule(&tranches, &blocks, &most)),
        Ok(300_000)
    );
}
