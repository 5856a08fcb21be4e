//! Rates and bills of the two designs.
use crate::common::hour;
use designs::{
    Flat, FlatFigures, Hour, Hourly, HourlyFigures, RateDesign, Refusal, cut, worked_sums,
};
use reconciliation::{ReconciliationRate, tax_rate};
use std::test::Fail;

fn flat(cost: i64, loss: i64, adm: i64, nits: i64) -> Result<Flat, Refusal> {
    Flat::new(FlatFigures {
        cost,
        loss,
        adm,
        nits,
    })
}

fn hourly(oth: i64, loss: i64, cap: i64, adm: i64, unc: i64) -> Result<Hourly, Refusal> {
    Hourly::new(HourlyFigures {
        oth,
        loss,
        cap,
        adm,
        unc,
    })
}

/// The number that a refusal is told by, 0 where there is none.
// For this layer's refusal: each layer has an enum of its own.
fn told<D: Drop>(answer: Result<D, Refusal>) -> u8 {
    answer.map_err(Refusal::number).err().unwrap_or(0)
}

/// Quantity and bill of all these hours.
fn billed<D: RateDesign>(design: &D, hours: &[Hour], e: i64, tax: i64) -> Result<(u64, i64), Fail> {
    let period = cut(hours, 0, hours.len())?;
    let bill = design.bill(period, ReconciliationRate::try_from(e)?, tax_rate(tax)?);
    Ok((design.quantity(period), bill.0))
}

#[test]
fn figures_of_flat_have_their_edges(rt: HostRuntime) {
    assert_eq!(rt; told(flat(0, 10_000, 0, 0)), 0);
    assert_eq!(rt; told(flat(100_000, 11_000, 100_000, 100_000)), 0);
    assert_eq!(rt; told(flat(-1, 10_000, 0, 0)), 21);
    assert_eq!(rt; told(flat(100_001, 10_000, 0, 0)), 21);
    assert_eq!(rt; told(flat(0, 9_999, 0, 0)), 21);
    assert_eq!(rt; told(flat(0, 11_001, 0, 0)), 21);
    assert_eq!(rt; told(flat(0, 10_000, -1, 0)), 21);
    assert_eq!(rt; told(flat(0, 10_000, 100_001, 0)), 21);
    assert_eq!(rt; told(flat(0, 10_000, 0, -1)), 21);
    assert_eq!(rt; told(flat(0, 10_000, 0, 100_001)), 21);
}

#[test]
fn figures_of_hourly_have_their_edges(rt: HostRuntime) {
    assert_eq!(rt; told(hourly(0, 10_000, 0, 0, 0)), 0);
    assert_eq!(rt; told(hourly(100_000, 11_000, 100_000, 100_000, 100_000)), 0);
    assert_eq!(rt; told(hourly(-1, 10_000, 0, 0, 0)), 21);
    assert_eq!(rt; told(hourly(100_001, 10_000, 0, 0, 0)), 21);
    assert_eq!(rt; told(hourly(0, 9_999, 0, 0, 0)), 21);
    assert_eq!(rt; told(hourly(0, 11_001, 0, 0, 0)), 21);
    assert_eq!(rt; told(hourly(0, 10_000, -1, 0, 0)), 21);
    assert_eq!(rt; told(hourly(0, 10_000, 100_001, 0, 0)), 21);
    assert_eq!(rt; told(hourly(0, 10_000, 0, -1, 0)), 21);
    assert_eq!(rt; told(hourly(0, 10_000, 0, 100_001, 0)), 21);
    assert_eq!(rt; told(hourly(0, 10_000, 0, 0, -1)), 21);
    assert_eq!(rt; told(hourly(0, 10_000, 0, 0, 100_001)), 21);
}

#[test]
fn ptc_current_is_rounded_once(rt: HostRuntime) -> Result<(), Fail> {
    assert_eq!(rt; flat(6_453, 10_515, 21, 339)?.ptc_current().0, 7_145);
    assert_eq!(rt;
        flat(100_000, 11_000, 100_000, 100_000)?.ptc_current().0,
        310_000
    );
    assert_eq!(rt; flat(0, 11_000, 0, 0)?.ptc_current().0, 0);
    assert_eq!(rt; flat(5, 11_000, 0, 0)?.ptc_current().0, 6);
    assert_eq!(rt; flat(45, 10_100, 0, 0)?.ptc_current().0, 45);
    assert_eq!(rt; flat(50, 10_100, 0, 0)?.ptc_current().0, 51);
    Ok(())
}

#[test]
fn rates_gross_up_the_sum(rt: HostRuntime) -> Result<(), Fail> {
    let cases: [(i64, i64, i64, i64); 7] = [
        (7_145, -1_197, 590, 6_321),
        (7_145, 0, 590, 7_593),
        (7_145, 0, 0, 7_145),
        (5, 5, 590, 11),
        (0, -100_000, 2_000, -125_000),
        (0, 100_000, 2_000, 125_000),
        (100_000, 100_000, 2_000, 250_000),
    ];
    for case in &cases {
        let (ptc, e, tax, rate) = *case;
        let design = flat(ptc, 10_000, 0, 0)?;
        assert_eq!(rt;
            design
                .rate(ReconciliationRate::try_from(e)?, tax_rate(tax)?)
                .0,
            rate
        );
    }
    Ok(())
}

#[test]
fn flat_bills(rt: HostRuntime) -> Result<(), Fail> {
    let filed = flat(6_453, 10_515, 21, 339)?;
    let nothing = flat(0, 10_000, 0, 0)?;
    assert_eq!(rt; billed(&filed, &[hour(1_000, 0)], 0, 590)?, (1_000, 7_593));
    assert_eq!(rt;
        billed(&filed, &[hour(0, 0), hour(0, 400_000)], 0, 590)?,
        (0, 0)
    );
    assert_eq!(rt;
        billed(&filed, &[hour(400, -9), hour(600, 9)], 0, 590)?,
        (1_000, 7_593)
    );
    assert_eq!(rt; billed(&nothing, &[hour(3, 0)], -500, 0)?, (3, -2));
    assert_eq!(rt; billed(&nothing, &[hour(3, 0)], 500, 0)?, (3, 2));
    assert_eq!(rt; billed(&nothing, &[hour(1, 0)], 500, 0)?, (1, 1));
    let most = flat(100_000, 11_000, 100_000, 100_000)?;
    let full = [hour(100_000, 0); 840];
    assert_eq!(rt;
        billed(&most, &full, 100_000, 2_000)?,
        (84_000_000, 43_050_000_000)
    );
    assert_eq!(rt;
        billed(&nothing, &full, -100_000, 2_000)?,
        (84_000_000, -10_500_000_000)
    );
    Ok(())
}

#[test]
fn hourly_bills(rt: HostRuntime) -> Result<(), Fail> {
    let rider = hourly(400, 10_515, 3_050, 8, 15)?;
    assert_eq!(rt;
        billed(&rider, &[hour(2, 3_000), hour(1, -1_000)], 338, 590)?,
        (3, 18)
    );
    let nothing = hourly(0, 10_000, 0, 0, 0)?;
    assert_eq!(rt; billed(&nothing, &[hour(10, -5_000)], 0, 0)?, (10, -50));
    assert_eq!(rt; billed(&nothing, &[hour(10, -5_000)], 0, 2_000)?, (10, -63));
    assert_eq!(rt;
        billed(&nothing, &[hour(10, -5_000)], 5_000, 2_000)?,
        (10, 0)
    );
    assert_eq!(rt; billed(&nothing, &[hour(1, 500)], 0, 0)?, (1, 1));
    assert_eq!(rt; billed(&nothing, &[hour(1, -500)], 0, 0)?, (1, -1));
    assert_eq!(rt; billed(&nothing, &[hour(1, 499)], 0, 0)?, (1, 0));
    let low = [hour(100_000, -100_000); 840];
    assert_eq!(rt;
        billed(&nothing, &low, -100_000, 2_000)?,
        (84_000_000, -21_000_000_000)
    );
    Ok(())
}

#[test]
fn hourly_bills_of_several_hours(rt: HostRuntime) -> Result<(), Fail> {
    let primary = hourly(400, 10_171, 3_050, 8, 15)?;
    let three = [hour(1_000, 3_000), hour(2_000, -500), hour(0, 400_000)];
    assert_eq!(rt; billed(&primary, &three, -253, 440)?, (3_000, 12_418));
    let most = hourly(100_000, 11_000, 100_000, 100_000, 100_000)?;
    let full = [hour(100_000, 400_000); 840];
    assert_eq!(rt;
        billed(&most, &full, 100_000, 2_000)?,
        (84_000_000, 100_800_000_000)
    );
    assert_eq!(rt;
        billed(&most, &full, 100_000, 0)?,
        (84_000_000, 80_640_000_000)
    );
    Ok(())
}

#[test]
fn slack_of_each_design(rt: HostRuntime) -> Result<(), Fail> {
    let even = flat(0, 10_000, 0, 0)?.slack();
    assert_eq!(rt; (even.c, even.u), (1, 1));
    let by_hour = hourly(0, 10_000, 0, 0, 0)?.slack();
    assert_eq!(rt; (by_hour.c, by_hour.u), (1, 0));
    Ok(())
}

#[test]
fn sums_worked_by_hand(rt: HostRuntime) -> Result<(), Fail> {
    let sums = worked_sums().ok_or("a worked sum was refused")?;
    assert_eq!(rt; (sums.money, sums.rate), (-3, -3));
    assert_eq!(rt; (sums.current.0, sums.force.0), (7_145, 6_321));
    assert_eq!(rt; sums.bill.0, 18);
    assert_eq!(rt; (sums.charge.0, sums.uncharged.0), (-7_440_067, 0));
    assert_eq!(rt; (sums.e.0, sums.up.0, sums.down.0), (-1_197, 1, 0));
    Ok(())
}
