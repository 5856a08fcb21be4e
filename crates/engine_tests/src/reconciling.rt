//! Tax, net, carrying charges and the reconciliation rate.
use reconciliation::{
    Cents, ProjectedSum, ReconciliationRate, Refusal, annual_rate, carrying_charge, monthly_rate,
    net, reconciliation_rate, tax, tax_rate,
};
use std::test::Fail;

/// The number that a refusal is told by, 0 where there is none.
// For this layer's refusal: each layer has an enum of its own.
fn told<T: Drop>(answer: Result<T, Refusal>) -> u8 {
    answer.map_err(Refusal::number).err().unwrap_or(0)
}

#[test]
fn ranges_have_their_edges(rt: HostRuntime) {
    assert_eq!(rt; told(tax_rate(-1)), 22);
    assert_eq!(rt; told(tax_rate(0)), 0);
    assert_eq!(rt; told(tax_rate(2_000)), 0);
    assert_eq!(rt; told(tax_rate(2_001)), 22);
    assert_eq!(rt; told(annual_rate(-1)), 22);
    assert_eq!(rt; told(annual_rate(0)), 0);
    assert_eq!(rt; told(annual_rate(2_400)), 0);
    assert_eq!(rt; told(annual_rate(2_401)), 22);
    assert_eq!(rt; told(ReconciliationRate::try_from(-100_001)), 25);
    assert_eq!(rt; told(ReconciliationRate::try_from(-100_000)), 0);
    assert_eq!(rt; told(ReconciliationRate::try_from(100_000)), 0);
    assert_eq!(rt; told(ReconciliationRate::try_from(100_001)), 25);
    assert_eq!(rt; told(ProjectedSum::try_from(0)), 24);
    assert_eq!(rt; told(ProjectedSum::try_from(1)), 0);
    assert_eq!(rt; told(ProjectedSum::try_from(u64::MAX)), 0);
}

#[test]
fn tax_and_net_of_a_total(rt: HostRuntime) -> Result<(), Fail> {
    let cases: [(i64, i64, i64); 12] = [
        (7_593, 590, 448),
        (-7_593, 590, -448),
        (2_153_347_200, 590, 127_047_485),
        (0, 590, 0),
        (7_593, 0, 0),
        (2, 2_000, 0),
        (3, 2_000, 1),
        (5, 2_000, 1),
        (25, 200, 1),
        (-25, 200, -1),
        (i64::MAX, 2_000, 1_844_674_407_370_955_161),
        (i64::MIN, 2_000, -1_844_674_407_370_955_162),
    ];
    for case in &cases {
        let (total, rate, taxed) = *case;
        let rate = tax_rate(rate)?;
        assert_eq!(rt; tax(Cents(total), rate).0, taxed);
        assert_eq!(rt;
            net(Cents(total), rate).0 as i128,
            total as i128 - taxed as i128
        );
    }
    Ok(())
}

#[test]
fn monthly_rates_in_millionths(rt: HostRuntime) -> Result<(), Fail> {
    let cases: [(i64, u64); 6] = [
        (0, 0),
        (1, 8),
        (2, 17),
        (600, 5_000),
        (800, 6_667),
        (2_400, 20_000),
    ];
    for case in &cases {
        let (annual, monthly) = *case;
        assert_eq!(rt; monthly_rate(annual_rate(annual)?), monthly);
    }
    Ok(())
}

#[test]
fn charges_go_by_the_sign_of_the_sum(rt: HostRuntime) -> Result<(), Fail> {
    let cases: [(i64, i64, i64, i64, i64); 11] = [
        (-1_127_509_000, -1_104_399_415, 600, 800, -7_440_067),
        (-10_000, 10_000, 600, 800, 0),
        (0, 2_855, 600, 800, 7),
        (-30_000, 20_000, 600, 800, -33),
        (-20_000, 30_000, 600, 800, 25),
        (20_000, -30_000, 600, 800, -33),
        (100, 100, 600, 0, 1),
        (-100, -100, 0, 600, -1),
        (5_000, 5_000, 0, 2_400, 0),
        (i64::MAX, i64::MAX, 2_400, 0, 184_467_440_737_095_516),
        (i64::MIN, i64::MIN, 0, 2_400, -184_467_440_737_095_516),
    ];
    for case in &cases {
        let (last, before, under, over, charge) = *case;
        let under = annual_rate(under)?;
        let over = annual_rate(over)?;
        assert_eq!(rt;
            carrying_charge(Cents(last), Cents(before), under, over).0,
            charge
        );
    }
    Ok(())
}

/// E of a balance over a projected sum, or the number of the refusal.
fn filed(last: i64, projected: u64) -> Result<i64, u8> {
    let sum = ProjectedSum::try_from(projected).map_err(Refusal::number)?;
    let e = reconciliation_rate(Cents(last), sum).map_err(Refusal::number)?;
    Ok(e.units())
}

#[test]
fn reconciliation_rates(rt: HostRuntime) {
    assert_eq!(rt; filed(-1_040_356_537, 869_231_895), Ok(-1_197));
    assert_eq!(rt; filed(1, 2_000), Ok(1));
    assert_eq!(rt; filed(-1, 2_000), Ok(-1));
    assert_eq!(rt; filed(1, 2_001), Ok(0));
    assert_eq!(rt; filed(0, 1), Ok(0));
    assert_eq!(rt; filed(100_000, 1_000), Ok(100_000));
    assert_eq!(rt; filed(-100_000, 1_000), Ok(-100_000));
    assert_eq!(rt; filed(200_000_999, 2_000_000), Ok(100_000));
    assert_eq!(rt; filed(200_001, 2_000), Err(25));
    assert_eq!(rt; filed(-200_001, 2_000), Err(25));
    assert_eq!(rt; filed(i64::MIN, 1), Err(25));
    assert_eq!(rt; filed(i64::MAX, u64::MAX), Ok(500));
}
