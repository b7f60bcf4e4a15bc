//! Parts that are well formed, also at the limits, and parts that break one fact of it alone.

use std::alloc::Global;
use std::test::Fail;
use tqd_base::Memory;
use tqd_base::limits::{PRICE_MAX, QTY_MAX};
use tqd_instance::{FeeRow, JobParts, Over, OverRow, PriceRow, ShareRow, StockRow, TotalRow};

/// What is added to parts. The numbers are those of a row, in its order.
#[derive(Clone, Copy)]
enum Piece {
    Need(u64),
    Price(u32, u64, u32, u64),
    Stock(u32, u32, u64),
    Total(u32, u64),
    Share(u32, u64, Option<u64>),
    Fee(u32, u64),
    Over(Option<u32>, Over),
    Winners(u64, u64),
    /// Prices of good 0 at supplier 1, in so many intervals.
    Intervals(u64),
}

fn add_price(
    parts: &mut JobParts,
    supplier: u32,
    from: u64,
    good: u32,
    price: u64,
) -> Result<(), Memory> {
    parts.add_price(PriceRow {
        supplier,
        from,
        good,
        price,
    })
}

fn add_intervals(parts: &mut JobParts, count: u64) -> Result<(), Memory> {
    for from in 0..count {
        add_price(parts, 1, from.saturating_add(1), 0, 100_000)?;
    }
    Ok(())
}

fn add_term(parts: &mut JobParts, piece: Piece) -> Result<(), Memory> {
    match piece {
        Piece::Total(supplier, units) => parts.add_total(TotalRow { supplier, units }),
        Piece::Share(supplier, low, high) => parts.add_share(ShareRow {
            supplier,
            low,
            high,
        }),
        Piece::Fee(supplier, fee) => parts.add_fee(FeeRow { supplier, fee }),
        Piece::Over(good, over) => parts.add_over(OverRow { good, over }),
        _ => Ok(()),
    }
}

fn add(parts: &mut JobParts, piece: Piece) -> Result<(), Memory> {
    match piece {
        Piece::Need(units) => parts.add_need(units),
        Piece::Price(supplier, from, good, price) => add_price(parts, supplier, from, good, price),
        Piece::Stock(supplier, good, units) => parts.add_stock(StockRow {
            supplier,
            good,
            units,
        }),
        Piece::Winners(least, most) => {
            parts.set_winners(least, most);
            Ok(())
        }
        Piece::Intervals(count) => add_intervals(parts, count),
        term => add_term(parts, term),
    }
}

/// Two goods and a row of each kind, all well formed.
const UNBROKEN: [Piece; 11] = [
    Piece::Need(100),
    Piece::Need(50),
    Piece::Price(0, 1, 0, 1_000_000),
    Piece::Price(0, 150, 0, 900_000),
    Piece::Price(1, 1, 1, 1_600_000),
    Piece::Stock(0, 0, 60),
    Piece::Total(0, 200),
    Piece::Share(0, 0, Some(500)),
    Piece::Fee(0, 9_990_000),
    Piece::Over(Some(0), Over::Percent(10)),
    Piece::Over(None, Over::Any),
];

/// Whether those of so many suppliers are well formed with the piece.
fn is_formed_with(alloc: Global, suppliers: u32, piece: Piece) -> Result<bool, Memory> {
    let mut parts = JobParts::new(alloc, suppliers)?;
    for unbroken in UNBROKEN {
        add(&mut parts, unbroken)?;
    }
    add(&mut parts, piece)?;
    parts.is_well_formed(alloc)
}

#[test]
fn parts_at_the_limits_are_well_formed(rt: HostRuntime) -> Result<(), Fail> {
    for (suppliers, piece) in [
        (2, Piece::Need(1)),
        (2, Piece::Need(QTY_MAX)),
        (2, Piece::Price(1, 1, 0, 0)),
        (2, Piece::Price(1, QTY_MAX, 1, PRICE_MAX)),
        (2, Piece::Stock(1, 1, QTY_MAX)),
        (2, Piece::Total(1, QTY_MAX)),
        (2, Piece::Share(1, 1000, Some(1000))),
        (2, Piece::Share(1, 1000, Some(0))),
        (2, Piece::Fee(1, PRICE_MAX)),
        (2, Piece::Over(Some(1), Over::Percent(1000))),
        (2, Piece::Winners(64, 0)),
        (64, Piece::Winners(0, 64)),
        (2, Piece::Intervals(16)),
    ] {
        assert!(rt; is_formed_with(rt.alloc(), suppliers, piece)?);
    }
    Ok(())
}

#[test]
fn a_number_out_of_range_is_not_well_formed(rt: HostRuntime) -> Result<(), Fail> {
    for (suppliers, piece) in [
        (2, Piece::Need(0)),
        (2, Piece::Need(QTY_MAX + 1)),
        (2, Piece::Price(2, 1, 0, 100_000)),
        (2, Piece::Price(1, 0, 0, 100_000)),
        (2, Piece::Price(1, QTY_MAX + 1, 0, 100_000)),
        (2, Piece::Price(1, 1, 2, 100_000)),
        (2, Piece::Price(1, 1, 0, PRICE_MAX + 1)),
        (2, Piece::Stock(2, 0, 60)),
        (2, Piece::Stock(1, 2, 60)),
        (2, Piece::Stock(1, 0, QTY_MAX + 1)),
        (2, Piece::Total(2, 200)),
        (2, Piece::Total(1, QTY_MAX + 1)),
        (2, Piece::Share(2, 0, None)),
        (2, Piece::Share(1, 1001, None)),
        (2, Piece::Share(1, 0, Some(1001))),
        (2, Piece::Fee(2, 0)),
        (2, Piece::Fee(1, PRICE_MAX + 1)),
        (2, Piece::Over(Some(2), Over::Any)),
        (2, Piece::Over(Some(1), Over::Percent(1001))),
        (2, Piece::Winners(65, 64)),
        (2, Piece::Winners(0, 65)),
        (65, Piece::Winners(0, 64)),
        (2, Piece::Intervals(17)),
    ] {
        assert!(rt; !is_formed_with(rt.alloc(), suppliers, piece)?);
    }
    Ok(())
}

#[test]
fn a_key_that_stands_twice_is_not_well_formed(rt: HostRuntime) -> Result<(), Fail> {
    for piece in [
        Piece::Price(0, 150, 0, 800_000),
        Piece::Stock(0, 0, 70),
        Piece::Total(0, 300),
        Piece::Share(0, 100, None),
        Piece::Fee(0, 0),
        Piece::Over(Some(0), Over::Any),
        Piece::Over(None, Over::Percent(10)),
    ] {
        assert!(rt; !is_formed_with(rt.alloc(), 2, piece)?);
    }
    Ok(())
}
