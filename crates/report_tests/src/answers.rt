//! The texts of plans, of needs and of answers of one line.

ghost use Rattle.std.specs.Prelude.{◌<◌, All, length, IfOk};
ghost use Rattle.tqd_instance.specs.Plan.{units, IsSizedFor};
ghost use Rattle.tqd_instance.specs.Feasible.{Feasible};

use bom_explode::explode;
use bom_reader::{Bill, BillFault, NameList, no_bill, read_bill, read_orders};
use plan_report::{accepted_text, infeasible_text, needs_text, plan_text, summary_text};
use std::alloc::Global;
use std::process::Abort;
use std::test::Fail;
use tqd_base::limits::{QTY_MAX, SUPPLIERS_MAX};
use tqd_base::{Memory, Stop};
use tqd_instance::{FeeRow, Job, JobParts, Plan, PriceRow, Standing};

/// Prices of one unit in millionths: the supplier, the least total, the good, the price.
pub(crate) type Prices = &'static [(u32, u64, u32, u64)];

/// One good at one supplier: 0.10 from 1, and 0.08 from 100.
const STEPS: Prices = &[(0, 1, 0, 100_000), (0, 100, 0, 80_000)];

/// Two goods at two suppliers, of which the first is cheaper from 150.
pub(crate) const TWO: Prices = &[
    (0, 1, 0, 1_000_000),
    (0, 1, 1, 2_000_000),
    (0, 150, 0, 900_000),
    (0, 150, 1, 1_500_000),
    (1, 1, 0, 950_000),
    (1, 1, 1, 1_600_000),
];

/// Seals, bolts and housings from the north; seals and bolts from the south.
const PUMPS: Prices = &[
    (0, 1, 0, 1_200_000),
    (0, 1, 1, 150_000),
    (0, 1, 2, 18_500_000),
    (0, 500, 0, 1_050_000),
    (0, 500, 1, 120_000),
    (0, 500, 2, 17_900_000),
    (1, 1, 0, 1_100_000),
    (1, 1, 1, 140_000),
    (1, 300, 0, 1_000_000),
    (1, 300, 1, 110_000),
];

/// A purchase, and the text that its plan has.
struct Case {
    /// The names of the suppliers.
    suppliers: &'static [&'static str],
    /// The needs of the goods, in units.
    needs: &'static [u64],
    prices: Prices,
    /// The fee of the first supplier in millionths, 0 where there is none.
    fee: u64,
    /// The names of products and parts, and the numbers of the goods among them.
    names: &'static [&'static str],
    goods: &'static [u32],
    /// What is bought: the supplier, the good and the units.
    bought: &'static [(usize, usize, u64)],
    text: &'static str,
}

const CASES: [Case; 8] = [
    // exactly on the step
    Case {
        suppliers: &["A"],
        needs: &[100],
        prices: STEPS,
        fee: 0,
        names: &["r"],
        goods: &[0],
        bought: &[(0, 0, 100)],
        text: "solved\t8.000000
supplier\tA\t100\t100\t8.000000
buy\tr\t100\t0.080000\t8.000000
",
    },
    // one below it
    Case {
        suppliers: &["A"],
        needs: &[99],
        prices: STEPS,
        fee: 0,
        names: &["r"],
        goods: &[0],
        bought: &[(0, 0, 99)],
        text: "solved\t9.900000
supplier\tA\t99\t1\t9.900000
buy\tr\t99\t0.100000\t9.900000
",
    },
    Case {
        suppliers: &["A", "B"],
        needs: &[100, 50],
        prices: TWO,
        fee: 0,
        names: &["x", "y"],
        goods: &[0, 1],
        bought: &[(0, 0, 100), (0, 1, 50)],
        text: "solved\t165.000000
supplier\tA\t150\t150\t165.000000
buy\tx\t100\t0.900000\t90.000000
buy\ty\t50\t1.500000\t75.000000
",
    },
    Case {
        suppliers: &["A", "B"],
        needs: &[100, 50],
        prices: TWO,
        fee: 9_990_000,
        names: &["x", "y"],
        goods: &[0, 1],
        bought: &[(0, 0, 100), (0, 1, 50)],
        text: "solved\t174.990000
supplier\tA\t150\t150\t165.000000
fee\t9.990000
buy\tx\t100\t0.900000\t90.000000
buy\ty\t50\t1.500000\t75.000000
",
    },
    // no fee where nothing is bought
    Case {
        suppliers: &["A", "B"],
        needs: &[100, 50],
        prices: TWO,
        fee: 9_990_000,
        names: &["x", "y"],
        goods: &[0, 1],
        bought: &[(1, 0, 100), (1, 1, 50)],
        text: "solved\t175.000000
supplier\tB\t150\t1\t175.000000
buy\tx\t100\t0.950000\t95.000000
buy\ty\t50\t1.600000\t80.000000
",
    },
    // a good of which nothing is bought at a supplier
    Case {
        suppliers: &["A", "B"],
        needs: &[100, 50],
        prices: TWO,
        fee: 0,
        names: &["x", "y"],
        goods: &[0, 1],
        bought: &[(0, 0, 1), (1, 0, 99), (1, 1, 50)],
        text: "solved\t175.050000
supplier\tA\t1\t1\t1.000000
buy\tx\t1\t1.000000\t1.000000
supplier\tB\t149\t1\t174.050000
buy\tx\t99\t0.950000\t94.050000
buy\ty\t50\t1.600000\t80.000000
",
    },
    // goods have the names of their numbers
    Case {
        suppliers: &["North", "South"],
        needs: &[105, 420, 40],
        prices: PUMPS,
        fee: 0,
        names: &["pump", "valve", "seal", "bolt", "housing"],
        goods: &[2, 3, 4],
        bought: &[(0, 2, 40), (1, 0, 105), (1, 1, 420)],
        text: "solved\t891.200000
supplier\tNorth\t40\t1\t740.000000
buy\thousing\t40\t18.500000\t740.000000
supplier\tSouth\t525\t300\t151.200000
buy\tseal\t105\t1.000000\t105.000000
buy\tbolt\t420\t0.110000\t46.200000
",
    },
    Case {
        suppliers: &[],
        needs: &[],
        prices: &[],
        fee: 0,
        names: &[],
        goods: &[],
        bought: &[],
        text: "solved\t0.000000\n",
    },
];

/// The names as a list.
pub(crate) fn list_of(alloc: Global, names: &[&str]) -> Result<NameList, Memory> {
    let mut list = NameList::empty(alloc);
    for name in names {
        list.add(name)?;
    }
    Ok(list)
}

/// The parts of a job without a fee.
pub(crate) fn parts_of(
    alloc: Global,
    suppliers: u32,
    needs: &[u64],
    prices: Prices,
) -> Result<JobParts, Memory> {
    let mut parts = JobParts::new(alloc, suppliers)?;
    for need in needs {
        parts.add_need(*need)?;
    }
    for (supplier, from, good, price) in prices {
        parts.add_price(PriceRow {
            supplier: *supplier,
            from: *from,
            good: *good,
            price: *price,
        })?;
    }
    Ok(parts)
}

fn job_of(rt: &impl Abort, alloc: Global, case: &Case) -> Result<Job, Fail> {
    assert!(rt; case.suppliers.len() <= SUPPLIERS_MAX);
    let mut parts = parts_of(alloc, case.suppliers.len() as u32, case.needs, case.prices)?;
    if case.fee > 0 {
        parts.add_fee(FeeRow {
            supplier: 0,
            fee: case.fee,
        })?;
    }
    let formed = parts.is_well_formed(alloc)?;
    assert!(rt; formed);
    Ok(Job::build(alloc, &parts)?)
}

/// A plan with these units, given as the supplier, the good and the number.
fn plan_of(
    rt: &impl Abort,
    alloc: Global,
    job: &Job,
    bought: &[(usize, usize, u64)],
) -> Result<Plan, Memory>
    ensures { IfOk result (λ plan. IsSizedFor job.now plan) }
{
    let mut plan = Plan::zero(alloc, job.suppliers(), job.goods())?;
    for (i, k, units) in bought {
        assert!(rt; *i < plan.suppliers());
        assert!(rt; *k < plan.goods());
        assert!(rt; *units <= QTY_MAX);
        plan.set(*i, *k, *units);
    }
    Ok(plan)
}

/// Asserts that each good has a name.
fn assert_named(rt: &impl Abort, names: &NameList, goods: &[u32])
    ensures { All (λ n. n < length names.now) goods.now }
{
    let count = names.len();
    assert!(rt; goods.iter().all(|n| (*n as usize) < count));
}

/// Asserts that a plan is feasible.
fn assert_feasible(rt: &impl Abort, job: &Job, plan: &Plan)
    requires { IsSizedFor job.now plan.now }
    ensures { Feasible job.now (units plan.now) }
{
    match job.standing(plan) {
        Standing::Feasible(_) => {}
        _ => panic!(rt; "not feasible"),
    }
}

/// The text of a plan, which has to be feasible.
fn text_by(
    rt: &impl Abort,
    alloc: Global,
    job: &Job,
    plan: &Plan,
    names: (&NameList, &[u32], &NameList),
) -> Result<Vec<u8>, Memory>
    requires { IsSizedFor job.now plan.now }
{
    let (names, goods, suppliers) = names;
    assert_named(rt, names, goods);
    assert_feasible(rt, job, plan);
    assert!(rt; goods.len() == job.goods());
    assert!(rt; suppliers.len() == job.suppliers());
    plan_text(alloc, job, plan, names, goods, suppliers)
}

fn text_of(rt: &impl Abort, alloc: Global, case: &Case) -> Result<Vec<u8>, Fail> {
    let job = job_of(rt, alloc, case)?;
    let plan = plan_of(rt, alloc, &job, case.bought)?;
    let names = list_of(alloc, case.names)?;
    let suppliers = list_of(alloc, case.suppliers)?;
    Ok(text_by(rt, alloc, &job, &plan, (&names, case.goods, &suppliers))?)
}

#[test]
fn plans_have_their_texts(rt: HostRuntime) -> Result<(), Fail> {
    for case in &CASES {
        let printed = text_of(&rt, rt.alloc(), case)?;
        assert_eq!(rt; printed.as_slice(), case.text.as_bytes());
    }
    Ok(())
}

/// The bill of two files, or of the orders alone where the second is empty.
fn bill_of(alloc: Global, orders: &[u8], lines: &[u8]) -> Result<Bill, Stop<BillFault>> {
    let orders = read_orders(alloc, orders)?;
    if lines.is_empty() {
        Ok(no_bill(orders))
    } else {
        read_bill(alloc, orders, lines)
    }
}

/// The text of the needs of two files.
fn needs_by(rt: &impl Abort, alloc: Global, orders: &[u8], lines: &[u8]) -> Result<Vec<u8>, Fail> {
    let bill = bill_of(alloc, orders, lines)?;
    let needs = explode(alloc, &bill)?;
    assert_named(rt, bill.names(), needs.goods());
    Ok(needs_text(alloc, &bill, &needs)?)
}

#[test]
fn needs_have_their_texts(rt: HostRuntime) -> Result<(), Fail> {
    for (orders, lines, text) in [
        (
            b"product,quantity\npump,40\nvalve,25\n".as_slice(),
            b"assembly,part,quantity
pump,seal,2
pump,bolt,8
pump,housing,1
valve,seal,1
valve,bolt,4
"
                .as_slice(),
            b"need\tseal\t105\nneed\tbolt\t420\nneed\thousing\t40\n".as_slice(),
        ),
        (
            b"product,quantity\nr,0\n".as_slice(),
            b"".as_slice(),
            b"".as_slice(),
        ),
    ] {
        let printed = needs_by(&rt, rt.alloc(), orders, lines)?;
        assert_eq!(rt; printed.as_slice(), text);
    }
    Ok(())
}

/// Whether a text is this one.
pub(crate) fn is_text(written: Result<Vec<u8>, Memory>, text: &str) -> bool {
    match written {
        Ok(bytes) => bytes.as_slice() == text.as_bytes(),
        Err(_) => false,
    }
}

#[test]
fn answers_of_one_line(rt: HostRuntime) {
    let alloc = rt.alloc();
    assert!(rt; is_text(infeasible_text(alloc), "infeasible\n"));
    assert!(rt;
        is_text(
            accepted_text(alloc, Some(8_000_000)),
            "accepted\t8.000000\n"
        )
    );
    assert!(rt; is_text(accepted_text(alloc, None), "accepted\tnone\n"));
    assert!(rt;
        is_text(
            summary_text(alloc, 1, 2, 3, 1_410_728_160),
            "made\t1\t2\t3\t1410.728160\n"
        )
    );
}
