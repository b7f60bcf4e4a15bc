//! Needs, made jobs, and words of no form.
use crate::runs::Row;

const PRODUCTS: &str = "product,quantity\npump,40\nvalve,25\n";

const BILL: &str =
    "assembly,part,quantity\npump,seal,2\npump,bolt,8\npump,housing,1\nvalve,seal,1\nvalve,bolt,4\n";

const USAGE: &str = "usage: tqd solve ORDERS BILL OFFERS TERMS TREE [--workers N]\n\
    \x20      tqd check ORDERS BILL OFFERS TERMS TREE\n\
    \x20      tqd needs ORDERS BILL\n\
    \x20      tqd make SEED GOODS SUPPLIERS\n\
    \x20      tqd requote ORDERS BILL OFFERS TERMS OLD TREE\n\
    \x20      tqd scenarios ORDERS BILL OFFERS TERMS.. [--workers N]\n\
    \x20      tqd winners ORDERS BILL OFFERS TERMS [--workers N]\n\
    \x20      tqd break-even ORDERS BILL OFFERS TERMS SUPPLIER\n";

/// The needs of orders and a bill.
pub(crate) const NEEDS: [Row<'static>; 11] = [
    Row {
        files: &[("o", PRODUCTS), ("b", BILL)],
        lines: &["needs o b"],
        status: 0,
        output: "need\tseal\t105\nneed\tbolt\t420\nneed\thousing\t40\n",
    },
    Row {
        files: &[
            ("o", "product,quantity\na,1\n"),
            ("b", "assembly,part,quantity\na,b,2\na,c,3\nb,d,5\nc,d,7\n"),
        ],
        lines: &["needs o b"],
        status: 0,
        output: "need\td\t31\n",
    },
    Row {
        files: &[
            ("o", "product,quantity\n\"r\",0005\r\n"),
            ("b", "assembly,part,quantity\n"),
        ],
        lines: &["needs o -"],
        status: 0,
        output: "need\tr\t5\n",
    },
    Row {
        files: &[
            ("o", "product,quantity\n"),
            ("b", "assembly,part,quantity\n"),
        ],
        lines: &["needs o b"],
        status: 0,
        output: "",
    },
    Row {
        files: &[
            ("o", "product,quantity\na,1\n"),
            ("b", "assembly,part,quantity\na,b,1\nb,a,1\n"),
        ],
        lines: &["needs o b"],
        status: 3,
        output: "bad input: bill: circle through a\n",
    },
    Row {
        files: &[
            ("o", "product,quantity\np,1\n"),
            ("b", "assembly,part,quantity\np,q,100000\nq,r,100000\n"),
        ],
        lines: &["needs o b"],
        status: 3,
        output: "bad input: bill: need of r above 100000000\n",
    },
    Row {
        files: &[
            ("o", "product,quantity\nr\n"),
            ("b", "assembly,part,quantity\n"),
        ],
        lines: &["needs o b"],
        status: 3,
        output: "bad input: orders: row 2: 1 fields\n",
    },
    Row {
        files: &[
            ("o", "product,quantity\nr,1\n"),
            ("b", "assembly,part,quantity\na,b,0\n"),
        ],
        lines: &["needs o b"],
        status: 3,
        output: "bad input: bill: row 2: bad quantity\n",
    },
    Row {
        files: &[
            ("o", "product,quantity\nr,5\n"),
            ("b", "assembly,part,quantity\n"),
        ],
        lines: &["needs o c"],
        status: 5,
        output: "cannot read bill\n",
    },
    Row {
        files: &[
            ("o", "product,quantity\nr,5\n"),
            ("b", "assembly,part,quantity\n"),
        ],
        lines: &["needs c b"],
        status: 5,
        output: "cannot read orders\n",
    },
    Row {
        files: &[("o", "")],
        lines: &["needs o b"],
        status: 3,
        output: "bad input: orders: no header\n",
    },
];

/// Words that need no file: made jobs, and words of no form.
pub(crate) const WORDS: [Row<'static>; 8] = [
    Row {
        files: &[],
        lines: &["make 1 1 1"],
        status: 0,
        output: "made\t1\t1\t1\t1410.728160\n",
    },
    Row {
        files: &[],
        lines: &["make 0 1 1"],
        status: 0,
        output: "made\t0\t1\t1\t1.211700\n",
    },
    Row {
        files: &[],
        lines: &["solve o - f"],
        status: 2,
        output: USAGE,
    },
    Row {
        files: &[],
        lines: &["solve o - f - tree --workers 0"],
        status: 2,
        output: USAGE,
    },
    Row {
        files: &[],
        lines: &["solve o - f - tree --workers 65"],
        status: 2,
        output: USAGE,
    },
    Row {
        files: &[],
        lines: &["solve o - f - tree --workers x"],
        status: 2,
        output: USAGE,
    },
    Row {
        files: &[],
        lines: &["check o - f - -"],
        status: 2,
        output: USAGE,
    },
    Row {
        files: &[],
        lines: &[""],
        status: 2,
        output: USAGE,
    },
];
