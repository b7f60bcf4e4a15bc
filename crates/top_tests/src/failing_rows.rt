//! Runs in which a call of the desk fails.
use crate::runs::FailingRow;
use tqd_base::DeskCall;

const OFFERS: &str = "supplier,from,part,price\nA,1,r,0.10\nA,100,r,0.08\n";

const HUNDRED: &str = "product,quantity\nr,100\n";

/// Runs in which a call of the desk fails.
pub(crate) const FAILING: [FailingRow<'static>; 13] = [
    FailingRow {
        call: DeskCall::Open,
        nth: 1,
        files: &[("o", HUNDRED), ("f", OFFERS)],
        line: "solve o - f - -",
        status: 5,
        output: "cannot read orders\n",
        tree: "",
    },
    FailingRow {
        call: DeskCall::Open,
        nth: 2,
        files: &[("o", HUNDRED), ("f", OFFERS)],
        line: "solve o - f - -",
        status: 5,
        output: "cannot read offers\n",
        tree: "",
    },
    FailingRow {
        call: DeskCall::Take,
        nth: 1,
        files: &[("o", HUNDRED), ("f", OFFERS)],
        line: "solve o - f - -",
        status: 5,
        output: "cannot read orders\n",
        tree: "",
    },
    FailingRow {
        call: DeskCall::Take,
        nth: 2,
        files: &[("o", HUNDRED), ("f", OFFERS)],
        line: "solve o - f - -",
        status: 5,
        output: "cannot read orders\n",
        tree: "",
    },
    FailingRow {
        call: DeskCall::Take,
        nth: 3,
        files: &[("o", HUNDRED), ("f", OFFERS)],
        line: "solve o - f - -",
        status: 5,
        output: "cannot read offers\n",
        tree: "",
    },
    FailingRow {
        call: DeskCall::Take,
        nth: 4,
        files: &[("o", HUNDRED), ("f", OFFERS)],
        line: "solve o - f - -",
        status: 5,
        output: "cannot read offers\n",
        tree: "",
    },
    // half of the 72 bytes of the text
    FailingRow {
        call: DeskCall::Out,
        nth: 1,
        files: &[("o", HUNDRED), ("f", OFFERS)],
        line: "solve o - f - -",
        status: 6,
        output: "solved\t8.000000\nsupplier\tA\t100\t100\t8",
        tree: "",
    },
    FailingRow {
        call: DeskCall::Make,
        nth: 1,
        files: &[("o", HUNDRED), ("f", OFFERS)],
        line: "solve o - f - tree",
        status: 6,
        output: "",
        tree: "",
    },
    FailingRow {
        call: DeskCall::Put,
        nth: 2,
        files: &[("o", HUNDRED), ("f", OFFERS)],
        line: "solve o - f - tree",
        status: 6,
        output: "",
        tree: "tqd-tree 2\nplan 80",
    },
    FailingRow {
        call: DeskCall::Put,
        nth: 3,
        files: &[("o", HUNDRED), ("f", OFFERS)],
        line: "solve o - f - tree",
        status: 6,
        output: "",
        tree: "tqd-tree 2\nplan 8000000 1\nbuy 0 ",
    },
    FailingRow {
        call: DeskCall::Open,
        nth: 2,
        files: &[
            ("o", "product,quantity\nr,5\n"),
            ("b", "assembly,part,quantity\n"),
        ],
        line: "needs o b",
        status: 5,
        output: "cannot read bill\n",
        tree: "",
    },
    FailingRow {
        call: DeskCall::Take,
        nth: 1,
        files: &[
            ("o", "product,quantity\nr,5\n"),
            ("b", "assembly,part,quantity\n"),
        ],
        line: "needs o b",
        status: 5,
        output: "cannot read orders\n",
        tree: "",
    },
    // half of the 9 bytes of the text
    FailingRow {
        call: DeskCall::Out,
        nth: 1,
        files: &[
            ("o", "product,quantity\nr,5\n"),
            ("b", "assembly,part,quantity\n"),
        ],
        line: "needs o b",
        status: 6,
        output: "need",
        tree: "",
    },
];
