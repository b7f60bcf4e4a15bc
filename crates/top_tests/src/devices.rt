//! Runs on a device of which each call fails in turn, until no call of the kind is left to fail.
use crate::runs::{FailingRow, check_failing, tree_of};
use std::alloc::Global;
use std::process::Abort;
use std::sync::Wait;
use std::test::Fail;
use std::thread::Threads;
use tqd_base::DeskCall;

/// A valid tree, which lies there before a run. It is not in the format in which trees are written.
const TREE: &str =
    "tqd-tree 1\nplan 165000000 2\nbuy 0 0 100\nbuy 0 1 50\nbound 900000 1500000 0 0 0\n";

/// Two suppliers and two parts, two files of terms, an old tree, and a file in the place of the new one.
const FILES: &[(&str, &str)] = &[
    ("o", "product,quantity\nx,100\ny,50\n"),
    (
        "f",
        "supplier,from,part,price\nA,1,x,1.00\nA,1,y,2.00\nA,150,x,0.90\nA,150,y,1.50\nB,1,x,0.95\nB,1,y,1.60\n",
    ),
    ("t1", "kind,supplier,part,low,high\nstock,A,x,,60\n"),
    ("t2", "kind,supplier,part,low,high\nwinners,,,2,\n"),
    ("old", TREE),
    ("tree", TREE),
];

const SOLVE: &str = "solve o - f - tree";

const CHECK: &str = "check o - f - tree";

const REQUOTE: &str = "requote o - f - old tree";

const SCENARIOS: &str = "scenarios o - f t1 t2";

const SHARED_SCENARIOS: &str = "scenarios o - f t1 t2 --workers 4";

const SOLVED: &str =
    "solved\t165.000000\nsupplier\tA\t150\t150\t165.000000\nbuy\tx\t100\t0.900000\t90.000000\n\
     buy\ty\t50\t1.500000\t75.000000\n";

const ACCEPTED: &str = "accepted\t165.000000\n";

const COMPARED: &str = "scenario\t1\t175.000000\nscenario\t2\t175.050000\n";

/// A line that prints a text where no call fails; and of a kind of call, the status and what is printed where the first one
/// fails, the second, and so on.
struct Device {
    line: &'static str,
    text: &'static str,
    call: DeskCall,
    status: u8,
    printed: &'static [&'static str],
}

/// Files that cannot be opened. They are opened in the order in which they are read.
const OPENS: [Device; 5] = [
    Device {
        line: SOLVE,
        text: SOLVED,
        call: DeskCall::Open,
        status: 5,
        printed: &["cannot read orders\n", "cannot read offers\n"],
    },
    Device {
        line: CHECK,
        text: ACCEPTED,
        call: DeskCall::Open,
        status: 5,
        printed: &[
            "cannot read orders\n",
            "cannot read offers\n",
            "cannot read tree\n",
        ],
    },
    Device {
        line: REQUOTE,
        text: SOLVED,
        call: DeskCall::Open,
        status: 5,
        printed: &[
            "cannot read orders\n",
            "cannot read offers\n",
            "cannot read old tree\n",
        ],
    },
    Device {
        line: SCENARIOS,
        text: COMPARED,
        call: DeskCall::Open,
        status: 5,
        printed: &[
            "cannot read orders\n",
            "cannot read offers\n",
            "cannot read terms 1\n",
            "cannot read terms 2\n",
        ],
    },
    Device {
        line: SHARED_SCENARIOS,
        text: COMPARED,
        call: DeskCall::Open,
        status: 5,
        printed: &[
            "cannot read orders\n",
            "cannot read offers\n",
            "cannot read terms 1\n",
            "cannot read terms 2\n",
        ],
    },
];

/// Files that cannot be taken. Each is taken once for its bytes, and once for its end.
const TAKES: [Device; 5] = [
    Device {
        line: SOLVE,
        text: SOLVED,
        call: DeskCall::Take,
        status: 5,
        printed: &[
            "cannot read orders\n",
            "cannot read orders\n",
            "cannot read offers\n",
            "cannot read offers\n",
        ],
    },
    Device {
        line: CHECK,
        text: ACCEPTED,
        call: DeskCall::Take,
        status: 5,
        printed: &[
            "cannot read orders\n",
            "cannot read orders\n",
            "cannot read offers\n",
            "cannot read offers\n",
            "cannot read tree\n",
            "cannot read tree\n",
        ],
    },
    Device {
        line: REQUOTE,
        text: SOLVED,
        call: DeskCall::Take,
        status: 5,
        printed: &[
            "cannot read orders\n",
            "cannot read orders\n",
            "cannot read offers\n",
            "cannot read offers\n",
            "cannot read old tree\n",
            "cannot read old tree\n",
        ],
    },
    Device {
        line: SCENARIOS,
        text: COMPARED,
        call: DeskCall::Take,
        status: 5,
        printed: &[
            "cannot read orders\n",
            "cannot read orders\n",
            "cannot read offers\n",
            "cannot read offers\n",
            "cannot read terms 1\n",
            "cannot read terms 1\n",
            "cannot read terms 2\n",
            "cannot read terms 2\n",
        ],
    },
    Device {
        line: SHARED_SCENARIOS,
        text: COMPARED,
        call: DeskCall::Take,
        status: 5,
        printed: &[
            "cannot read orders\n",
            "cannot read orders\n",
            "cannot read offers\n",
            "cannot read offers\n",
            "cannot read terms 1\n",
            "cannot read terms 1\n",
            "cannot read terms 2\n",
            "cannot read terms 2\n",
        ],
    },
];

/// Trees that cannot be made or closed. `check` and `scenarios` write none.
const TREES: [Device; 8] = [
    Device {
        line: SOLVE,
        text: SOLVED,
        call: DeskCall::Make,
        status: 6,
        printed: &[""],
    },
    Device {
        line: SOLVE,
        text: SOLVED,
        call: DeskCall::Close,
        status: 6,
        printed: &[""],
    },
    Device {
        line: REQUOTE,
        text: SOLVED,
        call: DeskCall::Make,
        status: 6,
        printed: &[""],
    },
    Device {
        line: REQUOTE,
        text: SOLVED,
        call: DeskCall::Close,
        status: 6,
        printed: &[""],
    },
    Device {
        line: CHECK,
        text: ACCEPTED,
        call: DeskCall::Make,
        status: 6,
        printed: &[],
    },
    Device {
        line: CHECK,
        text: ACCEPTED,
        call: DeskCall::Put,
        status: 6,
        printed: &[],
    },
    Device {
        line: SCENARIOS,
        text: COMPARED,
        call: DeskCall::Put,
        status: 6,
        printed: &[],
    },
    Device {
        line: SHARED_SCENARIOS,
        text: COMPARED,
        call: DeskCall::Close,
        status: 6,
        printed: &[],
    },
];

/// Outputs that cannot be written: the first half of the bytes is there.
const OUTS: [Device; 5] = [
    Device {
        line: SOLVE,
        text: SOLVED,
        call: DeskCall::Out,
        status: 6,
        printed: &["solved\t165.000000\nsupplier\tA\t150\t150\t165.000000\nbuy\t"],
    },
    Device {
        line: CHECK,
        text: ACCEPTED,
        call: DeskCall::Out,
        status: 6,
        printed: &["accepted\t1"],
    },
    Device {
        line: REQUOTE,
        text: SOLVED,
        call: DeskCall::Out,
        status: 6,
        printed: &["solved\t165.000000\nsupplier\tA\t150\t150\t165.000000\nbuy\t"],
    },
    Device {
        line: SCENARIOS,
        text: COMPARED,
        call: DeskCall::Out,
        status: 6,
        printed: &["scenario\t1\t175.000000\n"],
    },
    Device {
        line: SHARED_SCENARIOS,
        text: COMPARED,
        call: DeskCall::Out,
        status: 6,
        printed: &["scenario\t1\t175.000000\n"],
    },
];

// The file `tree` after such a call failed: as it was before, or as it is written.
fn tree_left<'a>(call: DeskCall, written: &'a str) -> &'a str {
    match call {
        DeskCall::Open | DeskCall::Take | DeskCall::Make => TREE,
        DeskCall::Put | DeskCall::Close | DeskCall::Out => written,
    }
}

// Runs a line on devices whose first call of the kind fails, whose second one does, and so on, until none is left.
fn check_device<R: Threads + Wait + Abort + Sync>(
    rt: &R,
    alloc: Global,
    plain: bool,
    device: &Device,
) -> Result<(), Fail> {
    let written = tree_of(rt, alloc, plain, FILES, device.line)?;
    let mut nth = 1u64;
    for output in device.printed {
        let row = FailingRow {
            call: device.call,
            nth,
            files: FILES,
            line: device.line,
            status: device.status,
            output,
            tree: tree_left(device.call, &written),
        };
        check_failing(rt, alloc, plain, &row)?;
        nth = nth.saturating_add(1);
    }
    let row = FailingRow {
        call: device.call,
        nth,
        files: FILES,
        line: device.line,
        status: 0,
        output: device.text,
        tree: &written,
    };
    check_failing(rt, alloc, plain, &row)
}

// The same for each of some devices, by both calls.
fn check_devices<R: Threads + Wait + Abort + Sync>(
    rt: &R,
    alloc: Global,
    devices: &[Device],
) -> Result<(), Fail> {
    for device in devices {
        check_device(rt, alloc, true, device)?;
        check_device(rt, alloc, false, device)?;
    }
    Ok(())
}

#[test]
fn each_call_of_a_device_fails(rt: HostRuntime) -> Result<(), Fail> {
    check_devices(&rt, rt.alloc(), &OPENS)?;
    check_devices(&rt, rt.alloc(), &TAKES)?;
    check_devices(&rt, rt.alloc(), &TREES)?;
    check_devices(&rt, rt.alloc(), &OUTS)
}

// Runs a line on devices which fail to put the first line of the tree, the second, and so on: the lines before it are
// written, and the first half of it.
fn check_puts<R: Threads + Wait + Abort + Sync>(
    rt: &R,
    alloc: Global,
    plain: bool,
    line: &str,
    written: &str,
) -> Result<(), Fail> {
    let mut before = String::new(alloc);
    let mut nth = 0u64;
    for text in written.lines() {
        nth = nth.saturating_add(1);
        // a line of so many bytes and its line feed
        let half = text.get(..text.len().saturating_add(1) / 2).unwrap_or("");
        let tree = format!(in alloc; "{before}{half}")?;
        let row = FailingRow {
            call: DeskCall::Put,
            nth,
            files: FILES,
            line,
            status: 6,
            output: "",
            tree: &tree,
        };
        check_failing(rt, alloc, plain, &row)?;
        before.push_str(text)?;
        before.push_str("\n")?;
    }
    check_all_put(rt, alloc, plain, line, nth.saturating_add(1), written)
}

// Runs a line on a device which has no such call to fail any more.
fn check_all_put<R: Threads + Wait + Abort + Sync>(
    rt: &R,
    alloc: Global,
    plain: bool,
    line: &str,
    nth: u64,
    written: &str,
) -> Result<(), Fail> {
    let row = FailingRow {
        call: DeskCall::Put,
        nth,
        files: FILES,
        line,
        status: 0,
        output: SOLVED,
        tree: written,
    };
    check_failing(rt, alloc, plain, &row)
}

#[test]
fn a_tree_ends_where_a_line_of_it_fails(rt: HostRuntime) -> Result<(), Fail> {
    let alloc = rt.alloc();
    for line in [SOLVE, REQUOTE] {
        for plain in [true, false] {
            let written = tree_of(&rt, alloc, plain, FILES, line)?;
            assert!(rt; written.starts_with("tqd-tree 2\n"));
            check_puts(&rt, alloc, plain, line, &written)?;
        }
    }
    Ok(())
}
