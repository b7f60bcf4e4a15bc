//! Rows of files, and the first fault of each.

use csv_rows::*;
use std::alloc::Global;
use std::test::*;
use tqd_base::Stop;

/// Whether the bytes are read as one row with these two fields.
fn is_one_row(alloc: Global, bytes: &[u8], first: &str, second: &str) -> bool {
    match rows(alloc, bytes, "product,quantity") {
        Ok(table) => {
            table.len() == 1 && table.field(0, 0) == first && table.field(0, 1) == second
        }
        Err(_) => false,
    }
}

/// The fault that the bytes are refused with, if they are.
fn fault_of(alloc: Global, bytes: &[u8]) -> Option<RowFault> {
    match rows(alloc, bytes, "product,quantity") {
        Err(Stop::Refused(fault)) => Some(fault),
        Ok(_) | Err(Stop::Memory) => None,
    }
}

#[test]
fn quotes_marks_and_line_ends(rt: HostRuntime) {
    for (bytes, first, second) in [
        (b"product,quantity\na,1\n".as_slice(), "a", "1"),
        (b"product,quantity\r\na,1\r\n".as_slice(), "a", "1"),
        (b"product,quantity\ra,1\r".as_slice(), "a", "1"),
        (b"\"product\",quantity\na, 1".as_slice(), "a", " 1"),
        (
            b"product,quantity\n\"a,\"\"b\n\",\n".as_slice(),
            "a,\"b\n",
            "",
        ),
        (
            b"\n\nproduct,quantity\n\nr,0100\n\n".as_slice(),
            "r",
            "0100",
        ),
        (
            b"\xEF\xBB\xBFproduct,quantity\r\n\"r\",\"0100\"\r\n".as_slice(),
            "r",
            "0100",
        ),
        (
            b"\xEF\xBB\xBF\xEF\xBB\xBFproduct,quantity\nr,1\n".as_slice(),
            "r",
            "1",
        ),
        (b"product,quantity\n\xC3\xA9,1\n".as_slice(), "\u{e9}", "1"),
    ] {
        assert!(rt; is_one_row(rt.alloc(), bytes, first, second), "{first}");
    }
}

#[test]
fn first_faults(rt: HostRuntime) {
    for (bytes, fault) in [
        (b"".as_slice(), RowFault::Empty),
        (b"\xEF\xBB\xBF\r\n\n".as_slice(), RowFault::Empty),
        (b"product".as_slice(), RowFault::Header),
        (b"product, quantity\n".as_slice(), RowFault::Header),
        (b"product,quantity,\n".as_slice(), RowFault::Header),
        (
            b"\xEF\xBB\xBF\xEF\xBB\xBF\xEF\xBB\xBFproduct,quantity\n".as_slice(),
            RowFault::Header,
        ),
        (
            b"product,quantity\nr\n".as_slice(),
            RowFault::Width { at: 2, found: 1 },
        ),
        (
            b"product,quantity\n\"\"\n".as_slice(),
            RowFault::Width { at: 2, found: 1 },
        ),
        (
            b"product,quantity\na,1\n\na,1,2\n".as_slice(),
            RowFault::Width { at: 3, found: 3 },
        ),
        (
            b"product,quantity\na,\xFF\n".as_slice(),
            RowFault::Text { at: 2, field: 2 },
        ),
        (
            b"product,quantity\n\xC3,\xFF\n".as_slice(),
            RowFault::Text { at: 2, field: 1 },
        ),
        (
            b"product,quantity\n\xFF\n".as_slice(),
            RowFault::Width { at: 2, found: 1 },
        ),
        (
            b"product,quantity\n\xFF,1\nr\n".as_slice(),
            RowFault::Text { at: 2, field: 1 },
        ),
    ] {
        assert_eq!(rt; fault_of(rt.alloc(), bytes), Some(fault));
    }
}
