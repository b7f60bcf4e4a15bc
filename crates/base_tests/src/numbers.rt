//! Prices, costs and whole numbers as texts.

use money::*;
use std::test::*;

/// Each text with its value as a price, as a quantity of 1 to 64, and as a signed number.
#[test]
fn readings_of_one_text(rt: HostRuntime) {
    for (text, price, quantity, signed) in [
        ("5", Some(5_000_000), Some(5), Some(5)),
        ("05", Some(5_000_000), Some(5), None),
        ("0.5", Some(500_000), None, None),
        (".5", None, None, None),
        ("5.", None, None, None),
        ("-5", None, None, Some(-5)),
        ("+5", None, None, None),
        ("", None, None, None),
        ("64", Some(64_000_000), Some(64), Some(64)),
        ("65", Some(65_000_000), None, Some(65)),
        ("-0", None, None, None),
        ("007", Some(7_000_000), Some(7), None),
        ("5 ", None, None, None),
        ("1..2", None, None, None),
    ] {
        let bytes = text.as_bytes();
        assert_eq!(rt;
            Price::read(bytes).map(|read| read.units()),
            price,
            "price {text}"
        );
        assert_eq!(rt; read_qty(bytes, 1, 64), quantity, "quantity {text}");
        assert_eq!(rt; read_signed(bytes), signed, "signed {text}");
    }
}

#[test]
fn limits_of_prices(rt: HostRuntime) {
    for (text, price) in [
        ("0", Some(0)),
        ("0.000001", Some(1)),
        ("12.340", Some(12_340_000)),
        ("1000000", Some(1_000_000_000_000)),
        ("1000000.000000", Some(1_000_000_000_000)),
        ("1000000.000001", None),
        ("00000001", None),
        ("1.0000000", None),
    ] {
        let read = Price::read(text.as_bytes());
        assert_eq!(rt; read.map(|read| read.units()), price, "price {text}");
    }
}

#[test]
fn limits_of_numbers(rt: HostRuntime) {
    for (text, count) in [
        ("0", Some(0)),
        ("00", None),
        (
            "99999999999999999999999",
            Some(99_999_999_999_999_999_999_999),
        ),
        ("100000000000000000000000", None),
    ] {
        assert_eq!(rt; read_count(text.as_bytes()), count, "count {text}");
    }
    for (text, quantity) in [
        ("000000000000000064", Some(64)),
        ("0000000000000000064", None),
        ("999999999999999999", Some(999_999_999_999_999_999)),
    ] {
        assert_eq!(rt;
            read_qty(text.as_bytes(), 0, u64::MAX),
            quantity,
            "quantity {text}"
        );
    }
}

#[test]
fn written_texts(rt: HostRuntime) {
    assert!(rt; is_text(write_cost(rt.alloc(), 1_410_728_160), "1410.728160"));
    assert!(rt; is_text(write_cost(rt.alloc(), 50), "0.000050"));
    assert!(rt; is_text(write_signed(rt.alloc(), -7), "-7"));
    assert!(rt;
        is_text(
            write_signed(rt.alloc(), i128::MIN),
            "-170141183460469231731687303715884105728"
        )
    );
    assert!(rt; is_text(write_count(rt.alloc(), 0), "0"));
    assert!(rt;
        is_text(
            write_count(rt.alloc(), u128::MAX),
            "340282366920938463463374607431768211455"
        )
    );
}

fn is_text(written: Result<Vec<u8>, tqd_base::Memory>, text: &str) -> bool {
    match written {
        Ok(bytes) => bytes.as_slice() == text.as_bytes(),
        Err(_) => false,
    }
}
