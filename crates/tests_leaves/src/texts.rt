// Number fields and texts of fractions, and a read that fails.
use exact_frac::Frac;
use io_ends::MemSource;
use mps_cards::{LineReader, ReadFault};
use mps_model::FieldFault;
use number_fields::field;
use std::test::Fail;

#[test]
fn a_fault_is_given_again(rt: HostRuntime) -> Result<(), Fail> {
    let mut source = MemSource::new(b"line".to_vec(rt.alloc())?, vec![in rt.alloc(); 1]?);
    let mut lines = LineReader::new(rt.alloc())?;
    for _ in 0..2 {
        assert!(rt; matches!(lines.line(&mut source, 61, 100), Err(ReadFault::Read)));
    }
    Ok(())
}

#[test]
fn numbers_are_read_and_written(rt: HostRuntime) -> Result<(), Fail> {
    for (spelling, text) in [
        ("1.5E+1", "15"),
        ("-.5", "-1/2"),
        ("-0.E5", "0"),
        (
            "0.00000000000000000000000000000000000000001E30",
            "1/100000000000",
        ),
        (
            ".000000000000000000000000000000000000011754943508222875079687365372222456778186655567720875215087517062784172594547271728515625",
            "1/85070591730234615865843651857942052864",
        ),
    ] {
        let Ok(value) = field(spelling.as_bytes()) else {
            panic!(rt; "no number");
        };
        assert_eq!(rt;
            frac_text::text(rt.alloc(), value)?.as_slice(),
            text.as_bytes()
        );
    }
    assert_eq!(rt; field(b"1E31"), Err(FieldFault::Exponent));
    assert_eq!(rt; field(b"7"), Ok(Frac::of(7, 1)));
    Ok(())
}
