// Numbers on cards, by hand from the rules of their spelling.
use crate::{SpellFault, card};
use exact_frac::Frac;
use std::test::Fail;

#[test]
fn numbers_have_one_spelling_on_a_card(rt: HostRuntime) -> Result<(), Fail> {
    for (numer, denom, spelling) in [
        (0, 1, "0"),
        (-15, 1, "-15"),
        (1, 2, ".5"),
        (-1, 8, "-.125"),
        (125, 2, "62.5"),
        (999_999_999_999, 1, "999999999999"),
        (-100_000_000_000, 1, "-1E11"),
        (12_000_000_000_000, 1, "12E12"),
        (100_000_000_000_000_000_000_000_000_000_000, 1, "100E30"),
        (1, 100_000_000_000, ".00000000001"),
        (1, 1_000_000_000_000, "1E-12"),
        (3, 10_000_000_000_000_000_000_000_000_000_000, ".3E-30"),
    ] {
        let text = card(rt.alloc(), Frac::of(numer, denom));
        let Ok(text) = text else {
            panic!(rt; "{spelling}");
        };
        assert_eq!(rt; text.as_slice(), spelling.as_bytes());
    }
    for (numer, denom) in [(1, 3), (1_234_567_890_123, 1), (-999_999_999_999, 1)] {
        assert!(rt;
            matches!(
                card(rt.alloc(), Frac::of(numer, denom)),
                Err(SpellFault::Wide)
            )
        );
    }
    Ok(())
}
