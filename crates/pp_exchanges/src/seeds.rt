// The numbers of a seed, and how what happens is spelled.
use pp_sim::{Dice, quoted, simulate};
use std::test::Fail;

#[test]
fn the_numbers_are_those_of_splitmix64(rt: HostRuntime) {
    let mut dice = Dice::new(1_234_567);
    let numbers: [u64; 5] = [
        6_457_827_717_110_365_317,
        3_203_168_211_198_807_973,
        9_817_491_932_198_370_423,
        4_593_380_528_125_082_431,
        16_408_922_859_458_223_821,
    ];
    for number in numbers {
        assert_eq!(rt; dice.roll(), number);
    }
}

#[test]
fn a_seed_gives_the_same_lives_and_the_next_others(rt: HostRuntime) -> Result<(), Fail> {
    let one = simulate(rt.alloc(), 38)?.transcript(rt.alloc())?;
    let same = simulate(rt.alloc(), 38)?.transcript(rt.alloc())?;
    let next = simulate(rt.alloc(), 39)?.transcript(rt.alloc())?;
    assert_eq!(rt; same.as_str(), one.as_str());
    assert!(rt; next.as_str() != one.as_str());
    Ok(())
}

#[test]
fn a_text_is_quoted_with_escapes_and_runs(rt: HostRuntime) -> Result<(), Fail> {
    let cases: [(&[u8], &str); 4] = [
        (b"", "\"\""),
        (
            b"a ~\r\n\t\0\"\\\x1f\x7f\xff",
            "\"a ~\\r\\n\\t\\x00\\\"\\\\\\x1f\\x7f\\xff\"",
        ),
        (
            b"xyaaaaaaaaaaaaaaaaaaaaaaaaaaaaaaaaz",
            "\"xy\" + 32 * \"a\" + \"z\"",
        ),
        (
            b"aaaaaaaaaaaaaaaaaaaaaaaaaaaaaaab",
            "\"aaaaaaaaaaaaaaaaaaaaaaaaaaaaaaab\"",
        ),
    ];
    for (text, wanted) in cases {
        let told = quoted(rt.alloc(), text)?;
        assert_eq!(rt; told.as_str(), wanted);
    }
    Ok(())
}
