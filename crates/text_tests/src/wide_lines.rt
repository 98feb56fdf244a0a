// The tests of `wide_text`: lines of fractions that were worked by Python's whole numbers.

use gcl_core::{Limit, Outcome};
use report_text::Decimals;
use std::alloc::Global;
use wide_numbers::{Wide, WideError, WideFraction};
use wide_text::{endless_line, mass_line};

// The product of numbers that go down by a step, so many; a power, where the step is 0.
fn product(alloc: Global, first: u64, step: u64, count: u64) -> Result<Wide, WideError> {
    let mut out = Wide::of(alloc, 1)?;
    for i in 0..count {
        let factor = first.saturating_sub(step.saturating_mul(i));
        out = out.mul(alloc, &Wide::of(alloc, factor)?)?;
    }
    Ok(out)
}

// A number over another, which is not 0.
fn over(alloc: Global, num: &Wide, den: &Wide) -> Option<WideFraction> {
    if den.is_zero() {
        return None;
    }
    WideFraction::of(alloc, num, den).ok()
}

// Of 23 people no two have one birthday.
fn birthdays(alloc: Global) -> Option<WideFraction> {
    let ways = product(alloc, 364, 1, 22).ok()?;
    let all = product(alloc, 365, 0, 22).ok()?;
    over(alloc, &ways, &all)
}

// What 200 fair coins that all fall heads leave.
fn not_all_heads(alloc: Global) -> Option<WideFraction> {
    let all = product(alloc, 2, 0, 200).ok()?;
    let one = Wide::of(alloc, 1).ok()?;
    if all.is_zero() {
        return None;
    }
    over(alloc, &all.sub(alloc, &one).ok()?, &all)
}

// Many thirds, which are more than one whole.
fn many_thirds(alloc: Global) -> Option<WideFraction> {
    let many = product(alloc, 2, 0, 200).ok()?;
    over(alloc, &many, &Wide::of(alloc, 3).ok()?)
}

fn narrow(alloc: Global, num: u64, den: u64) -> Option<WideFraction> {
    over(
        alloc,
        &Wide::of(alloc, num).ok()?,
        &Wide::of(alloc, den).ok()?,
    )
}

fn has_mass(
    alloc: Global,
    outcome: Outcome,
    f: Option<WideFraction>,
    decimals: u64,
    want: &str,
) -> bool {
    let Some(f) = f else {
        return false;
    };
    let decimals = Decimals::of(decimals.min(36));
    match mass_line(alloc, &outcome, &f, decimals) {
        Ok(text) => text.bytes() == want.as_bytes(),
        Err(_) => false,
    }
}

fn is_endless(alloc: Global, f: Option<WideFraction>, decimals: u64, want: &str) -> bool {
    let Some(f) = f else {
        return false;
    };
    let decimals = Decimals::of(decimals.min(36));
    match endless_line(alloc, &f, decimals) {
        Ok(text) => text.bytes() == want.as_bytes(),
        Err(_) => false,
    }
}

#[test]
fn a_wide_mass(rt: HostRuntime) {
    let alloc = rt.alloc();
    let want =
        "value -3 mass 36997978566217959340182499134166757044383351847256064/75091883268515350125426207425223147563269805908203125\n";
    assert!(rt; has_mass(alloc, Outcome::Value(-3), birthdays(alloc), 0, want));
}

#[test]
fn a_wide_mass_in_decimals(rt: HostRuntime) {
    let alloc = rt.alloc();
    let want =
        "limit turns mass 36997978566217959340182499134166757044383351847256064/75091883268515350125426207425223147563269805908203125 > 0.49270276567601459277\n";
    assert!(rt;
        has_mass(
            alloc,
            Outcome::Limit(Limit::Turns),
            birthdays(alloc),
            20,
            want
        )
    );
}

#[test]
fn a_mass_of_one_third(rt: HostRuntime) {
    let alloc = rt.alloc();
    let want = "value 0 mass 1/3 > 0.333333333333333333333333333333333333\n";
    assert!(rt; has_mass(alloc, Outcome::Value(0), narrow(alloc, 1, 3), 36, want));
}

#[test]
fn a_half_is_rounded_up(rt: HostRuntime) {
    let alloc = rt.alloc();
    let want = "value 7 mass 1/8 < 0.13\n";
    assert!(rt; has_mass(alloc, Outcome::Value(7), narrow(alloc, 1, 8), 2, want));
}

#[test]
fn a_mass_of_nothing(rt: HostRuntime) {
    let alloc = rt.alloc();
    let want = "value 1 mass 0/1 = 0.000\n";
    assert!(rt; has_mass(alloc, Outcome::Value(1), narrow(alloc, 0, 5), 3, want));
}

#[test]
fn decimals_that_carry_into_the_whole_part(rt: HostRuntime) {
    let alloc = rt.alloc();
    let want =
        "endless mass 1606938044258990275541962092341162602522202993782792835301375/1606938044258990275541962092341162602522202993782792835301376 < 1.00000000000000000000\n";
    assert!(rt; is_endless(alloc, not_all_heads(alloc), 20, want));
}

#[test]
fn a_wide_whole_part(rt: HostRuntime) {
    let alloc = rt.alloc();
    let want =
        "endless mass 1606938044258990275541962092341162602522202993782792835301376/3 > 535646014752996758513987364113720867507400997927597611767125.33333\n";
    assert!(rt; is_endless(alloc, many_thirds(alloc), 5, want));
}
