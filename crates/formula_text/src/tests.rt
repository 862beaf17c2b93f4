use super::*;
use graph_model::Text;
use std::alloc::Global;
use std::test::Fail;

fn fault_of(alloc: Global, text: &str) -> Option<FormulaFault> {
    match Formula::parse(alloc, text) {
        Ok(_) => None,
        Err(fault) => Some(fault),
    }
}

// The value of a formula without inputs, and what is written for it.
fn value_and_text(alloc: Global, text: &str) -> Option<(i64, Text)> {
    let formula = Formula::parse(alloc, text).ok()?;
    match formula.greatest_input() {
        None => Some((formula.eval(&[]), formula.write(alloc).ok()?)),
        Some(_) => None,
    }
}

fn is_worth(alloc: Global, text: &str, value: i64, written: &str) -> bool {
    match value_and_text(alloc, text) {
        Some(found) => found.0 == value && found.1.as_slice() == written.as_bytes(),
        None => false,
    }
}

fn repeated(alloc: Global, before: &str, times: u32, behind: &str) -> Result<String, Fail> {
    let mut text = String::new(alloc);
    for _ in 0..times {
        text.push_str(before)?;
    }
    text.push('1')?;
    for _ in 0..times {
        text.push_str(behind)?;
    }
    Ok(text)
}

#[test]
fn refused_texts(rt: HostRuntime) -> Result<(), Fail> {
    let alloc = rt.alloc();
    let faults = [
        ("", FormulaFault::End),
        ("1+", FormulaFault::End),
        ("1 2", FormulaFault::Extra { place: 2 }),
        ("1)", FormulaFault::Extra { place: 1 }),
        ("(1 2)", FormulaFault::Char { place: 3 }),
        ("$40", FormulaFault::Input { place: 0 }),
        ("$", FormulaFault::Input { place: 0 }),
        ("a", FormulaFault::Char { place: 0 }),
        ("min(1)", FormulaFault::Char { place: 5 }),
        ("9223372036854775808", FormulaFault::Number { place: 0 }),
    ];
    for (text, fault) in faults {
        assert_eq!(rt; fault_of(alloc, text), Some(fault));
    }
    Ok(())
}

#[test]
fn values_and_texts(rt: HostRuntime) -> Result<(), Fail> {
    let alloc = rt.alloc();
    let values = [
        ("-7/2", -3, "-7/2"),
        ("-7%2", -1, "-7%2"),
        ("5/0", 0, "5/0"),
        ("5%0", 0, "5%0"),
        (
            "(-9223372036854775807-1)/-1",
            i64::MIN,
            "(-9223372036854775807-1)/-1",
        ),
        ("2-3-4", -5, "2-3-4"),
        ("max(2,min(9,4))", 4, "max(2,min(9,4))"),
        ("9223372036854775807+1", i64::MIN, "9223372036854775807+1"),
        (" ( 1+02 ) * 3 ", 9, "(1+2)*3"),
        ("1-(2-3)-(4*5)", -18, "1-(2-3)-4*5"),
    ];
    for (text, value, written) in values {
        assert!(rt; is_worth(alloc, text, value, written), "{text}");
    }
    Ok(())
}

#[test]
fn deep_and_long_texts(rt: HostRuntime) -> Result<(), Fail> {
    let alloc = rt.alloc();
    let nested = repeated(alloc, "(", 64, ")")?;
    assert!(rt; is_worth(alloc, nested.as_str(), 1, "1"));
    let negated = repeated(alloc, "-", 64, "")?;
    assert!(rt; is_worth(alloc, negated.as_str(), 1, negated.as_str()));
    let deeper = repeated(alloc, "(", 65, ")")?;
    assert_eq!(rt; fault_of(alloc, deeper.as_str()), Some(FormulaFault::Deep));
    let sum = repeated(alloc, "1+", 1999, "")?;
    assert!(rt; is_worth(alloc, sum.as_str(), 2000, sum.as_str()));
    let long = repeated(alloc, " ", 4096, "")?;
    assert_eq!(rt; fault_of(alloc, long.as_str()), Some(FormulaFault::Long));
    Ok(())
}
