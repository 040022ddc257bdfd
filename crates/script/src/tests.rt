// Scripts as they are written.
use crate::command::{Command, SheetCall};
use crate::fault::{Expected, ReadError, ScriptFault};
use crate::forms::{Form, LatticeKind, SheetForm};
use crate::script::read_script;
use game::clash::AnyClash;
use game::terms::Kind as Right;
use rates::kind::Kind;
use rates::weights::Triple;
use sheet::Edit;
use std::test::Fail;

// The fault of a script that is refused.
fn fault_of(rt: &HostRuntime, text: &[u8]) -> Result<ScriptFault, Fail> {
    match read_script(rt.alloc(), text) {
        Err(ReadError::Fault(fault)) => Ok(fault),
        Err(ReadError::Memory) => Err(Fail::new("no memory")),
        Ok(_) => Err(Fail::new("no fault")),
    }
}

#[test]
fn reads_a_script(rt: HostRuntime) -> Result<(), Fail> {
    let text =
        b"# a bond\r\nlattice trinomial 2 250 500 250 7 008\r\n\r\nclash halfway\nopen # the sheet\n\tcoupon 3   50\ncancel put 4294967295";
    let commands = read_script(rt.alloc(), text)?;
    assert!(rt; commands.len() == 5);
    assert!(rt;
        matches!(
            &commands[0],
            Command::Lattice {
                kind: Kind::Trinomial(Triple {
                    low: 250,
                    level: 500,
                    high: 250
                }),
                steps: 2,
                ..
            }
        )
    );
    assert!(rt; matches!(&commands[1], Command::Clash(AnyClash::Halfway)));
    assert!(rt; matches!(&commands[2], Command::Open));
    assert!(rt;
        matches!(
            &commands[3],
            Command::Sheet(SheetCall::Edit(Edit::Coupon(3, 50)))
        )
    );
    assert!(rt;
        matches!(
            &commands[4],
            Command::Sheet(SheetCall::Edit(Edit::Cancel(Right::Put, 4294967295)))
        )
    );
    Ok(())
}

#[test]
fn reads_rates(rt: HostRuntime) -> Result<(), Fail> {
    let commands = read_script(rt.alloc(), b"lattice binomial 1 50000 40000 60000")?;
    assert!(rt; commands.len() == 1);
    match &commands[0] {
        Command::Lattice { rates, .. } => {
            assert!(rt; rates.as_slice() == [50000, 40000, 60000].as_slice());
            Ok(())
        },
        _ => Err(Fail::new("no lattice")),
    }
}

#[test]
fn names_the_first_fault(rt: HostRuntime) -> Result<(), Fail> {
    assert_eq!(rt;
        fault_of(&rt, b"\nopen now\nshut")?,
        ScriptFault {
            line: 2,
            expected: Expected::Words(Form::Open),
        }
    );
    assert_eq!(rt;
        fault_of(&rt, b"open\ncost # 1\nshut")?,
        ScriptFault {
            line: 3,
            expected: Expected::Call,
        }
    );
    assert_eq!(rt;
        fault_of(&rt, b"lattice")?,
        ScriptFault {
            line: 1,
            expected: Expected::LatticeKind,
        }
    );
    assert_eq!(rt;
        fault_of(&rt, b"lattice worst 1 2 3 4 5 6")?,
        ScriptFault {
            line: 1,
            expected: Expected::Words(Form::Lattice(LatticeKind::Worst)),
        }
    );
    assert_eq!(rt;
        fault_of(&rt, b"coupon 1 4294967296")?,
        ScriptFault {
            line: 1,
            expected: Expected::Number(Form::Sheet(SheetForm::Coupon)),
        }
    );
    assert_eq!(rt;
        fault_of(&rt, b"clash put\ntable")?,
        ScriptFault {
            line: 2,
            expected: Expected::OpenSheet,
        }
    );
    Ok(())
}

#[test]
fn says_what_was_expected(rt: HostRuntime) -> Result<(), Fail> {
    let fault = fault_of(&rt, b"open\ncoupon 1 x")?;
    let said = format!(in rt.alloc(); "{fault}")?;
    assert!(rt;
        said.as_str()
            == "line 2: expected a number of at most 4294967295, as in: coupon STEP AMOUNT"
    );
    Ok(())
}
