// What a sheet answers on small lists of stays.
use axis::{Axis, Bound};
use boxes::Place;
use faults::SheetFault;
use journal::{Stay, Window};
use list_axis::ListAxis;
use matrix_axis::MatrixAxis;
use runs::{Call, Told, run};
use sheet::Sheet;
use stack::Trial;
use std::process::Abort;
use std::test::Fail;

const BLANK: Trial = Trial {
    i: 0,
    j: 0,
    word: None,
};

const FIRST: Stay = Stay {
    circuit: 90,
    lead: 10,
    dwell: 60,
    metres: 60,
    window: None,
};

const SECOND: Stay = Stay {
    circuit: 120,
    lead: 0,
    dwell: 120,
    metres: 60,
    window: None,
};

const THIRD: Stay = Stay {
    circuit: 60,
    lead: 0,
    dwell: 30,
    metres: 40,
    window: Some(Window { from: 0, until: 2 }),
};

fn bound(p: u8, q: u8, d: i16) -> Bound {
    Bound { p, q, d }
}

fn place(step: u16, metre: u16) -> Place {
    Place { step, metre }
}

// A stay of two steps and ten metres.
fn short(window: Option<Window>) -> Stay {
    Stay {
        circuit: 60,
        lead: 0,
        dwell: 30,
        metres: 10,
        window,
    }
}

fn number(answer: Result<(), SheetFault>) -> Option<u8> {
    answer.err().map(|fault| fault.number())
}

fn load_three<T: Axis, P: Axis>(sheet: &mut Sheet<T, P>) -> Result<(), SheetFault> {
    sheet.load(7, 100, &[FIRST, SECOND, THIRD])
}

fn rules<T: Axis, P: Axis>(rt: &impl Abort, sheet: &mut Sheet<T, P>) -> Result<(), Fail> {
    load_three(sheet)?;
    assert_eq!(rt; sheet.ask('T', 1, 0)?, 4);
    assert_eq!(rt; sheet.ask('T', 0, 1)?, 0);
    sheet.rule(1, 2, 'B')?;
    assert_eq!(rt; sheet.ask('T', 1, 0)?, 0);
    assert_eq!(rt; sheet.ask('T', 0, 2)?, -3);
    assert_eq!(rt; sheet.ask('T', 2, 1)?, 3);
    assert_eq!(rt; number(sheet.rule(2, 1, 'B')), Some(6));
    assert_eq!(rt; number(sheet.rule(1, 2, 'N')), Some(6));
    sheet.withdraw()?;
    sheet.rule(2, 1, 'B')?;
    assert_eq!(rt; sheet.ask('T', 0, 1)?, -4);
    Ok(())
}

// The record past the plan is kept.
fn plan<T: Axis, P: Axis>(rt: &impl Abort, sheet: &mut Sheet<T, P>) -> Result<(), Fail> {
    load_three(sheet)?;
    sheet.bind('T', bound(1, 2, -3))?;
    sheet.bind('P', bound(1, 3, -60))?;
    let mut places = [place(8, 9); 4];
    sheet.settle(&mut places, &mut [BLANK; 3])?;
    assert_eq!(rt;
        places,
        [place(0, 0), place(3, 0), place(0, 60), place(8, 9)]
    );
    Ok(())
}

// The places are kept, and the trial record is blank.
fn no_plan<T: Axis, P: Axis>(rt: &impl Abort, sheet: &mut Sheet<T, P>) -> Result<(), Fail> {
    sheet.load(6, 100, &[FIRST, SECOND])?;
    let mut places = [place(8, 9); 2];
    let mut trials = [Trial {
        i: 7,
        j: 8,
        word: None,
    }];
    assert_eq!(rt; number(sheet.settle(&mut places, &mut trials)), Some(25));
    assert_eq!(rt; places, [place(8, 9); 2]);
    assert_eq!(rt; trials, [BLANK]);
    Ok(())
}

fn no_stays<T: Axis, P: Axis>(rt: &impl Abort, sheet: &mut Sheet<T, P>) -> Result<(), Fail> {
    sheet.renew();
    sheet.settle(&mut [], &mut [])?;
    sheet.load(2880, 1000, &[])?;
    assert_eq!(rt; number(sheet.settle(&mut [], &mut [])), None);
    Ok(())
}

fn itself<T: Axis, P: Axis>(rt: &impl Abort, sheet: &mut Sheet<T, P>) -> Result<(), Fail> {
    load_three(sheet)?;
    assert_eq!(rt; number(sheet.bind('T', bound(1, 1, -1))), Some(6));
    assert_eq!(rt; sheet.entries().len(), 0);
    sheet.bind('T', bound(1, 1, 0))?;
    assert_eq!(rt; sheet.entries().len(), 1);
    Ok(())
}

// A refused load leaves the stays that stood.
fn windows<T: Axis, P: Axis>(rt: &impl Abort, sheet: &mut Sheet<T, P>) -> Result<(), Fail> {
    let wide = Some(Window { from: 1, until: 3 });
    let narrow = Some(Window { from: 2, until: 3 });
    sheet.load(7, 100, &[short(wide)])?;
    assert_eq!(rt;
        sheet.load(8, 99, &[short(wide), short(narrow)]),
        Err(SheetFault::Window(2))
    );
    assert_eq!(rt; sheet.span(), 7);
    assert_eq!(rt; sheet.metres(), 100);
    assert_eq!(rt; sheet.stays().len(), 1);
    Ok(())
}

fn bad_loads<T: Axis, P: Axis>(rt: &impl Abort, sheet: &mut Sheet<T, P>) {
    let good = short(None);
    assert_eq!(rt; number(sheet.load(2881, 1000, &[])), Some(11));
    assert_eq!(rt; number(sheet.load(2880, 1001, &[])), Some(11));
    assert_eq!(rt; number(sheet.load(7, 100, &[good; 13])), Some(12));
    assert_eq!(rt;
        sheet.load(7, 100, &[good, Stay { circuit: 0, ..good }]),
        Err(SheetFault::Circuit(2))
    );
    assert_eq!(rt;
        sheet.load(7, 100, &[Stay { lead: 31, ..good }, good]),
        Err(SheetFault::Doors(1))
    );
    assert_eq!(rt;
        sheet.load(
            7,
            100,
            &[
                good,
                good,
                Stay {
                    metres: 101,
                    ..good
                },
            ],
        ),
        Err(SheetFault::Length(3))
    );
}

// The letters are capitals.
fn bad_entries<T: Axis, P: Axis>(rt: &impl Abort, sheet: &mut Sheet<T, P>) -> Result<(), Fail> {
    load_three(sheet)?;
    assert_eq!(rt; number(sheet.withdraw()), Some(21));
    assert_eq!(rt; sheet.ask('t', 1, 0), Err(SheetFault::Letter));
    assert_eq!(rt; number(sheet.bind('p', bound(1, 2, 0))), Some(17));
    assert_eq!(rt; number(sheet.rule(1, 2, 'b')), Some(19));
    assert_eq!(rt; number(sheet.rule(1, 1, 'B')), Some(20));
    assert_eq!(rt; number(sheet.rule(0, 1, 'B')), Some(20));
    assert_eq!(rt; number(sheet.rule(1, 4, 'B')), Some(20));
    assert_eq!(rt;
        number(sheet.settle(&mut [place(0, 0); 2], &mut [BLANK; 3])),
        Some(23)
    );
    assert_eq!(rt;
        number(sheet.settle(&mut [place(0, 0); 3], &mut [BLANK; 2])),
        Some(24)
    );
    Ok(())
}

// The other axis has its own twenty-four.
fn full<T: Axis, P: Axis>(rt: &impl Abort, sheet: &mut Sheet<T, P>) -> Result<(), Fail> {
    load_three(sheet)?;
    for _ in 0..24 {
        sheet.bind('T', bound(1, 2, 0))?;
    }
    assert_eq!(rt; number(sheet.bind('T', bound(1, 2, 0))), Some(18));
    sheet.bind('P', bound(1, 2, 0))?;
    assert_eq!(rt; sheet.entries().len(), 25);
    Ok(())
}

fn answers<T: Axis, P: Axis>(rt: &impl Abort, sheet: &mut Sheet<T, P>) -> Result<(), Fail> {
    rules(rt, sheet)?;
    plan(rt, sheet)?;
    no_plan(rt, sheet)?;
    no_stays(rt, sheet)?;
    itself(rt, sheet)?;
    windows(rt, sheet)?;
    bad_loads(rt, sheet);
    bad_entries(rt, sheet)?;
    full(rt, sheet)
}

#[test]
fn time_on_a_matrix(rt: HostRuntime) -> Result<(), Fail> {
    let heap = rt.alloc();
    let mut sheet = Sheet::new(heap, MatrixAxis::new(heap)?, ListAxis::new(heap)?)?;
    answers(&rt, &mut sheet)
}

#[test]
fn time_on_a_list(rt: HostRuntime) -> Result<(), Fail> {
    let heap = rt.alloc();
    let mut sheet = Sheet::new(heap, ListAxis::new(heap)?, MatrixAxis::new(heap)?)?;
    answers(&rt, &mut sheet)
}

// The answers stand in the order of the calls.
#[test]
fn a_list_of_calls(rt: HostRuntime) -> Result<(), Fail> {
    let heap = rt.alloc();
    let mut sheet = Sheet::new(heap, MatrixAxis::new(heap)?, ListAxis::new(heap)?)?;
    let mut given = Vec::new(heap);
    let settle = Call::Settle {
        places: 0,
        trials: 0,
    };
    run(heap, &mut sheet, &[Call::Withdraw, settle], &mut given)?;
    assert_eq!(rt; given.len(), 2);
    assert!(rt; matches!(given.get(0), Some(Err(SheetFault::NoEntry))));
    assert!(rt; matches!(given.get(1), Some(Ok(Told::Plan { .. }))));
    Ok(())
}
