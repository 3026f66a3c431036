// Examples of what layers mean, over a table that asks for one of the atoms 0 and 1.
use crate::{AlreadyObserved, Capped, Observation, Observed};
use atoms::{Atom, AtomSet};
use clauses::{Clause, Kind, Origin, Source, Table};
use std::test::Fail;

// Written here too: what stands in a crate's tests serves no other crate.
fn origin(kind: Kind, number: u64) -> Origin {
    Origin { kind, number }
}

fn either() -> Clause {
    Clause {
        body: AtomSet::empty(),
        head: AtomSet::from_word(0b11),
        origin: origin(Kind::Table, 0),
    }
}

#[test]
fn observations_come_first(rt: HostRuntime) -> Result<(), Fail> {
    let zero = Atom::new(0).ok_or(0)?;
    let one = Atom::new(1).ok_or(1)?;
    let records = [either()];
    let mut layer = Observed::new(Table::new(&records));
    assert_eq!(rt; layer.first_broken(AtomSet::empty()), Some(either()));
    layer.observe(Observation {
        atom: zero,
        present: false,
    })?;
    layer.observe(Observation {
        atom: one,
        present: true,
    })?;
    assert_eq!(rt;
        layer.first_broken(AtomSet::from_word(0b01)),
        Some(Clause::denial(zero, origin(Kind::Observation, 0)))
    );
    assert_eq!(rt;
        layer.first_broken(AtomSet::empty()),
        Some(Clause::fact(one, origin(Kind::Observation, 1)))
    );
    assert_eq!(rt; layer.first_broken(AtomSet::from_word(0b10)), None);
    Ok(())
}

#[test]
fn one_observation_of_an_atom(rt: HostRuntime) -> Result<(), Fail> {
    let atom = Atom::new(63).ok_or(63)?;
    let absent = Observation {
        atom,
        present: false,
    };
    let mut layer = Observed::new(Table::new(&[]));
    assert_eq!(rt; layer.withdraw(), None);
    layer.observe(absent)?;
    assert_eq!(rt; layer.observe(absent), Err(AlreadyObserved));
    assert!(rt; layer.is_observed(atom));
    assert_eq!(rt; layer.standing().len(), 1);
    assert_eq!(rt; layer.withdraw(), Some(absent));
    assert!(rt; !layer.is_observed(atom));
    Ok(())
}

#[test]
fn a_cap_over_a_lent_layer(rt: HostRuntime) -> Result<(), Fail> {
    let zero = Atom::new(0).ok_or(0)?;
    let records = [either()];
    let layer = Observed::new(Table::new(&records));
    let mut capped = Capped::new(&layer);
    assert_eq!(rt; capped.first_broken(AtomSet::from_word(0b01)), None);
    let one = AtomSet::from_word(0b10);
    capped.set_cap(one);
    assert_eq!(rt;
        capped.first_broken(AtomSet::from_word(0b01)),
        Some(Clause::denial(zero, origin(Kind::Cap, 0)))
    );
    let whole = Clause {
        body: one,
        head: AtomSet::empty(),
        origin: origin(Kind::Cap, 64),
    };
    assert_eq!(rt; capped.first_broken(one), Some(whole));
    assert_eq!(rt; capped.first_broken(AtomSet::empty()), Some(either()));
    assert_eq!(rt; layer.first_broken(one), None);
    Ok(())
}
