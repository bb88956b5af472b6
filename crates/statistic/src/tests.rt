// The edges of what is taken, and each kind on a few items.
use crate::Statistic;
use crate::energy::Energy;
use crate::hit::Hit;
use crate::notes::Notes;
use crate::peak::Peak;

// What the kind tells of the items, from the state for none.
fn told<S: Statistic>(items: &[S::Item]) -> u64 {
    let mut state = S::empty();
    for item in items {
        S::add(&mut state, *item);
    }
    S::value(&state)
}

#[test]
fn samples_have_sixteen_bits(rt: HostRuntime) {
    assert!(rt; Energy::admits(-32768) && Peak::admits(32767));
    assert!(rt; !Energy::admits(-32769) && !Peak::admits(32768));
    assert_eq!(rt; told::<Peak>(&[-32769, 32768]), 0);
}

#[test]
fn notes_and_velocities_end_at_127(rt: HostRuntime) {
    assert!(rt;
        Notes::admits(Hit {
            note: 127,
            velocity: 127,
        })
    );
    assert!(rt;
        !Notes::admits(Hit {
            note: 128,
            velocity: 127,
        })
    );
    assert!(rt;
        !Notes::admits(Hit {
            note: 127,
            velocity: 128,
        })
    );
}

#[test]
fn energy_sums_squares_up_to_its_cap(rt: HostRuntime) {
    assert_eq!(rt; told::<Energy>(&[-32768, 3, -4]), (1 << 30) + 25);
    let mut state = u64::MAX;
    Energy::add(&mut state, 1);
    assert_eq!(rt; state, 1 << 50);
}

#[test]
fn peak_is_a_magnitude(rt: HostRuntime) {
    assert_eq!(rt; told::<Peak>(&[]), 0);
    assert_eq!(rt; told::<Peak>(&[5, -8, 7]), 8);
    assert_eq!(rt; told::<Peak>(&[32767, -32768]), 32768);
}

#[test]
fn a_repeated_note_counts_once(rt: HostRuntime) {
    let low = Hit {
        note: 0,
        velocity: 1,
    };
    let high = Hit {
        note: 127,
        velocity: 0,
    };
    let again = Hit {
        note: 0,
        velocity: 9,
    };
    assert_eq!(rt; told::<Notes>(&[low, high, again, low]), 2);
}
