//! Sets of codes that are toggled, and the targets of small states.
use f2_chain::{Builder, CodeSet};
use grid_ports::NoMemory;
use rectangles::targets;
use state_rank::State;
use std::test::Fail;
use torus_geom::Grid;

#[test]
fn codes_toggled_in_any_order(rt: HostRuntime) -> Result<(), NoMemory> {
    let alloc = rt.alloc();
    let mut builder = Builder::new(alloc);
    for code in [7, 3, 9, 3, 362_879, 0, 7, 7] {
        builder.toggle(code)?;
    }
    let z = builder.finish()?;
    assert_eq!(rt; z.codes(), [0, 7, 9, 362_879].as_slice());
    let w = z.add(&CodeSet::single(alloc, 9)?)?;
    assert_eq!(rt; w.codes(), [0, 7, 362_879].as_slice());
    assert!(rt; w.holds(362_879) && !w.holds(9) && !CodeSet::empty(alloc).holds(0));
    assert!(rt; w.pair(&z) && !z.pair(&z));
    Ok(())
}

// All states of a border, in order, which `border` prints from their indices.
#[test]
fn targets_of_small_states(rt: HostRuntime) -> Result<(), Fail> {
    let small = Grid::of(&[2, 1, 0], &[1, 0, 2]).ok().ok_or("small")?;
    let trefoil = Grid::of(&[0, 1, 2, 3, 4], &[2, 3, 4, 0, 1])
        .ok()
        .ok_or("trefoil")?;
    // a grid, a state, and the words of the states of its border
    let cases: [(&Grid, &[u8], &[&str]); 3] = [
        (&small, &[0, 1, 2], &["102"]),
        (&trefoil, &[2, 3, 4, 0, 1], &[]),
        (
            &trefoil,
            &[3, 4, 0, 1, 2],
            &["24013", "30412", "34021", "34102", "43012"],
        ),
    ];
    for (g, rows, words) in cases {
        let x = State::of(rows).ok_or("state")?;
        assert_eq!(rt; x.size(), g.size());
        let found = targets(rt.alloc(), g, &x);
        assert_eq!(rt; found.len(), words.len(), "at {rows:?}");
        for (y, word) in found.iter().zip(words) {
            assert_eq!(rt; Some(*y), State::of_word(word.as_bytes()));
        }
    }
    Ok(())
}
