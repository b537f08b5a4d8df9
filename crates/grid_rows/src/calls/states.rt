//! The ranks of states.
use state_rank::State;
use std::test::Fail;

#[test]
fn ranks(rt: HostRuntime) -> Result<(), Fail> {
    // the rows of a state, and how many permutations of its size come before it
    let cases: [(&[u8], u32); 6] = [
        (&[0, 1], 0),
        (&[1, 0], 1),
        (&[1, 2, 0], 3),
        (&[1, 2, 0, 3], 8),
        (&[2, 3, 4, 0, 1], 64),
        (&[9, 8, 7, 6, 5, 4, 3, 2, 1, 0], 3_628_799),
    ];
    for (rows, rank) in cases {
        let state = State::of(rows).ok_or("state")?;
        assert_eq!(rt; state.rows(), rows);
        assert_eq!(rt; state.rank(), rank, "at {rows:?}");
        assert_eq!(rt;
            State::unrank(state.size(), state.rank()),
            state,
            "at {rank}"
        );
    }
    Ok(())
}
