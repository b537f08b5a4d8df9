//! Ranges, rectangles, moves and symmetries of small grids, and the states that bound x+ and x-, by hand.
use grid_moves::{Axis, Side, commutes, swap, turn};
use grid_symmetry::{Symmetry, apply, apply_state};
use stabilise::{minus_bound, plus_bound};
use state_rank::State;
use std::test::Fail;
use torus_geom::{Grid, Rect, in_range, is_empty, is_unmarked};

#[test]
fn ranges(rt: HostRuntime) {
    // from, up to, and those of five circles that are met
    let cases: [(u8, u8, &[u8]); 4] = [
        (0, 4, &[0, 1, 2, 3]),
        (2, 3, &[2]),
        (3, 1, &[0, 3, 4]),
        (4, 0, &[4]),
    ];
    for (a, b, met) in cases {
        for i in 0..5u8 {
            assert!(rt; a < 5 && b < 5 && a != b);
            assert_eq!(rt;
                in_range(5, a, b, i),
                met.contains(&i),
                "{i} from {a} to {b}"
            );
        }
    }
}

// The two rectangles that leave the state 201 at the circles 0 and 2, of which one is empty.
#[test]
fn rectangles_of_a_state(rt: HostRuntime) -> Result<(), Fail> {
    let x = State::of(&[2, 0, 1]).ok_or("state")?;
    assert_eq!(rt; x.size(), 3);
    let plain = Rect::leaving(&x, 0, 2);
    let across = Rect::leaving(&x, 2, 0);
    assert_eq!(rt;
        plain,
        Rect {
            left: 0,
            right: 2,
            low: 2,
            high: 1
        }
    );
    assert!(rt; !is_empty(&x, &plain));
    assert!(rt; is_empty(&x, &across));
    Ok(())
}

// A square with no mark, one with an X and one with an O.
#[test]
fn marks_in_a_rectangle(rt: HostRuntime) -> Result<(), Fail> {
    let g = Grid::of(&[2, 1, 0], &[1, 0, 2]).ok().ok_or("grid")?;
    assert_eq!(rt; g.size(), 3);
    let blank = Rect {
        left: 0,
        right: 1,
        low: 0,
        high: 1,
    };
    let with_x = Rect {
        left: 1,
        right: 2,
        low: 0,
        high: 1,
    };
    let with_o = Rect {
        left: 1,
        right: 2,
        low: 1,
        high: 2,
    };
    assert!(rt; is_unmarked(&g, &blank));
    assert!(rt; !is_unmarked(&g, &with_x));
    assert!(rt; !is_unmarked(&g, &with_o));
    Ok(())
}

#[test]
fn moves_of_a_small_grid(rt: HostRuntime) -> Result<(), Fail> {
    let g = Grid::of(&[0, 2, 1, 3], &[1, 3, 2, 0]).ok().ok_or("grid")?;
    let left = Grid::of(&[2, 1, 3, 0], &[3, 2, 0, 1]).ok().ok_or("left")?;
    let up = Grid::of(&[1, 3, 2, 0], &[2, 0, 3, 1]).ok().ok_or("up")?;
    assert_eq!(rt; turn(&g, Side::Left), left);
    assert_eq!(rt; turn(&left, Side::Right), g);
    assert_eq!(rt; turn(&g, Side::Up), up);
    assert_eq!(rt; turn(&up, Side::Down), g);
    assert!(rt; !commutes(&g, Axis::Cols, 2));
    let exchanged = Grid::of(&[2, 0, 1, 3], &[3, 1, 2, 0])
        .ok()
        .ok_or("exchanged")?;
    assert_eq!(rt; g.transpose().transpose(), g);
    assert!(rt; commutes(&g, Axis::Cols, 1));
    assert_eq!(rt; swap(&g, Axis::Cols, 1), exchanged);
    Ok(())
}

#[test]
fn symmetries_of_a_small_grid(rt: HostRuntime) -> Result<(), Fail> {
    let g = Grid::of(&[0, 2, 1, 3], &[1, 3, 2, 0]).ok().ok_or("grid")?;
    let flipped = Grid::of(&[0, 2, 1, 3], &[3, 0, 2, 1]).ok().ok_or("flip")?;
    let turned = Grid::of(&[0, 2, 1, 3], &[3, 1, 0, 2]).ok().ok_or("half")?;
    let mirror = Grid::of(&[3, 1, 2, 0], &[0, 2, 3, 1]).ok().ok_or("mirror")?;
    let exchanged = Grid::of(&[1, 3, 2, 0], &[0, 2, 1, 3]).ok().ok_or("marks")?;
    assert_eq!(rt; apply(&g, Symmetry::Flip), flipped);
    assert_eq!(rt; apply(&g, Symmetry::Half), turned);
    assert_eq!(rt; apply(&g, Symmetry::Mirror), mirror);
    assert_eq!(rt; apply(&g, Symmetry::Marks), exchanged);
    Ok(())
}

#[test]
fn symmetries_of_a_state(rt: HostRuntime) -> Result<(), Fail> {
    let x = State::of(&[1, 3, 0, 2]).ok_or("state")?;
    let flipped = State::of(&[2, 0, 3, 1]).ok_or("flip")?;
    let turned = State::of(&[3, 2, 0, 1]).ok_or("half")?;
    let mirror = State::of(&[1, 2, 0, 3]).ok_or("mirror")?;
    assert_eq!(rt; apply_state(&x, Symmetry::Flip), flipped);
    assert_eq!(rt; apply_state(&x, Symmetry::Half), turned);
    assert_eq!(rt; apply_state(&x, Symmetry::Mirror), mirror);
    assert_eq!(rt; apply_state(&x, Symmetry::Marks), x);
    Ok(())
}

// The state that bounds x+ of the trefoil after a stabilisation, across the seam.
#[test]
fn plus_bound_of_the_trefoil(rt: HostRuntime) -> Result<(), Fail> {
    let trefoil = Grid::of(&[0, 1, 2, 3, 4], &[2, 3, 4, 0, 1])
        .ok()
        .ok_or("trefoil")?;
    assert_eq!(rt;
        plus_bound(&trefoil, 4).rows(),
        [3, 4, 5, 0, 1, 2].as_slice()
    );
    Ok(())
}

// The state that bounds x- of the trefoil after a stabilisation.
#[test]
fn minus_bound_of_the_trefoil(rt: HostRuntime) -> Result<(), Fail> {
    let trefoil = Grid::of(&[0, 1, 2, 3, 4], &[2, 3, 4, 0, 1])
        .ok()
        .ok_or("trefoil")?;
    assert_eq!(rt;
        minus_bound(&trefoil, 2).rows(),
        [2, 3, 4, 5, 0, 1].as_slice()
    );
    Ok(())
}
