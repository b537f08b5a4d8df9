//! The image and the homotopy of one state, which no command asks for.
use grid_moves::{Axis, commutes};
use hexagon_map::hexagon_targets;
use pentagon_map::{Corner, pentagon_targets};
use state_rank::State;
use std::test::Fail;
use torus_geom::Grid;

// A state, and its image across columns 1 and 2 of a grid.
#[test]
fn images_of_states(rt: HostRuntime) -> Result<(), Fail> {
    let g = Grid::of(&[0, 1, 2, 3], &[2, 0, 3, 1]).ok().ok_or("grid")?;
    let x = State::of(&[1, 2, 0, 3]).ok_or("state")?;
    assert_eq!(rt; g.size(), x.size());
    assert!(rt; commutes(&g, Axis::Cols, 2));
    let image = pentagon_targets(rt.alloc(), &g, Axis::Cols, 2, Corner::Over, &x);
    assert_eq!(rt; image.len(), 2);
    assert_eq!(rt; image[0].rows(), [1, 0, 2, 3].as_slice());
    assert_eq!(rt; image[1].rows(), [1, 2, 3, 0].as_slice());
    Ok(())
}

// A state, and its homotopy across columns 0 and 1 of a grid.
#[test]
fn homotopies_of_states(rt: HostRuntime) -> Result<(), Fail> {
    let g = Grid::of(&[0, 2, 1, 3], &[1, 3, 2, 0]).ok().ok_or("grid")?;
    let x = State::of(&[0, 3, 1, 2]).ok_or("state")?;
    assert_eq!(rt; g.size(), x.size());
    assert!(rt; commutes(&g, Axis::Cols, 1));
    let homotopy = hexagon_targets(rt.alloc(), &g, Axis::Cols, 1, Corner::Over, &x);
    assert_eq!(rt; homotopy.len(), 1);
    assert_eq!(rt; homotopy[0].rows(), [3, 0, 1, 2].as_slice());
    Ok(())
}
