//! The degrees of states, which a report gives only of homology.
use gradings::{Bidegree, DegreeTables, alexander, degree, maslov_o, maslov_x};
use multi_degree::{component_degrees, component_exponents};
use state_rank::State;
use std::test::Fail;
use torus_geom::Grid;

// All states of an unknot of size three, with their Maslov and Alexander degrees.
#[test]
fn degrees_of_size_three(rt: HostRuntime) -> Result<(), Fail> {
    let g = Grid::of(&[2, 1, 0], &[1, 0, 2]).ok().ok_or("grid")?;
    let table = [
        ([0, 1, 2], -1, -1),
        ([0, 2, 1], 0, 0),
        ([1, 0, 2], -2, -1),
        ([1, 2, 0], -1, -1),
        ([2, 0, 1], -1, -1),
        ([2, 1, 0], -2, -2),
    ];
    for (rows, m, a) in table {
        let x = State::of(&rows).ok_or("state")?;
        assert_eq!(rt; g.size(), x.size());
        assert_eq!(rt; degree(&g, &x), Bidegree { m, a }, "{x:?}");
        let tables = DegreeTables::of(&g);
        assert_eq!(rt; tables.degree(&x), Bidegree { m, a }, "by tables at {x:?}");
    }
    Ok(())
}

// x+ of the Hopf link, a link of two components.
#[test]
fn degrees_of_two_components(rt: HostRuntime) -> Result<(), Fail> {
    let g = Grid::of(&[0, 1, 2, 3], &[2, 3, 0, 1]).ok().ok_or("grid")?;
    let x = State::of(&[2, 3, 0, 1]).ok_or("state")?;
    assert_eq!(rt; g.size(), x.size());
    assert_eq!(rt; maslov_o(&g, &x), 1);
    assert_eq!(rt; maslov_x(&g, &x), -3);
    assert_eq!(rt; alexander(&g, &x), 1);
    assert_eq!(rt; DegreeTables::of(&g).alexander(&x), 1);
    Ok(())
}

// States of the Hopf link of size four, with their degrees at both components, found by another program; and a
// state of an unknot of size two.
#[test]
fn degrees_of_small_links(rt: HostRuntime) -> Result<(), Fail> {
    let hopf = Grid::of(&[0, 1, 2, 3], &[2, 3, 0, 1]).ok().ok_or("hopf")?;
    let table = [
        ([2, 3, 0, 1], [1, 1]),
        ([0, 3, 1, 2], [-1, -1]),
        ([3, 0, 1, 2], [-1, -1]),
        ([0, 2, 1, 3], [-3, -1]),
        ([2, 1, 3, 0], [-1, -1]),
    ];
    for (rows, degrees) in table {
        let x = State::of(&rows).ok_or("state")?;
        assert_eq!(rt; hopf.size(), x.size());
        assert_eq!(rt;
            component_degrees(&hopf, &x).degrees(),
            degrees.as_slice(),
            "{x:?}"
        );
    }
    let unknot = Grid::of(&[1, 0], &[0, 1]).ok().ok_or("unknot")?;
    let x = State::of(&[1, 0]).ok_or("state")?;
    assert_eq!(rt; unknot.size(), x.size());
    assert_eq!(rt; component_degrees(&unknot, &x).degrees(), [-2].as_slice());
    Ok(())
}

// The columns of the components, less one, of a link of two components.
#[test]
fn exponents_of_a_link(rt: HostRuntime) -> Result<(), Fail> {
    let g = Grid::of(&[0, 1, 2, 3, 4], &[2, 3, 0, 4, 1])
        .ok()
        .ok_or("grid")?;
    assert_eq!(rt; g.components(), 2);
    assert_eq!(rt; component_exponents(&g, 1), 1);
    assert_eq!(rt; component_exponents(&g, 2), 2);
    Ok(())
}
