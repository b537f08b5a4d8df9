//! Products and quotients of tables, Euler numbers, and the line of a table that has no hat.
ghost use Rattle.std.specs.Prelude.{◌↔◌, IsTrue};
ghost use Rattle.std.specs.List.{All};
ghost use Rattle.hat_division.specs.Product.{IsSmall};

use grid_euler::{EulerRow, euler_of_states};
use grid_ports::NoMemory;
use hat_division::{Table, TableRow, divide, times_factor};
use report_text::hat_lines;
use std::process::Abort;
use std::test::Fail;
use torus_geom::Grid;

fn is_small(row: &TableRow) -> bool
    ensures { IsTrue result ↔ IsSmall row.now }
{
    -1000 <= row.m && row.m <= 1000 && -1000 <= row.a && row.a <= 1000 && row.rank <= 4_294_967_296
}

// The table of rows that are known to be one.
fn small_table(rt: &impl Abort, rows: Vec<TableRow>) -> Table
    ensures { All IsSmall result }
{
    let table = Table::of(rows).expect(rt, "the rows are those of a table");
    assert!(rt; table.rows().iter().all(|row| is_small(row)));
    table
}

/// A product by the second power, 1, 2 times 1, 2, 1, and its quotients by the second and by the fourth power.
#[test]
fn a_table_is_multiplied_and_divided(rt: HostRuntime) -> Result<(), NoMemory> {
    let row = |d: i32, rank: u64| -> TableRow { TableRow { m: d, a: d, rank } };
    let rows = vec![in rt.alloc(); row(1, 1), row(0, 2)]?;
    let product = times_factor(rt.alloc(), &small_table(&rt, rows), 2)?;
    assert_eq!(rt;
        product.rows(),
        [row(1, 1), row(0, 4), row(-1, 5), row(-2, 2)].as_slice()
    );
    assert!(rt; product.rows().iter().all(|row| is_small(row)));
    let quotient = divide(rt.alloc(), &product, 2)?.expect(&rt, "a quotient");
    assert_eq!(rt; quotient.rows(), [row(1, 1), row(0, 2)].as_slice());
    assert!(rt; divide(rt.alloc(), &product, 4)?.is_none());
    Ok(())
}

/// The Euler numbers of the trefoil from its states alone, where `euler` takes them from its table: the Alexander
/// polynomial times the fourth power of 1 - t^-1.
#[test]
fn euler_numbers_by_states(rt: HostRuntime) -> Result<(), Fail> {
    let g = Grid::of(&[0, 1, 2, 3, 4], &[2, 3, 4, 0, 1])
        .ok()
        .ok_or("grid")?;
    let expected = [
        (1, 1),
        (0, -5),
        (-1, 11),
        (-2, -14),
        (-3, 11),
        (-4, -5),
        (-5, 1),
    ];
    let found = euler_of_states(rt.alloc(), &g).ok().ok_or("memory")?;
    assert_eq!(rt; found.rows().len(), expected.len());
    for (row, (a, value)) in found.rows().iter().zip(expected) {
        assert_eq!(rt; *row, EulerRow { a, value });
    }
    Ok(())
}

/// The line of a table that has no hat.
#[test]
fn the_line_of_no_hat(rt: HostRuntime) -> Result<(), NoMemory> {
    let none = hat_lines(rt.alloc(), 1, None)?;
    assert_eq!(rt; none.as_slice(), b"hat none\n".as_slice());
    Ok(())
}
