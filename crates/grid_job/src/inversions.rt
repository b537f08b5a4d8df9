//! The lines of the way there and back across a commutation.
ghost use Rattle.std.specs.Prelude.{◌≡◌, ◌<◌, ◌++◌, IfOk, IsTrue, codes};
ghost use Rattle.torus_geom.specs.Codes.{HasIndices, states_of};
ghost use Rattle.torus_geom.specs.Marks.{size};
ghost use Rattle.grid_moves.specs.Moves.{are_commuting};
ghost use Rattle.text_lines.specs.Lines.{line as line_of, chain_line};
ghost use Rattle.hexagon_map.specs.Hexagon.{homotopy as homotopy_of, return_image};

use crate::classes::with_set;
use f2_chain::Chain;
use grid_moves::{Axis, swap};
use grid_ports::NoMemory;
use hexagon_map::homotopy;
use pentagon_map::{Corner, image};
use report_text::set_line;
use std::alloc::Global;
use torus_geom::Grid;

/// The lines of the image of `z` there and back across a commutation, and of its homotopy.
pub(crate) fn invert_lines(
    alloc: Global,
    g: &Grid,
    axis: Axis,
    c: u8,
    corner: Corner,
    z: &Chain,
) -> Result<Vec<u8>, NoMemory>
    requires below { c < size g.now }
    requires commutes { IsTrue (are_commuting axis g.now c) }
    requires indices { HasIndices (size g.now) z.now }
    ensures { IfOk result (λ text. text.items
        ≡ line_of (chain_line (codes "return") (size g.now)
        (return_image axis g.now c corner (states_of (size g.now) z.now)))
        ++ line_of (chain_line (codes "homotopy") (size g.now)
        (homotopy_of axis g.now c corner (states_of (size g.now) z.now)))) }
{
    let n = g.size();
    let returned = image_there_and_back(alloc, g, axis, c, corner, z)?;
    let text = set_line(alloc, "return", n, &returned)?;
    let hexagons = homotopy(alloc, g, axis, c, corner, z)?;
    with_set(alloc, text, "homotopy", n, &hexagons)
}

// The image of `z`, and the image of that in the exchanged grid.
fn image_there_and_back(
    alloc: Global,
    g: &Grid,
    axis: Axis,
    c: u8,
    corner: Corner,
    z: &Chain,
) -> Result<Chain, NoMemory>
    requires below { c < size g.now }
    requires commutes { IsTrue (are_commuting axis g.now c) }
    requires indices { HasIndices (size g.now) z.now }
    ensures image { IfOk result (λ y. states_of (size g.now) y
        ≡ return_image axis g.now c corner (states_of (size g.now) z.now)) }
    ensures indices_again { IfOk result (HasIndices (size g.now)) }
{
    let there = image(alloc, g, axis, c, corner, z)?;
    image(alloc, &swap(g, axis, c), axis, c, corner, &there)
}
