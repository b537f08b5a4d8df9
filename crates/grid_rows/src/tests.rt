//! One test for each table.
use crate::certificates::{CERTIFIED, CHECKED};
use crate::comparisons::{COMPARISONS, EULER_NUMBERS};
use crate::components::COMPONENTS;
use crate::failing::FAILING;
use crate::knots::{KNOTS, KNOTS_OF_NINE_1, KNOTS_OF_NINE_2, KNOTS_OF_NINE_3, KNOTS_OF_NINE_4};
use crate::large::{
    CLASS_OF_NINE, CLASS_OF_TEN, HAT_OF_NINE, MADE_OF_NINE, SEVEN_AND_EIGHT, TABLE_OF_NINE,
};
use crate::limits::LIMITS;
use crate::moves::{MOVES, MOVES_OF_NINE};
use crate::refusals::REFUSALS;
use crate::reports::REPORTS;
use crate::rows::try_rows;
use crate::stabilisations::STABILISATIONS;
use crate::verdicts::VERDICTS;
use crate::words::WORDS;
use std::test::Fail;

#[test]
fn reports(rt: HostRuntime) -> Result<(), Fail> {
    try_rows(&rt, REPORTS)
}

#[test]
fn components(rt: HostRuntime) -> Result<(), Fail> {
    try_rows(&rt, COMPONENTS)
}

#[test]
fn euler_numbers(rt: HostRuntime) -> Result<(), Fail> {
    try_rows(&rt, EULER_NUMBERS)
}

#[test]
fn comparisons(rt: HostRuntime) -> Result<(), Fail> {
    try_rows(&rt, COMPARISONS)
}

#[test]
fn moves(rt: HostRuntime) -> Result<(), Fail> {
    try_rows(&rt, MOVES)
}

#[test]
fn moves_of_nine(rt: HostRuntime) -> Result<(), Fail> {
    try_rows(&rt, MOVES_OF_NINE)
}

#[test]
fn stabilisations(rt: HostRuntime) -> Result<(), Fail> {
    try_rows(&rt, STABILISATIONS)
}

#[test]
fn refusals(rt: HostRuntime) -> Result<(), Fail> {
    try_rows(&rt, REFUSALS)
}

#[test]
fn certificates_checked(rt: HostRuntime) -> Result<(), Fail> {
    try_rows(&rt, CHECKED)
}

#[test]
fn grids_certified(rt: HostRuntime) -> Result<(), Fail> {
    try_rows(&rt, CERTIFIED)
}

#[test]
fn words(rt: HostRuntime) -> Result<(), Fail> {
    try_rows(&rt, WORDS)
}

#[test]
fn failing_sources_and_sinks(rt: HostRuntime) -> Result<(), Fail> {
    try_rows(&rt, FAILING)
}

#[test]
fn limits(rt: HostRuntime) -> Result<(), Fail> {
    try_rows(&rt, LIMITS)
}

#[test]
fn sizes_seven_and_eight(rt: HostRuntime) -> Result<(), Fail> {
    try_rows(&rt, SEVEN_AND_EIGHT)
}

#[test]
fn a_table_of_nine(rt: HostRuntime) -> Result<(), Fail> {
    try_rows(&rt, TABLE_OF_NINE)
}

#[test]
fn a_hat_of_nine(rt: HostRuntime) -> Result<(), Fail> {
    try_rows(&rt, HAT_OF_NINE)
}

#[test]
fn a_class_of_nine(rt: HostRuntime) -> Result<(), Fail> {
    try_rows(&rt, CLASS_OF_NINE)
}

#[test]
fn a_class_of_ten(rt: HostRuntime) -> Result<(), Fail> {
    try_rows(&rt, CLASS_OF_TEN)
}

#[test]
fn a_drawn_grid_of_nine(rt: HostRuntime) -> Result<(), Fail> {
    try_rows(&rt, MADE_OF_NINE)
}

#[test]
fn verdicts(rt: HostRuntime) -> Result<(), Fail> {
    try_rows(&rt, VERDICTS)
}

#[test]
fn knots(rt: HostRuntime) -> Result<(), Fail> {
    try_rows(&rt, KNOTS)
}

#[test]
fn knots_of_nine_first_part(rt: HostRuntime) -> Result<(), Fail> {
    try_rows(&rt, KNOTS_OF_NINE_1)
}

#[test]
fn knots_of_nine_second_part(rt: HostRuntime) -> Result<(), Fail> {
    try_rows(&rt, KNOTS_OF_NINE_2)
}

#[test]
fn knots_of_nine_third_part(rt: HostRuntime) -> Result<(), Fail> {
    try_rows(&rt, KNOTS_OF_NINE_3)
}

#[test]
fn knots_of_nine_fourth_part(rt: HostRuntime) -> Result<(), Fail> {
    try_rows(&rt, KNOTS_OF_NINE_4)
}
