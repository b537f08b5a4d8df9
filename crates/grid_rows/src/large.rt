//! Grids of seven to ten columns.
//!
//! Each text has a test of its own, of a few seconds. The tables, the hat of eleven rows and the verdicts of `make` are
//! those of a second program, whose Rust has nothing of this one's.

/// Tables and hats.
pub(crate) const SEVEN_AND_EIGHT: &str = "
$ run
< grid 7
< O 0 1 2 3 4 5 6
< X 3 4 5 6 0 1 2
< ranks
< end
> ranks 20
> rank 6 3 1
> rank 5 2 7
> rank 4 1 21
> rank 3 0 35
> rank 2 0 1
> rank 2 -1 35
> rank 1 -1 6
> rank 1 -2 22
> rank 0 -2 15
> rank 0 -3 14
> rank -1 -3 20
> rank -1 -4 22
> rank -2 -4 15
> rank -2 -5 35
> rank -3 -5 6
> rank -3 -6 35
> rank -4 -6 1
> rank -4 -7 21
> rank -5 -8 7
> rank -6 -9 1

$ run
< grid 8
< O 0 1 2 3 4 5 6 7
< X 3 4 5 6 7 0 1 2
< ranks
< end
> ranks 26
> rank 8 4 1
> rank 7 3 8
> rank 6 2 28
> rank 5 1 56
> rank 4 1 1
> rank 4 0 70
> rank 3 0 8
> rank 3 -1 56
> rank 2 -1 29
> rank 2 -2 28
> rank 1 -2 63
> rank 1 -3 9
> rank 0 -3 91
> rank 0 -4 9
> rank -1 -4 91
> rank -1 -5 28
> rank -2 -5 63
> rank -2 -6 56
> rank -3 -6 29
> rank -3 -7 70
> rank -4 -7 8
> rank -4 -8 56
> rank -5 -8 1
> rank -5 -9 28
> rank -6 -10 8
> rank -7 -11 1

$ run
< grid 7
< O 0 1 2 3 4 5 6
< X 3 4 5 6 0 1 2
< hat
< front
< end
> hat exponent 6 rows 5
> rank 6 3 1
> rank 5 2 1
> rank 2 0 1
> rank 1 -2 1
> rank 0 -3 1
> front tb 5 rot 0 components 1

$ run
< grid 8
< O 0 1 2 3 4 5 6 7
< X 3 4 5 6 7 0 1 2
< hat
< end
> hat exponent 7 rows 7
> rank 8 4 1
> rank 7 3 1
> rank 4 1 1
> rank 3 0 1
> rank 2 -1 1
> rank 1 -3 1
> rank 0 -4 1
";

/// A table.
pub(crate) const TABLE_OF_NINE: &str = "
$ run
< grid 9
< O 0 1 2 3 4 5 6 7 8
< X 4 5 6 7 8 0 1 2 3
< ranks
< end
> ranks 42
> rank 12 6 1
> rank 11 5 9
> rank 10 4 36
> rank 9 3 84
> rank 8 2 126
> rank 6 2 1
> rank 7 1 126
> rank 5 1 8
> rank 6 0 84
> rank 5 0 1
> rank 4 0 28
> rank 5 -1 36
> rank 4 -1 8
> rank 3 -1 56
> rank 4 -2 9
> rank 3 -2 28
> rank 2 -2 71
> rank 3 -3 1
> rank 2 -3 56
> rank 1 -3 64
> rank 1 -4 70
> rank 0 -4 56
> rank 1 -5 1
> rank 0 -5 56
> rank -1 -5 64
> rank 0 -6 9
> rank -1 -6 28
> rank -2 -6 71
> rank -1 -7 36
> rank -2 -7 8
> rank -3 -7 56
> rank -2 -8 84
> rank -3 -8 1
> rank -4 -8 28
> rank -3 -9 126
> rank -5 -9 8
> rank -4 -10 126
> rank -6 -10 1
> rank -5 -11 84
> rank -6 -12 36
> rank -7 -13 9
> rank -8 -14 1
";

/// A hat of more than eight rows.
pub(crate) const HAT_OF_NINE: &str = "
$ run
< grid 9
< O 0 1 2 3 4 5 6 8 7
< X 3 5 6 8 7 0 1 4 2
< hat
< end
> hat exponent 8 rows 11
> rank 8 4 1
> rank 7 3 1
> rank 6 3 1
> rank 5 2 2
> rank 4 1 2
> rank 3 0 1
> rank 2 -1 2
> rank 1 -2 2
> rank 1 -3 1
> rank 0 -3 1
> rank 0 -4 1
";

/// A class that is alive.
pub(crate) const CLASS_OF_NINE: &str = "
$ run
< grid 9
< O 0 1 2 3 4 5 6 7 8
< X 4 5 6 7 8 0 1 2 3
< class +
< end
> class + 456780123 at 12 6 alive
* cocycle 456780123
";

/// The greatest size: a front, a class that is alive, and a state that no rectangle leaves.
pub(crate) const CLASS_OF_TEN: &str = "
$ run
< grid 10
< O 0 1 2 3 4 5 6 7 8 9
< X 3 4 5 6 7 8 9 0 1 2
< front
< class +
< border 0123456789
< end
> front tb 11 rot 0 components 1
> class + 3456789012 at 12 6 alive
* cocycle 3456789012
> border
";

/// A drawn grid, with its summary.
pub(crate) const MADE_OF_NINE: &str = "
$ make --size 9 --seed 2
> grid 9
> O 6 0 5 2 7 8 4 1 3
> X 2 3 8 4 1 0 5 6 7
> front
> hat
> class +
> class -
> end
> # tb -2 rot 1 rank 256 plus null minus alive
";
