//! The hats of knots and links, as the literature has them.
//!
//! No line of this file is written by hand: examples/knots/rows.py makes it of the documents there and of knots.tsv.

/// Grids of less than nine columns.
pub(crate) const KNOTS: &str = "
# 3_1, the trefoil
$ run
< grid 5
< O 0 1 2 3 4
< X 3 4 0 1 2
< hat
< end
> hat exponent 4 rows 3
> rank 2 1 1
> rank 1 0 1
> rank 0 -1 1

# 4_1, the figure eight knot
$ run
< grid 6
< O 0 2 1 4 3 5
< X 4 5 3 2 0 1
< hat
< end
> hat exponent 5 rows 3
> rank 1 1 1
> rank 0 0 3
> rank -1 -1 1

# 5_1
$ run
< grid 7
< O 0 1 2 3 4 5 6
< X 5 6 0 1 2 3 4
< hat
< end
> hat exponent 6 rows 5
> rank 4 2 1
> rank 3 1 1
> rank 2 0 1
> rank 1 -1 1
> rank 0 -2 1

# 5_2
$ run
< grid 7
< O 0 1 4 2 3 5 6
< X 3 5 0 6 1 2 4
< hat
< end
> hat exponent 6 rows 3
> rank 2 1 2
> rank 1 0 3
> rank 0 -1 2

# 6_1
$ run
< grid 8
< O 7 1 5 2 6 4 0 3
< X 4 6 0 7 3 1 2 5
< hat
< end
> hat exponent 7 rows 3
> rank 1 1 2
> rank 0 0 5
> rank -1 -1 2

# 6_2
$ run
< grid 8
< O 6 1 2 5 3 4 7 0
< X 4 7 0 1 6 2 3 5
< hat
< end
> hat exponent 7 rows 5
> rank 3 2 1
> rank 2 1 3
> rank 1 0 3
> rank 0 -1 3
> rank -1 -2 1

# 6_3
$ run
< grid 8
< O 7 1 2 6 5 3 0 4
< X 3 4 0 1 7 6 5 2
< hat
< end
> hat exponent 7 rows 5
> rank 2 2 1
> rank 1 1 3
> rank 0 0 5
> rank -1 -1 3
> rank -2 -2 1

# the Hopf link
$ run
< grid 4
< O 0 1 2 3
< X 2 3 0 1
< hat
< end
> hat exponent 2 rows 3
> rank 1 1 1
> rank 0 0 2
> rank -1 -1 1

# T(2,4), two parallel strands
$ run
< grid 6
< O 0 1 2 3 4 5
< X 4 5 0 1 2 3
< hat
< end
> hat exponent 4 rows 5
> rank 3 2 1
> rank 2 1 2
> rank 1 0 2
> rank 0 -1 2
> rank -1 -2 1

# the Whitehead link
$ run
< grid 7
< O 0 1 4 3 2 6 5
< X 2 6 0 5 4 3 1
< hat
< end
> hat exponent 5 rows 5
> rank 1 2 1
> rank 0 1 4
> rank -1 0 6
> rank -2 -1 4
> rank -3 -2 1

# the Borromean rings
$ run
< grid 8
< O 0 4 1 3 2 6 5 7
< X 6 7 5 0 4 3 1 2
< hat
< end
> hat exponent 5 rows 7
> rank 2 3 1
> rank 1 2 6
> rank 0 1 15
> rank -1 0 20
> rank -2 -1 15
> rank -3 -2 6
> rank -4 -3 1

# 8_19, the torus knot T(3,4)
$ run
< grid 7
< O 1 2 3 4 5 6 0
< X 5 6 0 1 2 3 4
< hat
< end
> hat exponent 6 rows 5
> rank 6 3 1
> rank 5 2 1
> rank 2 0 1
> rank 1 -2 1
> rank 0 -3 1

# 10_124, the torus knot T(3,5)
$ run
< grid 8
< O 0 1 2 3 4 5 6 7
< X 5 6 7 0 1 2 3 4
< hat
< end
> hat exponent 7 rows 7
> rank 8 4 1
> rank 7 3 1
> rank 4 1 1
> rank 3 0 1
> rank 2 -1 1
> rank 1 -3 1
> rank 0 -4 1

# 9_42
$ run
< grid 8
< O 6 2 3 1 4 5 7 0
< X 1 7 0 5 6 2 3 4
< hat
< end
> hat exponent 7 rows 6
> rank 3 2 1
> rank 2 1 2
> rank 1 0 2
> rank 0 0 1
> rank 0 -1 2
> rank -1 -2 1
";

/// Grids of nine columns.
pub(crate) const KNOTS_OF_NINE_1: &str = "
# 7_1
$ run
< grid 9
< O 0 1 2 3 4 5 6 7 8
< X 7 8 0 1 2 3 4 5 6
< hat
< end
> hat exponent 8 rows 7
> rank 6 3 1
> rank 5 2 1
> rank 4 1 1
> rank 3 0 1
> rank 2 -1 1
> rank 1 -2 1
> rank 0 -3 1

# 7_2
$ run
< grid 9
< O 7 8 1 4 3 6 5 0 2
< X 3 6 7 8 0 2 1 4 5
< hat
< end
> hat exponent 8 rows 3
> rank 2 1 3
> rank 1 0 5
> rank 0 -1 3
";

/// Grids of nine columns.
pub(crate) const KNOTS_OF_NINE_2: &str = "
# 7_3
$ run
< grid 9
< O 0 2 1 3 5 4 6 7 8
< X 7 8 5 0 2 1 3 4 6
< hat
< end
> hat exponent 8 rows 5
> rank 4 2 2
> rank 3 1 3
> rank 2 0 3
> rank 1 -1 3
> rank 0 -2 2

# 7_4
$ run
< grid 9
< O 0 2 6 3 4 5 1 7 8
< X 5 7 0 1 8 2 4 3 6
< hat
< end
> hat exponent 8 rows 3
> rank 2 1 4
> rank 1 0 7
> rank 0 -1 4
";

/// Grids of nine columns.
pub(crate) const KNOTS_OF_NINE_3: &str = "
# 7_5
$ run
< grid 9
< O 2 0 1 3 7 4 5 6 8
< X 7 6 8 0 1 2 3 4 5
< hat
< end
> hat exponent 8 rows 5
> rank 4 2 2
> rank 3 1 4
> rank 2 0 5
> rank 1 -1 4
> rank 0 -2 2

# 7_6
$ run
< grid 9
< O 0 1 3 2 4 5 7 6 8
< X 7 8 0 5 6 3 4 1 2
< hat
< end
> hat exponent 8 rows 5
> rank 3 2 1
> rank 2 1 5
> rank 1 0 7
> rank 0 -1 5
> rank -1 -2 1
";

/// Grids of nine columns.
pub(crate) const KNOTS_OF_NINE_4: &str = "
# 7_7
$ run
< grid 9
< O 1 3 2 0 4 5 7 6 8
< X 7 8 5 3 6 1 4 0 2
< hat
< end
> hat exponent 8 rows 5
> rank 2 2 1
> rank 1 1 5
> rank 0 0 9
> rank -1 -1 5
> rank -2 -2 1

# 10_132
$ run
< grid 9
< O 8 5 1 4 3 2 0 7 6
< X 3 0 6 7 5 8 4 1 2
< hat
< end
> hat exponent 8 rows 8
> rank 2 2 1
> rank 1 1 2
> rank 0 1 1
> rank 0 0 2
> rank -1 0 1
> rank -1 -1 2
> rank -2 -1 1
> rank -2 -2 1
";
