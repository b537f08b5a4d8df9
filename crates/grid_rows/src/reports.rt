//! Reports of small grids: `front`, `border`, `ranks`, `hat` and `coranks`.

/// Documents and their reports.
pub(crate) const REPORTS: &str = "
$ run
< grid 5
< O 0 1 2 3 4
< X 2 3 4 0 1
< mirror
< ranks
< hat
< end
> ranks 7
> rank 0 1 1
> rank -1 0 5
> rank -2 -1 11
> rank -3 -2 14
> rank -4 -3 11
> rank -5 -4 5
> rank -6 -5 1
> hat exponent 4 rows 3
> rank 0 1 1
> rank -1 0 1
> rank -2 -1 1

$ run
< grid 3
< O 2 1 0
< X 1 0 2
< marks
< front
< coranks
< end
> front tb -2 rot 1 components 1
> coranks 3
> rank 0 0 1
> rank -1 -1 2
> rank -2 -2 1

$ run
< grid 2
< O 1 0
< X 0 1
< front
< end
> front tb -1 rot 0 components 1

$ run
< grid 3
< O 2 1 0
< X 1 0 2
< front
< end
> front tb -2 rot -1 components 1

$ run
< grid 4
< O 0 1 2 3
< X 2 3 0 1
< front
< front
< end
> front tb 0 rot 0 components 2
> front tb 0 rot 0 components 2

$ run
< grid 9
< O 0 1 2 3 4 5 6 7 8
< X 4 5 6 7 8 0 1 2 3
< front
< end
> front tb 11 rot 0 components 1

$ run
< grid 2
< O 1 0
< X 0 1
< end

$ run
< # unknot\r
< \r
< picture 2\r
< OX\r
< X O\r
< front\r
< end\r
> front tb -1 rot 0 components 1

$ run
< grid 2
< # note
< O 1 0
< X 0 1
< ranks
< hat
< end
<
> ranks 2
> rank 0 0 1
> rank -1 -1 1
> hat exponent 1 rows 1
> rank 0 0 1

$ run
< grid 3
< O 2 1 0
< X 1 0 2
< border 012
< border 021
< end
> border 102
> border

$ run
< grid 5
< O 0 1 2 3 4
< X 2 3 4 0 1
< border 23401
< end
> border

$ run
< grid 5
< O 0 1 2 3 4
< X 2 3 4 0 1
< ranks
< end
> ranks 7
> rank 2 1 1
> rank 1 0 5
> rank 0 -1 11
> rank -1 -2 14
> rank -2 -3 11
> rank -3 -4 5
> rank -4 -5 1

$ run
< grid 3
< O 2 1 0
< X 1 0 2
< ranks
< end
> ranks 3
> rank 0 0 1
> rank -1 -1 2
> rank -2 -2 1

$ run
< grid 5
< O 0 1 2 3 4
< X 2 3 4 0 1
< ranks
< hat
< end
> ranks 7
> rank 2 1 1
> rank 1 0 5
> rank 0 -1 11
> rank -1 -2 14
> rank -2 -3 11
> rank -3 -4 5
> rank -4 -5 1
> hat exponent 4 rows 3
> rank 2 1 1
> rank 1 0 1
> rank 0 -1 1

$ run
< grid 4
< O 0 1 2 3
< X 2 3 0 1
< hat
< front
< end
> hat exponent 2 rows 3
> rank 1 1 1
> rank 0 0 2
> rank -1 -1 1
> front tb 0 rot 0 components 2

$ run
< grid 6
< O 1 0 3 2 5 4
< X 0 1 2 3 4 5
< front
< end
> front tb -3 rot 0 components 3
";
