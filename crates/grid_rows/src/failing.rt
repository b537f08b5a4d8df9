//! Sources and sinks that fail, one call after another.

/// Calls with reads or writes that fail, and what was written until then.
pub(crate) const FAILING: &str = "
$ run
! read 1 34
< grid 2
< O 1 0
< X 0 1
< ranks
< hat
< end
= 3

$ run
! read 35
< grid 2
< O 1 0
< X 0 1
< ranks
< hat
< end
> ranks 2
> rank 0 0 1
> rank -1 -1 1
> hat exponent 1 rows 1
> rank 0 0 1

$ run
! room 0
< grid 2
< O 1 0
< X 0 1
< ranks
< hat
< end
= 4

$ run
! room 1
< grid 2
< O 1 0
< X 0 1
< ranks
< hat
< end
= 4
, r

$ run
! room 8
< grid 2
< O 1 0
< X 0 1
< ranks
< hat
< end
= 4
> ranks 2

$ run
! room 20
< grid 2
< O 1 0
< X 0 1
< ranks
< hat
< end
= 4
> ranks 2
> rank 0 0 1
, r

$ run
! room 64
< grid 2
< O 1 0
< X 0 1
< ranks
< hat
< end
= 4
> ranks 2
> rank 0 0 1
> rank -1 -1 1
> hat exponent 1 rows 1
, rank 0 0 1

$ run
! room 65
< grid 2
< O 1 0
< X 0 1
< ranks
< hat
< end
> ranks 2
> rank 0 0 1
> rank -1 -1 1
> hat exponent 1 rows 1
> rank 0 0 1

$ run
! room 10
< grid 2
< O 1 0
< X 0 1
= 4
, refused No

$ run
! write 40
< grid 2
< O 1 0
< X 0 1
< front
< ranks
< end
= 4
> front tb -1 rot 0 components 1
> ranks 2

$ run
! write 2
< grid 2
< O 1 0
< X 0 1
< ranks
< hat
< end
= 4
, r

$ run
! write 1
< grid 2
< O 1 0
< X 0 1
< ranks
< hat
< end
= 4

$ make --size=5 --seed 1
! write 2
< grid 2
< O 1 0
< X 0 1
< ranks
< hat
< end
= 4
, g

$ make --size=5 --seed 1
! read 1 3
> grid 5
> O 4 2 0 3 1
> X 0 4 3 1 2
> front
> hat
> class +
> class -
> end
> # tb -3 rot 0 rank 16 plus null minus null

$ cert
! read 1 23
< grid 2
< O 1 0
< X 0 1
< end
= 3

$ cert
! write 9
< grid 2
< O 1 0
< X 0 1
< end
= 4
, gridcert

$ check
! read 1 30
< gridcert 1
< grid 2
< O 1 0
< X 0 1
< cell 0 0
< cycle 01
< cocycle 01
< cell -1 -1
< cycle 10
< cocycle 10
< end
= 3

$ check
! write 3
< gridcert 1
< grid 2
< O 1 0
< X 0 1
< cell 0 0
< cycle 01
< cocycle 01
< cell -1 -1
< cycle 10
< cocycle 10
< end
= 4
, ye

$ check
! write 4
< grid 2
< O 1 0
< X 0 1
= 4
, ref

$ runs
! read 1 2
= 1
";
