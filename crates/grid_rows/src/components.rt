//! Documents of version 2, with tables and hats by component.
//!
//! Their rows were computed from the definitions by another program, from all states and all rectangles.

/// Reports, refusals, certificates and comparisons of documents that begin with `grid2`.
pub(crate) const COMPONENTS: &str = "
$ run
< grid2 4
< O 0 1 2 3
< X 2 3 0 1
< ranks
< hat
< end
> ranks 9
> rank 1 1 1 1
> rank 0 1 -1 2
> rank -1 1 -3 1
> rank 0 -1 1 2
> rank -1 -1 -1 4
> rank -2 -1 -3 2
> rank -1 -3 1 1
> rank -2 -3 -1 2
> rank -3 -3 -3 1
> hat exponents 1 1 rows 4
> rank 1 1 1 1
> rank 0 1 -1 1
> rank 0 -1 1 1
> rank -1 -1 -1 1

$ run
< grid2 2
< O 1 0
< X 0 1
< ranks
< hat
< end
> ranks 2
> rank 0 0 1
> rank -1 -2 1
> hat exponents 1 rows 1
> rank 0 0 1

$ run
< grid2 5
< O 0 1 2 3 4
< X 2 3 4 0 1
< ranks
< hat
< end
> ranks 7
> rank 2 2 1
> rank 1 0 5
> rank 0 -2 11
> rank -1 -4 14
> rank -2 -6 11
> rank -3 -8 5
> rank -4 -10 1
> hat exponents 4 rows 3
> rank 2 2 1
> rank 1 0 1
> rank 0 -2 1

$ run
< grid2 5
< O 0 1 2 3 4
< X 2 3 0 4 1
< hat
< ranks
< end
> hat exponents 1 2 rows 4
> rank 1 1 1 1
> rank 0 1 -1 1
> rank 0 -1 1 1
> rank -1 -1 -1 1
> ranks 12
> rank 1 1 1 1
> rank 0 1 -1 3
> rank -1 1 -3 3
> rank -2 1 -5 1
> rank 0 -1 1 2
> rank -1 -1 -1 6
> rank -2 -1 -3 6
> rank -3 -1 -5 2
> rank -1 -3 1 1
> rank -2 -3 -1 3
> rank -3 -3 -3 3
> rank -4 -3 -5 1

$ run
< grid2 5
< O 0 1 2 3 4
< X 2 3 0 4 1
< turn left
< ranks
< hat
< turn right
< turn up
< hat
< cols 3 over
< hat
< end
> ranks 12
> rank 1 1 1 1
> rank 0 1 -1 2
> rank -1 1 -3 1
> rank 0 -1 1 3
> rank -1 -1 -1 6
> rank -2 -1 -3 3
> rank -1 -3 1 3
> rank -2 -3 -1 6
> rank -3 -3 -3 3
> rank -2 -5 1 1
> rank -3 -5 -1 2
> rank -4 -5 -3 1
> hat exponents 2 1 rows 4
> rank 1 1 1 1
> rank 0 1 -1 1
> rank 0 -1 1 1
> rank -1 -1 -1 1
> hat exponents 1 2 rows 4
> rank 1 1 1 1
> rank 0 1 -1 1
> rank 0 -1 1 1
> rank -1 -1 -1 1
> hat exponents 1 2 rows 4
> rank 1 1 1 1
> rank 0 1 -1 1
> rank 0 -1 1 1
> rank -1 -1 -1 1

$ run
< grid2 5
< O 0 1 2 3 4
< X 2 3 0 4 1
< hat
< mirror
< hat
< marks
< hat
< flip
< ranks
< half
< hat
< end
> hat exponents 1 2 rows 4
> rank 1 1 1 1
> rank 0 1 -1 1
> rank 0 -1 1 1
> rank -1 -1 -1 1
> hat exponents 2 1 rows 4
> rank 0 1 1 1
> rank -1 1 -1 1
> rank -1 -1 1 1
> rank -2 -1 -1 1
> hat exponents 2 1 rows 4
> rank 0 1 1 1
> rank -1 1 -1 1
> rank -1 -1 1 1
> rank -2 -1 -1 1
> ranks 12
> rank 0 1 1 1
> rank -1 1 -1 3
> rank -2 1 -3 3
> rank -3 1 -5 1
> rank -1 -1 1 2
> rank -2 -1 -1 6
> rank -3 -1 -3 6
> rank -4 -1 -5 2
> rank -2 -3 1 1
> rank -3 -3 -1 3
> rank -4 -3 -3 3
> rank -5 -3 -5 1
> hat exponents 2 1 rows 4
> rank 0 1 1 1
> rank -1 1 -1 1
> rank -1 -1 1 1
> rank -2 -1 -1 1

$ run
< grid2 4
< O 0 1 2 3
< X 2 3 0 1
< ranks
< stab 1 nw
< hat
< ranks
< end
> ranks 9
> rank 1 1 1 1
> rank 0 1 -1 2
> rank -1 1 -3 1
> rank 0 -1 1 2
> rank -1 -1 -1 4
> rank -2 -1 -3 2
> rank -1 -3 1 1
> rank -2 -3 -1 2
> rank -3 -3 -3 1
> hat exponents 1 2 rows 4
> rank 1 1 1 1
> rank 0 1 -1 1
> rank 0 -1 1 1
> rank -1 -1 -1 1
> ranks 12
> rank 1 1 1 1
> rank 0 1 -1 3
> rank -1 1 -3 3
> rank -2 1 -5 1
> rank 0 -1 1 2
> rank -1 -1 -1 6
> rank -2 -1 -3 6
> rank -3 -1 -5 2
> rank -1 -3 1 1
> rank -2 -3 -1 3
> rank -3 -3 -3 3
> rank -4 -3 -5 1

$ run
< grid2 4
< O 0 1 2 3
< X 2 3 0 1
< ranks
< euler
< hat
< coranks
< ranks
< end
> ranks 9
> rank 1 1 1 1
> rank 0 1 -1 2
> rank -1 1 -3 1
> rank 0 -1 1 2
> rank -1 -1 -1 4
> rank -2 -1 -3 2
> rank -1 -3 1 1
> rank -2 -3 -1 2
> rank -3 -3 -3 1
> euler 5
> at 1 -1
> at 0 4
> at -1 -6
> at -2 4
> at -3 -1
> hat exponents 1 1 rows 4
> rank 1 1 1 1
> rank 0 1 -1 1
> rank 0 -1 1 1
> rank -1 -1 -1 1
> coranks 5
> rank 1 1 1
> rank 0 0 4
> rank -1 -1 6
> rank -2 -2 4
> rank -3 -3 1
> ranks 9
> rank 1 1 1 1
> rank 0 1 -1 2
> rank -1 1 -3 1
> rank 0 -1 1 2
> rank -1 -1 -1 4
> rank -2 -1 -3 2
> rank -1 -3 1 1
> rank -2 -3 -1 2
> rank -3 -3 -3 1

$ run
< grid2 3
< O 2 1 0
< X 1 0 2
< euler
< ranks
< euler
< end
> euler 3
> at 0 1
> at -1 -2
> at -2 1
> ranks 3
> rank 0 0 1
> rank -1 -2 2
> rank -2 -4 1
> euler 3
> at 0 1
> at -1 -2
> at -2 1

$ run
< grid2 4
< O 0 1 2 3
< X 2 3 0 1
< front
< chain 2301
< turn left
< show
< border 2301
< end
> front tb 0 rot 0 components 2
> chain 3012
> border 1302 2031 2310 3201

$ run
< # refused
< picture2 2
< OX
< XO
< end
= 2
> refused BadWord line 2

$ run
< picture2 2
= 2
> refused BadWord line 1

$ run
< grid2 4 4
< O 0 1 2 3
< X 2 3 0 1
< end
= 2
> refused BadCount line 1

$ run
< grid2 11
< end
= 2
> refused BadNumber line 1

$ run
< grid3 4
< O 0 1 2 3
< X 2 3 0 1
< end
= 2
> refused BadWord line 1

$ cert | check
< grid2 3
< O 2 1 0
< X 1 0 2
< ranks
< end
> yes

$ cert
< grid2 2
< O 1 0
< X 0 1
< ranks
< end
> gridcert 1
> grid 2
> O 1 0
> X 0 1
> cell 0 0
> cycle 01
> cocycle 01
> cell -1 -1
> cycle 10
> cocycle 10
> end

$ check
< gridcert 1
< grid2 2
< O 1 0
< X 0 1
< cell 0 0
< cycle 01
< cocycle 01
< cell -1 -1
< cycle 10
< cocycle 10
< end
= 2
> refused BadLine line 2

$ cert
< # of seven columns
< grid2 7
< O 0 1 2 3 4 5 6
< X 3 4 5 6 0 1 2
< end
= 2
> refused TooLarge line 2

$ compare
< grid2 2
< O 1 0
< X 0 1
< ranks
< end
< next
< grid 3
< O 2 1 0
< X 1 0 2
< end
> tb -1 -2 different
> rot 0 -1 different
> table different
> hat same
> class + alive alive same
> class - alive null different

$ compare
< grid2 4
< O 0 1 2 3
< X 2 3 0 1
< end
< next
< grid2 4
< O 0 1 2 3
< X 2 3 0 1
< turn left
< end
> tb 0 0 same
> rot 0 0 same
> table same
> hat same
> class + alive alive same
> class - alive alive same
";
