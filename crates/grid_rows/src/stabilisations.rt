//! Stabilisations and their undoing: the grid after them, and lines of its size.

/// Grids that change their size.
pub(crate) const STABILISATIONS: &str = "
$ run
< grid 2
< O 1 0
< X 0 1
< stab 0 ne
< front
< class +
< border 012
< end
> front tb -2 rot 1 components 1
> class + 021 at -2 -1 null
? bound 012 | bound 120 | bound 201 | bound 012 120 201
> border 021

$ run
< grid 2
< O 1 0
< X 0 1
< stab 0 sw
< front
< class -
< class +
< end
> front tb -2 rot -1 components 1
> class - 102 at -2 -1 null
? bound 012 | bound 120 | bound 201 | bound 012 120 201
> class + 021 at 0 0 alive
> cocycle 021

$ run
< grid 2
< O 1 0
< X 0 1
< stab 0 nw
< front
< end
> front tb -1 rot 0 components 1

$ run
< grid 2
< O 1 0
< X 0 1
< stab 0 se
< front
< class +
< end
> front tb -1 rot 0 components 1
> class + 012 at 0 0 alive
* cocycle 012

$ run
< grid 2
< O 1 0
< X 0 1
< stab 0 ne
< destab 0 0 ne
< front
< end
> front tb -1 rot 0 components 1

$ run
# no chain is followed, in either direction
< grid 2
< O 1 0
< X 0 1
< chain 01
< stab 0 nw
< show
< chain 012 120
< show
< destab 0 0 nw
< show
< end
> chain
> chain 012 120
> chain

$ run
# each table is that of the grid in force
< grid 2
< O 1 0
< X 0 1
< ranks
< stab 0 ne
< ranks
< hat
< destab 0 0 ne
< hat
< end
> ranks 2
> rank 0 0 1
> rank -1 -1 1
> ranks 3
> rank 0 0 1
> rank -1 -1 2
> rank -2 -2 1
> hat exponent 2 rows 1
> rank 0 0 1
> hat exponent 1 rows 1
> rank 0 0 1

$ run
< grid 2
< O 1 0
< X 0 1
< destab 0 0 ne
< end
= 2
> refused NotBlock line 4

$ run
< grid 2
< O 1 0
< X 0 1
< stab 0 ne
< destab 0 0 nw
< end
= 2
> refused NotBlock line 5

$ run
< grid 2
< O 1 0
< X 0 1
< stab 0 ne
< destab 0 1 ne
< end
= 2
> refused NotBlock line 5

$ run
< grid 10
< O 0 1 2 3 4 5 6 7 8 9
< X 3 4 5 6 7 8 9 0 1 2
< stab 0 nw
< end
= 2
> refused SizeLimit line 4

$ run
< grid 9
< O 0 1 2 3 4 5 6 7 8
< X 3 4 5 6 7 8 0 1 2
< stab 8 ne
< stab 9 sw
< end
= 2
> refused SizeLimit line 5

$ run
< grid 10
< O 0 1 2 3 4 5 6 7 8 9
< X 3 4 5 6 7 8 9 0 1 2
< stab 10 nw
< end
= 2
> refused BadNumber line 4

$ run
# a state has the size of the grid in force
< grid 2
< O 1 0
< X 0 1
< stab 0 ne
< border 01
< end
= 2
> refused BadState line 5

$ run
< grid 2
< O 1 0
< X 0 1
< stab 0 ne
< destab 0 0 ne
< chain 012
< end
= 2
> refused BadState line 6

$ run
# and so has a number
< grid 2
< O 1 0
< X 0 1
< stab 0 ne
< stab 2 nw
< stab 4 nw
< end
= 2
> refused BadNumber line 6

$ run
< grid 2
< O 1 0
< X 0 1
< stab 0
< end
= 2
> refused BadCount line 4

$ run
< grid 2
< O 1 0
< X 0 1
< stab 2 up
< end
= 2
> refused BadChoice line 4

$ run
< grid 2
< O 1 0
< X 0 1
< stab 2 ne
< end
= 2
> refused BadNumber line 4

$ run
< grid 2
< O 1 0
< X 0 1
< destab 0 ne
< end
= 2
> refused BadCount line 4

$ run
< grid 2
< O 1 0
< X 0 1
< destab 1 0 over
< end
= 2
> refused BadChoice line 4

$ run
< grid 2
< O 1 0
< X 0 1
< destab 1 0 ne
< end
= 2
> refused BadNumber line 4

$ run
< grid 2
< O 1 0
< X 0 1
< destab 0 1 ne
< end
= 2
> refused BadNumber line 4

$ cert
< # six columns, and then seven
< grid 6
< O 1 2 3 4 5 0
< X 0 1 2 3 4 5
< stab 2 se
< end
= 2
> refused TooLarge line 2

$ cert | check
# seven columns, and then six
< grid 7
< O 1 2 3 4 5 6 0
< X 0 1 2 3 4 5 6
< destab 2 2 se
< end
> yes

$ cert
< grid 2
< O 1 0
< X 0 1
< stab 0 ne
< end
> gridcert 1
> grid 3
> O 0 2 1
> X 1 0 2
> cell 0 0
> cycle 102
> cocycle 102
> cell -1 -1
* cycle
* cocycle
* cycle
* cocycle
* step
> probe 021
> cell -2 -1
> cell -2 -2
> cycle 210
> cocycle 210
> end
";
