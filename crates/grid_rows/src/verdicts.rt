//! Classes and chains: null, alive, or no cycle. If several sets are evidence, a row names all of them, or a state
//! that each of them has.

/// Classes, and chains of one degree and of several.
pub(crate) const VERDICTS: &str = "
$ run
< grid 2
< O 1 0
< X 0 1
< front
< class +
< end
> front tb -1 rot 0 components 1
> class + 01 at 0 0 alive
> cocycle 01

$ run
< grid 5
< O 0 1 2 3 4
< X 2 3 4 0 1
< front
< class +
< end
> front tb 1 rot 0 components 1
> class + 23401 at 2 1 alive
> cocycle 23401

$ run
< grid 3
< O 2 1 0
< X 1 0 2
< ranks
< class -
< class +
< end
> ranks 3
> rank 0 0 1
> rank -1 -1 2
> rank -2 -2 1
> class - 102 at -2 -1 null
? bound 012 | bound 120 | bound 201 | bound 012 120 201
> class + 021 at 0 0 alive
> cocycle 021

$ run
< grid 2
< O 1 0
< X 0 1
< chain 01
< turn left
< show
< class +
< end
> chain 10
> class + 10 at 0 0 alive
> cocycle 10

$ run
< grid 2
< O 1 0
< X 0 1
< chain
< bounds
< end
> bounds null
> bound

$ run
< grid 3
< O 2 1 0
< X 1 0 2
< border 012
< border 021
< chain 012
< bounds
< end
> border 102
> border
> bounds notcycle 102

$ run
< grid 3
< O 2 1 0
< X 1 0 2
< chain 120 012
< show
< bounds
< chain 102 021
< bounds
< end
> chain 012 120
> bounds alive
? cocycle 012 | cocycle 120 | cocycle 012 201 | cocycle 120 201
> bounds alive
> cocycle 021

$ run
< grid 3
< O 2 1 0
< X 1 0 2
< chain 012
< bounds
< end
> bounds notcycle 102

$ run
< grid 3
< O 2 1 0
< X 1 0 2
< chain 021
< bounds
< end
> bounds alive
* cocycle 021

$ run
< grid 3
< O 2 1 0
< X 1 0 2
< chain 102
< bounds
< end
> bounds null
* bound

$ run
< grid 3
< O 2 1 0
< X 1 0 2
< chain 120
< bounds
< end
> bounds notcycle 102

$ run
< grid 3
< O 2 1 0
< X 1 0 2
< chain 201
< bounds
< end
> bounds notcycle 102

$ run
< grid 3
< O 2 1 0
< X 1 0 2
< chain 210
< bounds
< end
> bounds alive
* cocycle 210

$ run
< grid 4
< O 0 2 1 3
< X 1 3 2 0
< chain
< bounds
< end
> bounds null
> bound

$ run
< grid 4
< O 0 2 1 3
< X 1 3 2 0
< chain 0213 1203
< bounds
< end
> bounds null
* bound

$ run
< grid 4
< O 0 2 1 3
< X 1 3 2 0
< chain 0213 1320
< bounds
< end
> bounds alive
* cocycle

$ run
< grid 4
< O 0 2 1 3
< X 1 3 2 0
< chain 0132 1203
< bounds
< end
> bounds alive
* cocycle

$ run
< grid 4
< O 0 2 1 3
< X 1 3 2 0
< chain 0321 1203
< bounds
< end
> bounds alive
* cocycle

$ run
< grid 4
< O 0 2 1 3
< X 1 3 2 0
< chain 0213 1023 1230
< bounds
< end
> bounds alive
* cocycle

$ run
< grid 4
< O 0 2 1 3
< X 1 3 2 0
< chain 0213 1302 2103 2310 3201
< bounds
< end
> bounds null
* bound

$ run
< grid 4
< O 0 2 1 3
< X 1 3 2 0
< chain 0231 1032 1203 2013 2130
< bounds
< end
> bounds null
* bound

$ run
< grid 4
< O 0 2 1 3
< X 1 3 2 0
< chain 0123 1023
< bounds
< end
> bounds notcycle 0213

$ run
< grid 4
< O 0 2 1 3
< X 1 3 2 0
< chain 1302 3201
< bounds
< end
> bounds notcycle 3210

$ run
< grid 4
< O 0 2 1 3
< X 1 3 2 0
< chain 1203
< class +
< cols 1 under
< show
< class +
< end
> class + 1203 at -2 -1 null
* bound
> chain 2103
> class + 1023 at -2 -1 null
* bound
";
