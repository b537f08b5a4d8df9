//! Chains that are followed through turns, commutations and symmetries.

/// Small grids.
pub(crate) const MOVES: &str = "
$ run
< grid 3
< O 2 1 0
< X 1 0 2
< chain 120 012
< flip
< show
< end
> chain 012 201

$ run
< grid 3
< O 2 1 0
< X 1 0 2
< chain 120 012
< half
< show
< end
> chain 012 201

$ run
< grid 3
< O 2 1 0
< X 1 0 2
< chain 120 012
< marks
< show
< end
> chain 012 120

$ run
< grid 3
< O 2 1 0
< X 1 0 2
< chain 120 012
< mirror
< show
< end
> chain

$ run
< grid 3
< O 2 1 0
< X 1 0 2
< chain 120 012
< show
< end
> chain 012 120

$ run
< grid 2
< O 1 0
< X 0 1
< show
< chain
< show
< end
> chain
> chain

$ run
< grid 2
< O 1 0
< X 0 1
< chain 01
< turn left
< show
< end
> chain 10

$ run
< grid 4
< O 0 2 1 3
< X 1 3 2 0
< chain 1203
< cols 1 over
< show
< end
> chain 1023

$ run
< grid 4
< O 0 2 1 3
< X 1 3 2 0
< chain 1203
< cols 1 under
< show
< end
> chain 2103

$ run
< grid 4
< O 0 2 1 3
< X 1 3 2 0
< chain 1203
< cols 1 over
< cols 1 over
< show
< ranks
< end
> chain 1203
> ranks 4
> rank 0 0 1
> rank -1 -1 3
> rank -2 -2 3
> rank -3 -3 1

$ run
< grid 4
< O 2 1 3 0
< X 3 2 0 1
< chain 2031
< cols 0 over
< show
< end
> chain 0231

$ run
< grid 4
< O 0 2 1 3
< X 3 0 2 1
< chain 2013
< rows 1 over
< show
< end
> chain 1023

$ run
< grid 4
< O 0 2 1 3
< X 1 3 2 0
< chain 2031
< cols 1 over
< show
< end
> chain 0231 2301

$ run
< grid 4
< O 0 2 1 3
< X 1 3 2 0
< chain 0312
< invert cols 1 over
< show
< end
> return 0123 2013 3102
> homotopy 3012
> chain 0312

$ run
< grid 4
< O 0 2 1 3
< X 1 3 2 0
< chain 1203
< invert cols 1 over
< end
> return 1203
> homotopy

$ run
< grid 4
< O 0 2 1 3
< X 3 0 2 1
< chain 0231
< invert rows 1 over
< end
> return 0123 1203 2130
> homotopy 1230

$ run
< grid 4
< O 0 2 1 3
< X 1 3 2 0
< chain 0231 1203 3120
< turn left
< show
< front
< border 1203
< end
> chain 1203 2031 2310
> front tb -2 rot 1 components 1
> border 2103

$ run
< grid 4
< O 0 2 1 3
< X 1 3 2 0
< chain 0231 1203 3120
< turn right
< show
< front
< border 0312
< end
> chain 0312 1023 3120
> front tb -2 rot 1 components 1
> border 0321

$ run
< grid 4
< O 0 2 1 3
< X 1 3 2 0
< chain 0231 1203 3120
< turn up
< show
< front
< border 0231
< end
> chain 0231 1302 2310
> front tb -2 rot 1 components 1
> border 0321

$ run
< grid 4
< O 0 2 1 3
< X 1 3 2 0
< chain 0231 1203 3120
< turn down
< show
< front
< border 0132
< end
> chain 0132 2013 3120
> front tb -2 rot 1 components 1
> border

$ run
< grid 4
< O 0 2 1 3
< X 1 3 2 0
< chain 0123
< cols 1 over
< show
< end
> chain
";

/// Grids of nine columns.
pub(crate) const MOVES_OF_NINE: &str = "
$ run
< grid 9
< O 5 2 4 0 3 8 6 1 7
< X 4 1 3 8 7 5 2 0 6
< chain 436517208 476513082 532716408
< cols 8 under
< show
< cols 8 over
< show
< end
> chain 436517280 476513028 476513280 476523081 486517203 532716480 582716403 832716405 836517204
> chain 032716485 036517284 076513284 406517283 476523018 476523180 486517230 502716483 582716430 832716450 836517240 876513024

$ run
< grid 9
< O 7 4 5 8 6 3 1 2 0
< X 1 2 0 6 5 8 3 7 4
< chain 283015746 480731652 486213750
< rows 8 under
< show
< rows 8 over
< show
< end
> chain 263015748 273015846 450731682 456213780 460731852 476213850 823015746 840731652 846213750
> chain 263015784 263015847 273815046 450731628 456213708 458731602 468731052 476213058 540731682 546213780 640731852 723015846 740831652 746213850
";
