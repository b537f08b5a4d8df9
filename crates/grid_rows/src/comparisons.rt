//! Euler numbers, and comparisons of two documents.

/// The Euler numbers of knots and of a link of two components.
pub(crate) const EULER_NUMBERS: &str = "
$ run
< grid 5
< O 0 1 2 3 4
< X 2 3 4 0 1
< euler
< end
> euler 7
> at 1 1
> at 0 -5
> at -1 11
> at -2 -14
> at -3 11
> at -4 -5
> at -5 1

$ run
< grid 4
< O 0 1 2 3
< X 2 3 0 1
< euler
< end
> euler 5
> at 1 -1
> at 0 4
> at -1 -6
> at -2 4
> at -3 -1

$ run
< grid 2
< O 1 0
< X 0 1
< euler
< ranks
< turn up
< euler
< end
> euler 2
> at 0 1
> at -1 -1
> ranks 2
> rank 0 0 1
> rank -1 -1 1
> euler 2
> at 0 1
> at -1 -1

$ run
< grid 2
< O 1 0
< X 0 1
< euler now
< end
= 2
> refused BadCount line 4
";

/// Texts of two documents, and texts that are none.
pub(crate) const COMPARISONS: &str = "
$ compare
< grid 2
< O 1 0
< X 0 1
< end
< next
< grid 3
< O 2 1 0
< X 1 0 2
< end
> tb -1 -2 different
> rot 0 -1 different
> table different
> hat same
> class + alive alive same
> class - alive null different

$ compare
< grid 3
< O 2 1 0
< X 1 0 2
< end
< next
< grid 2
< O 1 0
< X 0 1
< end
> tb -2 -1 different
> rot -1 0 different
> table different
> hat same
> class + alive alive same
> class - null alive different

$ compare
< grid 2
< O 1 0
< X 0 1
< end
< next
< grid 2
< O 1 0
< X 0 1
< end
> tb -1 -1 same
> rot 0 0 same
> table same
> hat same
> class + alive alive same
> class - alive alive same

# the grid in force after the commands, which is not that of the head: here the mirror image of a trefoil
$ compare
< grid 5
< O 0 1 2 3 4
< X 2 3 4 0 1
< mirror
< end
< next
< grid 5
< O 0 1 2 3 4
< X 2 3 4 0 1
< end
> tb -6 1 different
> rot 1 0 different
> table different
> hat different
> class + null alive different
> class - null alive different

# and here a stabilised and turned grid of the unknot
$ compare
< grid 2
< O 1 0
< X 0 1
< end
< next
< grid 2
< O 1 0
< X 0 1
< stab 0 ne
< turn up
< end
> tb -1 -2 different
> rot 0 1 different
> table different
> hat same
> class + alive null different
> class - alive alive same

$ compare
< grid 2
< O 1 0
< X 0 1
< front
< chain 10
< turn left
< end
< 
< # next
< \tnext \r
< # the same knot
< grid 2
< O 1 0
< X 0 1
< ranks
< end
> tb -1 -1 same
> rot 0 0 same
> table same
> hat same
> class + alive alive same
> class - alive alive same

$ compare
< grid 2
< O 1 0
< X 0 1
< end
= 2
> refused NoNext line 5

$ compare
< grid 2
< O 1 0
< X 0 1
< end
< 
< # next
= 2
> refused NoNext line 7

$ compare
< grid 2
< O 1 0
< X 0 1
< end
< next
< grid 1
= 2
> refused BadNumber line 6

$ compare
< grid 2
< O 1 0
< X 0 1
< end
< next
= 2
> refused NoEnd line 6

$ compare
< next
< grid 2
< O 1 0
< X 0 1
< end
= 2
> refused NoEnd line 1

$ compare
< grid 1
< next
< grid 1
= 2
> refused BadNumber line 1

$ compare
< grid 1
= 2
> refused BadNumber line 1

$ compare
< grid 2
< O 1 0
< X 0 1
< end
< next now
= 2
> refused AfterEnd line 5

$ compare
< grid 2
< O 1 0
< X 0 1
< end
< next
< grid 3
< O 2 1 0
< X 1 0 2
< end
< next
< grid 2
< O 1 0
< X 0 1
< end
= 2
> refused AfterEnd line 10

$ compare
r 13108 # no
= 2
> refused TooLong line 0

$ compare
! read 1 56
< grid 2
< O 1 0
< X 0 1
< end
< next
< grid 3
< O 2 1 0
< X 1 0 2
< end
= 3

$ compare
! room 0
< grid 2
< O 1 0
< X 0 1
< end
< next
< grid 3
< O 2 1 0
< X 1 0 2
< end
= 4

$ compare now
< grid 2
< O 1 0
< X 0 1
< end
< next
< grid 3
< O 2 1 0
< X 1 0 2
< end
= 1
";
